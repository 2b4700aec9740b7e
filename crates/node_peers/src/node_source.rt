//! What a node holds, as a source of packets, and who takes what packets bring.
ghost use Rattle.std.specs.Prelude.{◌≡◌, ◌++◌};

use chat_change::Change;
use chat_history::{Delta, DeltaFault, NotTaken, Source, Taker};
use node_ports::NodePass;
use std::alloc::Global;

/// What the node holds, as a source of packets.
#[derive(Drop)]
pub(crate) struct NodeSource<'a, N: NodePass> {
    pub(crate) pass: &'a mut N,
}

impl<'a, N: NodePass> Source for NodeSource<'a, N> {
    ghost holds = { λ s start list. (start ≡ 0) × (list ≡ N.seen s.pass.now) };

    ghost may_add = { λ s others. ∥ N.Connection.facts.held (N.seen s.pass.now ++ others) ∥₁ };

    fn delta(&mut self, alloc: Global, from: u64) -> Result<Delta, DeltaFault> {
        self.pass.delta(alloc, from)
    }
}

/// Takes nothing, and agrees to all: the node takes what a packet brings once its acknowledgement is written.
#[derive(Drop)]
pub(crate) struct Agreed;

impl Taker for Agreed {
    ghost holds = { λ _ _ _. Unit {0} };

    ghost may_add = { λ _ _. Unit {0} };

    fn take(&mut self, _alloc: Global, _changes: &[Change]) -> Result<(), NotTaken> {
        Ok(())
    }
}
