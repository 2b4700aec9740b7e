//! A node that takes what a peer sends.
ghost use Rattle.std.specs.Prelude.{◌≡◌, ◌+◌, ◌++◌, length, IfOk, OnErr, MatchResult};
ghost use Rattle.shared_node.specs.Lists.{changes_in, under};
ghost use Rattle.shared_node.specs.Passes.{FollowsAll};
ghost use Rattle.shared_node.specs.Puts.{appended_of};

use crate::faults::PutFault;
use crate::half::Ends;
use crate::history::Naming;
use crate::node::SharedNode;
use crate::pass::{Pass, Receipt};
use chat_change::Change;
use gossip_delta::{NotTaken, Taker};
use std::alloc::Global;
use std::sync::Wait;

/// A node, and the pass by which it takes changes.
#[derive(Drop)]
pub struct NodeTaker<'a, J: Naming, R: Ends, W> {
    node: &'a SharedNode<J, R>,
    pub pass: Pass<J>,
    rt: &'a W,
}

impl<'a, J: Naming, R: Ends, W> NodeTaker<'a, J, R, W> {
    pub fn new(node: &'a SharedNode<J, R>, pass: Pass<J>, rt: &'a W) -> NodeTaker<'a, J, R, W>
        ensures { result.pass ≡ pass }
    {
        NodeTaker { node, pass, rt }
    }

    /// The pass, with what it has seen and put.
    pub fn into_pass(self) -> Pass<J>
        ensures { result ≡ self.entry.pass }
    {
        self.pass
    }
}

impl<'a, J: Naming, R: Ends, W: Wait> NodeTaker<'a, J, R, W> {
    /// Puts the changes by the pass ([`SharedNode::put`]).
    pub fn put(&mut self, changes: &[Change]) -> Result<Receipt<J>, PutFault>
        ensures receipt { IfOk result (λ r. (before : _) × FollowsAll self.old.pass before
            × (r ≡ before ++ under self.old.pass.number changes.now)) }
        ensures list { IfOk result (λ r. self.new.pass.list ≡ r) }
        ensures count { MatchResult result
            (λ _. self.new.pass.count ≡ self.old.pass.count + length changes.now)
            (λ e. self.new.pass.count ≡ self.old.pass.count + appended_of (length changes.now) e) }
        ensures refused { OnErr result (self.new.pass.list ≡ self.old.pass.list) }
        ensures same { (self.new.pass.number ≡ self.old.pass.number)
            × (self.new.pass.told ≡ self.old.pass.told) }
    {
        self.node.put(self.rt, &mut self.pass, changes)
    }
}

impl<'a, J: Naming, R: Ends, W: Wait> Taker for NodeTaker<'a, J, R, W> {
    ghost holds = { λ t start list. (start ≡ 0) × (list ≡ changes_in t.pass.list) };

    ghost may_add = { λ _ _. Unit {0} };

    /// Puts them. Where that is refused, what waits is published with the next put that succeeds.
    fn take(&mut self, _alloc: Global, changes: &[Change]) -> Result<(), NotTaken> {
        match self.put(changes) {
            Ok(_receipt) => Ok(()),
            Err(_) => Err(NotTaken),
        }
    }
}
