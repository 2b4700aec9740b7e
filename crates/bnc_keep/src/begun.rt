//! A keeper whose life is begun.
ghost use Rattle.std.specs.Prelude.{◌≡◌, IfOk, true};

use crate::opening::word_of;
use chat_change::Change;
use chat_history::{Delta, DeltaFault, NotTaken, Source, Taker};
use gossip_link::{NodeName, Terms};
use keeper::{Device, FileFault, Keeper};
use std::alloc::{AllocError, Global};
use std::sync::Arc;

/// A keeper whose life is begun, and what it brings to each connection: that life.
#[derive(Drop)]
pub(crate) struct Begun<D: Device> {
    pub(crate) keeper: Keeper<D>,
    pub(crate) terms: Arc<Terms>,
    ghost life: { keeper.life ≡ terms.value.me.incarnation },
}

impl<D: Device + Drop> Begun<D> {
    /// Of a keeper whose life those terms have.
    pub(crate) fn new(
        alloc: Global,
        keeper: Keeper<D>,
        terms: Terms,
    ) -> Result<Begun<D>, AllocError>
        requires { keeper.life ≡ terms.me.incarnation }
        ensures keeper { IfOk result (λ begun. begun.keeper ≡ keeper) }
        ensures terms { IfOk result (λ begun. begun.terms.value ≡ terms) }
    {
        let terms = Arc::new(alloc, terms)?;
        Ok(Begun { keeper, terms })
    }

    /// Writes the file anew: how many pieces it has ([`Keeper::compact`]).
    pub(crate) fn rewrite(&mut self, alloc: Global, node: &NodeName) -> Result<u64, FileFault>
        requires { self.old.keeper.is_open ≡ true }
    {
        self.keeper.compact(alloc, word_of(node))
    }
}

/// What it has taken is in its state and on its disk.
impl<D: Device> Taker for Begun<D> {
    ghost use Rattle.std.specs.Prelude.{◌≡◌, []};
    ghost use Rattle.keeper.specs.Keeper.{HasTaken};

    ghost holds = { λ b start list. HasTaken D.seen D.may_leave b.keeper start list };

    ghost may_add = { λ _ others. others ≡ [] };

    fn take(&mut self, alloc: Global, changes: &[Change]) -> Result<(), NotTaken> {
        self.keeper.take(alloc, changes)
    }
}

/// What it gives out is what it has taken.
impl<D: Device> Source for Begun<D> {
    ghost use Rattle.std.specs.Prelude.{◌≡◌, []};
    ghost use Rattle.keeper.specs.Keeper.{HasTaken};

    ghost holds = { λ b start list. HasTaken D.seen D.may_leave b.keeper start list };

    ghost may_add = { λ _ others. others ≡ [] };

    fn delta(&mut self, alloc: Global, from: u64) -> Result<Delta, DeltaFault> {
        self.keeper.delta(alloc, from)
    }
}
