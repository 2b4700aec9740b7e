//! What was put, in order. It exists in proofs alone: it takes no memory, and its methods do nothing at run time.
ghost use Rattle.std.specs.Prelude.{◌≡◌, ◌++◌, List, [], take};
ghost use Rattle.std.specs.Borrow.{ftrue};
ghost use Rattle.chat_change.specs.declared.change.Change.{Change as Piece};

use chat_change::Change;
use std::marker::{Model, PhantomData};

/// Changes that were put. A clause reads them as `changes`.
#[derive(Drop)]
pub struct PutList {
    marker: PhantomData<u8>,
    pub ghost changes: { List Piece },
}

impl Model for PutList {
    ghost also_owns = { λ _. ftrue };
}

// It owns nothing.
unsafe impl Send for PutList {}

impl PutList {
    /// Nothing was put.
    pub fn new() -> PutList
        ensures { result.changes ≡ [] }
    {
        PutList {
            marker: PhantomData,
        }
    }

    /// The first of these were put too, so many of them.
    #[inline(always)]
    pub fn add_first(&mut self, _count: usize, _changes: &[Change])
        ensures { self.new.changes ≡ self.old.changes ++ take _count _changes.now }
    {}
}
