//! A list of calls that only clauses read.
ghost use Rattle.std.specs.Prelude.{◌≡◌, List, [], ◌∷◌};
ghost use Rattle.std.specs.Borrow.{ftrue};
ghost use Rattle.real_file.specs.Calls.{Call, call_of};

use std::marker::{Model, PhantomData};

#[derive(Drop)]
pub struct CallRecord {
    marker: PhantomData<u8>,
    pub ghost events: { List Call },
}

impl Model for CallRecord {
    ghost also_owns = { λ _. ftrue };
}

// It owns nothing.
unsafe impl Send for CallRecord {}

impl CallRecord {
    pub(crate) fn new() -> CallRecord
        ensures { result.events ≡ [] }
    {
        CallRecord {
            marker: PhantomData,
        }
    }

    /// The numbers are the kind of a call, an offset or a length, and 1 for success.
    pub(crate) fn note(&mut self, _numbers: &[u64], _bytes: &[u8])
        ensures { self.new.events ≡ call_of _numbers.now _bytes.now ∷ self.old.events }
    {}
}
