//! A node to be, before it has a name.
ghost use Rattle.std.specs.Prelude.{◌≡◌, []};

use crate::entry::LogEntry;
use crate::growing::{Growing, Reached};
use std::sync::ledger::Blank;

/// A node that has no name and no passes yet: its empty history, and as many parts of the count of changes as it is to
/// have passes.
#[derive(Drop)]
pub struct Unnamed {
    pub(crate) whole: Growing<LogEntry>,
    pub(crate) seen: Reached<LogEntry>,
    pub(crate) blank: Blank,
    pub(crate) passes: usize,
    pub ghost empty: { (whole.list ≡ []) × (seen.list ≡ []) },
    pub ghost same: { whole.book ≡ seen.book },
    pub ghost cut: { blank.parts ≡ passes },
}

impl Unnamed {
    /// A node to be, of so many passes.
    pub fn new(passes: usize) -> Unnamed
        ensures { result.passes ≡ passes }
    {
        let mut whole = Growing::new();
        let seen = whole.reached();
        Unnamed {
            whole,
            seen,
            blank: Blank::new(passes as u64),
            passes,
        }
    }

    pub fn passes(&self) -> usize
        ensures { result ≡ self.now.passes }
    {
        self.passes
    }
}
