//! Deltas, where they come from, and what takes them.
ghost use Rattle.std.specs.Prelude.{◌≡◌, ◌++◌, ◌==◌, ℕ, List, IfOk, OnOk, OnErr, take, length};
ghost use Rattle.chat_change.specs.declared.change.Change.{Change as Piece};
ghost use Rattle.chat_history.specs.Numbering as numbering;
ghost use Rattle.chat_history.specs.Growth.{AfterOthers};

use chat_change::Change;
use std::alloc::Global;
use std::marker::Model;
use thiserror::Error;

/// The most changes of one delta.
pub const DELTA_LIMIT: usize = 256;

/// The pieces that a node holds with numbers above `from`, by rising number, at most 256 of them. Whoever includes the
/// pieces up to `from` and takes these includes those up to `to`.
#[derive(Drop)]
pub struct Delta {
    from: u64,
    to: u64,
    changes: Vec<Change>,
}

impl Model for Delta {
    ghost Value = { numbering.Delta };

    ghost view = { λ d. record { from = d.from; to = d.to; changes = d.changes.items } };
}

impl Delta {
    /// The delta of these pieces.
    pub fn new(from: u64, to: u64, changes: Vec<Change>) -> Delta
        ensures { result ≡ record { from = from; to = to; changes = changes.items } }
    {
        Delta { from, to, changes }
    }

    /// The number above which its pieces are.
    pub fn from(&self) -> u64
        ensures { result ≡ self.now.from }
    {
        self.from
    }

    /// The number up to which whoever takes it includes the node's pieces.
    pub fn to(&self) -> u64
        ensures { result ≡ self.now.to }
    {
        self.to
    }

    /// Whether nothing is newer than `from`.
    pub fn is_empty(&self) -> bool
        ensures { result ≡ (length self.now.changes == 0) }
    {
        self.changes.is_empty()
    }

    /// Its pieces, by rising number.
    pub fn changes(&self) -> &[Change]
        ensures { result.now ≡ self.now.changes }
    {
        &self.changes
    }

    /// Its pieces, handed out.
    pub fn into_changes(self) -> Vec<Change>
        ensures { result.items ≡ self.changes }
    {
        self.changes
    }
}

/// Why there was no delta.
#[derive(Clone, Copy, Debug, PartialEq, Eq, Error)]
pub enum DeltaFault {
    /// A reader was not let in. A `State` never answers this.
    #[error("no entry")]
    NoEntry,
    /// There was no memory.
    #[error("no memory")]
    NoMemory,
}

/// The changes weren't all taken.
#[derive(Clone, Copy, Debug, PartialEq, Eq, Error)]
#[error("not all changes were taken")]
pub struct NotTaken;

/// What gives deltas. `holds s start list` says that it has taken the list, beginning at the number `start`, and
/// `may_add s list` that others may give it the list meanwhile.
pub trait Source {
    ghost holds: { Self → ℕ → List Piece → Type 0 };

    ghost may_add: { Self → List Piece → Type 0 };

    /// The delta since a number of what it has taken by then, to which others may add before.
    fn delta(&mut self, alloc: Global, from: u64) -> Result<Delta, DeltaFault>
        ensures given { IfOk result (λ d. AfterOthers holds may_add self.old
            (λ start all. holds self.new start all × (d ≡ numbering.delta start all from))) }
        ensures kept { OnErr result (AfterOthers holds may_add self.old
            (λ start all. holds self.new start all)) };
}

/// What takes changes. `holds t start list` says that it has taken the list, beginning at the number `start`, and
/// `may_add t list` that others may give it the list meanwhile.
pub trait Taker {
    ghost holds: { Self → ℕ → List Piece → Type 0 };

    ghost may_add: { Self → List Piece → Type 0 };

    /// Takes all of them, after what others may add before, or a prefix of them.
    fn take(&mut self, alloc: Global, changes: &[Change]) -> Result<(), NotTaken>
        ensures all { OnOk result (AfterOthers holds may_add self.old
            (λ start all. holds self.new start (all ++ changes.now))) }
        ensures part { OnErr result (AfterOthers holds may_add self.old
            (λ start all. (count : ℕ) × holds self.new start (all ++ take count changes.now))) };
}
