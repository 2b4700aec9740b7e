//! What is found in a file when it is read.
ghost use Rattle.std.specs.Prelude.{◌≡◌, []};
ghost use Rattle.keeper.specs.Found as spec;

use chat_change::Change;
use chat_state::State;
use history_file::FileFault;

/// How many changes a file has.
#[derive(Clone, Copy, Debug, PartialEq, Eq)]
pub struct Count {
    /// All of them.
    pub changes: u64,
    /// Those that take something away: redactions and floors.
    pub removals: u64,
}

/// Whether a change takes something away.
pub fn is_removal(change: &Change) -> bool
    ensures { result ≡ spec.is_removal change.now }
{
    match change {
        Change::Redact { .. } | Change::Floor { .. } | Change::AccountFloor { .. } => true,
        Change::Post(_) | Change::Mark { .. } => false,
    }
}

impl Count {
    /// Of a file with no changes.
    pub(crate) fn new() -> Count
        ensures { result ≡ spec.count_of [] }
    {
        Count {
            changes: 0,
            removals: 0,
        }
    }

    /// With some more changes.
    pub(crate) fn with(self, changes: &[Change]) -> Count
        ensures { result ≡ spec.with_more self changes.now }
    {
        let removals = changes.iter().filter(|change| is_removal(change)).count();
        Count {
            changes: self.changes.saturating_add(changes.len() as u64),
            removals: self.removals.saturating_add(removals as u64),
        }
    }
}

/// Why a file wasn't read to its end, and where its block begins that wasn't read.
#[derive(Clone, Copy, Debug, PartialEq, Eq)]
pub struct Unread {
    /// Why.
    pub fault: FileFault,
    /// How long the blocks are together that were read.
    pub at: usize,
}

/// What was found in a file.
#[derive(Drop)]
pub struct Found {
    /// The state that has taken all its changes.
    pub state: State,
    /// The number after which the state's pieces begin.
    pub front: u64,
    /// How long the blocks of the file are together.
    pub end: usize,
    /// The greatest number of a life.
    pub life: u64,
    /// How many bytes stand behind the blocks: the closed gate, or what an append left that was cut short.
    pub left: usize,
    /// What its changes are, by their number.
    pub count: Count,
}
