//! Entries of the published list.
use chat_change::Change;

/// A change, and the number of the pass that put it.
#[derive(Drop)]
pub struct LogEntry {
    pub by: u64,
    pub change: Change,
}
