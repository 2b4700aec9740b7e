//! Why a call on a shared node is refused.
use thiserror::Error;

/// Why no node was made.
#[derive(Clone, Copy, Debug, PartialEq, Eq, Error)]
pub enum NodeFault {
    /// The number of passes is not 1 to 64.
    #[error("the number of passes is not 1 to 64")]
    BadCount,
    /// There was no memory.
    #[error("no memory")]
    NoMemory,
    /// There was no place for a reader.
    #[error("no place for a reader")]
    NoReader,
}

/// Why changes were not put and published.
#[derive(Clone, Copy, Debug, PartialEq, Eq, Error)]
pub enum PutFault {
    /// There was no memory. The first `appended` changes wait, behind all that waited, for the next put that succeeds.
    #[error("no memory: {appended} changes wait")]
    NoMemory { appended: usize },
    /// There was no memory to publish. All changes wait.
    #[error("no memory: all changes wait")]
    Waiting,
    /// The count of all changes put would pass 18446744073709551615. Nothing waits that didn't.
    #[error("no number is left")]
    Exhausted,
}
