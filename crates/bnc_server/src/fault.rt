//! Why a script isn't answered to its end.

use thiserror::Error;

/// Why a script wasn't answered to its end.
#[derive(Clone, Copy, Debug, PartialEq, Eq, Error)]
pub enum ReplayFault {
    /// There was no memory.
    #[error("no memory")]
    NoMemory,
    /// The reader failed, the most reads were made, or a node can take no further change or begin no further life.
    #[error("reading failed")]
    Read,
    /// The writer failed.
    #[error("writing failed")]
    Write,
}
