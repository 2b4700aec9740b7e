//! Why a line or a message of a peer is refused.

use thiserror::Error;

/// Why a line or a message of a peer was refused, or none was made. Of several causes the first of this list is answered.
#[derive(Clone, Copy, Debug, PartialEq, Eq, Error)]
pub enum LinkFault {
    /// It isn't a line of a peer, or not one that may come now.
    #[error("not a peer's line")]
    BadForm,
    /// It isn't from the peer's life, or not to mine.
    #[error("another life")]
    WrongLife,
    /// It acknowledges more than was sent.
    #[error("more is acknowledged than was sent")]
    AckTooHigh,
    /// There was no memory.
    #[error("no memory")]
    NoMemory,
    /// Not all of its changes were taken.
    #[error("not all changes were taken")]
    NotTaken,
    /// The source let no reader in.
    #[error("no entry")]
    NoEntry,
}
