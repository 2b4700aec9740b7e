//! Pages.

use chat_change::Record;
use chat_query::ListedBuffer;
use std::alloc::AllocError;
use thiserror::Error;

/// Why there is no page.
#[derive(Clone, Copy, Debug, PartialEq, Eq, Error)]
pub enum PageFault {
    /// A selector names a message for which the buffer has no position.
    #[error("no such message")]
    UnknownMessage,
    /// There was no memory.
    #[error("no memory")]
    NoMemory,
}

impl From<AllocError> for PageFault {
    ghost use Rattle.std.specs.Prelude.{◌≡◌};
    ghost use Rattle.chat_page.specs.declared.pages.PageFault.{PageFault};

    ghost from_gives = { λ _ fault. fault ≡ PageFault.NoMemory };

    fn from(_: AllocError) -> PageFault {
        PageFault::NoMemory
    }
}

/// The answer to a query. It lends what the state holds.
#[derive(Drop)]
pub enum Page<'a> {
    /// Records of one buffer, by rising (moment, id).
    Records(Vec<&'a Record>),
    /// Buffers, by rising (moment of the latest message, folded target).
    Buffers(Vec<ListedBuffer<'a>>),
}
