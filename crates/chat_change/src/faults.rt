//! Why a part of a change is refused.
//!
//! What goes into a line has the shape that the grammar of messages gives it (RFC 1459 and RFC 2812, section 2.3).

use thiserror::Error;

/// Why a part of a change is refused. Of several faults the first of this list is answered, and [`BadTags`](Self::BadTags)
/// before want of memory.
#[derive(Clone, Copy, Debug, PartialEq, Eq, Error)]
pub enum ChangeFault {
    /// An account or a network has 1 to 32 bytes of `a-z`, `0-9`, `-` and `_`.
    #[error("not a name")]
    BadName,
    /// A target has 1 to 200 bytes, none of NUL, CR, LF, space and comma, doesn't begin with `:` and isn't `*`.
    #[error("not a target")]
    BadTarget,
    /// A message id has 1 to 255 bytes, none of NUL, CR, LF and space, and doesn't begin with `:`.
    #[error("not a message id")]
    BadId,
    /// A source keeps the rule of a message id: 1 to 255 bytes, none of NUL, CR, LF and space, no `:` in front.
    #[error("not a source")]
    BadSource,
    /// A body has no NUL, CR or LF. It may be empty.
    #[error("not a body")]
    BadBody,
    /// The line `:source KIND target :body` has at most 510 bytes without its ending (RFC 1459 section 2.3).
    #[error("the line is too long")]
    LineTooLong,
    /// There was no memory.
    #[error("no memory")]
    NoMemory,
    /// The tags of a message are client-only tags as they are written, in 1 to 4094 bytes (IRCv3 message-tags).
    #[error("not client-only tags")]
    BadTags,
}
