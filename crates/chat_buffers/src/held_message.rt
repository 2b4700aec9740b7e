//! What is held of one message.

ghost use Rattle.std.specs.Prelude.{◌≡◌};
ghost use Rattle.chat_buffers.specs.Messages as spec;

use crate::moment_if_known::MomentIfKnown;
use chat_change::Record;
use std::alloc::AllocError;

/// What is held of a message, under the number of its piece.
#[derive(Drop)]
pub(crate) enum HeldMessage {
    /// Its kept record.
    Kept(Record, u64),
    /// It was redacted, and stood at that moment. None where its moment isn't known.
    Gone(MomentIfKnown, u64),
}

impl HeldMessage {
    /// The number of its piece.
    pub(crate) fn number(&self) -> u64
        ensures { result ≡ spec.number_of self.now }
    {
        match self {
            HeldMessage::Kept(_, number) => *number,
            HeldMessage::Gone(_, number) => *number,
        }
    }
}

/// A clone shares the memory of the record.
impl Clone for HeldMessage {
    ghost is_clone = { λ held_message copy. copy ≡ held_message };

    fn clone(&self) -> Result<HeldMessage, AllocError> {
        match self {
            HeldMessage::Kept(post, number) => {
                let post = post.try_clone()?;
                Ok(HeldMessage::Kept(post, *number))
            }
            HeldMessage::Gone(at, number) => {
                let at = MomentIfKnown::new(at.get());
                Ok(HeldMessage::Gone(at, *number))
            }
        }
    }
}
