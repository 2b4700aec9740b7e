//! What a floor leaves of messages.

ghost use Rattle.std.specs.Prelude.{◌≡◌};
ghost use Rattle.chat_buffers.specs.Messages.{stands_from, is_left};

use crate::held_message::HeldMessage;
use chat_change::{Moment, Record};
use ordered_maps::Keeps;

/// Keeps what a floor leaves: the records that stand at it or above it, and all redactions.
#[derive(Clone, Copy)]
pub(crate) struct FromFloor {
    pub(crate) floor: Moment,
}

fn stands_from(floor: Moment, post: &Record) -> bool
    ensures { result ≡ stands_from floor post.now }
{
    floor.ms() <= post.at().ms()
}

impl Keeps<Record> for FromFloor {
    ghost is_kept = { λ f. stands_from f.floor };

    fn keeps(&self, post: &Record) -> bool {
        stands_from(self.floor, post)
    }
}

impl Keeps<HeldMessage> for FromFloor {
    ghost is_kept = { λ f. is_left f.floor };

    fn keeps(&self, held_message: &HeldMessage) -> bool {
        match held_message {
            HeldMessage::Kept(post, _) => stands_from(self.floor, post),
            HeldMessage::Gone(_, _) => true,
        }
    }
}
