//! What a floor of a buffer leaves of the index.

ghost use Rattle.chat_state.specs.Sweeping.{is_left};

use crate::store::piece_name::PieceName;
use chat_change::{Buffer, Moment};
use ordered_maps::Keeps;

/// Keeps what a floor of a buffer leaves: all but the records of the buffer that stand below it.
#[derive(Clone, Copy)]
pub(crate) struct FromBufferFloor<'a> {
    pub(crate) buffer: &'a Buffer,
    pub(crate) floor: Moment,
}

impl Keeps<PieceName> for FromBufferFloor<'_> {
    ghost is_kept = { λ f. is_left f.buffer.now f.floor };

    fn keeps(&self, name: &PieceName) -> bool {
        match name.post() {
            Some(post) => post.at().ms() >= self.floor.ms() || self.buffer != post.buffer(),
            None => true,
        }
    }
}
