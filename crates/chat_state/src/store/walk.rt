//! The pieces by rising number.

ghost use Rattle.std.specs.Prelude.{◌≡◌, Some};
ghost use Rattle.std.specs.Option.{option_map};
ghost use Rattle.chat_change.specs.Extent.{value_of};
ghost use Rattle.chat_change.specs.Key as key;
ghost use Rattle.chat_history.specs.Choice.{IsFirst};
ghost use Rattle.chat_buffers.specs.Store as spec;
ghost use Rattle.chat_state.specs.Piece.{change_of, numbered_of};
ghost use Rattle.chat_state.specs.Walk.{IsHeld, IsPieceOf};

use crate::store::Store;
use crate::store::number::Number;
use crate::store::piece::Piece;
use crate::store::piece_name::PieceName;
use chat_buffers::MessageRef;
use chat_change::{Buffer, ChangeRef, Extent, Key, MsgId};

impl Store {
    /// The piece with the least number above another. It takes no memory.
    pub(crate) fn next_above(&self, number: u64) -> Option<Piece<'_>>
        ensures { IsFirst spec.by_number (spec.pieces_above number self.now)
            (option_map numbered_of result) }
    {
        let key = Number::of(number);
        // the greatest number comes first, so the least above is the last before
        match self.index.last_before(&key) {
            Some((next, name)) => Some(self.piece_at(next.value(), name)),
            None => None,
        }
    }

    // The piece of a number, by what it is known by.
    fn piece_at<'s>(&'s self, number: u64, name: &'s PieceName) -> Piece<'s>
        requires { spec.number_at self.now name.now.key ≡ Some number }
        ensures { IsPieceOf self.now number (numbered_of result) }
    {
        let change = match name.key() {
            Key::Floor(extent) => self.floor_at(extent),
            Key::Marker(buffer) => self.marker_at(buffer),
            Key::Message(buffer, id) => self.message_at(buffer, id),
        };
        Piece { number, change }
    }

    // The own floor of an account or of a buffer, as a change.
    fn floor_at<'s>(&'s self, extent: Extent<'s>) -> ChangeRef<'s>
        requires { IsHeld self.now (key.FloorOf (value_of extent)) }
        ensures { spec.change_at self.now (key.FloorOf (value_of extent.entry)) ≡
            Some (change_of result) }
    {
        let at = self.buffers.floor(&extent).unwrap();
        ChangeRef::Floor { extent, at }
    }

    // The read marker of a buffer, as a change.
    fn marker_at<'s>(&'s self, buffer: &'s Buffer) -> ChangeRef<'s>
        requires { IsHeld self.now (key.MarkerOf buffer.now) }
        ensures { spec.change_at self.now (key.MarkerOf buffer.now) ≡ Some (change_of result) }
    {
        let at = self.buffers.marker(buffer).unwrap();
        ChangeRef::Mark { buffer, at }
    }

    // What is held of a message, as a change.
    fn message_at<'s>(&'s self, buffer: &'s Buffer, id: &'s MsgId) -> ChangeRef<'s>
        requires { IsHeld self.now (key.MessageOf buffer.now id.now) }
        ensures { spec.change_at self.now (key.MessageOf buffer.now id.now) ≡
            Some (change_of result) }
    {
        match self.buffers.message(buffer, id) {
            Some(MessageRef::Kept(post)) => ChangeRef::Post(post),
            Some(MessageRef::Gone(at)) => ChangeRef::Redact { buffer, id, at },
            None => unreachable!(),
        }
    }
}
