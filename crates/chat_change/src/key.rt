//! Keys: what a change speaks of.
ghost use Rattle.std.specs.Prelude.{◌≡◌, ◌↔◌, IsTrue};
ghost use Rattle.chat_change.specs.Extent as extent;
ghost use Rattle.chat_change.specs.Key.{value_of, same_key, key_extent};

use crate::buffer::Buffer;
use crate::extent::Extent;
use crate::msg_id::MsgId;

/// What a change speaks of. Of several changes with one key a history keeps one.
#[derive(Clone, Copy)]
pub enum Key<'a> {
    /// The floor of an account or of a buffer.
    Floor(Extent<'a>),
    /// The read marker of a buffer.
    Marker(&'a Buffer),
    /// The message of that id in a buffer.
    Message(&'a Buffer, &'a MsgId),
}

impl<'a> Key<'a> {
    /// The buffer that the key is in, or the account, where it is the floor of one.
    pub fn extent(&self) -> Extent<'a>
        ensures { extent.value_of result ≡ key_extent (value_of self.now) }
    {
        match self {
            Key::Floor(extent) => *extent,
            Key::Marker(buffer) => Extent::Buffer(buffer),
            Key::Message(buffer, _) => Extent::Buffer(buffer),
        }
    }

    /// Whether both are one key.
    pub fn is_same(&self, other: &Key<'_>) -> bool
        ensures same { IsTrue result ↔ (value_of self.now ≡ value_of other.now) }
        ensures test { result ≡ same_key (value_of self.now) (value_of other.now) }
    {
        match self {
            Key::Floor(extent) => match other {
                Key::Floor(other) => extent.is_same(other),
                _ => false,
            },
            Key::Marker(buffer) => match other {
                Key::Marker(other) => buffer.is_same(other),
                _ => false,
            },
            Key::Message(buffer, id) => match other {
                Key::Message(other, other_id) => buffer.is_same(other) && id.is_same(other_id),
                _ => false,
            },
        }
    }
}
