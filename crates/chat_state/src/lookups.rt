//! Look-ups: markers, floors, positions of messages, and which messages are shown or gone. They take no memory.

ghost use Rattle.std.specs.Prelude.{◌≡◌, ◌↔◌, IsTrue, List};
ghost use Rattle.chat_change.specs.Buffer as buffers;
ghost use Rattle.chat_history.specs.History as spec;
ghost use Rattle.chat_history.specs.Lookups.{IsShown};

use crate::state::State;
use chat_buffers::MessageRef;
use chat_change::{Buffer, Extent, Moment, MsgId};

// The moment at which 1970 began.
pub(crate) fn first_moment() -> Moment
    ensures { result ≡ 0 }
{
    Moment::from_ms(0).unwrap()
}

impl State {
    ghost use Rattle.chat_change.specs.declared.change.Change as value;
    ghost use Rattle.chat_change.specs.Extent.{value_of};

    /// The number of the last change that changed the state.
    pub fn front(&self) -> u64
        ensures { result ≡ self.now.front }
    {
        self.front
    }

    /// The read marker of a buffer (IRCv3 draft/read-marker). None was set where it is None.
    pub fn mark(&self, buffer: &Buffer) -> Option<Moment>
        ensures held { result ≡ spec.mark (spec.changes_of self.now.history) buffer.now }
        ensures of_set { (changes : List value.Change) → self.now.history ≡ spec.norm changes →
            result ≡ spec.mark changes buffer.now }
    {
        self.store.marker(buffer)
    }

    // The floor that was set for an account or a buffer itself: the start of 1970 where none was.
    fn own_floor(&self, extent: &Extent<'_>) -> Moment
        ensures { result ≡
            spec.own_floor (spec.changes_of self.now.history) (value_of extent.now) }
    {
        self.store.floor(extent).unwrap_or(first_moment())
    }

    /// The moment below which nothing of a buffer is kept, which was set for it or for its account: the start of 1970 where
    /// none was.
    pub fn floor(&self, buffer: &Buffer) -> Moment
        ensures held { result ≡ spec.floor (spec.changes_of self.now.history) buffer.now }
        ensures of_set { (changes : List value.Change) → self.now.history ≡ spec.norm changes →
            result ≡ spec.floor changes buffer.now }
    {
        let own = self.own_floor(&Extent::Buffer(buffer));
        let around = self.own_floor(&Extent::Account(buffer.owner()));
        if own.ms() < around.ms() { around } else { own }
    }

    /// Whether a message was redacted (IRCv3 draft/message-redaction).
    pub fn is_gone(&self, buffer: &Buffer, id: &MsgId) -> bool
        ensures held { result ≡ spec.is_gone (spec.changes_of self.now.history) buffer.now id.now }
        ensures of_set { (changes : List value.Change) → self.now.history ≡ spec.norm changes →
            result ≡ spec.is_gone changes buffer.now id.now }
    {
        match self.store.message(buffer, id) {
            Some(MessageRef::Gone(_)) => true,
            Some(MessageRef::Kept(_)) => false,
            None => false,
        }
    }

    /// The moment at which a message stands or stood, also where it was redacted. None where the buffer knows none.
    pub fn position(&self, buffer: &Buffer, id: &MsgId) -> Option<Moment>
        ensures held { result ≡
            spec.position_of (spec.changes_of self.now.history) buffer.now id.now }
        ensures of_set { (changes : List value.Change) → self.now.history ≡ spec.norm changes →
            result ≡ spec.position_of changes buffer.now id.now }
    {
        match self.store.message(buffer, id) {
            Some(MessageRef::Kept(post)) => Some(post.at()),
            Some(MessageRef::Gone(at)) => at,
            None => None,
        }
    }

    /// The same, by the names of the buffer and the bytes of the id. It goes through the buffers and the ids of that buffer
    /// one by one, so it is for where there is no memory for a buffer and an id to look up by.
    pub fn find_position(
        &self,
        account: &[u8],
        network: &[u8],
        target: &[u8],
        id: &[u8],
    ) -> Option<Moment>
        ensures held { result ≡ spec.position_of (spec.changes_of self.now.history)
            (buffers.buffer_of account.now network.now target.now) id.now }
        ensures of_set { (changes : List value.Change) → self.now.history ≡ spec.norm changes →
            result ≡ spec.position_of changes
            (buffers.buffer_of account.now network.now target.now) id.now }
    {
        match self.store.find_message(account, network, target, id) {
            Some(MessageRef::Kept(post)) => Some(post.at()),
            Some(MessageRef::Gone(at)) => at,
            None => None,
        }
    }

    /// Whether a visible record of the buffer has that id.
    pub fn is_shown(&self, buffer: &Buffer, id: &MsgId) -> bool
        ensures { IsTrue result ↔ IsShown self.now.history buffer.now id.now }
    {
        match self.store.message(buffer, id) {
            Some(MessageRef::Kept(_)) => true,
            Some(MessageRef::Gone(_)) => false,
            None => false,
        }
    }
}
