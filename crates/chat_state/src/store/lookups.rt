//! What is looked up in the maps, and searched in them.

ghost use Rattle.std.specs.Prelude.{◌≡◌, None, IfSome, reverse};
ghost use Rattle.std.specs.Option.{option_map};
ghost use Rattle.chat_change.specs.Buffer.{buffer_of};
ghost use Rattle.chat_change.specs.Extent.{OfBuffer, value_of};
ghost use Rattle.chat_change.specs.Key as key;
ghost use Rattle.chat_change.specs.declared.change.Change.TheVariants as value;
ghost use Rattle.chat_history.specs.Cut.{after, before};
ghost use Rattle.chat_history.specs.Visible.{records_in};
ghost use Rattle.chat_buffers.specs.BufferWalk.{walk_after};
ghost use Rattle.chat_buffers.specs.MessageRef.{message_change, IsMessageOf};
ghost use Rattle.chat_buffers.specs.Store as spec;

use crate::store::Store;
use chat_buffers::{BufferWalk, Down, FloorAndMessage, MessageRef, Up};
use chat_change::{Buffer, Extent, Moment, MsgId};
use chat_history::Cut;

impl Store {
    /// The own floor of an account or of a buffer, if it has one.
    pub(crate) fn floor(&self, extent: &Extent<'_>) -> Option<Moment>
        ensures { spec.change_at self.now (key.FloorOf (value_of extent.now)) ≡
            option_map (key.floor_change (value_of extent.now)) result }
    {
        self.buffers.floor(extent)
    }

    /// The floor in force, in milliseconds: of an account its own one, of a buffer that of its account or its own one,
    /// whichever is greater. 0 where there is none.
    pub(crate) fn floor_ms(&self, extent: &Extent<'_>) -> u64
        ensures { result ≡ spec.floor_in self.now (value_of extent.now) }
    {
        match extent {
            Extent::Account(_) => self.own_floor_ms(extent),
            Extent::Buffer(buffer) => {
                let around = self.own_floor_ms(&Extent::Account(buffer.owner()));
                around.max(self.own_floor_ms(extent))
            }
        }
    }

    // The own floor in milliseconds, or 0.
    fn own_floor_ms(&self, extent: &Extent<'_>) -> u64
        ensures { result ≡ spec.own_floor_in self.now (value_of extent.now) }
    {
        match self.floor(extent) {
            Some(at) => at.ms(),
            None => 0,
        }
    }

    /// The read marker of a buffer, if one was set.
    pub(crate) fn marker(&self, buffer: &Buffer) -> Option<Moment>
        ensures { spec.change_at self.now (key.MarkerOf buffer.now) ≡
            option_map (value.Mark buffer.now) result }
    {
        self.buffers.marker(buffer)
    }

    /// What is held of a message, if anything.
    pub(crate) fn message(&self, buffer: &Buffer, id: &MsgId) -> Option<MessageRef<'_>>
        ensures held { spec.change_at self.now (key.MessageOf buffer.now id.now) ≡
            option_map (message_change buffer.now id.now) result }
        ensures bears { IfSome result (IsMessageOf buffer.now id.now) }
    {
        self.buffers.message(buffer, id)
    }

    /// The floor in force in a buffer, and what is held of a message there, by one search for the buffer.
    pub(crate) fn floor_and_message(&self, buffer: &Buffer, id: &MsgId) -> FloorAndMessage<'_>
        ensures floor { result.floor_ms ≡ spec.floor_in self.now (OfBuffer buffer.now) }
        ensures held { spec.change_at self.now (key.MessageOf buffer.now id.now) ≡
            option_map (message_change buffer.now id.now) result.message }
        ensures bears { IfSome result.message (IsMessageOf buffer.now id.now) }
    {
        self.buffers.floor_and_message(buffer, id)
    }

    /// What is held of the message of that id in the buffer of these names, if anything. It takes no memory, and goes
    /// through the buffers and the ids of that buffer one by one.
    pub(crate) fn find_message(
        &self,
        account: &[u8],
        network: &[u8],
        target: &[u8],
        id: &[u8],
    ) -> Option<MessageRef<'_>>
        ensures { spec.change_at self.now
            (key.MessageOf (buffer_of account.now network.now target.now) id.now) ≡ option_map
            (message_change (buffer_of account.now network.now target.now) id.now) result }
    {
        self.buffers.find_message(account, network, target, id)
    }

    /// The visible records of a buffer after a cut, by rising (moment, id). It takes no memory.
    pub(crate) fn up(&self, buffer: &Buffer, cut: &Cut<'_>) -> Up<'_>
        ensures { result ≡ after cut.now (records_in (spec.history_in self.now) buffer.now) }
    {
        self.buffers.up(buffer, cut)
    }

    /// The visible records of a buffer before a cut, by falling (moment, id). It takes no memory.
    pub(crate) fn down(&self, buffer: &Buffer, cut: &Cut<'_>) -> Down<'_>
        ensures { result ≡ reverse (before cut.now
            (records_in (spec.history_in self.now) buffer.now)) }
    {
        self.buffers.down(buffer, cut)
    }

    /// A walk over the buffers, in their order. It takes no memory.
    pub(crate) fn walk(&self) -> BufferWalk<'_>
        ensures { result ≡ walk_after self.now None }
    {
        self.buffers.walk()
    }
}
