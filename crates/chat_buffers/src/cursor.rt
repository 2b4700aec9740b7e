//! Cursors over the visible records of a buffer, which take no memory.

ghost use Rattle.std.specs.Prelude.{◌≡◌, reverse};
ghost use Rattle.chat_history.specs.Cut.{after, before};
ghost use Rattle.chat_history.specs.Visible.{records_in};
ghost use Rattle.chat_buffers.specs.Store.{history_in};

use crate::buffers::Buffers;
use crate::walk::{Down, Up};
use chat_change::Buffer;
use chat_history::Cut;

impl Buffers {
    /// The visible records of a buffer after a cut, by rising (moment, id).
    pub fn up(&self, buffer: &Buffer, cut: &Cut<'_>) -> Up<'_>
        ensures { result ≡ after cut.now (records_in (history_in self.now) buffer.now) }
    {
        match self.held.get(buffer) {
            Some(held) => held.messages.up(cut),
            None => Up::empty(),
        }
    }

    /// The visible records of a buffer before a cut, by falling (moment, id).
    pub fn down(&self, buffer: &Buffer, cut: &Cut<'_>) -> Down<'_>
        ensures { result ≡ reverse (before cut.now (records_in (history_in self.now) buffer.now)) }
    {
        match self.held.get(buffer) {
            Some(held) => held.messages.down(cut),
            None => Down::empty(),
        }
    }
}
