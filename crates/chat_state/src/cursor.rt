//! Cursors over the visible records of a buffer, which take no memory.

ghost use Rattle.std.specs.Prelude.{◌≡◌, reverse};
ghost use Rattle.chat_history.specs.Cut.{after, before};
ghost use Rattle.chat_history.specs.Visible.{records_in};

use crate::state::State;
use chat_buffers::{Down, Up};
use chat_change::Buffer;
use chat_history::Cut;

// The borrow checker doesn't cover a loan of a parameter that may hold a reference, so each cut is made anew.
impl State {
    /// The visible records of a buffer after a cut, by rising (moment, id).
    pub fn up(&self, buffer: &Buffer, cut: Cut<'_>) -> Up<'_>
        ensures { result ≡ after cut.entry (records_in self.now.history buffer.now) }
    {
        let cut = match cut {
            Cut::Bottom => Cut::Bottom,
            Cut::UnderTime(at) => Cut::UnderTime(at),
            Cut::OverTime(at) => Cut::OverTime(at),
            Cut::UnderMsg(spot) => Cut::UnderMsg(spot),
            Cut::OverMsg(spot) => Cut::OverMsg(spot),
            Cut::Top => Cut::Top,
        };
        self.store.up(buffer, &cut)
    }

    /// The visible records of a buffer before a cut, by falling (moment, id).
    pub fn down(&self, buffer: &Buffer, cut: Cut<'_>) -> Down<'_>
        ensures { result ≡ reverse (before cut.entry (records_in self.now.history buffer.now)) }
    {
        let cut = match cut {
            Cut::Bottom => Cut::Bottom,
            Cut::UnderTime(at) => Cut::UnderTime(at),
            Cut::OverTime(at) => Cut::OverTime(at),
            Cut::UnderMsg(spot) => Cut::UnderMsg(spot),
            Cut::OverMsg(spot) => Cut::OverMsg(spot),
            Cut::Top => Cut::Top,
        };
        self.store.down(buffer, &cut)
    }
}
