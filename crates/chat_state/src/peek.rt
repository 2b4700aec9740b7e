//! A state tells whether a message is shown.
ghost use Rattle.std.specs.Prelude.{◌≡◌, ◌↔◌, IsTrue, IsOk, IfOk, OnErr};
ghost use Rattle.chat_history.specs.Lookups.{IsShown};

use crate::state::State;
use chat_change::{Buffer, MsgId};
use chat_history::{NoEntry, Peek};

impl Peek for State {
    ghost peeks = { λ old b m shown new. (new ≡ old) × (IsTrue shown ↔ IsShown old.history b m) };

    /// A state never answers `NoEntry`.
    fn shown(&mut self, buffer: &Buffer, id: &MsgId) -> Result<bool, NoEntry>
        ensures ok { IfOk result (λ shown. (self.new ≡ self.old) × (IsTrue shown ↔
            IsShown self.old.history buffer.now id.now)) }
        ensures err { OnErr result (self.new ≡ self.old) }
        ensures entered { IsOk result }
    {
        Ok(self.is_shown(buffer, id))
    }
}
