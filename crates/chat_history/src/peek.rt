//! Looking whether a message is shown.
ghost use Rattle.std.specs.Prelude.{◌≡◌, ℕ, Bool, List, IfOk, OnErr};
ghost use Rattle.chat_change.specs.Buffer as buffers;

use chat_change::{Buffer, MsgId};
use thiserror::Error;

/// A published history could not be entered.
#[derive(Clone, Copy, Debug, PartialEq, Eq, Error)]
#[error("no entry")]
pub struct NoEntry;

/// What can tell whether a message is shown.
pub trait Peek {
    /// That a look at the first value may give that answer and leave the second value.
    ghost peeks: { Self → buffers.Buffer → List ℕ → Bool → Self → Type 0 };

    /// Whether a visible record of the buffer has that id.
    fn shown(&mut self, buffer: &Buffer, id: &MsgId) -> Result<bool, NoEntry>
        ensures ok { IfOk result (λ shown. peeks self.old buffer.now id.now shown self.new) }
        ensures err { OnErr result (self.new ≡ self.old) };
}
