//! A moment that may not be known.

ghost use Rattle.std.specs.Prelude.{◌≡◌, ℕ, Option};
ghost use Rattle.chat_buffers.specs.MomentIfKnown.{moment_in};

use chat_change::Moment;
use std::marker::Model;

/// Stands for a moment that isn't known. It is above every moment.
const UNKNOWN: u64 = u64::MAX;

/// A moment, if it is known, in the room of a moment alone: what is held of each message has room for one.
#[derive(Drop)]
pub(crate) struct MomentIfKnown {
    // its milliseconds. A number above every moment stands for none
    ms: u64,
}

impl Model for MomentIfKnown {
    ghost Value = { Option ℕ };

    ghost view = { λ m. moment_in m.ms };
}

impl MomentIfKnown {
    /// That moment. None where it isn't known.
    pub(crate) fn new(at: Option<Moment>) -> MomentIfKnown
        ensures { result ≡ at }
    {
        match at {
            Some(at) => MomentIfKnown { ms: at.ms() },
            None => MomentIfKnown { ms: UNKNOWN },
        }
    }

    /// The moment, if it is known.
    pub(crate) fn get(&self) -> Option<Moment>
        ensures { result ≡ self.now }
    {
        Moment::from_ms(self.ms)
    }
}
