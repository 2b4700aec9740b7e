//! Moments and their texts, as the IRCv3 server-time specification has them.
//!
//! A [`Moment`] is a number of milliseconds after 1970-01-01T00:00:00.000Z, and its text is the 24 bytes
//! `YYYY-MM-DDThh:mm:ss.sssZ` of its fields in UTC (ISO 8601:2004(E), section 4.3.2, which that specification names). The
//! years are 1970 to 9999. [`read_time`] reads every such text and nothing else, [`write_time`] writes the one text of a
//! moment, and [`laws`] says how the two belong together.
//!
//! It stands on `jiff_core`'s calendar, and takes no memory. Read [`read_time`] first.
#![tactic(auto)]

ghost use Rattle.std.specs.Prelude.{◌≡◌, ◌↔◌, ℕ, ◌≤◌, IsSome, IfSome};
ghost use Rattle.irc_time.specs.Time.{greatest};

pub mod laws;
mod parts;
mod reading;
mod text;

pub use reading::read_time;
use std::marker::Model;
pub use text::write_time;

/// The milliseconds of a day.
const MILLISECONDS_PER_DAY: u64 = 86_400_000;

/// The days from -9999-01-01, from which `jiff_core` counts, to 1970-01-01.
const DAYS_TO_1970: u32 = 4_371_587;

/// The greatest moment, in milliseconds since 1970 began: the last one of the year 9999.
pub const GREATEST: u64 = 253_402_300_799_999;

/// A moment in UTC, from 1970-01-01T00:00:00.000Z to 9999-12-31T23:59:59.999Z, counted in milliseconds without leap
/// seconds. Contracts see it as that number, and moments are ordered by it.
#[derive(Clone, Copy, PartialEq, Eq, PartialOrd, Ord)]
pub struct Moment {
    ms: u64,
}

impl Model for Moment {
    ghost Value = { ℕ };

    ghost view = { λ m. m.ms };

    ghost invariant = { λ m. m.ms ≤ greatest };

    ghost inverse = { λ n. record { ms = n } };
}

impl Moment {
    /// The moment so many milliseconds after 1970 began. None above [`GREATEST`].
    pub fn from_ms(ms: u64) -> Option<Moment>
        ensures some { IsSome result ↔ (ms ≤ greatest) }
        ensures value { IfSome result (λ m. m ≡ ms) }
    {
        if ms <= GREATEST {
            Some(Moment { ms })
        } else {
            None
        }
    }

    /// The milliseconds from the beginning of 1970 to the moment.
    pub fn ms(&self) -> u64
        ensures value { result ≡ self.now }
        ensures bound { result ≤ greatest }
    {
        self.ms
    }
}
