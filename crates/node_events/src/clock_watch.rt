//! Whether the wall clock keeps time.
ghost use Rattle.std.specs.Prelude.{◌≡◌};
ghost use Rattle.node_events.specs.ClockWatch as spec;

use crate::clocks::{Clocks, Leap};
use std::marker::Model;

/// So many milliseconds lie between two looks at the clocks, by the monotonic clock: an hour.
pub const BETWEEN_LOOKS: u64 = 3_600_000;

/// The wall clock leapt where it moved by more than so many milliseconds against the monotonic clock between two looks.
const MOST: u128 = 300_000;

/// Looks at the wall clock beside the monotonic one before something is done that can't be taken back. Where it leapt since
/// the last look, that isn't done before a later look finds that it kept time: as looks lie [`BETWEEN_LOOKS`] apart, the two
/// clocks have agreed for an hour then. Contracts see a watch as what the clocks read at the last look.
#[derive(Clone, Copy)]
pub struct ClockWatch {
    last: Clocks,
}

impl Model for ClockWatch {
    ghost use Rattle.node_events.specs.declared.clocks.Clocks.{Clocks};

    ghost Value = { Clocks };

    ghost view = { λ watch. watch.last };

    ghost inverse = { λ clocks. record { last = clocks } };
}

impl ClockWatch {
    /// A watch whose first look is this one.
    pub fn new(clocks: Clocks) -> ClockWatch
        ensures { result ≡ clocks }
    {
        ClockWatch { last: clocks }
    }

    /// Looks at the clocks: how the wall clock leapt since the last look. None where it kept time.
    pub fn look(&mut self, clocks: Clocks) -> Option<Leap>
        ensures leap { result ≡ spec.leap self.old clocks }
        ensures last { self.new ≡ clocks }
    {
        let last = self.last;
        self.last = clocks;
        // Sums of two readings need not fit 64 bits.
        let read = clocks.wall as u128 + last.monotonic as u128;
        let expected = last.wall as u128 + clocks.monotonic as u128;
        if read > expected + MOST {
            Some(Leap::Ahead(read - expected))
        } else if expected > read + MOST {
            Some(Leap::Back(expected - read))
        } else {
            None
        }
    }
}
