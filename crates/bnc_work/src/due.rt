//! Timers by the moment at which they are due.

use crate::timer::Timer;

/// A timer at a moment, in milliseconds. Earlier ones stand first.
#[derive(Clone, Copy, PartialEq, Eq, PartialOrd, Ord)]
pub(crate) struct Due {
    pub at: u64,
    pub timer: Timer,
}
