//! When a peer is dialed again.
ghost use Rattle.std.specs.Prelude.{◌≡◌, None, Some};
ghost use Rattle.bnc_keep.specs.Dialing as spec;

/// The first time it is dialed again after so many milliseconds.
const FIRST: u64 = 1_000;

/// From then on after so many,
const NEXT: u64 = 2_000;

/// until there has been no connection for so many,
const ABSENT: u64 = 600_000;

/// and then after so many.
const LAST: u64 = 5_000;

/// How long no connection with a peer was there, in milliseconds of the monotonic clock.
#[derive(Clone, Copy)]
pub(crate) struct Absence {
    missed_at: Option<u64>,
}

impl Absence {
    /// There was none yet.
    pub(crate) fn new() -> Absence
        ensures { result.missed_at ≡ None }
    {
        Absence { missed_at: None }
    }

    /// There was one.
    pub(crate) fn met(&mut self)
        ensures { self.new.missed_at ≡ None }
    {
        self.missed_at = None;
    }

    /// There is none at that moment: after how many milliseconds the peer is dialed again.
    pub(crate) fn pause(&mut self, now: u64) -> u64
        ensures pause { result ≡ spec.pause self.old.missed_at now }
        ensures missed { self.new.missed_at ≡ Some (spec.missed_since self.old.missed_at now) }
    {
        match self.missed_at {
            None => {
                self.missed_at = Some(now);
                FIRST
            }
            Some(since) if now.saturating_sub(since) < ABSENT => NEXT,
            Some(_) => LAST,
        }
    }
}
