//! Strangers that were refused, of whom there may be as many as strangers like.
ghost use Rattle.std.specs.Prelude.{◌≡◌, ◌+◌, ◌-◌, ◌^◌, ◌<◌, ◌≤◌, None, Some, min, nat_le, nat_lt, if◌then◌else◌};
ghost use Rattle.node_events.specs.declared.refusals.TheConstants.{TOLD, MINUTE};

/// So many of a minute are told one by one.
const TOLD: u64 = 10;

/// A minute, in milliseconds.
const MINUTE: u64 = 60_000;

/// Counts the strangers that were refused: the first ten of a minute are told one by one, and how many more there were is told once
/// the minute is over.
#[derive(Clone, Copy)]
pub struct Refusals {
    // when the minute began, by the monotonic clock
    since: u64,
    count: u64,
}

impl Refusals {
    /// Nobody was refused yet.
    pub fn new(now: u64) -> Refusals
        ensures { result ≡ record { since = now; count = 0 } }
    {
        Refusals {
            since: now,
            count: 0,
        }
    }

    /// One more is refused. Whether that is told by itself.
    pub fn add(&mut self) -> bool
        ensures told { result ≡ nat_le self.new.count TOLD }
        ensures count { self.new
            ≡ record self.old { count = min (self.old.count + 1) (2 ^ 64 - 1) } }
    {
        self.count = self.count.saturating_add(1);
        self.count <= TOLD
    }

    /// When those are to be told that weren't told by themselves, where there are any.
    pub fn due_at(&self) -> Option<u64>
        ensures { result ≡ (if nat_lt TOLD self.now.count
            then Some (min (self.now.since + MINUTE) (2 ^ 64 - 1)) else None) }
    {
        if self.count > TOLD {
            Some(self.since.saturating_add(MINUTE))
        } else {
            None
        }
    }

    /// How many weren't told by themselves, where the minute is over and some weren't. The next minute begins then.
    pub fn take_untold(&mut self, now: u64) -> Option<u64>
        ensures early { now < self.old.since + MINUTE → result ≡ None }
        ensures kept { now < self.old.since + MINUTE → self.new ≡ self.old }
        ensures over { self.old.since + MINUTE ≤ now
            → result ≡ (if nat_lt TOLD self.old.count then Some (self.old.count - TOLD) else None) }
        ensures next { self.old.since + MINUTE ≤ now
            → self.new ≡ record { since = now; count = 0 } }
    {
        if now.saturating_sub(self.since) < MINUTE {
            return None;
        }
        let count = self.count;
        *self = Refusals::new(now);
        if count > TOLD {
            Some(count - TOLD)
        } else {
            None
        }
    }
}
