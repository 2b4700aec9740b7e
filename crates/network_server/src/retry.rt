//! When a network's server is dialed.
ghost use Rattle.std.specs.Prelude.{◌≡◌, ◌+◌, ◌-◌, ◌^◌, Some, None, min, true, false};
ghost use Rattle.network_server.specs.Waiting.{IsDue};
ghost use Rattle.network_server.specs.declared.retry.TheConstants.{RETRY};

use std::marker::Model;

/// So many milliseconds after a connection ended, or could not be made, the server is dialed again.
pub const RETRY: u64 = 60_000;

/// When a network's server is dialed: at once at first, and some time after each connection that ended or could not be made.
/// Contracts see that moment, in milliseconds, or that there is none: a connection is there, or is being made.
#[derive(Drop)]
pub struct Retry {
    at: Option<u64>,
}

impl Model for Retry {
    ghost use Rattle.std.specs.Prelude.{Option, ℕ};

    ghost Value = { Option ℕ };

    ghost view = { λ r. r.at };
}

impl Retry {
    /// The server is to be dialed at once.
    pub fn new(now: u64) -> Retry
        ensures { result ≡ Some now }
    {
        Retry { at: Some(now) }
    }

    /// The moment, where there is one.
    pub fn moment(&self) -> Option<u64>
        ensures { result ≡ self.now }
    {
        self.at
    }

    /// Whether the server is to be dialed by now. If so, it isn't to be dialed again before this is put off.
    pub fn take_due(&mut self, now: u64) -> bool
        ensures due { result ≡ true → IsDue self.old now }
        ensures taken { result ≡ true → self.new ≡ None }
        ensures early { result ≡ false → ¬ IsDue self.old now }
        ensures kept { result ≡ false → self.new ≡ self.old }
    {
        let Some(at) = self.at else {
            return false;
        };
        if now < at {
            return false;
        }
        self.at = None;
        true
    }

    /// The connection ended at that moment, or could not be made: the server is dialed some time later.
    pub fn put_off(&mut self, now: u64)
        ensures { self.new ≡ Some (min (now + RETRY) (2 ^ 64 - 1)) }
    {
        self.at = Some(now.saturating_add(RETRY));
    }
}
