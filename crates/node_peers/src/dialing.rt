//! When a peer is dialed.
ghost use Rattle.std.specs.Prelude.{◌≡◌, ◌+◌, ◌-◌, ◌^◌, None, Some, min, nat_le, true, false, if◌then◌else◌};
ghost use Rattle.node_peers.specs.Dialing as spec;

/// A peer is dialed again so many milliseconds after a connection with it ended, or could not be made.
const RETRY: u64 = 60_000;

/// The operator is told of a peer with which there was no connection for so many milliseconds.
const ABSENT: u64 = 120_000;

/// When this node dials a peer, and when the operator is told that there is no connection with it. Of two nodes the one whose name is
/// less dials the other one: of a peer whose name is less than this node's nothing is ever due.
#[derive(Clone, Copy)]
pub(crate) struct Dialing {
    /// Whether this node dials the peer.
    pub(crate) is_own: bool,
    /// When the peer is to be dialed, where it is.
    pub(crate) dial_at: Option<u64>,
    /// When the operator is to be told that there is no connection, where there is none until then.
    pub(crate) absent_at: Option<u64>,
}

impl Dialing {
    /// There is no connection yet: the peer is dialed at once.
    pub(crate) fn new(is_own: bool, now: u64) -> Dialing
        ensures { result ≡ spec.at_once is_own now }
    {
        let mut dialing = Dialing {
            is_own,
            dial_at: None,
            absent_at: None,
        };
        if is_own {
            dialing.dial_at = Some(now);
        }
        dialing.miss(now);
        dialing
    }

    /// There is a connection: the peer isn't dialed, and isn't absent.
    pub(crate) fn settle(&mut self)
        ensures { self.new ≡ record self.old { dial_at = None; absent_at = None } }
    {
        self.dial_at = None;
        self.absent_at = None;
    }

    /// A connection ended at that moment, or could not be made: the peer is dialed some time later.
    pub(crate) fn put_off(&mut self, now: u64)
        ensures { self.new ≡ spec.put_off now self.old }
    {
        if self.is_own {
            self.dial_at = Some(now.saturating_add(RETRY));
        }
    }

    /// There is no connection from that moment on: the operator is told some time later.
    pub(crate) fn miss(&mut self, now: u64)
        ensures { self.new ≡ spec.missed now self.old }
    {
        if self.is_own {
            self.absent_at = Some(now.saturating_add(ABSENT));
        }
    }

    /// Whether the peer is to be dialed by now. If so, it isn't to be dialed again before that is put off.
    pub(crate) fn take_dial(&mut self, now: u64) -> bool
        ensures due { result ≡ spec.is_due now self.old.dial_at }
        ensures taken { result ≡ true → self.new ≡ record self.old { dial_at = None } }
        ensures kept { result ≡ false → self.new ≡ self.old }
    {
        let Some(at) = self.dial_at else {
            return false;
        };
        if now < at {
            return false;
        }
        self.dial_at = None;
        true
    }

    /// Whether the operator is to be told by now that there is no connection. If so, that is told once.
    pub(crate) fn take_absence(&mut self, now: u64) -> bool
        ensures due { result ≡ spec.is_due now self.old.absent_at }
        ensures taken { result ≡ true → self.new ≡ record self.old { absent_at = None } }
        ensures kept { result ≡ false → self.new ≡ self.old }
    {
        let Some(at) = self.absent_at else {
            return false;
        };
        if now < at {
            return false;
        }
        self.absent_at = None;
        true
    }

    /// When something is due next.
    pub(crate) fn next_at(&self) -> Option<u64>
        ensures { result ≡ spec.earlier self.now.dial_at self.now.absent_at }
    {
        earlier(self.dial_at, self.absent_at)
    }
}

/// The earlier of two moments, where there is any.
pub(crate) fn earlier(one: Option<u64>, other: Option<u64>) -> Option<u64>
    ensures { result ≡ spec.earlier one other }
{
    match (one, other) {
        (Some(a), Some(b)) => Some(a.min(b)),
        (Some(a), None) => Some(a),
        (None, b) => b,
    }
}
