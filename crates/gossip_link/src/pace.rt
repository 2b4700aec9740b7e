//! When packets are made for a peer, over one connection.
ghost use Rattle.std.specs.Prelude.{◌≡◌};
ghost use Rattle.gossip_link.specs.Pace as spec;

/// How long a packet waits for its acknowledgement, in milliseconds.
pub const ACK_WAIT_MS: u64 = 60_000;

/// How many packets may be made in a row without an acknowledgement.
pub const MOST_UNANSWERED: u64 = 3;

/// A packet that is under way.
#[derive(Clone, Copy)]
pub(crate) struct UnderWay {
    // the number up to which its changes are
    to: u64,
    // when it was made, in milliseconds
    since: u64,
}

/// When packets are made for a peer, over one connection. It reads nothing: it is given what happens, and moments in
/// milliseconds.
#[derive(Clone, Copy)]
pub(crate) struct Pace {
    // whether the peer said hello
    is_greeted: bool,
    // whether there may be something new for it
    is_wanted: bool,
    under_way: Option<UnderWay>,
    // how many packets were made since the last acknowledgement
    unanswered: u64,
}

// What is under way after an acknowledgement up to a number.
fn left_by(upto: u64, under_way: Option<UnderWay>) -> Option<UnderWay>
    ensures { result ≡ spec.left_by upto under_way }
{
    match under_way {
        Some(packet) if upto < packet.to => Some(packet),
        _ => None,
    }
}

fn has_waited(now: u64, under_way: Option<UnderWay>) -> bool
    ensures { result ≡ spec.has_waited now under_way }
{
    match under_way {
        Some(packet) => now.saturating_sub(packet.since) >= ACK_WAIT_MS,
        None => false,
    }
}

fn one_more(unanswered: u64) -> u64
    ensures { result ≡ spec.one_more unanswered }
{
    if unanswered < MOST_UNANSWERED {
        unanswered + 1
    } else {
        MOST_UNANSWERED
    }
}

impl Pace {
    /// That of a new connection.
    pub(crate) fn new() -> Pace
        ensures { result ≡ spec.new }
    {
        Pace {
            is_greeted: false,
            is_wanted: false,
            under_way: None,
            unanswered: 0,
        }
    }

    /// Whether a packet is to be made now.
    pub(crate) fn is_due(&self) -> bool
        ensures { result ≡ spec.is_due self.now }
    {
        self.is_greeted && self.is_wanted && self.under_way.is_none()
    }

    /// Whether the peer said hello, nothing may be new for it, and no packet is under way.
    pub(crate) fn is_caught_up(&self) -> bool
        ensures { result ≡ spec.is_caught_up self.now }
    {
        self.is_greeted && !self.is_wanted && self.under_way.is_none()
    }

    /// The peer said hello.
    pub(crate) fn greet(&mut self)
        ensures { self.new ≡ spec.greeted self.old }
    {
        self.is_greeted = true;
        self.is_wanted = true;
    }

    /// Something was published.
    pub(crate) fn publish(&mut self)
        ensures { self.new ≡ spec.published self.old }
    {
        self.is_wanted = true;
    }

    /// The peer acknowledged a number.
    pub(crate) fn acknowledge(&mut self, upto: u64)
        ensures { self.new ≡ spec.acknowledged upto self.old }
    {
        self.is_wanted = true;
        self.under_way = left_by(upto, self.under_way);
        self.unanswered = 0;
    }

    /// Whether the connection is to be closed at that moment.
    pub(crate) fn is_over(&self, now: u64) -> bool
        ensures { result ≡ spec.is_over now self.now }
    {
        has_waited(now, self.under_way) && self.unanswered >= MOST_UNANSWERED
    }

    /// It is that moment. A packet that has waited long enough is given up, unless the connection is to be closed.
    pub(crate) fn tick(&mut self, now: u64)
        ensures { self.new ≡ spec.ticked now self.old }
    {
        if has_waited(now, self.under_way) && self.unanswered < MOST_UNANSWERED {
            self.is_wanted = true;
            self.under_way = None;
        }
    }

    /// A packet up to that number was made at that moment, or none since nothing is new.
    pub(crate) fn made(&mut self, to: Option<u64>, now: u64)
        ensures { self.new ≡ spec.made to now self.old }
    {
        self.is_wanted = false;
        if let Some(to) = to {
            self.under_way = Some(UnderWay { to, since: now });
            self.unanswered = one_more(self.unanswered);
        }
    }

    /// The moment at which the packet that is under way has waited long enough, where there is one and clocks reach it.
    pub(crate) fn deadline(&self) -> Option<u64>
        ensures { result ≡ spec.deadline self.now }
    {
        match self.under_way {
            Some(packet) => packet.since.checked_add(ACK_WAIT_MS),
            None => None,
        }
    }
}
