//! What a peer has for this node.
use chat_history::DELTA_LIMIT;
use gossip_link::Outcome;

/// A peer that may have more, and sent no packet for so many milliseconds, has no more.
const LAST: u64 = 10_000;

/// What a peer has for this node, by the packets that came over a connection.
#[derive(Clone, Copy)]
pub(crate) enum Supply {
    /// No more: its last packet had fewer changes than a packet may have.
    Taken,
    /// Perhaps more: no packet came since that moment, in milliseconds.
    Awaited { since: u64 },
    /// More: its last packet wasn't taken whole, and comes again.
    Left,
}

impl Supply {
    /// After a message of so many changes, which came to that at that moment. None where it changes nothing.
    pub(crate) fn after(outcome: Outcome, count: usize, now: u64) -> Option<Supply> {
        match outcome {
            Outcome::Taken if count < DELTA_LIMIT => Some(Supply::Taken),
            Outcome::Taken => Some(Supply::Awaited { since: now }),
            Outcome::TakenInPart => Some(Supply::Left),
            Outcome::Known | Outcome::Ignored => None,
        }
    }

    /// When the peer has no more, where no packet comes until then. None where that is known already, or it has more.
    pub(crate) fn awaited_until(self) -> Option<u64> {
        match self {
            Supply::Awaited { since } => Some(since.saturating_add(LAST)),
            Supply::Taken | Supply::Left => None,
        }
    }

    /// Whether the peer has no more at that moment.
    pub(crate) fn is_taken(self, now: u64) -> bool {
        match self {
            Supply::Taken => true,
            Supply::Awaited { since } => since.saturating_add(LAST) <= now,
            Supply::Left => false,
        }
    }
}
