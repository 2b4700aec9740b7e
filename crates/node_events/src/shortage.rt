//! How the operator is told that memory is short.
use crate::event::{Event, Reason};

/// A minute, in milliseconds.
const MINUTE: u64 = 60_000;

/// Counts the connections that are closed for want of memory. As long as memory is short that may be each one that comes, so how
/// many they were is told once a minute. By itself only the end of a session with a server is told, and that of a connection with
/// a peer, since these are opened again a minute later at the soonest.
#[derive(Clone, Copy, PartialEq, Eq)]
pub struct Shortage {
    // when the minute began, by the monotonic clock
    since: u64,
    count: u64,
}

// Why a connection ended, where the event is that.
fn end_of(event: &Event<'_>) -> Option<Reason> {
    match *event {
        Event::ClientOut { reason, .. }
        | Event::ClientRefused { reason, .. }
        | Event::UpstreamDown { reason, .. }
        | Event::PeerDown { reason, .. }
        | Event::PeerRefused { reason, .. } => Some(reason),
        _ => None,
    }
}

// Whether it is the end of a connection that is opened again a minute later at the soonest.
fn comes_again(event: &Event<'_>) -> bool {
    matches!(event, Event::UpstreamDown { .. } | Event::PeerDown { .. })
}

impl Shortage {
    /// Nothing was closed yet.
    pub fn new() -> Shortage {
        Shortage { since: 0, count: 0 }
    }

    /// Whether the operator is told of the event by itself. Where that is the end of a connection for want of memory, it is
    /// counted.
    pub fn is_told(&mut self, event: &Event<'_>) -> bool {
        if end_of(event) != Some(Reason::NoMemory) {
            return true;
        }
        self.count = self.count.saturating_add(1);
        comes_again(event)
    }

    /// For how many milliseconds at most its owner waits before it takes the count. None where nothing was closed.
    pub fn patience(&self) -> Option<u64> {
        if self.count > 0 { Some(MINUTE) } else { None }
    }

    /// How many connections were closed within a minute, where it is over by the monotonic clock and some were. The next minute
    /// begins then.
    pub fn take(&mut self, now: u64) -> Option<u64> {
        if now.saturating_sub(self.since) < MINUTE {
            return None;
        }
        let count = self.count;
        *self = Shortage {
            since: now,
            count: 0,
        };
        if count > 0 { Some(count) } else { None }
    }
}
