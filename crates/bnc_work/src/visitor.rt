//! A client that isn't registered yet, as its worker has it.
use network_client::{Coming, Newcomer};
use node_events::Reason;
use node_ports::Connection;

/// How far a client is that is turned away: it gave a wrong account, network or secret. It is told so a second later, and isn't read
/// meanwhile: so each secret that somebody tries takes a connection, and a second of its place.
#[derive(Clone, Copy, PartialEq, Eq)]
pub(crate) enum TurnedAway {
    /// It isn't, as far as is known.
    No,
    /// It is, and isn't told yet.
    Waits,
    /// It is, and may be told.
    IsTold,
}

/// A client that isn't registered yet, as its worker has it.
#[derive(Drop)]
pub(crate) struct Visitor<C: Connection> {
    pub(crate) newcomer: Newcomer<C>,
    pub(crate) coming: Coming,
    /// The network that it named, by its place among those of this worker.
    pub(crate) network: Option<usize>,
    pub(crate) turned_away: TurnedAway,
    /// Its session has ended: it goes once it was told all.
    pub(crate) has_ended: bool,
    /// Its other end sends nothing more: it goes once it was told all.
    pub(crate) is_silent: bool,
}

impl<C: Connection> Visitor<C> {
    /// It came, or moved here.
    pub(crate) fn new(newcomer: Newcomer<C>, coming: Coming, network: Option<usize>) -> Visitor<C> {
        Visitor {
            newcomer,
            coming,
            network,
            turned_away: TurnedAway::No,
            has_ended: false,
            is_silent: false,
        }
    }

    /// Its place among the clients of the node.
    pub(crate) fn place(&self) -> usize {
        self.newcomer.client().place()
    }

    /// Whether it was told all, and nothing waits for it.
    pub(crate) fn was_told_all(&self) -> bool {
        let client = self.newcomer.client();
        let (owed, _) = client.owed();
        owed == 0 && !client.waits()
    }

    /// Why it goes once it was told all. None where more may be heard of it.
    pub(crate) fn ending(&self) -> Option<Reason> {
        if self.has_ended {
            Some(Reason::Ended)
        } else if self.is_silent {
            Some(Reason::Closed)
        } else {
            None
        }
    }

    /// Why it is gone, as the operator is told. Of one that is turned away that is so however it goes, but for want of memory.
    pub(crate) fn reason_to_tell(&self, reason: Reason) -> Reason {
        if self.turned_away == TurnedAway::No || reason == Reason::NoMemory {
            reason
        } else {
            Reason::WrongSecret
        }
    }

    /// Why it is closed once its time is up.
    pub(crate) fn reason_when_due(&self) -> Reason {
        self.ending().unwrap_or(Reason::Unregistered)
    }
}
