//! A connection of the table.
ghost use Rattle.std.specs.Prelude.{◌≡◌, ◌≢◌, ◌+◌, None, Some, true, false, nat_le, if◌then◌else◌};
ghost use Rattle.node_peers.specs.Seat as spec;
ghost use Rattle.node_peers.specs.declared.entry.TheConstants.{PATIENCE};

use crate::dialing::earlier;
use crate::loss::PeerLoss;
use crate::peer::Peer;
use crate::peer_record::PeerRecord;
use crate::supply::Supply;
use crate::turn::Turn;
use cluster_directory::Version;
use node_ports::Connection;
use std::marker::Model;
use std::net::SocketAddr;

/// A connection over which no peer says hello is closed after so many milliseconds.
const PATIENCE: u64 = 60_000;

/// A connection of the table. Contracts see it as a [`Seat`](PeerEntry): all else is what the operator is told, and whose turn it is.
pub(crate) struct PeerEntry<C: Connection> {
    pub(crate) peer: Peer<C>,
    /// Who is at the other end.
    pub(crate) address: Option<SocketAddr>,
    /// The place of the peer to which this node connected.
    pub(crate) dialed: Option<usize>,
    /// How many connections came before it.
    pub(crate) order: u64,
    /// When it came, in milliseconds.
    pub(crate) since: u64,
    /// What the peer may still have for this node.
    pub(crate) supply: Supply,
    /// Whether the operator was told what the peer's hello came to.
    pub(crate) is_judged: bool,
    /// Whether the operator was told that the peer knows a later life of this node.
    pub(crate) is_behind: bool,
    /// Whether it is to make way for others.
    pub(crate) is_awaited: bool,
    /// Whether it has something to do.
    pub(crate) is_busy: bool,
}

impl<C: Connection> Model for PeerEntry<C> {
    ghost use Rattle.node_peers.specs.Seat.{Seat};

    ghost Value = { Seat };

    ghost view = { λ e. record {
      peer = e.peer;
      dialed = e.dialed;
      order = e.order;
      since = e.since;
      is_awaited = e.is_awaited;
    } };
}

// Written out, so that this is proved once, and not in each function that lets a connection go.
impl<C: Connection> Drop for PeerEntry<C> {
    fn drop(self) {
        let Self {
            peer: _peer,
            address: _address,
            dialed: _dialed,
            order: _order,
            since: _since,
            supply: _supply,
            is_judged: _is_judged,
            is_behind: _is_behind,
            is_awaited: _is_awaited,
            is_busy: _is_busy,
        } = self;
    }
}

impl<C: Connection> PeerEntry<C> {
    /// A connection that is there, to the peer at that place where this node opened it, behind so many others.
    pub(crate) fn new(peer: Peer<C>, dialed: Option<usize>, order: u64, now: u64) -> PeerEntry<C>
        ensures { result ≡ spec.new_seat peer dialed order now }
    {
        let address = peer.connection().address();
        PeerEntry {
            peer,
            address,
            dialed,
            order,
            since: now,
            supply: Supply::Awaited { since: now },
            is_judged: false,
            is_behind: false,
            is_awaited: false,
            is_busy: true,
        }
    }

    /// The place of the peer that said hello over it.
    pub(crate) fn noted(&self) -> Option<usize>
        ensures { result ≡ self.now.peer.talk.noted }
    {
        self.peer.noted()
    }

    /// Whether the peer at that place said hello over it.
    pub(crate) fn is_with(&self, place: usize) -> bool
        ensures yes { result ≡ true → self.now.peer.talk.noted ≡ Some place }
        ensures no { result ≡ false → self.now.peer.talk.noted ≢ Some place }
    {
        match self.peer.noted() {
            Some(noted) => noted == place,
            None => false,
        }
    }

    /// Whether the other end opened it, and no peer has said hello over it.
    pub(crate) fn is_stranger(&self) -> bool
        ensures { result ≡ spec.is_stranger self.now }
    {
        self.dialed.is_none() && self.peer.noted().is_none()
    }

    /// Whether it is a stranger that isn't to make way.
    pub(crate) fn is_waiting(&self) -> bool
        ensures { result ≡ spec.is_waiting self.now }
    {
        self.is_stranger() && !self.is_awaited
    }

    /// It is to make way for another one, unless a peer says hello in the turn that it has now.
    pub(crate) fn await_turn(&mut self)
        ensures { self.new ≡ record self.old { is_awaited = true } }
    {
        self.is_awaited = true;
        self.is_busy = true;
        self.peer.mark(true, false);
    }

    /// It has something to do where it is lost, and where something can be sent now.
    pub(crate) fn wake(&mut self)
        ensures { spec.IsSameSeat self.old self.new }
    {
        self.is_busy |= self.peer.loss().is_some() || self.peer.can_send();
    }

    /// The own hello is said again, where nothing else was for long enough.
    pub(crate) fn repeat_hello(&mut self, turn: &Turn<'_, C>, room: &mut Vec<u8>)
        ensures { spec.IsSameSeat self.old self.new }
    {
        self.peer.repeat_hello(turn, room);
        self.wake();
    }

    /// Bytes may be there, or room for bytes.
    pub(crate) fn mark(&mut self, is_readable: bool, is_writable: bool)
        ensures { spec.IsSameSeat self.old self.new }
    {
        self.peer.mark(is_readable, is_writable);
        self.is_busy = true;
    }

    /// It has its turn.
    pub(crate) fn begin_turn(&mut self)
        ensures { spec.IsSameSeat self.old self.new }
    {
        self.is_busy = false;
    }

    /// Its turn ends: what is owed is sent, by one write. Why it is to be closed, where it is: a stranger that is to make way goes now
    /// that it had its turn, and all others only where they are lost.
    pub(crate) fn end_turn(&mut self, has_more: bool) -> Option<PeerLoss>
        ensures same { spec.IsSameSeat self.old self.new }
        ensures stranger { spec.gives_way self.old ≡ true → result ≡ Some PeerLoss.GaveWay }
        ensures other { spec.gives_way self.old ≡ false → result ≡ self.new.peer.loss }
    {
        if self.is_awaited && self.is_stranger() {
            return Some(PeerLoss::GaveWay);
        }
        self.peer.send();
        self.is_busy |= has_more || self.peer.can_send();
        self.peer.loss()
    }

    /// Something was published.
    pub(crate) fn publish(&mut self)
        ensures { spec.IsSameSeat self.old self.new }
    {
        self.peer.publish();
    }

    /// What is due of it by now: why it is to be closed, where it is.
    pub(crate) fn review(&mut self, turn: &Turn<'_, C>) -> Option<PeerLoss>
        ensures same { spec.IsSameSeat self.old self.new }
        ensures loss { result ≡ spec.overdue turn.now.at self.old }
    {
        if self.peer.noted().is_none() {
            return self.patience_ended(turn.at);
        }
        if self.peer.is_gone(turn.at) {
            return Some(PeerLoss::Unheard);
        }
        if self.peer.tick(turn.at) {
            return Some(PeerLoss::Unacknowledged);
        }
        None
    }

    // Why it is to be closed, where no peer said hello over it in time.
    fn patience_ended(&self, now: u64) -> Option<PeerLoss>
        ensures { result ≡ (if nat_le (self.now.since + PATIENCE) now
            then Some PeerLoss.Unregistered else None) }
    {
        if now.saturating_sub(self.since) >= PATIENCE {
            Some(PeerLoss::Unregistered)
        } else {
            None
        }
    }

    /// When it is to be looked at next.
    pub(crate) fn next_at(&self, now: u64) -> Option<u64> {
        if self.peer.noted().is_none() {
            return Some(self.since.saturating_add(PATIENCE));
        }
        let quiet = self.peer.hello_due().min(self.peer.gone_at());
        let awaited = self.supply.awaited_until().filter(|until| now < *until);
        earlier(Some(quiet), earlier(awaited, self.peer.deadline()))
    }

    // Whether this node has all that the peer at that place had. A node whose later life the peer knows, or which says a lower
    // version to it, is sent nothing.
    fn has_given_all(&self, turn: &Turn<'_, C>, place: usize) -> bool {
        let is_lower = turn.terms.version_for(place).is_lower_than(Version::OWN);
        !is_lower && !self.is_behind && self.supply.is_taken(turn.at)
    }

    /// Whether this node and the peer, of which that is kept, are level: each has all that the other had.
    pub(crate) fn is_level(&self, turn: &Turn<'_, C>, kept: &PeerRecord<C>) -> bool {
        kept.is_served() && self.peer.is_caught_up() && self.has_given_all(turn, kept.link.place())
    }
}
