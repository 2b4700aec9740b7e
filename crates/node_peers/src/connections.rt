//! How connections of the table begin and end.
ghost use Rattle.std.specs.Prelude.{◌≡◌, ◌≢◌, ◌≤◌, ◌<◌, ℕ, IfNone, IfSome, OnOk, Some, None, is_some, nat_lt, true, false, if◌then◌else◌};
ghost use Rattle.std.specs.Option.{option_map};
ghost use Rattle.network_log.specs.declared.origin.Origin.TheVariants.{PeerCame, PeerDialed};
ghost use Rattle.node_peers.specs.Dialing as dialing;
ghost use Rattle.node_peers.specs.PeersState as spec;
ghost use Rattle.node_peers.specs.PeersState.{seat_at, waiting, most};
ghost use Rattle.node_peers.specs.Seat.{Seat, new_seat};

use crate::entry::PeerEntry;
use crate::loss::PeerLoss;
use crate::news::{Operator, PeerNews};
use crate::peer::Peer;
use crate::peers::Peers;
use crate::turn::Turn;
use node_ports::{Connection, Fresh, Origin};
use std::net::SocketAddr;

/// So many strangers there may be beside two for each peer.
const SPARE: usize = 8;

// Of the connection that came first so far, if any, and the one of that number, the one that came first: each behind so many others.
fn earlier_of(first: Option<(usize, u64)>, number: usize, order: u64) -> (usize, u64)
    ensures none { first ≡ None → result ≡ (number, order) }
    ensures some { IfSome first (λ f. result ≡ (if nat_lt order f.1 then (number, order) else f)) }
{
    match first {
        Some(earliest) if earliest.1 <= order => earliest,
        _ => (number, order),
    }
}

// The number of that connection.
fn number_of(first: Option<(usize, u64)>) -> Option<usize>
    ensures { result ≡ option_map (λ f. f.0) first }
{
    match first {
        Some((number, _)) => Some(number),
        None => None,
    }
}

impl<C: Connection> Peers<C> {
    /// A connection with another node is there, by its number. Where it is no peer's, or there is no memory, it is closed. Where a
    /// stranger came that is one too many, the one that came first is to make way: never a connection over which a peer said hello.
    pub fn begin<O: Operator>(
        &mut self,
        turn: &Turn<'_, C>,
        number: usize,
        fresh: Fresh<C>,
        operator: &mut O,
    )
        ensures { spec.KeepsOthers number self.old self.new }
    {
        // Where a number is given again, the connection that bore it before is closed.
        self.close(turn, number, PeerLoss::Replaced, operator);
        match fresh.connection.origin() {
            Origin::PeerCame => self.let_in(turn, number, fresh, operator),
            Origin::PeerDialed(place) => self.reach(turn, number, place, fresh, operator),
            // (these are no connections with other nodes)
            Origin::ClientCame | Origin::NetworkDialed(_) => {}
        }
    }

    // A stranger connected.
    fn let_in<O: Operator>(
        &mut self,
        turn: &Turn<'_, C>,
        number: usize,
        fresh: Fresh<C>,
        operator: &mut O,
    )
        requires { C.origin fresh.connection ≡ PeerCame }
        ensures { spec.KeepsOthers number self.old self.new }
    {
        self.make_way();
        let address = fresh.connection.address();
        if let Err(loss) = self.accept(turn, number, fresh) {
            self.tell_refused(address, loss, None, operator);
        }
    }

    // The peer at that place was reached.
    fn reach<O: Operator>(
        &mut self,
        turn: &Turn<'_, C>,
        number: usize,
        place: usize,
        fresh: Fresh<C>,
        operator: &mut O,
    )
        requires { C.origin fresh.connection ≡ PeerDialed place }
        ensures { spec.KeepsOthers number self.old self.new }
    {
        let address = fresh.connection.address();
        if let Err(loss) = self.open(turn, number, place, fresh) {
            self.tell_refused(address, loss, Some(place), operator);
            self.put_off(turn, place);
        }
    }

    // Takes the connection of a stranger in.
    fn accept(&mut self, turn: &Turn<'_, C>, number: usize, fresh: Fresh<C>) -> Result<(), PeerLoss>
        requires origin { C.origin fresh.connection ≡ PeerCame }
        requires room { waiting self.old < most self.old }
        ensures { (n : ℕ) → n ≢ number → seat_at self.new n ≡ seat_at self.old n }
    {
        match Peer::accept(turn, fresh) {
            Ok(peer) => self.take_in(turn, number, peer, None),
            Err(_) => Err(PeerLoss::NoMemory),
        }
    }

    // Takes a connection in that this node opened to the peer at that place.
    fn open(
        &mut self,
        turn: &Turn<'_, C>,
        number: usize,
        place: usize,
        fresh: Fresh<C>,
    ) -> Result<(), PeerLoss>
        requires { C.origin fresh.connection ≡ PeerDialed place }
        ensures { (n : ℕ) → n ≢ number → seat_at self.new n ≡ seat_at self.old n }
    {
        let Some(record) = self.records.get(place) else {
            return Err(PeerLoss::UnknownNode);
        };
        if record.link.place() != place {
            return Err(PeerLoss::UnknownNode);
        }
        match Peer::open(turn, &record.link, fresh) {
            Ok(peer) => self.take_in(turn, number, peer, Some(place)),
            Err(_) => Err(PeerLoss::NoMemory),
        }
    }

    // Takes a connection in, which has something to do then. Refused where there is no memory.
    fn take_in(
        &mut self,
        turn: &Turn<'_, C>,
        number: usize,
        peer: Peer<C>,
        dialed: Option<usize>,
    ) -> Result<(), PeerLoss>
        requires { is_some dialed ≡ false → waiting self.old < most self.old }
        ensures taken { OnOk result (seat_at self.new number
            ≡ Some (new_seat peer dialed self.old.begun turn.now.at)) }
        ensures others { (n : ℕ) → n ≢ number → seat_at self.new n ≡ seat_at self.old n }
    {
        let order = self.begun;
        self.begun = order.saturating_add(1);
        let entry = PeerEntry::new(peer, dialed, order, turn.at);
        match self.entries.insert(number, entry) {
            Ok(_) => Ok(()),
            Err(_) => Err(PeerLoss::NoMemory),
        }
    }

    /// Closes a connection, and tells the operator why. Where this node opens the connections with its peer, it dials the peer later.
    /// A connection that isn't there is passed over.
    pub fn close<O: Operator>(
        &mut self,
        turn: &Turn<'_, C>,
        number: usize,
        loss: PeerLoss,
        operator: &mut O,
    )
        ensures seats { self.new.seats ≡ spec.without number self.old }
        ensures gone { seat_at self.new number ≡ None }
    {
        let Some(entry) = self.entries.remove(&number) else {
            return;
        };
        let (noted, dialed, address) = (entry.peer.noted(), entry.dialed, entry.address);
        drop(entry);
        self.tell_ended(address, loss, noted, dialed, operator);
        self.leave(turn, noted, dialed);
    }

    // A connection ended over which the peer at the first place said hello, or which was opened to the one at the second.
    fn leave(&mut self, turn: &Turn<'_, C>, noted: Option<usize>, dialed: Option<usize>)
        ensures { spec.IsSameButDialing self.old self.new }
    {
        if let Some(place) = noted {
            self.miss(turn, place);
            return self.put_off(turn, place);
        }
        if let Some(place) = dialed {
            self.put_off(turn, place);
        }
    }

    // A connection with the peer at that place ended: where there is none now, the operator is told some time later.
    fn miss(&mut self, turn: &Turn<'_, C>, place: usize)
        ensures connected { spec.IsConnected self.old place → self.new ≡ self.old }
        ensures missed { ¬ spec.IsConnected self.old place
            → spec.IsDialedSo (dialing.missed turn.now.at) place self.old self.new }
        ensures kept { spec.IsSameButDialing self.old self.new }
    {
        if self.connection_with(place).is_none() {
            self.note_absence(place, turn.at);
        }
    }

    /// The peer at that place could not be reached, or its connection ended: where this node is to open one, and there is none, it
    /// is dialed later.
    pub fn put_off(&mut self, turn: &Turn<'_, C>, place: usize)
        ensures connected { spec.IsConnected self.old place → self.new ≡ self.old }
        ensures later { ¬ spec.IsConnected self.old place
            → spec.IsDialedSo (dialing.put_off turn.now.at) place self.old self.new }
        ensures kept { spec.IsSameButDialing self.old self.new }
    {
        if self.connection_with(place).is_none() {
            self.dial_later(place, turn.at);
        }
    }

    // The operator is told some time after that moment that there is no connection with the peer at that place.
    fn note_absence(&mut self, place: usize, now: u64)
        ensures missed { spec.IsDialedSo (dialing.missed now) place self.old self.new }
        ensures kept { spec.IsSameButDialing self.old self.new }
    {
        if let Some(record) = self.records.get_mut(place) {
            record.dialing.miss(now);
        }
    }

    // The peer at that place is dialed some time after that moment.
    fn dial_later(&mut self, place: usize, now: u64)
        ensures later { spec.IsDialedSo (dialing.put_off now) place self.old self.new }
        ensures kept { spec.IsSameButDialing self.old self.new }
    {
        if let Some(record) = self.records.get_mut(place) {
            record.dialing.put_off(now);
        }
    }

    // Whether the peer at that place is to be dialed by now. If so, it isn't to be dialed again before that is put off.
    fn take_dial(&mut self, place: usize, now: u64) -> bool
        ensures due { result ≡ true → spec.IsDue now self.old place }
        ensures early { result ≡ false → self.new ≡ self.old }
    {
        match self.records.get_mut(place) {
            Some(record) => record.dialing.take_dial(now),
            None => false,
        }
    }

    /// The place of a peer that is to be dialed by now. It isn't given again before that is [put off](Peers::put_off).
    pub fn next_to_dial(&mut self, turn: &Turn<'_, C>) -> Option<usize>
        ensures due { IfSome result (spec.IsDue turn.now.at self.old) }
        ensures none { IfNone result (self.new ≡ self.old) }
    {
        for place in 0..self.records.len() {
            if self.take_dial(place, turn.at) {
                return Some(place);
            }
        }
        None
    }

    // There is to be one more stranger. Where there are too many, the one that came first has one more turn, in which what it has
    // sent by now is read, and is closed then, unless it said hello by that.
    fn make_way(&mut self)
        ensures room { waiting self.new < most self.new }
        ensures spared { waiting self.old < most self.old → self.new ≡ self.old }
        ensures oldest { most self.old ≤ waiting self.old → spec.IsMadeWay self.old self.new }
    {
        let most = self.records.len().saturating_mul(2).saturating_add(SPARE);
        if self.waiting() < most {
            return;
        }
        let Some(number) = self.oldest() else {
            return;
        };
        let Some(entry) = self.entries.get_mut(&number) else {
            return;
        };
        entry.await_turn();
    }

    // Who came first of the strangers that aren't to make way.
    fn oldest(&self) -> Option<usize>
        ensures some { IfSome result (λ number.
            (seat : Seat) × spec.IsOldest self.now number seat) }
        ensures none { IfNone result (waiting self.now ≡ 0) }
    {
        let mut first = None;
        for (number, entry) in self.entries.iter() {
            if entry.is_waiting() {
                first = Some(earlier_of(first, *number, entry.order));
            }
        }
        number_of(first)
    }

    // The operator is told of a connection that ended: over which the peer at the first place said hello, or which was opened to the
    // one at the second.
    fn tell_ended<O: Operator>(
        &mut self,
        address: Option<SocketAddr>,
        loss: PeerLoss,
        noted: Option<usize>,
        dialed: Option<usize>,
        operator: &mut O,
    )
        ensures { self.new ≡ self.old }
    {
        let Some(node) = self.name_of(noted) else {
            return self.tell_refused(address, loss, dialed, operator);
        };
        operator.tell(&PeerNews::Down { node, loss });
    }

    // The operator is told of a connection that ended before a peer said hello over it. Of those that others opened only the first
    // ones of a minute are told.
    fn tell_refused<O: Operator>(
        &mut self,
        address: Option<SocketAddr>,
        loss: PeerLoss,
        dialed: Option<usize>,
        operator: &mut O,
    )
        ensures { self.new ≡ self.old }
    {
        if dialed.is_some() || loss == PeerLoss::NoMemory || self.refusals.add() {
            let node = self.name_of(dialed);
            operator.tell(&PeerNews::Refused {
                node,
                address,
                loss,
            });
        }
    }
}
