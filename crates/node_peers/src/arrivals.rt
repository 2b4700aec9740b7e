//! What messages of peers come to, and the packets that are made for them.
ghost use Rattle.std.specs.Prelude.{◌≡◌, ◌≢◌, Some, None, IfSome, ℕ};
ghost use Rattle.node_peers.specs.PeersState.{IsGreetedAs, IsSameButDialing, seat_at};
ghost use Rattle.node_peers.specs.Seat.{IsSameSeat, Seat};
ghost use Rattle.node_peers.specs.Talk.{place_of};

use crate::carrying::Carried;
use crate::entry::PeerEntry;
use crate::loss::PeerLoss;
use crate::news::{Operator, PeerNews};
use crate::peer_record::PeerRecord;
use crate::peers::Peers;
use crate::supply::Supply;
use crate::turn::Turn;
use byte_text::NoMemory;
use gossip_link::{Arrived, Heard, Life, NodeName, Outcome, changes_of};
use node_ports::{Connection, NodePass};

// Whether a life is one of this node that is later than its present one.
fn is_later<C: Connection>(turn: &Turn<'_, C>, life: &Life) -> bool {
    let me = turn.terms.me();
    life.is_of(me.node()) && me.incarnation() < life.incarnation()
}

// That life of the node of that name.
fn life_of<C: Connection>(
    turn: &Turn<'_, C>,
    name: &NodeName,
    incarnation: u64,
) -> Result<Life, NoMemory> {
    Ok(Life::new(name.try_clone(turn.alloc)?, incarnation))
}

impl<C: Connection> PeerEntry<C> {
    /// The place of the peer that says hello over it, where none did before.
    fn newcomer(&self) -> Option<usize>
        ensures { IfSome result (λ place. (self.now.peer.talk.noted ≡ None)
            × (place_of self.now.peer.talk.brought ≡ Some place)) }
    {
        if self.peer.noted().is_some() {
            return None;
        }
        let (place, _) = self.peer.message()?;
        Some(place)
    }

    // The peer that says hello over it is noted as the one at the other end, from that moment on.
    fn greet(&mut self, now: u64)
        ensures noted { (place : ℕ) → self.old.peer.talk.noted ≡ None
            → place_of self.old.peer.talk.brought ≡ Some place
            → self.new.peer.talk.noted ≡ Some place }
        ensures same { IsSameSeat self.old self.new }
    {
        self.peer.note();
        self.supply = Supply::Awaited { since: now };
    }

    // Carries out the message that came over it, of the peer of which that is kept.
    fn carry_out<N: NodePass<Connection = C>, O: Operator>(
        &mut self,
        turn: &Turn<'_, C>,
        kept: &mut PeerRecord<C>,
        pass: &mut N,
        room: &mut Vec<u8>,
        operator: &mut O,
    ) -> Option<Outcome>
        ensures same { IsSameSeat self.old self.new }
        ensures dialing { kept.new ≡ kept.old }
    {
        let carried = self.peer.carry_out(turn, &mut kept.link, pass, room)?;
        self.note(turn, kept, &carried, room, operator);
        Some(carried.outcome)
    }

    // Makes the next packet for its peer, of which that is kept, where one is due.
    fn advance<N: NodePass<Connection = C>, O: Operator>(
        &mut self,
        turn: &Turn<'_, C>,
        kept: &mut PeerRecord<C>,
        pass: &mut N,
        room: &mut Vec<u8>,
        operator: &mut O,
    )
        ensures same { IsSameSeat self.old self.new }
        ensures dialing { kept.new ≡ kept.old }
    {
        self.peer.advance(turn, &mut kept.link, pass, room);
        self.tell_level(turn, kept, operator);
        self.wake();
    }

    // Notes what a message of the peer, which came to that, says of lives and of what the peer may still have.
    fn note<O: Operator>(
        &mut self,
        turn: &Turn<'_, C>,
        kept: &mut PeerRecord<C>,
        carried: &Carried,
        room: &mut Vec<u8>,
        operator: &mut O,
    )
        ensures same { IsSameSeat self.old self.new }
        ensures dialing { kept.new ≡ kept.old }
    {
        let Heard::Message(_, arrived) = &carried.message else {
            return;
        };
        match arrived {
            Arrived::Hello(life, version) => {
                if carried.outcome == Outcome::Known {
                    kept.know(life.incarnation(), *version);
                }
                self.judge(turn, kept, life.incarnation(), room, operator);
            }
            Arrived::Packet(packet) => self.note_receiver(turn, kept, packet.receiver(), operator),
            Arrived::Ack(ack) => self.note_receiver(turn, kept, ack.receiver(), operator),
            Arrived::Word(_) => {}
        }
        let count = changes_of(arrived).len();
        match Supply::after(carried.outcome, count, turn.at) {
            Some(supply) if !kept.is_level => self.supply = supply,
            _ => {}
        }
    }

    // The peer said hello in that incarnation. The operator is told once a connection whether the link knows that life, or knows a
    // later one; then the peer is told so too.
    fn judge<O: Operator>(
        &mut self,
        turn: &Turn<'_, C>,
        kept: &PeerRecord<C>,
        said: u64,
        room: &mut Vec<u8>,
        operator: &mut O,
    )
        ensures { IsSameSeat self.old self.new }
    {
        if self.is_judged {
            return;
        }
        self.is_judged = true;
        let node = kept.name.as_bytes();
        let incarnation = match kept.known {
            Some(known) => known.incarnation,
            None => said,
        };
        if incarnation == said {
            let address = self.address;
            return operator.tell(&PeerNews::Greeted {
                node,
                address,
                incarnation,
            });
        }
        operator.tell(&PeerNews::PeerBehind { node, incarnation });
        match life_of(turn, &kept.name, incarnation) {
            Ok(life) => self.peer.remind(turn, &life, room),
            Err(NoMemory) => self.peer.lose(PeerLoss::NoMemory),
        }
    }

    // The peer sent something for that life. The operator is told once a connection where it is a later one of this node.
    fn note_receiver<O: Operator>(
        &mut self,
        turn: &Turn<'_, C>,
        kept: &PeerRecord<C>,
        receiver: &Life,
        operator: &mut O,
    )
        ensures { self.new ≡ self.old }
    {
        if self.is_behind || !is_later(turn, receiver) {
            return;
        }
        self.is_behind = true;
        operator.tell(&PeerNews::NodeBehind {
            node: kept.name.as_bytes(),
            incarnation: receiver.incarnation(),
        });
    }

    // The operator is told where this node and the peer are level for the first time.
    fn tell_level<O: Operator>(
        &self,
        turn: &Turn<'_, C>,
        kept: &mut PeerRecord<C>,
        operator: &mut O,
    )
        ensures { kept.new ≡ kept.old }
    {
        if !kept.is_level && self.is_level(turn, kept) {
            kept.is_level = true;
            let node = kept.name.as_bytes();
            operator.tell(&PeerNews::Level { node });
        }
    }
}

impl<C: Connection> Peers<C> {
    // A message of a peer came over that connection. Where it is the first one, the peer's older connection is closed. A connection
    // that was opened to another peer is closed.
    fn greet<O: Operator>(&mut self, turn: &Turn<'_, C>, number: usize, operator: &mut O)
        ensures { (n : ℕ) (place : ℕ) → IsGreetedAs self.new number place
            → ¬ IsGreetedAs self.old number place → IsGreetedAs self.new n place → n ≡ number }
    {
        let Some(entry) = self.entries.get(&number) else {
            return;
        };
        let Some(place) = entry.newcomer() else {
            return;
        };
        if entry.dialed.is_some_and(|dialed| dialed != place) {
            return self.close(turn, number, PeerLoss::UnknownNode, operator);
        }
        while let Some(older) = self.connection_with(place) {
            self.close(turn, older, PeerLoss::Replaced, operator);
        }
        self.note(turn, number);
        self.settle(place);
    }

    // The peer that says hello over that connection is noted.
    fn note(&mut self, turn: &Turn<'_, C>, number: usize)
        ensures others { (n : ℕ) → n ≢ number → seat_at self.new n ≡ seat_at self.old n }
        ensures own { (seat : Seat) (place : ℕ) → seat_at self.old number ≡ Some seat
            → seat.peer.talk.noted ≡ None → place_of seat.peer.talk.brought ≡ Some place
            → IsGreetedAs self.new number place }
    {
        let Some(entry) = self.entries.get_mut(&number) else {
            return;
        };
        entry.greet(turn.at);
    }

    // There is a connection with the peer at that place.
    fn settle(&mut self, place: usize)
        ensures { IsSameButDialing self.old self.new }
    {
        if let Some(record) = self.records.get_mut(place) {
            record.dialing.settle();
        }
    }

    // The place of the peer whose message came over that connection.
    fn sender(&self, number: usize) -> Option<usize> {
        let (place, _) = self.entries.get(&number)?.peer.message()?;
        Some(place)
    }

    /// Carries out the message that came over that connection. The node takes what a packet brings, and acknowledges it where it took
    /// all. Whether the node has something new by it, which is to be [published](Peers::publish) then.
    pub fn arrive<N: NodePass<Connection = C>, O: Operator>(
        &mut self,
        turn: &Turn<'_, C>,
        number: usize,
        pass: &mut N,
        operator: &mut O,
    ) -> Option<Outcome> {
        self.greet(turn, number, operator);
        let place = self.sender(number)?;
        if place >= self.records.len() {
            self.close(turn, number, PeerLoss::UnknownNode, operator);
            return None;
        }
        let Peers {
            entries,
            records,
            room,
            ..
        } = self;
        let Some(record) = records.get_mut(place) else {
            return None;
        };
        let Some(entry) = entries.get_mut(&number) else {
            return None;
        };
        entry.carry_out(turn, record, pass, room, operator)
    }

    /// Makes the next packet for the peer of that connection, where one is due. Where nothing is new for the peer, and it has nothing
    /// new, the operator is told that the two are level: once for each peer.
    pub fn advance<N: NodePass<Connection = C>, O: Operator>(
        &mut self,
        turn: &Turn<'_, C>,
        number: usize,
        pass: &mut N,
        operator: &mut O,
    ) {
        let Some(place) = self.greeted_by(number) else {
            return;
        };
        let Peers {
            entries,
            records,
            room,
            ..
        } = self;
        let Some(record) = records.get_mut(place) else {
            return;
        };
        let Some(entry) = entries.get_mut(&number) else {
            return;
        };
        entry.advance(turn, record, pass, room, operator);
    }

    /// Something was published, which each peer is to have: packets are made for those that are due.
    pub fn publish<N: NodePass<Connection = C>, O: Operator>(
        &mut self,
        turn: &Turn<'_, C>,
        pass: &mut N,
        operator: &mut O,
    ) {
        let mut from = 0;
        for _ in 0..usize::MAX {
            let Some(number) = self.first_from(from) else {
                return;
            };
            self.renew(number);
            self.advance(turn, number, pass, operator);
            let Some(next) = number.checked_add(1) else {
                return;
            };
            from = next;
        }
    }

    // Something was published that the peer of that connection is to have.
    fn renew(&mut self, number: usize) {
        let Some(entry) = self.entries.get_mut(&number) else {
            return;
        };
        entry.publish();
    }
}
