//! A connection with another node.
ghost use Rattle.std.specs.Prelude.{◌≡◌, ◌≢◌, ◌<◌, ◌≤◌, ◌⊎◌, None, Some, IfNone, IfOk, IfSome, OnErr, OnOk, length, take, is_some, true};
ghost use Rattle.irc_line.specs.Stream.{next_item};
ghost use Rattle.gossip_link.specs.Pace as pace;
ghost use Rattle.gossip_link.specs.declared.handshake.Side.TheVariants.{Opener, Acceptor};
ghost use Rattle.gossip_link.specs.declared.heard.Heard.TheVariants.{Message, Nothing};
ghost use Rattle.network_log.specs.declared.origin.Origin.TheVariants.{PeerCame, PeerDialed};
ghost use Rattle.node_ports.specs.declared.pending.ReceiveFault.TheVariants as unreceived;
ghost use Rattle.node_peers.specs.PeerEvents.{IsHeard, IsLost};
ghost use Rattle.node_peers.specs.PeerState.{new_peer, origin_of, talked, with_received};
ghost use Rattle.node_peers.specs.Served.{IsConfigured, IsHeardSo};
ghost use Rattle.node_peers.specs.Talk.{IsAdvanced, IsCarriedOut, IsEnded, at_pace, noting};
ghost use Rattle.node_peers.specs.declared.sending.TheConstants.{MOST_OWED};
ghost use Rattle.node_peers.specs.declared.peer.PeerHearing.TheVariants as hearing;

use crate::carrying::Carried;
use crate::dialogue::PeerDialogue;
use crate::loss::PeerLoss;
use crate::peer_link::PeerLink;
use crate::sending::MOST_OWED;
use crate::turn::Turn;
use byte_text::NoMemory;
use gossip_link::{Arrived, Heard, Side};
use irc_line::Next;
use node_ports::{Connection, Fresh, Halt, LineBuffer, NodePass, ReceiveFault};
use std::alloc::Global;
use std::marker::Model;
use std::net::SocketAddr;

/// What came of asking for the next line.
#[derive(Clone, Copy, Debug, PartialEq, Eq)]
pub enum PeerHearing {
    /// The session heard it.
    Line,
    /// A message is to be carried out before it.
    Message,
    /// There is none before more bytes come.
    More,
    /// Too much is owed to the other node: that is sent first ([`Peer::make_room`]).
    Full,
    /// The connection is lost.
    Lost,
}

/// A connection with another node: what came over it and isn't heard yet, the session, and what is owed to that node. Once it is
/// lost nothing is said any more.
#[derive(Drop)]
pub struct Peer<C: Connection> {
    pub(crate) connection: C,
    side: Side,
    input: LineBuffer,
    pub(crate) dialogue: PeerDialogue,
    /// When bytes came last, in milliseconds.
    pub(crate) heard_at: u64,
    pub(crate) loss: Option<PeerLoss>,
    is_readable: bool,
    pub(crate) is_writable: bool,
}

impl<C: Connection> Model for Peer<C> {
    ghost use Rattle.std.specs.Prelude.{◌≡◌, ◌++◌, None};
    ghost use Rattle.node_peers.specs.PeerState.{PeerState, origin_of};
    ghost use Rattle.node_peers.specs.Served.{IsConfigured, IsServed};

    ghost Value = { PeerState };

    ghost view = { λ p. record {
      side = p.side;
      serial = C.serial p.connection;
      received = C.received p.connection;
      unread = p.input;
      sent = C.sent p.connection;
      talk = p.dialogue;
      heard_at = p.heard_at;
      loss = p.loss;
    } };

    ghost invariant = { λ p. (C.origin p.connection ≡ origin_of p.side)
        × ∥ IsConfigured C.facts p.side ∥₁
        × ∥ C.facts.came (C.origin p.connection) (C.serial p.connection) (C.received p.connection) ∥₁
        × (p.loss ≡ None → ∥ IsServed C.facts p.side (C.received p.connection) p.input
        (C.sent p.connection) p.dialogue ∥₁) };
}

// The session hears the next line, or that it was too long, at that moment. None where no line is there.
fn hear_next<C: Connection>(
    dialogue: &mut PeerDialogue,
    input: &mut LineBuffer,
    turn: &Turn<'_, C>,
    room: &mut Vec<u8>,
) -> Option<Result<(), PeerLoss>>
    ensures none { IfNone result (next_item input.old ≡ None) }
    ensures unheard { IfNone result ((dialogue.new ≡ dialogue.old) × (input.new ≡ input.old)) }
    ensures heard { IfSome result (λ answer. OnOk answer (IsHeardSo turn.now.terms.now turn.now.at
        input.old input.new dialogue.old dialogue.new)) }
    ensures err { IfSome result (λ answer. OnErr answer (IsEnded dialogue.old dialogue.new)) }
{
    let heard = match input.next_line() {
        Next::Line(bytes) => dialogue.hear(turn, Some(bytes), room),
        Next::TooLong => dialogue.hear(turn, None, room),
        Next::More => return None,
    };
    if heard.is_ok() {
        input.take_line();
    }
    Some(heard)
}

impl<C: Connection> Peer<C> {
    // A connection over which nothing went yet, which that side opened.
    fn new(turn: &Turn<'_, C>, side: Side, fresh: Fresh<C>) -> Result<Peer<C>, NoMemory>
        requires origin { C.origin fresh.connection ≡ origin_of side }
        requires peer { ∥ IsConfigured C.facts side ∥₁ }
        ensures { IfOk result (λ peer. peer
            ≡ new_peer C.facts.terms side (C.serial fresh.connection) turn.now.at) }
    {
        let Fresh { connection, .. } = fresh;
        let dialogue = PeerDialogue::new(turn.alloc, turn.terms, side, turn.at)?;
        Ok(Peer {
            connection,
            side,
            input: LineBuffer::new(turn.alloc),
            dialogue,
            heard_at: turn.at,
            loss: None,
            is_readable: true,
            is_writable: true,
        })
    }

    /// A connection that another node opened. Nothing is said over it before the right word and the hello of a peer came.
    pub fn accept(turn: &Turn<'_, C>, fresh: Fresh<C>) -> Result<Peer<C>, NoMemory>
        requires origin { C.origin fresh.connection ≡ PeerCame }
        ensures { IfOk result (λ peer. peer
            ≡ new_peer C.facts.terms Acceptor (C.serial fresh.connection) turn.now.at) }
    {
        Peer::new(turn, Side::Acceptor, fresh)
    }

    /// A connection that this node opened to the peer of that link. The word and the own hello are owed to it.
    pub fn open(
        turn: &Turn<'_, C>,
        link: &PeerLink<C>,
        fresh: Fresh<C>,
    ) -> Result<Peer<C>, NoMemory>
        requires origin { C.origin fresh.connection ≡ PeerDialed link.now.place }
        ensures { IfOk result (λ peer. peer ≡ new_peer C.facts.terms (Opener link.now.place)
            (C.serial fresh.connection) turn.now.at) }
    {
        Peer::new(turn, Side::Opener(link.place()), fresh)
    }

    /// Its connection: what went out over it, with what is owed, is all that was said.
    pub fn connection(&self) -> &C
        ensures sent { C.sent result.now ≡ self.now.sent }
        ensures received { C.received result.now ≡ self.now.received }
        ensures serial { C.serial result.now ≡ self.now.serial }
        ensures origin { C.origin result.now ≡ origin_of self.now.side }
    {
        &self.connection
    }

    /// Why it is lost, where it is.
    pub fn loss(&self) -> Option<PeerLoss>
        ensures { result ≡ self.now.loss }
    {
        self.loss
    }

    /// It is lost from now on: nothing is said any more.
    pub fn lose(&mut self, loss: PeerLoss)
        ensures { self.new ≡ record self.old { loss = Some loss } }
    {
        self.loss = Some(loss);
    }

    /// The place of the peer that said hello.
    pub fn noted(&self) -> Option<usize>
        ensures { result ≡ self.now.talk.noted }
    {
        self.dialogue.noted()
    }

    /// Whether the peer has caught up ([`PeerSession::is_caught_up`](gossip_link::PeerSession::is_caught_up)).
    pub fn is_caught_up(&self) -> bool
        ensures { result ≡ pace.is_caught_up self.now.talk.session.pace }
    {
        self.dialogue.is_caught_up()
    }

    /// When the packet that is under way has waited long enough, where there is one.
    pub fn deadline(&self) -> Option<u64>
        ensures { result ≡ pace.deadline self.now.talk.session.pace }
    {
        self.dialogue.deadline()
    }

    /// Bytes may be there, or room for bytes.
    pub fn mark(&mut self, is_readable: bool, is_writable: bool)
        ensures { self.new ≡ self.old }
    {
        self.is_readable |= is_readable;
        self.is_writable |= is_writable;
    }

    /// Takes in bytes that come over its connection at that moment, by way of the chunk, and answers how many. Its lines are heard
    /// before more is taken in. For want of memory nothing is taken.
    pub fn receive(&mut self, chunk: &mut [u8], now: u64) -> Result<usize, ReceiveFault>
        ensures got { IfOk result (λ n. self.new ≡ with_received (take n chunk.new) now self.old) }
        ensures err { OnErr result (self.new ≡ self.old) }
    {
        if !self.is_readable {
            return Err(ReceiveFault::Blocked);
        }
        match self.input.receive(&mut self.connection, chunk) {
            Ok(count) => {
                self.heard_at = now;
                self.is_readable = count > 0;
                Ok(count)
            }
            Err(fault) => {
                self.is_readable = fault != ReceiveFault::Blocked;
                Err(fault)
            }
        }
    }

    /// Its session hears the next line at that moment. What the session says to that is owed. Where the connection is to be closed
    /// because of the line, and for want of memory, it is lost.
    pub fn hear(&mut self, turn: &Turn<'_, C>, room: &mut Vec<u8>) -> PeerHearing
        ensures line { result ≡ hearing.Line → IsHeard C.facts turn.now.at self.old self.new }
        ensures kept { result ≡ hearing.Line → self.old.loss ≡ None }
        ensures more { result ≡ hearing.More →
            (next_item self.old.unread ≡ None) × (self.new ≡ self.old) }
        ensures message { result ≡ hearing.Message →
            (self.old.talk.brought ≢ Nothing) × (self.new ≡ self.old) }
        ensures full { result ≡ hearing.Full →
            (MOST_OWED < length self.old.talk.owed) × (self.new ≡ self.old) }
        ensures bounded { result ≡ hearing.Line → length self.old.talk.owed ≤ MOST_OWED }
        ensures lost { result ≡ hearing.Lost → IsLost self.old self.new }
    {
        if self.loss.is_some() {
            return PeerHearing::Lost;
        }
        if !self.dialogue.is_idle() {
            return PeerHearing::Message;
        }
        if self.dialogue.owed().len() > MOST_OWED {
            return PeerHearing::Full;
        }
        let Peer {
            dialogue,
            input,
            ..
        } = self;
        match hear_next(dialogue, input, turn, room) {
            Some(Ok(())) => PeerHearing::Line,
            Some(Err(loss)) => {
                self.loss = Some(loss);
                PeerHearing::Lost
            }
            None => PeerHearing::More,
        }
    }

    /// The message that is to be carried out before the next line is heard, and the place of its peer.
    pub fn message(&self) -> Option<(usize, &Arrived)>
        ensures { IfSome result (λ m. self.now.talk.brought ≡ Message m.0 m.1.now) }
    {
        self.dialogue.message()
    }

    /// The peer whose message came is noted as the one at the other end, where none was.
    pub fn note(&mut self)
        ensures { self.new ≡ talked (noting self.old.talk) self.old }
    {
        self.dialogue.note();
    }

    /// Carries out the message that came, on the link with its peer, and hands it back. The node takes what a packet brings, and
    /// acknowledges it where it took all. None where there is no message, or one of another peer, and where the connection is lost.
    pub fn carry_out<N: NodePass<Connection = C>>(
        &mut self,
        turn: &Turn<'_, C>,
        link: &mut PeerLink<C>,
        pass: &mut N,
        room: &mut Vec<u8>,
    ) -> Option<Carried>
        ensures carried { IfSome result (λ carried. (t : _) × (self.new ≡ talked t self.old)
            × IsCarriedOut C.facts link.old.link carried.message carried.outcome turn.now.at
            self.old.talk t) }
        ensures none { result ≡ None → (self.new ≡ self.old) ⊎ IsLost self.old self.new }
        ensures place { link.new.place ≡ link.old.place }
    {
        if self.loss.is_some() || self.dialogue.place() != Some(link.place()) {
            return None;
        }
        match self.dialogue.carry_out(turn, &mut link.link, pass, room) {
            Ok(carried) => carried,
            Err(loss) => {
                self.loss = Some(loss);
                None
            }
        }
    }

    /// Something was published.
    pub fn publish(&mut self)
        ensures { self.new ≡ talked
            (at_pace (pace.published self.old.talk.session.pace) self.old.talk) self.old }
    {
        self.dialogue.publish();
    }

    /// It is that moment: whether the connection is to be closed ([`PeerSession::tick`](gossip_link::PeerSession::tick)).
    pub fn tick(&mut self, now: u64) -> bool
        ensures answer { result ≡ pace.is_over now self.old.talk.session.pace }
        ensures pace { self.new ≡ talked
            (at_pace (pace.ticked now self.old.talk.session.pace) self.old.talk) self.old }
    {
        self.dialogue.tick(now)
    }

    /// Makes the next packet for the peer of that link, where that is the one at the other end and a packet is due. It is owed.
    pub fn advance<N: NodePass<Connection = C>>(
        &mut self,
        turn: &Turn<'_, C>,
        link: &mut PeerLink<C>,
        pass: &mut N,
        room: &mut Vec<u8>,
    )
        ensures made { self.new.loss ≡ None → self.old.talk.noted ≡ Some link.old.place
            → (t : _) × (self.new ≡ talked t self.old)
            × IsAdvanced C.facts turn.now.at self.old.talk t }
        ensures other { self.old.talk.noted ≢ Some link.old.place → self.new ≡ self.old }
        ensures lost { is_some self.new.loss ≡ true → IsLost self.old self.new }
        ensures place { link.new.place ≡ link.old.place }
    {
        if self.loss.is_some() || self.noted() != Some(link.place()) {
            return;
        }
        let place = link.place();
        if let Err(loss) = self
            .dialogue
            .advance(turn, place, &mut link.link, pass, room)
        {
            self.loss = Some(loss);
        }
    }
}
