//! One connection with a peer, which the keeper opened.
ghost use Rattle.std.specs.Prelude.{◌≡◌, ◌++◌, [], IfOk, OnOk};
ghost use Rattle.std.specs.Io.KnownBytes.{Appends};
ghost use Rattle.gossip_link.specs.Arrival.{reply};

use crate::clocks::monotonic_ms;
use crate::event::KeeperEvent;
use crate::kept::{carry_out, send_next};
use crate::lost::Lost;
use crate::shared::Common;
use byte_text::NoMemory;
use chat_history::DELTA_LIMIT;
use gossip_link::{
    Ack, Arrived, Heard, Life, Link, LinkFault, NodeName, Outcome, PeerSession, Side, Terms,
    Version, changes_of, say_hello_again, write_ack,
};
use irc_line::{Feeder, Next};
use node_config::PeerConfig;
use node_events::{Event, Reason};
use std::alloc::{AllocError, Global};
use std::io::{ErrorKind, Read, Write};
use std::sync::{Arc, Wait};
use std::time::Clock;

/// So many bytes are read at a time at most.
const CHUNK: usize = 65_536;

/// The hello is said again to a peer to which nothing was sent for so many milliseconds.
const HELLO_AGAIN: u64 = 60_000;

/// A peer from which nothing came for so many milliseconds is taken for gone.
const GONE: u64 = 300_000;

/// A peer that may have more, and sent no packet for so many milliseconds, has no more.
const LAST: u64 = 10_000;

/// The peer that a thread keeps in touch with, and what the threads share.
#[derive(Clone, Copy)]
pub(crate) struct Contact<'a> {
    pub(crate) common: &'a Common<'a>,
    /// The place of the peer among those that are configured.
    pub(crate) place: usize,
    pub(crate) peer: &'a PeerConfig,
}

/// What is known of a peer in one life of the keeper, over all connections.
#[derive(Drop)]
pub(crate) struct Bond {
    pub(crate) terms: Arc<Terms>,
    pub(crate) link: Link,
    // the incarnation of the life of the peer that is known
    known: Option<u64>,
}

impl Bond {
    /// With the peer of that name, of which nothing is known yet.
    pub(crate) fn new(alloc: Global, terms: Arc<Terms>, name: &NodeName) -> Result<Bond, NoMemory> {
        let me = terms.me().try_clone(alloc)?;
        let name = name.try_clone(alloc)?;
        Ok(Bond {
            terms,
            link: Link::new(me, name),
            known: None,
        })
    }
}

/// A connection with a peer.
#[derive(Drop)]
pub(crate) struct Talk<S> {
    stream: S,
    chunk: Vec<u8>,
    feeder: Feeder,
    session: PeerSession,
    // what waits to be sent
    out: Vec<u8>,
    place: usize,
    // when something came last, and when something was sent last
    heard_at: u64,
    said_at: u64,
    is_greeted: bool,
    // the front of the state when it was looked at last
    front: u64,
    // since when the peer may have more: none where it has no more
    awaited: Option<u64>,
    is_level: bool,
}

// So many zeros.
fn zeros(alloc: Global, count: usize) -> Result<Vec<u8>, AllocError> {
    vec![in alloc; 0; count]
}

// What the session makes of the next line that came, or of one that was too long. None where none is there.
fn hear_next(
    feeder: &mut Feeder,
    session: &mut PeerSession,
    alloc: Global,
    terms: &Terms,
    out: &mut Vec<u8>,
) -> Option<Result<Heard, NoMemory>> {
    match feeder.next_line() {
        Next::Line(bytes) => Some(session.hear(alloc, terms, Some(bytes), out)),
        Next::TooLong => Some(session.hear(alloc, terms, None, out)),
        Next::More => None,
    }
}

// Since when a peer may have more, after a packet of so many changes that came at that moment.
fn awaited_after(outcome: Outcome, count: usize, now: u64, before: Option<u64>) -> Option<u64> {
    match outcome {
        Outcome::Taken if count < DELTA_LIMIT => None,
        Outcome::Taken | Outcome::TakenInPart => Some(now),
        Outcome::Known | Outcome::Ignored => before,
    }
}

// Appends an acknowledgement of nothing to that life of the peer, from which it sees that it is behind that life.
fn remind(
    alloc: Global,
    terms: &Terms,
    name: &NodeName,
    incarnation: u64,
    out: &mut Vec<u8>,
) -> Result<(), NoMemory> {
    let me = terms.me().try_clone(alloc)?;
    let life = Life::new(name.try_clone(alloc)?, incarnation);
    match write_ack(&Ack::new(me, life, 0), out) {
        Ok(()) => Ok(()),
        Err(_) => Err(NoMemory),
    }
}

impl<S: Read + Write> Talk<S> {
    /// Over a new stream, to the peer at that place, at that moment. What is said first waits to be sent.
    pub(crate) fn new(
        alloc: Global,
        stream: S,
        place: usize,
        terms: &Terms,
        now: u64,
    ) -> Result<Talk<S>, NoMemory>
    where
        S: Drop,
    {
        let mut out = Vec::new(alloc);
        let session = PeerSession::new(Side::Opener(place));
        session.open(terms, &mut out)?;
        let chunk = zeros(alloc, CHUNK).map_err(|_| NoMemory)?;
        let feeder = Feeder::new(alloc)?;
        Ok(Talk {
            stream,
            chunk,
            feeder,
            session,
            out,
            place,
            heard_at: now,
            said_at: now,
            is_greeted: false,
            front: 0,
            awaited: None,
            is_level: false,
        })
    }

    /// Whether the peer and the keeper greeted each other.
    pub(crate) fn is_greeted(&self) -> bool {
        self.is_greeted
    }

    /// Hears what came, if something came in time, and says what is due. `Err` where the connection is lost.
    pub(crate) fn turn<R: Wait + Clock + AllocGlobal>(
        &mut self,
        rt: &R,
        contact: &Contact<'_>,
        bond: &mut Bond,
    ) -> Result<(), Lost> {
        self.flush(monotonic_ms(rt))?;
        let count = self.receive()?;
        let now = monotonic_ms(rt);
        if count > 0 {
            self.heard_at = now;
            self.hear_all(rt, contact, bond, count)?;
        }
        self.look_after(bond, now)?;
        self.send_next(rt, contact.common, bond, now)?;
        self.tell_level(rt, contact, now);
        self.flush(now)
    }

    // Sends what waits.
    fn flush(&mut self, now: u64) -> Result<(), Lost>
        ensures written { OnOk result (Appends (S.contents self.old.stream)
            (S.contents self.new.stream) self.old.out.items) }
        ensures rest { self.new.out.items ≡ [] }
    {
        if self.out.is_empty() {
            return Ok(());
        }
        let sent = self.stream.write_all(&self.out);
        self.out.clear();
        self.said_at = now;
        match sent {
            Ok(()) => Ok(()),
            Err(_) => Err(Lost::Reason(Reason::Closed)),
        }
    }

    // Waits for bytes, for a moment: how many came.
    fn receive(&mut self) -> Result<usize, Lost> {
        match self.stream.read(&mut self.chunk) {
            Ok(0) => Err(Lost::Reason(Reason::Closed)),
            Ok(count) => Ok(count),
            Err(error) => match error.kind() {
                ErrorKind::WouldBlock | ErrorKind::TimedOut | ErrorKind::Interrupted => Ok(0),
                _ => Err(Lost::Reason(Reason::Closed)),
            },
        }
    }

    // Hears so many bytes that came.
    fn hear_all<R: Wait + Clock + AllocGlobal>(
        &mut self,
        rt: &R,
        contact: &Contact<'_>,
        bond: &mut Bond,
        count: usize,
    ) -> Result<(), Lost> {
        let mut from = 0;
        for _ in 0..count {
            let Some(piece) = self.chunk.get(from..count) else {
                break;
            };
            if piece.is_empty() {
                break;
            }
            from += self.feeder.feed(piece);
            self.hear_lines(rt, contact, bond)?;
        }
        Ok(())
    }

    // Hears each line that is whole.
    fn hear_lines<R: Wait + Clock + AllocGlobal>(
        &mut self,
        rt: &R,
        contact: &Contact<'_>,
        bond: &mut Bond,
    ) -> Result<(), Lost> {
        for _ in 0..u64::MAX {
            let heard = match self.hear_next(rt.alloc(), &bond.terms) {
                None => break,
                Some(heard) => heard?,
            };
            let done = self.take_in(rt, contact, bond, &heard);
            drop(heard);
            done?;
        }
        Ok(())
    }

    // What the next line that came brings. None where none is there.
    fn hear_next(&mut self, alloc: Global, terms: &Terms) -> Option<Result<Heard, Lost>> {
        let (feeder, session) = (&mut self.feeder, &mut self.session);
        match hear_next(feeder, session, alloc, terms, &mut self.out) {
            None => None,
            Some(Ok(heard)) => Some(Ok(heard)),
            Some(Err(NoMemory)) => Some(Err(Lost::Reason(Reason::NoMemory))),
        }
    }

    // Takes in what a line brought.
    fn take_in<R: Wait + Clock + AllocGlobal>(
        &mut self,
        rt: &R,
        contact: &Contact<'_>,
        bond: &mut Bond,
        heard: &Heard,
    ) -> Result<(), Lost> {
        match heard {
            Heard::Nothing => Ok(()),
            Heard::Close(fault) => Err(Lost::from(*fault)),
            Heard::Message(_, arrived) => self.arrive(rt, contact, bond, arrived),
        }
    }

    // Carries out what arrived.
    fn arrive<R: Wait + Clock + AllocGlobal>(
        &mut self,
        rt: &R,
        contact: &Contact<'_>,
        bond: &mut Bond,
        arrived: &Arrived,
    ) -> Result<(), Lost> {
        let outcome = self.carry_out(rt, contact.common, bond, arrived)?;
        match arrived {
            Arrived::Hello(life, _) => self.note_hello(rt, contact, bond, life, outcome),
            Arrived::Packet(_) => {
                let count = changes_of(arrived).len();
                self.awaited = awaited_after(outcome, count, self.heard_at, self.awaited);
                Ok(())
            }
            Arrived::Word(_) | Arrived::Ack(_) => Ok(()),
        }
    }

    // The same under the lock.
    fn carry_out<R: Wait + AllocGlobal>(
        &mut self,
        rt: &R,
        common: &Common<'_>,
        bond: &mut Bond,
        arrived: &Arrived,
    ) -> Result<Outcome, Lost>
        ensures reply { IfOk result (λ outcome. self.new.out.items
            ≡ self.old.out.items ++ reply bond.old.link arrived.now outcome) }
    {
        let mut guard = common.shared.lock(rt);
        let shared = &mut *guard;
        if !shared.is_of(&bond.terms) {
            return Err(Lost::NewLife);
        }
        shared
            .upkeep
            .note(shared.kept.state(), changes_of(arrived), self.heard_at);
        let kept = &mut shared.kept;
        let (session, out) = (&mut self.session, &mut self.out);
        let carried = carry_out(rt.alloc(), kept, session, &mut bond.link, arrived, out);
        shared.note_failure();
        match carried {
            Ok(outcome) => Ok(outcome),
            Err(NoMemory) => Err(Lost::Reason(Reason::NoMemory)),
        }
    }

    // The peer said hello as that life. The operator is told of the first time, and where the life is an earlier one than is known.
    fn note_hello<R: Wait + Clock + AllocGlobal>(
        &mut self,
        rt: &R,
        contact: &Contact<'_>,
        bond: &mut Bond,
        life: &Life,
        outcome: Outcome,
    ) -> Result<(), Lost> {
        if outcome == Outcome::Known {
            bond.known = Some(life.incarnation());
        }
        if self.is_greeted {
            return Ok(());
        }
        self.is_greeted = true;
        self.awaited = Some(self.heard_at);
        let peer = contact.peer;
        let node = peer.name.as_bytes();
        let event = match bond.known {
            Some(incarnation) if outcome != Outcome::Known => {
                let (terms, out) = (&bond.terms, &mut self.out);
                if remind(rt.alloc(), terms, &peer.name, incarnation, out).is_err() {
                    return Err(Lost::Reason(Reason::NoMemory));
                }
                Event::PeerBehind { node, incarnation }
            }
            _ => Event::PeerGreeted {
                node,
                address: Some(peer.address),
                incarnation: life.incarnation(),
            },
        };
        contact.common.log.report(rt, &KeeperEvent::Node(event));
        Ok(())
    }

    // Says the own hello again where it is due. `Err` where the peer acknowledges nothing, or is taken for gone.
    fn look_after(&mut self, bond: &Bond, now: u64) -> Result<(), Lost> {
        if self.session.tick(now) {
            return Err(Lost::Reason(Reason::Unacknowledged));
        }
        if now.saturating_sub(self.heard_at) >= GONE {
            return Err(Lost::Reason(Reason::Unheard));
        }
        if !self.is_greeted || now.saturating_sub(self.said_at) < HELLO_AGAIN {
            return Ok(());
        }
        match say_hello_again(&bond.terms, self.place, &mut self.out) {
            Ok(()) => Ok(()),
            Err(NoMemory) => Err(Lost::Reason(Reason::NoMemory)),
        }
    }

    // Makes the next packet, where one is due.
    fn send_next<R: Wait + AllocGlobal>(
        &mut self,
        rt: &R,
        common: &Common<'_>,
        bond: &mut Bond,
        now: u64,
    ) -> Result<(), Lost> {
        let mut guard = common.shared.lock(rt);
        let shared = &mut *guard;
        if !shared.is_of(&bond.terms) {
            return Err(Lost::NewLife);
        }
        let front = shared.front();
        if front != self.front {
            self.front = front;
            self.session.publish();
        }
        let kept = &mut shared.kept;
        let (session, out) = (&mut self.session, &mut self.out);
        match send_next(rt.alloc(), kept, session, &mut bond.link, now, out) {
            Ok(_) => Ok(()),
            Err(LinkFault::NoEntry) => Err(Lost::Reason(Reason::NoEntry)),
            Err(_) => Err(Lost::Reason(Reason::NoMemory)),
        }
    }

    // Tells the operator where each has what the other has, for the first time over this connection.
    fn tell_level<R: Wait + Clock>(&mut self, rt: &R, contact: &Contact<'_>, now: u64) {
        let has_given_all = match self.awaited {
            Some(since) => now.saturating_sub(since) >= LAST,
            None => true,
        };
        if self.is_level || !self.is_greeted || !has_given_all || !self.session.is_caught_up() {
            return;
        }
        self.is_level = true;
        let node = contact.peer.name.as_bytes();
        let event = KeeperEvent::Node(Event::PeerLevel { node });
        contact.common.log.report(rt, &event);
    }
}
