//! A node with one connection to a peer, played line by line. A line of a script is
//!
//!     open, or accept     a new connection, opened to n2 or by the peer
//!     open place          opened to the peer at that place
//!     < line              of the peer; none behind it: a line that was too long
//!     + change            is put and published
//!     . change            is put
//!     @ moment            in milliseconds
//!     ?                   tells the front, and the moment at which to tell the time
//!     ! line              the link alone hears: what it answers, and which number is acknowledged
//!     make                the link alone makes a packet
//!     carry line          the link alone makes a packet, and n2, which holds nothing, gathers and takes it (`again`); the
//!                         line is the acknowledgement of all that the node holds
//!
//! A message of the peer is `known`, `taken`, `taken in part` or `ignored`. A line that is sent stands behind `> `, and
//! `close` is said where the connection is to be closed. The node is n1 in its incarnation 7, with the shared word `green`,
//! and with the peers n2, at place 1, and n3, at place 2, which hears version 1.
use super::again::{carry, tell_packet};
use crate::telling::{absorb, tell_row};
use anyhow::Error;
use chat_state::State;
use gossip_link::{
    Heard, Life, Link, LinkFault, NodeName, Outcome, PeerLine, PeerSession, PeerTerms, SharedWord,
    Side, Terms, Version, read_peer,
};
use std::alloc::{AllocError, Global};
use std::io::Write;

/// The peers of the terms. n3 hears version 1.
const PEERS: [(&[u8], Version); 3] = [
    (b"n1", Version::OWN),
    (b"n2", Version::OWN),
    (b"n3", Version::One),
];

/// The place of n2 among them.
const PLACE: usize = 1;

/// The node n1 in its incarnation 7, its link with n2, and its connection with that.
#[derive(Drop)]
struct LinkedNode {
    terms: Terms,
    link: Link,
    state: State,
    session: PeerSession,
    is_known: bool,
    now: u64,
    // what came of the last line of a script, in a word
    word: &'static [u8],
}

// The life of the node.
fn own_life(alloc: Global) -> Result<Life, LinkFault> {
    Ok(Life::new(NodeName::new(alloc, b"n1")?, 7))
}

fn peers_of(alloc: Global) -> Result<Vec<PeerTerms>, Error> {
    let mut peers = Vec::new(alloc);
    for (name, version) in PEERS {
        let name = NodeName::new(alloc, name)?;
        peers.push(PeerTerms { name, version })?;
    }
    Ok(peers)
}

// The terms of the node with three peers, itself among them.
fn terms_of(alloc: Global) -> Result<Terms, Error> {
    let me = own_life(alloc)?;
    let word = SharedWord::new(alloc, b"green")?;
    let peers = peers_of(alloc)?;
    Ok(Terms::new(word, me, peers))
}

fn link_of(alloc: Global) -> Result<Link, LinkFault> {
    let me = own_life(alloc)?;
    Ok(Link::new(me, NodeName::new(alloc, b"n2")?))
}

/// What a link answers to a hello or an acknowledgement, in a word.
pub fn link_word(link: &mut Link, line: &PeerLine) -> &'static [u8] {
    let is_new = match line {
        PeerLine::Hello(life, version) => link.hello(life, *version),
        PeerLine::Ack(ack) => match link.take_ack(ack) {
            Ok(()) => return b"taken",
            Err(fault) => Err(fault),
        },
        _ => return b"no line for a link",
    };
    match is_new {
        Ok(true) => b"new",
        Ok(false) => b"same",
        Err(LinkFault::WrongLife) => b"wrong life",
        Err(LinkFault::AckTooHigh) => b"too high",
        Err(_) => b"another fault",
    }
}

/// Tells each line that was sent, behind a sign, and what else is said.
fn tell_sent(sent: &[u8], out: &mut Vec<u8>) -> Result<(), AllocError> {
    for line in sent.split(|b| *b == b'\n') {
        let told = match line {
            [] => Ok(()),
            [text @ .., b'\r'] => tell_row(out, b"> ", text),
            _ => tell_row(out, line, b""),
        };
        told?;
    }
    Ok(())
}

impl LinkedNode {
    // A node that holds nothing, and has no connection yet.
    fn new(alloc: Global) -> Result<LinkedNode, Error> {
        let terms = terms_of(alloc)?;
        let link = link_of(alloc)?;
        Ok(LinkedNode {
            terms,
            link,
            state: State::new(alloc),
            session: PeerSession::new(Side::Acceptor),
            is_known: false,
            now: 0,
            word: b"",
        })
    }

    // Begins a new connection, and appends what is sent first.
    fn connect(&mut self, side: Side, sent: &mut Vec<u8>) -> Result<(), Error> {
        self.session = PeerSession::new(side);
        self.is_known = false;
        Ok(self.session.open(&self.terms, sent)?)
    }

    // Makes the next packet, if one is due, and appends it.
    fn send_next(&mut self, alloc: Global, sent: &mut Vec<u8>) -> Result<(), Error> {
        if self.is_known {
            let (link, state) = (&mut self.link, &mut self.state);
            let _ = self.session.send_next(alloc, link, state, self.now, sent)?;
        }
        Ok(())
    }

    // What comes of a line, in a word. A message is carried out.
    fn answer(
        &mut self,
        alloc: Global,
        heard: &Heard,
        sent: &mut Vec<u8>,
    ) -> Result<&'static [u8], Error> {
        let (place, arrived) = match heard {
            Heard::Nothing => return Ok(b""),
            Heard::Close(_) => return Ok(b"close"),
            Heard::Message(place, arrived) => (*place, arrived),
        };
        if place != PLACE {
            return Ok(b"another peer");
        }
        self.is_known = true;
        let (link, state) = (&mut self.link, &mut self.state);
        let outcome = self.session.arrive(alloc, link, arrived, state, sent)?;
        if matches!(outcome, Outcome::Taken | Outcome::TakenInPart) {
            self.session.publish();
        }
        Ok(match outcome {
            Outcome::Ignored => b"ignored",
            Outcome::Known => b"known",
            Outcome::Taken => b"taken",
            Outcome::TakenInPart => b"taken in part",
        })
    }

    // Hears a line, of which None was too long, and appends what is sent because of it.
    fn hear(
        &mut self,
        alloc: Global,
        line: Option<&[u8]>,
        sent: &mut Vec<u8>,
    ) -> Result<(), Error> {
        let heard = self.session.hear(alloc, &self.terms, line, sent)?;
        let word = self.answer(alloc, &heard, sent);
        drop(heard);
        self.word = word?;
        Ok(())
    }

    // It is that moment.
    fn tick(&mut self, now: u64) {
        self.now = now;
        if self.session.tick(now) {
            self.word = b"close";
        }
    }

    // Tells how many changes were counted, and when the time is to be told.
    fn tell_front(&self, told: &mut Vec<u8>) -> Result<(), Error> {
        write!(told, "front {}", self.state.front())?;
        if let Some(at) = self.session.deadline() {
            write!(told, ", until {at}")?;
        }
        Ok(told.push(b'\n')?)
    }

    // The link alone hears a hello or an acknowledgement: its answer is printed, and the number that is acknowledged.
    fn ask_link(&mut self, alloc: Global, line: &str, told: &mut Vec<u8>) -> Result<(), Error> {
        let heard = read_peer(alloc, line.as_bytes())?;
        let word = link_word(&mut self.link, &heard);
        drop(heard);
        told.extend_from_slice(word)?;
        Ok(write!(told, ", acked {}\n", self.link.acked())?)
    }

    // The link alone makes a packet, which is appended.
    fn ask_packet(&mut self, alloc: Global, sent: &mut Vec<u8>) -> Result<(), Error> {
        let packet = self.link.make(alloc, &mut self.state)?;
        let told = tell_packet(&packet, sent);
        drop(packet);
        told
    }

    // The link alone makes a packet, of which nothing was sent where it was refused.
    fn carry_packet(&mut self, alloc: Global, line: &str, sent: &mut Vec<u8>) -> Result<(), Error> {
        let ack = read_peer(alloc, line.as_bytes())?;
        let carried = carry(alloc, &mut self.link, &mut self.state, &ack, sent);
        drop(ack);
        carried
    }

    // A sign, and what stands behind it.
    fn turn(
        &mut self,
        alloc: Global,
        sign: &str,
        text: &str,
        sent: &mut Vec<u8>,
    ) -> Result<(), Error> {
        match sign {
            "<" => self.hear(alloc, Some(text.as_bytes()), sent),
            "!" => self.ask_link(alloc, text, sent),
            "carry" => self.carry_packet(alloc, text, sent),
            "open" => self.connect(Side::Opener(text.parse::<usize>()?), sent),
            "@" => {
                self.tick(text.parse::<u64>()?);
                Ok(())
            }
            "." => absorb(alloc, &mut self.state, text.as_bytes()),
            "+" => {
                self.session.publish();
                absorb(alloc, &mut self.state, text.as_bytes())
            }
            _ => Ok(sent.extend_from_slice(b"no line of a script")?),
        }
    }

    // A line with no space.
    fn short_turn(&mut self, alloc: Global, line: &str, sent: &mut Vec<u8>) -> Result<(), Error> {
        match line {
            "open" => self.connect(Side::Opener(1), sent),
            "accept" => self.connect(Side::Acceptor, sent),
            "<" => self.hear(alloc, None, sent),
            "make" => self.ask_packet(alloc, sent),
            "?" => self.tell_front(sent),
            _ => Ok(sent.extend_from_slice(b"no line of a script")?),
        }
    }

    fn tell_turn(
        &mut self,
        alloc: Global,
        line: &str,
        sent: &mut Vec<u8>,
        out: &mut Vec<u8>,
    ) -> Result<(), Error> {
        self.word = b"";
        let done = match line.split_once(" ") {
            Some((sign, text)) => self.turn(alloc, sign, text, sent),
            None => self.short_turn(alloc, line, sent),
        };
        done?;
        self.send_next(alloc, sent)?;
        tell_sent(self.word, out)?;
        tell_sent(sent, out)?;
        sent.clear();
        Ok(())
    }

    fn tell_turns(&mut self, alloc: Global, script: &str, out: &mut Vec<u8>) -> Result<(), Error> {
        let mut sent = Vec::new(alloc);
        for line in script.lines() {
            self.tell_turn(alloc, line, &mut sent, out)?;
        }
        Ok(())
    }
}

/// Prints what the lines of a script do, one after the other.
pub fn tell_script(alloc: Global, script: &str, out: &mut Vec<u8>) -> Result<(), Error> {
    let mut node = LinkedNode::new(alloc)?;
    node.tell_turns(alloc, script, out)
}
