//! Connections with peers.
ghost use Rattle.std.specs.Prelude.{◌≡◌, ◌++◌, Option, IfOk, OnErr, IsSome};
ghost use Rattle.std.specs.Option.{option_map};
ghost use Rattle.std.specs.Map.Iter.{deref};
ghost use Rattle.gossip_link.specs.Session as spec;
ghost use Rattle.gossip_link.specs.Pace as pace;

use crate::greeting::greet;
use crate::handshake::{Action, Handshake, Side};
use crate::heard::{Fault, Heard};
use crate::pace::Pace;
use byte_text::NoMemory;
use chat_change::Buffer;
use cluster_directory::{LinkFault, Terms};
use peer_lines::{Gather, PeerLine, read_peer_in};
use std::alloc::Global;
use std::marker::Model;

/// One connection with a peer.
pub struct PeerSession {
    handshake: Handshake,
    gather: Gather,
    pub(crate) pace: Pace,
}

// Written out, so that this is proved once, and not in each crate that lets a session go.
impl Drop for PeerSession {
    fn drop(self) {
        let Self {
            handshake: _handshake,
            gather: _gather,
            pace: _pace,
        } = self;
    }
}

impl Model for PeerSession {
    ghost use Rattle.gossip_link.specs.Session as spec;

    ghost Value = { spec.Session };

    ghost view = { λ s. record { handshake = s.handshake; gather = s.gather; pace = s.pace } };
}

// The line that the bytes spell, if they spell one. A change of the known buffer shares its memory.
fn read_line(
    alloc: Global,
    known: Option<&Buffer>,
    bytes: Option<&[u8]>,
) -> Result<Option<PeerLine>, NoMemory>
    ensures read { IfOk result (λ line. spec.IsRead (option_map deref bytes.entry) line) }
    ensures memory { OnErr result (spec.SpellsSome (option_map deref bytes.entry)) }
{
    let Some(bytes) = bytes else {
        return Ok(None);
    };
    match read_peer_in(alloc, known, bytes) {
        Ok(line) => Ok(Some(line)),
        Err(LinkFault::BadForm) => Ok(None),
        Err(_) => Err(NoMemory),
    }
}

impl PeerSession {
    ghost use Rattle.gossip_link.specs.Session as spec;

    /// A new connection, which that side opened.
    pub fn new(side: Side) -> PeerSession
        ensures { result ≡ spec.new side }
    {
        PeerSession {
            handshake: Handshake::new(side),
            gather: Gather::new(),
            pace: Pace::new(),
        }
    }

    /// Appends what is to be sent before any line came: the shared word and the own hello to the peer to which this node
    /// opened the connection, and nothing where the other node did, so that no stranger learns the word.
    pub fn open(&self, terms: &Terms, out: &mut Vec<u8>) -> Result<(), NoMemory>
        ensures { IfOk result (λ _. out.new.items
            ≡ out.old.items ++ spec.opening terms.now self.now.handshake.side) }
    {
        match self.handshake.greeted_first() {
            Some(place) => greet(terms, place, out),
            None => Ok(()),
        }
    }

    /// What a line does. None stands for one that was too long; the others stand without their ending. The reply is
    /// appended: where the other node opened the connection, the shared word and the own hello, once that node has said
    /// the right word and the hello of a configured peer. The own hello bears the version that this peer is to be told.
    ///
    /// A message arrives only from a configured peer that has said the right word and hello. The connection is to be closed
    /// where a line can't be read, is too long, or breaks the order of lines, and so is it where it wasn't read or gathered
    /// for want of memory. Then nothing is left of a packet that wasn't whole, further lines give [`Heard::Close`], and no
    /// packet is due.
    pub fn hear(
        &mut self,
        alloc: Global,
        terms: &Terms,
        bytes: Option<&[u8]>,
        out: &mut Vec<u8>,
    ) -> Result<Heard, NoMemory>
        ensures step { IfOk result (λ heard. spec.AfterBytes terms.now self.old
            (option_map deref bytes.entry) (λ step. (self.new ≡ step.session)
            × (heard ≡ step.heard) × (out.new.items ≡ out.old.items ++ step.sent))) }
        // Want of memory is answered only of bytes that spell a line.
        ensures memory { OnErr result (spec.SpellsSome (option_map deref bytes.entry)) }
        ensures err { OnErr result (self.new ≡ spec.refused self.old) }
    {
        let heard = match read_line(alloc, self.gather.latest_buffer(), bytes) {
            Ok(line) => self.take_line(alloc, terms, line, out),
            Err(NoMemory) => Err(NoMemory),
        };
        if heard.is_err() {
            self.refuse(terms);
        }
        heard
    }

    // What a line does, read or unreadable.
    fn take_line(
        &mut self,
        alloc: Global,
        terms: &Terms,
        line: Option<PeerLine>,
        out: &mut Vec<u8>,
    ) -> Result<Heard, NoMemory>
        ensures session { IfOk result (λ heard. self.new
            ≡ (spec.step terms.now self.old line).session) }
        ensures heard { IfOk result (λ heard. heard ≡ (spec.step terms.now self.old line).heard) }
        ensures sent { IfOk result (λ heard. out.new.items
            ≡ out.old.items ++ (spec.step terms.now self.old line).sent) }
        ensures memory { OnErr result (IsSome line) }
        ensures err { OnErr result (spec.refused self.new ≡ spec.refused self.old) }
    {
        match self.handshake.hear(terms, line.as_ref()) {
            Action::Wait => {
                drop(line);
                Ok(Heard::Nothing)
            }
            Action::GreetAndHandUp(place) => match greet(terms, place, out) {
                Ok(()) => self.gather_line(alloc, terms, place, line),
                Err(NoMemory) => {
                    drop(line);
                    Err(NoMemory)
                }
            },
            Action::HandUp(place) => self.gather_line(alloc, terms, place, line),
            Action::Close => {
                let fault = Fault::of(terms.me().node(), &line);
                drop(line);
                self.refuse(terms);
                Ok(Heard::Close(fault))
            }
        }
    }

    // A line that goes to the link with the peer at that place.
    fn gather_line(
        &mut self,
        alloc: Global,
        terms: &Terms,
        place: usize,
        line: Option<PeerLine>,
    ) -> Result<Heard, NoMemory>
        ensures session { IfOk result (λ heard. self.new
            ≡ (spec.handed_up self.old place line).session) }
        ensures heard { IfOk result (λ heard. heard ≡ (spec.handed_up self.old place line).heard) }
        ensures memory { OnErr result (IsSome line) }
        ensures err { OnErr result (spec.refused self.new ≡ spec.refused self.old) }
    {
        let Some(line) = line else {
            self.refuse(terms);
            return Ok(Heard::Close(Fault::BadLine));
        };
        match self.gather.push(alloc, line) {
            Ok(None) => Ok(Heard::Nothing),
            Ok(Some(arrived)) => Ok(Heard::Message(place, arrived)),
            Err(LinkFault::NoMemory) => Err(NoMemory),
            Err(_) => {
                self.refuse(terms);
                Ok(Heard::Close(Fault::BadLine))
            }
        }
    }

    // The connection is to be closed.
    fn refuse(&mut self, terms: &Terms)
        ensures { self.new ≡ spec.refused self.old }
    {
        let _ = self.handshake.hear(terms, None);
        self.gather = Gather::new();
        self.pace = Pace::new();
    }

    /// Something was published, by this node or by a peer: a packet is to be made as soon as none is under way.
    pub fn publish(&mut self)
        ensures { self.new ≡ record self.old { pace = pace.published self.old.pace } }
    {
        self.pace.publish();
    }

    /// It is that moment, in milliseconds: whether the connection is to be closed. It is exactly where three packets were
    /// made since the last acknowledgement, and the last of them has waited 60 seconds. An earlier one that has is given
    /// up, and the next one is to be made.
    pub fn tick(&mut self, now: u64) -> bool
        ensures answer { result ≡ pace.is_over now self.old.pace }
        ensures pace { self.new ≡ record self.old { pace = pace.ticked now self.old.pace } }
    {
        let is_over = self.pace.is_over(now);
        self.pace.tick(now);
        is_over
    }

    /// Whether the peer has caught up: it said hello, it acknowledged each packet that was made for it since, and when the last
    /// one was to be made nothing was new. A peer for which no packets are made, as it speaks a lower version, has caught up
    /// too.
    pub fn is_caught_up(&self) -> bool
        ensures { result ≡ pace.is_caught_up self.now.pace }
    {
        self.pace.is_caught_up()
    }

    /// The moment at which the packet that is under way will have waited 60 seconds, where there is one.
    pub fn deadline(&self) -> Option<u64>
        ensures { result ≡ pace.deadline self.now.pace }
    {
        self.pace.deadline()
    }
}
