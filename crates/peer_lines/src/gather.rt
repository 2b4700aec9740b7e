//! A gather joins the head of a packet with its changes.
ghost use Rattle.std.specs.Prelude.{◌≡◌, ◌==◌, ◌++◌, ◌∷◌, [], length, None, IfOk, OnOk, OnErr};
ghost use Rattle.std.specs.Option.{option_map};
ghost use Rattle.std.specs.Map.Iter.{deref};
ghost use Rattle.peer_lines.specs.declared.peer_line.PeerLine.TheVariants as of_line;
ghost use Rattle.peer_lines.specs.Gather.{pushed, IsAnswerFor, buffer_of};

use crate::packet::{Ack, Head, Packet};
use crate::peer_line::PeerLine;
use chat_change::{Buffer, Change, Extent};
use cluster_directory::{Life, LinkFault, SharedWord, Version};
use std::alloc::{AllocError, Global};
use std::marker::Model;

/// What arrived from a peer.
#[derive(Drop)]
pub enum Arrived {
    /// The word that the nodes share.
    Word(SharedWord),
    /// A hello of a life, in a version.
    Hello(Life, Version),
    /// A packet, with all of its changes.
    Packet(Packet),
    /// An acknowledgement.
    Ack(Ack),
}

/// A packet that isn't whole yet.
#[derive(Drop)]
struct Gathering {
    head: Head,
    changes: Vec<Change>,
}

impl Model for Gathering {
    ghost use Rattle.peer_lines.specs.Gather as spec;

    ghost Value = { spec.Gathering };

    ghost view = { λ g. record { head = g.head; changes = g.changes.items } };
}

impl Gathering {
    // Takes a change, and says whether the packet is whole with it.
    fn push(&mut self, change: Change) -> Result<bool, AllocError>
        ensures head { self.new.head ≡ self.old.head }
        ensures changes { IfOk result (λ _. self.new.changes ≡ self.old.changes ++ change ∷ []) }
        ensures whole { IfOk result (λ is_whole.
            is_whole ≡ (length self.new.changes == self.old.head.count)) }
    {
        self.changes.push(change)?;
        Ok(self.changes.len() as u64 == self.head.count)
    }
}

/// Joins the lines of packets that came over one connection: contracts see it as the packet that isn't whole yet, if
/// there is one.
#[derive(Drop)]
pub struct Gather {
    gathering: Option<Gathering>,
}

impl Model for Gather {
    ghost use Rattle.peer_lines.specs.Gather as spec;

    ghost Value = { spec.Gather };

    ghost view = { λ g. g.gathering };
}

// What a line begins where no packet is under way.
fn begun(alloc: Global, line: PeerLine) -> (Option<Gathering>, Result<Option<Arrived>, LinkFault>)
    ensures gather { result.0 ≡ (pushed None line).gather }
    ensures answer { result.1 ≡ (pushed None line).answer }
{
    match line {
        PeerLine::Word(word) => (None, Ok(Some(Arrived::Word(word)))),
        PeerLine::Hello(life, version) => (None, Ok(Some(Arrived::Hello(life, version)))),
        PeerLine::Ack(ack) => (None, Ok(Some(Arrived::Ack(ack)))),
        PeerLine::Head(head) => {
            let changes = Vec::new(alloc);
            (Some(Gathering { head, changes }), Ok(None))
        }
        PeerLine::Change(change) => {
            drop(PeerLine::Change(change));
            (None, Err(LinkFault::BadForm))
        }
    }
}

// The buffer that a change speaks of, where it speaks of one.
fn buffer_of(change: &Change) -> Option<&Buffer>
    ensures { option_map deref result ≡ buffer_of change.now }
{
    match change.key().extent() {
        Extent::Account(_) => None,
        Extent::Buffer(buffer) => Some(buffer),
    }
}

impl Gather {
    ghost use Rattle.peer_lines.specs.Gather as spec;

    /// A gather of no lines.
    pub fn new() -> Gather
        ensures { result ≡ None }
    {
        Gather { gathering: None }
    }

    /// The buffer of the change that came last of a packet that isn't whole yet, where that change speaks of a buffer. The next
    /// one is mostly of the same, and shares its memory if it is read so ([`read_peer_in`](crate::read_peer_in)).
    pub fn latest_buffer(&self) -> Option<&Buffer>
        ensures { option_map deref result ≡ spec.latest_buffer self.now }
    {
        let gathering = self.gathering.as_ref()?;
        buffer_of(gathering.changes.last()?)
    }

    // The packet that isn't whole yet, as one that is.
    fn finish(&mut self) -> Option<Arrived>
        ensures answer { result ≡ option_map spec.packet_arrived self.old }
        ensures empty { self.new ≡ None }
    {
        let Gathering { head, changes } = self.gathering.take()?;
        Some(Arrived::Packet(head.with_changes(changes)))
    }

    // Takes a change. It is put where the others are, since most lines of a packet are such.
    fn push_change(&mut self, change: Change) -> Result<Option<Arrived>, LinkFault>
        ensures answer { IsAnswerFor (pushed self.old (of_line.Change change)).answer result }
        ensures gather { OnOk result (self.new ≡ (pushed self.old (of_line.Change change)).gather) }
        ensures empty { OnErr result (self.new ≡ None) }
    {
        let Some(gathering) = &mut self.gathering else {
            drop(change);
            return Err(LinkFault::BadForm);
        };
        match gathering.push(change) {
            Ok(true) => Ok(self.finish()),
            Ok(false) => Ok(None),
            Err(AllocError) => {
                drop(self.gathering.take());
                Err(LinkFault::NoMemory)
            }
        }
    }

    /// Takes the next line. A word, a hello and an acknowledgement arrive by themselves, and a packet arrives exactly with
    /// the last of its changes; before that nothing does.
    ///
    /// Refused with [`LinkFault::BadForm`] where a change comes without a head, and where any other line comes while
    /// changes are missing. After a refusal, and after want of memory, the gather is empty.
    pub fn push(&mut self, alloc: Global, line: PeerLine) -> Result<Option<Arrived>, LinkFault>
        ensures answer { IsAnswerFor (pushed self.old line).answer result }
        ensures gather { OnOk result (self.new ≡ (pushed self.old line).gather) }
        ensures empty { OnErr result (self.new ≡ None) }
    {
        if let PeerLine::Change(change) = line {
            return self.push_change(change);
        }
        if self.gathering.is_some() {
            drop(line);
            drop(self.gathering.take());
            return Err(LinkFault::BadForm);
        }
        let (gathering, answer) = begun(alloc, line);
        self.gathering = gathering;
        answer
    }
}
