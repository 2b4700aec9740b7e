//! The session with a peer, with what is owed to that.
ghost use Rattle.std.specs.Prelude.{◌≡◌, ◌≢◌, ◌++◌, IfNone, IfOk, IfSome, OnErr, OnOk, drop, true, false};
ghost use Rattle.std.specs.Option.{option_map};
ghost use Rattle.std.specs.Map.Iter.{deref};
ghost use Rattle.gossip_link.specs.Pace as pace;
ghost use Rattle.gossip_link.specs.Session.{AfterBytes, is_close};
ghost use Rattle.gossip_link.specs.declared.heard.Heard.TheVariants.{Message, Nothing};
ghost use Rattle.network_log.specs.Peer.{nothing_of};
ghost use Rattle.node_peers.specs.Talk as spec;
ghost use Rattle.peer_lines.specs.Spelling.{written};
ghost use Rattle.peer_lines.specs.declared.peer_line.PeerLine.TheVariants as line;

use crate::loss::PeerLoss;
use crate::turn::Turn;
use byte_text::NoMemory;
use cluster_directory::Terms;
use gossip_link::{Ack, Arrived, Heard, Life, PeerSession, Side, say_hello_again, write_ack};
use node_ports::{Connection, Pending};
use std::alloc::Global;
use std::marker::Model;

/// The session with a peer, with what is owed to that.
#[derive(Drop)]
pub(crate) struct PeerDialogue {
    pub(crate) session: PeerSession,
    /// What its last line brought, until that is carried out.
    pub(crate) brought: Heard,
    /// The place of the peer that said hello.
    pub(crate) noted: Option<usize>,
    pub(crate) output: Pending,
    /// When the peer was owed bytes last, in milliseconds.
    pub(crate) said_at: u64,
}

impl Model for PeerDialogue {
    ghost use Rattle.node_peers.specs.Talk.{Talk};

    ghost Value = { Talk };

    ghost view = { λ d. record {
      session = d.session;
      brought = d.brought;
      noted = d.noted;
      owed = d.output;
      said_at = d.said_at;
    } };
}

/// Bytes are owed to a peer from that moment on. Where there is no memory none of them is.
pub(crate) fn owe(
    output: &mut Pending,
    said_at: &mut u64,
    bytes: &[u8],
    now: u64,
) -> Result<(), PeerLoss>
    ensures output { OnOk result (output.new ≡ output.old ++ bytes.now) }
    ensures at { OnOk result (said_at.new ≡ spec.said_last bytes.now now said_at.old) }
    ensures err { OnErr result (output.new ≡ output.old) }
{
    let Ok(()) = output.push(bytes) else {
        return Err(PeerLoss::NoMemory);
    };
    if !bytes.is_empty() {
        *said_at = now;
    }
    Ok(())
}

// Appends an acknowledgement of nothing to that life of a peer.
fn acknowledge_nothing<C: Connection>(
    turn: &Turn<'_, C>,
    life: &Life,
    out: &mut Vec<u8>,
) -> Result<(), NoMemory>
    ensures { OnOk result (out.new.items ≡ out.old.items
        ++ written (line.Ack (nothing_of turn.now.terms.now.me life.now))) }
{
    let me = turn.terms.me().try_clone(turn.alloc)?;
    let life = life.try_clone(turn.alloc)?;
    match write_ack(&Ack::new(me, life, 0), out) {
        Ok(()) => Ok(()),
        Err(_) => Err(NoMemory),
    }
}

// Why the connection is to be closed because of its line, where it is.
fn refusal(noted: Option<usize>, heard: &Heard) -> Option<PeerLoss>
    ensures { IfNone result (is_close heard.now ≡ false) }
{
    match heard {
        Heard::Close(fault) => Some(PeerLoss::of_line(noted, *fault)),
        Heard::Nothing => None,
        Heard::Message(_, _) => None,
    }
}

impl PeerDialogue {
    /// A session that begins, with what is said first.
    pub(crate) fn new(
        alloc: Global,
        terms: &Terms,
        side: Side,
        now: u64,
    ) -> Result<PeerDialogue, NoMemory>
        ensures { IfOk result (λ d. d ≡ spec.new_talk terms.now side now) }
    {
        let session = PeerSession::new(side);
        let mut room = Vec::new(alloc);
        session.open(terms, &mut room)?;
        let mut output = Pending::new(alloc);
        output.push(&room)?;
        Ok(PeerDialogue {
            session,
            brought: Heard::Nothing,
            noted: None,
            output,
            said_at: now,
        })
    }

    /// What the session makes of a line, without its ending, or of one that was too long. What it says to that is owed.
    pub(crate) fn hear<C: Connection>(
        &mut self,
        turn: &Turn<'_, C>,
        bytes: Option<&[u8]>,
        room: &mut Vec<u8>,
    ) -> Result<(), PeerLoss>
        ensures heard { OnOk result (AfterBytes turn.now.terms.now self.old.session
            (option_map deref bytes.entry) (λ step. (is_close step.heard ≡ false)
            × (self.new ≡ spec.after_step step turn.now.at self.old))) }
        ensures err { OnErr result (spec.IsEnded self.old self.new) }
    {
        room.clear();
        let Ok(heard) = self.session.hear(turn.alloc, turn.terms, bytes, room) else {
            return Err(PeerLoss::NoMemory);
        };
        let refused = refusal(self.noted, &heard);
        self.brought = heard;
        if let Some(loss) = refused {
            return Err(loss);
        }
        owe(&mut self.output, &mut self.said_at, room, turn.at)
    }

    /// The place of the peer that said hello.
    pub(crate) fn noted(&self) -> Option<usize>
        ensures { result ≡ self.now.noted }
    {
        self.noted
    }

    /// What was said and isn't sent yet.
    pub(crate) fn owed(&self) -> &[u8]
        ensures { result.now ≡ self.now.owed }
    {
        self.output.as_bytes()
    }

    /// So many bytes of what was owed went out.
    pub(crate) fn take_sent(&mut self, count: usize)
        ensures { self.new ≡ record self.old { owed = drop count self.old.owed } }
    {
        self.output.take(count);
    }

    /// When bytes were said last, in milliseconds.
    pub(crate) fn said_at(&self) -> u64
        ensures { result ≡ self.now.said_at }
    {
        self.said_at
    }

    /// Whether the peer has caught up.
    pub(crate) fn is_caught_up(&self) -> bool
        ensures { result ≡ pace.is_caught_up self.now.session.pace }
    {
        self.session.is_caught_up()
    }

    /// When the packet that is under way has waited long enough, where there is one.
    pub(crate) fn deadline(&self) -> Option<u64>
        ensures { result ≡ pace.deadline self.now.session.pace }
    {
        self.session.deadline()
    }

    /// The message that came and isn't carried out yet, and the place of its peer.
    pub(crate) fn message(&self) -> Option<(usize, &Arrived)>
        ensures some { IfSome result (λ m. self.now.brought ≡ Message m.0 m.1.now) }
    {
        match &self.brought {
            Heard::Message(place, arrived) => Some((*place, arrived)),
            Heard::Nothing => None,
            Heard::Close(_) => None,
        }
    }

    /// The place of the peer whose message came and isn't carried out yet.
    pub(crate) fn place(&self) -> Option<usize>
        ensures { result ≡ spec.place_of self.now.brought }
    {
        match &self.brought {
            Heard::Message(place, _) => Some(*place),
            Heard::Nothing => None,
            Heard::Close(_) => None,
        }
    }

    /// Whether what the last line brought is carried out.
    pub(crate) fn is_idle(&self) -> bool
        ensures idle { result ≡ true → self.now.brought ≡ Nothing }
        ensures busy { result ≡ false → self.now.brought ≢ Nothing }
    {
        match &self.brought {
            Heard::Nothing => true,
            Heard::Message(_, _) => false,
            Heard::Close(_) => false,
        }
    }

    /// The peer whose message came is noted as the one at the other end, where none was.
    pub(crate) fn note(&mut self)
        ensures { self.new ≡ spec.noting self.old }
    {
        if self.noted.is_none() {
            self.noted = self.place();
        }
    }

    /// Something was published.
    pub(crate) fn publish(&mut self)
        ensures { self.new ≡ spec.at_pace (pace.published self.old.session.pace) self.old }
    {
        self.session.publish();
    }

    /// It is that moment: whether the connection is to be closed.
    pub(crate) fn tick(&mut self, now: u64) -> bool
        ensures answer { result ≡ pace.is_over now self.old.session.pace }
        ensures pace { self.new ≡ spec.at_pace (pace.ticked now self.old.session.pace) self.old }
    {
        self.session.tick(now)
    }

    /// Says the own hello again to the peer at that place.
    pub(crate) fn repeat_hello<C: Connection>(
        &mut self,
        turn: &Turn<'_, C>,
        place: usize,
        room: &mut Vec<u8>,
    ) -> Result<(), PeerLoss>
        ensures said { OnOk result
            (self.new ≡ spec.repeating turn.now.terms.now place turn.now.at self.old) }
        ensures err { OnErr result (spec.IsEnded self.old self.new) }
    {
        room.clear();
        let Ok(()) = say_hello_again(turn.terms, place, room) else {
            return Err(PeerLoss::NoMemory);
        };
        owe(&mut self.output, &mut self.said_at, room, turn.at)
    }

    /// Tells the peer, by an acknowledgement of nothing, that this life of it is known.
    pub(crate) fn remind<C: Connection>(
        &mut self,
        turn: &Turn<'_, C>,
        life: &Life,
        room: &mut Vec<u8>,
    ) -> Result<(), PeerLoss>
        ensures said { OnOk result
            (self.new ≡ spec.reminding turn.now.terms.now.me life.now turn.now.at self.old) }
        ensures err { OnErr result (spec.IsEnded self.old self.new) }
    {
        room.clear();
        let Ok(()) = acknowledge_nothing(turn, life, room) else {
            return Err(PeerLoss::NoMemory);
        };
        owe(&mut self.output, &mut self.said_at, room, turn.at)
    }
}
