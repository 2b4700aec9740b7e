//! What a message of a peer comes to.
ghost use Rattle.std.specs.Prelude.{◌≡◌, ◌++◌, ℕ, Ok, IfOk, IfSome, OnErr, List, None};
ghost use Rattle.gossip_link.specs.Arrival.{IsOutcome, changes_of, link_after, reply as reply_to};
ghost use Rattle.gossip_link.specs.Link.{Link as Ties};
ghost use Rattle.gossip_link.specs.declared.heard.Heard.TheVariants.{Message};
ghost use Rattle.gossip_link.specs.declared.outcome.Outcome.TheVariants.{Taken};
ghost use Rattle.network_log.specs.Peer.{IsTakenSo};
ghost use Rattle.network_log.specs.Putting.{AreBrought};
ghost use Rattle.node_peers.specs.Talk as spec;
ghost use Rattle.peer_lines.specs.declared.gather.Arrived.{Arrived as Letter};

use crate::dialogue::{PeerDialogue, owe};
use crate::loss::PeerLoss;
use crate::node_source::Agreed;
use crate::turn::Turn;
use gossip_link::{Arrived, Heard, Link, Outcome, changes_of};
use node_ports::NodePass;
use std::mem;

/// A message of a peer that was carried out.
#[derive(Drop)]
pub struct Carried {
    /// The message, and the place of its peer.
    pub message: Heard,
    /// What it came to.
    pub outcome: Outcome,
}

// What a message comes to once the node was given its changes. Where it didn't take all of them there is no reply.
fn settle<N: NodePass>(
    pass: &mut N,
    arrived: &Arrived,
    agreed: Outcome,
    reply: &mut Vec<u8>,
) -> Outcome
    requires { agreed ≡ Taken → ∥ AreBrought N.Connection.facts (changes_of arrived.now) ∥₁ }
    ensures outcome { (link : Ties) → IsOutcome link arrived.now agreed
        → IsOutcome link arrived.now result }
    ensures taken { IsTakenSo N.Connection.facts (changes_of arrived.now) result }
    ensures reply { (link : Ties) → reply.old.items ≡ reply_to link arrived.now agreed
        → reply.new.items ≡ reply_to link arrived.now result }
{
    if agreed != Outcome::Taken {
        return agreed;
    }
    match pass.take(changes_of(arrived)) {
        Ok(()) => Outcome::Taken,
        Err(_) => {
            reply.clear();
            Outcome::TakenInPart
        }
    }
}

impl PeerDialogue {
    /// Carries out the message that came, on the link with its peer, and hands it back. The node takes what a packet brings, and the
    /// reply is owed. None where there is no message. For want of memory the connection is to be closed.
    pub(crate) fn carry_out<N: NodePass>(
        &mut self,
        turn: &Turn<'_, N::Connection>,
        link: &mut Link,
        pass: &mut N,
        room: &mut Vec<u8>,
    ) -> Result<Option<Carried>, PeerLoss>
        requires { (place : ℕ) (arrived : Letter) → self.old.brought ≡ Message place arrived
            → ∥ AreBrought N.Connection.facts (changes_of arrived) ∥₁ }
        ensures none { result ≡ Ok None → self.new ≡ self.old }
        ensures carried { IfOk result (λ o. IfSome o (λ carried.
            spec.IsCarriedOut N.Connection.facts link.old carried.message carried.outcome
            turn.now.at self.old self.new)) }
        ensures name { spec.IsSameTie link.old link.new }
        ensures err { OnErr result (spec.IsEnded self.old self.new) }
    {
        let Heard::Message(_, arrived) = &self.brought else {
            return Ok(None);
        };
        room.clear();
        let session = &mut self.session;
        let Ok(agreed) = session.arrive(turn.alloc, link, arrived, &mut Agreed, room) else {
            return Err(PeerLoss::NoMemory);
        };
        let outcome = settle(pass, arrived, agreed, room);
        owe(&mut self.output, &mut self.said_at, room, turn.at)?;
        let message = mem::replace(&mut self.brought, Heard::Nothing);
        Ok(Some(Carried { message, outcome }))
    }
}
