//! What a message of a peer does, on the link with that peer.
ghost use Rattle.std.specs.Prelude.{◌≡◌, ◌++◌, ◌⊎◌, true, IfOk, OnErr};
ghost use Rattle.chat_history.specs.Growth.{AfterOthers};
ghost use Rattle.peer_lines.specs.Spelling.{written};
ghost use Rattle.peer_lines.specs.declared.peer_line.PeerLine.TheVariants as line;
ghost use Rattle.gossip_link.specs.Peer.{packet_is_mine};
ghost use Rattle.gossip_link.specs.Arrival as spec;

use crate::link::Link;
use crate::outcome::Outcome;
use crate::session::PeerSession;
use byte_text::NoMemory;
use chat_change::Change;
use chat_history::Taker;
use cluster_directory::{Life, LinkFault, Version};
use peer_lines::{Ack, Arrived, Packet, write_ack};
use std::alloc::Global;

/// The changes that a message brings: those of a packet.
pub fn changes_of(arrived: &Arrived) -> &[Change]
    ensures { result.now ≡ spec.changes_of arrived.now }
{
    match arrived {
        Arrived::Packet(packet) => packet.changes(),
        Arrived::Word(_) => &[],
        Arrived::Hello(_, _) => &[],
        Arrived::Ack(_) => &[],
    }
}

// Appends the line of an acknowledgement.
fn append_ack(ack: &Ack, out: &mut Vec<u8>) -> Result<(), NoMemory>
    ensures { IfOk result (λ _. out.new.items ≡ out.old.items ++ written (line.Ack ack.now)) }
{
    match write_ack(ack, out) {
        Ok(()) => Ok(()),
        Err(_) => Err(NoMemory),
    }
}

// Takes a packet, and appends its acknowledgement where all of it was taken.
fn take_packet<T: Taker>(
    alloc: Global,
    link: &Link,
    packet: &Packet,
    taker: &mut T,
    out: &mut Vec<u8>,
) -> Result<Outcome, NoMemory>
    ensures outcome { IfOk result (spec.IsOutcome link.now (Arrived.Packet packet.now)) }
    ensures reply { IfOk result (λ outcome. out.new.items
        ≡ out.old.items ++ spec.reply link.now (Arrived.Packet packet.now) outcome) }
    ensures taker { IfOk result (spec.IsTaken T.holds T.may_add taker.old taker.new
        packet.now.changes) }
    ensures memory { OnErr result (packet_is_mine link.now.me link.now.name packet.now ≡ true) }
    ensures err { OnErr result ((taker.new ≡ taker.old)
        ⊎ AfterOthers T.holds T.may_add taker.old
        (λ start all. T.holds taker.new start (all ++ packet.now.changes))) }
{
    match link.take_packet(alloc, packet, taker) {
        Ok(ack) => {
            let appended = append_ack(&ack, out);
            drop(ack);
            appended?;
            Ok(Outcome::Taken)
        }
        Err(LinkFault::WrongLife) => Ok(Outcome::Ignored),
        Err(LinkFault::NotTaken) => Ok(Outcome::TakenInPart),
        Err(_) => Err(NoMemory),
    }
}

impl PeerSession {
    // Hears of a life of the peer.
    fn take_hello(&mut self, link: &mut Link, life: &Life, version: Version) -> Outcome
        ensures outcome { spec.IsOutcome link.old (Arrived.Hello life.now version) result }
        ensures link { link.new ≡ spec.link_after link.old (Arrived.Hello life.now version) }
        ensures pace { self.new ≡ record self.old {
          pace = spec.pace_after link.old (Arrived.Hello life.now version) self.old.pace;
        } }
    {
        match link.hello(life, version) {
            Ok(_) => {
                self.pace.greet();
                Outcome::Known
            }
            Err(_) => Outcome::Ignored,
        }
    }

    fn take_ack(&mut self, link: &mut Link, ack: &Ack) -> Outcome
        ensures outcome { spec.IsOutcome link.old (Arrived.Ack ack.now) result }
        ensures link { link.new ≡ spec.link_after link.old (Arrived.Ack ack.now) }
        ensures pace { self.new ≡ record self.old {
          pace = spec.pace_after link.old (Arrived.Ack ack.now) self.old.pace;
        } }
    {
        match link.take_ack(ack) {
            Ok(()) => {
                self.pace.acknowledge(ack.upto());
                Outcome::Known
            }
            Err(_) => Outcome::Ignored,
        }
    }

    /// Carries out what arrived, on the link with the peer from whom it came: the link hears of a hello or an
    /// acknowledgement, and the taker takes the changes of a packet for this life. The reply is appended: the
    /// acknowledgement of a packet of which all was taken.
    ///
    /// Refused for want of memory, the connection is to be closed. The link and the pace then stand as after any other
    /// outcome, and of a packet nothing was taken, or all.
    pub fn arrive<T: Taker>(
        &mut self,
        alloc: Global,
        link: &mut Link,
        arrived: &Arrived,
        taker: &mut T,
        out: &mut Vec<u8>,
    ) -> Result<Outcome, NoMemory>
        ensures outcome { IfOk result (spec.IsOutcome link.old arrived.now) }
        ensures link { link.new ≡ spec.link_after link.old arrived.now }
        ensures pace { self.new ≡ record self.old {
          pace = spec.pace_after link.old arrived.now self.old.pace;
        } }
        ensures reply { IfOk result (λ outcome. out.new.items
            ≡ out.old.items ++ spec.reply link.old arrived.now outcome) }
        ensures taker { IfOk result (spec.IsTaken T.holds T.may_add taker.old taker.new
            (spec.changes_of arrived.now)) }
        // Want of memory is answered only of a packet for this life.
        ensures memory { OnErr result (spec.IsPacketForMe link.old arrived.now) }
        ensures err { OnErr result ((taker.new ≡ taker.old)
            ⊎ AfterOthers T.holds T.may_add taker.old
            (λ start all. T.holds taker.new start (all ++ spec.changes_of arrived.now))) }
    {
        match arrived {
            Arrived::Word(_) => Ok(Outcome::Ignored),
            Arrived::Hello(life, version) => Ok(self.take_hello(link, life, *version)),
            Arrived::Packet(packet) => take_packet(alloc, link, packet, taker, out),
            Arrived::Ack(ack) => Ok(self.take_ack(link, ack)),
        }
    }
}
