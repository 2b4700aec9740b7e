//! The next packet for a peer.
ghost use Rattle.std.specs.Prelude.{◌≡◌, ◌++◌, ◌⊎◌, Option, IfOk, IfErr, OnErr};
ghost use Rattle.std.specs.Prelude.{true, false, is_some};
ghost use Rattle.peer_lines.specs.Packet.{Packet as Parcel};
ghost use Rattle.gossip_link.specs.Packets as spec;
ghost use Rattle.gossip_link.specs.Pace as paces;

use crate::link::Link;
use crate::pace::Pace;
use crate::session::PeerSession;
use chat_history::Source;
use cluster_directory::LinkFault;
use peer_lines::{Packet, write_packet};
use std::alloc::Global;

fn to_of(packet: &Option<Packet>) -> Option<u64>
    ensures { result ≡ spec.to_of packet.now }
{
    match packet {
        Some(packet) => Some(packet.to()),
        None => None,
    }
}

// Appends the lines of a packet, if there is one, and says whether there is.
fn append(packet: Option<Packet>, out: &mut Vec<u8>) -> Result<bool, LinkFault>
    ensures text { IfOk result (λ _. out.new.items ≡ out.old.items ++ spec.text_of packet) }
    ensures some { IfOk result (λ sent. sent ≡ is_some packet) }
    ensures fault { IfErr result (λ fault. fault ≡ LinkFault.NoMemory) }
{
    let Some(packet) = packet else {
        return Ok(false);
    };
    match write_packet(&packet, out) {
        Ok(()) => Ok(true),
        Err(_) => Err(LinkFault::NoMemory),
    }
}

// The packet that is due.
fn next_packet<S: Source>(
    pace: &mut Pace,
    alloc: Global,
    link: &mut Link,
    source: &mut S,
    now: u64,
) -> Result<Option<Packet>, LinkFault>
    ensures next { IfOk result (spec.IsNext S.holds S.may_add source.old source.new link.old) }
    ensures writable { IfOk result
        (spec.IsWritable S.holds S.may_add source.old source.new link.old) }
    ensures link { IfOk result (λ packet. link.new ≡ spec.link_after link.old packet) }
    ensures pace { IfOk result (λ packet. pace.new ≡ paces.made (spec.to_of packet) now pace.old) }
    ensures causes { IfErr result (λ fault.
        (fault ≡ LinkFault.NoEntry) ⊎ (fault ≡ LinkFault.NoMemory)) }
    ensures err { OnErr result ((pace.new ≡ pace.old) × (link.new ≡ link.old)) }
{
    let packet = link.make(alloc, source)?;
    pace.made(to_of(&packet), now);
    Ok(packet)
}

impl PeerSession {
    /// Makes the next packet for the peer where one is due, at that moment in milliseconds, and appends its lines: whether
    /// there is one. One is due once the peer has said hello and may not know of all that was published, and none is under
    /// way. So it is to be called after each of the other calls. A peer that speaks a lower version than this program gets
    /// none.
    ///
    /// Refused with [`LinkFault::NoEntry`] or [`LinkFault::NoMemory`], where the source was or where there was no memory.
    /// After [`LinkFault::NoEntry`] nothing has changed, and the packet is still due. After [`LinkFault::NoMemory`] the
    /// connection is to be closed.
    pub fn send_next<S: Source>(
        &mut self,
        alloc: Global,
        link: &mut Link,
        source: &mut S,
        now: u64,
        out: &mut Vec<u8>,
    ) -> Result<bool, LinkFault>
        ensures idle { paces.is_due self.old.pace ≡ false → (result ≡ Ok false)
            × (self.new ≡ self.old) × (link.new ≡ link.old) × (source.new ≡ source.old)
            × (out.new.items ≡ out.old.items) }
        ensures sent { paces.is_due self.old.pace ≡ true → IfOk result (λ sent.
            (packet : Option Parcel) × (sent ≡ is_some packet)
            × spec.IsNext S.holds S.may_add source.old source.new link.old packet
            × spec.IsWritable S.holds S.may_add source.old source.new link.old packet
            × (out.new.items ≡ out.old.items ++ spec.text_of packet)
            × (link.new ≡ spec.link_after link.old packet)
            × (self.new ≡ record self.old {
              pace = paces.made (spec.to_of packet) now self.old.pace;
            })) }
        ensures causes { IfErr result (λ fault.
            (fault ≡ LinkFault.NoEntry) ⊎ (fault ≡ LinkFault.NoMemory)) }
        ensures err { result ≡ Err LinkFault.NoEntry →
            (self.new ≡ self.old) × (link.new ≡ link.old) × (out.new.items ≡ out.old.items) }
        // Refused, link and pace are as they were, or as after making the packet.
        ensures stands { OnErr result (
            ((self.new ≡ self.old) × (link.new ≡ link.old))
            ⊎ ((packet : Option Parcel)
            × spec.IsNext S.holds S.may_add source.old source.new link.old packet
            × (link.new ≡ spec.link_after link.old packet)
            × (self.new ≡ record self.old {
              pace = paces.made (spec.to_of packet) now self.old.pace;
            }))) }
    {
        if !self.pace.is_due() {
            return Ok(false);
        }
        let packet = next_packet(&mut self.pace, alloc, link, source, now)?;
        append(packet, out)
    }
}
