//! Links: what a node knows of one peer, and what each message does to it.
ghost use Rattle.std.specs.Prelude.{◌≡◌, ◌++◌, ◌⊎◌, ◌↔◌, ℕ, true, false, None};
ghost use Rattle.std.specs.Prelude.{IfOk, IfErr, OnOk, OnErr, take, if◌then◌else◌};
ghost use Rattle.chat_history.specs.Numbering.{delta};
ghost use Rattle.chat_history.specs.Growth.{AfterOthers};
ghost use Rattle.cluster_directory.specs.Names.{same_name};
ghost use Rattle.cluster_directory.specs.declared.version.TheConstants.Version.{OWN};
ghost use Rattle.gossip_link.specs.Link.{fault_of};
ghost use Rattle.gossip_link.specs.Peer.{unheard, is_news, is_older, is_known, hello_is_wrong, hello_is_news, after_hello};
ghost use Rattle.gossip_link.specs.Peer.{is_served, packet_of, after_make, packet_is_mine, ack_of, MayBeWritten};
ghost use Rattle.gossip_link.specs.Peer.{ack_is_mine, ack_is_too_high, after_ack};

use chat_history::{DeltaFault, Source, Taker};
use peer_lines::{Ack, Life, LinkFault, NodeName, Packet, Version};
use std::alloc::Global;
use std::marker::Model;

// What a node knows of its peer's present life.
#[derive(Clone, Copy)]
struct KnownLife {
    incarnation: u64,
    // the one of the first hello of this life
    version: Version,
}

/// One node's side towards one peer.
#[derive(Drop)]
pub struct Link {
    me: Life,
    name: NodeName,
    heard: Option<KnownLife>,
    acked: u64,
    sent: u64,
}

impl Model for Link {
    ghost use Rattle.gossip_link.specs.Link as spec;

    ghost Value = { spec.Link };

    ghost view = { λ l. record {
      me = l.me;
      name = l.name;
      peer = record { heard = l.heard; acked = l.acked; sent = l.sent };
    } };
}

fn fault_of(fault: DeltaFault) -> LinkFault
    ensures { result ≡ fault_of fault }
{
    match fault {
        DeltaFault::NoEntry => LinkFault::NoEntry,
        DeltaFault::NoMemory => LinkFault::NoMemory,
    }
}

// Whether an incarnation is the first that is heard of, or greater.
fn is_first_or_greater(heard: Option<KnownLife>, incarnation: u64) -> bool
    ensures { result ≡ is_news heard incarnation }
{
    match heard {
        None => true,
        Some(known) => known.incarnation < incarnation,
    }
}

fn is_smaller(heard: Option<KnownLife>, incarnation: u64) -> bool
    ensures { result ≡ is_older heard incarnation }
{
    match heard {
        None => false,
        Some(known) => incarnation < known.incarnation,
    }
}

fn is_the_known(heard: Option<KnownLife>, incarnation: u64) -> bool
    ensures { result ≡ is_known heard incarnation }
{
    match heard {
        None => false,
        Some(known) => known.incarnation == incarnation,
    }
}

impl Link {
    ghost use Rattle.gossip_link.specs.Link as spec;

    /// A link to a peer whose life isn't known yet.
    pub fn new(me: Life, peer: NodeName) -> Link
        ensures { result ≡ record { me = me; name = peer; peer = unheard } }
    {
        Link {
            me,
            name: peer,
            heard: None,
            acked: 0,
            sent: 0,
        }
    }

    /// Hears a hello of the peer, of a life in a version: whether the life is a new one, the first or one of a greater
    /// incarnation. Then nothing is acknowledged and nothing sent yet, and this version is the life's. A later hello of the
    /// same life changes nothing, whatever its version.
    ///
    /// Refused with [`LinkFault::WrongLife`] exactly where it is a life of another node, or of a smaller incarnation. A
    /// refusal changes nothing.
    pub fn hello(&mut self, life: &Life, version: Version) -> Result<bool, LinkFault>
        ensures known { self.new ≡ record self.old {
          peer = after_hello self.old.name self.old.peer life.now version;
        } }
        ensures answer { result ≡ (if hello_is_wrong self.old.name self.old.peer life.now
            then Err LinkFault.WrongLife
            else Ok (hello_is_news self.old.name self.old.peer life.now)) }
    {
        let is_peer = is_named(&self.name, life);
        let heard = self.heard;
        let incarnation = life.incarnation();
        if !is_peer || is_smaller(heard, incarnation) {
            return Err(LinkFault::WrongLife);
        }
        if is_first_or_greater(heard, incarnation) {
            self.heard = Some(KnownLife {
                incarnation,
                version,
            });
            self.acked = 0;
            self.sent = 0;
            return Ok(true);
        }
        Ok(false)
    }

    /// Takes the peer's word for how far it has come. A number that is no greater than the acknowledged one changes
    /// nothing.
    ///
    /// Refused with [`LinkFault::WrongLife`] exactly where it isn't from the peer's known life to this one, else with
    /// [`LinkFault::AckTooHigh`] exactly where the number is greater than those sent. A refusal changes nothing.
    pub fn take_ack(&mut self, ack: &Ack) -> Result<(), LinkFault>
        ensures known { self.new
            ≡ record self.old { peer = after_ack self.old.me self.old.name self.old.peer ack.now } }
        ensures answer { result ≡ (if ack_is_mine self.old.me self.old.name self.old.peer ack.now
            then (if ack_is_too_high self.old.peer ack.now then Err LinkFault.AckTooHigh else Ok tt)
            else Err LinkFault.WrongLife) }
    {
        let is_mine = ack.receiver().is_same(&self.me)
            && (ack.sender().is_of(&self.name)
                && is_the_known(self.heard, ack.sender().incarnation()));
        if !is_mine {
            return Err(LinkFault::WrongLife);
        }
        if self.sent < ack.upto() {
            return Err(LinkFault::AckTooHigh);
        }
        if self.acked < ack.upto() {
            self.acked = ack.upto();
        }
        Ok(())
    }

    /// The delta since the acknowledged number, as a packet from this life to the peer's. There is none where no hello was
    /// heard, where the peer's life speaks a lower version than [`Version::OWN`], or where nothing is newer. What was
    /// acknowledged stays so until an acknowledgement comes: a packet that is lost is made again.
    ///
    /// A packet has 1 to 256 changes, and its `from` is below its `to`, so that its lines read back.
    ///
    /// Refused with [`LinkFault::NoEntry`] or [`LinkFault::NoMemory`], where the source was or where there was no memory
    /// for the packet; the link stays as it was.
    pub fn make<S: Source>(
        &mut self,
        alloc: Global,
        source: &mut S,
    ) -> Result<Option<Packet>, LinkFault>
        ensures made { IfOk result (λ packet. is_served OWN self.old.peer.heard ≡ true →
            AfterOthers S.holds S.may_add source.old (λ start all. S.holds source.new start all
            × (packet ≡ packet_of OWN self.old.me self.old.name self.old.peer.heard
            (delta start all self.old.peer.acked)))) }
        ensures writable { IfOk result (λ packet. is_served OWN self.old.peer.heard ≡ true →
            AfterOthers S.holds S.may_add source.old (λ start all. S.holds source.new start all
            × MayBeWritten all packet)) }
        ensures unserved { is_served OWN self.old.peer.heard ≡ false →
            (result ≡ Ok None) × (source.new ≡ source.old) }
        ensures known { IfOk result (λ packet. self.new
            ≡ record self.old { peer = after_make self.old.peer packet }) }
        ensures causes { IfErr result (λ fault.
            (fault ≡ LinkFault.NoEntry) ⊎ (fault ≡ LinkFault.NoMemory)) }
        ensures err { OnErr result (self.new ≡ self.old) }
        ensures kept { OnErr result (AfterOthers S.holds S.may_add source.old
            (λ start all. S.holds source.new start all)) }
    {
        let Some(heard) = self.heard else {
            return Ok(None);
        };
        if heard.version.is_lower_than(Version::OWN) {
            return Ok(None);
        }
        let delta = match source.delta(alloc, self.acked) {
            Ok(delta) => delta,
            Err(fault) => return Err(fault_of(fault)),
        };
        if delta.is_empty() {
            return Ok(None);
        }
        let (sender, receiver) = match (self.me.try_clone(alloc), self.name.try_clone(alloc)) {
            (Ok(sender), Ok(node)) => (sender, Life::new(node, heard.incarnation)),
            _ => return Err(LinkFault::NoMemory),
        };
        let from = delta.from();
        let to = delta.to();
        let packet = Packet::new(sender, receiver, from, to, delta.into_changes());
        if self.sent < to {
            self.sent = to;
        }
        Ok(Some(packet))
    }

    /// Hands the changes of a packet on, and acknowledges its `to` where all of them were taken.
    ///
    /// Refused with [`LinkFault::WrongLife`] exactly where the packet isn't addressed to this life, or its sender isn't
    /// the peer's node, in any incarnation; with [`LinkFault::NoMemory`] before the taker is asked; and with
    /// [`LinkFault::NotTaken`] where the taker refused. What it took then stands, and nothing is acknowledged.
    pub fn take_packet<T: Taker>(
        &self,
        alloc: Global,
        packet: &Packet,
        taker: &mut T,
    ) -> Result<Ack, LinkFault>
        ensures ack { IfOk result (λ ack. ack ≡ ack_of self.now.me packet.now) }
        ensures all { OnOk result (AfterOthers T.holds T.may_add taker.old
            (λ start all. T.holds taker.new start (all ++ packet.now.changes))) }
        ensures wrong { (result ≡ Err LinkFault.WrongLife)
            ↔ (packet_is_mine self.now.me self.now.name packet.now ≡ false) }
        ensures unasked { packet_is_mine self.now.me self.now.name packet.now ≡ false →
            taker.new ≡ taker.old }
        ensures early { result ≡ Err LinkFault.NoMemory → taker.new ≡ taker.old }
        ensures part { result ≡ Err LinkFault.NotTaken →
            AfterOthers T.holds T.may_add taker.old (λ start all. (count : ℕ)
            × T.holds taker.new start (all ++ take count packet.now.changes)) }
        ensures causes { IfErr result (λ fault. (fault ≡ LinkFault.WrongLife)
            ⊎ (fault ≡ LinkFault.NoMemory) ⊎ (fault ≡ LinkFault.NotTaken)) }
    {
        if !(packet.receiver().is_same(&self.me) && packet.sender().is_of(&self.name)) {
            return Err(LinkFault::WrongLife);
        }
        let (me, sender) = match (self.me.try_clone(alloc), packet.sender().try_clone(alloc)) {
            (Ok(me), Ok(sender)) => (me, sender),
            _ => return Err(LinkFault::NoMemory),
        };
        match taker.take(alloc, packet.changes()) {
            Ok(()) => Ok(Ack::new(me, sender, packet.to())),
            Err(_) => Err(LinkFault::NotTaken),
        }
    }

    /// The greatest number that the known life of the peer acknowledged; 0 where none is known or it acknowledged none.
    pub fn acked(&self) -> u64
        ensures { result ≡ self.now.peer.acked }
    {
        self.acked
    }
}

// Whether a life is one of the node of that name.
fn is_named(name: &NodeName, life: &Life) -> bool
    ensures { result ≡ same_name name.now life.now.node }
{
    name.is_same(life.node())
}
