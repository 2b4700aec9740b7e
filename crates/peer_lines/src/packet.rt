//! What nodes send each other: packets of changes, and acknowledgements.
ghost use Rattle.std.specs.Prelude.{◌≡◌};

use chat_change::Change;
use cluster_directory::Life;
use std::marker::Model;

/// The most changes of one packet.
pub const PACKET_LIMIT: u64 = 256;

/// The head of a packet: who sends it to whom, between which numbers its changes are, and how many of them follow.
#[derive(Drop)]
pub struct Head {
    pub(crate) sender: Life,
    pub(crate) receiver: Life,
    pub(crate) from: u64,
    pub(crate) to: u64,
    pub(crate) count: u64,
}

impl Model for Head {
    ghost use Rattle.peer_lines.specs.Packet as spec;

    ghost Value = { spec.Head };

    ghost view = { λ h. record {
      sender = h.sender;
      receiver = h.receiver;
      from = h.from;
      to = h.to;
      count = h.count;
    } };
}

impl Head {
    ghost use Rattle.peer_lines.specs.Packet.{packet_of};

    // The packet of the head and these changes.
    pub(crate) fn with_changes(self, changes: Vec<Change>) -> Packet
        ensures { result ≡ packet_of self changes.items }
    {
        Packet {
            sender: self.sender,
            receiver: self.receiver,
            from: self.from,
            to: self.to,
            changes,
        }
    }
}

/// Pieces that its sender holds, as changes: those with numbers above `from`, up to `to`.
#[derive(Drop)]
pub struct Packet {
    sender: Life,
    receiver: Life,
    from: u64,
    to: u64,
    changes: Vec<Change>,
}

impl Model for Packet {
    ghost use Rattle.peer_lines.specs.Packet as spec;

    ghost Value = { spec.Packet };

    ghost view = { λ p. record {
      sender = p.sender;
      receiver = p.receiver;
      from = p.from;
      to = p.to;
      changes = p.changes.items;
    } };
}

impl Packet {
    ghost use Rattle.peer_lines.specs.Packet as spec;

    /// The packet of these changes, from one life to another.
    pub fn new(sender: Life, receiver: Life, from: u64, to: u64, changes: Vec<Change>) -> Packet
        ensures { result ≡ record {
          sender = sender;
          receiver = receiver;
          from = from;
          to = to;
          changes = changes.items;
        } }
    {
        Packet {
            sender,
            receiver,
            from,
            to,
            changes,
        }
    }

    /// Who sends it.
    pub fn sender(&self) -> &Life
        ensures { result.now ≡ self.now.sender }
    {
        &self.sender
    }

    /// To whom it goes.
    pub fn receiver(&self) -> &Life
        ensures { result.now ≡ self.now.receiver }
    {
        &self.receiver
    }

    /// The number above which its pieces are.
    pub fn from(&self) -> u64
        ensures { result ≡ self.now.from }
    {
        self.from
    }

    /// The number up to which whoever takes it includes the sender's pieces.
    pub fn to(&self) -> u64
        ensures { result ≡ self.now.to }
    {
        self.to
    }

    /// Its changes, by rising number.
    pub fn changes(&self) -> &[Change]
        ensures { result.now ≡ self.now.changes }
    {
        &self.changes
    }
}

/// Says that its sender took the pieces with numbers up to `upto`.
#[derive(Drop)]
pub struct Ack {
    sender: Life,
    receiver: Life,
    upto: u64,
}

impl Model for Ack {
    ghost use Rattle.peer_lines.specs.Packet as spec;

    ghost Value = { spec.Ack };

    ghost view = { λ a. record { sender = a.sender; receiver = a.receiver; upto = a.upto } };
}

impl Ack {
    ghost use Rattle.peer_lines.specs.Packet as spec;

    /// The acknowledgement of a number, from one life to another.
    pub fn new(sender: Life, receiver: Life, upto: u64) -> Ack
        ensures { result ≡ record { sender = sender; receiver = receiver; upto = upto } }
    {
        Ack {
            sender,
            receiver,
            upto,
        }
    }

    /// Who acknowledges.
    pub fn sender(&self) -> &Life
        ensures { result.now ≡ self.now.sender }
    {
        &self.sender
    }

    /// Whose packet is acknowledged.
    pub fn receiver(&self) -> &Life
        ensures { result.now ≡ self.now.receiver }
    {
        &self.receiver
    }

    /// The number up to which pieces were taken.
    pub fn upto(&self) -> u64
        ensures { result ≡ self.now.upto }
    {
        self.upto
    }
}
