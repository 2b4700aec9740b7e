//! What is owed to another node, and how it goes out.
ghost use Rattle.std.specs.Prelude.{◌≡◌, ◌≤◌, None, length, true};
ghost use Rattle.node_peers.specs.PeerEvents.{IsSent};
ghost use Rattle.node_peers.specs.declared.sending.TheConstants.{MOST_OWED};

use crate::loss::PeerLoss;
use crate::peer::Peer;
use chat_history::DELTA_LIMIT;
use node_ports::{Connection, Halt};

/// The most bytes of a packet's head, as a line: two names of 32 bytes, and five numbers of which one has three digits.
const LONGEST_HEAD: usize = 157;

/// The most bytes of a change, as a line: a NOTICE with 4,094 bytes of tags, whose words are all of the greatest length.
const LONGEST_CHANGE: usize = 5_148;

/// So many bytes may be owed to a peer before its next line is heard: a packet of the greatest size, and some packets of messages
/// without tags.
pub(crate) const MOST_OWED: usize = 1_048_576 + LONGEST_HEAD + DELTA_LIMIT * LONGEST_CHANGE;

impl<C: Connection> Peer<C> {
    /// Whether something is owed to it that may be sent now.
    pub fn can_send(&self) -> bool
        ensures { result ≡ true → self.now.loss ≡ None }
    {
        self.loss.is_none() && self.is_writable && !self.dialogue.owed().is_empty()
    }

    /// Sends what is owed to it, by one write, unless it is lost.
    pub fn send(&mut self)
        ensures { IsSent self.old self.new }
    {
        if !self.can_send() {
            return;
        }
        match self.connection.send(self.dialogue.owed()) {
            Ok(0) | Err(Halt::Blocked) => self.is_writable = false,
            Ok(count) => self.dialogue.take_sent(count),
            Err(Halt::Closed) => self.loss = Some(PeerLoss::Closed),
        }
    }

    /// Sends what is owed to it where that is too much, by as many writes as it takes. Where the other node doesn't read enough of
    /// it, it is lost.
    pub fn make_room(&mut self)
        ensures sent { IsSent self.old self.new }
        ensures room { self.new.loss ≡ None → length self.new.talk.owed ≤ MOST_OWED }
    {
        // (what tells of room may still be on its way)
        self.is_writable = true;
        for _ in 0..usize::MAX {
            if self.dialogue.owed().len() <= MOST_OWED {
                return;
            }
            self.send();
            if self.loss.is_some() || !self.is_writable {
                break;
            }
        }
        self.lose(PeerLoss::Overrun);
    }
}
