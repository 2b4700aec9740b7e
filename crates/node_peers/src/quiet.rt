//! Connections over which nothing goes.
ghost use Rattle.std.specs.Prelude.{◌≡◌, ◌<◌, ◌≤◌, ◌+◌, ◌-◌, ◌^◌, ℕ, None, Some, is_some, min, nat_le, true};
ghost use Rattle.node_peers.specs.PeerEvents.{IsLost};
ghost use Rattle.node_peers.specs.PeerState.{talked};
ghost use Rattle.node_peers.specs.Talk.{repeating, reminding};
ghost use Rattle.node_peers.specs.declared.quiet.TheConstants.{GONE, HELLO_AGAIN};

use crate::peer::Peer;
use crate::turn::Turn;
use gossip_link::Life;
use node_ports::Connection;

/// The hello is said again to a peer to which nothing was said for so many milliseconds.
const HELLO_AGAIN: u64 = 60_000;

/// A peer from which nothing came for so many milliseconds is taken for gone.
const GONE: u64 = 300_000;

impl<C: Connection> Peer<C> {
    /// When the hello is to be said again, where nothing else is said until then.
    pub fn hello_due(&self) -> u64
        ensures { result ≡ min (self.now.talk.said_at + HELLO_AGAIN) (2 ^ 64 - 1) }
    {
        self.dialogue.said_at().saturating_add(HELLO_AGAIN)
    }

    /// When it is taken for gone, where nothing comes until then.
    pub fn gone_at(&self) -> u64
        ensures { result ≡ min (self.now.heard_at + GONE) (2 ^ 64 - 1) }
    {
        self.heard_at.saturating_add(GONE)
    }

    /// Whether nothing came from it for too long.
    pub fn is_gone(&self, now: u64) -> bool
        ensures { result ≡ nat_le (self.now.heard_at + GONE) now }
    {
        now.saturating_sub(self.heard_at) >= GONE
    }

    /// Says the own hello again to the peer that was noted, where nothing was said to it for long enough.
    pub fn repeat_hello(&mut self, turn: &Turn<'_, C>, room: &mut Vec<u8>)
        ensures said { self.new.loss ≡ None → (place : ℕ) → self.old.talk.noted ≡ Some place
            → self.old.talk.said_at + HELLO_AGAIN ≤ turn.now.at
            → self.new ≡ talked (repeating C.facts.terms place turn.now.at self.old.talk) self.old }
        ensures early { turn.now.at < self.old.talk.said_at + HELLO_AGAIN → self.new ≡ self.old }
        ensures noted { self.new.talk.noted ≡ self.old.talk.noted }
        ensures stranger { self.old.talk.noted ≡ None → self.new ≡ self.old }
        ensures lost { is_some self.new.loss ≡ true → IsLost self.old self.new }
    {
        if self.loss.is_some() || turn.at.saturating_sub(self.dialogue.said_at()) < HELLO_AGAIN {
            return;
        }
        let Some(place) = self.noted() else {
            return;
        };
        if let Err(loss) = self.dialogue.repeat_hello(turn, place, room) {
            self.loss = Some(loss);
        }
    }

    /// Tells the peer that was noted, by an acknowledgement of nothing, that this life of it is known.
    pub fn remind(&mut self, turn: &Turn<'_, C>, life: &Life, room: &mut Vec<u8>)
        ensures said { self.new.loss ≡ None → (place : ℕ) → self.old.talk.noted ≡ Some place
            → self.new ≡ talked
            (reminding C.facts.terms.me life.now turn.now.at self.old.talk) self.old }
        ensures stranger { self.old.talk.noted ≡ None → self.new ≡ self.old }
        ensures lost { is_some self.new.loss ≡ true → IsLost self.old self.new }
    {
        if self.loss.is_some() {
            return;
        }
        let Some(_) = self.noted() else {
            return;
        };
        if let Err(loss) = self.dialogue.remind(turn, life, room) {
            self.loss = Some(loss);
        }
    }
}
