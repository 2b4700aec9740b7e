//! Connections, which know where they come from, what came over them and what went out.
ghost use Rattle.std.specs.Prelude.{◌≡◌, ◌≤◌, ◌++◌, ℕ, List, [], Option, Some, None, length, take, IfOk, OnErr};
ghost use Rattle.network_log.specs.declared.origin.Origin.{Origin};
ghost use Rattle.network_log.specs.Facts.{NodeFacts};
ghost use Rattle.network_log.specs.Telling.{MayBeTold};

use network_log::Origin;
use std::net::SocketAddr;

/// Why no byte moved.
#[derive(Clone, Copy, Debug, PartialEq, Eq)]
pub enum Halt {
    /// There is none, or no room, for now.
    Blocked,
    /// The connection is closed.
    Closed,
}

/// One connection. Only a port makes one, and who has it is alone in sending over it. It is closed as it is let go.
pub trait Connection: Drop {
    /// What is so of the node, which is the same at each of its connections.
    ghost facts: { NodeFacts };

    /// Where it comes from.
    ghost origin: { Self → Origin };

    /// Its number, which no other connection of the node has.
    ghost serial: { Self → ℕ };

    /// Behind how many others it joined a network, if it did.
    ghost joined: { Self → Option ℕ };

    /// Every byte that came over it, in order.
    ghost received: { Self → List ℕ };

    /// Every byte that went out, in order.
    ghost sent: { Self → List ℕ };

    /// Where it comes from.
    fn origin(&self) -> Origin
        ensures { result ≡ origin self.now };

    /// Who is at the other end, where the system told it.
    fn address(&self) -> Option<SocketAddr>;

    /// Moves bytes that came over it to the start of the buffer, and answers how many. It doesn't wait.
    fn receive(&mut self, buffer: &mut [u8]) -> Result<usize, Halt>
        ensures count { IfOk result (λ n. n ≤ length buffer.new) }
        ensures received { IfOk result (λ n.
            received self.new ≡ received self.old ++ take n buffer.new) }
        ensures evidence { IfOk result (λ _.
            ∥ facts.came (origin self.old) (serial self.old) (received self.new) ∥₁) }
        ensures err { OnErr result (received self.new ≡ received self.old) }
        ensures sent { sent self.new ≡ sent self.old }
        ensures origin { origin self.new ≡ origin self.old }
        ensures serial { serial self.new ≡ serial self.old }
        ensures joined { joined self.new ≡ joined self.old };

    /// Sends the first of these bytes, and answers how many. It doesn't wait. All that was sent over it, with these bytes behind
    /// it, has to be what may be told over it, where that came over it which did.
    fn send(&mut self, bytes: &[u8]) -> Result<usize, Halt>
        requires { ∥ MayBeTold facts (origin self.old) (serial self.old) (received self.old)
            (sent self.old ++ bytes.now) ∥₁ }
        ensures count { IfOk result (λ n. n ≤ length bytes.now) }
        ensures sent { IfOk result (λ n. sent self.new ≡ sent self.old ++ take n bytes.now) }
        ensures err { OnErr result (sent self.new ≡ sent self.old) }
        ensures received { received self.new ≡ received self.old }
        ensures origin { origin self.new ≡ origin self.old }
        ensures serial { serial self.new ≡ serial self.old }
        ensures joined { joined self.new ≡ joined self.old };

    /// It joins the network at that place, behind so many others. It joins once.
    fn join(&mut self, place: usize, joins: u64)
        requires { joined self.old ≡ None }
        ensures joined { joined self.new ≡ Some joins }
        ensures evidence { ∥ facts.joined (serial self.old) place joins ∥₁ }
        ensures received { received self.new ≡ received self.old }
        ensures sent { sent self.new ≡ sent self.old }
        ensures origin { origin self.new ≡ origin self.old }
        ensures serial { serial self.new ≡ serial self.old };
}

/// A connection over which nothing went yet.
#[derive(Drop)]
pub struct Fresh<C: Connection> {
    pub connection: C,
    pub ghost is_free: { C.joined connection ≡ None },
    pub ghost none_received: { C.received connection ≡ [] },
    pub ghost none_sent: { C.sent connection ≡ [] },
    pub ghost it_came: { ∥ C.facts.came (C.origin connection) (C.serial connection) [] ∥₁ },
}
