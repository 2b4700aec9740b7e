//! Where a worker's connections come from, and what else comes to it.
ghost use Rattle.std.specs.Prelude.{◌≡◌, IfOk};

use crate::mail::Mail;
use attach::RingClient;
use node_events::{Clocks, Event, Unreached};
use node_ports::{Connection, Fresh};
use std::net::SocketAddr;

/// Whom a worker connects to. Networks and peers are those of the configuration, counted from 0.
#[derive(Clone, Copy, Debug, PartialEq, Eq)]
pub enum Dial {
    Network(usize),
    Peer(usize),
}

/// What comes next for a worker.
#[derive(Drop)]
pub enum Happening<C: Connection> {
    /// A client came. What it will be owed lies in the ring, at the place that it has.
    Client {
        fresh: Fresh<C>,
        ring: RingClient,
    },
    /// A connection is there that another node opened, or that was dialed: its origin says which.
    Came(Fresh<C>),
    /// A connection that was dialed could not be made.
    Refused {
        what: Dial,
        why: Unreached,
    },
    /// Bytes may be there, or room for bytes, at the connection that is watched under that token.
    Ready {
        token: usize,
        is_readable: bool,
        is_writable: bool,
    },
    /// Others wait for the places of clients that aren't registered: some of these were asked to leave.
    Leave,
    /// Another worker tells something.
    Mail(Mail<C>),
    /// Nothing, for now.
    Nothing,
    /// The port ended.
    Ended,
}

/// The port failed, or could not do what it was asked.
#[derive(Clone, Copy, Debug, PartialEq, Eq)]
pub struct PortFault;

/// Where a worker's connections come from, which are the worker's own: sockets, or memory in tests. It keeps none of them, but for
/// those that are being made.
pub trait Port: Drop {
    /// A connection.
    type Connection: Connection;

    /// What comes next. Where nothing is there it waits, for so many milliseconds at most, or for less where the port has less
    /// patience; with 0 it doesn't wait. `Nothing` may stand behind the last of what came at once, without a wait.
    fn next(&mut self, patience: u64) -> Result<Happening<Self::Connection>, PortFault>;

    /// Begins a connection: `Came` or `Refused` follows. Where none can be begun it is answered why.
    fn dial(&mut self, what: Dial) -> Result<(), Unreached>;

    /// The address to which it connects for that.
    fn target(&self, what: Dial) -> Option<SocketAddr>;

    /// Has `Ready` tell of a connection under that token from now on.
    fn watch(&mut self, connection: &mut Self::Connection, token: usize) -> Result<(), PortFault>
        ensures origin { Self.Connection.origin connection.new
            ≡ Self.Connection.origin connection.old }
        ensures serial { Self.Connection.serial connection.new
            ≡ Self.Connection.serial connection.old }
        ensures joined { Self.Connection.joined connection.new
            ≡ Self.Connection.joined connection.old }
        ensures received { Self.Connection.received connection.new
            ≡ Self.Connection.received connection.old }
        ensures sent { Self.Connection.sent connection.new
            ≡ Self.Connection.sent connection.old };

    /// Has `Ready` tell no more of a connection, which moves to another worker.
    fn unwatch(&mut self, connection: &mut Self::Connection)
        ensures origin { Self.Connection.origin connection.new
            ≡ Self.Connection.origin connection.old }
        ensures serial { Self.Connection.serial connection.new
            ≡ Self.Connection.serial connection.old }
        ensures joined { Self.Connection.joined connection.new
            ≡ Self.Connection.joined connection.old }
        ensures received { Self.Connection.received connection.new
            ≡ Self.Connection.received connection.old }
        ensures sent { Self.Connection.sent connection.new
            ≡ Self.Connection.sent connection.old };

    /// Hands mail to another worker. It is taken out, also where that fails.
    fn send_mail(
        &mut self,
        worker: usize,
        mail: &mut Option<Mail<Self::Connection>>,
    ) -> Result<(), PortFault>;

    /// How many workers there are.
    fn workers(&self) -> usize;

    /// What the clocks read now.
    fn clocks(&mut self) -> Result<Clocks, PortFault>
        ensures { IfOk result (λ clocks. ∥ Self.Connection.facts.clock clocks.wall ∥₁) };

    /// Tells the operator.
    fn report(&mut self, event: &Event<'_>);
}
