//! One client.
ghost use mathlib.Core.List.{IsPrefix};
ghost use Rattle.std.specs.Prelude.{◌≡◌, ◌+◌, ◌==◌, None, Some, not, length};
ghost use Rattle.std.specs.Option.{option_copied};
ghost use Rattle.client_session.specs.Session.{facts_in};
ghost use Rattle.network_log.specs.Guest.{fallen};
ghost use Rattle.network_log.specs.declared.origin.Origin.TheVariants.{ClientCame};

use crate::fall::Fall;
use crate::port::{Port, PortFault};
use attach::{Attachment, RingClient};
use byte_text::Text;
use chat_query::Facts;
use client_session::{Effect, Session};
use node_ports::{Connection, Input, Pending};
use std::marker::Model;

/// A client with its connection and its session, and what it is owed.
#[derive(Drop)]
pub struct Client<C: Connection> {
    pub(crate) connection: C,
    pub(crate) ring: RingClient,
    pub(crate) input: Input,
    /// How many lines its session has heard.
    pub(crate) heard: u64,
    pub(crate) session: Session,
    /// What the last of these came to, and how much of that is done.
    pub(crate) effects: Vec<Effect>,
    pub(crate) done: usize,
    /// What its own lines called for and isn't in the ring yet.
    pub(crate) waiting: Pending,
    /// The nick that it knows as its own.
    pub(crate) nick: Text,
    pub(crate) is_gone: bool,
    /// Why it is gone, once it is.
    pub(crate) why: Option<Fall>,
    /// Whether there may be room for bytes at its connection.
    pub(crate) is_writable: bool,
}

impl<C: Connection> Model for Client<C> {
    ghost use Rattle.std.specs.Prelude.{◌≡◌, ◌++◌, drop, false};
    ghost use Rattle.network_log.specs.Guest.{Guest};
    ghost use Rattle.network_log.specs.declared.origin.Origin.TheVariants.{ClientCame};
    ghost use Rattle.node_ports.specs.Unread.{AreLeft};

    ghost Value = { Guest };

    ghost view = { λ c. record {
      serial = C.serial c.connection;
      joined = C.joined c.connection;
      received = C.received c.connection;
      heard = c.heard;
      session = c.session;
      todo = drop c.done c.effects.items;
      told = C.sent c.connection ++ c.ring.owed;
      waiting = c.waiting;
      nick = c.nick;
      is_gone = c.is_gone;
    } };

    ghost invariant = { λ c. (C.origin c.connection ≡ ClientCame)
        × (c.is_gone ≡ false → ∥ AreLeft (C.received c.connection) c.heard c.input ∥₁) };
}

impl<C: Connection> Client<C> {
    /// Its connection. What went out over it is the first of what it was told.
    pub fn connection(&self) -> &C
        ensures serial { C.serial result.now ≡ self.now.serial }
        ensures joined { C.joined result.now ≡ self.now.joined }
        ensures received { C.received result.now ≡ self.now.received }
        ensures origin { C.origin result.now ≡ ClientCame }
        ensures told { IsPrefix (C.sent result.now) self.now.told }
    {
        &self.connection
    }

    /// How many bytes are owed: all that it was told but for what went out over its connection, which is lent beside.
    pub fn owed(&self) -> (usize, &C)
        ensures { length (C.sent result.1.now) + result.0 ≡ length self.now.told }
    {
        (self.ring.owed(), &self.connection)
    }

    /// Its place among the clients of the node, which it has until it goes.
    pub fn place(&self) -> usize {
        self.ring.place()
    }

    /// How many bytes it may be owed.
    pub fn bound(&self) -> usize {
        self.ring.bound()
    }

    /// The port tells of its connection under that token from now on.
    pub(crate) fn watch<P: Port<Connection = C>>(
        &mut self,
        port: &mut P,
        token: usize,
    ) -> Result<(), PortFault>
        ensures { self.new ≡ self.old }
    {
        port.watch(&mut self.connection, token)
    }

    /// The port tells no more of its connection.
    pub(crate) fn unwatch<P: Port<Connection = C>>(&mut self, port: &mut P)
        ensures { self.new ≡ self.old }
    {
        port.unwatch(&mut self.connection);
    }

    /// It joins the network at that place, behind so many others.
    pub fn join(&mut self, place: usize, joins: u64)
        requires { self.old.joined ≡ None }
        ensures joined { self.new ≡ record self.old { joined = Some joins } }
        ensures evidence { ∥ C.facts.joined self.old.serial place joins ∥₁ }
    {
        self.connection.join(place, joins);
    }

    /// What is known of its session, where that is registered.
    pub fn facts(&self) -> Option<&Facts>
        ensures { option_copied result ≡ facts_in self.now.session }
    {
        self.session.facts()
    }

    /// Whether it is gone.
    pub fn is_gone(&self) -> bool
        ensures { result ≡ self.now.is_gone }
    {
        self.is_gone
    }

    /// Whether something of what its last line came to isn't done yet.
    pub fn is_busy(&self) -> bool
        ensures { result ≡ not (length self.now.todo == 0) }
    {
        self.done < self.effects.len()
    }

    /// Why it is gone, if it is.
    pub fn why(&self) -> Option<Fall> {
        self.why
    }

    /// It is gone from now on, for that reason unless it was gone before: nothing more is read of it, and what waits is let go.
    pub fn fall(&mut self, why: Fall)
        ensures { self.new ≡ fallen self.old }
    {
        if self.why.is_none() {
            self.why = Some(why);
        }
        self.is_gone = true;
        self.done = self.effects.len();
        self.waiting.take(self.waiting.len());
    }
}
