//! Clients that came and aren't let in yet.
ghost use Rattle.std.specs.Prelude.{◌≡◌, ◌≢◌, ◌↔◌, ◌⊎◌, [], Err, None, Some, IfOk, IfErr, OnErr, IsSome, IsTrue, true, false, slice_get};
ghost use Rattle.client_session.specs.Session.{facts_in};
ghost use Rattle.client_session.specs.declared.effect.Effect.TheVariants.{Close};
ghost use Rattle.cluster_directory.specs.Entry.{Entry};
ghost use Rattle.network_log.specs.Guest.{Closes, Hears, Offers, fallen, guest_step, new_guest, next_item};
ghost use Rattle.network_log.specs.Truth.{AreWholeLines, IsArrived, IsDirectory};
ghost use Rattle.network_log.specs.declared.origin.Origin.TheVariants.{ClientCame};
ghost use Rattle.network_client.specs.Naming.{is_for_item, place_in_item};
ghost use Rattle.network_client.specs.Steps as spec;

use crate::client::Client;
use crate::fall::Fall;
use crate::port::{Port, PortFault};
use attach::{Overrun, RingClient};
use byte_text::{NoMemory, Text};
use chat_query::Facts;
use client_session::{Directory, Effect, Session};
use cluster_directory::SessionConfig;
use node_ports::{Accounts, Connection, Feeders, Filled, Fresh, Halt, Input, Pending};
use std::alloc::Global;
use std::marker::Model;

/// A client that isn't registered yet. It was told what its session says to its lines, and nothing else.
#[derive(Drop)]
pub struct Newcomer<C: Connection> {
    client: Client<C>,
}

impl<C: Connection> Model for Newcomer<C> {
    ghost use Rattle.network_log.specs.Guest.{Guest};
    ghost use Rattle.network_log.specs.Truth.{IsNewcomer};

    ghost Value = { Guest };

    ghost view = { λ n. n.client };

    ghost invariant = { λ n. ∥ IsNewcomer C.facts n.client ∥₁ };
}

/// A newcomer whose next line names the network at that place. It moves there, whole, and hears the line there.
#[derive(Drop)]
pub struct Arrival<C: Connection> {
    pub network: usize,
    pub newcomer: Newcomer<C>,
    pub ghost is_named: { place_in_item C.facts.accounts
        (next_item newcomer.received newcomer.heard) ≡ Some network },
}

// Whether a line came to this: the session is closed, and says why before its last line. After a QUIT it says its last line alone.
fn turns_away(effects: &[Effect]) -> bool {
    matches!(effects, [Effect::Send(_), Effect::Send(_), Effect::Close])
}

// Whether a session is registered with that account and network.
fn is_at(facts: &Facts, config: &SessionConfig) -> bool
    ensures { result ≡ spec.is_at config.now facts.now }
{
    facts.account.as_bytes() == config.account.as_bytes()
        && facts.network.as_bytes() == config.network.as_bytes()
}

/// Why a newcomer is gone that was to hear a line.
#[derive(Clone, Copy, Debug, PartialEq, Eq)]
pub enum Gone {
    /// There was no memory.
    NoMemory,
    /// The line registers its session, and not where it is: with another network, or before it moved to one.
    Elsewhere,
}

impl<C: Connection> Newcomer<C> {
    /// It came, and nothing was read or told. `cluster` is the name of the cluster, which answers with so many messages at most.
    pub fn new(
        alloc: Global,
        fresh: Fresh<C>,
        ring: RingClient,
        cluster: Text,
        maximum: u32,
    ) -> Result<Newcomer<C>, NoMemory>
        requires origin { C.origin fresh.connection ≡ ClientCame }
        requires owed { ring.owed ≡ [] }
        requires cluster { cluster ≡ C.facts.cluster }
        requires maximum { maximum ≡ C.facts.maximum }
        ensures { IfOk result (λ newcomer.
            newcomer ≡ new_guest C.facts (C.serial fresh.connection)) }
    {
        let nick = Text::new(alloc, b"*")?;
        let Fresh { connection, .. } = fresh;
        let client = Client {
            connection,
            ring,
            input: Input::new(alloc),
            heard: 0,
            session: Session::new(alloc, cluster, maximum),
            effects: Vec::new(alloc),
            done: 0,
            waiting: Pending::new(alloc),
            nick,
            is_gone: false,
            why: None,
            is_writable: true,
        };
        Ok(Newcomer { client })
    }

    /// It, as a client.
    pub fn client(&self) -> &Client<C>
        ensures { result.now ≡ self.now }
    {
        &self.client
    }

    /// The port tells of its connection under that token from now on.
    pub fn watch<P: Port<Connection = C>>(
        &mut self,
        port: &mut P,
        token: usize,
    ) -> Result<(), PortFault>
        ensures { self.new ≡ self.old }
    {
        self.client.watch(port, token)
    }

    /// The port tells no more of its connection, which moves to another worker.
    pub fn unwatch<P: Port<Connection = C>>(&mut self, port: &mut P)
        ensures { self.new ≡ self.old }
    {
        self.client.unwatch(port);
    }

    /// What the port tells of its connection: bytes may be there, or room for bytes.
    pub fn mark(&mut self, is_readable: bool, is_writable: bool)
        ensures { self.new ≡ self.old }
    {
        self.client.mark(is_readable, is_writable);
    }

    /// It is gone from now on, for that reason unless it was gone before.
    pub fn fall(&mut self, why: Fall)
        ensures { self.new ≡ fallen self.old }
    {
        self.client.fall(why);
    }

    /// Whether its last line came to this: its registration is refused, and it is told why before its session ends.
    pub fn is_turned_away(&self) -> bool {
        turns_away(self.client.effects.as_slice())
    }

    /// Takes in what comes over its connection. It is gone where there is no memory for that.
    pub fn fill(&mut self, chunk: &mut [u8], feeders: &mut Feeders) -> Filled
        ensures { ∥ spec.IsFilled C.facts self.old self.new ∥₁ }
    {
        self.client.fill(chunk, feeders)
    }

    /// Whether there is a line to be heard, and all that the last one came to is done. It is gone where there is no memory for
    /// the line.
    pub fn has_line(&mut self) -> bool
        ensures same { result ≡ true → self.new ≡ self.old }
        ensures next { result ≡ true → IsSome (next_item self.old.received self.old.heard) }
        ensures there { result ≡ true → self.old.is_gone ≡ false }
        ensures done { result ≡ true → self.old.todo ≡ [] }
        ensures none { result ≡ false → ∥ ((self.new ≡ self.old) × spec.IsQuiet self.old)
            ⊎ (self.new ≡ fallen self.old) ∥₁ }
    {
        self.client.has_line()
    }

    /// It moves to the network that its next line names, where that is one of these. It is gone where there is no memory for the
    /// line.
    pub fn arrive(mut self, accounts: &Accounts) -> Result<Arrival<C>, Newcomer<C>>
        requires accounts { accounts.now ≡ C.facts.accounts }
        requires there { self.is_gone ≡ false }
        ensures moves { IfOk result (λ arrival. arrival.newcomer ≡ self) }
        ensures stays { IfErr result (λ newcomer. ∥ ((newcomer ≡ self)
            × (place_in_item accounts.now (next_item self.received self.heard) ≡ None))
            ⊎ (newcomer ≡ fallen self) ∥₁) }
    {
        match self.network_named(accounts) {
            Ok(Some(network)) => Ok(Arrival {
                network,
                newcomer: self,
            }),
            Ok(None) => Err(self),
            Err(NoMemory) => Err(self),
        }
    }

    // The place of the network that its next line names, where that is one of these.
    fn network_named(&mut self, accounts: &Accounts) -> Result<Option<usize>, NoMemory>
        requires { self.old.is_gone ≡ false }
        ensures named { IfOk result (λ place. place
            ≡ place_in_item accounts.now (next_item self.old.received self.old.heard)) }
        ensures same { IfOk result (λ _. self.new ≡ self.old) }
        ensures fell { OnErr result (self.new ≡ fallen self.old) }
    {
        self.client.network_named(accounts)
    }

    /// Whether its session is to be registered with that account and network once it has heard its next line. It is gone where there
    /// is no memory for the line.
    pub fn is_for(&mut self, config: &SessionConfig) -> Result<bool, NoMemory>
        requires { self.old.is_gone ≡ false }
        ensures named { IfOk result (λ is. is ≡ is_for_item config.now self.old.session
            (next_item self.old.received self.old.heard)) }
        ensures same { IfOk result (λ _. self.new ≡ self.old) }
        ensures fell { OnErr result (self.new ≡ fallen self.old) }
    {
        self.client.is_for(config)
    }

    /// Its next line is heard by these accounts, where there is one. It is gone where that lets it in, which no line does that is
    /// heard before it moved to its network.
    pub fn hear(self, alloc: Global, directory: &Directory) -> Result<Newcomer<C>, Gone>
        requires directory { ∥ IsDirectory C.facts directory.now ∥₁ }
        requires there { self.is_gone ≡ false }
        requires done { self.todo ≡ [] }
        ensures heard { IfOk result (λ newcomer.
            newcomer ≡ guest_step [] (Hears directory.now false) self) }
        ensures elsewhere { result ≡ Err Gone.Elsewhere
            → IsSome (facts_in (guest_step [] (Hears directory.now false) self).session) }
    {
        let Newcomer { mut client } = self;
        let Ok(_) = client.step(alloc, directory, false) else {
            return Err(Gone::NoMemory);
        };
        if client.facts().is_some() {
            return Err(Gone::Elsewhere);
        }
        Ok(Newcomer { client })
    }

    /// Its next line is heard at a network, by these accounts, where there is one. It is a client of the network once its session is
    /// registered with that account and network, and a newcomer until then. It is gone where its session is registered with another.
    pub fn enter(
        self,
        alloc: Global,
        directory: &Directory,
        config: &SessionConfig,
    ) -> Result<Result<Client<C>, Newcomer<C>>, Gone>
        requires directory { ∥ spec.IsByAccounts C.facts directory.now self ∥₁ }
        requires there { self.is_gone ≡ false }
        requires done { self.todo ≡ [] }
        ensures heard { IfOk result (λ entered. IfOk entered (λ client.
            client ≡ guest_step [] (Hears directory.now false) self)) }
        ensures arrived { IfOk result (λ entered. IfOk entered (λ client. (entry : Entry)
            → spec.IsAlikeAt C.facts config.now entry directory.now self
            → ∥ IsArrived C.facts config.now entry client ∥₁)) }
        ensures free { IfOk result (λ entered. IfOk entered (λ client. client.joined ≡ None)) }
        ensures stays { IfOk result (λ entered. IfErr entered (λ newcomer.
            newcomer ≡ guest_step [] (Hears directory.now false) self)) }
        ensures elsewhere { result ≡ Err Gone.Elsewhere → spec.IsElsewhere config.now
            (guest_step [] (Hears directory.now false) self) }
    {
        let Newcomer { mut client } = self;
        let Ok(_) = client.step(alloc, directory, false) else {
            return Err(Gone::NoMemory);
        };
        let Some(facts) = client.facts() else {
            return Ok(Err(Newcomer { client }));
        };
        if is_at(facts, config) {
            Ok(Ok(client))
        } else {
            Err(Gone::Elsewhere)
        }
    }

    /// All that its session says waits for it. It is gone where there is no memory for that.
    pub fn say_all(&mut self) -> Result<(), NoMemory>
        requires { self.old.is_gone ≡ false }
        ensures said { IfOk result (λ _. self.new ≡ spec.all_said self.old) }
        ensures fell { OnErr result (self.new ≡ fallen self.old) }
    {
        self.client.say_all()
    }

    /// Whether its session ends, which is next. That is done with this.
    pub fn close(&mut self) -> bool
        requires { self.old.is_gone ≡ false }
        ensures closes { self.new ≡ guest_step [] Closes self.old }
        ensures is_closing { IsTrue result ↔ (slice_get self.old.todo 0 ≡ Some Close) }
    {
        self.client.close()
    }

    /// Moves the first of what waits to its ring ([`Client::offer`]).
    pub fn offer(&mut self) -> Result<usize, Overrun>
        ensures offered { IfOk result (λ n. self.new ≡ guest_step [] (Offers n) self.old) }
        ensures whole { IfOk result (λ n. n ≢ 0 → ∥ AreWholeLines self.old.waiting n ∥₁) }
        ensures fell { OnErr result (self.new ≡ fallen self.old) }
    {
        self.client.offer()
    }

    /// Whether something of what it is owed can be sent ([`Client::can_send`]).
    pub fn can_send(&self) -> bool {
        self.client.can_send()
    }

    /// Sends the first of what is in its ring, by one write ([`Client::pump`]).
    pub fn pump(&mut self) -> Result<(), Halt>
        ensures { self.new ≡ self.old }
    {
        self.client.pump()
    }
}
