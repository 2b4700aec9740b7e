//! A network as one value.
ghost use Rattle.std.specs.Prelude.{◌≡◌, ◌≢◌, ◌+◌, ◌-◌, ◌^◌, ◌↔◌, ◌⊎◌, [], Err, None, Some, IfOk, IsSome, IsTrue, is_some, min, not, slice_get, true, false};
ghost use Rattle.network_log.specs.Log.{ServerComes, step, without_server};
ghost use Rattle.network_log.specs.NetworkState.{beginning, entry_of};
ghost use Rattle.network_log.specs.Truth.{Leads};
ghost use Rattle.network_server.specs.Waiting.{IsDue};
ghost use Rattle.network_log.specs.declared.origin.Origin.TheVariants.{NetworkDialed};
ghost use Rattle.network_server.specs.declared.retry.TheConstants.{RETRY};
ghost use Rattle.hosted_network.specs.Parts.{host_of};
ghost use Rattle.std.specs.Option.{option_copied};
ghost use Rattle.hosted_network.specs.Turns.{has_ended};
ghost use Rattle.hosted_network.specs.declared.network.NoHost.TheVariants as no_host;
ghost use Rattle.hosted_network.specs.declared.network.ServerTurn.TheVariants as turn;

use crate::parts::NetworkParts;
use crate::server_turns::{ServerEnd, Step, TurnTime};
use cluster_directory::{Life, SessionConfig};
use network_server::{Retry, Server};
use node_ports::{Accounts, Connection, Fresh, NetworkView, NodePass, Origin};
use std::alloc::Global;
use std::marker::Model;

/// What a turn of a network's server came to.
#[derive(Clone, Copy, Debug, PartialEq, Eq)]
pub enum ServerTurn {
    /// There may be more to do at once.
    Again,
    /// There may be more to do once there is memory.
    Later,
    /// There is nothing more before the port tells something, or a deadline comes.
    Rest,
    /// The connection is closed, and is dialed again later.
    Over(ServerEnd),
}

/// Why a network can't be served.
#[derive(Clone, Copy, Debug, PartialEq, Eq)]
pub enum NoHost {
    /// There was no memory.
    NoMemory,
    /// The accounts have no network at that place.
    NoNetwork,
}

/// A network at the worker that serves it: its server, its clients, and what it has seen of the node. At every moment some log, which
/// says only what is so, leads to what it is.
#[derive(Drop)]
pub struct HostedNetwork<'a, C: Connection, V: NetworkView> {
    pub(crate) parts: NetworkParts<'a, C, V>,
    retry: Retry,
}

impl<'a, C: Connection, V: NetworkView> Model for HostedNetwork<'a, C, V> {
    ghost use Rattle.network_log.specs.Truth.{IsReached};
    ghost use Rattle.hosted_network.specs.Parts.{Hosted};

    ghost Value = { Hosted };

    ghost view = { λ h. record { network = h.parts; retry = h.retry } };

    ghost invariant = { λ h. ∥ IsReached C.facts h.parts ∥₁ };
}

impl<'a, C: Connection, V: NetworkView> HostedNetwork<'a, C, V> {
    /// The network at the view's place, where nobody is yet. Its server is to be dialed at once.
    pub fn new(
        alloc: Global,
        accounts: &'a Accounts,
        me: &'a Life,
        view: V,
        now: u64,
    ) -> Result<HostedNetwork<'a, C, V>, NoHost>
        requires accounts { accounts.now ≡ C.facts.accounts }
        requires me { me.now ≡ C.facts.terms.me }
        requires none { V.puts view ≡ [] }
        requires held { ∥ C.facts.held (V.held view) ∥₁ }
        ensures network { IfOk result (λ hosted. hosted.network
            ≡ beginning (V.place view) hosted.network.config (V.held view)) }
        ensures retry { IfOk result (λ hosted. hosted.retry ≡ Some now) }
        ensures none { (result ≡ Err no_host.NoNetwork)
            ↔ (slice_get accounts.now.networks (V.place view) ≡ None) }
    {
        let Some(config) = accounts.network(view.place()) else {
            return Err(NoHost::NoNetwork);
        };
        let Ok(parts) = NetworkParts::new(alloc, accounts.directory(), config, me, view) else {
            return Err(NoHost::NoMemory);
        };
        Ok(HostedNetwork {
            parts,
            retry: Retry::new(now),
        })
    }

    /// Its place among the networks of the node.
    pub fn place(&self) -> usize
        ensures { result ≡ self.now.network.place }
    {
        self.parts.place()
    }

    /// How it is configured.
    pub fn config(&self) -> &SessionConfig
        ensures { result.now ≡ self.now.network.config }
    {
        self.parts.config()
    }

    /// Whether its server has welcomed the session.
    pub fn is_up(&self) -> bool
        ensures { result ≡ (entry_of self.now.network).is_up }
    {
        self.parts.is_up()
    }

    /// Its present nick.
    pub fn nick(&self) -> &[u8]
        ensures { result.now ≡ (entry_of self.now.network).nick }
    {
        self.parts.nick()
    }

    /// The words by which the server refused the session, or the last one where no server is there. Empty where it said nothing of the
    /// kind.
    pub fn refusal(&self) -> &[u8] {
        self.parts.refusal()
    }

    /// When something is to be done for its server, in milliseconds: when it is dialed, where none is there and none is being dialed, or
    /// else when it is given up, unless something comes before.
    pub fn due_at(&self) -> Option<u64>
        ensures dialed { self.now.network.server ≡ None → result ≡ self.now.retry }
        ensures there { self.now.network.server ≢ None → IsSome result }
    {
        match self.parts.silent_at() {
            Some(at) => Some(at),
            None => self.retry.moment(),
        }
    }

    /// Whether a server is there.
    pub fn has_server(&self) -> bool
        ensures { IsTrue result ↔ (self.now.network.server ≢ None) }
    {
        self.parts.has_server()
    }

    /// Its server, if one is there.
    pub fn server(&self) -> Option<&Server<C>>
        ensures { host_of (option_copied result) ≡ self.now.network.server }
    {
        self.parts.server()
    }

    /// What the port tells of the server's connection: bytes may be there, or room for bytes.
    pub fn mark_server(&mut self, is_readable: bool, is_writable: bool)
        ensures { self.new ≡ self.old }
    {
        self.parts.mark_server(is_readable, is_writable);
    }

    /// Whether its server is to be dialed by now. If so, it isn't to be dialed again before that comes to something.
    pub fn take_due(&mut self, now: u64) -> bool
        ensures due { result ≡ true → IsDue self.old.retry now }
        ensures taken { result ≡ true → self.new ≡ record self.old { retry = None } }
        ensures early { result ≡ false → ¬ IsDue self.old.retry now }
        ensures kept { result ≡ false → self.new ≡ self.old }
    {
        self.retry.take_due(now)
    }

    /// Its server could not be reached at that moment: it is dialed some time later.
    pub fn server_unreached(&mut self, now: u64)
        ensures { self.new ≡ record self.old { retry = Some (min (now + RETRY) (2 ^ 64 - 1)) } }
    {
        self.retry.put_off(now);
    }

    /// A connection is there that was dialed for its server, in place of the one before. Where it was dialed for another network, or
    /// for want of memory, it is let go, and the server is dialed some time later. False then.
    pub fn server_comes(&mut self, fresh: Fresh<C>, now: u64) -> bool
        ensures leads { ∥ Leads C.facts self.old.network self.new.network ∥₁ }
        ensures own { result ≡ true
            → C.origin fresh.connection ≡ NetworkDialed self.old.network.place }
        ensures comes { result ≡ true → self.new.network
            ≡ step C.facts (ServerComes (C.serial fresh.connection))
            (without_server self.old.network.server self.old.network) }
        ensures gone { result ≡ false → (self.new.network ≡ self.old.network)
            ⊎ (self.new.network ≡ without_server self.old.network.server self.old.network) }
        ensures kept { result ≡ true → self.new.retry ≡ self.old.retry }
        ensures later { result ≡ false
            → self.new.retry ≡ Some (min (now + RETRY) (2 ^ 64 - 1)) }
    {
        if self.has_come(fresh, now) {
            return true;
        }
        self.retry.put_off(now);
        false
    }

    // The same, but for when it is dialed.
    fn has_come(&mut self, fresh: Fresh<C>, now: u64) -> bool
        ensures leads { ∥ Leads C.facts self.old.network self.new.network ∥₁ }
        ensures own { result ≡ true
            → C.origin fresh.connection ≡ NetworkDialed self.old.network.place }
        ensures comes { result ≡ true → self.new.network
            ≡ step C.facts (ServerComes (C.serial fresh.connection))
            (without_server self.old.network.server self.old.network) }
        ensures gone { result ≡ false → (self.new.network ≡ self.old.network)
            ⊎ (self.new.network ≡ without_server self.old.network.server self.old.network) }
        ensures kept { self.new.retry ≡ self.old.retry }
    {
        if fresh.connection.origin() != Origin::NetworkDialed(self.parts.place()) {
            return false;
        }
        self.parts.server_comes(fresh, now)
    }

    /// The server has its turn: what came of it is heard, so many lines at most, what comes of them is put by one call and only then
    /// told to each client, and what is owed to the server goes out. Where the connection is over, it is closed, and the server is
    /// dialed some time later. Where no server is there nothing changes.
    pub fn server_turn<N: NodePass<Connection = C, View = V>>(
        &mut self,
        pass: &mut N,
        chunk: &mut [u8],
        time: TurnTime,
    ) -> ServerTurn
        requires { ∥ C.facts.clock time.moment ∥₁ }
        ensures leads { ∥ Leads C.facts self.old.network self.new.network ∥₁ }
        ensures none { self.old.network.server ≡ None
            → (result ≡ turn.Rest) × (self.new ≡ self.old) }
        ensures put { self.old.network.server ≢ None → self.new.network.batch ≡ [] }
        ensures over { self.old.network.server ≢ None
            → is_some self.new.network.server ≡ not (has_ended result) }
        ensures later { has_ended result ≡ true
            → self.new.retry ≡ Some (min (time.now + RETRY) (2 ^ 64 - 1)) }
        ensures kept { has_ended result ≡ false → self.new.retry ≡ self.old.retry }
    {
        if !self.has_server() {
            return ServerTurn::Rest;
        }
        let now = time.now;
        match self.parts.server_turn(pass, chunk, time) {
            Step::Again => ServerTurn::Again,
            Step::Later => ServerTurn::Later,
            Step::Rest => ServerTurn::Rest,
            Step::Over(end) => {
                self.retry.put_off(now);
                ServerTurn::Over(end)
            }
        }
    }
}
