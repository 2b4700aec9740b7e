//! The parts of a network.
ghost use Rattle.std.specs.Prelude.{◌≡◌, ◌≢◌, ◌↔◌, IfOk, IsSome, None, [], IsTrue, length};
ghost use Rattle.network_log.specs.NetworkState.{beginning};
ghost use Rattle.hosted_network.specs.Parts.{host_of};
ghost use Rattle.std.specs.Option.{option_copied};

use crate::marks::ToldMarker;
use byte_text::NoMemory;
use cluster_directory::{Directory, Life, SessionConfig};
use network_client::Client;
use network_log::FIRST_SERIAL;
use network_server::{Batch, Server};
use node_ports::{Connection, NetworkView};
use std::alloc::Global;
use std::marker::Model;
use upstream_session::Upstream;

/// The parts of a network. Contracts see them as the network's log has them.
#[derive(Drop)]
pub(crate) struct NetworkParts<'a, C: Connection, V: NetworkView> {
    pub(crate) alloc: Global,
    pub(crate) config: &'a SessionConfig,
    pub(crate) me: &'a Life,
    // the network's own account with the network alone: by this its clients hear
    pub(crate) directory: Directory,
    pub(crate) view: V,
    // how many connections have joined it
    pub(crate) joins: u64,
    // The last session that ended. The next one goes on from its serial number.
    pub(crate) ended: Option<Upstream>,
    pub(crate) server: Option<Server<C>>,
    // what came of the server's lines and isn't put yet
    pub(crate) batch: Batch,
    // about how many bytes a client is told of that
    pub(crate) batch_length: usize,
    // of each buffer the latest that all clients were told
    pub(crate) markers: Vec<ToldMarker>,
    pub(crate) clients: Vec<Client<C>>,
}

impl<'a, C: Connection, V: NetworkView> Model for NetworkParts<'a, C, V> {
    ghost use Rattle.std.specs.Prelude.{◌≡◌};
    ghost use Rattle.network_log.specs.NetworkState.{NetworkState};
    ghost use Rattle.hosted_network.specs.Parts.{host_of, nick_of, serial_of};
    ghost use Rattle.hosted_network.specs.Standing.{HasSomeEntry};

    ghost Value = { NetworkState };

    ghost view = { λ n. record {
      place = V.place n.view;
      config = n.config.now;
      joins = n.joins;
      serial = serial_of n.ended;
      nick = nick_of n.config.now n.ended;
      server = host_of n.server;
      batch = n.batch;
      puts = V.puts n.view;
      held = V.held n.view;
      markers = n.markers.items;
      guests = n.clients.items;
    } };

    ghost invariant = { λ n. (n.me.now ≡ C.facts.terms.me)
        × HasSomeEntry C.facts.accounts.directory n.config.now n.directory };
}

impl<'a, C: Connection, V: NetworkView> NetworkParts<'a, C, V> {
    /// Nobody is there yet. These are the accounts of the node.
    pub(crate) fn new(
        alloc: Global,
        accounts: &Directory,
        config: &'a SessionConfig,
        me: &'a Life,
        view: V,
    ) -> Result<NetworkParts<'a, C, V>, NoMemory>
        requires accounts { accounts.now ≡ C.facts.accounts.directory }
        requires me { me.now ≡ C.facts.terms.me }
        requires none { V.puts view ≡ [] }
        ensures { IfOk result (λ parts.
            parts ≡ beginning (V.place view) config.now (V.held view)) }
    {
        let account = config.account.as_bytes();
        let network = config.network.as_bytes();
        let directory = accounts.alone(alloc, account, network)?;
        Ok(NetworkParts {
            alloc,
            config,
            me,
            directory,
            view,
            joins: 0,
            ended: None,
            server: None,
            batch: Batch::new(alloc),
            batch_length: 0,
            markers: Vec::new(alloc),
            clients: Vec::new(alloc),
        })
    }

    /// Its place among the networks of the node.
    pub(crate) fn place(&self) -> usize
        ensures { result ≡ self.now.place }
    {
        self.view.place()
    }

    /// The serial number of the next id that is made for it, where no server is there.
    pub(crate) fn serial(&self) -> u64
        ensures { result ≡ self.now.serial }
    {
        match &self.ended {
            Some(session) => session.serial(),
            None => FIRST_SERIAL,
        }
    }

    /// How it is configured.
    pub(crate) fn config(&self) -> &SessionConfig
        ensures { result.now ≡ self.now.config }
    {
        self.config
    }

    /// The words by which its server refused the session, or the last one where none is there.
    pub(crate) fn refusal(&self) -> &[u8] {
        if let Some(server) = &self.server {
            return server.session().refusal();
        }
        match &self.ended {
            Some(session) => session.refusal(),
            None => &[],
        }
    }

    /// When its server is given up, unless something comes before. None where no server is there.
    pub(crate) fn silent_at(&self) -> Option<u64>
        ensures { IsSome result ↔ (self.now.server ≢ None) }
    {
        match &self.server {
            Some(server) => Some(server.silent_at()),
            None => None,
        }
    }

    /// Whether a server is there.
    pub(crate) fn has_server(&self) -> bool
        ensures { IsTrue result ↔ (self.now.server ≢ None) }
    {
        self.server.is_some()
    }

    /// Its server, if one is there.
    pub(crate) fn server(&self) -> Option<&Server<C>>
        ensures { host_of (option_copied result) ≡ self.now.server }
    {
        self.server.as_ref()
    }

    /// Bytes may be there that its server sent, or room for bytes.
    pub(crate) fn mark_server(&mut self, is_readable: bool, is_writable: bool)
        ensures { self.new ≡ self.old }
    {
        if let Some(server) = &mut self.server {
            server.mark(is_readable, is_writable);
        }
    }
}
