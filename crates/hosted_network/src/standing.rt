//! The accounts by which a network hears its clients: its own account, with its own network alone, as that stands.
ghost use Rattle.std.specs.Prelude.{◌≡◌, true, IfOk, OnOk};
ghost use Rattle.cluster_directory.specs.Directory.{Directory as Accounts, alone, directory_with};
ghost use Rattle.cluster_directory.specs.Entry.{Entry as State};
ghost use Rattle.network_log.specs.NetworkState.{entry_by, entry_of};
ghost use Rattle.hosted_network.specs.Parts.{host_of, nick_of};
ghost use Rattle.hosted_network.specs.Standing.{HasSomeEntry, IsAs, StandsSo};

use crate::parts::NetworkParts;
use byte_text::{NoMemory, Text};
use cluster_directory::{Directory, Entry, SessionConfig};
use network_server::Server;
use node_ports::{Connection, NetworkView};
use std::alloc::Global;
use upstream_session::Upstream;

/// How a network stands, but for its channels.
#[derive(Clone, Copy)]
pub(crate) struct NetworkStanding<'s> {
    pub(crate) is_up: bool,
    pub(crate) nick: &'s [u8],
    pub(crate) takes_redact: bool,
}

impl NetworkStanding<'_> {
    // Whether the entry says so.
    fn is_entry(&self, entry: &Entry) -> bool
        ensures { result ≡ true → IsAs self.now entry.now }
    {
        entry.is_up() == self.is_up
            && entry.takes_redact() == self.takes_redact
            && entry.nick() == self.nick
    }

    // The entry that says so, with no channels.
    fn entry(&self, alloc: Global) -> Result<Entry, NoMemory>
        ensures { IfOk result (λ entry. IsAs self.now entry) }
    {
        let nick = Text::new(alloc, self.nick)?;
        Ok(Entry::new(self.is_up, nick, Vec::new(alloc), self.takes_redact))
    }
}

/// The present nick of a network that is configured so, by its server or else by the last session that ended.
pub(crate) fn nick_in<'s, C: Connection>(
    config: &'s SessionConfig,
    server: &'s Option<Server<C>>,
    ended: &'s Option<Upstream>,
) -> &'s [u8]
    ensures { result.now ≡ (entry_by (nick_of config.now ended.now) (host_of server.now)).nick }
{
    if let Some(server) = server {
        return server.session().entry().nick();
    }
    match ended {
        Some(session) => session.entry().nick(),
        None => config.nick.as_bytes(),
    }
}

/// Sets the entry of that network in a directory to how it stands, but for its channels. For want of memory the directory stays as it
/// is.
pub(crate) fn refresh(
    alloc: Global,
    config: &SessionConfig,
    standing: &NetworkStanding<'_>,
    directory: &mut Directory,
) -> Result<(), NoMemory>
    ensures so { OnOk result ((accounts : Accounts) (entry : State)
        → HasSomeEntry accounts config.now directory.old → IsAs standing.now entry
        → StandsSo accounts config.now entry directory.new) }
    ensures some { (accounts : Accounts) → HasSomeEntry accounts config.now directory.old
        → HasSomeEntry accounts config.now directory.new }
{
    let account = config.account.as_bytes();
    let network = config.network.as_bytes();
    if let Some(entry) = directory.entry(account, network) {
        if standing.is_entry(entry) {
            return Ok(());
        }
    }
    let entry = standing.entry(alloc)?;
    directory.set_entry(account, network, entry);
    Ok(())
}

impl<'a, C: Connection, V: NetworkView> NetworkParts<'a, C, V> {
    /// Whether its server has welcomed the session.
    pub(crate) fn is_up(&self) -> bool
        ensures { result ≡ (entry_of self.now).is_up }
    {
        match &self.server {
            Some(server) => server.session().entry().is_up(),
            None => false,
        }
    }

    /// The present nick.
    pub(crate) fn nick(&self) -> &[u8]
        ensures { result.now ≡ (entry_of self.now).nick }
    {
        nick_in(self.config, &self.server, &self.ended)
    }

    /// Whether its server has `draft/message-redaction`.
    pub(crate) fn takes_redact(&self) -> bool
        ensures { result ≡ (entry_of self.now).takes_redact }
    {
        match &self.server {
            Some(server) => server.session().entry().takes_redact(),
            None => false,
        }
    }

    // How it stands.
    fn entry(&self) -> Result<Entry, NoMemory>
        ensures { IfOk result (λ entry. entry ≡ entry_of self.now) }
    {
        if let Some(server) = &self.server {
            return server.session().entry().try_clone(self.alloc);
        }
        let nick = Text::new(self.alloc, self.nick())?;
        Ok(Entry::new(false, nick, Vec::new(self.alloc), false))
    }

    /// The network's account with the network alone, out of these accounts, as the network stands.
    pub(crate) fn own_directory(&self, accounts: &Directory) -> Result<Directory, NoMemory>
        ensures { IfOk result (λ directory. directory ≡ directory_with
            (alone accounts.now self.now.config.account self.now.config.network)
            self.now.config.account self.now.config.network (entry_of self.now)) }
    {
        let account = self.config.account.as_bytes();
        let network = self.config.network.as_bytes();
        let mut directory = accounts.alone(self.alloc, account, network)?;
        directory.set_entry(account, network, self.entry()?);
        Ok(directory)
    }
}
