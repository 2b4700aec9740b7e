//! What a node begins with.
ghost use Rattle.std.specs.Prelude.{◌≡◌, ◌++◌, IfOk};
ghost use Rattle.node_config.specs.Beginnings as spec;

use crate::config::Config;
use crate::entries::{AccountConfig, NetworkConfig, PeerConfig};
use byte_text::{NoMemory, copies_of};
use cluster_directory::{ConfiguredAccount, Directory, Entry, Network, NodeName};
use std::alloc::{AllocError, Global};

impl NetworkConfig {
    ghost use Rattle.node_config.specs.Beginnings.{IsCopy};

    /// A copy of a network, for a session with its server.
    pub fn try_clone(&self, alloc: Global) -> Result<NetworkConfig, NoMemory>
        ensures { IfOk result (IsCopy self.now) }
    {
        let account = self.account.try_clone(alloc)?;
        let name = self.name.try_clone(alloc)?;
        let nick = self.nick.try_clone(alloc)?;
        let user = self.user.try_clone(alloc)?;
        let channels = copies_of(alloc, &self.channels)?;
        Ok(NetworkConfig {
            account,
            name,
            address: self.address,
            nick,
            user,
            channels,
        })
    }
}

// A network of the directory, which isn't up.
fn network_of(alloc: Global, network: &NetworkConfig) -> Result<Network, NoMemory>
    ensures { IfOk result (λ made. made ≡ spec.network_of network.now) }
{
    let name = network.name.try_clone(alloc)?;
    let nick = network.nick.try_clone(alloc)?;
    let entry = Entry::new(false, nick, Vec::new(alloc), false);
    Ok(Network::new(name, entry))
}

// Adds those of the networks that are of that account.
fn add_networks(
    alloc: Global,
    made: &mut ConfiguredAccount,
    networks: &[NetworkConfig],
    account: &[u8],
) -> Result<(), NoMemory>
    ensures { IfOk result (λ _. made.new ≡ record made.old {
      networks = made.old.networks ++ spec.networks_of networks.now account.now;
    }) }
{
    for network in networks {
        if network.account.as_bytes() == account {
            made.add(network_of(alloc, network)?)?;
        }
    }
    Ok(())
}

// An account of the directory, with its networks.
fn account_of(
    alloc: Global,
    networks: &[NetworkConfig],
    account: &AccountConfig,
) -> Result<ConfiguredAccount, NoMemory>
    ensures { IfOk result (λ made. made ≡ spec.account_of networks.now account.now) }
{
    let name = account.name.try_clone(alloc)?;
    let secret = account.secret.try_clone(alloc)?;
    let mut made = ConfiguredAccount::new(alloc, name, secret);
    match add_networks(alloc, &mut made, networks, account.name.as_bytes()) {
        Ok(()) => Ok(made),
        Err(NoMemory) => Err(NoMemory),
    }
}

fn directory_of(
    alloc: Global,
    accounts: &[AccountConfig],
    networks: &[NetworkConfig],
) -> Result<Directory, NoMemory>
    ensures { IfOk result (λ made. made ≡ spec.directory_of accounts.now networks.now) }
{
    let mut made = Directory::new(alloc);
    for account in accounts {
        made.add(account_of(alloc, networks, account)?)?;
    }
    Ok(made)
}

fn names_of(alloc: Global, peers: &[PeerConfig]) -> Result<Vec<NodeName>, NoMemory>
    ensures { IfOk result (λ names. names.items ≡ spec.names_of peers.now) }
{
    let mut names = Vec::new(alloc);
    for peer in peers {
        let name = peer.name.try_clone(alloc)?;
        if names.push(name).is_err() {
            return Err(NoMemory);
        }
    }
    Ok(names)
}

impl Config {
    /// The accounts with their secrets and networks, none of which is up yet; the nick of each is the configured one.
    pub fn directory(&self, alloc: Global) -> Result<Directory, NoMemory>
        ensures { IfOk result (λ directory.
            directory ≡ spec.directory_of self.now.accounts.items self.now.networks.items) }
    {
        directory_of(alloc, &self.accounts, &self.networks)
    }

    /// The names of the peers, for the terms of connections with them.
    pub fn peer_names(&self, alloc: Global) -> Result<Vec<NodeName>, NoMemory>
        ensures { IfOk result (λ names. names.items ≡ spec.names_of self.now.peers.items) }
    {
        names_of(alloc, &self.peers)
    }
}
