//! Accounts of the cluster.
ghost use Rattle.std.specs.Prelude.{◌≡◌, ◌<◌, ◌++◌, ◌∷◌, [], length, position, IfOk, IfSome, OnErr};
ghost use Rattle.std.specs.List.{find};
ghost use Rattle.std.specs.Option.{option_copied};
ghost use Rattle.std.specs.Str.{bytes_eq};
ghost use Rattle.cluster_directory.specs.Directory as spec;

use crate::entry::Entry;
use crate::network::Network;
use crate::secret::Secret;
use byte_text::{NoMemory, Text};
use std::alloc::Global;
use std::marker::Model;

/// An account of the cluster, with its secret and its networks.
#[derive(Drop)]
pub struct ConfiguredAccount {
    name: Text,
    secret: Secret,
    networks: Vec<Network>,
}

impl Model for ConfiguredAccount {
    ghost use Rattle.cluster_directory.specs.Directory as spec;

    ghost Value = { spec.Account };

    ghost view = { λ a. record { name = a.name; secret = a.secret; networks = a.networks.items } };
}

// A copy of the network, as a list.
fn copy_of(alloc: Global, network: &Network) -> Result<Vec<Network>, NoMemory>
    ensures { IfOk result (λ networks. networks.items ≡ network.now ∷ []) }
{
    let mut networks = Vec::new(alloc);
    match networks.push(network.try_clone(alloc)?) {
        Ok(()) => Ok(networks),
        Err(_) => Err(NoMemory),
    }
}

impl ConfiguredAccount {
    /// An account of that name and with that secret, which has no network yet.
    pub fn new(alloc: Global, name: Text, secret: Text) -> ConfiguredAccount
        ensures { result ≡ record { name = name; secret = secret; networks = [] } }
    {
        ConfiguredAccount {
            name,
            secret: Secret::of(secret),
            networks: Vec::new(alloc),
        }
    }

    /// The account has one network more. For want of memory nothing changes.
    pub fn add(&mut self, network: Network) -> Result<(), NoMemory>
        ensures added { IfOk result (λ _.
            self.new ≡ record self.old { networks = self.old.networks ++ network ∷ [] }) }
        ensures err { OnErr result (self.new ≡ self.old) }
    {
        match self.networks.push(network) {
            Ok(()) => Ok(()),
            Err(_) => Err(NoMemory),
        }
    }

    /// The name.
    pub fn name(&self) -> &[u8]
        ensures { result.now ≡ self.now.name }
    {
        self.name.as_bytes()
    }

    /// The networks, in the order in which they were added.
    pub fn networks(&self) -> &[Network]
        ensures { result.now ≡ self.now.networks }
    {
        &self.networks
    }

    /// Whether this is the secret of the account.
    pub(crate) fn has_secret(&self, given: &[u8]) -> bool
        ensures { result ≡ bytes_eq self.now.secret given.now }
    {
        self.secret.is_same(given)
    }

    pub(crate) fn has_name(&self, name: &[u8]) -> bool
        ensures { result ≡ bytes_eq self.now.name name.now }
    {
        self.name.as_bytes() == name
    }

    fn network(&self, name: &[u8]) -> Option<&Network>
        ensures { option_copied result ≡ spec.network_in self.now.networks name.now }
    {
        self.networks.iter().find(|n| n.has_name(name))
    }

    fn index_of(&self, network: &[u8]) -> Option<usize>
        ensures place { result ≡ position (λ n. bytes_eq n.name network.now) self.now.networks }
        ensures within { IfSome result (λ at. at < length self.now.networks) }
    {
        self.networks.iter().position(|n| n.has_name(network))
    }

    /// The account with that network alone, or with none where that isn't one of its own.
    pub(crate) fn alone(&self, alloc: Global, network: &[u8]) -> Result<ConfiguredAccount, NoMemory>
        ensures { IfOk result (λ alone. alone ≡ spec.account_alone self.now network.now) }
    {
        let name = self.name.try_clone(alloc)?;
        let secret = self.secret.try_clone(alloc)?;
        let networks = match self.network(network) {
            None => Vec::new(alloc),
            Some(found) => copy_of(alloc, found)?,
        };
        Ok(ConfiguredAccount {
            name,
            secret,
            networks,
        })
    }

    /// How the session with the server of that network stands.
    pub fn entry(&self, network: &[u8]) -> Option<&Entry>
        ensures { option_copied result ≡ spec.entry_of self.now network.now }
    {
        match self.network(network) {
            None => None,
            Some(found) => Some(found.entry()),
        }
    }

    /// The session with the server of that network stands so now. Nothing changes where the account has no such network.
    pub fn set_entry(&mut self, network: &[u8], entry: Entry)
        ensures { self.new ≡ spec.account_with self.old network.now entry }
    {
        match self.index_of(network) {
            None => drop(entry),
            Some(at) => self.networks[at].set_entry(entry),
        }
    }
}
