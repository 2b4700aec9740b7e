//! The accounts of a node.
ghost use Rattle.std.specs.Prelude.{◌≡◌, ℕ, None, IfSome, length, slice_get};
ghost use Rattle.std.specs.Option.{option_copied};
ghost use Rattle.network_log.specs.Accounts.{IsLogin};
ghost use Rattle.node_ports.specs.Places as spec;

use cluster_directory::{Directory, SessionConfig};
use std::marker::Model;

/// The accounts of a node and their networks, as its configuration has them. They never change, and all workers share them.
#[derive(Drop)]
pub struct Accounts {
    directory: Directory,
    networks: Vec<SessionConfig>,
}

impl Model for Accounts {
    ghost use Rattle.network_log.specs.Accounts as spec;

    ghost Value = { spec.Accounts };

    ghost view = { λ a. record { directory = a.directory; networks = a.networks.items } };
}

// Whether it is that network of that account.
fn is_of(config: &SessionConfig, account: &[u8], network: &[u8]) -> bool
    ensures { result ≡ spec.is_of account.now network.now config.now }
{
    config.account.as_bytes() == account && config.network.as_bytes() == network
}

impl Accounts {
    /// The accounts with their secrets and networks, none of which is up, and how each network is configured.
    pub fn new(directory: Directory, networks: Vec<SessionConfig>) -> Accounts
        ensures { result ≡ record { directory = directory; networks = networks.items } }
    {
        Accounts {
            directory,
            networks,
        }
    }

    /// The accounts with their secrets and networks, none of which is up.
    pub fn directory(&self) -> &Directory
        ensures { result.now ≡ self.now.directory }
    {
        &self.directory
    }

    /// How many networks there are.
    pub fn count(&self) -> usize
        ensures { result ≡ length self.now.networks }
    {
        self.networks.len()
    }

    /// How the network at that place is configured, where there is one.
    pub fn network(&self, place: usize) -> Option<&SessionConfig>
        ensures { option_copied result ≡ slice_get self.now.networks place }
    {
        self.networks.get(place)
    }

    /// The place of that network of that account, the first of that name.
    pub fn place_of(&self, account: &[u8], network: &[u8]) -> Option<usize>
        ensures { result ≡ spec.place_of self.now account.now network.now }
    {
        self.networks
            .iter()
            .position(|config| is_of(config, account, network))
    }

    /// The place of that network of that account, for whoever knows the account's secret. To others nothing tells which of the
    /// three was wrong ([`Directory::entry_by_secret`]).
    pub fn login(&self, account: &[u8], network: &[u8], secret: &[u8]) -> Option<usize>
        ensures some { IfSome result (λ place.
            IsLogin self.now place account.now network.now secret.now) }
        ensures none { result ≡ None → (place : ℕ)
            → ¬ IsLogin self.now place account.now network.now secret.now }
    {
        let entry = self.directory().entry_by_secret(account, network, secret);
        if entry.is_none() {
            return None;
        }
        self.place_of(account, network)
    }
}
