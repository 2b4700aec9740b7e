//! The accounts of the cluster at one moment.
ghost use Rattle.std.specs.Prelude.{◌≡◌, ◌<◌, ◌++◌, ◌∷◌, [], length, position, IfOk, IfSome, OnErr};
ghost use Rattle.std.specs.Option.{option_copied};
ghost use Rattle.std.specs.Str.{bytes_eq};
ghost use Rattle.cluster_directory.specs.Directory as spec;

use crate::account::ConfiguredAccount;
use crate::entry::Entry;
use byte_text::NoMemory;
use std::alloc::Global;
use std::marker::Model;

/// The accounts of the cluster, with the networks of each, as they stand at one moment.
pub struct Directory {
    accounts: Vec<ConfiguredAccount>,
}

// Written out, so that this is proved once, and not in each crate that lets a directory go.
impl Drop for Directory {
    fn drop(self) {
        let Self {
            accounts: _accounts,
        } = self;
    }
}

impl Model for Directory {
    ghost use Rattle.cluster_directory.specs.Directory as spec;

    ghost Value = { spec.Directory };

    ghost view = { λ d. d.accounts.items };
}

impl Directory {
    /// A directory that has no account yet.
    pub fn new(alloc: Global) -> Directory
        ensures { result ≡ [] }
    {
        Directory {
            accounts: Vec::new(alloc),
        }
    }

    /// The directory has one account more. For want of memory nothing changes.
    pub fn add(&mut self, account: ConfiguredAccount) -> Result<(), NoMemory>
        ensures added { IfOk result (λ _. self.new ≡ self.old ++ account ∷ []) }
        ensures err { OnErr result (self.new ≡ self.old) }
    {
        match self.accounts.push(account) {
            Ok(()) => Ok(()),
            Err(_) => Err(NoMemory),
        }
    }

    /// The accounts, in the order in which they were added.
    pub fn accounts(&self) -> &[ConfiguredAccount]
        ensures { result.now ≡ self.now }
    {
        &self.accounts
    }

    fn account(&self, name: &[u8]) -> Option<&ConfiguredAccount>
        ensures { option_copied result ≡ spec.account_in self.now name.now }
    {
        self.accounts.iter().find(|a| a.has_name(name))
    }

    fn index_of(&self, account: &[u8]) -> Option<usize>
        ensures place { result ≡ position (λ a. bytes_eq a.name account.now) self.now }
        ensures within { IfSome result (λ at. at < length self.now) }
    {
        self.accounts.iter().position(|a| a.has_name(account))
    }

    /// How the session of that account with the server of that network stands.
    pub fn entry(&self, account: &[u8], network: &[u8]) -> Option<&Entry>
        ensures { option_copied result ≡ spec.entry_in self.now account.now network.now }
    {
        match self.account(account) {
            None => None,
            Some(found) => found.entry(network),
        }
    }

    /// The same, for whoever knows the account's secret. To others nothing tells which of the three was wrong.
    ///
    /// Before the secret is compared only the account is looked up, by its name, and the network only after that: so the
    /// refusal of a wrong secret takes as long whatever network is named.
    pub fn entry_by_secret(&self, account: &[u8], network: &[u8], secret: &[u8]) -> Option<&Entry>
        ensures { option_copied result
            ≡ spec.entry_by_secret self.now account.now network.now secret.now }
    {
        match self.account(account) {
            None => None,
            Some(found) => {
                if found.has_secret(secret) {
                    found.entry(network)
                } else {
                    None
                }
            }
        }
    }

    /// That account alone, with that network alone, as far as they are there.
    pub fn alone(
        &self,
        alloc: Global,
        account: &[u8],
        network: &[u8],
    ) -> Result<Directory, NoMemory>
        ensures { IfOk result (λ alone.
            alone ≡ spec.alone self.now account.now network.now) }
    {
        let mut alone = Directory::new(alloc);
        if let Some(found) = self.account(account) {
            alone.add(found.alone(alloc, network)?)?;
        }
        Ok(alone)
    }

    /// The session of that account with the server of that network stands so now. Nothing changes where there is no such
    /// network.
    pub fn set_entry(&mut self, account: &[u8], network: &[u8], entry: Entry)
        ensures { self.new ≡ spec.directory_with self.old account.now network.now entry }
    {
        match self.index_of(account) {
            None => drop(entry),
            Some(at) => self.accounts[at].set_entry(network, entry),
        }
    }
}
