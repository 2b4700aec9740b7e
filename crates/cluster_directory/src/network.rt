//! Networks of an account.
ghost use Rattle.std.specs.Prelude.{◌≡◌, IfOk};
ghost use Rattle.std.specs.Str.{bytes_eq};
ghost use Rattle.cluster_directory.specs.Directory as spec;

use crate::entry::Entry;
use byte_text::{NoMemory, Text};
use std::alloc::Global;
use std::marker::Model;

/// A network of an account, by its name.
#[derive(Drop)]
pub struct Network {
    name: Text,
    entry: Entry,
}

impl Model for Network {
    ghost use Rattle.cluster_directory.specs.Directory as spec;

    ghost Value = { spec.Network };

    ghost view = { λ n. record { name = n.name; entry = n.entry } };
}

impl Network {
    /// A network of that name, which stands so.
    pub fn new(name: Text, entry: Entry) -> Network
        ensures { result ≡ record { name = name; entry = entry } }
    {
        Network { name, entry }
    }

    /// The name.
    pub fn name(&self) -> &[u8]
        ensures { result.now ≡ self.now.name }
    {
        self.name.as_bytes()
    }

    /// How the session with the network's server stands.
    pub fn entry(&self) -> &Entry
        ensures { result.now ≡ self.now.entry }
    {
        &self.entry
    }

    /// The session with the network's server stands so now.
    pub fn set_entry(&mut self, entry: Entry)
        ensures { self.new ≡ record self.old { entry = entry } }
    {
        self.entry = entry;
    }

    /// An equal network.
    pub(crate) fn try_clone(&self, alloc: Global) -> Result<Network, NoMemory>
        ensures { IfOk result (λ copy. copy ≡ self.now) }
    {
        let name = self.name.try_clone(alloc)?;
        Ok(Network {
            name,
            entry: self.entry.try_clone(alloc)?,
        })
    }

    pub(crate) fn has_name(&self, name: &[u8]) -> bool
        ensures { result ≡ bytes_eq self.now.name name.now }
    {
        self.name.as_bytes() == name
    }
}
