//! How a session stood before a line.
ghost use Rattle.std.specs.Prelude.{◌≡◌, ◌&&◌, not, length, nat_lt, OnOk};
ghost use Rattle.std.specs.Str.{bytes_eq};
ghost use Rattle.network_server.specs.Standing.{IsNoted};

use byte_text::NoMemory;
use cluster_directory::Entry;
use std::alloc::Global;

/// How a session stood before a line: whether the network was up, its nick, and in how many channels the session was. The room for
/// the nick serves all lines.
#[derive(Drop)]
pub(crate) struct Standing {
    is_up: bool,
    nick: Vec<u8>,
    channels: usize,
}

impl Standing {
    /// Nothing was noted yet. It takes no memory.
    pub(crate) fn new(alloc: Global) -> Standing {
        Standing {
            is_up: false,
            nick: Vec::new(alloc),
            channels: 0,
        }
    }

    /// Notes how a session stands.
    pub(crate) fn note(&mut self, entry: &Entry) -> Result<(), NoMemory>
        ensures { OnOk result (IsNoted self.new entry.now) }
    {
        self.is_up = entry.is_up();
        self.channels = entry.channels().len();
        self.nick.clear();
        Ok(self.nick.extend_from_slice(entry.nick())?)
    }

    /// Whether the network is up now, and wasn't up under that nick before.
    pub(crate) fn is_renamed(&self, now: &Entry) -> bool
        ensures { result ≡ (now.now.is_up
            && not (self.now.is_up && bytes_eq self.now.nick.items now.now.nick)) }
    {
        now.is_up() && !(self.is_up && self.nick.as_slice() == now.nick())
    }

    /// Whether the session is in more channels now.
    pub(crate) fn has_entered(&self, now: &Entry) -> bool
        ensures { result ≡ nat_lt self.now.channels (length now.now.channels) }
    {
        self.channels < now.channels().len()
    }
}
