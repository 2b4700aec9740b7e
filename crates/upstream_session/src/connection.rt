//! What a session with a server keeps.
ghost use Rattle.std.specs.Prelude.{◌≡◌};
ghost use Rattle.upstream_session.specs.MessageOutcome.{after};

use byte_text::Text;
use cluster_directory::{Channels, Entry};
use irc_caps::CapSet;

/// The serial number at which a session ends.
pub(crate) const LAST_SERIAL: u64 = 18_446_744_073_709_551_615;

/// How many other nicks are tried.
pub(crate) const MOST_TRIES: usize = 3;

/// Whose session it is, and of which node: what never changes.
#[derive(Drop)]
pub(crate) struct Home {
    pub(crate) account: Text,
    pub(crate) network: Text,
    pub(crate) user: Text,
    pub(crate) channels: Channels,
    pub(crate) node: Text,
    pub(crate) incarnation: u64,
}

/// A session with a server.
#[derive(Drop)]
pub(crate) struct ServerSession {
    pub(crate) home: Home,
    // of the next id that is made
    pub(crate) serial: u64,
    pub(crate) entry: Entry,
    // the capabilities that the server has offered so far
    pub(crate) offered: CapSet,
    // those that it has acknowledged
    pub(crate) held: CapSet,
    // how many other nicks were tried
    pub(crate) tries: usize,
    pub(crate) is_closed: bool,
}

/// How a session goes on after a message.
#[derive(Clone, Copy)]
pub(crate) enum MessageOutcome {
    Stays,
    /// An id was made, and that is the next serial number.
    Counts(u64),
    Closes,
}

impl ServerSession {
    /// The session goes on so.
    pub(crate) fn go_on(&mut self, outcome: MessageOutcome)
        ensures { self.new ≡ after outcome self.old }
    {
        match outcome {
            MessageOutcome::Stays => {}
            MessageOutcome::Counts(next) => self.serial = next,
            MessageOutcome::Closes => self.is_closed = true,
        }
    }
}
