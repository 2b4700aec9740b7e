//! How the program ends before its work is done: its status, and what it writes to standard error.
ghost use Rattle.std.specs.Prelude.{◌≡◌};
ghost use Rattle.bnc.specs.Status.{status_of, end_of_file, end_of_words};
ghost use Rattle.bnc.specs.Serving.{IsEndOfConfig};

use bnc_server::ReplayFault;
use chat_change::ChangeFault;
use node_config::{ConfigFault, NamedFault};
use node_events::ServeFault;
use std::alloc::Global;
use std::fmt;
use std::io::ErrorKind;

const USAGE: &str = "usage: bnc replay <account> <network> <nick> | bnc serve <config>";

/// Why the program ends before its work is done.
#[derive(Drop)]
pub(crate) enum End<'a> {
    /// The words are no command, or a name is refused.
    Usage,
    /// There was no memory.
    NoMemory,
    /// Standard input or output failed, or a node can take no further change.
    Device,
    /// That file can't be read.
    File(&'a str, ErrorKind),
    /// A node can't begin.
    Node(ServeFault),
    /// A worker of a node failed.
    Worker,
    /// The configuration is refused.
    Config(NamedFault),
}

impl End<'_> {
    /// The status that the program ends with.
    pub(crate) fn status(&self) -> u8
        ensures { result ≡ status_of self.now }
    {
        match self {
            End::Usage => 2,
            End::NoMemory => 3,
            End::Device | End::File(_, _) | End::Node(_) | End::Worker => 4,
            End::Config(_) => 5,
        }
    }

    /// The first line on standard error.
    fn text(&self) -> &'static str {
        match self {
            End::Usage => USAGE,
            End::NoMemory => "no memory",
            End::Device | End::File(_, _) | End::Node(_) | End::Worker => "read or write failed",
            End::Config(_) => "config refused",
        }
    }

    /// The end of a program that can't read that file for that reason.
    pub(crate) fn without_file(path: &str, kind: ErrorKind) -> End<'_>
        ensures { result ≡ end_of_file path.entry kind }
    {
        match kind {
            ErrorKind::OutOfMemory => End::NoMemory,
            _ => End::File(path, kind),
        }
    }

    /// The end of a program whose words can't be had: a word that isn't text is no command.
    pub(crate) fn without_words(kind: ErrorKind) -> End<'static>
        ensures { result ≡ end_of_words kind }
    {
        match kind {
            ErrorKind::OutOfMemory => End::NoMemory,
            _ => End::Usage,
        }
    }

    /// The end of a program whose configuration, of these bytes, is refused for that fault.
    pub(crate) fn without_config(alloc: Global, bytes: &[u8], fault: ConfigFault) -> End<'static>
        ensures { IsEndOfConfig bytes.now fault result }
    {
        match NamedFault::new(alloc, bytes, fault) {
            Ok(named) => End::from(named),
            Err(_) => End::NoMemory,
        }
    }
}

/// What goes to standard error: the first line, and where more is known a second one that says what failed, or what is
/// wrong in the configuration.
impl fmt::Display for End<'_> {
    fn fmt<W: fmt::Write>(&self, f: &mut fmt::Formatter<W>) -> Result<(), fmt::Error> {
        f.write_str(self.text())?;
        match self {
            End::Usage | End::NoMemory | End::Device => Ok(()),
            End::File(path, ErrorKind::NotFound) => write!(f, "\ncan't read {path}: no such file"),
            End::File(path, kind) => write!(f, "\ncan't read {path}: {kind}"),
            End::Node(fault) => write!(f, "\n{fault}"),
            End::Worker => f.write_str("\na worker failed"),
            End::Config(fault) => write!(f, "\n{fault}"),
        }
    }
}

impl From<ChangeFault> for End<'_> {
    ghost use Rattle.std.specs.Prelude.{◌≡◌};
    ghost use Rattle.bnc.specs.Status.{end_of_names};

    ghost from_gives = { λ fault end. end ≡ end_of_names fault };

    fn from(fault: ChangeFault) -> Self {
        match fault {
            ChangeFault::NoMemory => End::NoMemory,
            _ => End::Usage,
        }
    }
}

impl From<ReplayFault> for End<'_> {
    ghost use Rattle.std.specs.Prelude.{◌≡◌};
    ghost use Rattle.bnc.specs.Status.{end_of_replay};

    ghost from_gives = { λ fault end. end ≡ end_of_replay fault };

    fn from(fault: ReplayFault) -> Self {
        match fault {
            ReplayFault::NoMemory => End::NoMemory,
            ReplayFault::Read | ReplayFault::Write => End::Device,
        }
    }
}

impl From<ServeFault> for End<'_> {
    ghost use Rattle.std.specs.Prelude.{◌≡◌};
    ghost use Rattle.bnc.specs.Status.{end_of_fault};

    ghost from_gives = { λ fault end. end ≡ end_of_fault fault };

    fn from(fault: ServeFault) -> Self {
        match fault {
            ServeFault::NoMemory => End::NoMemory,
            _ => End::Node(fault),
        }
    }
}

impl From<NamedFault> for End<'_> {
    ghost use Rattle.std.specs.Prelude.{◌≡◌};
    ghost use Rattle.bnc.specs.Status.{end_of_config};

    ghost from_gives = { λ named end. end ≡ end_of_config named.fault named.name };

    fn from(named: NamedFault) -> Self {
        match named.fault {
            ConfigFault::NoMemory => End::NoMemory,
            _ => End::Config(named),
        }
    }
}
