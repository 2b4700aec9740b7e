//! How the program ends: its status, and what it writes to standard error.
ghost use Rattle.std.specs.Prelude.{◌≡◌};
ghost use Rattle.bnc_keep.specs.Status.{status_of, end_of_file, end_of_words};
ghost use Rattle.bnc_keep.specs.Program.{IsEndOfConfig};

use crate::fault::KeepFault;
use bstr::BStr;
use byte_text::Text;
use node_config::{ConfigFault, NamedFault};
use std::alloc::Global;
use std::fmt;
use std::io::ErrorKind;

const USAGE: &str = "usage: bnc-keep <config>";

/// Why the program ends.
#[derive(Drop)]
pub(crate) enum KeeperEnd<'a> {
    /// The words are no path of a configuration.
    Usage,
    /// There was no memory.
    NoMemory,
    /// The configuration at that path can't be read.
    File(&'a str, ErrorKind),
    /// The configuration is refused.
    Config(NamedFault),
    /// Nothing can be kept in that file.
    Keep(Text, KeepFault),
}

impl KeeperEnd<'_> {
    /// The status that the program ends with.
    pub(crate) fn status(&self) -> u8
        ensures { result ≡ status_of self.now }
    {
        match self {
            KeeperEnd::Usage => 2,
            KeeperEnd::NoMemory => 3,
            KeeperEnd::File(_, _) | KeeperEnd::Keep(_, _) => 4,
            KeeperEnd::Config(_) => 5,
        }
    }

    // The first line on standard error.
    fn text(&self) -> &'static str {
        match self {
            KeeperEnd::Usage => USAGE,
            KeeperEnd::NoMemory => "no memory",
            KeeperEnd::File(_, _) | KeeperEnd::Keep(_, _) => "read or write failed",
            KeeperEnd::Config(_) => "config refused",
        }
    }

    /// The end of a program that can't read its configuration for that reason.
    pub(crate) fn without_file(path: &str, kind: ErrorKind) -> KeeperEnd<'_>
        ensures { result ≡ end_of_file path.entry kind }
    {
        match kind {
            ErrorKind::OutOfMemory => KeeperEnd::NoMemory,
            _ => KeeperEnd::File(path, kind),
        }
    }

    /// The end of a program whose words can't be had: a word that isn't text is no path.
    pub(crate) fn without_words(kind: ErrorKind) -> KeeperEnd<'static>
        ensures { result ≡ end_of_words kind }
    {
        match kind {
            ErrorKind::OutOfMemory => KeeperEnd::NoMemory,
            _ => KeeperEnd::Usage,
        }
    }

    /// The end of a program whose configuration, of these bytes, is refused for that fault.
    pub(crate) fn without_config(
        alloc: Global,
        bytes: &[u8],
        fault: ConfigFault,
    ) -> KeeperEnd<'static>
        ensures { IsEndOfConfig bytes.now fault result }
    {
        match NamedFault::new(alloc, bytes, fault) {
            Ok(named) => KeeperEnd::from(named),
            Err(_) => KeeperEnd::NoMemory,
        }
    }
}

/// What goes to standard error: the first line, and where more is known a second one that says what failed, or what is
/// wrong in the configuration.
impl fmt::Display for KeeperEnd<'_> {
    fn fmt<W: fmt::Write>(&self, f: &mut fmt::Formatter<W>) -> fmt::Result {
        f.write_str(self.text())?;
        match self {
            KeeperEnd::Usage | KeeperEnd::NoMemory => Ok(()),
            KeeperEnd::File(path, ErrorKind::NotFound) => write!(
                f,
                "\ncan't read {path}: no such file"
            ),
            KeeperEnd::File(path, kind) => write!(f, "\ncan't read {path}: {kind}"),
            KeeperEnd::Config(fault) => write!(f, "\n{fault}"),
            KeeperEnd::Keep(file, fault) => write!(f, "\n{}: {fault}", BStr::new(file.as_bytes())),
        }
    }
}

impl From<NamedFault> for KeeperEnd<'_> {
    ghost use Rattle.std.specs.Prelude.{◌≡◌};
    ghost use Rattle.bnc_keep.specs.Status.{end_of_config};

    ghost from_gives = { λ named end. end ≡ end_of_config named.fault named.name };

    fn from(named: NamedFault) -> Self {
        match named.fault {
            ConfigFault::NoMemory => KeeperEnd::NoMemory,
            _ => KeeperEnd::Config(named),
        }
    }
}
