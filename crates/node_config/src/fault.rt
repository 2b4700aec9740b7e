//! Why a configuration is refused.
ghost use Rattle.std.specs.Prelude.{◌≡◌};
ghost use Rattle.node_config.specs.Sections.{key_of};

use crate::allowed::Allowed;
use crate::keys::keys_of;
use std::alloc::AllocError;
use std::fmt;
use thiserror::Error;

/// A list of the configuration.
#[derive(Clone, Copy, Debug, PartialEq, Eq)]
pub enum ListName {
    /// `peer`, the other nodes.
    Peers,
    /// `account`.
    Accounts,
    /// `network`.
    Networks,
}

impl ListName {
    /// The key of the list.
    pub fn as_str(self) -> &'static str
        ensures { result.now ≡ key_of self }
    {
        match self {
            ListName::Peers => "peer",
            ListName::Accounts => "account",
            ListName::Networks => "network",
        }
    }
}

/// A table of the configuration.
#[derive(Clone, Copy, Debug, PartialEq, Eq)]
pub enum ConfigPlace {
    /// The whole.
    Top,
    /// The whole of a keeper's configuration.
    Keeper,
    /// An entry of a list. Entries are counted from 1.
    Entry(ListName, usize),
}

/// What is wrong: where, at which key, and what is allowed there. Where no key is named, the table itself is wrong.
#[derive(Clone, Copy, Debug, PartialEq, Eq)]
pub struct Wrong {
    /// The table.
    pub place: ConfigPlace,
    /// The key in it.
    pub key: Option<&'static str>,
    /// What is allowed there.
    pub allowed: Allowed,
}

/// Why a configuration is refused. Each is looked for in the whole before the next.
#[derive(Clone, Copy, Debug, PartialEq, Eq, Error)]
pub enum ConfigFault {
    /// It isn't UTF-8, or isn't TOML; the line is counted from 1.
    #[error("line {0}: not a TOML text")]
    BadText(usize),
    /// A key is missing, or isn't known.
    #[error("{0}")]
    BadKey(Wrong),
    /// A value is of another type, or isn't allowed.
    #[error("{0}")]
    BadValue(Wrong),
    /// There was no memory.
    #[error("no memory")]
    NoMemory,
}

/// Why a value isn't read.
#[derive(Clone, Copy)]
pub(crate) enum ValueFault {
    Wrong(Wrong),
    NoMemory,
}

impl From<AllocError> for ValueFault {
    fn from(_: AllocError) -> ValueFault {
        ValueFault::NoMemory
    }
}

impl fmt::Display for ConfigPlace {
    fn fmt<W: fmt::Write>(&self, f: &mut fmt::Formatter<W>) -> Result<(), fmt::Error> {
        match *self {
            ConfigPlace::Top | ConfigPlace::Keeper => f.write_str("top level"),
            ConfigPlace::Entry(list, entry) => write!(f, "{} {entry}", list.as_str()),
        }
    }
}

impl fmt::Display for Wrong {
    fn fmt<W: fmt::Write>(&self, f: &mut fmt::Formatter<W>) -> Result<(), fmt::Error> {
        write_wrong(f, self, None)
    }
}

/// Writes what is wrong, with the name of the entry that it is in behind the entry's number, where one is given.
pub(crate) fn write_wrong<W: fmt::Write>(
    f: &mut fmt::Formatter<W>,
    wrong: &Wrong,
    name: Option<&str>,
) -> Result<(), fmt::Error> {
    write_place(f, wrong, name)?;
    match wrong.allowed {
        Allowed::KnownKeys => write_known(f, wrong.place),
        allowed => write!(f, "{allowed}"),
    }
}

// Which table is wrong, and at which key. A key of the top level stands alone.
fn write_place<W: fmt::Write>(
    f: &mut fmt::Formatter<W>,
    wrong: &Wrong,
    name: Option<&str>,
) -> Result<(), fmt::Error> {
    match (wrong.place, wrong.key) {
        (ConfigPlace::Top | ConfigPlace::Keeper, Some(key)) => return write!(f, "{key}: "),
        (place, _) => write!(f, "{place}")?,
    }
    if let Some(name) = name {
        write!(f, " ({name})")?;
    }
    if let Some(key) = wrong.key {
        write!(f, ", {key}")?;
    }
    f.write_str(": ")
}

// Which keys a table may have.
fn write_known<W: fmt::Write>(
    f: &mut fmt::Formatter<W>,
    place: ConfigPlace,
) -> Result<(), fmt::Error> {
    let keys = keys_of(place);
    f.write_str("no keys but ")?;
    for (i, key) in keys.wanted.iter().enumerate() {
        if i > 0 {
            f.write_str(", ")?;
        }
        f.write_str(key)?;
    }
    for key in keys.allowed {
        write!(f, ", {key}")?;
    }
    Ok(())
}
