//! What is allowed at a key.

use std::fmt::{Display, Error, Formatter, Write};

/// What is allowed at a key, or in an entry of a list.
#[derive(Clone, Copy, Debug, PartialEq, Eq)]
pub enum Allowed {
    /// The key has to be there.
    Present,
    /// No keys but those that are known.
    KnownKeys,
    /// A number in this range, both ends among it.
    Number(u32, u32),
    /// An IP address and a port.
    Address,
    /// The name of a cluster.
    ClusterName,
    /// The name of a node.
    NodeName,
    /// The name of an account or of a network.
    Name,
    /// A nick or a user name.
    Target,
    /// A list of channels.
    Channels,
    /// The word that the nodes share.
    SharedWord,
    /// A text that spells a time.
    Time,
    /// A text.
    Text,
    /// A table.
    Table,
    /// A list of tables.
    Tables,
    /// The name of another node than this one.
    OtherNode,
    /// A name that no entry before has.
    NewName,
    /// The name of an account of the configuration.
    KnownAccount,
    /// The path of a file.
    Path,
    /// A name that is smaller than that of each peer.
    SmallestName,
}

impl Allowed {
    // Its words, before the numbers or what each text of a list is.
    fn text(self) -> &'static str {
        match self {
            Allowed::Present => "missing",
            Allowed::KnownKeys => "a key that isn't known",
            Allowed::Number(_, _) => "a number",
            Allowed::Address => "an IP address and a port",
            Allowed::ClusterName => "1 to 63 letters, digits, '.' and '-'",
            Allowed::NodeName => "1 to 32 bytes of a-z and 0-9",
            Allowed::Name => "1 to 32 bytes of a-z, 0-9, '-' and '_'",
            Allowed::Target => TARGET,
            Allowed::Channels => "a list of texts, each ",
            Allowed::SharedWord => "1 to 64 bytes without NUL, CR, LF and space",
            Allowed::Time => "a text YYYY-MM-DDThh:mm:ss.sssZ, a time from 1970 on",
            Allowed::Text => "a text",
            Allowed::Table => "a table",
            Allowed::Tables => "a list of tables",
            Allowed::OtherNode => "not the name of this node",
            Allowed::NewName => "a name that no entry before has",
            Allowed::KnownAccount => "the name of an account",
            Allowed::Path => "the path of a file",
            Allowed::SmallestName => SMALLEST_NAME,
        }
    }
}

impl Display for Allowed {
    fn fmt<W: Write>(&self, f: &mut Formatter<W>) -> Result<(), Error> {
        f.write_str(self.text())?;
        match *self {
            Allowed::Number(least, most) => write!(f, " from {least} to {most}"),
            Allowed::Channels => f.write_str(TARGET),
            _ => Ok(()),
        }
    }
}

const SMALLEST_NAME: &str =
    "a name smaller than each peer's by its bytes, since a keeper opens every connection";

const TARGET: &str =
    "1 to 200 bytes without NUL, CR, LF, space and ',', not '*', and no ':' in front";
