//! Why a connection with a peer ended.
use gossip_link::Fault;
use node_events::Reason;
use std::fmt;

/// Why a connection with a peer ended.
#[derive(Clone, Copy, PartialEq, Eq)]
pub(crate) enum Lost {
    /// As connections between nodes end.
    Reason(Reason),
    /// The file was opened again, and a new life began.
    NewLife,
}

impl From<Fault> for Lost {
    fn from(fault: Fault) -> Lost {
        Lost::Reason(match fault {
            Fault::WrongWord => Reason::WrongWord,
            Fault::UnknownNode => Reason::UnknownNode,
            Fault::OwnName => Reason::OwnName,
            Fault::BadLine => Reason::BadLine,
        })
    }
}

impl fmt::Display for Lost {
    fn fmt<W: fmt::Write>(&self, f: &mut fmt::Formatter<W>) -> fmt::Result {
        match self {
            Lost::Reason(reason) => write!(f, "{reason}"),
            Lost::NewLife => f.write_str("the keeper begins a new life"),
        }
    }
}
