//! What the operator is told.
use crate::fault::KeepFault;
use crate::lost::Lost;
use bstr::BStr;
use node_events::Event;
use std::fmt;
use std::net::SocketAddr;

/// What the operator is told: one line of the log. No shared word and no text of a message stands in it.
#[derive(Clone, Copy)]
pub(crate) enum KeeperEvent<'a> {
    /// What a node tells too.
    Node(Event<'a>),
    /// The file was read, in so many milliseconds: so many changes of so many conversations.
    Read {
        changes: u64,
        conversations: usize,
        took: u64,
    },
    /// The end of an append that a crash cut short was cut off the file.
    Cut {
        bytes: usize,
    },
    /// So many changes are in the file, which has so many bytes.
    Kept {
        changes: u64,
        bytes: usize,
    },
    /// Nothing is kept now.
    NotKept {
        file: &'a str,
        fault: KeepFault,
    },
    /// The file is open again.
    OpenAgain {
        file: &'a str,
    },
    /// The file was written anew, in so many milliseconds.
    Rewritten {
        from: usize,
        to: usize,
        took: u64,
    },
    /// The file wasn't written anew, and is as it was.
    NotRewritten {
        file: &'a str,
        fault: KeepFault,
    },
    /// A connection with a peer ended.
    PeerLost {
        node: &'a [u8],
        address: SocketAddr,
        lost: Lost,
    },
}

impl fmt::Display for KeeperEvent<'_> {
    fn fmt<W: fmt::Write>(&self, f: &mut fmt::Formatter<W>) -> fmt::Result {
        match self {
            KeeperEvent::Node(event) => write!(f, "{event}"),
            KeeperEvent::Read {
                changes,
                conversations,
                took,
            } => write!(
                f,
                "read: {changes} changes of {conversations} conversations in {}",
                Seconds(*took)
            ),
            KeeperEvent::Cut { bytes } => write!(f, "cut: {bytes} bytes of a torn end"),
            KeeperEvent::Kept { changes, bytes } => {
                write!(f, "kept: {changes} changes in {bytes} bytes")
            }
            KeeperEvent::NotKept { file, fault } => write!(f, "not kept: {file}: {fault}"),
            KeeperEvent::OpenAgain { file } => write!(f, "file open again: {file}"),
            KeeperEvent::Rewritten { from, to, took } => write!(
                f,
                "rewritten: {from} bytes are {to} now, in {}",
                Seconds(*took)
            ),
            KeeperEvent::NotRewritten { file, fault } => {
                write!(f, "not rewritten: {file}: {fault}")
            }
            KeeperEvent::PeerLost {
                node,
                address,
                lost,
            } => write!(f, "peer lost: {} at {address}: {lost}", BStr::new(node)),
        }
    }
}

// So many milliseconds, in seconds.
#[derive(Clone, Copy)]
struct Seconds(u64);

impl fmt::Display for Seconds {
    fn fmt<W: fmt::Write>(&self, f: &mut fmt::Formatter<W>) -> fmt::Result {
        write!(f, "{}.{} seconds", self.0 / 1000, self.0 % 1000 / 100)
    }
}
