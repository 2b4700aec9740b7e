//! Why a row ends before its time.
use gossip_delta::DeltaFault;
use shared_node::{AskFault, NodeFault, PutFault};

/// Why a row ends before its time.
#[derive(Clone, Copy, Debug, PartialEq)]
pub enum RowFault {
    /// There was no memory.
    NoMemory,
    /// The node would have no pass, or too many.
    BadCount,
    /// A reading call wasn't let in.
    NoEntry,
    /// A pass read this number, and was to read another.
    Other(u64),
    /// Not just the first markers are seen, so many of them.
    NotTheFirst(usize),
    /// A put was refused, and so many of its changes waited. Else all was right.
    Waited(usize),
    /// An answer spells no marker.
    NoMarker,
    /// No number is left for a change.
    Exhausted,
    /// A number of milliseconds isn't a moment.
    NoMoment,
    /// An answer went back behind what the pass saw or was told of.
    WentBack,
    /// This many changes were put in the end, which isn't the right count.
    Total(u64),
    /// A node was closed without all of its passes, or wasn't with them.
    NotClosed,
    /// The node has fewer passes than the row needs.
    NoPass,
}

impl From<NodeFault> for RowFault {
    fn from(fault: NodeFault) -> RowFault {
        match fault {
            NodeFault::BadCount => RowFault::BadCount,
            NodeFault::NoMemory | NodeFault::NoReader => RowFault::NoMemory,
        }
    }
}

impl From<PutFault> for RowFault {
    fn from(_: PutFault) -> RowFault {
        RowFault::NoMemory
    }
}

impl From<AskFault> for RowFault {
    fn from(fault: AskFault) -> RowFault {
        match fault {
            AskFault::NoEntry => RowFault::NoEntry,
            // A vector can't be written to for want of memory alone.
            AskFault::NoMemory | AskFault::Write => RowFault::NoMemory,
        }
    }
}

impl From<DeltaFault> for RowFault {
    fn from(fault: DeltaFault) -> RowFault {
        match fault {
            DeltaFault::NoEntry => RowFault::NoEntry,
            DeltaFault::NoMemory => RowFault::NoMemory,
        }
    }
}
