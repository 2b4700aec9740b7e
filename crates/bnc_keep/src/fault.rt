//! Why nothing is kept.
use crate::damage::Damage;
use byte_text::NoMemory;
use node_events::StartFault;
use real_file::OpenError;
use std::alloc::AllocError;
use std::{fmt, io};

/// Why a keeper can't begin, or keeps nothing now.
#[derive(Clone, Copy)]
pub(crate) enum KeepFault {
    /// There was no memory.
    NoMemory,
    /// The system gave no thread.
    NoThread,
    /// The file isn't opened.
    Open(OpenError),
    /// The system refused a call on the file.
    System(io::Error),
    /// The file was changed while it was read.
    Changed,
    /// The file is as long as it may be, or no greater number of a life is left.
    Full,
    /// The file has what no append can have left. It is as it was.
    Damaged(Damage),
}

impl From<NoMemory> for KeepFault {
    fn from(_: NoMemory) -> KeepFault {
        KeepFault::NoMemory
    }
}

impl From<AllocError> for KeepFault {
    fn from(_: AllocError) -> KeepFault {
        KeepFault::NoMemory
    }
}

impl From<StartFault> for KeepFault {
    fn from(fault: StartFault) -> KeepFault {
        match fault {
            StartFault::NoMemory => KeepFault::NoMemory,
            StartFault::NoThread => KeepFault::NoThread,
        }
    }
}

impl From<OpenError> for KeepFault {
    fn from(error: OpenError) -> KeepFault {
        match error {
            OpenError::OutOfMemory => KeepFault::NoMemory,
            _ => KeepFault::Open(error),
        }
    }
}

impl fmt::Display for KeepFault {
    fn fmt<W: fmt::Write>(&self, f: &mut fmt::Formatter<W>) -> fmt::Result {
        match self {
            KeepFault::NoMemory => f.write_str("no memory"),
            KeepFault::NoThread => f.write_str("the system gave no thread"),
            KeepFault::Open(error) => write!(f, "{error}"),
            KeepFault::System(error) => write!(f, "{error}"),
            KeepFault::Changed => f.write_str("it was changed while it was read"),
            KeepFault::Full => f.write_str("it is full"),
            KeepFault::Damaged(damage) => write!(f, "{damage}"),
        }
    }
}
