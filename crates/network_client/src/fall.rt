//! Why clients are gone.
use chat_query::AskFault;
use client_session::StepFault;

/// Why a client is gone.
#[derive(Clone, Copy, Debug, PartialEq, Eq)]
pub enum Fall {
    /// The other end closed it.
    Closed,
    /// Its session ended.
    Ended,
    /// More would be owed to it than its bound.
    OverBound,
    /// There was no memory.
    NoMemory,
    /// The node let no question in, or what it put isn't published.
    NoEntry,
}

impl From<StepFault> for Fall {
    fn from(fault: StepFault) -> Fall {
        match fault {
            StepFault::NoEntry => Fall::NoEntry,
            StepFault::NoMemory => Fall::NoMemory,
        }
    }
}

impl From<AskFault> for Fall {
    fn from(fault: AskFault) -> Fall {
        match fault {
            AskFault::NoEntry => Fall::NoEntry,
            AskFault::NoMemory | AskFault::Write => Fall::NoMemory,
        }
    }
}
