//! Why a node can't begin.
ghost use Rattle.std.specs.Prelude.{◌≡◌, ◌≢◌, ◌↔◌};

use crate::threads::StartFault;
use attach::PlacesFault;
use byte_text::NoMemory;
use std::alloc::AllocError;
use std::io;
use std::io::ErrorKind;
use std::net::SocketAddr;
use thiserror::Error;

/// Why a node can't begin.
#[derive(Clone, Copy, Debug, PartialEq, Eq, Error)]
pub enum ServeFault {
    /// There was no memory.
    #[error("no memory")]
    NoMemory,
    /// The node can't listen at that address, as where somebody else does.
    #[error("can't listen at {0}: {1}")]
    NoListener(SocketAddr, ErrorKind),
    /// The system gave no socket.
    #[error("no socket: {0}")]
    NoSocket(ErrorKind),
    /// The clock can't be read.
    #[error("the clock can't be read")]
    NoClock,
    /// The system gave no thread.
    #[error("no thread")]
    NoThread,
    /// A node can't have so many workers or places.
    #[error("too many workers or places")]
    BadCount,
    /// A worker has no place from which to read what the node holds.
    #[error("no place for a reader")]
    NoReader,
}

impl ServeFault {
    /// The fault where the system gives no socket for that reason.
    pub fn of(kind: ErrorKind) -> ServeFault
        ensures no_memory { (result ≡ ServeFault.NoMemory) ↔ (kind ≡ ErrorKind.OutOfMemory) }
        ensures socket { kind ≢ ErrorKind.OutOfMemory → result ≡ ServeFault.NoSocket kind }
    {
        if kind == ErrorKind::OutOfMemory {
            ServeFault::NoMemory
        } else {
            ServeFault::NoSocket(kind)
        }
    }

    /// The fault where the node can't listen at an address for that reason.
    pub fn at(address: SocketAddr, kind: ErrorKind) -> ServeFault
        ensures no_memory { (result ≡ ServeFault.NoMemory) ↔ (kind ≡ ErrorKind.OutOfMemory) }
        ensures listener { kind ≢ ErrorKind.OutOfMemory
            → result ≡ ServeFault.NoListener address kind }
    {
        if kind == ErrorKind::OutOfMemory {
            ServeFault::NoMemory
        } else {
            ServeFault::NoListener(address, kind)
        }
    }
}

impl From<io::Error> for ServeFault {
    fn from(error: io::Error) -> ServeFault {
        ServeFault::of(error.kind())
    }
}

impl From<AllocError> for ServeFault {
    ghost use Rattle.std.specs.Prelude.{◌≡◌};
    ghost use Rattle.node_events.specs.declared.serve_fault.ServeFault.TheVariants as fault_case;

    ghost from_gives = { λ _ fault. fault ≡ fault_case.NoMemory };

    fn from(_: AllocError) -> ServeFault {
        ServeFault::NoMemory
    }
}

impl From<NoMemory> for ServeFault {
    ghost use Rattle.std.specs.Prelude.{◌≡◌};
    ghost use Rattle.node_events.specs.declared.serve_fault.ServeFault.TheVariants as fault_case;

    ghost from_gives = { λ _ fault. fault ≡ fault_case.NoMemory };

    fn from(_: NoMemory) -> ServeFault {
        ServeFault::NoMemory
    }
}

impl From<PlacesFault> for ServeFault {
    ghost use Rattle.std.specs.Prelude.{◌≡◌};
    ghost use Rattle.node_events.specs.Faults.{fault_of_places};

    ghost from_gives = { λ part fault. fault ≡ fault_of_places part };

    fn from(fault: PlacesFault) -> ServeFault {
        match fault {
            PlacesFault::NoMemory => ServeFault::NoMemory,
            PlacesFault::BadCount => ServeFault::BadCount,
        }
    }
}

impl From<StartFault> for ServeFault {
    ghost use Rattle.std.specs.Prelude.{◌≡◌};
    ghost use Rattle.node_events.specs.Faults.{fault_of_start};

    ghost from_gives = { λ part fault. fault ≡ fault_of_start part };

    fn from(fault: StartFault) -> ServeFault {
        match fault {
            StartFault::NoMemory => ServeFault::NoMemory,
            StartFault::NoThread => ServeFault::NoThread,
        }
    }
}
