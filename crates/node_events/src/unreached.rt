//! Why a connection could not be made.
use std::io::ErrorKind;
use std::{fmt, io};

// Too many files are open in the whole system, by Linux's number.
const ENFILE: i32 = 23;

// Too many files are open in this process.
const EMFILE: i32 = 24;

/// Why a connection could not be made.
#[derive(Clone, Copy, PartialEq, Eq)]
pub enum Unreached {
    /// The system says that.
    System(ErrorKind),
    /// The system gives no descriptor, since too many files are open.
    TooManyFiles,
    /// There was no memory.
    NoMemory,
    /// The connection is gone already, or nobody knows to whom it was to be.
    Gone,
}

impl From<io::Error> for Unreached {
    fn from(error: io::Error) -> Unreached {
        match error.raw_os_error() {
            Some(ENFILE | EMFILE) => Unreached::TooManyFiles,
            _ => Unreached::System(error.kind()),
        }
    }
}

impl fmt::Display for Unreached {
    fn fmt<W: fmt::Write>(&self, f: &mut fmt::Formatter<W>) -> fmt::Result {
        match *self {
            Unreached::System(kind) => write!(f, "{kind}"),
            Unreached::TooManyFiles => f.write_str("too many open files"),
            Unreached::NoMemory => f.write_str("no memory"),
            Unreached::Gone => f.write_str("the connection is gone"),
        }
    }
}
