//! The clocks of a node.
use std::fmt;

/// What the clocks of a node read, in milliseconds.
#[derive(Clone, Copy, PartialEq, Eq)]
pub struct Clocks {
    /// The wall clock: since 1970 began. It may be set, ahead or back. Moments of messages and floors go by it.
    pub wall: u64,
    /// The monotonic clock: since some start. It only rises. What is due goes by it.
    pub monotonic: u64,
}

/// How the wall clock moved against the monotonic one, and by how many milliseconds.
#[derive(Clone, Copy, PartialEq, Eq)]
pub enum Leap {
    Ahead(u128),
    Back(u128),
}

impl fmt::Display for Leap {
    fn fmt<W: fmt::Write>(&self, f: &mut fmt::Formatter<W>) -> fmt::Result {
        match *self {
            Leap::Ahead(by) => write!(f, "{} seconds ahead", by / 1000),
            Leap::Back(by) => write!(f, "{} seconds back", by / 1000),
        }
    }
}
