//! Who is to have a line.
use crate::capability::Capability;

/// Which sessions of an account and a network a line of its server is passed on to.
#[derive(Clone, Copy)]
pub enum Recipients {
    /// All of them.
    All,
    /// Those that hold the capability.
    Holding(Capability),
}
