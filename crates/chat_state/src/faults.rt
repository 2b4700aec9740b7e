//! Why a call on a state is refused.

use thiserror::Error;

/// Why a change was not taken. Of both causes the first is answered.
#[derive(Clone, Copy, Debug, PartialEq, Eq, Error)]
pub enum StateFault {
    /// The front is at its last value, 18446744073709551615, and the change would change the history.
    #[error("no number is left")]
    Exhausted,
    /// There was no memory.
    #[error("no memory")]
    NoMemory,
}

/// Why a list of changes was not taken to its end.
#[derive(Clone, Copy, Debug, PartialEq, Eq, Error)]
#[error("{taken} changes were taken, and then: {cause}")]
pub struct TakeFault {
    /// How many changes were taken.
    pub taken: usize,
    /// Why the next one wasn't.
    pub cause: StateFault,
}
