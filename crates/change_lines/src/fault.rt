//! Why a line is read as no change.
use thiserror::Error;

/// Why a line is read as no change. Of several faults the first of this list is answered.
#[derive(Clone, Copy, Debug, PartialEq, Eq, Error)]
pub enum ChangeLineFault {
    /// It isn't one of the forms of a change: another number of fields, an empty one, or another word in their front.
    #[error("not the form of a change")]
    BadForm,
    /// A field has a value that is refused.
    #[error("a field is refused")]
    BadField,
    /// The line spells a change, and there was no memory to make it.
    #[error("no memory")]
    NoMemory,
}
