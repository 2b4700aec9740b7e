//! What messages do.

/// What a message of a peer does.
#[derive(Clone, Copy, PartialEq, Eq)]
pub enum Outcome {
    /// It is passed over: it is of another life or for another, or acknowledges more than was sent.
    Ignored,
    /// It is a hello or an acknowledgement, and the link knows of it.
    Known,
    /// All changes of the packet were taken, and it is acknowledged.
    Taken,
    /// A prefix of the changes was taken, or none, and the packet isn't acknowledged, so that it comes again.
    TakenInPart,
}
