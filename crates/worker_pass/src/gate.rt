//! What is asked before each answer.

/// Asked before each answer of a worker.
pub trait Gate: Sync {
    /// Whether the worker may answer. Where it may not, its work ends.
    fn before_answer(&self, worker: usize) -> bool;
}
