//! What holds of deltas: a law of `chat_history`.

pub use chat_history::laws::delta_carries;
