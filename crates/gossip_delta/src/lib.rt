//! What one node sends another of its history: deltas, and the lines that spell their changes.
//!
//! This crate has no code of its own: it gives out names. A [`Delta`], a [`Source`], which gives deltas, a [`Taker`], which
//! takes their changes, and [`laws::delta_carries`], which says why deltas are enough, are those of `chat_history`. The
//! delta of a state ([`delta_since`]) is made by `chat_state`, where a `State` is both a source and a taker. The lines that
//! spell changes are those of `change_lines`.
#![tactic(auto)]

pub mod laws;

pub use change_lines::{
    ChangeLineFault, is_text, read_change, read_change_in, split_word, write_change,
};
pub use chat_history::{DELTA_LIMIT, Delta, DeltaFault, NotTaken, Source, Taker};
pub use chat_state::delta_since;
