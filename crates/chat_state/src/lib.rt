//! A chat history that can be merged: a state that holds its normal form.
//!
//! A [`State`] is seen as the normal form of the changes that it took, with the numbers of its pieces. [`State::absorb`]
//! takes one change, [`State::take`] a list, [`State::merge`] what another state holds, and [`run`] begins with nothing.
//! Lookups, cursors from either end of a buffer, the floors that are due, and the latest record of each buffer are read off
//! it, and take no memory. [`delta_since`] makes the delta of a state for another node, and a state is a source of deltas
//! and a taker of their changes. [`Peek`] is what sessions ask of a state or of a reader of one. [`laws`] says that states
//! join, and that nothing of a redacted text is left in the index. The pieces lie in the private module `store`, over the
//! maps of `chat_buffers`; the definitions stand in `chat_history`. Read [`State`] first.
#![tactic(auto)]

mod cursor;
mod faults;
mod latest;
pub mod laws;
mod lookups;
mod merging;
mod newer;
mod peek;
mod retention;
mod since;
mod source;
mod state;
mod store;

pub use byte_text::NoMemory;
pub use chat_buffers::{Down, Up};
pub use chat_change::ChangeRef;
pub use chat_history::{Cut, NoEntry, Peek, Spot};
pub use faults::{StateFault, TakeFault};
pub use latest::Latest;
pub use since::delta_since;
pub use state::{State, run};
pub use store::Piece;
