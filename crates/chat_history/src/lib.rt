//! What a set of changes means: its normal form, and what is read off it.
//!
//! Nearly all of this crate is definitions, in `specs/`: the floor, the marker, the kept record and the place of a message
//! in a set of changes (`History`), the visible records of a buffer (`Visible`), the numbers of pieces and the deltas
//! between them (`Numbering`). [`laws`] says what holds of them: the order and the repeats of the changes don't matter,
//! normal forms join, and whoever includes the pieces of a node up to a number, and takes the delta since it, includes those
//! up to the delta's own number. In code it has [`Spot`], where a record stands, [`Cut`], a place between records, and
//! [`Peek`], what sessions ask of a history; and the [`Delta`], with what gives deltas, a [`Source`], and what takes their
//! changes, a [`Taker`]. It stands on `chat_change`; every crate that keeps or reads a history, or sends a part of one,
//! stands on it. Read [`laws`] first.
#![tactic(auto)]

mod cut;
mod delta;
pub mod laws;
mod peek;
mod retention;

pub use cut::{Cut, Spot, is_after};
pub use delta::{DELTA_LIMIT, Delta, DeltaFault, NotTaken, Source, Taker};
pub use peek::{NoEntry, Peek};
pub use retention::at_or_above;
