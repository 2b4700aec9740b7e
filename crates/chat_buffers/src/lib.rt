//! The numbered pieces of many buffers, in ordered maps, seen as one store: a finite map from keys to numbered changes.
//!
//! [`Buffers`] has for each buffer its own floor, its marker and its messages, which lie in two maps that agree: by id,
//! and by where they stand. So a message is found by its id, and the visible records after or before a cut are walked in
//! one range with no memory of their own ([`Up`], [`Down`]). Beside the buffers it has the floor of each account. The
//! floor of a buffer is that of its account or its own one, whichever is greater, and redactions are read at it.
//!
//! It stands on `ordered_maps`, whose changes happen whole or not at all, and on the definitions of `chat_history`. Read
//! [`Buffers::enter`] first.
#![tactic(auto)]

mod accounts;
mod buffer_walk;
mod buffers;
mod cursor;
mod finding;
mod from_floor;
mod held;
mod held_message;
mod id_key;
mod id_map;
mod messages;
mod moment_if_known;
mod record_map;
mod sought;
mod spot_key;
mod walk;

pub use buffer_walk::BufferWalk;
pub use buffers::{Buffers, FloorAndMessage, MessageRef};
pub use sought::Sought;
pub use walk::{Down, Up};
