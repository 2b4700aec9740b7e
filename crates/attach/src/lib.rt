//! Where a server's clients stand, and what they are owed.
//!
//! [`Places`] makes a fixed number of places. A [`Clerk`] hands them out, the lowest free one first, and a [`Stand`] holds one
//! of them until it is dropped, in whatever thread that is. An [`Attachment`] is a client at its stand, with the bytes that are
//! owed to it, up to a bound: a [`RingClient`] has them in a ring, a [`CountingClient`] counts what it accepted, a [`Recorder`]
//! remembers the end of it, and a [`Boxed`] is an attachment of any kind. A [`Hall`] keeps attachments of one kind, or boxes of any
//! kind, under keys. What holds of the places between any two steps of any threads is in [`laws`]. Read [`Attachment`] first.
#![tactic(auto)]

mod attachment;
mod boxed;
mod counting_client;
mod hall;
mod hold;
pub mod laws;
mod places;
mod recorder;
mod ring_client;

pub use attachment::{Attachment, Overrun};
pub use boxed::Boxed;
pub use counting_client::CountingClient;
pub use hall::{Hall, HallFault};
pub use places::{ClaimFault, Clerk, MOST_PLACES, Places, PlacesFault, Stand};
pub use recorder::Recorder;
pub use ring_client::{NoRing, RingClient};
