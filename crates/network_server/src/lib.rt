//! The server of a network: its connection, the session over it, what of it is unread and what is owed to it, and when a server is
//! dialed again.
//!
//! A [`Server`] is one connection that was dialed for a network. Contracts see it as the `Host` of `network_log`, and each method
//! that changes it says which event of a network's log it is. What a line comes to for the node and for clients goes into a
//! [`Batch`]. It names no other network, no client and no worker, and reads no clock. Read [`Server`] first, and of it
//! [`Server::hear`].
#![tactic(auto)]

mod batch;
mod dialogue;
mod opening;
mod retry;
mod server;
mod standing;

pub use batch::{Batch, BatchPart};
pub use opening::Site;
pub use retry::{RETRY, Retry};
pub use server::{HearFault, SayFault, Server, ServerHearing, ServerLoss};
