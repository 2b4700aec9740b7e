//! What a worker stands on: the accounts of its node, connections that know where they come from and what went over them, the lines of
//! what came, bytes that wait for one, and the node that workers put into.
//!
//! What may be told over a connection and what may be put is a condition of the calls by which anything leaves a worker,
//! [`Connection::send`] and those of [`NodePass`]. `network_log` says what these conditions mean.
#![tactic(auto)]

mod accounts;
mod connection;
mod feeders;
mod input;
mod line_buffer;
mod node;
mod pending;
mod straight;
mod transcript;

pub use accounts::Accounts;
pub use connection::{Connection, Fresh, Halt};
pub use feeders::Feeders;
pub use input::{Filled, Input};
pub use line_buffer::LineBuffer;
pub use network_log::Origin;
pub use node::{NetworkView, NodePass, NotPublished};
pub use pending::{Pending, ReceiveFault};
pub use transcript::{FurtherBytes, Transcript};
