//! Where connections come in to a node, and what its workers begin with.
//!
//! [`prepare`] opens the sockets of a configuration, and makes what its workers begin with. [`begin_node`] makes the node, puts
//! the floors of its accounts, and has its [`Intake`] take connections in, on a thread of its own: it claims a place for each
//! client, and hands it to a worker by a channel. It runs no worker: that is `bnc`. The crate stands on `bnc_sockets`,
//! `node_config`, `bnc_work` and `shared_node`. Read [`prepare`] first.
#![tactic(auto)]

mod beginning;
mod floors;
mod intake;
mod listeners;
mod places;
mod prepared;
mod queue;
mod settings;
mod worker_intakes;
mod workers;

pub use beginning::{Job, begin_node};
pub use intake::Intake;
pub use node_events::ServeFault;
pub use prepared::{Prepared, prepare};
