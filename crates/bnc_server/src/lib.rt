//! The server of the bouncer without sockets: [`replay`] reads a script and writes what its nodes answer.
//!
//! A script plays nine nodes. A line posts a change on the selected node, carries packets and acknowledgements between two
//! nodes, loses them or holds them back, restarts a node, or is a line of a client. Contracts say the whole output: at `Ok`
//! exactly what the script's definition gives, which knows sets of changes and schedules and no state; after a fault a
//! prefix of it, and in which item the fault came, or between which. [`laws`] relates that definition to the cluster of
//! `gossip_link`. A node is a `chat_state::State` with the session, the links and the facts of the crates below. The
//! configuration is read by `node_config`, and what the program's words ask for by `bnc`. Read [`replay`] first.
#![tactic(auto)]

mod command;
mod fault;
pub mod laws;
mod node;
mod reply;
mod script;
mod world;

pub use fault::ReplayFault;
pub use node_config::{Config, ConfigFault, read_config};
pub use script::replay;
