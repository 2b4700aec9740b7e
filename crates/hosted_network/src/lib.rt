//! A network as one value: its server, its clients, and what it has seen of the node.
//!
//! A [`HostedNetwork`] is one network at the worker that serves it. Contracts see it as the `NetworkState` of `network_log`: at every
//! moment some log, which says only what is so, leads from the network's beginning to what it is. So what was told to each of its
//! clients and to its server, and what was put for it, is what that log gives. A line of the server is heard, put and told within
//! [`HostedNetwork::server_turn`]; no other network is in reach.
#![tactic(auto)]

mod arriving;
mod batch_parts;
mod client_turns;
mod guests;
mod hearing;
mod informing;
mod marking;
mod marks;
mod network;
mod parts;
mod putting;
mod server_turns;
mod shares;
mod standing;
mod telling;
mod told;
mod turns;

pub use arriving::Entered;
pub use network::{HostedNetwork, NoHost, ServerTurn};
pub use server_turns::{ServerEnd, TurnTime};
pub use turns::{ClientTurn, Tools};
