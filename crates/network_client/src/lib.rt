//! Clients: the newcomer that each is as it comes, and the client of a network that it is once it is let in.
//!
//! A [`Newcomer`] hears its lines by the accounts as they are configured, until one of them names a network. It moves there whole
//! ([`Arrival`]), hears the next ones there, and is a [`Client`] of that network once its session is registered. Contracts see
//! either as a `Guest` of `network_log`, and each method says which of its events happens.
#![tactic(auto)]

mod asking;
mod client;
mod fall;
mod hearing;
mod mail;
mod naming;
mod newcomer;
mod port;
mod ring;
mod telling;

pub use client::Client;
pub use fall::Fall;
pub use mail::{Coming, Mail, Move};
pub use newcomer::{Arrival, Gone, Newcomer};
pub use node_ports::{Feeders, Filled};
pub use port::{Dial, Happening, Port, PortFault};
