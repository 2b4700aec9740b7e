//! The connections of a worker, over sockets.
//!
//! A [`SocketPort`] is the port of one worker: it waits for its sockets, and for what other threads hand in. A
//! [`SocketConnection`] is one connection: it owns its socket, and knows where it comes from, what came over it and what went out.
//! Other workers hand in mail, and a [`WorkerIntake`] is where those who connect are handed in. Sockets, mail and newcomers take
//! turns, and none keeps another waiting. A port that ends stops all workers whose mailboxes it has: a node whose worker ended
//! ends.
#![tactic(auto)]

mod addresses;
mod connection;
mod departed;
mod dialed;
mod dialer;
mod handing;
mod lingering;
mod setup;
mod socket_port;
mod stream;
mod times;

pub use addresses::Addresses;
pub use connection::SocketConnection;
pub use dialer::{Dialer, NetDialer};
pub use handing::{Newcomers, WorkerIntake};
pub use setup::{NodeSetup, PortSetup, ports_of};
pub use socket_port::SocketPort;
pub use times::{monotonic_ms, now_ms};
