//! The work of a node: workers that serve networks, clients that come, and peers, over any port and any gate.
//!
//! A worker has a part of the node's networks, each as one value (`hosted_network`): a line of a network's server is heard, put and
//! told to the network's clients within one call, and no other network is in reach. A client comes to any worker, and moves to the one
//! that serves the network which it names. The first worker has the peers. What a worker puts into its node goes by its
//! `worker_pass::WorkerPass`; who serves whom, and when, is decided here. Read [`work`] first, and then `worker.rt`.
#![tactic(auto)]

mod client_turns;
mod clock;
mod due;
mod floors;
mod hosting;
mod logged_port;
mod peer_log;
mod peer_turns;
mod reasons;
mod schedule;
mod seats;
mod server_turns;
mod settings;
mod site;
mod starting;
mod timer;
mod timers;
mod visitor;
mod visitor_turns;
mod waiting;
mod worker;
mod worker_config;

pub use network_client::{Dial, Happening, Mail, Port, PortFault};
pub use node_events::StartFault;
pub use settings::NodeSettings;
pub use site::NodeSite;
pub use starting::{work, work_all};
pub use waiting::WaitingClients;
pub use worker_config::{WorkEnd, WorkerConfig};
pub use worker_pass::Gate;
