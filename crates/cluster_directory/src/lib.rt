//! Who is who in a cluster: its accounts, and its nodes. It stands on no line and on no state.
//!
//! A [`Directory`] has the accounts with their secrets and their networks, and how the session with each network's server
//! stands at one moment. It is handed to each step of a client's session, and says who is let in, by
//! [`Directory::entry_by_secret`], and which nick and which channels the network gives. A [`SessionConfig`] says how the session
//! with a network's server is configured. No type of these has a `Debug` text, and no call gives out the bytes of a [`Secret`].
//!
//! A [`Life`] is a node from one start to the next, by its [`NodeName`] and its incarnation. It speaks a [`Version`] of the
//! lines between nodes. What a node brings to each connection, the [`SharedWord`], its own life and its peers' names with
//! the versions for them, are its [`Terms`]; why a line or a message of a peer is refused is a [`LinkFault`]. Read
//! [`Directory`] first, and then [`Terms`].
#![tactic(auto)]

mod account;
mod config;
mod directory;
mod entry;
mod fault;
mod life;
mod names;
mod network;
mod secret;
mod shared_word;
mod terms;
mod version;

pub use account::ConfiguredAccount;
pub use config::{Channels, SessionConfig};
pub use directory::Directory;
pub use entry::Entry;
pub use fault::LinkFault;
pub use life::Life;
pub use names::{NODE_NAME_LIMIT, NodeName, is_node_name};
pub use network::Network;
pub use secret::Secret;
pub use shared_word::{SHARED_WORD_LIMIT, SharedWord, is_shared_word};
pub use terms::{PeerTerms, Terms};
pub use version::Version;
