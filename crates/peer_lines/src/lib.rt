//! The lines that nodes send each other.
//!
//! Nodes speak to each other in lines of words that stand exactly one space apart, and a line has no other spelling. A
//! [`PeerLine`] says the word that the nodes share, a hello of a [`Life`] in a [`Version`], the [`Head`] of a [`Packet`],
//! one of its changes, or an [`Ack`]. [`read_peer`] reads a line, and a [`Gather`] joins the head of a packet with its
//! changes, so that whole packets arrive. [`write_word`], [`write_hello`], [`write_packet`] and [`write_ack`] write lines,
//! each with CR LF behind it, which read back as what was written ([`laws`]). Names of nodes, lives, versions and the shared
//! word are those of [`cluster_directory`], whose names this crate gives out.
#![tactic(auto)]

mod fields;
mod gather;
pub mod laws;
mod packet;
mod peer_line;
mod writing;

pub use cluster_directory::{
    Life, LinkFault, NODE_NAME_LIMIT, NodeName, SHARED_WORD_LIMIT, SharedWord, Version,
    is_node_name, is_shared_word,
};
pub use gather::{Arrived, Gather};
pub use packet::{Ack, Head, PACKET_LIMIT, Packet};
pub use peer_line::{PeerLine, read_peer, read_peer_in};
pub use writing::{write_ack, write_hello, write_packet, write_word};
