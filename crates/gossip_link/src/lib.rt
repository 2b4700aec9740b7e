//! Links between the nodes of a cluster, the connections that carry them, and what the cluster promises.
//!
//! A [`Link`] is one node's side towards one peer: which of the peer's lives is known, and which version it speaks, which
//! number it acknowledged, and which was sent to it. It makes packets of what a source holds, hands those of the peer to a
//! taker, and takes acknowledgements. It is kept over connections. [`laws`] says what holds of a cluster of such nodes,
//! whatever the network loses, repeats and reorders, and whichever node falls and comes back empty.
//!
//! A [`Handshake`] says how two nodes that are connected make sure of each other: line by line, what comes of a new
//! connection, and it hands nothing up before the right word and then a hello of a configured peer came
//! ([`laws::handshake`]).
//!
//! A [`PeerSession`] is one connection with a peer, opened by this node or by the other, and is new with each. It is a value
//! and reads nothing: whoever owns the socket hands it the lines that come ([`hear`](PeerSession::hear)), carries out what
//! arrives with them on the link of that peer ([`arrive`](PeerSession::arrive)), tells it what is published
//! ([`publish`](PeerSession::publish)) and of the time ([`tick`](PeerSession::tick)), lets it make the next packet after
//! each of these ([`send_next`](PeerSession::send_next)), and sends the bytes that these calls append. At most one packet is
//! under way. It is made after the peer's hello, after an acknowledgement, after a publish, and after 60 seconds without an
//! acknowledgement; where three in a row got none, the connection is to be closed ([`laws::connections`]). The own hello may
//! be said again at any time once the peer has said its own ([`say_hello_again`]): a further hello of a life that the link
//! knows changes nothing but that a packet is made where one is due.
//!
//! What a node brings to each connection, its [`Terms`], is of [`cluster_directory`], and the lines themselves, and what they
//! are made of, are those of [`peer_lines`]. This crate gives out the names of both. Read [`Link`] first.
#![tactic(auto)]

mod arrival;
mod greeting;
mod handshake;
mod heard;
pub mod laws;
mod link;
mod outcome;
mod pace;
mod packets;
mod session;

pub use arrival::changes_of;
pub use byte_text::NoMemory;
pub use cluster_directory::{PeerTerms, Terms};
pub use greeting::say_hello_again;
pub use handshake::{Action, Handshake, HandshakeStage, Side};
pub use heard::{Fault, Heard};
pub use link::Link;
pub use outcome::Outcome;
pub use pace::{ACK_WAIT_MS, MOST_UNANSWERED};
pub use peer_lines::{
    Ack, Arrived, Gather, Head, Life, LinkFault, NodeName, Packet, PeerLine, SharedWord, Version,
    read_peer, read_peer_in, write_ack, write_hello, write_packet, write_word,
};
pub use session::PeerSession;
