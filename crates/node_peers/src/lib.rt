//! The peers of a node: the connections with the other nodes of its cluster, and what goes over these.
//!
//! A [`Peer`] is one connection with another node: what came over it and isn't heard yet, the session, and what is owed to that
//! node. Its lines are heard one by one ([`Peer::hear`]), and the message that a line brought is carried out before the next one is
//! heard ([`Peer::carry_out`]), on the link with its peer ([`PeerLink`]). Contracts see it as a [`PeerState`](Peer), and each method
//! says what it makes of that. All that was sent and all that is owed is what a course of `network_log` gives (`PeerCourse`).
//!
//! [`Peers`] is the table of them, by the numbers that the caller gives, and what is kept of each peer over its connections. A
//! connection [`begins`](Peers::begin), has its [`steps`](Peers::step), and is [`closed`](Peers::close); the message that came over
//! it is [`carried out`](Peers::arrive). What is due at a moment is done by one call ([`Peers::look_after`]), and the next such
//! moment is asked for ([`Peers::next_at`]): no timer is set. An [`Operator`] is told the news.
#![tactic(auto)]

mod arrivals;
mod carrying;
mod connections;
mod dialing;
mod dialogue;
mod entry;
mod loss;
mod moments;
mod news;
mod node_source;
mod packets;
mod peer;
mod peer_link;
mod peer_record;
mod peers;
mod quiet;
mod sending;
mod supply;
mod turn;
mod turns;

pub use carrying::Carried;
pub use loss::PeerLoss;
pub use news::{Operator, PeerNews};
pub use peer::{Peer, PeerHearing};
pub use peer_link::{NoLink, PeerLink};
pub use peers::Peers;
pub use turn::Turn;
pub use turns::PeerStep;
