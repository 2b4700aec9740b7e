//! What the operator is told of peers.
use crate::loss::PeerLoss;
use std::net::SocketAddr;

/// What the operator is told of peers. No shared word and no text of a message stands in it.
#[derive(Clone, Copy)]
pub enum PeerNews<'a> {
    /// A peer and this node greeted each other. The peer is at that address.
    Greeted {
        node: &'a [u8],
        address: Option<SocketAddr>,
        incarnation: u64,
    },
    /// A peer said hello as an earlier life than the one of that incarnation, which is known of it: it is sent nothing.
    PeerBehind {
        node: &'a [u8],
        incarnation: u64,
    },
    /// A peer knows a later life of this node, of that incarnation, and sends this one nothing.
    NodeBehind {
        node: &'a [u8],
        incarnation: u64,
    },
    /// For the first time since it started, this node has all that the peer had, and the peer has all that this node had.
    Level {
        node: &'a [u8],
    },
    /// There has been no connection for two minutes with a peer to which this node opens them.
    Absent {
        node: &'a [u8],
    },
    /// The connection with a peer that was greeted ended.
    Down {
        node: &'a [u8],
        loss: PeerLoss,
    },
    /// A connection ended before a peer was greeted over it. Where this node opened it, the peer is known by its name.
    Refused {
        node: Option<&'a [u8]>,
        address: Option<SocketAddr>,
        loss: PeerLoss,
    },
    /// So many further connections that others opened ended before a peer was greeted, within a minute.
    MoreRefused {
        count: u64,
    },
}

/// Who is told of peers.
pub trait Operator {
    /// Is told that.
    fn tell(&mut self, news: &PeerNews<'_>);
}
