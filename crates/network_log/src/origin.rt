//! Where connections come from.

/// Where a connection comes from, which never changes. Networks and peers are those of the configuration, counted from 0.
#[derive(Clone, Copy, Debug, PartialEq, Eq)]
pub enum Origin {
    /// A client connected to this node.
    ClientCame,
    /// Another node connected to this one.
    PeerCame,
    /// This node connected to the server of a network.
    NetworkDialed(usize),
    /// This node connected to a peer.
    PeerDialed(usize),
}
