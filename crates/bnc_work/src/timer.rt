//! What is done when it is due.

/// What is done when it is due. Networks are known by their place among those of the worker, connections by their tokens.
#[derive(Clone, Copy, PartialEq, Eq, PartialOrd, Ord)]
pub enum Timer {
    /// The server of a network is dialed, or given up since nothing came of it.
    Server(usize),
    /// A client that isn't registered is told that it is turned away, or let go.
    Newcomer(usize),
    /// A client whose session has ended is let go, whether or not it was told all.
    Client(usize),
    /// Something is due of a peer.
    Peers,
    /// The floors that are due are put.
    Floors,
    /// What waits to be published is published.
    Publish,
}
