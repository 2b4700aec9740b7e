//! Why a connection with a peer ends.
ghost use Rattle.std.specs.Prelude.{◌≡◌};
ghost use Rattle.node_peers.specs.Losses as spec;

use gossip_link::Fault;

/// Why a connection with a peer ends.
#[derive(Clone, Copy, Debug, PartialEq, Eq)]
pub enum PeerLoss {
    /// The other end closed it.
    Closed,
    /// It sent a line that is refused.
    BadLine,
    /// It sent another word than the shared one.
    WrongWord,
    /// It is no configured peer, or said that it is another one.
    UnknownNode,
    /// It said hello by this node's own name.
    OwnName,
    /// It didn't say in time who it is.
    Unregistered,
    /// It acknowledged nothing for too long.
    Unacknowledged,
    /// Nothing came from it for five minutes.
    Unheard,
    /// A newer connection took its place.
    Replaced,
    /// It didn't read what was owed to it.
    Overrun,
    /// It had waited longest to say who it is, and others wait.
    GaveWay,
    /// There was no memory.
    NoMemory,
    /// The node let no question in.
    NoEntry,
}

impl PeerLoss {
    /// Why a connection is closed whose line has that fault, before a peer said hello over it or afterwards.
    pub(crate) fn of_line(noted: Option<usize>, fault: Fault) -> PeerLoss
        ensures { result ≡ spec.of_line noted fault }
    {
        match (noted, fault) {
            (None, Fault::WrongWord) => PeerLoss::WrongWord,
            (None, Fault::UnknownNode) => PeerLoss::UnknownNode,
            (None, Fault::OwnName) => PeerLoss::OwnName,
            _ => PeerLoss::BadLine,
        }
    }
}
