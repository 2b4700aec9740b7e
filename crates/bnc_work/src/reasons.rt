//! Why connections ended, as the operator is told.
use hosted_network::ServerEnd;
use network_client::{Fall, Gone};
use network_server::ServerLoss;
use node_events::Reason;
use node_peers::PeerLoss;

/// Why a client of a network is gone.
pub(crate) fn of_client(why: Option<Fall>) -> Reason {
    match why {
        Some(Fall::Ended) => Reason::Ended,
        Some(Fall::OverBound) => Reason::OverBound,
        Some(Fall::NoMemory) => Reason::NoMemory,
        Some(Fall::NoEntry) => Reason::NoEntry,
        Some(Fall::Closed) | None => Reason::Closed,
    }
}

/// Why a client is gone that wasn't registered.
pub(crate) fn of_newcomer(gone: Gone) -> Reason {
    match gone {
        Gone::NoMemory => Reason::NoMemory,
        Gone::Elsewhere => Reason::NoEntry,
    }
}

/// Why the session with a server ended.
pub(crate) fn of_server(end: ServerEnd) -> Reason {
    match end {
        ServerEnd::Lost(ServerLoss::Closed) => Reason::Closed,
        ServerEnd::Lost(ServerLoss::Ended) => Reason::Ended,
        ServerEnd::Lost(ServerLoss::Overrun) => Reason::Overrun,
        ServerEnd::Lost(ServerLoss::Silent) => Reason::Silent,
        ServerEnd::NoMemory => Reason::NoMemory,
    }
}

/// Why the connection with another node ended.
pub(crate) fn of_peer(loss: PeerLoss) -> Reason {
    match loss {
        PeerLoss::Closed => Reason::Closed,
        PeerLoss::BadLine => Reason::BadLine,
        PeerLoss::WrongWord => Reason::WrongWord,
        PeerLoss::UnknownNode => Reason::UnknownNode,
        PeerLoss::OwnName => Reason::OwnName,
        PeerLoss::Unregistered => Reason::Unregistered,
        PeerLoss::Unacknowledged => Reason::Unacknowledged,
        PeerLoss::Unheard => Reason::Unheard,
        PeerLoss::Replaced => Reason::Replaced,
        PeerLoss::Overrun => Reason::Overrun,
        PeerLoss::GaveWay => Reason::GaveWay,
        PeerLoss::NoMemory => Reason::NoMemory,
        PeerLoss::NoEntry => Reason::NoEntry,
    }
}
