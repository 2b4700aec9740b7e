//! How the operator is told of peers.
use crate::logged_port::LoggedPort;
use crate::reasons::of_peer;
use network_client::Port;
use node_events::Event;
use node_peers::{Operator, PeerNews};

impl<P: Port> Operator for LoggedPort<P> {
    fn tell(&mut self, news: &PeerNews<'_>) {
        let event = match *news {
            PeerNews::Greeted {
                node,
                address,
                incarnation,
            } => Event::PeerGreeted {
                node,
                address,
                incarnation,
            },
            PeerNews::PeerBehind { node, incarnation } => Event::PeerBehind { node, incarnation },
            PeerNews::NodeBehind { node, incarnation } => Event::NodeBehind {
                node,
                incarnation,
                is_past: incarnation <= self.wall,
            },
            PeerNews::Level { node } => Event::PeerLevel { node },
            PeerNews::Absent { node } => Event::PeerAbsent { node },
            PeerNews::Down { node, loss } => Event::PeerDown {
                node,
                reason: of_peer(loss),
            },
            PeerNews::Refused {
                node,
                address,
                loss,
            } => Event::PeerRefused {
                node,
                address,
                reason: of_peer(loss),
            },
            PeerNews::MoreRefused { count } => Event::PeersRefused { count },
        };
        self.report(&event);
    }
}
