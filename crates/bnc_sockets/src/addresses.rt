//! Where the networks' servers and the peers are.
use network_client::Dial;
use std::alloc::AllocError;
use std::net::SocketAddr;

/// Where networks and peers are, in the order of the configuration.
#[derive(Drop)]
pub struct Addresses {
    pub networks: Vec<SocketAddr>,
    pub peers: Vec<SocketAddr>,
}

impl Addresses {
    /// A copy of the list.
    pub fn try_clone(&self) -> Result<Addresses, AllocError> {
        Ok(Addresses {
            networks: self.networks.clone()?,
            peers: self.peers.clone()?,
        })
    }

    // Where that is, if it is among them.
    pub(crate) fn of(&self, what: Dial) -> Option<SocketAddr> {
        match what {
            Dial::Network(network) => self.networks.get(network).copied(),
            Dial::Peer(peer) => self.peers.get(peer).copied(),
        }
    }
}
