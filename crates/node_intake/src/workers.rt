//! The workers of a node, before they begin, and the intakes for new connections.
ghost use Rattle.std.specs.Prelude.{◌≡◌, IfOk, map};

use bnc_sockets::{Addresses, Dialer, NodeSetup, PortSetup, WorkerIntake};
use node_config::{Config, NetworkConfig, PeerConfig};
use node_events::ServeFault;
use operator_log::Log;
use std::alloc::{AllocError, Global};
use std::net::{Net, SocketAddr};

// The workers of a node, and where connections are handed in to them.
#[derive(Drop)]
pub(crate) struct Workers<D: Dialer> {
    // What each worker's port begins with, in their order.
    pub(crate) setups: Vec<PortSetup<D>>,
    // An intake for each worker.
    pub(crate) intakes: Vec<WorkerIntake>,
}

fn networks_of(alloc: Global, networks: &[NetworkConfig]) -> Result<Vec<SocketAddr>, AllocError>
    ensures { IfOk result (λ made. made.items ≡ map (λ n. n.address) networks.now) }
{
    let mut addresses = Vec::new(alloc);
    for network in networks {
        addresses.push(network.address)?;
    }
    Ok(addresses)
}

fn peers_of(alloc: Global, peers: &[PeerConfig]) -> Result<Vec<SocketAddr>, AllocError>
    ensures { IfOk result (λ made. made.items ≡ map (λ p. p.address) peers.now) }
{
    let mut addresses = Vec::new(alloc);
    for peer in peers {
        addresses.push(peer.address)?;
    }
    Ok(addresses)
}

// Where the networks' servers and the peers listen, in the order of the configuration.
fn addresses_of(alloc: Global, config: &Config) -> Result<Addresses, AllocError>
    ensures networks { IfOk result (λ made. made.networks.items
        ≡ map (λ n. n.address) config.now.networks.items) }
    ensures peers { IfOk result (λ made. made.peers.items
        ≡ map (λ p. p.address) config.now.peers.items) }
{
    let networks = networks_of(alloc, &config.networks)?;
    let peers = peers_of(alloc, &config.peers)?;
    Ok(Addresses { networks, peers })
}

impl<D: Dialer + Copy> Workers<D> {
    // As many workers as the configuration asks for, which dial by that dialer.
    pub(crate) fn new<R: Net + AllocGlobal>(
        rt: &R,
        log: &Log,
        config: &Config,
        dialer: D,
    ) -> Result<Workers<D>, ServeFault> {
        let alloc = rt.alloc();
        let node = NodeSetup::new(alloc, addresses_of(alloc, config)?, log.try_clone()?)?;
        let mut workers = Workers {
            setups: Vec::new(alloc),
            intakes: Vec::new(alloc),
        };
        for _ in 0..config.limits.workers {
            workers.add(rt, &node, dialer)?;
        }
        Ok(workers)
    }

    // Adds a worker.
    fn add<R: Net + AllocGlobal>(
        &mut self,
        rt: &R,
        node: &NodeSetup,
        dialer: D,
    ) -> Result<(), ServeFault> {
        let (setup, intake) = node.add_port(rt, dialer)?;
        self.setups.push(setup).map_err(AllocError::from)?;
        self.intakes.push(intake).map_err(AllocError::from)?;
        Ok(())
    }
}
