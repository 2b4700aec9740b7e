//! The link with a peer.
ghost use Rattle.std.specs.Prelude.{◌≡◌, IfOk};
ghost use Rattle.gossip_link.specs.Peer.{unheard};
ghost use Rattle.network_log.specs.Telling.{IsPeer};

use byte_text::NoMemory;
use cluster_directory::{NodeName, Terms};
use gossip_link::Link;
use node_ports::Connection;
use std::alloc::Global;
use std::marker::{Model, PhantomData};

/// Why there is no link.
#[derive(Clone, Copy, Debug, PartialEq, Eq)]
pub enum NoLink {
    /// No peer of that name is configured at that place.
    NotConfigured,
    /// There was no memory.
    NoMemory,
}

/// The link of this node with the peer at that place of its terms, which is kept over connections.
#[derive(Drop)]
pub struct PeerLink<C: Connection> {
    place: usize,
    pub(crate) link: Link,
    of: PhantomData<C>,
}

impl<C: Connection> Model for PeerLink<C> {
    ghost use Rattle.network_log.specs.Peer.{IsLinkWith};
    ghost use Rattle.node_peers.specs.PeerTie.{PeerTie};

    ghost Value = { PeerTie };

    ghost view = { λ l. record { place = l.place; link = l.link } };

    ghost invariant = { λ l. ∥ IsLinkWith C.facts l.place l.link ∥₁ };
}

// The link with the peer of that name, of which nothing is known yet.
fn link_with(alloc: Global, terms: &Terms, name: &NodeName) -> Result<Link, NoMemory>
    ensures { IfOk result (λ link. link
        ≡ record { me = terms.now.me; name = name.now; peer = unheard }) }
{
    let me = terms.me().try_clone(alloc)?;
    let name = name.try_clone(alloc)?;
    Ok(Link::new(me, name))
}

impl<C: Connection> PeerLink<C> {
    /// The link with the peer of that name at that place, of which nothing is known yet.
    pub fn new(
        alloc: Global,
        terms: &Terms,
        place: usize,
        name: &NodeName,
    ) -> Result<PeerLink<C>, NoLink>
        requires { terms.now ≡ C.facts.terms }
        ensures place { IfOk result (λ link. link.place ≡ place) }
        ensures unheard { IfOk result (λ link. link.link.peer ≡ unheard) }
    {
        if terms.index_of(name) != Some(place) {
            return Err(NoLink::NotConfigured);
        }
        let Ok(link) = link_with(alloc, terms, name) else {
            return Err(NoLink::NoMemory);
        };
        Ok(PeerLink {
            place,
            link,
            of: PhantomData,
        })
    }

    /// The place of the peer, which is configured.
    pub fn place(&self) -> usize
        ensures place { result ≡ self.now.place }
        ensures peer { ∥ IsPeer C.facts result ∥₁ }
    {
        self.place
    }
}
