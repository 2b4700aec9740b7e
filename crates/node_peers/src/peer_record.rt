//! What is kept of a peer over its connections.
ghost use Rattle.std.specs.Prelude.{◌≡◌, IfOk};
ghost use Rattle.node_peers.specs.Dialing.{at_once};

use crate::dialing::Dialing;
use crate::peer_link::{NoLink, PeerLink};
use cluster_directory::{NodeName, Terms, Version};
use node_ports::Connection;
use std::alloc::Global;
use std::marker::Model;

/// The life of a peer that the link knows.
#[derive(Clone, Copy)]
pub(crate) struct Known {
    pub(crate) incarnation: u64,
    /// Whether packets are made for it: its first hello bore no lower version than this program's.
    pub(crate) is_served: bool,
}

/// What is kept of a peer over its connections. Contracts see when it is dialed: all else is what the operator is told of it, and the
/// link, which has contracts of its own.
pub(crate) struct PeerRecord<C: Connection> {
    pub(crate) name: NodeName,
    pub(crate) link: PeerLink<C>,
    pub(crate) dialing: Dialing,
    /// The life that the link knows.
    pub(crate) known: Option<Known>,
    /// Whether the operator was told that this node and the peer are level.
    pub(crate) is_level: bool,
}

impl<C: Connection> Model for PeerRecord<C> {
    ghost use Rattle.node_peers.specs.declared.dialing.Dialing.{Dialing};

    ghost Value = { Dialing };

    ghost view = { λ r. r.dialing };
}

// Written out, so that this is proved once, and not in each function that lets a record go.
impl<C: Connection> Drop for PeerRecord<C> {
    fn drop(self) {
        let Self {
            name: _name,
            link: _link,
            dialing: _dialing,
            known: _known,
            is_level: _is_level,
        } = self;
    }
}

impl<C: Connection> PeerRecord<C> {
    /// The peer of that name at that place, without a connection. It is dialed at once, where this node is to do so.
    pub(crate) fn new(
        alloc: Global,
        terms: &Terms,
        place: usize,
        name: NodeName,
        now: u64,
    ) -> Result<PeerRecord<C>, NoLink>
        requires { terms.now ≡ C.facts.terms }
    {
        let link = PeerLink::new(alloc, terms, place, &name)?;
        let is_own = name.as_bytes() > terms.me().node().as_bytes();
        Ok(PeerRecord {
            name,
            link,
            dialing: Dialing::new(is_own, now),
            known: None,
            is_level: false,
        })
    }

    /// The peer said hello as a life that the link knows since. A later hello of the same life changes nothing.
    pub(crate) fn know(&mut self, incarnation: u64, version: Version)
        ensures { self.new ≡ self.old }
    {
        if self
            .known
            .is_none_or(|known| known.incarnation != incarnation)
        {
            self.known = Some(Known {
                incarnation,
                is_served: !version.is_lower_than(Version::OWN),
            });
        }
    }

    /// Whether packets are made for the life of the peer that the link knows.
    pub(crate) fn is_served(&self) -> bool {
        self.known.is_some_and(|known| known.is_served)
    }
}
