//! The next packet for a peer.
ghost use Rattle.std.specs.Prelude.{◌≡◌, Some, OnErr, OnOk};
ghost use Rattle.network_log.specs.Peer.{IsLinkWith};
ghost use Rattle.node_peers.specs.Talk as spec;

use crate::dialogue::{PeerDialogue, owe};
use crate::loss::PeerLoss;
use crate::node_source::NodeSource;
use crate::turn::Turn;
use gossip_link::{Link, LinkFault};
use node_ports::NodePass;

impl PeerDialogue {
    /// Makes the next packet for the peer that was noted, where one is due. It is owed to that.
    pub(crate) fn advance<N: NodePass>(
        &mut self,
        turn: &Turn<'_, N::Connection>,
        place: usize,
        link: &mut Link,
        pass: &mut N,
        room: &mut Vec<u8>,
    ) -> Result<(), PeerLoss>
        requires noted { self.old.noted ≡ Some place }
        requires link { ∥ IsLinkWith N.Connection.facts place link.old ∥₁ }
        ensures made { OnOk result
            (spec.IsAdvanced N.Connection.facts turn.now.at self.old self.new) }
        ensures name { spec.IsSameTie link.old link.new }
        ensures err { OnErr result (spec.IsEnded self.old self.new) }
    {
        room.clear();
        let mut source = NodeSource { pass };
        let session = &mut self.session;
        match session.send_next(turn.alloc, link, &mut source, turn.at, room) {
            Ok(_) => owe(&mut self.output, &mut self.said_at, room, turn.at),
            Err(LinkFault::NoEntry) => Err(PeerLoss::NoEntry),
            Err(_) => Err(PeerLoss::NoMemory),
        }
    }
}
