//! The configuration of a keeper.
ghost use Rattle.std.specs.Prelude.{◌≡◌, true, false};
ghost use Rattle.node_config.specs.Differing as differing;

use crate::entries::PeerConfig;
use byte_text::Text;
use cluster_directory::{NodeName, SharedWord};

/// The configuration of a keeper. No two peers have one name, and each has a greater one than the keeper.
#[derive(Drop)]
pub struct KeeperConfig {
    /// The name of the keeper among the nodes.
    pub node: NodeName,
    /// The word that the nodes of the cluster share.
    pub peer_word: SharedWord,
    /// The path of its file, which is UTF-8.
    pub file: Text,
    /// The nodes.
    pub peers: Vec<PeerConfig>,
    ghost peers_differ: { differing.all_differ differing.same_peer peers.items ≡ true },
    ghost others: { differing.has_peer peers.items node ≡ false },
}
