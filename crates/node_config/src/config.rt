//! The configuration of a node.
ghost use Rattle.std.specs.Prelude.{◌≡◌, ◌≤◌, true, false};
ghost use Rattle.node_config.specs.Names.{is_cluster_name};
ghost use Rattle.node_config.specs.Differing as differing;
ghost use Rattle.node_config.specs.declared.limits.TheConstants.{LEAST_MAXIMUM, MOST_MAXIMUM};

use crate::entries::{AccountConfig, NetworkConfig, PeerConfig};
use crate::limits::Limits;
use byte_text::Text;
use cluster_directory::{NodeName, SharedWord};
use std::net::SocketAddr;

/// The configuration of a node. No two peers and no two accounts have one name, no two networks of one account have one
/// name, each network's account is there, and no peer has the name of this node.
#[derive(Drop)]
pub struct Config {
    /// The name of the cluster.
    pub name: Text,
    /// The name of this node.
    pub node: NodeName,
    /// Where it listens for clients.
    pub listen: SocketAddr,
    /// Where it listens for peers.
    pub peer_listen: SocketAddr,
    /// The word that the nodes of the cluster share.
    pub peer_word: SharedWord,
    /// Its numbers.
    pub limits: Limits,
    /// The most messages or buffers of one page.
    pub maximum: u32,
    /// The other nodes.
    pub peers: Vec<PeerConfig>,
    /// The accounts.
    pub accounts: Vec<AccountConfig>,
    /// The networks, in their order, which says by whom each is served.
    pub networks: Vec<NetworkConfig>,
    ghost named: { is_cluster_name name ≡ true },
    ghost some_messages: { LEAST_MAXIMUM ≤ maximum },
    ghost few_messages: { maximum ≤ MOST_MAXIMUM },
    ghost peers_differ: { differing.all_differ differing.same_peer peers.items ≡ true },
    ghost others: { differing.has_peer peers.items node ≡ false },
    ghost accounts_differ: { differing.all_differ differing.same_account accounts.items ≡ true },
    ghost networks_differ: { differing.all_differ differing.same_network networks.items ≡ true },
    ghost have_accounts: { differing.have_accounts accounts.items networks.items ≡ true },
}
