//! Reading the configuration of a keeper.
ghost use Rattle.std.specs.Prelude.{IfOk, IfErr};
ghost use Rattle.toml.specs.View.{table_view};
ghost use Rattle.node_config.specs.Document.{IsDocument, IsRefused};
ghost use Rattle.node_config.specs.Keeper.{IsKeeperOf, SaysOfKeeper};

use crate::allowed::Allowed;
use crate::entries::PeerConfig;
use crate::fault::{ConfigFault, ConfigPlace, ValueFault};
use crate::keeper::KeeperConfig;
use crate::keys::check_keeper_keys;
use crate::peers::read_peers;
use crate::reading::document_in;
use crate::section::Section;
use cluster_directory::NodeName;
use std::alloc::Global;
use toml::Table;

/// Reads the configuration of a keeper. It is refused as that of a node is ([`read_config`](crate::read_config)), and where the
/// keeper's name isn't smaller than each peer's.
pub fn read_keeper_config(alloc: Global, bytes: &[u8]) -> Result<KeeperConfig, ConfigFault>
    ensures document { IfOk result (λ _. IsDocument bytes.now) }
    ensures refused { IfErr result (λ fault. IsRefused bytes.now fault) }
    ensures values { IfOk result (λ config. SaysOfKeeper bytes.now config) }
{
    let table = document_in(alloc, bytes)?;
    if let Err(wrong) = check_keeper_keys(&table) {
        return Err(ConfigFault::BadKey(wrong));
    }
    match read_values(alloc, &table) {
        Ok(config) => Ok(config),
        Err(ValueFault::Wrong(wrong)) => Err(ConfigFault::BadValue(wrong)),
        Err(ValueFault::NoMemory) => Err(ConfigFault::NoMemory),
    }
}

fn read_values(alloc: Global, table: &Table) -> Result<KeeperConfig, ValueFault>
    ensures { IfOk result (λ config. IsKeeperOf (table_view table.now) config) }
{
    let top = Section {
        table,
        place: ConfigPlace::Keeper,
    };
    let node = top.node_name(alloc, "node")?;
    let peer_word = top.shared_word(alloc, "peer_word")?;
    let file = top.path(alloc, "file")?;
    let peers = read_peers(alloc, top, &node)?;
    if !opens_each(&node, &peers) {
        return Err(top.wrong("node", Allowed::SmallestName));
    }
    Ok(KeeperConfig {
        node,
        peer_word,
        file,
        peers,
    })
}

// Whether a node of that name opens the connections with each of the peers: of two nodes, the one whose name is less does.
fn opens_each(node: &NodeName, peers: &[PeerConfig]) -> bool {
    peers
        .iter()
        .all(|peer| node.as_bytes() < peer.name.as_bytes())
}
