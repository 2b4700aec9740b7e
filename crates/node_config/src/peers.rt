//! Reading the list of peers.
ghost use Rattle.std.specs.Prelude.{◌≡◌, true, false, IfOk};
ghost use Rattle.node_config.specs.Differing as spec;
ghost use Rattle.node_config.specs.Meaning.{IsPeerOf, ArePeersOf};
ghost use Rattle.node_config.specs.Sections.{table_of};
ghost use Rattle.cluster_directory.specs.Names.{same_name};

use crate::allowed::Allowed;
use crate::entries::PeerConfig;
use crate::fault::{ListName, ValueFault};
use crate::section::{Section, entry_of, push};
use cluster_directory::NodeName;
use std::alloc::Global;

fn has_peer(peers: &[PeerConfig], name: &NodeName) -> bool
    ensures { result ≡ spec.has_peer peers.now name.now }
{
    peers.iter().any(|peer| peer.name.is_same(name))
}

/// The peers, none of which is the node itself, and no two of which have one name.
pub(crate) fn read_peers(
    alloc: Global,
    top: Section<'_>,
    node: &NodeName,
) -> Result<Vec<PeerConfig>, ValueFault>
    ensures differ { IfOk result (λ peers. spec.all_differ spec.same_peer peers.items ≡ true) }
    ensures others { IfOk result (λ peers. spec.has_peer peers.items node.now ≡ false) }
    ensures values { IfOk result (λ peers. ArePeersOf (table_of top.entry) peers.items) }
{
    let items = top.list(ListName::Peers)?;
    let mut peers = Vec::new(alloc);
    for item in items {
        let entry = entry_of(item, ListName::Peers, peers.len())?;
        let peer = read_peer(alloc, entry, node, peers.as_slice())?;
        push(&mut peers, peer)?;
    }
    Ok(peers)
}

// A peer that isn't the node itself, nor one of those before.
fn read_peer(
    alloc: Global,
    entry: Section<'_>,
    node: &NodeName,
    before: &[PeerConfig],
) -> Result<PeerConfig, ValueFault>
    ensures other { IfOk result (λ peer. same_name peer.name node.now ≡ false) }
    ensures new { IfOk result (λ peer. spec.has_peer before.now peer.name ≡ false) }
    ensures values { IfOk result (λ peer. IsPeerOf (table_of entry.entry) peer) }
{
    let name = entry.node_name(alloc, "name")?;
    let address = entry.address("address")?;
    let version = entry.version("version")?;
    if name.is_same(node) {
        return Err(entry.wrong("name", Allowed::OtherNode));
    }
    if has_peer(before, &name) {
        return Err(entry.wrong("name", Allowed::NewName));
    }
    Ok(PeerConfig {
        name,
        address,
        version,
    })
}
