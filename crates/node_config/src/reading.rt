//! Reading a configuration.
ghost use Rattle.std.specs.Prelude.{◌≡◌, true, false, IfOk, IfErr, IsSomeAnd};
ghost use Rattle.toml.specs.Parse.{parse_document};
ghost use Rattle.toml.specs.View.{table_view};
ghost use Rattle.node_config.specs.Document.{IsDocument, IsRefused};
ghost use Rattle.node_config.specs.Differing.{all_differ, same_peer, has_peer, same_account};
ghost use Rattle.node_config.specs.Differing.{same_network, have_accounts};
ghost use Rattle.node_config.specs.Meaning.{AreLimitsOf, IsConfigOf, Says};
ghost use Rattle.node_config.specs.Names.{is_cluster_name};
ghost use Rattle.node_config.specs.Parts.{IsHeadOf, AreListsOf};
ghost use Rattle.node_config.specs.Sections.{table_of};

use crate::config::Config;
use crate::entries::{AccountConfig, NetworkConfig, PeerConfig};
use crate::fault::{ConfigFault, ConfigPlace, ValueFault};
use crate::keys::check_keys;
use crate::limits::{
    LEAST_BOUND, LEAST_MAXIMUM, Limits, MOST_BOUND, MOST_MAXIMUM, MOST_PLACES, MOST_RETAIN_DAYS,
    MOST_WORKERS,
};
use crate::networks::{read_accounts, read_networks};
use crate::peers::read_peers;
use crate::section::Section;
use byte_text::Text;
use cluster_directory::{NodeName, SharedWord};
use std::alloc::Global;
use std::net::SocketAddr;
use toml::Table;

/// Reads a configuration. It is refused for the first of these: it isn't UTF-8 or TOML, a key is missing or isn't known, a
/// value isn't allowed. A configuration that is read is what the text says: each value is the one under its own key, and
/// each list has all entries in their order. All are in their ranges, as [`Config`] and its parts say.
/// Tests show which wrong key or value is named: the first in the order of the keys, and of the entries.
pub fn read_config(alloc: Global, bytes: &[u8]) -> Result<Config, ConfigFault>
    ensures document { IfOk result (λ _. IsDocument bytes.now) }
    ensures refused { IfErr result (λ fault. IsRefused bytes.now fault) }
    ensures values { IfOk result (λ config. Says bytes.now config) }
{
    let table = document_in(alloc, bytes)?;
    if let Err(wrong) = check_keys(&table) {
        return Err(ConfigFault::BadKey(wrong));
    }
    match read_values(alloc, &table) {
        Ok(config) => Ok(config),
        Err(ValueFault::Wrong(wrong)) => Err(ConfigFault::BadValue(wrong)),
        Err(ValueFault::NoMemory) => Err(ConfigFault::NoMemory),
    }
}

/// The table that the bytes spell.
pub(crate) fn document_in(alloc: Global, bytes: &[u8]) -> Result<Table, ConfigFault>
    ensures document { IfOk result (λ _. IsDocument bytes.now) }
    ensures table { IfOk result (λ table.
        IsSomeAnd (parse_document bytes.now) (λ document. document ≡ table_view table)) }
    ensures refused { IfErr result (λ fault. IsRefused bytes.now fault) }
{
    let text = match std::str::from_utf8(bytes) {
        Ok(text) => text,
        Err(fault) => return Err(ConfigFault::BadText(line_at(bytes, fault.valid_up_to()))),
    };
    match toml::table_from_str(alloc, text) {
        Ok(table) => Ok(table),
        Err(fault) => match fault.span() {
            None => Err(ConfigFault::NoMemory),
            Some(span) => Err(ConfigFault::BadText(line_at(bytes, span.start))),
        },
    }
}

// The line that a byte stands in, counted from 1.
fn line_at(bytes: &[u8], at: usize) -> usize {
    let ends = bytes.iter().take(at).filter(|byte| **byte == b'\n').count();
    ends.saturating_add(1)
}

// Who the node is, and where it listens.
#[derive(Drop)]
struct NodeHead {
    name: Text,
    node: NodeName,
    listen: SocketAddr,
    peer_listen: SocketAddr,
    peer_word: SharedWord,
}

// The lists of a document.
#[derive(Drop)]
struct Lists {
    peers: Vec<PeerConfig>,
    accounts: Vec<AccountConfig>,
    networks: Vec<NetworkConfig>,
}

fn read_values(alloc: Global, table: &Table) -> Result<Config, ValueFault>
    ensures { IfOk result (λ config. IsConfigOf (table_view table.now) config) }
{
    let top = Section {
        table,
        place: ConfigPlace::Top,
    };
    let head = read_head(alloc, top)?;
    let limits = read_limits(top)?;
    let maximum = top.number_or_least("maximum", LEAST_MAXIMUM, MOST_MAXIMUM)?;
    let lists = read_lists(alloc, top, &head.node)?;
    let NodeHead {
        name,
        node,
        listen,
        peer_listen,
        peer_word,
    } = head;
    let Lists {
        peers,
        accounts,
        networks,
    } = lists;
    Ok(Config {
        name,
        node,
        listen,
        peer_listen,
        peer_word,
        limits,
        maximum,
        peers,
        accounts,
        networks,
    })
}

fn read_head(alloc: Global, top: Section<'_>) -> Result<NodeHead, ValueFault>
    ensures named { IfOk result (λ head. is_cluster_name head.name ≡ true) }
    ensures values { IfOk result (λ head. IsHeadOf (table_of top.entry) head) }
{
    let name = top.cluster_name(alloc, "name")?;
    let node = top.node_name(alloc, "node")?;
    let listen = top.address("listen")?;
    let peer_listen = top.address("peer_listen")?;
    let peer_word = top.shared_word(alloc, "peer_word")?;
    Ok(NodeHead {
        name,
        node,
        listen,
        peer_listen,
        peer_word,
    })
}

fn read_lists(alloc: Global, top: Section<'_>, node: &NodeName) -> Result<Lists, ValueFault>
    ensures peers { IfOk result (λ l. all_differ same_peer l.peers.items ≡ true) }
    ensures others { IfOk result (λ l. has_peer l.peers.items node.now ≡ false) }
    ensures accounts { IfOk result (λ l. all_differ same_account l.accounts.items ≡ true) }
    ensures networks { IfOk result (λ l. all_differ same_network l.networks.items ≡ true) }
    ensures known { IfOk result (λ l. have_accounts l.accounts.items l.networks.items ≡ true) }
    ensures values { IfOk result (λ l. AreListsOf (table_of top.entry) l) }
{
    let peers = read_peers(alloc, top, node)?;
    let accounts = read_accounts(alloc, top)?;
    let networks = read_networks(alloc, top, accounts.as_slice())?;
    Ok(Lists {
        peers,
        accounts,
        networks,
    })
}

fn read_limits(top: Section<'_>) -> Result<Limits, ValueFault>
    ensures { IfOk result (λ limits. AreLimitsOf (table_of top.entry) limits) }
{
    let workers = top.number("workers", 1, MOST_WORKERS)?;
    let places = top.number("places", 1, MOST_PLACES)?;
    let bound = top.number("bound", LEAST_BOUND, MOST_BOUND)?;
    let retain_days = top.number("retain_days", 0, MOST_RETAIN_DAYS)?;
    Ok(Limits {
        workers: workers as usize,
        places: places as usize,
        bound: bound as usize,
        retain_days,
    })
}
