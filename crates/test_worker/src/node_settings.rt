//! What the configuration of a node says, and what the node holds at first. None is want of memory.
use crate::lists::with_one;
use crate::setting::Setting;
use bnc_work::NodeSettings;
use byte_text::Text;
use change_lines::read_change;
use chat_change::Change;
use cluster_directory::{
    Channels, ConfiguredAccount, Directory, Entry, Life, Network, NodeName, PeerTerms,
    SessionConfig, SharedWord, Terms, Version,
};
use node_ports::Accounts;
use std::alloc::Global;

const NETWORKS: [(&str, &str); 3] = [("demo", "net"), ("demo", "two"), ("eve", "net")];

fn text(alloc: Global, text: &str) -> Option<Text> {
    Text::new(alloc, text.as_bytes()).ok()
}

fn network_of(alloc: Global, name: &str) -> Option<Network> {
    let (name, nick) = text(alloc, name).zip(text(alloc, "al"))?;
    Some(Network::new(name, Entry::new(false, nick, Vec::new(alloc), false)))
}

// An account with those of the first networks, so many, that are its own.
fn account_of(alloc: Global, name: &str, count: usize) -> Option<ConfiguredAccount> {
    let (text, secret) = text(alloc, name).zip(text(alloc, "s3cret"))?;
    let mut account = ConfiguredAccount::new(alloc, text, secret);
    for (owner, network) in NETWORKS.iter().take(count) {
        if *owner == name {
            account.add(network_of(alloc, network)?).ok()?;
        }
    }
    Some(account)
}

fn directory_of(alloc: Global, count: usize) -> Option<Directory> {
    let mut directory = Directory::new(alloc);
    for name in ["demo", "eve"] {
        directory.add(account_of(alloc, name, count)?).ok()?;
    }
    Some(directory)
}

// The configuration of the session with that network of that account.
fn config_of(alloc: Global, account: &str, network: &str) -> Option<SessionConfig> {
    let place = text(alloc, account).zip(text(alloc, network));
    let names = text(alloc, "al").zip(text(alloc, "alan"));
    let ((account, network), (nick, user)) = place.zip(names)?;
    Some(SessionConfig {
        account,
        network,
        nick,
        user,
        channels: Channels::of(Vec::new(alloc)),
    })
}

fn configs_of(alloc: Global, count: usize) -> Option<Vec<SessionConfig>> {
    let mut configs = Vec::new(alloc);
    for (account, network) in NETWORKS.iter().take(count) {
        configs = with_one(configs, config_of(alloc, account, network))?;
    }
    Some(configs)
}

fn node_name(alloc: Global, name: &str) -> Option<NodeName> {
    NodeName::new(alloc, name.as_bytes()).ok()
}

fn names_in(alloc: Global, names: &str) -> Option<Vec<NodeName>> {
    let mut all = Vec::new(alloc);
    for name in names.split_whitespace() {
        all = with_one(all, node_name(alloc, name))?;
    }
    Some(all)
}

// The terms with the peer of that name. Each but n9 hears the own version.
fn peer_of(alloc: Global, name: &str) -> Option<PeerTerms> {
    let version = if name == "n9" {
        Version::One
    } else {
        Version::OWN
    };
    let name = node_name(alloc, name)?;
    Some(PeerTerms { name, version })
}

fn peers_in(alloc: Global, names: &str) -> Option<Vec<PeerTerms>> {
    let mut all = Vec::new(alloc);
    for name in names.split_whitespace() {
        all = with_one(all, peer_of(alloc, name))?;
    }
    Some(all)
}

// The terms of the node n1 in its incarnation 7, with the peers of these names.
fn terms_of(alloc: Global, peers: &str) -> Option<Terms> {
    let word = SharedWord::new(alloc, b"green").ok();
    let all = word.zip(node_name(alloc, "n1")).zip(peers_in(alloc, peers));
    let ((word, name), peers) = all?;
    Some(Terms::new(word, Life::new(name, 7), peers))
}

/// What the configuration of the node says.
pub fn settings_of(alloc: Global, setting: Setting<'_>) -> Option<NodeSettings> {
    let count = setting.networks;
    let accounts = directory_of(alloc, count).zip(configs_of(alloc, count));
    let peers = terms_of(alloc, setting.peers).zip(names_in(alloc, setting.peers));
    let all = accounts.zip(peers).zip(text(alloc, "bnc.example"));
    let (((directory, networks), (terms, peers)), cluster) = all?;
    Some(NodeSettings {
        cluster,
        maximum: 100,
        accounts: Accounts::new(directory, networks),
        terms,
        peers,
        retain_days: 30,
    })
}

// The post of `#a` of that number, at so many seconds.
fn post(alloc: Global, number: u64) -> Option<Change> {
    let ms = number.saturating_mul(1000);
    let line = format!(in alloc; "C POST demo net #a m{number} {ms} P #a bob!b@h :hi").ok()?;
    read_change(alloc, line.as_bytes()).ok()
}

/// So many posts of `#a`: m0, m1 and so on, a second apart from the beginning of 1970.
pub fn posts(alloc: Global, count: u64) -> Option<Vec<Change>> {
    let mut changes = Vec::new(alloc);
    for number in 0..count {
        changes = with_one(changes, post(alloc, number))?;
    }
    Some(changes)
}
