//! What never changes of a node.
ghost use Rattle.std.specs.Prelude.{◌≡◌, IfOk, map};
ghost use Rattle.node_intake.specs.Settings as spec;
ghost use Rattle.node_config.specs.Beginnings.{names_of};

use bnc_work::NodeSettings;
use byte_text::NoMemory;
use cluster_directory::{Channels, Life, LinkFault, PeerTerms, SessionConfig, SharedWord, Terms};
use node_config::{Config, NetworkConfig, PeerConfig};
use node_ports::Accounts;
use std::alloc::Global;

fn session_of(alloc: Global, network: &NetworkConfig) -> Result<SessionConfig, NoMemory>
    ensures { IfOk result (λ session. session ≡ spec.session_of network.now) }
{
    let NetworkConfig {
        account,
        name,
        nick,
        user,
        channels,
        ..
    } = network.try_clone(alloc)?;
    Ok(SessionConfig {
        account,
        network: name,
        nick,
        user,
        channels: Channels::of(channels),
    })
}

fn sessions_of(alloc: Global, networks: &[NetworkConfig]) -> Result<Vec<SessionConfig>, NoMemory>
    ensures { IfOk result (λ sessions. sessions.items ≡ spec.sessions_of networks.now) }
{
    let mut sessions = Vec::new(alloc);
    for network in networks {
        let session = session_of(alloc, network)?;
        if sessions.push(session).is_err() {
            return Err(NoMemory);
        }
    }
    Ok(sessions)
}

fn word_of(alloc: Global, word: &SharedWord) -> Result<SharedWord, NoMemory>
    ensures { IfOk result (λ copy. copy ≡ word.now) }
{
    match SharedWord::new(alloc, word.as_bytes()) {
        Ok(word) => Ok(word),
        Err(_) => Err(NoMemory),
    }
}

fn peer_terms_of(alloc: Global, peer: &PeerConfig) -> Result<PeerTerms, NoMemory>
    ensures { IfOk result (λ terms. terms ≡ spec.peer_terms_of peer.now) }
{
    let name = peer.name.try_clone(alloc)?;
    Ok(PeerTerms {
        name,
        version: peer.version,
    })
}

fn all_peer_terms_of(alloc: Global, peers: &[PeerConfig]) -> Result<Vec<PeerTerms>, NoMemory>
    ensures { IfOk result (λ all. all.items ≡ map spec.peer_terms_of peers.now) }
{
    let mut all = Vec::new(alloc);
    for peer in peers {
        let terms = peer_terms_of(alloc, peer)?;
        if all.push(terms).is_err() {
            return Err(NoMemory);
        }
    }
    Ok(all)
}

fn terms_of(alloc: Global, config: &Config, incarnation: u64) -> Result<Terms, NoMemory>
    ensures { IfOk result (λ terms. terms ≡ spec.terms_of config.now incarnation) }
{
    let word = word_of(alloc, &config.peer_word)?;
    let me = Life::new(config.node.try_clone(alloc)?, incarnation);
    let peers = all_peer_terms_of(alloc, &config.peers)?;
    Ok(Terms::new(word, me, peers))
}

/// What never changes of a node, in that incarnation of it: what its configuration says.
pub(crate) fn settings_of(
    alloc: Global,
    config: &Config,
    incarnation: u64,
) -> Result<NodeSettings, NoMemory>
    ensures cluster { IfOk result (λ made. made.cluster ≡ config.now.name) }
    ensures maximum { IfOk result (λ made. made.maximum ≡ config.now.maximum) }
    ensures accounts { IfOk result (λ made. made.accounts ≡ spec.accounts_of config.now) }
    ensures terms { IfOk result (λ made. made.terms ≡ spec.terms_of config.now incarnation) }
    ensures peers { IfOk result (λ made. made.peers.items
        ≡ names_of config.now.peers.items) }
    ensures retain_days { IfOk result (λ made. made.retain_days
        ≡ config.now.limits.retain_days) }
{
    let cluster = config.name.try_clone(alloc)?;
    let directory = config.directory(alloc)?;
    let networks = sessions_of(alloc, &config.networks)?;
    let terms = terms_of(alloc, config, incarnation)?;
    let peers = config.peer_names(alloc)?;
    Ok(NodeSettings {
        cluster,
        maximum: config.maximum,
        accounts: Accounts::new(directory, networks),
        terms,
        peers,
        retain_days: config.limits.retain_days,
    })
}
