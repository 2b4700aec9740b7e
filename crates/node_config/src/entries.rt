//! Entries of the lists of a configuration.
ghost use Rattle.std.specs.Prelude.{◌≡◌, true};
ghost use Rattle.std.specs.List.{list_all};
ghost use Rattle.chat_change.specs.Words.{is_name, is_target};

use byte_text::Text;
use cluster_directory::{NodeName, Version};
use irc_time::Moment;
use std::net::SocketAddr;

/// Another node of the cluster.
#[derive(Drop)]
pub struct PeerConfig {
    /// Its name.
    pub name: NodeName,
    /// Where it listens for peers.
    pub address: SocketAddr,
    /// The version of the hello that is said to it.
    pub version: Version,
}

/// An account of the cluster.
#[derive(Drop)]
pub struct AccountConfig {
    /// Its name.
    pub name: Text,
    /// What lets a client in.
    pub secret: Text,
    /// Before which nothing of it is kept.
    pub keep_from: Option<Moment>,
    ghost named: { is_name name ≡ true },
}

/// A network of an account, with whose server the node keeps a session.
#[derive(Drop)]
pub struct NetworkConfig {
    /// The name of the account.
    pub account: Text,
    /// The name of the network.
    pub name: Text,
    /// Where its server listens.
    pub address: SocketAddr,
    /// The nick that the node asks for (RFC 2812, section 3.1.2).
    pub nick: Text,
    /// The user name (RFC 2812, section 3.1.3).
    pub user: Text,
    /// The channels that the node joins as soon as the network is up.
    pub channels: Vec<Text>,
    ghost account_named: { is_name account ≡ true },
    ghost named: { is_name name ≡ true },
    ghost has_nick: { is_target nick ≡ true },
    ghost has_user: { is_target user ≡ true },
    ghost has_channels: { list_all is_target channels.items ≡ true },
}
