//! The configuration of a node: a TOML text, read into values that are all in their ranges.
//!
//! ```toml
//! name = "bnc.example"            # of the cluster: 1 to 63 letters, digits, `.` and `-`
//! node = "n1"                     # of this node: 1 to 32 bytes of `a-z` and `0-9`
//! listen = "127.0.0.1:6667"       # for clients: an IP address and a port
//! peer_listen = "127.0.0.1:7000"  # for the other nodes
//! peer_word = "green"             # shared by all nodes: 1 to 64 bytes without NUL, CR, LF and space
//! workers = 2                     # threads that serve connections, 1 to 16
//! places = 64                     # clients at once, 1 to 4096
//! bound = 65536                   # bytes that may be owed to a client, 1024 to 1048576
//! retain_days = 30                # after which messages go, 0 to 36500; 0 keeps all
//! maximum = 100                   # messages or buffers of one page, 100 to 1000; 100 where it is missing
//!
//! [[peer]]                        # each other node
//! name = "n2"
//! address = "127.0.0.1:7001"
//! version = 3                     # of the lines between nodes, 1 to 3; 3 where it is missing
//!
//! [[account]]
//! name = "demo"                   # 1 to 32 bytes of `a-z`, `0-9`, `-` and `_`
//! secret = "s3cret"
//! keep_from = "2026-01-01T00:00:00.000Z"  # nothing older is kept; may be missing
//!
//! [[network]]                     # each network of an account
//! account = "demo"
//! name = "net"                    # 1 to 32 bytes of `a-z`, `0-9`, `-` and `_`
//! address = "127.0.0.1:6700"
//! nick = "al"
//! user = "al"
//! channels = ["#a"]
//! ```
//!
//! A keeper, which holds the history in a file and has no clients and no networks, has a configuration of its own
//! ([`read_keeper_config`]):
//!
//! ```toml
//! node = "k1"                     # smaller than the name of each peer by its bytes
//! peer_word = "green"
//! file = "/var/lib/bnc-keep/past"
//!
//! [[peer]]                        # each node, as above
//! name = "n1"
//! address = "127.0.0.1:7000"
//! ```
//!
//! All keys but `maximum`, `version` and `keep_from` are needed, and no others may stand there; each of the three lists
//! may be missing.
//! [`read_config`] answers a [`Config`] or the first [`ConfigFault`], which says where the text is wrong and what is
//! allowed there, and never shows a secret or the shared word. A [`NamedFault`] shows the name of the entry too, by
//! [`entry_name`]. A [`Config`] gives what the parts of a node begin with: the directory of accounts and networks for clients'
//! sessions, the names of the peers, and a copy of each network for the session with its server. No type that holds a secret
//! or the shared word has a `Debug` text.
#![tactic(auto)]

mod allowed;
mod beginnings;
mod config;
mod entries;
mod fault;
mod keeper;
mod keeper_reading;
mod keys;
mod limits;
mod names;
mod naming;
mod networks;
mod peers;
mod reading;
mod section;

pub use allowed::Allowed;
pub use config::Config;
pub use entries::{AccountConfig, NetworkConfig, PeerConfig};
pub use fault::{ConfigFault, ConfigPlace, ListName, Wrong};
pub use keeper::KeeperConfig;
pub use keeper_reading::read_keeper_config;
pub use limits::Limits;
pub use names::is_cluster_name;
pub use naming::{NamedFault, entry_name};
pub use reading::read_config;
