//! What a node's configuration says.
use byte_text::Text;
use cluster_directory::{NodeName, Terms};
use node_ports::Accounts;

/// What the configuration of a node says and its start settles, which never changes. All workers share it.
#[derive(Drop)]
pub struct NodeSettings {
    /// The name of the cluster: 1 to 63 bytes of letters, digits, `.` and `-`.
    pub cluster: Text,
    /// The most messages or buffers of an answer.
    pub maximum: u32,
    /// The accounts, and their networks. Worker i of n serves those whose place among the networks, modulo n, is i.
    pub accounts: Accounts,
    /// The shared word, the node's own life, and the terms with each peer.
    pub terms: Terms,
    /// The names of the peers, in the same order.
    pub peers: Vec<NodeName>,
    /// For how many days messages are kept; 0 is for ever.
    pub retain_days: u32,
}
