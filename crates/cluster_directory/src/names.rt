//! Names of nodes.
ghost use Rattle.std.specs.Prelude.{◌≡◌, ℕ, List, IfOk, IfErr, if◌then◌else◌, true};
ghost use Rattle.std.specs.List.{list_all};
ghost use Rattle.cluster_directory.specs.Names as spec;

use crate::fault::LinkFault;
use byte_text::{NoMemory, Text};
use std::alloc::Global;
use std::marker::Model;

/// The most bytes that the name of a node has.
pub const NODE_NAME_LIMIT: usize = 32;

/// The name of a node: 1 to 32 bytes of `a-z` and `0-9`. Contracts see it as the list of its bytes.
#[derive(Drop)]
pub struct NodeName {
    text: Text,
}

impl Model for NodeName {
    ghost Value = { List ℕ };

    ghost view = { λ n. n.text };

    ghost invariant = { λ n. spec.is_node_name n.text ≡ true };
}

fn is_node_byte(byte: u8) -> bool
    ensures { result ≡ spec.is_node_byte byte }
{
    (b'a' <= byte && byte <= b'z') || (b'0' <= byte && byte <= b'9')
}

fn has_node_bytes_only(text: &[u8]) -> bool
    ensures { result ≡ list_all spec.is_node_byte text.now }
{
    text.iter().all(|byte| is_node_byte(*byte))
}

/// Whether the text is the name of a node. It takes no memory.
pub fn is_node_name(text: &[u8]) -> bool
    ensures { result ≡ spec.is_node_name text.now }
{
    !text.is_empty() && text.len() <= NODE_NAME_LIMIT && has_node_bytes_only(text)
}

impl NodeName {
    /// The name of these bytes. Refused with [`LinkFault::BadForm`] unless it has 1 to 32 bytes of `a-z` and `0-9`.
    pub fn new(alloc: Global, text: &[u8]) -> Result<NodeName, LinkFault>
        ensures made { IfOk result (λ name. name ≡ text.now) }
        ensures refused { IfErr result (λ fault.
            fault ≡ (if spec.is_node_name text.now
            then LinkFault.NoMemory else LinkFault.BadForm)) }
    {
        if !is_node_name(text) {
            return Err(LinkFault::BadForm);
        }
        match NodeName::of_name(alloc, text) {
            Ok(name) => Ok(name),
            Err(NoMemory) => Err(LinkFault::NoMemory),
        }
    }

    /// The name of bytes that are one.
    pub fn of_name(alloc: Global, text: &[u8]) -> Result<NodeName, NoMemory>
        requires { spec.is_node_name text.now ≡ true }
        ensures { IfOk result (λ name. name ≡ text.now) }
    {
        let text = Text::new(alloc, text)?;
        Ok(NodeName { text })
    }

    /// The bytes of the name.
    pub fn as_bytes(&self) -> &[u8]
        ensures value { result.now ≡ self.now }
        ensures lawful { spec.is_node_name result.now ≡ true }
    {
        self.text.as_bytes()
    }

    /// An equal name.
    pub fn try_clone(&self, alloc: Global) -> Result<NodeName, NoMemory>
        ensures equal { IfOk result (λ copy. copy ≡ self.now) }
        ensures lawful { IfOk result (λ copy. spec.is_node_name copy ≡ true) }
    {
        let text = self.text.try_clone(alloc)?;
        Ok(NodeName { text })
    }

    /// Whether both are one name.
    pub fn is_same(&self, other: &NodeName) -> bool
        ensures { result ≡ spec.same_name self.now other.now }
    {
        self.as_bytes() == other.as_bytes()
    }
}
