//! Lives of nodes.
ghost use Rattle.std.specs.Prelude.{◌≡◌, ◌<◌, ◌^◌, IfOk};
ghost use Rattle.cluster_directory.specs.Names.{same_name};

use crate::names::NodeName;
use byte_text::NoMemory;
use std::alloc::Global;
use std::marker::Model;

/// A node from one start to the next: its name, and the incarnation, which is greater after each start.
#[derive(Drop)]
pub struct Life {
    node: NodeName,
    incarnation: u64,
}

impl Model for Life {
    ghost use Rattle.cluster_directory.specs.Life as spec;

    ghost Value = { spec.Life };

    ghost view = { λ l. record { node = l.node; incarnation = l.incarnation } };
}

impl Life {
    ghost use Rattle.cluster_directory.specs.Life as spec;
    ghost use Rattle.cluster_directory.specs.Life.{IsLife};

    /// The life of a node in an incarnation.
    pub fn new(node: NodeName, incarnation: u64) -> Life
        ensures life { result ≡ record { node = node; incarnation = incarnation } }
        ensures fits { result.incarnation < 2 ^ 64 }
    {
        Life { node, incarnation }
    }

    /// The name of the node.
    pub fn node(&self) -> &NodeName
        ensures { result.now ≡ self.now.node }
    {
        &self.node
    }

    /// The incarnation.
    pub fn incarnation(&self) -> u64
        ensures { result ≡ self.now.incarnation }
    {
        self.incarnation
    }

    /// An equal life.
    pub fn try_clone(&self, alloc: Global) -> Result<Life, NoMemory>
        ensures equal { IfOk result (λ copy. copy ≡ self.now) }
        ensures lawful { IfOk result IsLife }
    {
        let incarnation = self.incarnation();
        let node = self.node.try_clone(alloc)?;
        Ok(Life { node, incarnation })
    }

    /// Whether it is a life of the node of that name.
    pub fn is_of(&self, name: &NodeName) -> bool
        ensures { result ≡ same_name self.now.node name.now }
    {
        self.node.is_same(name)
    }

    /// Whether both are one life: of one node, in one incarnation.
    pub fn is_same(&self, other: &Life) -> bool
        ensures { result ≡ spec.same_life self.now other.now }
    {
        self.node.is_same(&other.node) && self.incarnation == other.incarnation
    }
}
