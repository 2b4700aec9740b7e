//! What a turn of a worker brings to its peers.
ghost use Rattle.std.specs.Prelude.{◌≡◌};

use cluster_directory::Terms;
use node_ports::Connection;
use std::alloc::Global;
use std::marker::PhantomData;

/// What a turn of a worker brings to its peers: memory, the terms of the node, which never change, and the moment by the monotonic
/// clock, in milliseconds.
#[derive(Drop)]
pub struct Turn<'a, C: Connection> {
    pub alloc: Global,
    pub terms: &'a Terms,
    pub at: u64,
    pub of: PhantomData<C>,
    pub ghost are_own: { terms.now ≡ C.facts.terms },
}
