//! What a network has seen of the node that its worker shares with others.
ghost use Rattle.std.specs.Prelude.{◌≡◌, []};
ghost use mathlib.Core.List.{IsPrefix};
ghost use Rattle.shared_node.specs.Lists.{changes_in};
ghost use Rattle.network_log.specs.Putting.{IsSeen};

use crate::put_list::PutList;
use crate::witness::Witness;
use node_ports::NetworkView;
use shared_node::{Naming, Pass, Receipt};

/// What a network of a worker has seen of its node: all that was published, in the order of the node, and all that was put by the
/// network.
#[derive(Drop)]
pub struct WorkerView<J: Naming> {
    pub(crate) place: usize,
    pub(crate) seen: Receipt<J>,
    pub(crate) puts: PutList,
}

impl<J: Naming> NetworkView for WorkerView<J> {
    ghost place = { λ v. v.place };

    ghost puts = { λ v. v.puts.changes };

    ghost held = { λ v. changes_in v.seen };

    fn place(&self) -> usize {
        self.place
    }
}

impl<J: Naming> WorkerView<J> {
    // The network at that place has seen what the pass has, and put nothing.
    pub(crate) fn new(place: usize, pass: &Pass<J>) -> WorkerView<J>
        ensures place { result.place ≡ place }
        ensures seen { result.seen ≡ pass.now.list }
        ensures puts { result.puts.changes ≡ [] }
    {
        WorkerView {
            place,
            seen: pass.receipt(),
            puts: PutList::new(),
        }
    }

    // It has seen what the pass has, which follows what it had seen.
    pub(crate) fn catch_up<C: Witness<J>>(&mut self, pass: &Pass<J>)
        requires { IsPrefix self.old.seen pass.now.list }
        ensures list { self.new.seen ≡ pass.now.list }
        ensures seen { ∥ IsSeen C.facts (changes_in self.old.seen) (changes_in self.new.seen) ∥₁ }
        ensures puts { self.new.puts.changes ≡ self.old.puts.changes }
        ensures place { self.new.place ≡ self.old.place }
    {
        self.seen = pass.receipt();
        C::is_held(&self.seen);
    }
}
