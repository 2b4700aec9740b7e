//! Who bears witness to what the node holds.
ghost use mathlib.Core.List.{IsPrefix};
ghost use Rattle.std.specs.Prelude.{List};
ghost use Rattle.chat_change.specs.declared.change.Change.{Change as Piece};
ghost use Rattle.shared_node.specs.Lists.{changes_in};

use crate::view::WorkerView;
use node_ports::{Connection, NetworkView};
use shared_node::{Naming, Receipt};

/// The connections of the node of that name, which say what it holds and what was put. They take the word of the node's own values
/// alone: nothing else makes a receipt or a view.
pub trait Witness<J: Naming>: Connection {
    /// What the receipt lists was published, and so was each first part of it.
    fn is_held(receipt: &Receipt<J>)
        ensures { (first : List Piece) → IsPrefix first (changes_in receipt.now)
            → ∥ Self.facts.held first ∥₁ };

    /// What the view lists is all that was put for the network at its place.
    fn is_put(view: &WorkerView<J>)
        ensures { ∥ Self.facts.put (⟦<WorkerView<J> as NetworkView>⟧.place view.now)
            (⟦<WorkerView<J> as NetworkView>⟧.puts view.now) ∥₁ };
}
