//! What the node holds, which its workers share with each other and with their peers.
ghost use mathlib.Core.List.{IsPrefix};
ghost use Rattle.std.specs.Prelude.{◌≡◌, ◌↔◌, ◌≤◌, ◌+◌, ◌++◌, ℕ, Err, List, [], IsTrue, IfOk, IfErr, OnOk, OnErr, take};
ghost use Rattle.byte_text.specs.Writes.{Writes};
ghost use Rattle.chat_change.specs.declared.change.Change.{Change as Piece};
ghost use Rattle.chat_history.specs.History.{mark, norm};
ghost use Rattle.chat_history.specs.Lookups.{IsShown};
ghost use Rattle.chat_history.specs.Numbering as numbering;
ghost use Rattle.chat_history.specs.Retention.{due_floors};
ghost use Rattle.chat_query.specs.Answers.{answer_of};
ghost use Rattle.network_log.specs.Peer.{IsInNode};
ghost use Rattle.network_log.specs.Putting.{AreBrought, AreDueFloors, ArePublished, IsSeen, MayBePutFor};

use crate::connection::Connection;
use byte_text::NoMemory;
use chat_change::{Buffer, Change, Moment, MsgId};
use chat_history::{Delta, DeltaFault, NoEntry};
use chat_query::{Answered, AskFault, Facts};
use irc_line::Line;
use std::alloc::Global;
use std::io::Write;

/// Changes that were put aren't published yet.
#[derive(Clone, Copy, Debug, PartialEq, Eq)]
pub struct NotPublished {
    /// How many of them, the first ones, the node has. They are published with the next put that succeeds.
    pub count: usize,
}

/// How far a network has seen what the node holds. The network alone has it, so that it changes only as the network itself asks
/// or puts.
pub trait NetworkView: Drop {
    /// The place of the network.
    ghost place: { Self → ℕ };

    /// All that was put by it, in order.
    ghost puts: { Self → List Piece };

    /// All that the node was last seen to have published, in order.
    ghost held: { Self → List Piece };

    /// The place of the network.
    fn place(&self) -> usize
        ensures { result ≡ place self.now };
}

/// A worker's way into its node, which is lent to its networks in turn. Others put too, between any two calls. What comes into the
/// node by it is put by right, or was sent by a peer that had greeted: no other call brings changes.
pub trait NodePass: Drop {
    /// The connections of the node.
    type Connection: Connection;

    /// What a network has seen.
    type View: NetworkView;

    /// Views were given of places below this alone.
    ghost given: { Self → ℕ };

    /// All that the node was last seen to have published, in order, by the worker itself.
    ghost seen: { Self → List Piece };

    /// What the node holds, for the network at that place, for which nothing was put. Each place is asked for once, in their order.
    fn view(&mut self, place: usize) -> Result<Self::View, NoMemory>
        requires { given self.old ≤ place }
        ensures given { IfOk result (λ _. given self.new ≡ place + 1) }
        ensures place { IfOk result (λ view. Self.View.place view ≡ place) }
        ensures none { IfOk result (λ view. Self.View.puts view ≡ []) }
        ensures held { IfOk result (λ view.
            ∥ Self.Connection.facts.held (Self.View.held view) ∥₁) };

    /// Puts changes for a network behind all that the node holds, and publishes them with all that waits. The network has to have
    /// come to where they are to be put.
    fn put(&mut self, view: &mut Self::View, changes: &[Change]) -> Result<(), NotPublished>
        requires { ∥ MayBePutFor Self.Connection.facts (Self.View.place view.old)
            (Self.View.puts view.old) (Self.View.held view.old) changes.now ∥₁ }
        ensures published { OnOk result ∥ ArePublished Self.Connection.facts
            (Self.View.held view.old) changes.now (Self.View.held view.new) ∥₁ }
        ensures seen { OnErr result ∥ IsSeen Self.Connection.facts
            (Self.View.held view.old) (Self.View.held view.new) ∥₁ }
        ensures all { OnOk result
            (Self.View.puts view.new ≡ Self.View.puts view.old ++ changes.now) }
        ensures first { IfErr result (λ fault. Self.View.puts view.new
            ≡ Self.View.puts view.old ++ take fault.count changes.now) }
        ensures put { ∥ Self.Connection.facts.put (Self.View.place view.old)
            (Self.View.puts view.new) ∥₁ }
        ensures place { Self.View.place view.new ≡ Self.View.place view.old }
        ensures given { given self.new ≡ given self.old };

    /// Answers a question about the past, with the facts of the session that asks, from all that the node holds. Where it isn't
    /// entered, and for want of memory, nothing is written.
    fn ask<W: Write>(
        &mut self,
        view: &mut Self::View,
        facts: &Facts,
        line: &Line<'_>,
        writer: &mut W,
    ) -> Result<Answered, AskFault>
        ensures text { Writes W.contents writer.old writer.new result
            (answer_of (Self.View.held view.new) facts.now line.now).text }
        ensures answered { IfOk result (λ a.
            a ≡ (answer_of (Self.View.held view.new) facts.now line.now).answered) }
        ensures no_entry { result ≡ Err AskFault.NoEntry → writer.new ≡ writer.old }
        ensures memory { result ≡ Err AskFault.NoMemory → writer.new ≡ writer.old }
        ensures seen { ∥ IsSeen Self.Connection.facts
            (Self.View.held view.old) (Self.View.held view.new) ∥₁ }
        ensures puts { Self.View.puts view.new ≡ Self.View.puts view.old }
        ensures place { Self.View.place view.new ≡ Self.View.place view.old }
        ensures given { given self.new ≡ given self.old };

    /// Whether a visible record of the buffer has that id.
    fn shown(&mut self, view: &mut Self::View, buffer: &Buffer, id: &MsgId) -> Result<bool, NoEntry>
        ensures shown { IfOk result (λ shown. IsTrue shown
            ↔ IsShown (norm (Self.View.held view.new)) buffer.now id.now) }
        ensures seen { ∥ IsSeen Self.Connection.facts
            (Self.View.held view.old) (Self.View.held view.new) ∥₁ }
        ensures puts { Self.View.puts view.new ≡ Self.View.puts view.old }
        ensures place { Self.View.place view.new ≡ Self.View.place view.old }
        ensures given { given self.new ≡ given self.old };

    /// The read marker of a buffer, or None where none was set.
    fn marker(&mut self, view: &mut Self::View, buffer: &Buffer) -> Result<Option<Moment>, NoEntry>
        ensures marker { IfOk result (λ marker.
            marker ≡ mark (Self.View.held view.new) buffer.now) }
        ensures seen { ∥ IsSeen Self.Connection.facts
            (Self.View.held view.old) (Self.View.held view.new) ∥₁ }
        ensures puts { Self.View.puts view.new ≡ Self.View.puts view.old }
        ensures place { Self.View.place view.new ≡ Self.View.place view.old }
        ensures given { given self.new ≡ given self.old };

    /// The floors that are due at that moment in all that the node holds.
    fn due_floors(&mut self, alloc: Global, now: Moment) -> Result<Vec<Change>, DeltaFault>
        ensures floors { IfOk result (λ floors. floors.items
            ≡ due_floors (norm (seen self.new)) now Self.Connection.facts.days) }
        ensures given { given self.new ≡ given self.old };

    /// Puts floors that are due, and publishes them with all that waits.
    fn put_floors(&mut self, floors: &[Change]) -> Result<(), NotPublished>
        requires { ∥ AreDueFloors Self.Connection.facts (seen self.old) floors.now ∥₁ }
        ensures published { OnOk result ∥ ArePublished Self.Connection.facts
            (seen self.old) floors.now (seen self.new) ∥₁ }
        ensures given { given self.new ≡ given self.old };

    /// The delta since a number of all that the node holds, for a peer.
    fn delta(&mut self, alloc: Global, from: u64) -> Result<Delta, DeltaFault>
        ensures delta { IfOk result (λ d. d ≡ numbering.delta 0 (seen self.new) from) }
        ensures seen { IsPrefix (seen self.old) (seen self.new) }
        ensures held { ∥ Self.Connection.facts.held (seen self.new) ∥₁ }
        ensures given { given self.new ≡ given self.old };

    /// Takes what a peer sent, and publishes it with all that waits.
    fn take(&mut self, changes: &[Change]) -> Result<(), NotPublished>
        requires { ∥ AreBrought Self.Connection.facts changes.now ∥₁ }
        ensures taken { OnOk result ∥ IsInNode Self.Connection.facts changes.now ∥₁ }
        ensures given { given self.new ≡ given self.old };

    /// Publishes what waits.
    fn publish(&mut self) -> Result<(), NotPublished>
        ensures { given self.new ≡ given self.old };
}
