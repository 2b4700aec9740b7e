//! How a worker puts into its node, and what it has to do behind that.
ghost use Rattle.std.specs.Prelude.{◌≡◌, ◌+◌, ◌++◌, IfErr, IfOk, MatchResult, OnErr, OnOk, length, take};
ghost use Rattle.shared_node.specs.Lists.{changes_in, under};
ghost use Rattle.network_log.specs.Putting.{ArePublished, IsSeen};
ghost use Rattle.shared_node.specs.Passes.{FollowsAll};
ghost use Rattle.shared_node.specs.Puts.{appended_of};

use crate::marked::MarkedBuffers;
use crate::view::WorkerView;
use crate::witness::Witness;
use chat_change::{Buffer, Change, Moment};
use node_ports::NotPublished;
use shared_node::{Ends, Naming, NodeTaker, PutFault, Receipt};
use std::sync::Wait;

/// A node, the pass by which a worker puts into it, and what the worker has to do behind that.
#[derive(Drop)]
pub(crate) struct Publisher<'a, J: Naming, R: Ends, W: Wait> {
    pub(crate) taker: NodeTaker<'a, J, R, W>,
    // changes were published by it, and nobody asked for that yet
    has_news: bool,
    // changes were put by it and wait
    is_waiting: bool,
}

// How many of so many changes a refused put appended.
fn count_of(fault: PutFault, all: usize) -> usize
    ensures { result ≡ appended_of all fault }
{
    match fault {
        PutFault::Waiting => all,
        PutFault::NoMemory { appended } => appended,
        PutFault::Exhausted => 0,
    }
}

impl<'a, J: Naming, R: Ends, W: Wait> Publisher<'a, J, R, W> {
    // Nothing was put by it.
    pub(crate) fn new(taker: NodeTaker<'a, J, R, W>) -> Publisher<'a, J, R, W>
        ensures { result.taker ≡ taker.entry }
    {
        Publisher {
            taker,
            has_news: false,
            is_waiting: false,
        }
    }

    // Notes the buffers of those read markers among these changes that are further than the node's.
    pub(crate) fn note_marks(&mut self, marked: &mut MarkedBuffers, changes: &[Change]) {
        for change in changes {
            if let Change::Mark { buffer, at } = change {
                if self.is_further(buffer, *at) {
                    marked.note(buffer);
                }
            }
        }
    }

    // Whether that is further than the node's read marker of the buffer.
    fn is_further(&mut self, buffer: &Buffer, at: Moment) -> bool {
        match self.taker.pass.marker(buffer) {
            Ok(Some(before)) => before < at,
            Ok(None) => true,
            Err(_) => false,
        }
    }

    // Whether changes were published by it since this was last asked.
    pub(crate) fn take_news(&mut self) -> bool
        ensures { self.new.taker ≡ self.old.taker }
    {
        let has_news = self.has_news;
        self.has_news = false;
        has_news
    }

    // Whether changes that were put by it wait.
    pub(crate) fn is_waiting(&self) -> bool {
        self.is_waiting
    }

    // Puts changes behind all that the pass has seen and was told of.
    pub(crate) fn put_all(&mut self, changes: &[Change]) -> Result<Receipt<J>, NotPublished>
        ensures receipt { IfOk result (λ r. (before : _) × FollowsAll self.old.taker.pass before
            × (r ≡ before ++ under self.old.taker.pass.number changes.now)) }
        ensures list { IfOk result (λ r. self.new.taker.pass.list ≡ r) }
        ensures refused { OnErr result (self.new.taker.pass.list ≡ self.old.taker.pass.list) }
        ensures count { MatchResult result
            (λ _. self.new.taker.pass.count ≡ self.old.taker.pass.count + length changes.now)
            (λ e. self.new.taker.pass.count ≡ self.old.taker.pass.count + e.count) }
        ensures told { self.new.taker.pass.told ≡ self.old.taker.pass.told }
    {
        match self.taker.put(changes) {
            Ok(receipt) => {
                if self.is_waiting || !changes.is_empty() {
                    self.has_news = true;
                }
                self.is_waiting = false;
                Ok(receipt)
            }
            Err(fault) => {
                let count = count_of(fault, changes.len());
                if count > 0 {
                    self.is_waiting = true;
                }
                Err(NotPublished { count })
            }
        }
    }

    // Puts changes for the view's network, behind all that the node holds. The node counts as many as the view lists.
    pub(crate) fn put_by<C: Witness<J>>(
        &mut self,
        view: &mut WorkerView<J>,
        changes: &[Change],
    ) -> Result<(), NotPublished>
        ensures published { OnOk result ∥ ArePublished C.facts
            (changes_in view.old.seen) changes.now (changes_in view.new.seen) ∥₁ }
        ensures seen { OnErr result ∥ IsSeen C.facts
            (changes_in view.old.seen) (changes_in view.new.seen) ∥₁ }
        ensures all { OnOk result
            (view.new.puts.changes ≡ view.old.puts.changes ++ changes.now) }
        ensures first { IfErr result (λ fault.
            view.new.puts.changes ≡ view.old.puts.changes ++ take fault.count changes.now) }
        ensures put { ∥ C.facts.put view.old.place view.new.puts.changes ∥₁ }
        ensures count { MatchResult result
            (λ _. self.new.taker.pass.count ≡ self.old.taker.pass.count + length changes.now)
            (λ fault. self.new.taker.pass.count ≡ self.old.taker.pass.count + fault.count) }
        ensures place { view.new.place ≡ view.old.place }
    {
        self.taker.pass.learn(&view.seen);
        match self.put_all(changes) {
            Ok(receipt) => {
                C::is_held(&receipt);
                view.seen = receipt;
                view.puts.add_first(changes.len(), changes);
                C::is_put(view);
                Ok(())
            }
            Err(fault) => {
                view.puts.add_first(fault.count, changes);
                C::is_put(view);
                Err(fault)
            }
        }
    }
}
