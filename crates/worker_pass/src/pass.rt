//! A worker's way into the node that it shares with others.
ghost use Rattle.std.specs.Prelude.{◌≡◌, ◌≢◌, Err, MatchBool};

use crate::gate::Gate;
use crate::marked::MarkedBuffers;
use crate::publisher::Publisher;
use crate::view::WorkerView;
use crate::witness::Witness;
use crate::work_pass::WorkPass;
use byte_text::NoMemory;
use chat_change::{Buffer, Change, Moment, MsgId};
use chat_history::{Delta, DeltaFault, NoEntry};
use chat_query::{Answered, AskFault, Facts};
use irc_line::Line;
use node_ports::{NodePass, NotPublished};
use shared_node::{Ends, Naming, NodeTaker};
use std::alloc::Global;
use std::io::Write;
use std::marker::PhantomData;
use std::sync::Wait;

/// A worker's pass to a node that many workers share, behind the gate that is asked before each answer.
#[derive(Drop)]
pub struct WorkerPass<'a, C: Witness<J>, J: Naming, R: Ends, W: Wait, G: Gate> {
    alloc: Global,
    publisher: Publisher<'a, J, R, W>,
    gate: &'a G,
    worker: usize,
    days: u32,
    // views were given of places below this alone
    given: usize,
    is_shut: bool,
    marked: MarkedBuffers,
    of: PhantomData<C>,
    ghost are_days: { days ≡ C.facts.days },
}

// Whether a question wasn't entered, so that nothing was read.
fn has_no_entry(answered: &Result<Answered, AskFault>) -> bool
    ensures { MatchBool result (answered.now ≡ Err AskFault.NoEntry)
        (answered.now ≢ Err AskFault.NoEntry) }
{
    matches!(answered, Err(AskFault::NoEntry))
}

impl<'a, C: Witness<J>, J: Naming, R: Ends, W: Wait, G: Gate> WorkerPass<'a, C, J, R, W, G> {
    /// The pass of the worker of that number. Messages are kept for so many days.
    pub fn new(
        alloc: Global,
        taker: NodeTaker<'a, J, R, W>,
        gate: &'a G,
        worker: usize,
        days: u32,
    ) -> WorkerPass<'a, C, J, R, W, G>
        requires { days ≡ C.facts.days }
        ensures { ⟦<WorkerPass<'a, C, J, R, W, G> as NodePass>⟧.given result ≡ 0 }
    {
        WorkerPass {
            alloc,
            publisher: Publisher::new(taker),
            gate,
            worker,
            days,
            given: 0,
            is_shut: false,
            marked: MarkedBuffers::new(alloc),
            of: PhantomData,
        }
    }
}

impl<'a, C: Witness<J>, J: Naming, R: Ends, W: Wait, G: Gate> NodePass
    for WorkerPass<'a, C, J, R, W, G> {
    ghost use Rattle.shared_node.specs.Lists.{changes_in};

    type Connection = C;

    type View = WorkerView<J>;

    ghost given = { λ p. p.given };

    ghost seen = { λ p. changes_in p.publisher.taker.pass.list };

    fn view(&mut self, place: usize) -> Result<WorkerView<J>, NoMemory> {
        let Some(given) = place.checked_add(1) else {
            return Err(NoMemory);
        };
        self.given = given;
        let view = WorkerView::new(place, &self.publisher.taker.pass);
        C::is_held(&view.seen);
        Ok(view)
    }

    fn put(&mut self, view: &mut WorkerView<J>, changes: &[Change]) -> Result<(), NotPublished> {
        self.publisher.put_by::<C>(view, changes)
    }

    fn ask<X: Write>(
        &mut self,
        view: &mut WorkerView<J>,
        facts: &Facts,
        line: &Line<'_>,
        writer: &mut X,
    ) -> Result<Answered, AskFault> {
        if !self.gate.before_answer(self.worker) {
            self.is_shut = true;
            return Err(AskFault::NoEntry);
        }
        let pass = &mut self.publisher.taker.pass;
        pass.learn(&view.seen);
        let answered = pass.ask(self.alloc, facts, line, writer);
        if has_no_entry(&answered) {
            return Err(AskFault::NoEntry);
        }
        view.catch_up::<C>(pass);
        answered
    }

    fn shown(
        &mut self,
        view: &mut WorkerView<J>,
        buffer: &Buffer,
        id: &MsgId,
    ) -> Result<bool, NoEntry> {
        self.publisher.taker.pass.learn(&view.seen);
        let shown = self.publisher.taker.pass.shown(buffer, id)?;
        view.catch_up::<C>(&self.publisher.taker.pass);
        Ok(shown)
    }

    fn marker(
        &mut self,
        view: &mut WorkerView<J>,
        buffer: &Buffer,
    ) -> Result<Option<Moment>, NoEntry> {
        if !self.gate.before_answer(self.worker) {
            self.is_shut = true;
            return Err(NoEntry);
        }
        self.publisher.taker.pass.learn(&view.seen);
        let marker = self.publisher.taker.pass.marker(buffer)?;
        view.catch_up::<C>(&self.publisher.taker.pass);
        Ok(marker)
    }

    fn due_floors(&mut self, alloc: Global, now: Moment) -> Result<Vec<Change>, DeltaFault> {
        self.publisher.taker.pass.due_floors(alloc, now, self.days)
    }

    fn put_floors(&mut self, floors: &[Change]) -> Result<(), NotPublished> {
        let receipt = self.publisher.put_all(floors)?;
        C::is_held(&receipt);
        Ok(())
    }

    fn delta(&mut self, alloc: Global, from: u64) -> Result<Delta, DeltaFault> {
        let delta = self.publisher.taker.pass.delta(alloc, from);
        C::is_held(&self.publisher.taker.pass.receipt());
        delta
    }

    fn take(&mut self, changes: &[Change]) -> Result<(), NotPublished> {
        self.publisher.note_marks(&mut self.marked, changes);
        let receipt = self.publisher.put_all(changes)?;
        C::is_held(&receipt);
        Ok(())
    }

    fn publish(&mut self) -> Result<(), NotPublished> {
        self.publisher.put_all(&[])?;
        Ok(())
    }
}

impl<'a, C: Witness<J>, J: Naming, R: Ends, W: Wait, G: Gate> WorkPass
    for WorkerPass<'a, C, J, R, W, G> {
    fn take_news(&mut self) -> bool {
        self.publisher.take_news()
    }

    fn has_unpublished(&self) -> bool {
        self.publisher.is_waiting()
    }

    fn next_marked(&mut self) -> Option<Buffer> {
        if self.publisher.is_waiting() {
            return None;
        }
        self.marked.next()
    }

    fn is_shut(&self) -> bool {
        self.is_shut
    }
}
