//! The writing end of a log.
ghost use Rattle.std.specs.Prelude.{◌≡◌, ◌+◌, ◌<◌, ◌≤◌, ◌^◌, ◌++◌, ◌∷◌, [], length, take, drop, true, MatchResult, MatchBool, IfOk, IfSome, None};
ghost use mathlib.Core.List.{IsPrefix};
ghost use Rattle.shared_node.specs.Lists.{entry, under};
ghost use Rattle.shared_node.specs.Versions.{held, latest};
ghost use Rattle.shared_node.specs.Log.{all_put, log_value, total};

use crate::entrance::Entrance;
use crate::entry::LogEntry;
use crate::history::{History, Naming};
use crate::prefix::Prefix;
use crate::version::{Operation, StateVersion};
use chat_change::Change;
use core::mem::replace_with;
use crossbeam_utils::rule::Unruled;
use left_right::Absorb;
use left_right::writer::Writer;
use std::alloc::{AllocError, Global};
use std::marker::Model;
use std::sync::Wait;

type VersionWriter<J> = Writer<StateVersion<J>, Operation<J>, (), Unruled>;

/// The writing end of a log. Contracts see it as the published list, and the list of what waits behind it. It may not be let
/// go: it ends by [`LogWriter::end`].
pub struct LogWriter<J: Naming>
where
    // without it the type of `writer` isn't stated, since the impl is generic
    StateVersion<J>: Absorb<Operation<J>, State = Prefix<J>>,
{
    writer: VersionWriter<J>,
    /// In the history, and not yet in the writer's log.
    stuck: Option<Operation<J>>,
    /// All that was put.
    history: History<J>,
}

impl<J: Naming> Model for LogWriter<J>
where
    StateVersion<J>: Absorb<Operation<J>, State = Prefix<J>>,
{
    ghost use Rattle.std.specs.Prelude.{◌≡◌, ◌++◌, length, drop};
    ghost use mathlib.Core.List.{IsPrefix};
    ghost use Rattle.shared_node.specs.Log.{LogValue, log_value};
    ghost use Rattle.shared_node.specs.Versions.{held, latest};

    ghost Value = { LogValue };

    ghost view = { λ h. log_value h.writer.desk.shown.value
        (drop (length h.writer.desk.shown.value) h.history) };

    ghost invariant = { λ h. IsPrefix h.writer.desk.shown.value h.history
        × (h.history ≡ latest h.writer.desk.shown.value
        (drop h.writer.behind h.writer.log.items ++ held h.stuck)) };
}

// Moves what is stuck to the writer's log, and says whether nothing is stuck.
fn unstick<J: Naming>(writer: &mut VersionWriter<J>, stuck: &mut Option<Operation<J>>) -> bool
    ensures published { writer.new.desk ≡ writer.old.desk }
    ensures waiting { drop writer.new.behind writer.new.log.items ++ held stuck.new
        ≡ drop writer.old.behind writer.old.log.items ++ held stuck.old }
    ensures moved { MatchBool result (stuck.new ≡ None) (Unit {0}) }
{
    let Some(op) = stuck.take() else {
        return true;
    };
    match writer.append(op) {
        Ok(()) => true,
        Err(op) => {
            *stuck = Some(op);
            false
        }
    }
}

// Puts an operation behind the writer's log, or makes it stuck.
fn queue<J: Naming>(
    writer: &mut VersionWriter<J>,
    stuck: &mut Option<Operation<J>>,
    op: Operation<J>,
)
    requires { stuck.old ≡ None }
    ensures published { writer.new.desk ≡ writer.old.desk }
    ensures waiting { drop writer.new.behind writer.new.log.items ++ held stuck.new
        ≡ drop writer.old.behind writer.old.log.items ++ op ∷ [] }
{
    if let Err(op) = writer.append(op) {
        *stuck = Some(op);
    }
}

// Publishes what is in the writer's log.
fn publish<J: Naming, R: Wait>(
    writer: VersionWriter<J>,
    rt: &R,
) -> (VersionWriter<J>, Result<(), AllocError>)
    ensures { MatchResult result.1
        (λ _. (result.0.desk.shown.value
        ≡ latest writer.desk.shown.value (drop writer.behind writer.log.items))
        × (drop result.0.behind result.0.log.items ≡ []))
        (λ _. (result.0.desk.shown.value ≡ writer.desk.shown.value)
        × (drop result.0.behind result.0.log.items ≡ drop writer.behind writer.log.items)) }
{
    writer.publish_as::<Unruled, R>(rt)
}

impl<J: Naming> LogWriter<J> {
    /// The writing end of the empty history, with room for so many entrances.
    pub fn new(
        alloc: Global,
        history: History<J>,
        entrances: usize,
    ) -> Result<LogWriter<J>, AllocError>
        requires history { history ≡ [] }
        requires entrances { (0 < entrances) × (entrances < 2 ^ 32) }
        ensures { IfOk result (λ log. log ≡ log_value [] []) }
    {
        let first = StateVersion::empty(alloc, history.list().again());
        let second = StateVersion::empty(alloc, history.list().again());
        let writer = VersionWriter::<J>::new(alloc, first, second, entrances)?;
        Ok(LogWriter::over(writer, history))
    }

    // The writing end over a writer that has published the empty list.
    fn over(writer: VersionWriter<J>, history: History<J>) -> LogWriter<J>
        requires writer { (writer.desk.shown.value ≡ [])
            × (drop writer.behind writer.log.items ≡ []) }
        requires history { history ≡ [] }
        ensures { result ≡ log_value [] [] }
    {
        LogWriter {
            writer,
            stuck: None,
            history,
        }
    }

    /// A way in to what is published. None where there is no place for a further one.
    pub fn entrance(&self) -> Option<Entrance<J>>
        ensures { IfSome result (λ e. e ≡ true) }
    {
        let Ok(reader) = self.writer.factory().reader() else {
            return None;
        };
        Some(Entrance::new(reader))
    }

    /// All that was put: the published list, and what waits.
    pub fn list(&self) -> &Prefix<J>
        ensures { result.now ≡ all_put self.now }
    {
        self.history.list()
    }

    /// All that was put begins with each list that was reached. It does nothing at run time.
    pub fn compare(&mut self, list: &Prefix<J>)
        ensures prefix { IsPrefix list.now (all_put self.old) }
        ensures same { self.new ≡ self.old }
    {
        self.history.compare(list);
    }

    // One change more waits, under that number.
    fn add(&mut self, by: u64, change: &Change) -> Result<(), AllocError>
        requires room { total self.old + 1 < 2 ^ 64 }
        ensures published { self.new.published ≡ self.old.published }
        ensures waiting { MatchResult result
            (λ _. self.new.waiting ≡ self.old.waiting ++ entry by change.now ∷ [])
            (λ _. self.new.waiting ≡ self.old.waiting) }
    {
        if !unstick(&mut self.writer, &mut self.stuck) {
            return Err(AllocError);
        }
        let change = change.try_clone()?;
        let entry = LogEntry { by, change };
        self.history.add(&entry);
        let op = Operation::new(entry, self.history.list().again());
        queue(&mut self.writer, &mut self.stuck, op);
        Ok(())
    }

    /// Lets changes wait behind all that was put, under that number, and says how many of them do: all, unless memory was
    /// lacking.
    pub fn add_all(&mut self, by: u64, changes: &[Change]) -> usize
        requires room { total self.old + length changes.now < 2 ^ 64 }
        ensures some { result ≤ length changes.now }
        ensures published { self.new.published ≡ self.old.published }
        ensures waiting { self.new.waiting
            ≡ self.old.waiting ++ under by (take result changes.now) }
    {
        let mut added = 0;
        for change in changes {
            if self.add(by, change).is_err() {
                return added;
            }
            added += 1;
        }
        added
    }

    /// Publishes what waits, and says whether it did. It waits for readers.
    pub fn publish<R: Wait>(&mut self, rt: &R) -> bool
        ensures { MatchBool result (self.new ≡ log_value (all_put self.old) [])
            (self.new ≡ self.old) }
    {
        if !self.publish_once(rt) {
            return false;
        }
        // The other version takes the same changes at once: what they let go stays in neither, and this processor has them at hand.
        // For want of memory it takes them when something is published next.
        self.publish_once(rt);
        true
    }

    // The same for one version, which is shown. The other one takes the changes when something is published next.
    fn publish_once<R: Wait>(&mut self, rt: &R) -> bool
        ensures { MatchBool result (self.new ≡ log_value (all_put self.old) [])
            (self.new ≡ self.old) }
    {
        if !unstick(&mut self.writer, &mut self.stuck) {
            return false;
        }
        let published = replace_with(
            &mut self.writer,
            rt,
            |writer: VersionWriter<J>, rt: &R| -> (VersionWriter<J>, Result<(), AllocError>)
                ensures { MatchResult result.1
                    (λ _. (result.0.desk.shown.value
                    ≡ latest writer.desk.shown.value (drop writer.behind writer.log.items))
                    × (drop result.0.behind result.0.log.items ≡ []))
                    (λ _. (result.0.desk.shown.value ≡ writer.desk.shown.value)
                    × (drop result.0.behind result.0.log.items
                    ≡ drop writer.behind writer.log.items)) }
            { publish(writer, rt) },
        );
        let Ok(()) = published else {
            return false;
        };
        true
    }

    /// Takes back what was published, once no reader is there. Nobody enters any more.
    pub fn end<R: Wait>(self, rt: &R) {
        let LogWriter {
            writer,
            stuck: _stuck,
            history: _history,
        } = self;
        drop(writer.take(rt));
    }
}
