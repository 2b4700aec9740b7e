//! What stands under the lock.
ghost use Rattle.std.specs.Prelude.{◌≡◌, ◌+◌, ◌<◌, ◌≤◌, ◌^◌, ◌++◌, [], length, IfOk, IfErr, OnOk, IsErr};
ghost use Rattle.shared_node.specs.Log.{all_put, log_value, total};
ghost use Rattle.shared_node.specs.Lists.{under};
ghost use Rattle.shared_node.specs.Passes.{FollowsAll};
ghost use Rattle.shared_node.specs.Puts.{LeavesWaiting};

use crate::faults::PutFault;
use crate::history::Naming;
use crate::log_writer::LogWriter;
use crate::pass::{Pass, Receipt};
use chat_change::Change;
use std::marker::Model;
use std::sync::Wait;
use std::sync::ledger::{Book, Share};

/// What is ended by a handle that waits.
pub trait Ending {
    /// Ends it.
    fn end_by<W: Wait>(self, rt: &W);
}

/// A handle by which a node ends. Its end takes back what was published, and so waits until no reader is there.
pub trait Ends: Drop {
    /// Ends the last part of the node.
    fn end<E: Ending>(&self, last: E);
}

impl<'a, R: Wait> Ends for &'a R {
    fn end<E: Ending>(&self, last: E) {
        last.end_by(*self);
    }
}

// The log of a node that ends. An impl whose method named the log itself would get no proof.
struct LastLog<J: Naming> {
    log: LogWriter<J>,
}

impl<J: Naming> Ending for LastLog<J> {
    fn end_by<W: Wait>(self, rt: &W) {
        let LastLog { log } = self;
        log.end(rt);
    }
}

/// What stands under the lock of a node. Contracts see it as the published list, and the list of what waits behind it.
pub struct WritingHalf<J: Naming, R: Ends> {
    pub(crate) log: LogWriter<J>,
    rt: R,
    pub(crate) tally: Book<J>,
    /// No part of the count.
    pub(crate) spare: Share<J>,
    passes: usize,
}

impl<J: Naming, R: Ends> Model for WritingHalf<J, R> {
    ghost use Rattle.std.specs.Prelude.{◌≡◌};
    ghost use Rattle.shared_node.specs.Log.{LogValue, total};

    ghost Value = { LogValue };

    ghost view = { λ h. h.log };

    ghost invariant = { λ h. (h.tally.total ≡ total h.log) × (h.spare.parts ≡ 0)
        × (h.passes ≡ J.parts) };
}

impl<J: Naming, R: Ends> Drop for WritingHalf<J, R> {
    fn drop(self) {
        let Self {
            log,
            rt,
            tally: _tally,
            spare: _spare,
            passes: _,
        } = self;
        rt.end(LastLog { log });
    }
}

// Counts what a pass has put.
fn count_put<J: Naming>(tally: &mut Book<J>, pass: &mut Pass<J>, more: u64)
    requires { tally.old.total + more < 2 ^ 64 }
    ensures total { tally.new.total ≡ tally.old.total + more }
    ensures count { pass.new.count ≡ pass.old.count + more }
    ensures number { pass.new.number ≡ pass.old.number }
    ensures seen { (pass.new.list ≡ pass.old.list) × (pass.new.told ≡ pass.old.told) }
{
    tally.audit(&mut pass.share);
    tally.add(&mut pass.share, more);
    pass.count += more;
}

// All that was put begins with what a pass has seen, and with what it was told of.
fn compare<J: Naming>(log: &mut LogWriter<J>, pass: &Pass<J>)
    ensures follows { FollowsAll pass.now (all_put log.old) }
    ensures same { log.new ≡ log.old }
{
    log.compare(&pass.list);
    log.compare(&pass.told);
}

impl<J: Naming, R: Ends> WritingHalf<J, R> {
    pub(crate) fn new(
        log: LogWriter<J>,
        rt: R,
        tally: Book<J>,
        spare: Share<J>,
        passes: usize,
    ) -> WritingHalf<J, R>
        requires nothing { (log ≡ log_value [] []) × (tally.total ≡ 0) }
        requires parts { (spare.parts ≡ 0) × (passes ≡ J.parts) }
        ensures { result ≡ log_value [] [] }
    {
        WritingHalf {
            log,
            rt,
            tally,
            spare,
            passes,
        }
    }

    /// How many changes were put: the length of the published list and of what waits.
    pub fn total(&self) -> u64
        ensures { result ≡ total self.now }
    {
        self.log.list().len()
    }

    pub(crate) fn passes(&self) -> usize
        ensures { result ≡ J.parts }
    {
        self.passes
    }

    /// Puts the changes behind all that waits, and publishes. The handle waits for readers.
    ///
    /// Fails with [`PutFault::Exhausted`], checked first, where the count of all changes put would pass
    /// 18446744073709551615; with [`PutFault::NoMemory`] where the first `appended` changes wait, and the published list
    /// is as it was; with [`PutFault::Waiting`] where all changes wait.
    pub fn put_now<W: Wait>(
        &mut self,
        rt: &W,
        pass: &mut Pass<J>,
        changes: &[Change],
    ) -> Result<Receipt<J>, PutFault>
        ensures published { OnOk result (self.new
            ≡ log_value (all_put self.old ++ under pass.old.number changes.now) []) }
        ensures receipt { IfOk result (λ r. r ≡ self.new.published) }
        ensures list { OnOk result (pass.new.list ≡ self.new.published) }
        ensures follows { FollowsAll pass.old (all_put self.old) }
        ensures refused { IfErr result (λ e.
            LeavesWaiting self.old pass.old.number changes.now self.new e
            × (pass.new.list ≡ pass.old.list)) }
        ensures exhausted { 2 ^ 64 ≤ total self.old + length changes.now
            → IfErr result (λ e. e ≡ PutFault.Exhausted) × IsErr result }
        ensures count { pass.new.count + total self.old ≡ pass.old.count + total self.new }
        ensures same { (pass.new.number ≡ pass.old.number) × (pass.new.told ≡ pass.old.told) }
    {
        compare(&mut self.log, pass);
        let list = self.log.list();
        if changes.len() as u64 > u64::MAX - list.len() {
            return Err(PutFault::Exhausted);
        }
        let appended = self.log.add_all(pass.number, changes);
        count_put(&mut self.tally, pass, appended as u64);
        if appended < changes.len() {
            return Err(PutFault::NoMemory { appended });
        }
        if !self.log.publish(rt) {
            return Err(PutFault::Waiting);
        }
        pass.list = self.log.list().again();
        Ok(Receipt {
            list: self.log.list().again(),
        })
    }
}
