//! The node: the writing half under a lock, and its passes.
ghost use Rattle.std.specs.Prelude.{◌≡◌, ◌≢◌, ◌+◌, ◌++◌, length, MatchResult, IfOk, IfErr, IsErrAnd, OnErr, vec_len};
ghost use Rattle.std.specs.List.{sum_by};
ghost use Rattle.shared_node.specs.Log.{total};
ghost use Rattle.shared_node.specs.Lists.{under};
ghost use Rattle.shared_node.specs.Names.{IsNamed};
ghost use Rattle.shared_node.specs.Passes.{FollowsAll, IsBadCount, newcomers};
ghost use Rattle.shared_node.specs.Puts.{appended_of};

use crate::faults::{NodeFault, PutFault};
use crate::half::{Ends, WritingHalf};
use crate::history::Naming;
use crate::log_writer::LogWriter;
use crate::pass::{Pass, Receipt};
use crate::unnamed::Unnamed;
use chat_change::Change;
use std::alloc::Global;
use std::sync::{Mutex, Wait};

/// The most passes of a node.
pub const MOST_PASSES: usize = 64;

/// A node that many threads share: what is under its lock puts, and its passes read without the lock.
#[derive(Drop)]
pub struct SharedNode<J: Naming, R: Ends> {
    half: Mutex<WritingHalf<J, R>>,
}

impl<J: Naming, R: Ends> SharedNode<J, R> {
    /// A node of the name, with the passes that it was made for, 1 to [`MOST_PASSES`]. Nothing was put, and no pass has
    /// seen or was told of anything. By the handle the node ends ([`Ends`]).
    pub fn new(
        alloc: Global,
        rt: R,
        name: Unnamed,
    ) -> Result<(SharedNode<J, R>, Vec<Pass<J>>), NodeFault>
        requires { IsNamed J.book J.name J.parts name }
        ensures passes { IfOk result (λ r. r.1.items ≡ newcomers name.passes) }
        ensures count { IsBadCount name.passes → IsErrAnd result (λ e. e ≡ NodeFault.BadCount) }
        ensures refused { IfErr result (λ e. e ≡ NodeFault.BadCount → IsBadCount name.passes) }
    {
        let passes = name.passes();
        if passes == 0 || passes > MOST_PASSES {
            return Err(NodeFault::BadCount);
        }
        let (history, list, tally, mut all) = name.named::<J>();
        let spare = all.empty();
        let Ok(log) = LogWriter::new(alloc, history, passes) else {
            return Err(NodeFault::NoMemory);
        };
        let half = WritingHalf::new(log, rt, tally, spare, passes);
        let seated = half.seat_all(alloc, &list, &mut all, passes)?;
        let half = Mutex::new(half);
        Ok((SharedNode { half }, seated))
    }

    /// Puts the changes in their order, behind all that waits, and publishes ([`WritingHalf::put_now`], under the lock). The
    /// receipt's list is one that follows all that the pass has seen or was told of, and then the changes. The lock is
    /// taken once, and one version is published, however many changes there are.
    pub fn put<W: Wait>(
        &self,
        rt: &W,
        pass: &mut Pass<J>,
        changes: &[Change],
    ) -> Result<Receipt<J>, PutFault>
        ensures receipt { IfOk result (λ r. (before : _) × FollowsAll pass.old before
            × (r ≡ before ++ under pass.old.number changes.now)) }
        ensures list { IfOk result (λ r. pass.new.list ≡ r) }
        ensures count { MatchResult result
            (λ _. pass.new.count ≡ pass.old.count + length changes.now)
            (λ e. pass.new.count ≡ pass.old.count + appended_of (length changes.now) e) }
        ensures refused { OnErr result (pass.new.list ≡ pass.old.list) }
        ensures same { (pass.new.number ≡ pass.old.number) × (pass.new.told ≡ pass.old.told) }
    {
        self.half.lock(rt).put_now(rt, pass, changes)
    }

    /// Takes the writing half out of the lock, where all passes of the node are there. Node and passes come back where one
    /// is missing.
    pub fn close(
        self,
        passes: Vec<Pass<J>>,
    ) -> Result<(WritingHalf<J, R>, Vec<Pass<J>>), (SharedNode<J, R>, Vec<Pass<J>>)>
        ensures all { MatchResult result (λ _. vec_len passes ≡ J.parts)
            (λ _. vec_len passes ≢ J.parts) }
        ensures passes { MatchResult result (λ r. r.1.items ≡ passes.items) (λ r. r.1 ≡ passes) }
        ensures total { IfOk result (λ r. total r.0 ≡ sum_by (λ p. p.count) passes.items) }
    {
        let SharedNode { half } = self;
        let mut half = half.into_inner();
        if passes.len() != half.passes() {
            let half = Mutex::new(half);
            return Err((SharedNode { half }, passes));
        }
        let mut passes = passes;
        half.audit(&mut passes);
        Ok((half, passes))
    }
}
