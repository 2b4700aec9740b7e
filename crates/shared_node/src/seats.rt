//! The passes of a node: how they are made, and what all of them have put.
ghost use Rattle.std.specs.Prelude.{◌≡◌, ◌≢◌, ◌+◌, [], IfOk, IfErr, vec_len, vec_capacity};
ghost use Rattle.std.specs.List.{sum_by};
ghost use Rattle.shared_node.specs.Passes.{pass_value, newcomers};
ghost use Rattle.shared_node.specs.Log.{total};

use crate::faults::NodeFault;
use crate::half::{Ends, WritingHalf};
use crate::history::Naming;
use crate::pass::Pass;
use crate::prefix::Prefix;
use std::alloc::Global;
use std::sync::ledger::{Book, Share};

impl<J: Naming, R: Ends> WritingHalf<J, R> {
    // A pass that has seen this list and put nothing, with a part of the count.
    fn seat(&self, number: u64, list: &Prefix<J>, share: Share<J>) -> Result<Pass<J>, NodeFault>
        requires { (share.parts ≡ 1) × (share.amount ≡ 0) }
        ensures pass { IfOk result (λ p. p ≡ pass_value number 0 list.now list.now) }
        ensures fault { IfErr result (λ e. e ≡ NodeFault.NoReader) }
    {
        let Some(entrance) = self.log.entrance() else {
            return Err(NodeFault::NoReader);
        };
        Ok(Pass {
            number,
            count: 0,
            list: list.again(),
            told: list.again(),
            entrance,
            share,
        })
    }

    // The passes, each with one part of the count.
    pub(crate) fn seat_all(
        &self,
        alloc: Global,
        list: &Prefix<J>,
        all: &mut Share<J>,
        passes: usize,
    ) -> Result<Vec<Pass<J>>, NodeFault>
        requires { (list.now ≡ []) × (all.old.parts ≡ passes) × (all.old.amount ≡ 0) }
        ensures passes { IfOk result (λ v. v.items ≡ newcomers passes) }
        ensures fault { IfErr result (λ e. e ≢ NodeFault.BadCount) }
    {
        let Ok(mut seated) = Vec::with_capacity(alloc, passes) else {
            return Err(NodeFault::NoMemory);
        };
        for number in 0..passes {
            let share = all.split_off(1, 0);
            let pass = self.seat(number as u64, list, share)?;
            seated.push_reserved(pass);
        }
        Ok(seated)
    }

    // Adds up what the passes have put.
    pub(crate) fn audit(&mut self, passes: &mut Vec<Pass<J>>)
        ensures half { self.new ≡ self.old }
        ensures same { passes.new.items ≡ passes.old.items }
        ensures whole { vec_len passes.old ≡ J.parts
            → sum_by (λ p. p.count) passes.old.items ≡ total self.old }
    {
        add_up(&mut self.tally, &mut self.spare, passes)
    }
}

// Adds up the shares of the passes and this one.
fn add_up<J: Naming>(tally: &mut Book<J>, all: &mut Share<J>, passes: &mut Vec<Pass<J>>)
    ensures same { passes.new.items ≡ passes.old.items }
    ensures room { vec_capacity passes.new ≡ vec_capacity passes.old }
    ensures share { (all.new.parts ≡ all.old.parts) × (all.new.amount ≡ all.old.amount) }
    ensures tally { tally.new.total ≡ tally.old.total }
    ensures whole { all.old.parts + vec_len passes.old ≡ J.parts
        → all.old.amount + sum_by (λ p. p.count) passes.old.items ≡ tally.old.total }
    ensures backed { all.old.parts ≡ 0 → all.old.amount ≡ 0 }
{
    tally.audit(all);
    let Some(pass) = passes.pop() else {
        return;
    };
    let Pass {
        number,
        count,
        list,
        told,
        entrance,
        share,
    } = pass;
    all.merge(share);
    add_up(tally, all, passes);
    let share = all.split_off(1, count);
    passes.push_reserved(Pass {
        number,
        count,
        list,
        told,
        entrance,
        share,
    });
}
