//! Puts beside asks: none is refused, and no ask goes back behind what its pass saw or was told of.
use crate::asks::{A, marker};
use crate::changes::mark;
use crate::fault::RowFault;
use crate::steps::Cluster;
use chat_batch::Facts;
use shared_node::{Naming, Pass, Receipt, SharedNode};
use std::alloc::Global;
use std::sync::{Mutex, Wait};
use std::thread::{Threads, join};

/// How many markers a pass puts, and how many questions one asks.
const ROUNDS: u64 = 500;

// The latest receipt, and the moment of the marker that it is for.
#[derive(Drop)]
struct LatestTold<J: Naming> {
    ms: u64,
    receipt: Option<Receipt<J>>,
}

impl<J: Naming> LatestTold<J> {
    fn set(&mut self, ms: u64, receipt: Receipt<J>) {
        self.ms = ms;
        self.receipt = Some(receipt);
    }

    // Tells the pass, and says of which moment a marker is there.
    fn tell(&self, pass: &mut Pass<J>) -> u64 {
        if let Some(receipt) = &self.receipt {
            pass.learn(receipt);
        }
        self.ms
    }
}

// What the threads share.
#[derive(Drop)]
struct Shared<'a, 'r, J: Naming, R: Wait> {
    rt: &'r R,
    alloc: Global,
    facts: &'a Facts,
    node: &'a SharedNode<J, &'r R>,
    told: &'a Mutex<LatestTold<J>>,
}

impl<J: Naming, R: Wait> Shared<'_, '_, J, R> {
    fn put(&self, pass: &mut Pass<J>, ms: u64) -> Result<(), RowFault> {
        let change = mark(self.alloc, A.name, ms).ok_or(RowFault::NoMemory)?;
        let receipt = self.node.put(self.rt, pass, &[change])?;
        self.told.lock(self.rt).set(ms, receipt);
        Ok(())
    }

    // Puts markers of rising moments, and tells of them.
    fn puts(&self, pass: &mut Pass<J>) -> Result<(), RowFault> {
        for ms in 1..ROUNDS + 1 {
            self.put(pass, ms)?;
        }
        Ok(())
    }

    // Asks again and again. No answer is behind the last one, or behind what the pass was told of.
    fn asks(&self, pass: &mut Pass<J>) -> Result<(), RowFault> {
        let mut least = 0;
        for _ in 0..ROUNDS {
            least = self.told.lock(self.rt).tell(pass).max(least);
            let seen = marker(self.alloc, self.facts, pass, A)?;
            if seen < least {
                return Err(RowFault::WentBack);
            }
            least = seen;
        }
        Ok(())
    }
}

impl<J: Naming + Send + Sync, R: Threads + Wait + Sync> Shared<'_, '_, J, R> {
    // The first pass puts and the second asks, each in a thread of its own.
    fn put_beside_ask(&self, passes: &mut [Pass<J>]) -> Result<(), RowFault> {
        let [a, b, ..] = passes else {
            return Err(RowFault::NoPass);
        };
        let (put, asked) = join(self.rt, move || self.puts(a), move || self.asks(b));
        put.and(asked)
    }

    // Two passes put and two ask, in four threads; or one each, where there are fewer.
    fn put_beside_asks(&self, passes: &mut [Pass<J>]) -> Result<(), RowFault> {
        if passes.len() < 4 {
            return self.put_beside_ask(passes);
        }
        let (a, b) = passes.split_at_mut(2);
        let (first, second) = join(
            self.rt,
            move || self.put_beside_ask(a),
            move || self.put_beside_ask(b),
        );
        first.and(second)
    }
}

/// Puts beside asks, in as many threads as there are passes, two or four. Each second pass puts.
pub fn puts_beside_asks<J: Naming + Send + Sync, R: Threads + Wait + Sync>(
    cluster: &mut Cluster<'_, J, R>,
) -> Result<(), RowFault> {
    let told = Mutex::new(LatestTold {
        ms: 0,
        receipt: None,
    });
    let shared = Shared {
        rt: cluster.rt,
        alloc: cluster.alloc,
        facts: cluster.facts,
        node: &cluster.node,
        told: &told,
    };
    shared.put_beside_asks(cluster.passes.as_mut_slice())
}
