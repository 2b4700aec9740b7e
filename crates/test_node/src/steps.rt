//! Plays steps on a node, in one thread.
use crate::asks::{A, delta_count, due_floor, marker, shown};
use crate::changes::{mark, packet, post};
use crate::fault::RowFault;
use crate::growth::put_markers_on;
use crate::rows::{Read, RowStep};
use chat_batch::Facts;
use chat_change::Change;
use gossip_delta::Taker;
use shared_node::{Ends, Naming, NodeTaker, Pass, SharedNode};
use std::alloc::Global;
use std::sync::Wait;

/// A node with its passes.
#[derive(Drop)]
pub struct Cluster<'a, J: Naming, R: Wait> {
    pub rt: &'a R,
    pub alloc: Global,
    pub facts: &'a Facts,
    pub node: SharedNode<J, &'a R>,
    pub passes: Vec<Pass<J>>,
}

// Where the change isn't taken for want of memory, it waits, and is taken with no further one.
fn take<T: Taker>(alloc: Global, taker: &mut T, changes: &[Change]) -> Result<(), RowFault> {
    if taker.take(alloc, changes).is_ok() || taker.take(alloc, &[]).is_ok() {
        Ok(())
    } else {
        Err(RowFault::NoMemory)
    }
}

fn tell<J: Naming, H: Ends, W: Wait>(
    rt: &W,
    node: &SharedNode<J, H>,
    from: &mut Pass<J>,
    to: &mut Pass<J>,
    changes: &[Change],
) -> Result<(), RowFault> {
    let receipt = node.put(rt, from, changes)?;
    to.learn(&receipt);
    Ok(())
}

// The first pass puts changes, and the second one learns of them.
fn tell_second<J: Naming, H: Ends, W: Wait>(
    rt: &W,
    node: &SharedNode<J, H>,
    passes: &mut [Pass<J>],
    changes: &[Change],
) -> Result<(), RowFault> {
    let Some((first, rest)) = passes.split_first_mut() else {
        return Err(RowFault::NoPass);
    };
    match rest.first_mut() {
        Some(second) => tell(rt, node, first, second, changes),
        None => Err(RowFault::NoPass),
    }
}

impl<J: Naming, R: Wait> Cluster<'_, J, R> {
    // The number that a pass reads.
    fn read(&mut self, place: usize, read: Read) -> Result<u64, RowFault> {
        let Some(pass) = self.passes.get_mut(place) else {
            return Err(RowFault::NoPass);
        };
        match read {
            Read::Marker => marker(self.alloc, self.facts, pass, A),
            Read::Delta => delta_count(self.alloc, pass),
            Read::Shown(id) => shown(self.alloc, pass, id),
            Read::Due => due_floor(self.alloc, pass),
        }
    }

    fn check_read(&mut self, place: usize, read: Read, wanted: u64) -> Result<(), RowFault> {
        let number = self.read(place, read)?;
        if number == wanted {
            Ok(())
        } else {
            Err(RowFault::Other(number))
        }
    }

    // The first pass puts a change, and the second one learns of it.
    fn tell(&mut self, change: Option<Change>) -> Result<(), RowFault> {
        let change = change.ok_or(RowFault::NoMemory)?;
        tell_second(self.rt, &self.node, self.passes.as_mut_slice(), &[change])
    }

    // The last pass takes what a peer sends.
    fn take(&mut self, change: Option<Change>) -> Result<(), RowFault> {
        let change = change.ok_or(RowFault::NoMemory)?;
        let Some(pass) = self.passes.pop() else {
            return Err(RowFault::NoPass);
        };
        let mut taker = NodeTaker::new(&self.node, pass, self.rt);
        let taken = take(self.alloc, &mut taker, &[change]);
        match self.passes.push(taker.into_pass()) {
            Ok(()) => taken,
            Err(_) => Err(RowFault::NoMemory),
        }
    }

    fn put_packet(&mut self) -> Result<(), RowFault> {
        let Some(pass) = self.passes.first_mut() else {
            return Err(RowFault::NoPass);
        };
        let changes = packet(self.alloc).ok_or(RowFault::NoMemory)?;
        self.node.put(self.rt, pass, &changes)?;
        Ok(())
    }

    fn put_markers(&mut self, count: usize) -> Result<Option<usize>, RowFault> {
        let Some(pass) = self.passes.first_mut() else {
            return Err(RowFault::NoPass);
        };
        put_markers_on(self.rt, &self.node, self.alloc, self.facts, pass, count)
    }

    fn put_markers_once(&mut self) -> Result<(), RowFault> {
        match self.put_markers(3)? {
            None => Ok(()),
            Some(waited) => Err(RowFault::Waited(waited)),
        }
    }

    fn play_step(&mut self, step: RowStep) -> Result<(), RowFault> {
        match step {
            RowStep::Read(place, read, wanted) => self.check_read(place, read, wanted),
            RowStep::TellMark(ms) => self.tell(mark(self.alloc, "#a", ms)),
            RowStep::TellPost(ms) => self.tell(post(self.alloc, "m1", ms)),
            RowStep::Take(ms) => self.take(mark(self.alloc, "#a", ms)),
            RowStep::Packet => self.put_packet(),
            RowStep::Markers(count) => self.put_markers(count).map(drop),
            RowStep::MarkersAtOnce => self.put_markers_once(),
        }
    }

    /// Plays the steps.
    pub fn play_steps(&mut self, steps: &[RowStep]) -> Result<(), RowFault> {
        for step in steps {
            self.play_step(*step)?;
        }
        Ok(())
    }
}
