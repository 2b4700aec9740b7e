//! What stands after a put that was refused for want of memory.
use crate::asks::{THREE, delta_count, marker};
use crate::changes::mark;
use crate::fault::RowFault;
use chat_batch::Facts;
use chat_change::Change;
use shared_node::laws::WritingHalf;
use shared_node::{Ends, Naming, Pass, PutFault, SharedNode};
use std::alloc::Global;
use std::sync::Wait;

/// How often a call is made again that was refused for want of memory.
pub const REFUSALS: usize = 3;

/// What a pass puts changes on: a node, or what stands under its lock.
pub trait PutTarget<J: Naming> {
    fn put(&mut self, pass: &mut Pass<J>, changes: &[Change]) -> Result<(), PutFault>;
}

/// A node, with the handle by which a put waits for its lock.
#[derive(Drop)]
struct Locked<'a, J: Naming, H: Ends, W: Wait> {
    node: &'a SharedNode<J, H>,
    rt: &'a W,
}

impl<J: Naming, H: Ends, W: Wait> PutTarget<J> for Locked<'_, J, H, W> {
    fn put(&mut self, pass: &mut Pass<J>, changes: &[Change]) -> Result<(), PutFault> {
        self.node.put(self.rt, pass, changes).map(drop)
    }
}

/// What stood under the lock of a node, with the handle by which a put waits for readers.
#[derive(Drop)]
struct Unlocked<'a, 'b, J: Naming, H: Ends, W: Wait> {
    half: &'a mut WritingHalf<J, H>,
    rt: &'b W,
}

impl<J: Naming, H: Ends, W: Wait> PutTarget<J> for Unlocked<'_, '_, J, H, W> {
    fn put(&mut self, pass: &mut Pass<J>, changes: &[Change]) -> Result<(), PutFault> {
        self.half.put_now(self.rt, pass, changes).map(drop)
    }
}

// Whether the pass sees the first markers, so many of them, and no other.
fn sees_markers<J: Naming>(
    alloc: Global,
    facts: &Facts,
    pass: &mut Pass<J>,
    count: usize,
) -> Result<bool, RowFault> {
    let mut right = true;
    let mut ms: u64 = 0;
    for (place, channel) in THREE.iter().enumerate() {
        ms = if place < count {
            ms.saturating_add(1)
        } else {
            0
        };
        right = right && marker(alloc, facts, pass, *channel)? == ms;
    }
    Ok(right)
}

// The pass sees the first markers, so many of them, once each, and nothing else.
fn look_at_first<J: Naming>(
    alloc: Global,
    facts: &Facts,
    pass: &mut Pass<J>,
    count: usize,
) -> Result<(), RowFault> {
    let right = sees_markers(alloc, facts, pass, count)?;
    if right && delta_count(alloc, pass)? == count as u64 {
        Ok(())
    } else {
        Err(RowFault::NotTheFirst(count))
    }
}

// The same, looked at again where there was no memory for it.
fn sees_first<J: Naming>(
    alloc: Global,
    facts: &Facts,
    pass: &mut Pass<J>,
    count: usize,
) -> Result<(), RowFault> {
    for _ in 0..REFUSALS {
        match look_at_first(alloc, facts, pass, count) {
            Err(RowFault::NoMemory) => {}
            looked => return looked,
        }
    }
    look_at_first(alloc, facts, pass, count)
}

// How many of so many changes wait, where they weren't published for want of memory. None where they were.
fn waiting(put: Result<(), PutFault>, count: usize) -> Result<Option<usize>, RowFault> {
    match put {
        Ok(()) => Ok(None),
        Err(PutFault::NoMemory { appended }) => Ok(Some(appended)),
        Err(PutFault::Waiting) => Ok(Some(count)),
        Err(PutFault::Exhausted) => Err(RowFault::Exhausted),
    }
}

// A put of nothing publishes what waits. Where it is refused, it is made again, and nothing more is seen meanwhile than so many
// of the first markers.
fn publish<J: Naming, T: PutTarget<J>>(
    alloc: Global,
    facts: &Facts,
    target: &mut T,
    pass: &mut Pass<J>,
    seen: usize,
) -> Result<(), RowFault> {
    for _ in 0..REFUSALS {
        if waiting(target.put(pass, &[]), 0)?.is_none() {
            return Ok(());
        }
        sees_first(alloc, facts, pass, seen)?;
    }
    target.put(pass, &[])?;
    Ok(())
}

// Puts the changes behind the first ones, of which so many are there. Where that is refused, those that were appended are
// published, and it is answered how many are there then.
fn put_some<J: Naming, T: PutTarget<J>>(
    alloc: Global,
    facts: &Facts,
    target: &mut T,
    pass: &mut Pass<J>,
    changes: &[Change],
    there: usize,
) -> Result<Option<usize>, RowFault> {
    let rest = changes.get(there..).unwrap_or(&[]);
    let Some(appended) = waiting(target.put(pass, rest), rest.len())? else {
        return Ok(None);
    };
    sees_first(alloc, facts, pass, there)?;
    publish(alloc, facts, target, pass, there)?;
    let there = there.saturating_add(appended);
    sees_first(alloc, facts, pass, there)?;
    Ok(Some(there))
}

// Puts markers, and the rest of them again and again where a put was refused: then says how many waited at first.
fn put_all<J: Naming, T: PutTarget<J>>(
    alloc: Global,
    facts: &Facts,
    target: &mut T,
    pass: &mut Pass<J>,
    changes: &[Change],
) -> Result<Option<usize>, RowFault> {
    let waited = put_some(alloc, facts, target, pass, changes, 0)?;
    let mut there = waited.unwrap_or(changes.len());
    for _ in 0..REFUSALS {
        if there < changes.len() {
            let some = put_some(alloc, facts, target, pass, changes, there)?;
            there = some.unwrap_or(changes.len());
        }
    }
    sees_first(alloc, facts, pass, changes.len())?;
    Ok(waited)
}

// Puts markers of the first of [`THREE`], so many, at 1, 2 and 3, and sees them. Where the put is refused, the rest is put
// afterwards, and it is answered how many waited by then.
fn put_markers<J: Naming, T: PutTarget<J> + Drop>(
    alloc: Global,
    facts: &Facts,
    mut target: T,
    pass: &mut Pass<J>,
    count: usize,
) -> Result<Option<usize>, RowFault> {
    let changes = markers(alloc, count).ok_or(RowFault::NoMemory)?;
    put_all(alloc, facts, &mut target, pass, &changes)
}

/// Puts markers of the first of [`THREE`] on a node, so many, at 1, 2 and 3, and sees them. Where the put is refused, the rest
/// is put afterwards, and it is answered how many waited by then.
pub fn put_markers_on<J: Naming, H: Ends, W: Wait>(
    rt: &W,
    node: &SharedNode<J, H>,
    alloc: Global,
    facts: &Facts,
    pass: &mut Pass<J>,
    count: usize,
) -> Result<Option<usize>, RowFault> {
    put_markers(alloc, facts, Locked { node, rt }, pass, count)
}

/// The same on what stood under the lock of a node.
pub fn put_markers_on_half<J: Naming, H: Ends, W: Wait>(
    rt: &W,
    half: &mut WritingHalf<J, H>,
    alloc: Global,
    facts: &Facts,
    pass: &mut Pass<J>,
    count: usize,
) -> Result<Option<usize>, RowFault> {
    put_markers(alloc, facts, Unlocked { half, rt }, pass, count)
}

// The first markers, so many of them.
fn markers(alloc: Global, count: usize) -> Option<Vec<Change>> {
    let mut changes = Vec::new(alloc);
    let mut ms: u64 = 0;
    for channel in THREE.iter().take(count) {
        ms = ms.saturating_add(1);
        changes.push(mark(alloc, channel.name, ms)?).ok()?;
    }
    Some(changes)
}
