//! Lines for the operator that wait to be written.
ghost use Rattle.std.specs.Prelude.{◌≡◌, ◌≤◌, [], length, vec_capacity, IfOk};
ghost use Rattle.operator_log.specs.LogQueue.{waiting, lost_then, one_more};
ghost use Rattle.operator_log.specs.declared.log_queue.TheConstants.{ROOM};

use std::alloc::{AllocError, Global};
use std::mem;

// So many bytes of lines wait at most, which are some five thousand lines.
const ROOM: usize = 524_288;

// Lines that wait to be written, in their order. A line for which there is no room is lost, and so is each behind it until those
// that wait are taken.
#[derive(Drop)]
pub(crate) struct LogQueue {
    lines: Vec<u8>,
    // How many lines were lost behind those that wait.
    lost: u64,
    ghost bounded: { length lines.items ≤ ROOM },
    ghost roomy: { ROOM ≤ vec_capacity lines },
}

// The room for lines, in which none stands.
pub(crate) fn room(alloc: Global) -> Result<Vec<u8>, AllocError>
    ensures empty { IfOk result (λ room. room.items ≡ []) }
    ensures roomy { IfOk result (λ room. ROOM ≤ vec_capacity room) }
{
    Vec::with_capacity(alloc, ROOM)
}

impl LogQueue {
    // No line waits. Those that come take no memory.
    pub(crate) fn new(alloc: Global) -> Result<LogQueue, AllocError>
        ensures lines { IfOk result (λ queue. queue.lines.items ≡ []) }
        ensures lost { IfOk result (λ queue. queue.lost ≡ 0) }
    {
        let lines = room(alloc)?;
        Ok(LogQueue { lines, lost: 0 })
    }

    // Whether nothing is to be written.
    pub(crate) fn is_empty(&self) -> bool {
        self.lines.is_empty() && self.lost == 0
    }

    // A line waits behind the others where there is room, and where none was lost behind them. Else it is lost.
    pub(crate) fn push(&mut self, line: &[u8])
        ensures lines { self.new.lines.items ≡ waiting self.old.lines.items self.old.lost line.now }
        ensures lost { self.new.lost ≡ lost_then self.old.lines.items self.old.lost line.now }
    {
        if self.lost > 0 || line.len() > ROOM - self.lines.len() {
            return self.lose();
        }
        let _ = self.lines.extend_from_slice(line);
    }

    // A line is lost.
    pub(crate) fn lose(&mut self)
        ensures lines { self.new.lines ≡ self.old.lines }
        ensures lost { self.new.lost ≡ one_more self.old.lost }
    {
        self.lost = self.lost.saturating_add(1);
    }

    // Swaps the lines that wait with the given room, in which none stands, and answers how many were lost behind them.
    pub(crate) fn swap(&mut self, room: &mut Vec<u8>) -> u64
        requires empty { room.old.items ≡ [] }
        requires roomy { ROOM ≤ vec_capacity room.old }
        ensures lines { room.new.items ≡ self.old.lines.items }
        ensures lost { result ≡ self.old.lost }
        ensures rest { self.new.lines.items ≡ [] }
        ensures none_lost { self.new.lost ≡ 0 }
        ensures roomy { ROOM ≤ vec_capacity room.new }
    {
        mem::swap(&mut self.lines, room);
        mem::replace(&mut self.lost, 0)
    }
}
