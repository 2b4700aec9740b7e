//! The timers of a worker.
use crate::timer::Timer;
use crate::timers::Timers;
use byte_text::NoMemory;
use std::alloc::Global;

/// A timer that found no memory, and the moment at which it is due.
#[derive(Clone, Copy)]
struct LateTimer {
    timer: Timer,
    at: u64,
}

/// The timers of a worker. Those that must not be lost are set also where there is no memory: they have room from the
/// beginning.
#[derive(Drop)]
pub struct Schedule {
    timers: Timers,
    // Those that found no memory. A timer stands here or there.
    late: Vec<LateTimer>,
}

impl Schedule {
    /// No timers, with room for so many.
    pub fn new(alloc: Global, room: usize) -> Result<Schedule, NoMemory> {
        let Ok(late) = Vec::with_capacity(alloc, room) else {
            return Err(NoMemory);
        };
        Ok(Schedule {
            timers: Timers::new(alloc),
            late,
        })
    }

    /// Sets a timer to a moment, in place of the one that it was set to. For want of memory nothing changes.
    pub fn try_set(&mut self, timer: Timer, at: u64) -> Result<(), NoMemory> {
        self.timers.set(timer, at)?;
        self.late.retain(|late| late.timer != timer);
        Ok(())
    }

    /// Sets a timer to a moment, in place of the one that it was set to. As many timers as there is room for are set so at
    /// once, whatever memory there is.
    pub fn set(&mut self, timer: Timer, at: u64) {
        if self.try_set(timer, at).is_err() {
            self.clear(timer);
            let _ = self.late.push(LateTimer { timer, at });
        }
    }

    /// Clears a timer, where it is set. It takes no memory.
    pub fn clear(&mut self, timer: Timer) {
        self.timers.clear(timer);
        self.late.retain(|late| late.timer != timer);
    }

    /// The earliest moment at which a timer is due.
    pub fn next(&self) -> Option<u64> {
        let late = self.late.iter().map(|late| late.at).min();
        match (self.timers.next(), late) {
            (Some(at), Some(late)) => Some(at.min(late)),
            (Some(at), None) | (None, Some(at)) => Some(at),
            (None, None) => None,
        }
    }

    /// Takes out a timer that is due at a moment or before: one that found no memory, or else the earliest. It takes no
    /// memory.
    pub fn take_due(&mut self, now: u64) -> Option<Timer> {
        match self.late.iter().position(|late| late.at <= now) {
            Some(place) => Some(self.late.swap_remove(place).timer),
            None => self.timers.take_due(now),
        }
    }
}
