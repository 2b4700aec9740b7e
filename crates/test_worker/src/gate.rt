//! The gate of a case.
use std::sync::atomic::{AtomicBool, Ordering};
use std::thread;
use std::time::{Clock, Duration};
use worker_pass::Gate;

/// A gate so often looks whether the other worker has come, a millisecond apart.
const TURNS: u64 = 10_000;

/// Lets every answer through, or none; or holds each until the other of two workers has reached the gate too.
#[derive(Drop)]
pub struct Latch<R> {
    rt: R,
    is_open: bool,
    holds: bool,
    // whether the first worker has come, and whether the other one has
    first: AtomicBool,
    other: AtomicBool,
}

impl<R: Clock> Latch<R> {
    /// A gate to which nobody has come.
    pub fn new(rt: R, is_open: bool, holds: bool) -> Latch<R> {
        Latch {
            rt,
            is_open,
            holds,
            first: AtomicBool::new(false),
            other: AtomicBool::new(false),
        }
    }

    // Whether the other worker reaches the gate before long.
    fn both_come(&self, worker: usize) -> bool {
        let (mine, theirs) = if worker == 0 {
            (&self.first, &self.other)
        } else {
            (&self.other, &self.first)
        };
        mine.store(true, Ordering::SeqCst);
        for _ in 0..TURNS {
            if theirs.load(Ordering::SeqCst) {
                return true;
            }
            thread::sleep(&self.rt, Duration::from_millis(1));
        }
        false
    }
}

impl<R: Clock + Sync> Gate for Latch<R> {
    fn before_answer(&self, worker: usize) -> bool {
        self.is_open && (!self.holds || self.both_come(worker))
    }
}
