//! What the threads share.
use crate::fault::KeepFault;
use crate::kept::Kept;
use crate::opening::{Opened, last_error};
use crate::survey::Survey;
use crate::upkeep::Upkeep;
use gossip_link::Terms;
use node_config::KeeperConfig;
use operator_log::Log;
use real_file::RealFile;
use std::alloc::Global;
use std::sync::Mutex;
use std::sync::atomic::{AtomicBool, Ordering};

/// What is under the lock: what is kept, and when the file is written anew.
#[derive(Drop)]
pub(crate) struct SharedKeeper {
    pub(crate) kept: Kept<RealFile>,
    pub(crate) upkeep: Upkeep,
    // what the system said as the file failed, where it did
    fault: Option<KeepFault>,
}

/// What each thread has.
#[derive(Drop)]
pub(crate) struct Common<'a> {
    pub(crate) config: &'a KeeperConfig,
    /// The path of the file.
    pub(crate) path: &'a str,
    pub(crate) log: &'a Log,
    pub(crate) shared: Mutex<SharedKeeper>,
    /// Whether all threads are to end.
    pub(crate) is_ending: AtomicBool,
}

impl Common<'_> {
    /// Whether this thread is to end.
    pub(crate) fn is_ending(&self) -> bool {
        self.is_ending.load(Ordering::SeqCst)
    }
}

impl SharedKeeper {
    /// Of a file that was opened at that moment, in milliseconds of the monotonic clock.
    pub(crate) fn new(opened: Opened, survey: Survey, now: u64) -> SharedKeeper {
        let Opened {
            begun,
            count,
            cut: _,
        } = opened;
        let front = begun.keeper.state().front();
        SharedKeeper {
            kept: Kept::Open(begun),
            upkeep: Upkeep::new(count, front, survey.pieces, now),
            fault: None,
        }
    }

    /// Whether these are the terms of the present life.
    pub(crate) fn is_of(&self, terms: &Terms) -> bool {
        self.kept.terms().me().incarnation() == terms.me().incarnation()
    }

    /// Notes what the system said of the file, where it has failed just now, on this thread.
    pub(crate) fn note_failure(&mut self) {
        if self.fault.is_none() && self.kept.has_failed() {
            self.fault = Some(last_error());
        }
    }

    /// Lets the file go, which failed: what the system said of it. None where it is let go already.
    pub(crate) fn let_go(&mut self, alloc: Global) -> Option<KeepFault> {
        if !self.kept.has_failed() || self.kept.let_go(alloc).is_err() {
            return None;
        }
        match self.fault {
            Some(fault) => Some(fault),
            None => Some(KeepFault::NoMemory),
        }
    }

    /// The front of the state.
    pub(crate) fn front(&self) -> u64 {
        self.kept.state().front()
    }
}
