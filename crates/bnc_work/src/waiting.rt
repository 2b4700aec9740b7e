//! Which clients wait to be registered.
use std::alloc::{AllocError, Global};
use std::sync::Arc;
use std::sync::atomic::{AtomicU8, Ordering};

/// Nobody waits at that place.
const NONE: u8 = 0;

/// A client waits to be registered.
const WAITS: u8 = 1;

/// Such a client was asked to leave.
const ASKED: u8 = 2;

/// Which clients wait to be registered, and which of them were asked to leave, by their places. Who takes connections in shares it with
/// the workers: a client waits from its coming until its worker says that it is registered, wherever it moves meanwhile.
#[derive(Drop)]
pub struct WaitingClients {
    marks: Arc<Vec<AtomicU8>>,
}

impl WaitingClients {
    /// Nobody waits at any of so many places.
    pub fn new(alloc: Global, places: usize) -> Result<WaitingClients, AllocError> {
        let mut marks = Vec::new(alloc);
        for _ in 0..places {
            marks.push(AtomicU8::new(NONE)).map_err(AllocError::from)?;
        }
        Ok(WaitingClients {
            marks: Arc::new(alloc, marks)?,
        })
    }

    /// The same, for another thread.
    pub fn try_clone(&self) -> Result<WaitingClients, AllocError> {
        Ok(WaitingClients {
            marks: Arc::try_clone(&self.marks)?,
        })
    }

    fn mark(&self, place: usize) -> u8 {
        match self.marks.get(place) {
            Some(mark) => mark.load(Ordering::SeqCst),
            None => NONE,
        }
    }

    fn set(&self, place: usize, mark: u8) {
        if let Some(kept) = self.marks.get(place) {
            kept.store(mark, Ordering::SeqCst);
        }
    }

    /// A client is about to come at that place, and waits from now on.
    pub fn begin(&self, place: usize) {
        self.set(place, WAITS);
    }

    /// The client at that place is registered, or gone.
    pub fn end(&self, place: usize) {
        self.set(place, NONE);
    }

    /// The client at that place is asked to leave, where it waits.
    pub fn ask(&self, place: usize) {
        if let Some(kept) = self.marks.get(place) {
            let _ = kept.compare_exchange(WAITS, ASKED, Ordering::SeqCst, Ordering::SeqCst);
        }
    }

    /// Whether the client at that place waits to be registered, asked to leave or not.
    pub fn waits(&self, place: usize) -> bool {
        self.mark(place) != NONE
    }

    /// Whether the client at that place was asked to leave.
    pub fn is_asked(&self, place: usize) -> bool {
        self.mark(place) == ASKED
    }
}
