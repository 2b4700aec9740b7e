//! Where the clients of a port of memory get their places.
use crate::lists::with_one;
use attach::{Clerk, Places, RingClient, Stand};
use bnc_work::WaitingClients;
use std::alloc::Global;

/// Hands out the places of clients. Those of each port are its own, behind those of the ports before it.
#[derive(Drop)]
pub struct PlaceGiver {
    clerk: Clerk,
    // the places of the ports before it
    _others: Vec<Stand>,
    waiting: WaitingClients,
}

// Claims so many places.
fn claimed(alloc: Global, clerk: &mut Clerk, count: usize) -> Option<Vec<Stand>> {
    let mut stands = Vec::new(alloc);
    for _ in 0..count {
        stands = with_one(stands, clerk.claim().ok())?;
    }
    Some(stands)
}

impl PlaceGiver {
    /// The entrance of that worker, with so many places. None is want of memory.
    pub fn new(
        alloc: Global,
        worker: usize,
        places: usize,
        waiting: &WaitingClients,
    ) -> Option<PlaceGiver> {
        let before = worker.checked_mul(places)?;
        let mut clerk = Places::new(alloc, before.checked_add(places)?).ok()?;
        let others = claimed(alloc, &mut clerk, before)?;
        Some(PlaceGiver {
            clerk,
            _others: others,
            waiting: waiting.try_clone().ok()?,
        })
    }

    /// A free place, where there is one. A client waits there from now on.
    pub fn claim(&mut self) -> Option<Stand> {
        let stand = self.clerk.claim().ok()?;
        self.waiting.begin(stand.place());
        Some(stand)
    }

    /// The client at that place is asked to leave, where it waits.
    pub fn ask(&self, place: usize) {
        self.waiting.ask(place);
    }
}
