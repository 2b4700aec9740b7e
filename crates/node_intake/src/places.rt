//! The places of clients, and who gives way where each is taken.
use attach::{ClaimFault, Clerk, Places, Stand};
use bnc_work::WaitingClients;
use node_events::ServeFault;
use std::alloc::{AllocError, Global};

// After so many milliseconds a client that was asked to go is taken to stay.
const PATIENCE: u64 = 1000;

// Who was handed in last at a place.
#[derive(Clone, Copy)]
struct Occupant {
    // How many were handed in before, at any place.
    before: u64,
    // When it was asked to go, by the monotonic clock.
    asked_at: Option<u64>,
}

// The places of clients, with who was handed in last at each: where each is taken these are those who are there.
#[derive(Drop)]
pub(crate) struct ClientPlaces {
    clerk: Clerk,
    waiting: WaitingClients,
    seats: Vec<Option<Occupant>>,
    // How many were handed in.
    count: u64,
}

// So many seats, at which nobody was.
fn empty_seats(alloc: Global, places: usize) -> Result<Vec<Option<Occupant>>, AllocError> {
    let mut seats = Vec::new(alloc);
    for _ in 0..places {
        seats.push(None)?;
    }
    Ok(seats)
}

impl ClientPlaces {
    // So many places, which are all free.
    pub(crate) fn new(alloc: Global, places: usize) -> Result<ClientPlaces, ServeFault> {
        let waiting = WaitingClients::new(alloc, places)?;
        let clerk = Places::new(alloc, places)?;
        let seats = empty_seats(alloc, places)?;
        Ok(ClientPlaces {
            clerk,
            waiting,
            seats,
            count: 0,
        })
    }

    // Who waits to be registered, for the workers, who have the clients.
    pub(crate) fn share_waiting(&self) -> Result<WaitingClients, AllocError> {
        self.waiting.try_clone()
    }

    // A place that is free.
    pub(crate) fn claim(&mut self) -> Result<Stand, ClaimFault> {
        self.clerk.claim()
    }

    // A client is about to be handed in at that place, and waits to be registered.
    pub(crate) fn begin(&self, place: usize) {
        self.waiting.begin(place);
    }

    // The client at that place was handed in.
    pub(crate) fn note(&mut self, place: usize) {
        let seat = Occupant {
            before: self.count,
            asked_at: None,
        };
        self.count = self.count.saturating_add(1);
        if let Some(kept) = self.seats.get_mut(place) {
            *kept = Some(seat);
        }
    }

    // How many were asked to go a short while ago, and may be about to.
    pub(crate) fn count_leaving(&self, now: u64) -> usize {
        let mut count: usize = 0;
        for (place, seat) in self.seats.iter().enumerate() {
            if is_leaving(seat, now) && self.waiting.waits(place) {
                count = count.saturating_add(1);
            }
        }
        count
    }

    // The place of who has waited longest to be registered, of those that weren't asked to go.
    fn longest(&self) -> Option<usize> {
        let mut least = u64::MAX;
        let mut first = None;
        for (place, seat) in self.seats.iter().enumerate() {
            if let Some(number) = number_of(seat) {
                if number < least && self.waiting.waits(place) {
                    least = number;
                    first = Some(place);
                }
            }
        }
        first
    }

    // Asks to go who has waited longest to be registered, of those that weren't asked. False where there is nobody.
    pub(crate) fn ask_longest(&mut self, now: u64) -> bool {
        let Some(place) = self.longest() else {
            return false;
        };
        match self.seats.get_mut(place) {
            Some(Some(seat)) => {
                seat.asked_at = Some(now);
                self.waiting.ask(place);
                true
            }
            _ => false,
        }
    }
}

// Whether it was asked to go a short while ago.
fn is_leaving(seat: &Option<Occupant>, now: u64) -> bool {
    match seat {
        Some(
            Occupant {
                asked_at: Some(at),
                ..
            },
        ) => now.saturating_sub(*at) < PATIENCE,
        _ => false,
    }
}

// How many were handed in before it, where it wasn't asked to go.
fn number_of(seat: &Option<Occupant>) -> Option<u64> {
    match seat {
        Some(
            Occupant {
                before,
                asked_at: None,
            },
        ) => Some(*before),
        _ => None,
    }
}
