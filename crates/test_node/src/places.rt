//! Places as the rows claim them, and clients at them.
use attach::{Clerk, CountingClient, NoRing, Places, Recorder, RingClient, Stand};
use std::alloc::Global;
use std::process::Abort;

/// Places for so many clients.
pub fn clerk_of<R: Abort>(rt: &R, alloc: Global, count: usize) -> Clerk {
    Places::new(alloc, count).expect(rt, "memory")
}

/// Whether no place is free.
pub fn is_full(clerk: &mut Clerk) -> bool {
    clerk.claim().is_err()
}

/// The place that is given next. It is free again at once.
pub fn next_place<R: Abort>(rt: &R, clerk: &mut Clerk) -> usize {
    clerk.claim().expect(rt, "a place").place()
}

/// Each call below that takes memory is made again where it was refused, so often. So rows of these alone pass too where the
/// Nth request for memory is refused, and as many in a row, for each N, as under `rt try --test --fail-alloc N`.
pub const REFUSALS: usize = 3;

/// The stand that comes back, which still holds the one place.
pub fn handed_back<R: Abort>(rt: &R, clerk: &mut Clerk, fault: NoRing) -> Stand {
    let NoRing { stand } = fault;
    assert!(rt; stand.place() == 0 && is_full(clerk));
    stand
}

/// The stand of the lowest free place.
pub fn claimed<R: Abort>(rt: &R, clerk: &mut Clerk) -> Stand {
    clerk.claim().expect(rt, "a place")
}

// The client that is made at last.
fn made<R: Abort, C: Drop>(rt: &R, made: Result<C, NoRing>) -> C {
    match made {
        Ok(client) => client,
        Err(_) => rt.panic("memory"),
    }
}

/// A client at the lowest free place, to which 4 bytes may be owed.
pub fn ring_client<R: Abort>(rt: &R, alloc: Global, clerk: &mut Clerk) -> RingClient {
    let mut stand = claimed(rt, clerk);
    for _ in 0..REFUSALS {
        match RingClient::new(alloc, stand, 4) {
            Ok(client) => return client,
            Err(fault) => stand = handed_back(rt, clerk, fault),
        }
    }
    made(rt, RingClient::new(alloc, stand, 4))
}

/// The same of a client that counts.
pub fn counting_client<R: Abort>(rt: &R, alloc: Global, clerk: &mut Clerk) -> CountingClient {
    let mut stand = claimed(rt, clerk);
    for _ in 0..REFUSALS {
        match CountingClient::new(alloc, stand, 4) {
            Ok(client) => return client,
            Err(fault) => stand = handed_back(rt, clerk, fault),
        }
    }
    made(rt, CountingClient::new(alloc, stand, 4))
}

/// The same of one that records.
pub fn recorder<R: Abort>(rt: &R, alloc: Global, clerk: &mut Clerk) -> Recorder {
    let mut stand = claimed(rt, clerk);
    for _ in 0..REFUSALS {
        match Recorder::new(alloc, stand, 4) {
            Ok(recorder) => return recorder,
            Err(fault) => stand = handed_back(rt, clerk, fault),
        }
    }
    made(rt, Recorder::new(alloc, stand, 4))
}
