//! The most places, the greatest bound, and a full hall.
use crate::places::{clerk_of, is_full, next_place};
use attach::{Attachment, Clerk, Hall, Overrun, Places, PlacesFault, RingClient, Stand};
use std::alloc::Global;
use std::process::Abort;

// The greatest bound that a configuration may ask for.
const GREATEST_BOUND: usize = 1_048_576;

// Claims so many places, which are given in order.
fn claimed_in_order<R: Abort>(
    rt: &R,
    alloc: Global,
    clerk: &mut Clerk,
    count: usize,
) -> Vec<Stand> {
    let mut stands = Vec::new(alloc);
    for place in 0..count {
        let stand = clerk.claim().expect(rt, "a place");
        assert!(rt; stand.place() == place);
        assert!(rt; stands.push(stand).is_ok());
    }
    stands
}

// Whether the latest of all places is free again once its stand is dropped, and no other is.
fn latest_is_free_again<R: Abort>(rt: &R, clerk: &mut Clerk, stands: &mut Vec<Stand>) -> bool {
    drop(stands.pop());
    let latest = clerk.claim().expect(rt, "the place");
    latest.place() == 4095 && is_full(clerk)
}

#[test]
fn each_of_4096_places_is_claimed_in_order(rt: HostRuntime) {
    let mut clerk = clerk_of(&rt, rt.alloc(), 4096);
    let mut stands = claimed_in_order(&rt, rt.alloc(), &mut clerk, 4096);
    assert!(rt; is_full(&mut clerk));
    assert!(rt; latest_is_free_again(&rt, &mut clerk, &mut stands));
    drop(stands);
    for turn in 0..3 {
        assert!(rt; next_place(&rt, &mut clerk) == 0, "at turn {turn}");
    }
}

#[test]
fn a_count_of_0_or_of_more_than_4096_is_refused(rt: HostRuntime) {
    for count in [0, 4097, usize::MAX] {
        let made = Places::new(rt.alloc(), count);
        assert!(rt; matches!(made, Err(PlacesFault::BadCount)), "at {count}");
    }
}

// So many bytes, each other than those beside it.
fn pattern<R: Abort>(rt: &R, alloc: Global, count: usize) -> Vec<u8> {
    let mut bytes = Vec::new(alloc);
    for i in 0..count {
        bytes.push((i % 251) as u8).expect(rt, "memory");
    }
    bytes
}

/// Whether a line that is offered is answered so, and so many bytes are owed then.
pub fn is_offered(
    client: &mut RingClient,
    line: &[u8],
    wanted: Result<(), Overrun>,
    owed: usize,
) -> bool {
    client.offer(line) == wanted && client.owed() == owed
}

/// Whether these bytes are flushed, and so many are owed then.
pub fn is_flushed(client: &mut RingClient, out: &mut [u8], wanted: &[u8], owed: usize) -> bool {
    client.flush_into(out) == wanted.len()
        && out.get(..wanted.len()) == Some(wanted)
        && client.owed() == owed
}

// Whether the line fills the ring across its end, and no byte more is taken.
fn is_filled(client: &mut RingClient, out: &mut [u8], line: &[u8]) -> bool {
    is_offered(client, b"abc", Ok(()), 3)
        && is_flushed(client, out, b"abc", 0)
        && is_offered(client, line, Ok(()), GREATEST_BOUND)
        && is_offered(client, b"x", Err(Overrun), GREATEST_BOUND)
}

// Whether the line is flushed, and isn't taken again beside a byte.
fn is_emptied(client: &mut RingClient, out: &mut [u8], line: &[u8]) -> bool {
    is_flushed(client, out, line, 0)
        && is_offered(client, b"x", Ok(()), 1)
        && is_offered(client, line, Err(Overrun), 1)
}

#[test]
fn a_ring_of_the_greatest_bound_is_filled_and_flushed(rt: HostRuntime) {
    let mut clerk = clerk_of(&rt, rt.alloc(), 1);
    let stand = clerk.claim().expect(&rt, "a place");
    let mut client = RingClient::new(rt.alloc(), stand, GREATEST_BOUND).expect(&rt, "memory");
    let line = pattern(&rt, rt.alloc(), GREATEST_BOUND);
    let mut out = vec![in rt.alloc(); 0u8; GREATEST_BOUND].expect(&rt, "memory");
    assert!(rt; is_filled(&mut client, &mut out, &line));
    assert!(rt; is_emptied(&mut client, &mut out, &line));
}

// Puts a client at the next place into the hall, and answers its key.
fn add_client<R: Abort>(
    rt: &R,
    alloc: Global,
    clerk: &mut Clerk,
    hall: &mut Hall<RingClient>,
) -> usize {
    let stand = clerk.claim().expect(rt, "a place");
    let client = RingClient::new(alloc, stand, 8).expect(rt, "memory");
    match hall.add(client) {
        Ok(key) => key,
        Err(_) => rt.panic("memory"),
    }
}

// Fills the hall with clients, each of which is offered its place. Their keys, by their places.
fn keys_of<R: Abort>(
    rt: &R,
    alloc: Global,
    clerk: &mut Clerk,
    hall: &mut Hall<RingClient>,
) -> Vec<usize> {
    let mut keys = Vec::new(alloc);
    for place in 0..4096usize {
        let key = add_client(rt, alloc, clerk, hall);
        assert!(rt; hall.offer(key, &place.to_be_bytes()).is_ok());
        keys.push(key).expect(rt, "memory");
    }
    keys
}

// Whether the client under the key is owed its place, and leaves the hall.
fn is_removed(hall: &mut Hall<RingClient>, key: usize, place: usize) -> bool {
    let mut out = [0u8; 8];
    if hall.flush_into(key, &mut out) != Some(8) || out != place.to_be_bytes() {
        return false;
    }
    match hall.remove(key) {
        Some(removed) => removed.place() == place,
        None => false,
    }
}

#[test]
fn a_hall_keeps_4096_attachments(rt: HostRuntime) {
    let mut clerk = clerk_of(&rt, rt.alloc(), 4096);
    let mut hall: Hall<RingClient> = Hall::new(rt.alloc());
    let keys = keys_of(&rt, rt.alloc(), &mut clerk, &mut hall);
    assert!(rt; is_full(&mut clerk));
    for (place, key) in keys.iter().enumerate() {
        assert!(rt; is_removed(&mut hall, *key, place));
    }
    assert!(rt; next_place(&rt, &mut clerk) == 0);
}
