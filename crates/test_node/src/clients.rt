//! Clients of each kind, the places that they hold, and halls.
ghost use Rattle.std.specs.Prelude.{◌≡◌, OnOk, length};
ghost use Rattle.attach.specs.Attachment.{with_line};
ghost use Rattle.attach.specs.Hall.{Changes};

use crate::limits::{is_flushed, is_offered};
use crate::places::{
    claimed, clerk_of, counting_client, is_full, next_place, recorder, ring_client,
};
use attach::{Attachment, Boxed, Clerk, Hall, HallFault, Overrun, Recorder, RingClient, Stand};
use std::alloc::Global;
use std::process::Abort;
use std::thread;

// The stand of the lowest free place, which is that one.
fn stand_at<R: Abort>(rt: &R, clerk: &mut Clerk, place: usize) -> Stand {
    let stand = clerk.claim().expect(rt, "a place");
    assert!(rt; stand.place() == place);
    stand
}

#[test]
fn a_stand_has_a_text(rt: HostRuntime) {
    let mut clerk = clerk_of(&rt, rt.alloc(), 1);
    let stand = claimed(&rt, &mut clerk);
    let printed = format!(in rt.alloc(); "{stand:?}").expect(&rt, "memory");
    assert!(rt; printed.as_str() == "Stand { place: 0 }");
}

#[test]
fn a_clerk_hands_out_the_lowest_free_place(rt: HostRuntime) {
    let mut clerk = clerk_of(&rt, rt.alloc(), 3);
    let first = stand_at(&rt, &mut clerk, 0);
    let _second = stand_at(&rt, &mut clerk, 1);
    let third = stand_at(&rt, &mut clerk, 2);
    assert!(rt; is_full(&mut clerk));
    drop(third);
    drop(first);
    let _lowest = stand_at(&rt, &mut clerk, 0);
    let _next = stand_at(&rt, &mut clerk, 2);
    assert!(rt; is_full(&mut clerk));
    drop(clerk);
}

// A client at the lowest free place in a box.
fn boxed_ring<R: Abort>(rt: &R, alloc: Global, clerk: &mut Clerk) -> Boxed {
    let client = ring_client(rt, alloc, clerk);
    Box::new(alloc, client).expect(rt, "memory")
}

// What is added is there, under the key.
fn added<R: Abort>(rt: &R, hall: &mut Hall, attachment: Boxed) -> usize {
    match hall.add(attachment) {
        Ok(key) => key,
        Err(_) => rt.panic("memory"),
    }
}

#[test]
fn a_box_dropped_in_another_thread_frees_its_place(rt: HostRuntime) {
    let mut clerk = clerk_of(&rt, rt.alloc(), 1);
    let attachment = boxed_ring(&rt, rt.alloc(), &mut clerk);
    assert!(rt; is_full(&mut clerk));
    let child = thread::spawn(&rt, move || drop(attachment)).expect(&rt, "a thread");
    child.join(&rt);
    assert!(rt; next_place(&rt, &mut clerk) == 0);
}

// A use of a hall of any attachments through its bound.
fn offer_any<X: Attachment>(hall: &mut Hall<X>, key: usize, line: &[u8]) -> Result<(), HallFault>
    ensures { OnOk result (Changes hall.old hall.new key
        (λ a b. X.state b ≡ with_line (X.state a) line.now)) }
{
    hall.offer(key, line)
}

// Whether nothing is offered or flushed under that key of a hall.
fn is_vacant(hall: &mut Hall, key: usize) -> bool {
    let mut out = [0u8; 2];
    hall.offer(key, b"de") == Err(HallFault::NoSuch)
        && hall.flush_into(key, &mut out).is_none()
        && out == [0, 0]
}

// Whether 4 bytes may be owed under that key of a hall, and 2 of 3 are flushed.
fn is_half_flushed(hall: &mut Hall, key: usize) -> bool {
    let mut out = [0u8; 2];
    offer_any(hall, key, b"abc").is_ok()
        && hall.offer(key, b"de") == Err(HallFault::Overrun)
        && hall.flush_into(key, &mut out) == Some(2)
        && out == *b"ab"
}

// Whether 3 bytes more are taken under that key of a hall, and then no other.
fn is_filled_up(hall: &mut Hall, key: usize) -> bool {
    hall.offer(key, b"def").is_ok()
        && hall.offer(key, b"").is_ok()
        && hall.offer(key, b"x") == Err(HallFault::Overrun)
}

// Whether the client under that key of a hall leaves it, to whom 4 bytes are owed.
fn is_removed(hall: &mut Hall, key: usize) -> bool {
    match hall.remove(key) {
        Some(it) => it.place() == 0 && it.owed() == 4 && it.bound() == 4,
        None => false,
    }
}

#[test]
fn a_hall_offers_and_flushes_under_a_key(rt: HostRuntime) {
    let mut clerk = clerk_of(&rt, rt.alloc(), 2);
    let mut hall: Hall = Hall::new(rt.alloc());
    let attachment = boxed_ring(&rt, rt.alloc(), &mut clerk);
    let key = added(&rt, &mut hall, attachment);
    assert!(rt; is_vacant(&mut hall, key ^ 1));
    assert!(rt; is_half_flushed(&mut hall, key) && is_filled_up(&mut hall, key));
    assert!(rt; is_removed(&mut hall, key) && hall.remove(key).is_none());
    assert!(rt; next_place(&rt, &mut clerk) == 0);
}

// A box in a hall holds the one place, and frees it once it is dropped.
fn holds_the_place<R: Abort>(rt: &R, clerk: &mut Clerk, hall: &mut Hall, attachment: Boxed) {
    let was_full = is_full(clerk);
    let key = added(rt, hall, attachment);
    assert!(rt; was_full && is_full(clerk));
    drop(hall.remove(key));
    assert!(rt; next_place(rt, clerk) == 0);
}

fn boxed_counting_client<R: Abort>(rt: &R, alloc: Global, clerk: &mut Clerk) -> Boxed {
    let client = counting_client(rt, alloc, clerk);
    Box::new(alloc, client).expect(rt, "memory")
}

fn boxed_recorder<R: Abort>(rt: &R, alloc: Global, clerk: &mut Clerk) -> Boxed {
    let client = recorder(rt, alloc, clerk);
    Box::new(alloc, client).expect(rt, "memory")
}

#[test]
fn each_kind_of_box_frees_its_place(rt: HostRuntime) {
    let alloc = rt.alloc();
    let mut clerk = clerk_of(&rt, alloc, 1);
    let mut hall: Hall = Hall::new(alloc);
    let attachment = boxed_ring(&rt, alloc, &mut clerk);
    holds_the_place(&rt, &mut clerk, &mut hall, attachment);
    let attachment = boxed_counting_client(&rt, alloc, &mut clerk);
    holds_the_place(&rt, &mut clerk, &mut hall, attachment);
    let attachment = boxed_recorder(&rt, alloc, &mut clerk);
    holds_the_place(&rt, &mut clerk, &mut hall, attachment);
}

// Whether 3 bytes are taken, no 2 more, and 2 of the 3 are flushed.
fn owes_three_bytes(client: &mut RingClient) -> bool {
    let mut out = [0u8; 2];
    is_offered(client, b"abc", Ok(()), 3)
        && is_offered(client, b"de", Err(Overrun), 3)
        && is_flushed(client, &mut out, b"ab", 1)
}

// Whether 3 bytes more are taken, and then no other.
fn owes_four_bytes(client: &mut RingClient) -> bool {
    is_offered(client, b"def", Ok(()), 4)
        && is_offered(client, b"", Ok(()), 4)
        && is_offered(client, b"x", Err(Overrun), 4)
}

#[test]
fn a_ring_client_owes_up_to_its_bound(rt: HostRuntime) {
    let mut clerk = clerk_of(&rt, rt.alloc(), 1);
    let mut client = ring_client(&rt, rt.alloc(), &mut clerk);
    assert!(rt; owes_three_bytes(&mut client) && owes_four_bytes(&mut client));
    assert!(rt; client.place() == 0 && client.bound() == 4);
}

// What is lent is the record, and the recorder is as before.
fn recorded_len(recorder: &mut Recorder) -> usize
    ensures record { result ≡ length recorder.old.recorded }
    ensures same { recorder.new ≡ recorder.old }
{
    recorder.recorded().len()
}

// Whether 3 bytes are offered and flushed, 2 more are offered, and then a line is refused.
fn takes_two_of_three<X: Attachment>(client: &mut X) -> bool {
    let mut out = [0u8; 3];
    client.offer(b"abc").is_ok()
        && client.flush_into(&mut out) == 3
        && client.offer(b"de").is_ok()
        && client.offer(b"xyz") == Err(Overrun)
}

#[test]
fn what_is_accepted_is_counted(rt: HostRuntime) {
    let mut clerk = clerk_of(&rt, rt.alloc(), 1);
    let mut counting = counting_client(&rt, rt.alloc(), &mut clerk);
    assert!(rt; takes_two_of_three(&mut counting));
    assert!(rt; counting.lines() == 2 && counting.bytes() == 5);
}

// Whether the latest 4 bytes are on the record: 3 bytes that are flushed, and 2 that are not.
fn is_recorded(recorder: &mut Recorder) -> bool {
    let mut out = [0u8; 3];
    recorder.offer(b"abc").is_ok()
        && recorder.flush_into(&mut out) == 3
        && recorder.offer(b"de").is_ok()
        && recorder.recorded() == b"bcde".as_slice()
}

// Whether a line that is refused leaves the record as it is.
fn is_still_recorded(recorder: &mut Recorder) -> bool {
    recorder.offer(b"xyz") == Err(Overrun)
        && recorded_len(recorder) == 4
        && recorder.recorded() == b"bcde".as_slice()
}

#[test]
fn what_is_accepted_is_recorded(rt: HostRuntime) {
    let mut clerk = clerk_of(&rt, rt.alloc(), 1);
    let mut recorder = recorder(&rt, rt.alloc(), &mut clerk);
    assert!(rt; is_recorded(&mut recorder) && is_still_recorded(&mut recorder));
}
