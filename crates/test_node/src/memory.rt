//! A request for memory that is refused loses neither a client nor its stand.
use crate::places::{
    REFUSALS, claimed, clerk_of, counting_client, handed_back, is_full, next_place, recorder,
    ring_client,
};
use attach::{
    Attachment, Boxed, Clerk, CountingClient, Hall, NoRing, Places, PlacesFault, Recorder,
    RingClient, Stand,
};
use std::alloc::Global;
use std::process::Abort;

// No block of memory is so large.
const TOO_LARGE: usize = usize::MAX;

// What comes of a client that is refused for want of memory.
fn refused<R: Abort, C: Drop>(rt: &R, clerk: &mut Clerk, made: Result<C, NoRing>) -> Stand {
    match made {
        Ok(_) => rt.panic("there is room"),
        Err(fault) => handed_back(rt, clerk, fault),
    }
}

#[test]
fn no_room_hands_the_stand_back(rt: HostRuntime) {
    let alloc = rt.alloc();
    let mut clerk = clerk_of(&rt, alloc, 1);
    let stand = claimed(&rt, &mut clerk);
    let stand = refused(&rt, &mut clerk, RingClient::new(alloc, stand, TOO_LARGE));
    let stand = refused(
        &rt,
        &mut clerk,
        CountingClient::new(alloc, stand, TOO_LARGE),
    );
    drop(refused(&rt, &mut clerk, Recorder::new(alloc, stand, TOO_LARGE)));
    assert!(rt; next_place(&rt, &mut clerk) == 0);
}

// Places for one client.
fn one_place<R: Abort>(rt: &R, alloc: Global) -> Clerk {
    for _ in 0..REFUSALS {
        match Places::new(alloc, 1) {
            Ok(clerk) => return clerk,
            Err(PlacesFault::NoMemory) => {}
            Err(PlacesFault::BadCount) => rt.panic("1 is a good count"),
        }
    }
    Places::new(alloc, 1).expect(rt, "memory")
}

#[test]
fn a_refused_ring_is_asked_for_again(rt: HostRuntime) {
    let mut clerk = one_place(&rt, rt.alloc());
    drop(ring_client(&rt, rt.alloc(), &mut clerk));
    drop(counting_client(&rt, rt.alloc(), &mut clerk));
    assert!(rt; next_place(&rt, &mut clerk) == 0);
}

// The recorder in a box. One that wasn't boxed is as it was.
fn boxed<R: Abort>(rt: &R, alloc: Global, clerk: &mut Clerk, mut recorder: Recorder) -> Boxed {
    for _ in 0..REFUSALS {
        match Box::new(alloc, recorder) {
            Ok(attachment) => return attachment,
            Err(failed) => recorder = failed.value,
        }
        assert!(rt; recorder.place() == 0 && recorder.bound() == 4 && is_full(clerk));
    }
    match Box::new(alloc, recorder) {
        Ok(attachment) => attachment,
        Err(_) => rt.panic("memory"),
    }
}

// Adds it to the hall. What wasn't added is as it was, and in no hall.
fn add_again<R: Abort>(rt: &R, clerk: &mut Clerk, hall: &mut Hall, mut attachment: Boxed) {
    for _ in 0..REFUSALS {
        match hall.add(attachment) {
            Ok(_) => return,
            Err(back) => attachment = back,
        }
        assert!(rt; attachment.place() == 0 && attachment.bound() == 4 && is_full(clerk));
    }
    assert!(rt; hall.add(attachment).is_ok());
}

#[test]
fn a_refused_box_or_entry_is_asked_for_again(rt: HostRuntime) {
    let mut clerk = one_place(&rt, rt.alloc());
    let recorder = recorder(&rt, rt.alloc(), &mut clerk);
    let attachment = boxed(&rt, rt.alloc(), &mut clerk, recorder);
    let mut hall: Hall = Hall::new(rt.alloc());
    add_again(&rt, &mut clerk, &mut hall, attachment);
    assert!(rt; is_full(&mut clerk));
    drop(hall);
    assert!(rt; next_place(&rt, &mut clerk) == 0);
}
