//! Walks over the records of a channel, from cuts between them.
use crate::looks::{buffer_of, put_all_falling, put_all_rising, put_falling, put_rising};
use crate::texts::number_of;
use anyhow::Error;
use chat_change::{Buffer, Moment, MsgId};
use chat_state::{Cut, Down, Spot, State, Up};
use std::alloc::{AllocError, Global};
use std::io;
use std::io::Write;

/// A channel, with the texts of all its records upwards and downwards.
#[derive(Drop)]
struct WalkedChannel<'a> {
    state: &'a State,
    buffer: &'a Buffer,
    rising: Vec<u8>,
    falling: Vec<u8>,
}

fn channel_of<'a>(
    alloc: Global,
    state: &'a State,
    buffer: &'a Buffer,
) -> io::Result<WalkedChannel<'a>> {
    let mut channel = WalkedChannel {
        state,
        buffer,
        rising: Vec::new(alloc),
        falling: Vec::new(alloc),
    };
    put_all_rising(state, buffer, &mut channel.rising)?;
    put_all_falling(state, buffer, &mut channel.falling)?;
    Ok(channel)
}

// How many records there are in a text, if they are the last ones of the whole.
fn count_of(whole: &[u8], part: &[u8]) -> Option<usize> {
    if !whole.ends_with(part) {
        return None;
    }
    let mut count: usize = 0;
    for byte in part {
        if *byte == b';' {
            count = count.saturating_add(1);
        }
    }
    Some(count)
}

// Writes how many records there are in a text, or that they aren't the last ones of the whole.
fn put_count(whole: &[u8], part: &[u8], out: &mut Vec<u8>) -> io::Result<()> {
    match count_of(whole, part) {
        Some(count) => write!(out, "{count}"),
        None => write!(out, "?"),
    }
}

fn up<'a>(state: &'a State, buffer: &Buffer, side: &str, spot: &Spot) -> Up<'a> {
    // The prover is to be shown each type that a cut may hold.
    let _held: (Option<Moment>, Option<&Spot>) = (None, None);
    match side {
        "bottom" => state.up(buffer, Cut::Bottom),
        "under" => state.up(buffer, Cut::UnderTime(spot.at)),
        "over" => state.up(buffer, Cut::OverTime(spot.at)),
        "before" => state.up(buffer, Cut::UnderMsg(spot)),
        "after" => state.up(buffer, Cut::OverMsg(spot)),
        _ => state.up(buffer, Cut::Top),
    }
}

fn down<'a>(state: &'a State, buffer: &Buffer, side: &str, spot: &Spot) -> Down<'a> {
    // The prover is to be shown each type that a cut may hold.
    let _held: (Option<Moment>, Option<&Spot>) = (None, None);
    match side {
        "bottom" => state.down(buffer, Cut::Bottom),
        "under" => state.down(buffer, Cut::UnderTime(spot.at)),
        "over" => state.down(buffer, Cut::OverTime(spot.at)),
        "before" => state.down(buffer, Cut::UnderMsg(spot)),
        "after" => state.down(buffer, Cut::OverMsg(spot)),
        _ => state.down(buffer, Cut::Top),
    }
}

fn put_up(alloc: Global, records: Up<'_>, whole: &[u8], out: &mut Vec<u8>) -> io::Result<()> {
    let mut part = Vec::new(alloc);
    put_rising(records, &mut part)?;
    put_count(whole, &part, out)
}

fn put_down(alloc: Global, records: Down<'_>, whole: &[u8], out: &mut Vec<u8>) -> io::Result<()> {
    let mut part = Vec::new(alloc);
    put_falling(records, &mut part)?;
    put_count(whole, &part, out)
}

// A place, as a moment or as a moment, a colon and an id.
fn spot_of(alloc: Global, place: &str) -> Result<Spot, Error> {
    let (ms, id) = place.split_once(":").unwrap_or((place, ""));
    let at = Moment::from_ms(number_of(ms)).ok_or(AllocError)?;
    if id.is_empty() {
        return Ok(Spot { at, id: None });
    }
    let id = MsgId::new(alloc, id.as_bytes())?;
    Ok(Spot { at, id: Some(id) })
}

// How many records a walk has up and down from a cut.
fn put_walk(
    alloc: Global,
    channel: &WalkedChannel<'_>,
    side: &str,
    spot: &Spot,
    out: &mut Vec<u8>,
) -> io::Result<()> {
    let (state, buffer) = (channel.state, channel.buffer);
    put_up(alloc, up(state, buffer, side, spot), &channel.rising, out)?;
    write!(out, " ")?;
    put_down(
        alloc,
        down(state, buffer, side, spot),
        &channel.falling,
        out,
    )?;
    write!(out, ";")
}

// The walk from a cut as it is spelled: `bottom`, `top`, or `under`, `over`, `before` or `after` with a place.
fn put_walk_from(
    alloc: Global,
    channel: &WalkedChannel<'_>,
    word: &str,
    out: &mut Vec<u8>,
) -> Result<(), Error> {
    let (side, place) = word.split_once(":").unwrap_or((word, ""));
    let spot = spot_of(alloc, place)?;
    put_walk(alloc, channel, side, &spot, out)?;
    Ok(())
}

fn put_walks_in(
    alloc: Global,
    channel: &WalkedChannel<'_>,
    cuts: &str,
    out: &mut Vec<u8>,
) -> Result<(), Error> {
    for cut in cuts.split(" ") {
        put_walk_from(alloc, channel, cut, out)?;
    }
    Ok(())
}

/// How many records the walks in a channel have, two digits for each cut: a `?` where they aren't the last ones of the walk
/// over all records.
pub fn put_walks(
    alloc: Global,
    state: &State,
    channel: &str,
    cuts: &str,
    out: &mut Vec<u8>,
) -> Result<(), Error> {
    let buffer = buffer_of(alloc, channel)?;
    let channel = channel_of(alloc, state, &buffer)?;
    put_walks_in(alloc, &channel, cuts, out)
}
