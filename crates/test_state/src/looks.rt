//! What is looked up in a state.
use crate::texts::{put_line, put_moment};
use anyhow::Error;
use chat_change::{Buffer, Change, Moment, MsgId, Record};
use chat_state::{Cut, Down, Peek, Spot, State, Up};
use std::alloc::Global;
use std::io;
use std::io::Write;

/// The channel of the account demo on the network net.
pub fn buffer_of(alloc: Global, channel: &str) -> Result<Buffer, Error> {
    Ok(Buffer::new(alloc, b"demo", b"net", channel.as_bytes())?)
}

fn fate_of(is_gone: bool, is_shown: bool) -> &'static str {
    match (is_gone, is_shown) {
        (true, true) => "gone and shown",
        (true, false) => "gone",
        (false, true) => "shown",
        (false, false) => "unknown",
    }
}

// Where a message stands, found by its buffer and its id, and found by their bytes.
fn put_position(
    state: &State,
    buffer: &Buffer,
    id: &MsgId,
    out: &mut Vec<u8>,
) -> Result<(), Error> {
    let at = state.position(buffer, id);
    let (account, network, target) = (buffer.account(), buffer.network(), buffer.target());
    let found = state.find_position(account, network, target, id.as_bytes());
    if found != at {
        write!(out, " found elsewhere")?;
    }
    put_moment(out, at)?;
    Ok(())
}

// Whether a message is shown or gone, and where it stands.
fn put_found(
    state: &mut State,
    buffer: &Buffer,
    id: &MsgId,
    out: &mut Vec<u8>,
) -> Result<(), Error> {
    let is_shown = state.shown(buffer, id)?;
    let fate = fate_of(state.is_gone(buffer, id), is_shown);
    write!(out, " {fate}")?;
    put_position(state, buffer, id, out)
}

fn put_message(
    alloc: Global,
    state: &mut State,
    buffer: &Buffer,
    id: &str,
    out: &mut Vec<u8>,
) -> Result<(), Error> {
    write!(out, ", {id}")?;
    let id = MsgId::new(alloc, id.as_bytes())?;
    put_found(state, buffer, &id, out)
}

fn put_record(out: &mut Vec<u8>, record: &Record) -> io::Result<()> {
    let post = Change::Post(record.try_clone()?);
    put_line(out, &post)
}

pub fn put_rising(records: Up<'_>, out: &mut Vec<u8>) -> io::Result<()> {
    for record in records {
        put_record(out, record)?;
    }
    Ok(())
}

pub fn put_falling(records: Down<'_>, out: &mut Vec<u8>) -> io::Result<()> {
    for record in records {
        put_record(out, record)?;
    }
    Ok(())
}

/// All records of a buffer, upwards.
pub fn put_all_rising(state: &State, buffer: &Buffer, out: &mut Vec<u8>) -> io::Result<()> {
    // The prover is to be shown each type that a cut may hold.
    let _held: (Option<Moment>, Option<&Spot>) = (None, None);
    put_rising(state.up(buffer, Cut::Bottom), out)
}

/// All records of a buffer, downwards.
pub fn put_all_falling(state: &State, buffer: &Buffer, out: &mut Vec<u8>) -> io::Result<()> {
    // The prover is to be shown each type that a cut may hold.
    let _held: (Option<Moment>, Option<&Spot>) = (None, None);
    put_falling(state.down(buffer, Cut::Top), out)
}

fn put_mark_and_floor(state: &State, buffer: &Buffer, out: &mut Vec<u8>) -> io::Result<()> {
    put_moment(out, state.mark(buffer))?;
    put_moment(out, Some(state.floor(buffer)))
}

fn put_messages(
    alloc: Global,
    state: &mut State,
    ids: &str,
    buffer: &Buffer,
    out: &mut Vec<u8>,
) -> Result<(), Error> {
    for id in ids.split(" ") {
        put_message(alloc, state, buffer, id, out)?;
    }
    Ok(())
}

// The records upwards and downwards.
fn put_records(state: &State, buffer: &Buffer, out: &mut Vec<u8>) -> io::Result<()> {
    write!(out, ": ")?;
    put_all_rising(state, buffer, out)?;
    write!(out, " | ")?;
    put_all_falling(state, buffer, out)
}

// The marker, the floor and the messages of a buffer, and its records.
fn put_buffer(
    alloc: Global,
    state: &mut State,
    ids: &str,
    buffer: &Buffer,
    out: &mut Vec<u8>,
) -> Result<(), Error> {
    put_mark_and_floor(state, buffer, out)?;
    put_messages(alloc, state, ids, buffer, out)?;
    Ok(put_records(state, buffer, out)?)
}

fn put_channel(
    alloc: Global,
    state: &mut State,
    ids: &str,
    channel: &str,
    out: &mut Vec<u8>,
) -> Result<(), Error> {
    write!(out, "{channel}")?;
    let buffer = buffer_of(alloc, channel)?;
    put_buffer(alloc, state, ids, &buffer, out)
}

/// What is looked up of messages with these ids in channels.
pub fn put_channels(
    alloc: Global,
    state: &mut State,
    ids: &str,
    channels: &str,
    out: &mut Vec<u8>,
) -> Result<(), Error> {
    for channel in channels.split(" ") {
        put_channel(alloc, state, ids, channel, out)?;
        write!(out, " / ")?;
    }
    Ok(())
}

fn put_target(out: &mut Vec<u8>, target: &[u8], at: Moment) -> Result<(), Error> {
    out.extend_from_slice(target)?;
    Ok(write!(out, " {};", at.ms())?)
}

/// The targets of an account's buffers on a network, with the moments of their latest records.
pub fn put_latest(state: &State, words: &str, out: &mut Vec<u8>) -> Result<(), Error> {
    let (account, network) = words.split_once(" ").unwrap_or((words, ""));
    for (buffer, at) in state.latest(account.as_bytes(), network.as_bytes()) {
        put_target(out, buffer.target(), at)?;
    }
    Ok(())
}
