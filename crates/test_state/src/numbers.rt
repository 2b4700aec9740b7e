//! The numbers of what a state holds, and its deltas.
use crate::texts::{numbers_of, put_lent, put_lines};
use anyhow::Error;
use chat_state::{Piece, State};
use gossip_delta::{Delta, delta_since};
use std::alloc::Global;
use std::io;
use std::io::Write;

fn put_pieces(pieces: &[Piece<'_>], out: &mut Vec<u8>) -> io::Result<()> {
    for piece in pieces {
        write!(out, "{} ", piece.number())?;
        put_lent(out, &piece.change)?;
    }
    Ok(())
}

/// The pieces above a number, at most so many, each behind its number.
pub fn put_newer(
    alloc: Global,
    state: &State,
    from: u64,
    limit: u64,
    out: &mut Vec<u8>,
) -> Result<(), Error> {
    let pieces = state.newer(alloc, from, limit as usize)?;
    put_pieces(&pieces, out)?;
    Ok(())
}

fn put_changes(delta: &Delta, out: &mut Vec<u8>) -> io::Result<()> {
    write!(out, "{} {} ", delta.from(), delta.to())?;
    put_lines(out, delta.changes())
}

/// The delta since a number: the two numbers of it, and its changes.
pub fn put_delta(alloc: Global, state: &State, from: u64, out: &mut Vec<u8>) -> Result<(), Error> {
    let delta = delta_since(alloc, state, from)?;
    put_changes(&delta, out)?;
    Ok(())
}

// A piece, with or without its number.
fn put_piece(piece: &str, numbered: bool, out: &mut Vec<u8>) -> io::Result<()> {
    let shown = match piece.split_once(" ") {
        Some((_, line)) if !numbered => line,
        _ => piece,
    };
    write!(out, "{shown};")
}

// Of pieces, each behind its number, those above a number, at most so many, with or without their numbers.
fn put_part(
    pieces: &str,
    from: u64,
    limit: u64,
    numbered: bool,
    out: &mut Vec<u8>,
) -> io::Result<()> {
    let mut left = limit;
    for piece in pieces.split_terminator(";") {
        let (number, _) = numbers_of(piece);
        if number > from && left > 0 {
            left -= 1;
            put_piece(piece, numbered, out)?;
        }
    }
    Ok(())
}

fn has_newer(
    alloc: Global,
    state: &State,
    pieces: &str,
    from: u64,
    limit: u64,
) -> Result<bool, Error> {
    let mut wanted = Vec::new(alloc);
    put_part(pieces, from, limit, true, &mut wanted)?;
    let mut found = Vec::new(alloc);
    put_newer(alloc, state, from, limit, &mut found)?;
    Ok(found == wanted)
}

fn has_delta(alloc: Global, state: &State, pieces: &str, from: u64) -> Result<bool, Error> {
    let mut wanted = Vec::new(alloc);
    write!(wanted, "{from} {} ", state.front().max(from))?;
    put_part(pieces, from, u64::MAX, false, &mut wanted)?;
    let mut found = Vec::new(alloc);
    put_delta(alloc, state, from, &mut found)?;
    Ok(found == wanted)
}

fn put_wrong_newer(
    alloc: Global,
    state: &State,
    pieces: &str,
    from: u64,
    limit: u64,
    out: &mut Vec<u8>,
) -> Result<(), Error> {
    if !has_newer(alloc, state, pieces, from, limit)? {
        write!(out, "newer {from} {limit};")?;
    }
    Ok(())
}

fn put_wrong_delta(
    alloc: Global,
    state: &State,
    pieces: &str,
    from: u64,
    out: &mut Vec<u8>,
) -> Result<(), Error> {
    if !has_delta(alloc, state, pieces, from)? {
        write!(out, "delta {from};")?;
    }
    Ok(())
}

fn put_wrong_from(
    alloc: Global,
    state: &State,
    pieces: &str,
    from: u64,
    out: &mut Vec<u8>,
) -> Result<(), Error> {
    for limit in [0, 1, 2, 300] {
        put_wrong_newer(alloc, state, pieces, from, limit, out)?;
    }
    put_wrong_delta(alloc, state, pieces, from, out)
}

/// The questions for what is newer than a number that aren't answered by the part of these pieces above it, up to the number
/// after the front. The pieces are fewer than a delta may have.
pub fn put_wrong_parts(
    alloc: Global,
    state: &State,
    pieces: &str,
    out: &mut Vec<u8>,
) -> Result<(), Error> {
    for from in 0..state.front().saturating_add(2) {
        put_wrong_from(alloc, state, pieces, from, out)?;
    }
    Ok(())
}
