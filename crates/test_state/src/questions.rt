//! What rows ask of a state.
use crate::looks::{put_channels, put_latest};
use crate::numbers::{put_delta, put_newer, put_wrong_parts};
use crate::texts::{numbers_of, put_lines};
use crate::walks::put_walks;
use anyhow::Error;
use chat_change::Moment;
use chat_state::State;
use std::alloc::{AllocError, Global};
use std::io::Write;

/// What is looked at, each list with one space between its words. Rows set it: `channels`, `ids` and `cuts` with a list
/// each, `wanted` with the text of a view, and `stands` with what the state shows where the next row is refused memory,
/// once for each number of changes that it may have taken by then, with ` then ` between these.
#[derive(Clone, Copy)]
pub struct Sight<'a> {
    channels: &'a str,
    ids: &'a str,
    cuts: &'a str,
    wanted: &'a str,
    stands: &'a str,
}

impl<'a> Sight<'a> {
    /// Nothing is looked at.
    pub const NONE: Sight<'static> = Sight {
        channels: "",
        ids: "",
        cuts: "",
        wanted: "",
        stands: "",
    };

    /// What is looked at after a row, if the row sets it.
    pub fn turned(mut self, row: &'a str) -> Option<Sight<'a>> {
        let (word, rest) = row.split_once(" ")?;
        match word {
            "channels" => self.channels = rest,
            "ids" => self.ids = rest,
            "cuts" => self.cuts = rest,
            "wanted" => self.wanted = rest,
            "stands" => self.stands = rest,
            _ => return None,
        }
        Some(self)
    }
}

// The view of the channels, where it isn't the one that is wanted.
fn put_view(
    alloc: Global,
    state: &mut State,
    sight: Sight<'_>,
    out: &mut Vec<u8>,
) -> Result<(), Error> {
    let mut view = Vec::new(alloc);
    put_channels(alloc, state, sight.ids, sight.channels, &mut view)?;
    put_unless(&view, sight.wanted.as_bytes(), out)
}

fn put_unless(found: &[u8], wanted: &[u8], out: &mut Vec<u8>) -> Result<(), Error> {
    if found != wanted {
        out.extend_from_slice(found)?;
    }
    Ok(())
}

fn put_front(state: &State, out: &mut Vec<u8>) -> Result<(), Error> {
    Ok(write!(out, "{}", state.front())?)
}

// What the state shows: its front, the view of the channels, and all that it holds.
fn put_shown(
    alloc: Global,
    state: &mut State,
    sight: Sight<'_>,
    out: &mut Vec<u8>,
) -> Result<(), Error> {
    put_front(state, out)?;
    out.extend_from_slice(b" ")?;
    put_channels(alloc, state, sight.ids, sight.channels, out)?;
    put_delta(alloc, state, 0, out)
}

fn shows(alloc: Global, state: &mut State, sight: Sight<'_>, wanted: &str) -> Result<bool, Error> {
    let mut shown = Vec::new(alloc);
    put_shown(alloc, state, sight, &mut shown)?;
    Ok(shown.as_slice() == wanted.as_bytes())
}

/// Whether the state shows what is to stand after a row that was refused memory as it had taken so many changes. A look
/// that is refused too is made again, twice at most.
pub fn is_standing(
    alloc: Global,
    state: &mut State,
    sight: Sight<'_>,
    taken: usize,
) -> Result<bool, Error> {
    let wanted = sight.stands.split(" then ").nth(taken).unwrap_or("");
    for _ in 0..2u8 {
        if let Ok(is_standing) = shows(alloc, state, sight, wanted) {
            return Ok(is_standing);
        }
    }
    shows(alloc, state, sight, wanted)
}

// The floors that are due at a moment, after so many days.
fn put_due(alloc: Global, state: &State, words: &str, out: &mut Vec<u8>) -> Result<(), Error> {
    let (now, days) = numbers_of(words);
    let now = Moment::from_ms(now).ok_or(AllocError)?;
    let floors = state.due_floors(alloc, now, days.min(366) as u32)?;
    put_lines(out, &floors)?;
    Ok(())
}

/// What comes of a question:
///
///     front                  the number of the last change that counted
///     view                   nothing, where all look-ups in the channels give the text that is wanted
///     walks CHANNEL          how many records walks have up and down from each cut
///     latest ACCOUNT NETWORK the targets of the buffers with a record, and the moments of their latest ones
///     due NOW DAYS           the floors that are due
///     newer FROM LIMIT       the pieces above a number, at most so many
///     delta FROM             the delta since a number
///     parts PIECES           nothing, where all that is newer than each number is the part of these pieces above it
pub fn tell(
    alloc: Global,
    state: &mut State,
    sight: Sight<'_>,
    words: &str,
    out: &mut Vec<u8>,
) -> Result<(), Error> {
    let (word, rest) = words.split_once(" ").unwrap_or((words, ""));
    match word {
        "front" => put_front(state, out),
        "view" => put_view(alloc, state, sight, out),
        "walks" => put_walks(alloc, state, rest, sight.cuts, out),
        "latest" => put_latest(state, rest, out),
        "due" => put_due(alloc, state, rest, out),
        _ => tell_number(alloc, state, word, rest, out),
    }
}

// The rows that ask what is newer than a number.
fn tell_number(
    alloc: Global,
    state: &State,
    word: &str,
    rest: &str,
    out: &mut Vec<u8>,
) -> Result<(), Error> {
    let (from, limit) = numbers_of(rest);
    match word {
        "newer" => put_newer(alloc, state, from, limit, out),
        "delta" => put_delta(alloc, state, from, out),
        "parts" => put_wrong_parts(alloc, state, rest, out),
        _ => Ok(out.extend_from_slice(b"no such row")?),
    }
}
