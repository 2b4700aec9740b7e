//! What is asked, and what the answers say.
use crate::changes::buffer_of;
use crate::fault::RowFault;
use chat_batch::{Facts, Identity};
use chat_change::{Change, Moment, MsgId};
use chat_state::{NoEntry, Peek};
use gossip_delta::Source;
use irc_caps::CapSet;
use irc_line::{TagLimit, read_line};
use shared_node::{Naming, Pass};
use std::alloc::Global;

/// A channel, the question on its marker, and how the answer to it begins.
#[derive(Clone, Copy)]
pub struct Channel {
    pub name: &'static str,
    question: &'static [u8],
    head: &'static str,
}

/// The channel `#a`.
pub const A: Channel = Channel {
    name: "#a",
    question: b"MARKREAD #a",
    head: ":~ MARKREAD #a ",
};

/// Three more channels.
pub const THREE: [Channel; 3] = [
    Channel {
        name: "#b1",
        question: b"MARKREAD #b1",
        head: ":~ MARKREAD #b1 ",
    },
    Channel {
        name: "#b2",
        question: b"MARKREAD #b2",
        head: ":~ MARKREAD #b2 ",
    },
    Channel {
        name: "#b3",
        question: b"MARKREAD #b3",
        head: ":~ MARKREAD #b3 ",
    },
];

/// The session of `al`, which holds every capability.
pub fn facts(alloc: Global) -> Option<Facts> {
    let identity = Identity {
        account: b"demo",
        network: b"net",
        nick: b"al",
    };
    Facts::new(alloc, identity, CapSet::all(), b"~", 100).ok()
}

// Milliseconds in the form 05.123.
fn ms_in(time: &str) -> Option<u64> {
    let (seconds, ms) = time.split_once(".")?;
    if seconds.len() != 2 || ms.len() != 3 {
        return None;
    }
    let seconds = seconds.parse::<u64>().ok()?;
    seconds
        .checked_mul(1000)?
        .checked_add(ms.parse::<u64>().ok()?)
}

// The moment of the marker that an answer spells, in the first minute of 1970: 0 where it says that there is none. None
// where it is no such answer.
fn moment_in(answer: &str, head: &str) -> Option<u64> {
    let rest = answer.strip_prefix(head)?;
    if rest == "*\r\n" {
        return Some(0);
    }
    let time = rest.strip_prefix("timestamp=1970-01-01T00:00:")?;
    ms_in(time.strip_suffix("Z\r\n")?)
}

// Writes what the pass is answered.
fn ask<J: Naming>(
    alloc: Global,
    facts: &Facts,
    pass: &mut Pass<J>,
    question: &[u8],
    output: &mut Vec<u8>,
) -> Result<(), RowFault> {
    let Ok(line) = read_line(question, TagLimit::Client) else {
        return Err(RowFault::NoMarker);
    };
    pass.ask(alloc, facts, &line, output)?;
    Ok(())
}

/// The moment of the channel's marker, in milliseconds: 0 where the pass sees none.
pub fn marker<J: Naming>(
    alloc: Global,
    facts: &Facts,
    pass: &mut Pass<J>,
    channel: Channel,
) -> Result<u64, RowFault> {
    let mut output = Vec::new(alloc);
    ask(alloc, facts, pass, channel.question, &mut output)?;
    match str::from_utf8(&output) {
        Ok(text) => moment_in(text, channel.head).ok_or(RowFault::NoMarker),
        Err(_) => Err(RowFault::NoMarker),
    }
}

/// How many changes the delta of a source since 0 has. u64::MAX where it isn't up to that number.
pub fn delta_count<S: Source>(alloc: Global, source: &mut S) -> Result<u64, RowFault> {
    let delta = source.delta(alloc, 0)?;
    let count = delta.changes().len() as u64;
    Ok(if delta.to() == count { count } else { u64::MAX })
}

/// 1 where a message of `#a` is shown, and 0 where it isn't.
pub fn shown<P: Peek>(alloc: Global, peek: &mut P, id: &str) -> Result<u64, RowFault> {
    let buffer = buffer_of(alloc, "#a").ok_or(RowFault::NoMemory)?;
    let Ok(message) = MsgId::new(alloc, id.as_bytes()) else {
        return Err(RowFault::NoMemory);
    };
    match peek.shown(&buffer, &message) {
        Ok(shown) => Ok(u64::from(shown)),
        Err(NoEntry) => Err(RowFault::NoEntry),
    }
}

/// The moment of the one floor that is due, a day and two seconds after 1970 began, after a day. u64::MAX where there are
/// more, or none.
pub fn due_floor<J: Naming>(alloc: Global, pass: &mut Pass<J>) -> Result<u64, RowFault> {
    let now = Moment::from_ms(86_402_000).ok_or(RowFault::NoMoment)?;
    let floors = pass.due_floors(alloc, now, 1)?;
    Ok(match floors.as_slice() {
        [Change::Floor { at, .. }] => at.ms(),
        _ => u64::MAX,
    })
}
