//! Measures one call at one size, by hand: `test_state speed WHAT HELD COUNT` does WHAT so often as COUNT says, over a state
//! that holds HELD messages, and prints how many nanoseconds each took. Nothing is measured in the gate.
//!
//! `newest` and `mixed` take further messages, in the order of their moments and in no order; `latest` and `before` answer a
//! client that asks for a page of 100; `delta` makes a delta of 256 for a peer; `floor` takes the floor of an account whose
//! messages lie in COUNT buffers, once, and lets half of each go; `lines` cuts and reads 1,000 lines that come in pieces of
//! HELD bytes (`streams`). `bench/plain/state.rs` and `bench/plain/lines.rs` do the same in plain Rust. Read `done` first.
mod streams;

use chat_batch::{Facts, Identity, answer};
use chat_change::{Account, Buffer, Change, Moment};
use chat_state::State;
use gossip_delta::{delta_since, read_change_in};
use irc_caps::CapSet;
use irc_line::{TagLimit, read_line};
use std::alloc::Global;
use std::io;
use std::time::{Duration, Instant};
use streams::read_lines;

const USAGE: &str =
    "usage: test_state speed newest|mixed|latest|before|delta|floor|lines HELD COUNT";

/// A body of 40 bytes.
const BODY: &str = "a body of forty bytes, as many lines are";

/// The first serial number in the ids.
const FIRST_SERIAL: u64 = 1_000_000_000_000;

/// The most changes of a delta.
const DELTA_LIMIT: u64 = 256;

/// How many messages a page has.
const PAGE: u64 = 100;

/// What is measured, and over how many messages and how often.
#[derive(Clone, Copy)]
pub struct Task<'a> {
    what: &'a str,
    held: u64,
    count: u64,
}

/// A number that follows no order.
fn mixed(number: u64) -> u64 {
    number.wrapping_mul(2_654_435_769) % 4_294_967_296
}

/// Buffers of the account demo.
fn buffers_of(alloc: Global, count: u64) -> Option<Vec<Buffer>> {
    let mut buffers = Vec::new(alloc);
    for number in 0..count {
        let target = format!(in alloc; "#{number}").ok()?;
        let buffer = Buffer::new(alloc, b"demo", b"net", target.as_bytes()).ok()?;
        buffers.push(buffer).ok()?;
    }
    Some(buffers)
}

/// The message of a number, at that moment or in no order of moments.
fn post(alloc: Global, buffer: &Buffer, number: u64, is_mixed: bool) -> Option<Change> {
    let target = str::from_utf8(buffer.target()).ok()?;
    let serial = FIRST_SERIAL.wrapping_add(number);
    let ms = if is_mixed { mixed(number) } else { number };
    let names = format!(in alloc; "C POST demo net {target} n1-1763912345678-{serial}").ok()?;
    let line = format!(in alloc; "{names} {ms} P #a bob!b@h :{BODY}").ok()?;
    read_change_in(alloc, Some(buffer), line.as_bytes()).ok()
}

/// Messages of the numbers from `from` to below `end`, of the buffers by turns.
fn posts(
    alloc: Global,
    buffers: &[Buffer],
    from: u64,
    end: u64,
    is_mixed: bool,
) -> Option<Vec<Change>> {
    let mut posts = Vec::new(alloc);
    for number in from..end {
        let at = number % (buffers.len() as u64).max(1);
        let change = post(alloc, buffers.get(at as usize)?, number, is_mixed)?;
        posts.push(change).ok()?;
    }
    Some(posts)
}

/// Takes messages, and counts those that were taken.
fn absorb_all(state: &mut State, posts: Vec<Change>) -> u64 {
    let mut taken = 0u64;
    for change in posts {
        if state.absorb(change).is_ok() {
            taken = taken.wrapping_add(1);
        }
    }
    taken
}

/// Takes the messages of the numbers below `held`, a thousand at once.
fn fill(
    alloc: Global,
    state: &mut State,
    buffers: &[Buffer],
    held: u64,
    is_mixed: bool,
) -> Option<()> {
    for thousand in 0..held.div_ceil(1000) {
        let from = thousand.saturating_mul(1000);
        let end = from.saturating_add(1000).min(held);
        let _ = absorb_all(state, posts(alloc, buffers, from, end, is_mixed)?);
    }
    Some(())
}

/// A question on the latest messages, or on those before one that lies anywhere, with a whole page before it.
fn question(alloc: Global, task: Task<'_>, number: u64) -> Option<String> {
    if task.what == "latest" {
        return String::from_str(alloc, "CHATHISTORY LATEST #0 * 100").ok();
    }
    let starts = task.held.saturating_sub(PAGE).max(1);
    let before = PAGE.wrapping_add(mixed(number) % starts);
    let serial = FIRST_SERIAL.wrapping_add(before);
    format!(in alloc; "CHATHISTORY BEFORE #0 msgid=n1-1763912345678-{serial} {PAGE}").ok()
}

/// Answers a question in place of what was written before, and counts the bytes.
fn answer_bytes(
    alloc: Global,
    state: &State,
    facts: &Facts,
    question: &[u8],
    output: &mut Vec<u8>,
) -> Option<u64> {
    output.clear();
    let line = read_line(question, TagLimit::Client).ok()?;
    let _ = answer(alloc, state, facts, &line, output).ok()?;
    Some(output.len() as u64)
}

/// Answers questions, and counts the bytes of the answers.
fn answer_all(alloc: Global, state: &State, facts: &Facts, task: Task<'_>) -> Option<u64> {
    let mut output = Vec::new(alloc);
    let mut total = 0u64;
    for number in 0..task.count {
        let question = question(alloc, task, number)?;
        let bytes = answer_bytes(alloc, state, facts, question.as_bytes(), &mut output)?;
        total = total.wrapping_add(bytes);
    }
    Some(total)
}

/// Makes deltas of the last messages, and counts their changes.
fn make_deltas(alloc: Global, state: &State, task: Task<'_>) -> Option<u64> {
    let from = task.held.saturating_sub(DELTA_LIMIT);
    let mut total = 0u64;
    for _ in 0..task.count {
        let delta = delta_since(alloc, state, from).ok()?;
        total = total.wrapping_add(delta.changes().len() as u64);
    }
    Some(total)
}

/// Takes a floor that lets half of the messages go.
fn take_floor(alloc: Global, state: &mut State, task: Task<'_>) -> Option<u64> {
    let account = Account::new(alloc, b"demo").ok()?;
    let at = Moment::from_ms(task.held / 2)?;
    let _ = state.absorb(Change::AccountFloor { account, at }).ok()?;
    Some(state.front())
}

/// Does what is measured: a number that depends on what came of it.
fn done(
    alloc: Global,
    state: &mut State,
    facts: &Facts,
    posts: Vec<Change>,
    task: Task<'_>,
) -> Option<u64> {
    match task.what {
        "newest" | "mixed" => Some(absorb_all(state, posts)),
        "latest" | "before" => answer_all(alloc, state, facts, task),
        "delta" => make_deltas(alloc, state, task),
        "floor" => take_floor(alloc, state, task),
        _ => None,
    }
}

/// How long it takes. To let anything go afterwards is no part of it.
fn timed(
    rt: &HostRuntime,
    state: &mut State,
    facts: &Facts,
    posts: Vec<Change>,
    task: Task<'_>,
) -> Option<(Duration, u64)> {
    let start = Instant::now(rt).ok()?;
    let total = done(rt.alloc(), state, facts, posts, task)?;
    Some((start.elapsed(rt).ok()?, total))
}

/// The messages that are taken as it is measured.
fn further_posts(alloc: Global, buffers: &[Buffer], task: Task<'_>) -> Option<Vec<Change>> {
    let further = match task.what {
        "newest" | "mixed" => task.count,
        _ => 0,
    };
    let end = task.held.saturating_add(further);
    posts(alloc, buffers, task.held, end, task.what == "mixed")
}

fn measured_over(
    rt: &HostRuntime,
    state: &mut State,
    buffers: &[Buffer],
    task: Task<'_>,
) -> Option<(Duration, u64)> {
    fill(rt.alloc(), state, buffers, task.held, task.what == "mixed")?;
    let posts = further_posts(rt.alloc(), buffers, task)?;
    // (the session holds every capability)
    let held = CapSet::all();
    let identity = Identity {
        account: b"demo",
        network: b"net",
        nick: b"al",
    };
    let facts = Facts::new(rt.alloc(), identity, held, b"bnc.example", 100).ok()?;
    timed(rt, state, &facts, posts, task)
}

fn measured_on(rt: &HostRuntime, buffers: &[Buffer], task: Task<'_>) -> Option<(Duration, u64)> {
    let mut state = State::new(rt.alloc());
    measured_over(rt, &mut state, buffers, task)
}

fn measured(rt: &HostRuntime, task: Task<'_>) -> Option<(Duration, u64)> {
    let count = match task.what {
        "lines" => return read_lines(rt, rt.alloc(), task.held, task.count),
        "floor" => task.count,
        _ => 1,
    };
    measured_on(rt, &buffers_of(rt.alloc(), count)?, task)
}

/// What is to be measured, as the words behind the program's name say; None where they don't begin with `speed`, or say no
/// sizes.
pub fn task_in(words: &[String]) -> Option<Task<'_>> {
    let [_, speed, what, held, count] = words else {
        return None;
    };
    if speed.as_str() != "speed" {
        return None;
    }
    Some(Task {
        what: what.as_str(),
        held: held.as_str().parse::<u64>().ok()?,
        count: count.as_str().parse::<u64>().ok()?,
    })
}

/// Measures what is to be measured, and prints it.
pub fn print_measure(rt: &HostRuntime, task: Task<'_>) -> io::Result<()> {
    let Some((took, total)) = measured(rt, task) else {
        return println!(rt; "{USAGE}");
    };
    let Task { what, held, count } = task;
    let each = took.as_nanos() / u128::from(count.max(1));
    println!(rt; "{what} {held} {count}: {each} ns each, {total} in all")
}
