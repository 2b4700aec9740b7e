//! Shows what a worker does: it plays one or two workers over ports of memory, act by act, each in a thread of its own, and compares
//! what comes of each act with what is to come of it. It stands on `bnc_work`. Read `play` first, and then `port`.
//! The words name files of cases:
//!
//!     == name of the case
//!     with posts 120, clock 5000, networks 3, peers n0 n2, places 2, others 2, shut, held, alone
//!     act
//!         what comes of it
//!
//! The second line may be missing, and each of its parts. At first the node n1, in its incarnation 7, holds so many posts of
//! `#a`, of the network `net` of the account `demo`: m0, m1 and so on, a second apart from the beginning of 1970. It has the
//! first of the networks demo/net, demo/two and eve/net, the peer n0, four places for clients and an open gate, and the wall
//! clock is 1,000 seconds after 1970 began. A peer of the name n9 hears version 1. With `shut` the gate lets nothing through,
//! with `held` it holds each answer until the other worker has reached it too, and with `alone` no connection can be begun.
//! With `others 2` the node has two passes more than workers. Once these have ended, the first of the two puts a marker of `#a`
//! at 5,000 and asks for it; then the other learns of it, asks for it, and makes the delta since 0.
//!
//! Acts begin a line:
//!
//!     1 client 1024       a client comes by connection 1, to whom 1,024 bytes may be owed
//!     1 peer              a node comes
//!     10 opens            the connection that was begun under that number is there
//!     10 refused          it can't be made
//!     1 < line            a line comes, with CR LF
//!     1 + line            a line comes, with what comes next
//!     1 many 99 line      a line comes 99 times, with what comes next
//!     1 . bytes           bytes come that end no line
//!     1 gives 1           what the other end sends from now on comes a byte at once
//!     1 ends              the other end sends nothing more
//!     1 gone              the other end is gone
//!     1 takes 100         the other end takes 100 bytes at once
//!     1 takes 100 of 450  and no more than 450 in all
//!     wait 60000          milliseconds pass, by the wall clock and by the monotonic one
//!     ahead 60000         the wall clock alone is set ahead by so many milliseconds
//!     back 60000          it is set back by so many
//!     leave 1             the client at place 1 is asked to leave
//!     mail                what the other worker told comes, the next of it, for which the port waits
//!     together 3          the next three acts happen at once
//!     pause               nothing happens, so that the worker has its turn between two acts that happen at once
//!     fail                the port fails
//!     stop                the clocks can't be read any more
//!
//! The address of connection 0 isn't known.
//!
//! What comes of an act stands behind it, four spaces in. First comes, in its order, which place a client got, what the
//! operator was told, which connections were begun, what was told to the other worker, and what was sent over a connection that
//! moves there; then, connection by connection, the lines that were sent, behind `>`, bytes that end no line, behind `.`, and whether
//! it was closed. The last line of a case says how the work ended. A line of more than 200 bytes is printed as the first 40 of them
//! and their count, and lines that are alike are printed once, with their number.
//!
//! One worker plays a case. Where a case has a line `--`, two play at once: the first one what stands before it, and the other what
//! stands behind it. Each has clocks and places of its own, those of the other one behind those of the first. A connection is played
//! where it is.
#![tactic(auto)]

mod act;
mod connection;
mod entrance;
mod gate;
mod lists;
mod node_settings;
mod others;
mod play;
mod port;
mod post;
mod script;
mod setting;
mod times;
mod wire;
mod wires;

use play::played;
use setting::{Setting, USUAL, setting_in};
use std::io::Print;
use std::sync::Wait;
use std::thread::Threads;
use std::time::Clock;
use std::{env, fs, io};

/// What a worker begins with, and what happens and is to come of it.
#[derive(Clone, Copy)]
struct WorkerCase<'a> {
    name: &'a str,
    setting: Setting<'a>,
    script: &'a str,
}

/// The case that a part of a file spells: None without its marks.
fn case_in(part: &str) -> Option<WorkerCase<'_>> {
    let (name, rest) = part.split_once("\n")?;
    let Some(rest) = rest.strip_prefix("with ") else {
        return Some(WorkerCase {
            name,
            setting: USUAL,
            script: rest,
        });
    };
    let (parts, script) = rest.split_once("\n")?;
    Some(WorkerCase {
        name,
        setting: setting_in(parts),
        script,
    })
}

/// Prints what else a case came to.
fn print_wrong<R: Print + AllocGlobal>(rt: &R, name: &str, told: &[u8]) -> io::Result<()> {
    let text = String::from_utf8_lossy(rt.alloc(), told)?;
    println!(rt; "{name} came to:\n{text}")
}

/// Plays a case, and says whether it gave what is expected.
fn is_right<R>(rt: &R, case: WorkerCase<'_>) -> io::Result<bool>
where
    R: Print + Threads + Wait + Clock + AllocGlobal + Copy + Send + Sync + Drop,
{
    let Some(told) = &played(rt, case) else {
        println!(rt; "{} can't be played", case.name)?;
        return Ok(false);
    };
    let is_right = told.as_slice() == case.script.as_bytes();
    if !is_right {
        print_wrong(rt, case.name, told)?;
    }
    Ok(is_right)
}

/// Plays the cases of a file, and says how many there were and how many came to something else.
fn play_all<R>(rt: &R, path: &str, text: &str) -> io::Result<()>
where
    R: Print + Threads + Wait + Clock + AllocGlobal + Copy + Send + Sync + Drop,
{
    let mut count: u64 = 0;
    let mut wrong: u64 = 0;
    for part in text.split("== ").skip(1) {
        count = count.saturating_add(1);
        let right = match case_in(part) {
            Some(case) => is_right(rt, case)?,
            None => false,
        };
        wrong = wrong.saturating_add(u64::from(!right));
    }
    println!(rt; "{path}: {count} cases, {wrong} wrong")
}

fn main(rt: HostRuntime) -> io::Result<()> {
    for path in env::args(&rt)?.skip(1) {
        let text = fs::read_to_string(&rt, path.as_str())?;
        play_all(&rt, path.as_str(), text.as_str())?;
    }
    Ok(())
}
