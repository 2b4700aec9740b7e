//! Plays files of cases and compares what each case gives with what is expected: sessions of clients (`client`),
//! sessions with servers (`upstream`), lines, links and connections between nodes (`peer`), and scripts over devices that fail
//! (`replays`). The words name the files; the part of a file's name in front of the first `_` says how its cases are played
//! ([`cases`] has the form).
//!
//! It stands on `client_session`, `upstream_session`, `peer_lines`, `gossip_link` and `bnc_server`. Read `play` first.
#![tactic(auto)]

mod cases;
mod client;
mod devices;
mod peer;
mod replays;
mod telling;
mod upstream;

use anyhow::Error;
use cases::{Case, spelled};
use std::alloc::Global;
use std::io::Write;
use std::{env, fs, io};

/// Prints what a case of that file gives.
fn play(alloc: Global, path: &str, case: Case<'_>, out: &mut Vec<u8>) -> Result<(), Error> {
    let (player, file) = path.split_once("_").unwrap_or((path, ""));
    let script = &spelled(alloc, case.script)?;
    match player {
        "client" => client::play(alloc, case.setting, script.as_str(), out),
        "peer" => peer::play(alloc, file, script.as_str(), out),
        "replays" => replays::play(alloc, case.setting, script.as_str(), out),
        _ => upstream::play(alloc, case.setting, script.as_str(), out),
    }
}

/// Whether that was found which is expected. What else was found is printed.
fn is_expected(rt: &HostRuntime, found: &[u8], expected: &[u8]) -> Result<bool, Error> {
    if found == expected {
        return Ok(true);
    }
    let mut writer = io::writer(rt);
    writer.write_all(found)?;
    Ok(false)
}

/// Whether a case gives what is expected.
fn is_right(rt: &HostRuntime, path: &str, case: Case<'_>) -> Result<bool, Error> {
    let expected = match case.expected {
        Some(expected) => expected,
        None if path.starts_with("peer_") => case.script,
        None => return Ok(false),
    };
    let expected = spelled(rt.alloc(), expected)?;
    let mut found = Vec::new(rt.alloc());
    play(rt.alloc(), path, case, &mut found)?;
    is_expected(rt, &found, expected.as_bytes())
}

/// Plays the cases of a file, and says how many there were, of how many rows, and how many came to something else.
fn play_cases(rt: &HostRuntime, path: &str, text: &str) -> Result<(), Error> {
    let mut count: u64 = 0;
    let mut wrong: u64 = 0;
    for part in text.split("== ").skip(1) {
        count = count.saturating_add(1);
        if !is_right(rt, path, Case::of(part))? {
            wrong = wrong.saturating_add(1);
            println!(rt; "wrong: {part}")?;
        }
    }
    let rows = text.lines().count();
    println!(rt; "{path}: {count} cases of {rows} rows, {wrong} wrong")?;
    Ok(())
}

fn main(rt: HostRuntime) -> Result<(), Error> {
    for path in env::args(&rt)?.skip(1) {
        let text = fs::read_to_string(&rt, path.as_str())?;
        play_cases(&rt, path.as_str(), text.as_str())?;
    }
    Ok(())
}
