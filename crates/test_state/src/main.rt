//! Plays the rows of files, and compares what each gives with what is expected. The words name files of cases:
//!
//!     == name of the case
//!     row = what comes of it
//!
//! A case has a state of chat histories and another one beside it, both empty at first. A row that begins with `C` spells a
//! change, and others speak of changes by their numbers in the case, from 0: `act` says what rows do, `tell` what they ask, and
//! [`Sight`] what is looked at. What comes of a row without ` = ` is nothing. `tables.py` writes files, with the answers of a
//! plain model.
//!
//! A row that is refused memory is played again. What stands is looked at first, and it is wrong where a row `stands` says
//! otherwise. `tests/suites/calls.py` refuses each request of the files `.._refused`.
//!
//! Behind the word `speed` the words say what is measured (`speed`).
#![tactic(auto)]

mod acts;
mod looks;
mod numbers;
mod questions;
mod speed;
mod texts;
mod walks;

use acts::{Player, act};
use anyhow::Error;
use questions::{Sight, is_standing, tell};
use speed::{print_measure, task_in};
use std::alloc::Global;
use std::{env, fs};

/// What comes of a row.
fn told(
    alloc: Global,
    player: &mut Player,
    sight: Sight<'_>,
    words: &str,
) -> Result<Vec<u8>, Error> {
    let mut out = Vec::new(alloc);
    if !act(alloc, player, words, &mut out)? {
        tell(alloc, &mut player.state, sight, words, &mut out)?;
    }
    Ok(out)
}

/// Looks at what stands after a row that was refused, and plays it again.
fn comes_again(
    alloc: Global,
    player: &mut Player,
    sight: Sight<'_>,
    words: &str,
    wanted: &str,
) -> Result<bool, Error> {
    let is_standing = is_standing(alloc, &mut player.state, sight, player.taken)?;
    let found = told(alloc, player, sight, words)?;
    Ok(is_standing && found.as_slice() == wanted.as_bytes())
}

/// Plays a row, and says whether that came of it that is to come of it.
fn comes(alloc: Global, player: &mut Player, sight: Sight<'_>, row: &str) -> Result<bool, Error> {
    let (words, wanted) = row.split_once(" = ").unwrap_or((row, ""));
    match &told(alloc, player, sight, words) {
        Ok(found) => Ok(found.as_slice() == wanted.as_bytes()),
        Err(_) => comes_again(alloc, player, sight, words, wanted),
    }
}

/// The same, and shows the row where something else came of it.
fn is_right(
    rt: &HostRuntime,
    player: &mut Player,
    sight: Sight<'_>,
    row: &str,
) -> Result<bool, Error> {
    let is_right = comes(rt.alloc(), player, sight, row)?;
    if !is_right {
        println!(rt; "wrong: {row}")?;
    }
    Ok(is_right)
}

/// Plays the rows of a case, and says of how many something else came.
fn play_rows(rt: &HostRuntime, player: &mut Player, rows: &str) -> Result<u64, Error> {
    let mut sight = Sight::NONE;
    let mut wrong: u64 = 0;
    for row in rows.lines() {
        match sight.turned(row) {
            Some(turned) => sight = turned,
            None => {
                let is_right = is_right(rt, player, sight, row)?;
                wrong = wrong.saturating_add(u64::from(!is_right));
            }
        }
    }
    Ok(wrong)
}

/// Plays the rows of a case from two empty states on.
fn play_case(rt: &HostRuntime, rows: &str) -> Result<u64, Error> {
    let mut player = Player::new(rt.alloc());
    play_rows(rt, &mut player, rows)
}

/// Plays a case, behind its name.
fn play_part(rt: &HostRuntime, part: &str) -> Result<u64, Error> {
    let (name, rows) = part.split_once("\n").unwrap_or((part, ""));
    let wrong = play_case(rt, rows)?;
    if wrong > 0 {
        println!(rt; "in {name}: {wrong} wrong")?;
    }
    Ok(wrong)
}

/// Plays the cases of a file, and says how many they and their rows were, and of how many rows something else came.
fn play_cases(rt: &HostRuntime, path: &str, text: &str) -> Result<(), Error> {
    let Some(all) = text.strip_prefix("== ") else {
        return Ok(println!(rt; "{path}: no case")?);
    };
    let mut cases: u64 = 0;
    let mut wrong: u64 = 0;
    for part in all.split("\n== ") {
        cases = cases.saturating_add(1);
        wrong = wrong.saturating_add(play_part(rt, part)?);
    }
    let rows = text.lines().count();
    Ok(println!(rt; "{path}: {cases} cases of {rows} rows, {wrong} rows wrong")?)
}

fn play_file(rt: &HostRuntime, path: &str) -> Result<(), Error> {
    let text = fs::read_to_string(rt, path)?;
    play_cases(rt, path, text.as_str())
}

/// Plays the files that the words name.
fn play_files(rt: &HostRuntime) -> Result<(), Error> {
    for path in env::args(rt)?.skip(1) {
        play_file(rt, path.as_str())?;
    }
    Ok(())
}

fn main(rt: HostRuntime) -> Result<(), Error> {
    let words: Vec<String> = env::args(&rt)?.collect(rt.alloc())?;
    match task_in(&words) {
        Some(task) => Ok(print_measure(&rt, task)?),
        None => play_files(&rt),
    }
}
