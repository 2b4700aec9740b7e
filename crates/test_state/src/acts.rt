//! What rows do with the states.
use crate::texts::number_of;
use anyhow::Error;
use chat_change::Change;
use chat_state::{State, StateFault, TakeFault, run};
use gossip_delta::read_change;
use std::alloc::Global;
use std::io::Write;
use std::mem;

/// A state, another one beside it, and the changes of the case.
#[derive(Drop)]
pub struct Player {
    pub state: State,
    other: State,
    changes: Vec<Change>,
    /// How many changes of its list the last row had taken as it was refused.
    pub taken: usize,
}

impl Player {
    /// Two empty states, and no changes.
    pub fn new(alloc: Global) -> Player {
        Player {
            state: State::new(alloc),
            other: State::new(alloc),
            changes: Vec::new(alloc),
            taken: 0,
        }
    }

    // Begins an empty state, whose first piece gets the number after that.
    fn begin(&mut self, alloc: Global, number: u64) {
        self.state = State::new_at(alloc, number);
    }

    fn swap(&mut self) {
        mem::swap(&mut self.state, &mut self.other);
    }

    fn copy(&mut self, alloc: Global) -> Result<(), Error> {
        self.other = self.state.try_clone(alloc)?;
        Ok(())
    }
}

// Takes one change, and tells `+` where it counts and the front is one more, `-` where neither is so, and `!` where no number
// is left.
fn absorb_one(state: &mut State, change: &Change) -> Result<u8, Error> {
    let front = state.front();
    let taken = state.absorb(change.try_clone()?);
    match (taken, state.front().saturating_sub(front)) {
        (Ok(true), 1) => Ok(b'+'),
        (Ok(false), 0) => Ok(b'-'),
        (Err(StateFault::Exhausted), 0) => Ok(b'!'),
        (Err(StateFault::NoMemory), _) => Err(Error::from(StateFault::NoMemory)),
        _ => Ok(b'?'),
    }
}

fn absorb(
    state: &mut State,
    changes: &[Change],
    words: &str,
    out: &mut Vec<u8>,
) -> Result<(), Error> {
    // (so that no sign is missing of a change that was taken)
    out.reserve(words.len())?;
    for word in words.split(" ") {
        match changes.get(number_of(word) as usize) {
            Some(change) => out.push(absorb_one(state, change)?)?,
            None => out.push(b'?')?,
        }
    }
    Ok(())
}

// The changes with these numbers.
fn list_of(alloc: Global, changes: &[Change], words: &str) -> Result<Vec<Change>, Error> {
    let mut list = Vec::new(alloc);
    for word in words.split(" ") {
        if let Some(change) = changes.get(number_of(word) as usize) {
            list.push(change.try_clone()?)?;
        }
    }
    Ok(list)
}

fn lists_of(alloc: Global, changes: &[Change], words: &str) -> Result<Vec<Vec<Change>>, Error> {
    let mut lists = Vec::new(alloc);
    for part in words.split(" | ") {
        lists.push(list_of(alloc, changes, part)?)?;
    }
    Ok(lists)
}

fn tell_taken(taken: Result<(), TakeFault>, out: &mut Vec<u8>) -> Result<(), Error> {
    match taken {
        Ok(()) => Ok(()),
        Err(fault) if fault.cause == StateFault::Exhausted => Ok(write!(out, "{fault}")?),
        Err(fault) => Err(Error::from(fault)),
    }
}

// How many changes were taken before a refusal.
fn count_of(taken: Result<(), TakeFault>) -> usize {
    match taken {
        Ok(()) => 0,
        Err(fault) => fault.taken,
    }
}

fn take(alloc: Global, player: &mut Player, words: &str, out: &mut Vec<u8>) -> Result<(), Error> {
    let list = list_of(alloc, &player.changes, words)?;
    let taken = player.state.take(&list);
    player.taken = count_of(taken);
    tell_taken(taken, out)
}

fn merge(player: &mut Player, out: &mut Vec<u8>) -> Result<(), Error> {
    let taken = player.state.merge(&player.other);
    player.taken = count_of(taken);
    tell_taken(taken, out)
}

fn run_lists(alloc: Global, player: &mut Player, words: &str) -> Result<(), Error> {
    let lists = lists_of(alloc, &player.changes, words)?;
    player.state = run(alloc, &lists)?;
    Ok(())
}

fn learn(alloc: Global, player: &mut Player, line: &str) -> Result<(), Error> {
    let change = read_change(alloc, line.as_bytes())?;
    player.changes.push(change)?;
    Ok(())
}

// The rows that need memory.
fn try_act(
    alloc: Global,
    player: &mut Player,
    words: &str,
    out: &mut Vec<u8>,
) -> Result<bool, Error> {
    let (word, rest) = words.split_once(" ").unwrap_or((words, ""));
    let done = match word {
        "C" => learn(alloc, player, words),
        "absorb" => absorb(&mut player.state, &player.changes, rest, out),
        "take" => take(alloc, player, rest, out),
        "run" => run_lists(alloc, player, rest),
        "copy" => player.copy(alloc),
        "merge" => merge(player, out),
        _ => return Ok(false),
    };
    done.map(|_| true)
}

/// Does what a row says, and tells whether it is such a row:
///
///     C ..                 a change of the case
///     new NUMBER           an empty state, whose first piece gets the number after that
///     absorb NUMBER ..     takes changes one by one, and tells a sign of each
///     take NUMBER ..       takes changes as a list, and tells what refuses it
///     run NUMBER .. | ..   a state that takes lists
///     swap                 the state and the other one change places
///     copy                 the other one becomes a copy of the state
///     merge                the state takes all of the other one
pub fn act(
    alloc: Global,
    player: &mut Player,
    words: &str,
    out: &mut Vec<u8>,
) -> Result<bool, Error> {
    player.taken = 0;
    let (word, rest) = words.split_once(" ").unwrap_or((words, ""));
    match word {
        "new" => player.begin(alloc, number_of(rest)),
        "swap" => player.swap(),
        _ => return try_act(alloc, player, words, out),
    }
    Ok(true)
}
