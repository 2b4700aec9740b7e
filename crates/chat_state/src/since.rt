//! The delta of a state.
ghost use Rattle.std.specs.Prelude.{◌≡◌, ℕ, List, IfOk, map, take, max, length, nat_lt};
ghost use Rattle.std.specs.Prelude.{if◌then◌else◌};
ghost use Rattle.std.specs.List.Sorted.{IsNonDecreasingBy};
ghost use Rattle.chat_change.specs.declared.change.Change as value;
ghost use Rattle.chat_history.specs.StateValue.{state_after};
ghost use Rattle.chat_state.specs.Piece.{entry_of};
ghost use Rattle.chat_history.specs.Numbering.{delta, delta_from, delta_limit};
ghost use Rattle.chat_state.specs.Turn.{number_at, change_at, greatest_number};

use crate::state::State;
use crate::store::Piece;
use byte_text::NoMemory;
use chat_change::Change;
use chat_history::{DELTA_LIMIT, Delta};
use std::alloc::{AllocError, Global};

fn changes_of(alloc: Global, turn: &[Piece<'_>]) -> Result<Vec<Change>, AllocError>
    ensures { IfOk result (λ changes. changes.items ≡ map change_at turn.now) }
{
    let mut changes = Vec::with_capacity(alloc, turn.len())?;
    for piece in turn {
        let change = piece.change.to_change()?;
        changes.push(change)?;
    }
    Ok(changes)
}

fn first_pieces<'a, 'p>(turn: &'a [Piece<'p>]) -> &'a [Piece<'p>]
    ensures { result.now ≡ take delta_limit turn.now }
{
    if DELTA_LIMIT < turn.len() {
        &turn[..DELTA_LIMIT]
    } else {
        turn
    }
}

// The greatest number of pieces by rising number, or `from` of none.
fn last_number(turn: &[Piece<'_>], from: u64) -> u64
    requires { IsNonDecreasingBy number_at turn.now }
    ensures { result ≡ greatest_number turn.now from }
{
    if turn.is_empty() {
        return from;
    }
    turn[turn.len() - 1].number()
}

// How far whoever takes the first pieces has come.
fn delta_end(turn: &[Piece<'_>], sent: &[Piece<'_>], from: u64, front: u64) -> u64
    requires { IsNonDecreasingBy number_at sent.now }
    ensures { result ≡ (if nat_lt delta_limit (length turn.now)
        then greatest_number sent.now from else max from front) }
{
    if DELTA_LIMIT < turn.len() {
        last_number(sent, from)
    } else {
        from.max(front)
    }
}

// The delta of the pieces that are newer.
fn delta_of(alloc: Global, turn: &[Piece<'_>], from: u64, front: u64) -> Result<Delta, NoMemory>
    requires { IsNonDecreasingBy number_at turn.now }
    ensures { IfOk result (λ d. d ≡ delta_from from front (map entry_of turn.now)) }
{
    let sent = first_pieces(turn);
    let to = delta_end(turn, sent, from, front);
    match changes_of(alloc, sent) {
        Ok(changes) => Ok(Delta::new(from, to, changes)),
        Err(_) => Err(NoMemory),
    }
}

/// The delta of a state since a number: the pieces with greater numbers by rising number, at most [`DELTA_LIMIT`] of
/// them, and the number up to which whoever takes them includes the state's pieces. That is the last number given where
/// some were left out, else the greater of `from` and the front.
pub fn delta_since(alloc: Global, state: &State, from: u64) -> Result<Delta, NoMemory>
    ensures { IfOk result (λ d. (start : ℕ) (list : List value.Change) →
        state.now ≡ state_after start list → d ≡ delta start list from) }
{
    // one more than a delta has tells that some are left out
    match state.newer(alloc, from, DELTA_LIMIT + 1) {
        Ok(turn) => delta_of(alloc, &turn, from, state.front()),
        Err(fault) => Err(fault),
    }
}
