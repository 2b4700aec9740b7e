//! Leaving out what brings nothing new.
ghost use Rattle.std.specs.Prelude.{◌≡◌, ◌≤◌, ◌++◌, ℕ, List, IfOk, OnOk, length, Contains};
ghost use Rattle.block_file.specs.Device.{LeavesOnly};
ghost use Rattle.chat_change.specs.declared.change.Change.{Change as Piece};
ghost use Rattle.chat_history.specs.StateValue.{state_after};
ghost use Rattle.history_file.specs.Changes.{Past, IsKept};
ghost use Rattle.keeper.specs.Fresh.{IsAdded};
ghost use Rattle.keeper.specs.Keeper.{Says, Covers, IsCovering, HasNoOthers, IsWithoutOthers};

use chat_change::{Change, ChangeRef, Extent};
use chat_state::State;
use history_file::{Device, FileFault, HistoryFile};
use std::alloc::{AllocError, Global};

// Adds a change, if it would change the state.
fn add_if_new(state: &State, change: &Change, found: &mut Vec<Change>) -> Result<(), AllocError>
    ensures { OnOk result (IsAdded state.now change.now found.old.items found.new.items) }
{
    // without it the borrow checker can't plan the call
    let _extent: Option<Extent<'_>> = None;
    if !state.would_count(&ChangeRef::of(change)) {
        return Ok(());
    }
    let copy = change.try_clone()?;
    found.push(copy)?;
    Ok(())
}

/// The changes that would change the state.
pub(crate) fn fresh(
    alloc: Global,
    state: &State,
    changes: &[Change],
) -> Result<Vec<Change>, AllocError>
    ensures says { IfOk result (λ fresh. (start : ℕ) (list : List Piece)
        → state.now ≡ state_after start list
        → Says (list ++ fresh.items) changes.now) }
    ensures few { IfOk result (λ fresh. length fresh.items ≤ length changes.now) }
    ensures among { IfOk result (λ fresh. (c : Piece) → Contains fresh.items c
        → Contains changes.now c) }
{
    let mut found = Vec::new(alloc);
    let mut rest = changes;
    while let Some((change, after)) = rest.split_first() {
        add_if_new(state, change, &mut found)?;
        rest = after;
    }
    Ok(found)
}

/// Writes to the file what is new of some changes to a state that has taken what the file says.
pub(crate) fn append_fresh<D: Device>(
    alloc: Global,
    file: &mut HistoryFile<D>,
    state: &State,
    changes: &[Change],
) -> Result<(), FileFault>
    requires kept { (past : Past) × IsKept D.seen D.may_leave file.old past }
    requires few { length changes.now ≤ 10000 }
    ensures acknowledged { OnOk result ((start : ℕ) (list : List Piece) (n : ℕ)
        → state.now ≡ state_after start list
        → IsCovering D.seen D.may_leave file.old list n
        → IsCovering D.seen D.may_leave file.new (list ++ changes.now) n) }
    ensures kept { OnOk result ((past : Past) × IsKept D.seen D.may_leave file.new past) }
    ensures any_moment { (said : List Piece) (n : ℕ) → IsCovering D.seen D.may_leave file.old said n
        → LeavesOnly D.moment D.left_since file.old.journal.device file.new.journal.device (Covers
        said n) }
    // It adds nothing but these changes.
    ensures given { OnOk result ((given : List Piece)
        → IsWithoutOthers D.seen D.may_leave file.old given
        → IsWithoutOthers D.seen D.may_leave file.new (given ++ changes.now)) }
    ensures any_moment_given { (given : List Piece)
        → IsWithoutOthers D.seen D.may_leave file.old given
        → LeavesOnly D.moment D.left_since file.old.journal.device file.new.journal.device
        (HasNoOthers (given ++ changes.now)) }
{
    let found = fresh(alloc, state, changes)?;
    let new: &[Change] = &found;
    if new.is_empty() {
        return Ok(());
    }
    file.append(alloc, new)
}
