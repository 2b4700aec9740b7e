//! Writing the pieces of a state into a new file.
ghost use Rattle.std.specs.Prelude.{◌≡◌, ◌<◌, ◌≤◌, ℕ, List, true, length, IfOk, OnOk, IsErrOf};
ghost use Rattle.block_file.specs.Device.{LeavesOnly};
ghost use Rattle.chat_change.specs.declared.change.Change.{Change as Piece};
ghost use Rattle.chat_change.specs.Words.{is_name};
ghost use Rattle.chat_history.specs.StateValue.{state_after};
ghost use Rattle.history_file.specs.Changes.{Past, HasPast, IsKept, IsCopied};
ghost use Rattle.keeper.specs.Found.{capped};
ghost use Rattle.keeper.specs.Keeper.{ArePieces, only};

use chat_state::{State, delta_since};
use history_file::{Device, FileFault, HistoryFile, MOST_CHANGES};
use std::alloc::Global;

/// Writes the pieces of the state into a new file beside the one that is there, which stays as it is. The answer is how many
/// they are.
pub(crate) fn copy_pieces<D: Device>(
    alloc: Global,
    file: &mut HistoryFile<D>,
    state: &State,
    node: &[u8],
    life: u64,
) -> Result<u64, FileFault>
    requires node { is_name node.now ≡ true }
    ensures copied { IfOk result (λ count. (start : ℕ) (list : List Piece)
        → state.now ≡ state_after start list
        → (pieces : List Piece) × IsCopied D.side file.new (only pieces life)
        × ArePieces list pieces × (count ≡ capped (length pieces))) }
    ensures some { OnOk result ((pieces : List Piece)
        × IsCopied D.side file.new (only pieces life)) }
    ensures kept { (past : Past) → IsKept D.seen D.may_leave file.old past
        → IsKept D.seen D.may_leave file.new past }
    ensures any_moment { (past : Past) → IsKept D.seen D.may_leave file.old past
        → LeavesOnly D.moment D.left_since file.old.journal.device file.new.journal.device (λ c.
        HasPast c past) }
    ensures failed { IsErrOf result FileFault.Failed
        → D.faults file.old.journal.device < D.faults file.new.journal.device }
    ensures later { D.faults file.old.journal.device ≤ D.faults file.new.journal.device }
    ensures changes { IsErrOf result FileFault.NoChanges → ⊥ }
    ensures damaged { IsErrOf result FileFault.Damaged → ⊥ }
{
    file.begin_copy()?;
    file.copy_life(alloc, node, life)?;
    let mut from = 0;
    let mut count = 0u64;
    for _ in 0..u64::MAX {
        let Ok(delta) = delta_since(alloc, state, from) else {
            return Err(FileFault::Memory);
        };
        if delta.is_empty() {
            return Ok(count);
        }
        let changes = delta.changes();
        if changes.len() > MOST_CHANGES {
            return Err(FileFault::Full);
        }
        file.copy(alloc, changes)?;
        count = count.saturating_add(changes.len() as u64);
        from = delta.to();
    }
    Err(FileFault::Full)
}
