//! How much a state has.
use byte_text::NoMemory;
use chat_change::{Buffer, Change};
use chat_state::{State, delta_since};
use std::alloc::Global;
use std::collections::BTreeSet;

/// How many pieces a state has, and of how many conversations they are.
#[derive(Clone, Copy)]
pub(crate) struct Survey {
    pub(crate) pieces: u64,
    pub(crate) conversations: usize,
}

// The conversation of which a change speaks, if it speaks of one alone.
fn conversation_of(change: &Change) -> Option<&Buffer> {
    match change {
        Change::Post(record) => Some(record.buffer()),
        Change::Redact { buffer, .. }
        | Change::Mark { buffer, .. }
        | Change::Floor { buffer, .. } => Some(buffer),
        Change::AccountFloor { .. } => None,
    }
}

// Adds the conversations of some changes.
fn add_conversations(found: &mut BTreeSet<Buffer>, changes: &[Change]) -> Result<(), NoMemory> {
    for change in changes {
        if let Some(buffer) = conversation_of(change) {
            if !found.contains(buffer) {
                let buffer = buffer.try_clone().map_err(|_| NoMemory)?;
                let _ = found.insert(buffer).map_err(|_| NoMemory)?;
            }
        }
    }
    Ok(())
}

impl Survey {
    /// Of a state.
    pub(crate) fn of(alloc: Global, state: &State) -> Result<Survey, NoMemory> {
        let mut found = BTreeSet::new(alloc);
        let mut pieces = 0u64;
        let mut from = 0;
        for _ in 0..u64::MAX {
            let delta = delta_since(alloc, state, from)?;
            if delta.is_empty() {
                break;
            }
            add_conversations(&mut found, delta.changes())?;
            pieces = pieces.saturating_add(delta.changes().len() as u64);
            from = delta.to();
        }
        Ok(Survey {
            pieces,
            conversations: found.len(),
        })
    }
}
