//! Reading a file into a state, block after block.
ghost use Rattle.std.specs.Prelude.{◌≡◌, ◌<◌, ◌≤◌, ◌^◌, [], length, IfOk, IfErr};
ghost use Rattle.history_file.specs.Reading.{HasDamage};
ghost use Rattle.keeper.specs.Found.{IsFound, HasNoEntryAt};

use crate::{Count, Found, Unread};
use chat_state::State;
use history_file::{ByteSource, FileFault, PastReader};
use std::alloc::Global;

/// Reads a file to its end, and takes all its changes into an empty state whose first piece gets the number after `front`. No
/// more is kept meanwhile than the state and a block. An `Err` hands the source back.
pub fn read<S: ByteSource + Drop>(
    alloc: Global,
    source: S,
    front: u64,
) -> Result<(S, Found), (Unread, S)>
    requires { S.got source ≡ [] }
    ensures found { IfOk result (λ r. IsFound (S.got r.0) r.1) }
    ensures front { IfOk result (λ r. r.1.front ≡ front) }
    // A file that isn't read to its end has a fault, just where that is said.
    ensures failed { IfErr result (λ e. e.0.fault ≡ FileFault.Failed → 0 < S.faults e.1) }
    ensures full { IfErr result (λ e. e.0.fault ≡ FileFault.Full → 2 ^ 60 ≤ length (S.got e.1)) }
    ensures refused { IfErr result (λ e. e.0.fault ≡ FileFault.NoChanges
        → HasNoEntryAt (S.got e.1) e.0.at) }
    ensures damaged { IfErr result (λ e. e.0.fault ≡ FileFault.Damaged
        → HasDamage (S.got e.1) e.0.at) }
{
    let mut reader = PastReader::new(alloc, source);
    let mut state = State::new_at(alloc, front);
    let mut count = Count::new();
    for _ in 0..u64::MAX {
        let at = reader.blocks.end;
        let next = match reader.next(alloc) {
            Ok(next) => next,
            Err(fault) => return Err((Unread { fault, at }, source_of(reader))),
        };
        match next {
            Some(changes) => match state.take(&changes) {
                Ok(()) => count = count.with(&changes),
                Err(_) => return Err((unread_for_memory(at), source_of(reader))),
            },
            None => {
                let left = reader.blocks.ahead.len().saturating_sub(reader.blocks.from);
                let (end, life) = (reader.blocks.end, reader.life);
                let found = Found {
                    state,
                    front,
                    end,
                    life,
                    left,
                    count,
                };
                return Ok((source_of(reader), found));
            }
        }
    }
    let at = reader.blocks.end;
    Err((unread_for_memory(at), source_of(reader)))
}

// The source of a reader.
fn source_of<S: ByteSource + Drop>(reader: PastReader<S>) -> S
    ensures { result ≡ reader.blocks.source }
{
    let PastReader {
        blocks,
        life: _,
        latest: _latest,
    } = reader;
    blocks.source
}

// There was no memory for the block that begins there.
fn unread_for_memory(at: usize) -> Unread
    ensures { result.fault ≡ FileFault.Memory }
{
    Unread {
        fault: FileFault::Memory,
        at,
    }
}
