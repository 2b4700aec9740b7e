//! Reading the changes and the lives of a file, block after block.
ghost use Rattle.std.specs.Prelude.{◌≡◌, ◌<◌, ◌≤◌, ◌^◌, ◌++◌, [], ◌∷◌, List, ℕ, length, max, IfSome, IfOk, OnOk, IsNone, IsErrOf};
ghost use Rattle.std.specs.Prelude.{Ok};
ghost use Rattle.block_file.specs.Found.{IsReading};
ghost use Rattle.change_lines.specs.ChangeLine as spec;
ghost use Rattle.chat_change.specs.declared.change.Change.{Change as Piece};
ghost use Rattle.history_file.specs.Reading.{IsReadingPast, HasReadPast, HasDamage, IsNoEntry};
ghost use Rattle.history_file.specs.Changes.{AreLines, Past, Entry, IsLawfulEntry, entry_text, changes_in, life_in, with_changes, with_life, nothing};

use crate::FileFault;
use crate::cutting::first_line;
use crate::history_file::fault_of;
use crate::life::life_number;
use block_file::{ByteSource, Reader, is_torn_end};
use change_lines::{ChangeLineFault, laws, read_change_in};
use chat_change::{Buffer, Change, Extent};
use std::alloc::Global;

// The buffer of the last of these changes, or else the one that is known.
fn latest_buffer<'a>(changes: &'a [Change], known: Option<&'a Buffer>) -> Option<&'a Buffer> {
    let Some(change) = changes.last() else {
        return known;
    };
    match change.key().extent() {
        Extent::Account(_) => None,
        Extent::Buffer(buffer) => Some(buffer),
    }
}

// The change that a line spells. One of the known buffer shares its memory.
fn change_of(alloc: Global, known: Option<&Buffer>, line: &[u8]) -> Result<Change, FileFault>
    ensures read { IfOk result (λ change. spec.read_change line.now ≡ Ok change) }
    ensures refused { IsErrOf result FileFault.NoChanges → (change : Piece)
        → spec.read_change line.now ≡ Ok change → ⊥ }
    ensures disk { IsErrOf result FileFault.Failed → ⊥ }
    ensures full { IsErrOf result FileFault.Full → ⊥ }
    ensures damaged { IsErrOf result FileFault.Damaged → ⊥ }
{
    match read_change_in(alloc, known, line) {
        Ok(change) => Ok(change),
        Err(ChangeLineFault::NoMemory) => Err(FileFault::Memory),
        Err(_) => Err(FileFault::NoChanges),
    }
}

// Reads the changes whose lines these bytes are, behind those that were read before.
fn read_lines(
    alloc: Global,
    known: Option<&Buffer>,
    payload: &[u8],
    changes: &mut Vec<Change>,
) -> Result<(), FileFault>
    ensures read { OnOk result ((more : List Piece) × AreLines payload.now more
        × (changes.new.items ≡ changes.old.items ++ more)) }
    ensures refused { IsErrOf result FileFault.NoChanges → (more : List Piece)
        → AreLines payload.now more → ⊥ }
    ensures disk { IsErrOf result FileFault.Failed → ⊥ }
    ensures full { IsErrOf result FileFault.Full → ⊥ }
    ensures damaged { IsErrOf result FileFault.Damaged → ⊥ }
{
    let mut rest = payload;
    while 0 < rest.len() {
        let Some((line, after)) = first_line(rest) else {
            return Err(FileFault::NoChanges);
        };
        let change = change_of(alloc, latest_buffer(changes, known), line)?;
        changes.push(change)?;
        rest = after;
    }
    Ok(())
}

/// A file that is read for its past.
#[derive(Drop)]
pub struct PastReader<S: ByteSource> {
    /// Its blocks.
    pub blocks: Reader<S>,
    /// The greatest number of a life so far.
    pub life: u64,
    /// The buffer of the change that was read last. The next one is mostly of the same, and shares its memory.
    pub latest: Option<Buffer>,
}

// Reads an entry. The answer is the number of its life, or 0.
fn read_entry(
    alloc: Global,
    known: Option<&Buffer>,
    payload: &[u8],
    changes: &mut Vec<Change>,
) -> Result<u64, FileFault>
    ensures read { IfOk result (λ n. (e : Entry) × IsLawfulEntry e × (payload.now ≡ entry_text e)
        × (changes.new.items ≡ changes.old.items ++ changes_in e) × (n ≡ life_in e)) }
    ensures refused { IsErrOf result FileFault.NoChanges → IsNoEntry payload.now }
    ensures disk { IsErrOf result FileFault.Failed → ⊥ }
    ensures full { IsErrOf result FileFault.Full → ⊥ }
    ensures damaged { IsErrOf result FileFault.Damaged → ⊥ }
{
    if let Some(n) = life_number(payload) {
        return Ok(n);
    }
    read_lines(alloc, known, payload, changes)?;
    Ok(0)
}

fn greater(a: u64, b: u64) -> u64
    ensures { result ≡ max a b }
{
    if a < b { b } else { a }
}

impl<S: ByteSource> PastReader<S> {
    /// A reader of a source of which nothing was read.
    pub fn new(alloc: Global, source: S) -> Self
        requires { S.got source ≡ [] }
        ensures { IsReadingPast S.got result nothing }
    {
        PastReader {
            blocks: Reader::new(alloc, source),
            life: 0,
            latest: None,
        }
    }

    // Keeps the buffer of the last of these changes, unless it has too many owners.
    fn keep_buffer(&mut self, changes: &[Change])
        ensures blocks { self.new.blocks ≡ self.old.blocks }
        ensures life { self.new.life ≡ self.old.life }
    {
        let Some(buffer) = latest_buffer(changes, None) else {
            return;
        };
        if let Ok(buffer) = buffer.try_clone() {
            self.latest = Some(buffer);
        }
    }

    /// The changes of the next block, of which there are none in one that says a life.
    pub fn next(&mut self, alloc: Global) -> Result<Option<Vec<Change>>, FileFault>
        requires { (past : Past) × IsReadingPast S.got self.old past }
        ensures next { IfOk result (λ next. IfSome next (λ more. (past : Past)
            → IsReadingPast S.got self.old past
            → (n : ℕ) × IsReadingPast S.got self.new (with_life (with_changes past more.items) n))) }
        // It has gone on by a block.
        ensures on { IfOk result (λ next. IfSome next (λ _.
            self.old.blocks.end < self.new.blocks.end)) }
        // All has been read.
        ensures last { IfOk result (λ next. IsNone next → (past : Past)
            → IsReadingPast S.got self.old past
            → HasReadPast (S.got self.new.blocks.source) past self.new.blocks.end
            × (self.new.life ≡ past.life)) }
        ensures still { IfOk result (λ next. IsNone next → (past : Past)
            → IsReadingPast S.got self.old past → IsReadingPast S.got self.new past) }
        // A whole block has other bytes than changes or a life.
        ensures refused { IsErrOf result FileFault.NoChanges → (payload : List ℕ)
            × IsNoEntry payload
            × ((payloads : List (List ℕ)) → IsReading S.got self.old.blocks payloads
            → IsReading S.got self.new.blocks (payloads ++ payload ∷ [])) }
        // All has been read, and what stands behind the last whole block is no end of an append.
        ensures damaged { IsErrOf result FileFault.Damaged
            → HasDamage (S.got self.new.blocks.source) self.old.blocks.end }
        ensures failed { IsErrOf result FileFault.Failed
            → S.faults self.old.blocks.source < S.faults self.new.blocks.source }
        ensures later { S.faults self.old.blocks.source ≤ S.faults self.new.blocks.source }
        // The file is longer than one may be. The reader stays where it was.
        ensures full { IsErrOf result FileFault.Full
            → 2 ^ 60 ≤ length (S.got self.new.blocks.source) }
        ensures full_still { IsErrOf result FileFault.Full → (past : Past)
            → IsReadingPast S.got self.old past → IsReadingPast S.got self.new past }
    {
        let payload = match self.blocks.next(alloc) {
            Ok(Some(payload)) => payload,
            Ok(None) => {
                // Behind the last whole block, nothing but the end of an append that was cut short may stand.
                if !is_torn_end(self.blocks.ahead()) {
                    return Err(FileFault::Damaged);
                }
                return Ok(None);
            }
            Err(error) => return Err(fault_of(error)),
        };
        let mut changes = Vec::new(alloc);
        let life = read_entry(alloc, self.latest.as_ref(), &payload, &mut changes)?;
        self.keep_buffer(&changes);
        self.life = greater(self.life, life);
        Ok(Some(changes))
    }
}
