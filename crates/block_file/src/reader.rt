//! Reading the blocks of a file, one after another. No more is kept than one call of the source gives and one block.
ghost use Rattle.std.specs.Prelude.{◌≡◌, ◌<◌, ◌≤◌, ◌^◌, ◌++◌, [], ◌∷◌, List, ℕ, length, drop, IfOk, OnOk, IfSome, IsNone, IsErrOf};
ghost use Rattle.block_file.specs.Found.{HasRead, IsReading};

use crate::head::{HEAD, first_block};
use crate::journal::LONGEST_FILE;
use crate::{ByteSource, DeviceError};
use std::alloc::{AllocError, Global};

/// A file that is read block by block.
#[derive(Drop)]
pub struct Reader<S: ByteSource> {
    /// Where it is read from.
    pub source: S,
    /// The last that was read.
    pub ahead: Vec<u8>,
    /// How much of that was handed on.
    pub from: usize,
    /// How long the blocks are together that were handed on.
    pub end: usize,
}

// Lets go what was handed on, and puts what was read behind the rest.
fn read_behind(
    alloc: Global,
    ahead: &mut Vec<u8>,
    from: usize,
    more: &[u8],
) -> Result<(), AllocError>
    requires { from ≤ length ahead.old.items }
    ensures { OnOk result (ahead.new.items ≡ drop from ahead.old.items ++ more.now) }
{
    if from > 0 {
        *ahead = ahead[from..].to_vec(alloc)?;
    }
    ahead.extend_from_slice(more)
}

impl<S: ByteSource> Reader<S> {
    /// A reader of a source of which nothing was read.
    pub fn new(alloc: Global, source: S) -> Self
        requires { S.got source ≡ [] }
        ensures { IsReading S.got result [] }
    {
        Reader {
            source,
            ahead: Vec::new(alloc),
            from: 0,
            end: 0,
        }
    }

    /// What was read and not handed on. Once there is no next block, it is what stands behind the last one.
    pub fn ahead(&self) -> &[u8]
        requires { self.now.from ≤ length self.now.ahead.items }
        ensures { result.now ≡ drop self.now.from self.now.ahead.items }
    {
        &self.ahead[self.from..]
    }

    /// The payload of the next block, if one is there.
    pub fn next(&mut self, alloc: Global) -> Result<Option<Vec<u8>>, DeviceError>
        requires { (payloads : List (List ℕ)) × IsReading S.got self.old payloads }
        ensures next { IfOk result (λ next. IfSome next (λ p. (payloads : List (List ℕ))
            → IsReading S.got self.old payloads
            → IsReading S.got self.new (payloads ++ p.items ∷ []))) }
        // All has been read.
        ensures last { IfOk result (λ next. IsNone next → (payloads : List (List ℕ))
            → IsReading S.got self.old payloads
            → HasRead (S.got self.new.source) payloads self.new.end) }
        ensures still { IfOk result (λ next. IsNone next → (payloads : List (List ℕ))
            → IsReading S.got self.old payloads → IsReading S.got self.new payloads) }
        ensures failed { IsErrOf result DeviceError.Failed
            → S.faults self.old.source < S.faults self.new.source }
        ensures later { S.faults self.old.source ≤ S.faults self.new.source }
        // The file is longer than one may be, and no block is handed on behind that length. The reader stays where it was.
        ensures full { IsErrOf result DeviceError.Full → 2 ^ 60 ≤ length (S.got self.new.source) }
        ensures full_still { IsErrOf result DeviceError.Full → (payloads : List (List ℕ))
            → IsReading S.got self.old payloads → IsReading S.got self.new payloads }
        ensures not_full { IfOk result (λ next. IfSome next (λ _. self.old.end < 2 ^ 60)) }
    {
        for _ in 0..u64::MAX {
            if let Some((payload, _)) = first_block(&self.ahead[self.from..]) {
                let text = payload.to_vec(alloc)?;
                if self.end >= LONGEST_FILE {
                    return Err(DeviceError::Full);
                }
                self.from += HEAD + text.len();
                self.end += HEAD + text.len();
                return Ok(Some(text));
            }
            let more = self.source.read_on(alloc)?;
            if more.is_empty() {
                return Ok(None);
            }
            let from = self.from;
            self.from = 0;
            read_behind(alloc, &mut self.ahead, from, &more)?;
        }
        Err(DeviceError::Full)
    }
}
