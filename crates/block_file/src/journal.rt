//! Blocks of any length. A block counts if its gate is open and it is whole. A closed gate stands behind the last block, on
//! the disk before anything is written behind it.
ghost use Rattle.std.specs.Prelude.{◌≡◌, ◌<◌, ◌≤◌, ◌^◌, ◌++◌, [], ◌∷◌, List, ℕ, length, IfOk, OnOk, IsErrOf};
ghost use Rattle.block_file.specs.Device.{LeavesOnly};
ghost use Rattle.block_file.specs.Blocks.{body, block, closed_gate, StandsFor, IsSettled, IsCopying, IsBeforeOrAfter, IsEither, most};

use crate::head::{HEAD, head};
use crate::{Device, DeviceError};
use std::alloc::{AllocError, Global};

pub(crate) const LONGEST_FILE: usize = 1 << 60;

/// A file that is appended to.
#[derive(Drop)]
pub struct Journal<D: Device> {
    /// The file.
    pub device: D,
    /// Where the closed gate stands.
    pub end: usize,
    /// How long the blocks are in the new file.
    pub copied: usize,
}

// What is written behind a gate: the rest of the block, and the next gate, closed.
fn staged(alloc: Global, payload: &[u8]) -> Result<Vec<u8>, AllocError>
    requires { length payload.now ≤ most }
    ensures { IfOk result (λ bytes. bytes.items ≡ body payload.now ++ closed_gate ∷ []) }
{
    let mut bytes = Vec::new(alloc);
    bytes.extend_from_slice(&head(payload.len()))?;
    bytes.extend_from_slice(payload)?;
    bytes.push(b'-')?;
    Ok(bytes)
}

fn whole_block(alloc: Global, payload: &[u8]) -> Result<Vec<u8>, AllocError>
    requires { length payload.now ≤ most }
    ensures { IfOk result (λ bytes. bytes.items ≡ block payload.now) }
{
    let mut bytes = Vec::new(alloc);
    bytes.push(b'+')?;
    bytes.extend_from_slice(&head(payload.len()))?;
    bytes.extend_from_slice(payload)?;
    Ok(bytes)
}

impl<D: Device> Journal<D> {
    /// Adds a block. At `Ok` it is acknowledged: from then on each crash leaves a file that has it.
    /// At `Err`, open the file again.
    pub fn append(&mut self, alloc: Global, payload: &[u8]) -> Result<(), DeviceError>
        requires settled { (payloads : List (List ℕ))
            × IsSettled D.seen D.may_leave self.old payloads }
        requires size { length payload.now ≤ most }

        ensures acknowledged { OnOk result ((payloads : List (List ℕ))
            → IsSettled D.seen D.may_leave self.old payloads
            → IsSettled D.seen D.may_leave self.new (payloads ++ payload.now ∷ [])) }

        // A crash at any moment of the call leaves the payloads from before it, with the new one or without.
        ensures any_moment { (payloads : List (List ℕ))
            → IsSettled D.seen D.may_leave self.old payloads
            → LeavesOnly D.moment D.left_since self.old.device self.new.device (IsBeforeOrAfter
            payloads payload.now) }

        // It doesn't give up by itself.
        ensures failed { IsErrOf result DeviceError.Failed
            → D.faults self.old.device < D.faults self.new.device }
        ensures later { D.faults self.old.device ≤ D.faults self.new.device }
        ensures full { IsErrOf result DeviceError.Full → 2 ^ 60 ≤ self.old.end }
    {
        if self.end >= LONGEST_FILE {
            return Err(DeviceError::Full);
        }
        let gate = self.end;
        let behind = staged(alloc, payload)?;
        self.device.write_at(gate + 1, &behind)?;
        self.device.sync()?;
        self.device.write_at(gate, b"+")?;
        self.device.sync()?;
        self.end = gate + HEAD + payload.len();
        Ok(())
    }

    /// Begins a new file, beside the one that is there.
    pub fn begin_copy(&mut self) -> Result<(), DeviceError>
        ensures begun { OnOk result (IsCopying D.side self.new []) }
        // Also where it fails, the file is as it was.
        ensures settled { (payloads : List (List ℕ))
            → IsSettled D.seen D.may_leave self.old payloads
            → IsSettled D.seen D.may_leave self.new payloads }
        ensures any_moment { (payloads : List (List ℕ))
            → IsSettled D.seen D.may_leave self.old payloads
            → LeavesOnly D.moment D.left_since self.old.device self.new.device (λ c. StandsFor c
            payloads) }
        ensures failed { IsErrOf result DeviceError.Failed
            → D.faults self.old.device < D.faults self.new.device }
        ensures later { D.faults self.old.device ≤ D.faults self.new.device }
        ensures full { IsErrOf result DeviceError.Full → ⊥ }
    {
        self.copied = 0;
        self.device.begin_side()
    }

    /// Writes a block into the new file.
    pub fn copy(&mut self, alloc: Global, payload: &[u8]) -> Result<(), DeviceError>
        requires size { length payload.now ≤ most }
        ensures copied { OnOk result ((payloads : List (List ℕ))
            → IsCopying D.side self.old payloads
            → IsCopying D.side self.new (payloads ++ payload.now ∷ [])) }
        // Also where it fails, the file is as it was.
        ensures settled { (payloads : List (List ℕ))
            → IsSettled D.seen D.may_leave self.old payloads
            → IsSettled D.seen D.may_leave self.new payloads }
        ensures any_moment { (payloads : List (List ℕ))
            → IsSettled D.seen D.may_leave self.old payloads
            → LeavesOnly D.moment D.left_since self.old.device self.new.device (λ c. StandsFor c
            payloads) }
        ensures failed { IsErrOf result DeviceError.Failed
            → D.faults self.old.device < D.faults self.new.device }
        ensures later { D.faults self.old.device ≤ D.faults self.new.device }
        ensures full { IsErrOf result DeviceError.Full → 2 ^ 60 ≤ self.old.copied }
    {
        if self.copied >= LONGEST_FILE {
            return Err(DeviceError::Full);
        }
        let bytes = whole_block(alloc, payload)?;
        self.device.add_to_side(&bytes)?;
        self.copied = self.copied + HEAD + payload.len();
        Ok(())
    }

    /// Puts the new file in the place of the one that is there. At `Err`, open the file again.
    pub fn end_copy(&mut self) -> Result<(), DeviceError>
        requires { (payloads : List (List ℕ)) × IsCopying D.side self.old payloads }
        ensures replaced { OnOk result ((payloads : List (List ℕ))
            → IsCopying D.side self.old payloads
            → IsSettled D.seen D.may_leave self.new payloads) }

        // A crash at any moment of the call leaves all payloads of the one file or all of the other.
        ensures any_moment { (before after : List (List ℕ))
            → IsSettled D.seen D.may_leave self.old before
            → IsCopying D.side self.old after
            → LeavesOnly D.moment D.left_since self.old.device self.new.device (IsEither before
            after) }
        ensures failed { IsErrOf result DeviceError.Failed
            → D.faults self.old.device < D.faults self.new.device }
        ensures later { D.faults self.old.device ≤ D.faults self.new.device }
        ensures full { IsErrOf result DeviceError.Full → ⊥ }
    {
        self.device.add_to_side(b"-")?;
        self.device.sync_side()?;
        self.device.rename_side()?;
        self.device.sync()?;
        self.end = self.copied;
        Ok(())
    }
}
