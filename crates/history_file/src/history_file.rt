//! Changes in a file.
ghost use Rattle.std.specs.Prelude.{◌≡◌, ◌≢◌, true, ◌<◌, ◌≤◌, ◌^◌, length, IfOk, IfErr, OnOk, IsErrOf};
ghost use Rattle.block_file.specs.Device.{Only, LeavesOnly};
ghost use Rattle.history_file.specs.Changes.{Past, HasPast, IsKept, IsCopied, IsEither, with_changes, with_life, nothing};
ghost use Rattle.history_file.specs.Reading.{HasReadPast};
ghost use Rattle.chat_change.specs.Words.{is_name};

use crate::FileFault;
use crate::change_text::text_of;
use crate::life::life_text;
use block_file::{Device, DeviceError, Journal, repair};
use chat_change::Change;
use std::alloc::Global;

/// The most changes of one block.
pub const MOST_CHANGES: usize = 10_000;

/// A file of changes.
#[derive(Drop)]
pub struct HistoryFile<D: Device> {
    /// Its blocks.
    pub journal: Journal<D>,
}

pub(crate) fn fault_of(error: DeviceError) -> FileFault
    ensures failed { result ≡ FileFault.Failed → error ≡ DeviceError.Failed }
    ensures full { result ≡ FileFault.Full → error ≡ DeviceError.Full }
    ensures changes { result ≢ FileFault.NoChanges }
    ensures damaged { result ≢ FileFault.Damaged }
{
    match error {
        DeviceError::Memory => FileFault::Memory,
        DeviceError::Failed => FileFault::Failed,
        DeviceError::Full => FileFault::Full,
    }
}

impl<D: Device> HistoryFile<D> {
    /// Adds changes. At `Ok` they are acknowledged: from then on each crash leaves a file that has them.
    /// At `Err`, open the file again.
    pub fn append(&mut self, alloc: Global, changes: &[Change]) -> Result<(), FileFault>
        requires kept { (past : Past) × IsKept D.seen D.may_leave self.old past }
        requires few { length changes.now ≤ 10000 }

        ensures acknowledged { OnOk result ((past : Past) → IsKept D.seen D.may_leave self.old past
            → IsKept D.seen D.may_leave self.new (with_changes past changes.now)) }

        // A crash at any moment of the call leaves the changes from before it, with all of the new ones or without.
        ensures any_moment { (past : Past) → IsKept D.seen D.may_leave self.old past
            → LeavesOnly D.moment D.left_since self.old.journal.device self.new.journal.device
            (IsEither past (with_changes past changes.now)) }

        // It doesn't give up by itself.
        ensures failed { IsErrOf result FileFault.Failed
            → D.faults self.old.journal.device < D.faults self.new.journal.device }
        ensures later { D.faults self.old.journal.device ≤ D.faults self.new.journal.device }
        ensures full { IsErrOf result FileFault.Full → 2 ^ 60 ≤ self.old.journal.end }
        ensures changes { IsErrOf result FileFault.NoChanges → ⊥ }
        ensures damaged { IsErrOf result FileFault.Damaged → ⊥ }
    {
        let text = text_of(alloc, changes)?;
        match self.journal.append(alloc, &text) {
            Ok(()) => Ok(()),
            Err(error) => Err(fault_of(error)),
        }
    }

    /// Begins a new file, beside the one that is there.
    pub fn begin_copy(&mut self) -> Result<(), FileFault>
        ensures begun { OnOk result (IsCopied D.side self.new nothing) }
        // Also where it fails, the file is as it was.
        ensures kept { (past : Past) → IsKept D.seen D.may_leave self.old past
            → IsKept D.seen D.may_leave self.new past }
        ensures any_moment { (past : Past) → IsKept D.seen D.may_leave self.old past
            → LeavesOnly D.moment D.left_since self.old.journal.device self.new.journal.device
            (λ c. HasPast c past) }
        ensures failed { IsErrOf result FileFault.Failed
            → D.faults self.old.journal.device < D.faults self.new.journal.device }
        ensures later { D.faults self.old.journal.device ≤ D.faults self.new.journal.device }
        ensures full { IsErrOf result FileFault.Full → ⊥ }
        ensures changes { IsErrOf result FileFault.NoChanges → ⊥ }
        ensures damaged { IsErrOf result FileFault.Damaged → ⊥ }
    {
        match self.journal.begin_copy() {
            Ok(()) => Ok(()),
            Err(error) => Err(fault_of(error)),
        }
    }

    /// Writes changes into the new file.
    pub fn copy(&mut self, alloc: Global, changes: &[Change]) -> Result<(), FileFault>
        requires few { length changes.now ≤ 10000 }
        ensures copied { OnOk result ((past : Past) → IsCopied D.side self.old past
            → IsCopied D.side self.new (with_changes past changes.now)) }
        // Also where it fails, the file is as it was.
        ensures kept { (past : Past) → IsKept D.seen D.may_leave self.old past
            → IsKept D.seen D.may_leave self.new past }
        ensures any_moment { (past : Past) → IsKept D.seen D.may_leave self.old past
            → LeavesOnly D.moment D.left_since self.old.journal.device self.new.journal.device
            (λ c. HasPast c past) }
        ensures failed { IsErrOf result FileFault.Failed
            → D.faults self.old.journal.device < D.faults self.new.journal.device }
        ensures later { D.faults self.old.journal.device ≤ D.faults self.new.journal.device }
        ensures full { IsErrOf result FileFault.Full → 2 ^ 60 ≤ self.old.journal.copied }
        ensures changes { IsErrOf result FileFault.NoChanges → ⊥ }
        ensures damaged { IsErrOf result FileFault.Damaged → ⊥ }
    {
        let text = text_of(alloc, changes)?;
        match self.journal.copy(alloc, &text) {
            Ok(()) => Ok(()),
            Err(error) => Err(fault_of(error)),
        }
    }

    /// Puts the new file in the place of the one that is there. At `Err`, open the file again.
    pub fn end_copy(&mut self) -> Result<(), FileFault>
        requires { (past : Past) × IsCopied D.side self.old past }
        ensures replaced { OnOk result ((past : Past) → IsCopied D.side self.old past
            → IsKept D.seen D.may_leave self.new past) }

        // A crash at any moment of the call leaves all changes of the one file or all of the other.
        ensures any_moment { (before after : Past) → IsKept D.seen D.may_leave self.old before
            → IsCopied D.side self.old after
            → LeavesOnly D.moment D.left_since self.old.journal.device self.new.journal.device
            (IsEither before after) }
        ensures failed { IsErrOf result FileFault.Failed
            → D.faults self.old.journal.device < D.faults self.new.journal.device }
        ensures later { D.faults self.old.journal.device ≤ D.faults self.new.journal.device }
        ensures full { IsErrOf result FileFault.Full → ⊥ }
        ensures changes { IsErrOf result FileFault.NoChanges → ⊥ }
        ensures damaged { IsErrOf result FileFault.Damaged → ⊥ }
    {
        match self.journal.end_copy() {
            Ok(()) => Ok(()),
            Err(error) => Err(fault_of(error)),
        }
    }

    /// Adds a life. At `Ok` it is acknowledged. At `Err`, open the file again.
    pub fn append_life(&mut self, alloc: Global, node: &[u8], number: u64) -> Result<(), FileFault>
        requires kept { (past : Past) × IsKept D.seen D.may_leave self.old past }
        requires node { is_name node.now ≡ true }

        ensures acknowledged { OnOk result ((past : Past) → IsKept D.seen D.may_leave self.old past
            → IsKept D.seen D.may_leave self.new (with_life past number)) }

        // A crash at any moment of the call leaves the past from before it, with the life or without.
        ensures any_moment { (past : Past) → IsKept D.seen D.may_leave self.old past
            → LeavesOnly D.moment D.left_since self.old.journal.device self.new.journal.device
            (IsEither past (with_life past number)) }
        ensures failed { IsErrOf result FileFault.Failed
            → D.faults self.old.journal.device < D.faults self.new.journal.device }
        ensures later { D.faults self.old.journal.device ≤ D.faults self.new.journal.device }
        ensures full { IsErrOf result FileFault.Full → 2 ^ 60 ≤ self.old.journal.end }
        ensures changes { IsErrOf result FileFault.NoChanges → ⊥ }
        ensures damaged { IsErrOf result FileFault.Damaged → ⊥ }
    {
        let line = life_text(alloc, node, number)?;
        match self.journal.append(alloc, &line) {
            Ok(()) => Ok(()),
            Err(error) => Err(fault_of(error)),
        }
    }

    /// Writes a life into the new file.
    pub fn copy_life(&mut self, alloc: Global, node: &[u8], number: u64) -> Result<(), FileFault>
        requires node { is_name node.now ≡ true }
        ensures copied { OnOk result ((past : Past) → IsCopied D.side self.old past
            → IsCopied D.side self.new (with_life past number)) }
        // Also where it fails, the file is as it was.
        ensures kept { (past : Past) → IsKept D.seen D.may_leave self.old past
            → IsKept D.seen D.may_leave self.new past }
        ensures any_moment { (past : Past) → IsKept D.seen D.may_leave self.old past
            → LeavesOnly D.moment D.left_since self.old.journal.device self.new.journal.device
            (λ c. HasPast c past) }
        ensures failed { IsErrOf result FileFault.Failed
            → D.faults self.old.journal.device < D.faults self.new.journal.device }
        ensures later { D.faults self.old.journal.device ≤ D.faults self.new.journal.device }
        ensures full { IsErrOf result FileFault.Full → 2 ^ 60 ≤ self.old.journal.copied }
        ensures changes { IsErrOf result FileFault.NoChanges → ⊥ }
        ensures damaged { IsErrOf result FileFault.Damaged → ⊥ }
    {
        let line = life_text(alloc, node, number)?;
        match self.journal.copy(alloc, &line) {
            Ok(()) => Ok(()),
            Err(error) => Err(fault_of(error)),
        }
    }
}

/// Goes on with a file that a crash may have left, once it was read: its blocks are so long together. It may crash too. An
/// `Err` hands the file back.
pub fn resume<D: Device>(device: D, end: usize) -> Result<HistoryFile<D>, (FileFault, D)>
    requires read { (past : Past) × HasReadPast (D.seen device) past end }
    // After a restart, what is read is what is on the disk.
    requires durable { Only (D.seen device) (D.may_leave device) }

    ensures kept { IfOk result (λ file. (past : Past) → HasReadPast (D.seen device) past end
        → IsKept D.seen D.may_leave file past) }

    // A crash at any moment leaves the same past.
    ensures any_moment { IfOk result (λ file. (past : Past) → HasPast (D.seen device) past
        → LeavesOnly D.moment D.left_since device file.journal.device (λ c. HasPast c past)) }
    ensures any_moment_err { IfErr result (λ e. (past : Past) → HasPast (D.seen device) past
        → LeavesOnly D.moment D.left_since device e.1 (λ c. HasPast c past)) }

    ensures failed { IfErr result (λ e. e.0 ≡ FileFault.Failed → D.faults device < D.faults e.1) }
    ensures changes { IfErr result (λ e. e.0 ≡ FileFault.NoChanges → ⊥) }
    ensures full { IfErr result (λ e. e.0 ≡ FileFault.Full → ⊥) }
    ensures damaged { IfErr result (λ e. e.0 ≡ FileFault.Damaged → ⊥) }
{
    let mut device = device;
    match repair(&mut device, end) {
        Ok(()) => {
            let journal = Journal {
                device,
                end,
                copied: 0,
            };
            Ok(HistoryFile { journal })
        }
        Err(error) => Err((fault_of(error), device)),
    }
}
