//! The file with its calls.
ghost use Rattle.std.specs.Prelude.{◌≡◌, List, ℕ, true, length, IsSome, if◌then◌else◌};
ghost use Rattle.real_file.specs.Model.{MayLeave, LeftSince, replay};
ghost use Rattle.real_file.specs.Past.{counts_now, only_now};

use crate::calls;
use crate::record::CallRecord;
use crate::source::OpenFile;
use block_file::{Device, DeviceError};
use std::fs::File;

/// A file of blocks on the disk. After a write or a sync that failed each call answers `Failed` and does nothing: the file has
/// to be opened anew.
#[derive(Drop)]
pub struct RealFile {
    pub(crate) parts: OpenFile,
    pub(crate) side: Option<File>,
    pub(crate) side_len: usize,
    pub(crate) is_usable: bool,
    // the folder was synced since the file got its name
    pub(crate) is_named: bool,
    pub(crate) log: CallRecord,
    pub(crate) ghost whole: { (replay log.events).is_whole ≡ true },
    pub(crate) ghost usable: { is_usable ≡ true → (replay log.events).is_usable ≡ true },
    pub(crate) ghost named: { is_named ≡ true → (c : List ℕ) → (replay log.events).other c → ⊥ },
    pub(crate) ghost side_is_whole: { IsSome side → (replay log.events).side_is_whole ≡ true },
    pub(crate) ghost side_end: { IsSome side → side_len ≡ length (replay log.events).side },
}

const LONGEST: usize = 1 << 62;

fn answer(is_ok: bool) -> Result<(), DeviceError>
    ensures { result ≡ (if is_ok then Ok tt else Err DeviceError.Failed) }
{
    if is_ok {
        Ok(())
    } else {
        Err(DeviceError::Failed)
    }
}

impl Device for RealFile {
    ghost seen = { λ f. (replay f.log.events).seen };

    ghost may_leave = { λ f. MayLeave (replay f.log.events) };

    ghost moment = { λ f. length f.log.events };

    ghost left_since = { λ f. LeftSince f.log.events };

    ghost faults = { λ f. (replay f.log.events).faults };

    ghost side = { λ f. (replay f.log.events).side };

    ghost side_may_leave = { λ f. (replay f.log.events).side_left };

    ghost counts_now = { λ f. counts_now f.log.events };

    ghost only_now = { λ f. only_now f.log.events };

    fn write_at(&mut self, at: usize, bytes: &[u8]) -> Result<(), DeviceError> {
        if !self.is_usable {
            calls::refuse(&mut self.log);
            return Err(DeviceError::Failed);
        }
        self.is_usable = calls::write(&self.parts.file, &mut self.log, at, bytes);
        answer(self.is_usable)
    }

    fn cut(&mut self, len: usize) -> Result<(), DeviceError> {
        if !self.is_usable {
            calls::refuse(&mut self.log);
            return Err(DeviceError::Failed);
        }
        self.is_usable = calls::cut(&self.parts.file, &mut self.log, len);
        answer(self.is_usable)
    }

    fn sync(&mut self) -> Result<(), DeviceError> {
        if !self.is_usable {
            calls::refuse(&mut self.log);
            return Err(DeviceError::Failed);
        }
        self.is_usable = calls::sync(&self.parts.file, &mut self.log);
        if self.is_usable && !self.is_named {
            self.is_usable = calls::sync_folder(&self.parts.folder, &mut self.log);
            self.is_named = self.is_usable;
        }
        answer(self.is_usable)
    }

    fn begin_side(&mut self) -> Result<(), DeviceError> {
        self.side = calls::begin_side(&self.parts.rt, &mut self.log, &self.parts.new_path);
        self.side_len = 0;
        answer(self.side.is_some())
    }

    fn add_to_side(&mut self, bytes: &[u8]) -> Result<(), DeviceError> {
        let Some(side) = &self.side else {
            calls::refuse(&mut self.log);
            return Err(DeviceError::Failed);
        };
        if self.side_len < LONGEST && calls::write_side(side, &mut self.log, self.side_len, bytes) {
            self.side_len += bytes.len();
            return Ok(());
        }
        calls::refuse(&mut self.log);
        self.side = None;
        Err(DeviceError::Failed)
    }

    fn sync_side(&mut self) -> Result<(), DeviceError> {
        let Some(side) = &self.side else {
            calls::refuse(&mut self.log);
            return Err(DeviceError::Failed);
        };
        if calls::sync_side(side, &mut self.log) {
            return Ok(());
        }
        self.side = None;
        Err(DeviceError::Failed)
    }

    fn rename_side(&mut self) -> Result<(), DeviceError> {
        match self.side.take() {
            Some(side) if self.is_usable => {
                self.is_named = false;
                self.is_usable = calls::rename(
                    &self.parts.rt,
                    &mut self.log,
                    &self.parts.new_path,
                    &self.parts.path,
                );
                if self.is_usable {
                    self.parts.file = side;
                }
                answer(self.is_usable)
            }
            _ => {
                calls::refuse(&mut self.log);
                Err(DeviceError::Failed)
            }
        }
    }
}
