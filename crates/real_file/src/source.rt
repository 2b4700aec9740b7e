//! A file that is being read.
ghost use Rattle.std.specs.Prelude.{◌≡◌, [], ◌∷◌, List, ℕ, true, false, length, IfOk, IfSome, IsNone, OnErr};
ghost use Rattle.block_file.specs.Device.{Only};
ghost use Rattle.real_file.specs.Calls.{read};
ghost use Rattle.real_file.specs.Model.{replay};

use crate::record::CallRecord;
use crate::{RealFile, calls};
use block_file::{ByteSource, DeviceError};
use std::alloc::{AllocError, Global};
use std::fs::File;

/// How many bytes a call reads at most.
const CHUNK: usize = 1 << 18;

const LONGEST: usize = 1 << 62;

/// The open file, its folder, its lock, and the names of it and of the new file that may take its place.
#[derive(Drop)]
pub(crate) struct OpenFile {
    pub(crate) rt: HostRuntime,
    pub(crate) path: String,
    pub(crate) new_path: String,
    pub(crate) file: File,
    pub(crate) folder: File,
    pub(crate) lock: File,
}

/// A file that is being read. It was synced when it was opened, and its folder too.
#[derive(Drop)]
pub struct RealSource {
    pub(crate) parts: OpenFile,
    pub(crate) at: usize,
    pub(crate) log: CallRecord,
    pub(crate) ghost at_is: { at ≡ length (replay log.events).seen },
    pub(crate) ghost settled: { (replay log.events).is_settled ≡ true },
    pub(crate) ghost usable: { (replay log.events).is_usable ≡ true },
    pub(crate) ghost named: { (c : List ℕ) → (replay log.events).other c → ⊥ },
}

impl ByteSource for RealSource {
    ghost got = { λ s. (replay s.log.events).seen };

    ghost faults = { λ s. (replay s.log.events).faults };

    fn read_on(&mut self, alloc: Global) -> Result<Vec<u8>, DeviceError> {
        if self.at >= LONGEST {
            calls::refuse(&mut self.log);
            return Err(DeviceError::Failed);
        }
        match chunk(alloc, &self.parts.file, &mut self.log, self.at)? {
            Some(bytes) => {
                self.at += bytes.len();
                Ok(bytes)
            }
            None => Err(DeviceError::Failed),
        }
    }
}

fn zeros(alloc: Global, count: usize) -> Result<Vec<u8>, AllocError> {
    vec![in alloc; 0; count]
}

// Some bytes from that place on.
fn chunk(
    alloc: Global,
    file: &File,
    log: &mut CallRecord,
    at: usize,
) -> Result<Option<Vec<u8>>, AllocError>
    ensures some { IfOk result (λ got. IfSome got (λ bytes. log.new.events ≡ read at true
        bytes.items ∷ log.old.events)) }
    ensures none { IfOk result (λ got. IsNone got
        → log.new.events ≡ read at false [] ∷ log.old.events) }
    ensures err { OnErr result (log.new.events ≡ log.old.events) }
{
    let mut bytes = zeros(alloc, CHUNK)?;
    match calls::read(file, log, at, &mut bytes) {
        Some(count) => {
            bytes.truncate(count);
            Ok(Some(bytes))
        }
        None => Ok(None),
    }
}

impl RealSource {
    ghost use Rattle.real_file.specs.Members.{file_seen, file_may_leave, source_got};

    /// The file to go on with, once it was read to its end. It is refused where it has other bytes than were read.
    pub fn into_file(self) -> Option<RealFile>
        ensures seen { IfSome result (λ f. file_seen f ≡ source_got self) }
        ensures durable { IfSome result (λ f. Only (file_seen f) (file_may_leave f)) }
    {
        let RealSource { parts, at, log } = self;
        let mut log = log;
        if calls::has_len(&parts.file, &mut log, at) {
            Some(RealFile {
                parts,
                side: None,
                side_len: 0,
                is_usable: true,
                is_named: true,
                log,
            })
        } else {
            None
        }
    }
}
