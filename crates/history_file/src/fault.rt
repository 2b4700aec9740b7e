//! Why a call on the file failed.
ghost use Rattle.std.specs.Prelude.{◌≡◌};
ghost use Rattle.history_file.specs.declared.fault.FileFault.TheVariants.{Memory};

use block_file::DeviceError;
use std::alloc::{AllocError, AllocFailed};

/// Why a call on the file failed.
#[derive(Clone, Copy, Debug, PartialEq, Eq)]
pub enum FileFault {
    /// There was no memory.
    Memory,
    /// The disk failed.
    Failed,
    /// The file is as long as it may be.
    Full,
    /// A block of the file has other bytes than lines of changes.
    NoChanges,
    /// What stands behind the last whole block isn't the end of an append that was cut short.
    Damaged,
}

impl From<AllocError> for FileFault {
    ghost from_gives = { λ _ e. e ≡ Memory };

    fn from(_: AllocError) -> Self {
        FileFault::Memory
    }
}

impl<T: Drop> From<AllocFailed<T>> for FileFault {
    ghost from_gives = { λ _ e. e ≡ Memory };

    fn from(_: AllocFailed<T>) -> Self {
        FileFault::Memory
    }
}
