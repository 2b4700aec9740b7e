//! A file that is read once, from its beginning to its end.
ghost use Rattle.std.specs.Prelude.{◌≡◌, ◌++◌, List, ℕ, IfOk};
ghost use Rattle.block_file.specs.Device.{HasCause};

use crate::DeviceError;
use std::alloc::Global;

/// What is read once, from its beginning on.
pub trait ByteSource {
    /// The bytes that were read so far.
    ghost got: { Self → List ℕ };

    /// How often the disk has failed.
    ghost faults: { Self → ℕ };

    /// Reads on. No bytes are the end.
    fn read_on(&mut self, alloc: Global) -> Result<Vec<u8>, DeviceError>
        ensures more { IfOk result (λ bytes. got self.new ≡ got self.old ++ bytes.items) }
        ensures cause { HasCause (faults self.old) (faults self.new) result };
}
