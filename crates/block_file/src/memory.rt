//! A file in memory. Each call is done at once, so a crash leaves what is there. It keeps each past content.
ghost use Rattle.std.specs.Prelude.{◌≡◌, ◌⊎◌, [], ◌∷◌, ◌++◌, length, take, drop, OnOk, OnErr};
ghost use Rattle.std.proofs.Common.{inl};
ghost use Rattle.block_file.specs.Past.{HadBeen, only_bytes};

use crate::{ByteSource, Device, DeviceError};
use std::alloc::{AllocError, Global};

/// A file in memory.
#[derive(Drop)]
pub struct Memory {
    alloc: Global,
    bytes: Vec<u8>,
    past: Vec<Vec<u8>>,
    side: Vec<u8>,
}

impl Memory {
    ghost use Rattle.block_file.specs.Memory.{memory_bytes};

    /// A file with these bytes, all of them on the disk.
    pub fn new(alloc: Global, bytes: Vec<u8>) -> Self
        ensures { memory_bytes result ≡ bytes.items }
    {
        Memory {
            alloc,
            bytes,
            past: Vec::new(alloc),
            side: Vec::new(alloc),
        }
    }

    /// What it has.
    pub fn bytes(&self) -> &[u8]
        ensures { result.now ≡ memory_bytes self.now }
    {
        &self.bytes
    }
}

// Puts other bytes in the place of those that are there, which it keeps.
fn replace(
    alloc: Global,
    bytes: &mut Vec<u8>,
    past: &mut Vec<Vec<u8>>,
    next: Vec<u8>,
) -> Result<(), AllocError>
    ensures ok { OnOk result (bytes.new.items ≡ next.items) }
    ensures err { OnErr result (bytes.new.items ≡ bytes.old.items) }
    ensures past { OnOk result ((v : _) × (v.items ≡ bytes.old.items)
        × (past.new.items ≡ past.old.items ++ v ∷ [])) }
    ensures past_err { OnErr result (past.new.items ≡ past.old.items) }
{
    past.push(bytes.to_vec(alloc)?)?;
    *bytes = next;
    Ok(())
}

impl Device for Memory {
    ghost seen = { λ m. m.bytes.items };

    ghost may_leave = { λ m c. c ≡ m.bytes.items };

    ghost moment = { λ m. length m.past.items };

    ghost left_since = { λ m t c. (c ≡ m.bytes.items) ⊎ HadBeen (drop t m.past.items) c };

    ghost faults = { λ m. 0 };

    ghost side = { λ m. m.side.items };

    ghost side_may_leave = { λ m c. c ≡ m.side.items };

    ghost counts_now = { λ m t c le now. inl now };

    ghost only_now = { λ m c left. only_bytes m.past.items m.bytes.items c left };

    fn write_at(&mut self, at: usize, bytes: &[u8]) -> Result<(), DeviceError> {
        let mut next = self.bytes[..at].to_vec(self.alloc)?;
        next.extend_from_slice(bytes)?;
        if bytes.len() < self.bytes.len() - at {
            next.extend_from_slice(&self.bytes[at + bytes.len()..])?;
        }
        Ok(replace(self.alloc, &mut self.bytes, &mut self.past, next)?)
    }

    fn cut(&mut self, len: usize) -> Result<(), DeviceError> {
        let next = self.bytes[..len].to_vec(self.alloc)?;
        Ok(replace(self.alloc, &mut self.bytes, &mut self.past, next)?)
    }

    fn sync(&mut self) -> Result<(), DeviceError> {
        Ok(())
    }

    fn begin_side(&mut self) -> Result<(), DeviceError> {
        self.side = Vec::new(self.alloc);
        Ok(())
    }

    fn add_to_side(&mut self, bytes: &[u8]) -> Result<(), DeviceError> {
        Ok(self.side.extend_from_slice(bytes)?)
    }

    fn sync_side(&mut self) -> Result<(), DeviceError> {
        Ok(())
    }

    fn rename_side(&mut self) -> Result<(), DeviceError> {
        let next = self.side.to_vec(self.alloc)?;
        Ok(replace(self.alloc, &mut self.bytes, &mut self.past, next)?)
    }
}

/// Bytes in memory, which are read as a file is. Each call gives some of them.
#[derive(Drop)]
pub struct Bytes {
    bytes: Vec<u8>,
    at: usize,
    most: usize,
}

impl Bytes {
    ghost use Rattle.block_file.specs.Memory.{bytes_got};

    /// Nothing is read yet, and no call gives more than `most` of them.
    pub fn new(bytes: Vec<u8>, most: usize) -> Self
        ensures { bytes_got result ≡ [] }
    {
        Bytes { bytes, at: 0, most }
    }
}

impl ByteSource for Bytes {
    ghost got = { λ b. take b.at b.bytes.items };

    ghost faults = { λ _. 0 };

    fn read_on(&mut self, alloc: Global) -> Result<Vec<u8>, DeviceError> {
        if self.at >= self.bytes.len() {
            return Ok(Vec::new(alloc));
        }
        let left = self.bytes.len() - self.at;
        let count = if left < self.most { left } else { self.most };
        let given = self.bytes[self.at..self.at + count].to_vec(alloc)?;
        self.at += count;
        Ok(given)
    }
}
