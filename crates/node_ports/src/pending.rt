//! Bytes that wait.
ghost use Rattle.std.specs.Prelude.{◌≡◌, ◌≤◌, ◌==◌, ◌++◌, [], drop, length, take, IfOk, OnErr};
ghost use Rattle.network_log.specs.Telling.{MayBeTold};

use crate::connection::{Connection, Halt};
use crate::straight::{append, send_first};
use byte_text::NoMemory;
use std::alloc::Global;
use std::marker::Model;

/// So much room is kept where nothing waits: enough for a line or two, and not for a page.
const KEPT: usize = 1024;

/// Why no bytes were taken in.
#[derive(Clone, Copy, Debug, PartialEq, Eq)]
pub enum ReceiveFault {
    /// None is there for now.
    Blocked,
    /// The connection is closed.
    Closed,
    /// There was no memory.
    NoMemory,
}

/// Bytes that wait, oldest first. Contracts see them as their list.
#[derive(Drop)]
pub struct Pending {
    bytes: Vec<u8>,
    // where those begin that still wait
    first: usize,
}

impl Model for Pending {
    ghost use Rattle.std.specs.Prelude.{◌≤◌, List, ℕ, drop, length};

    ghost Value = { List ℕ };

    ghost view = { λ p. drop p.first p.bytes.items };

    ghost invariant = { λ p. p.first ≤ length p.bytes.items };
}

impl Pending {
    /// Nothing waits. It takes no memory.
    pub fn new(alloc: Global) -> Pending
        ensures { result ≡ [] }
    {
        Pending {
            bytes: Vec::new(alloc),
            first: 0,
        }
    }

    /// The bytes that wait.
    pub fn as_bytes(&self) -> &[u8]
        ensures { result.now ≡ self.now }
    {
        &self.bytes[self.first..]
    }

    /// How many bytes wait.
    pub fn len(&self) -> usize
        ensures { result ≡ length self.now }
    {
        self.bytes.len() - self.first
    }

    /// Whether no byte waits.
    pub fn is_empty(&self) -> bool
        ensures { result ≡ (length self.now == 0) }
    {
        self.len() == 0
    }

    /// Further bytes wait, behind the others. For want of memory nothing changes.
    pub fn push(&mut self, bytes: &[u8]) -> Result<(), NoMemory>
        ensures pushed { IfOk result (λ _. self.new ≡ self.old ++ bytes.now) }
        ensures err { OnErr result (self.new ≡ self.old) }
    {
        // (so no more bytes are moved, all in all, than were taken)
        if self.bytes.capacity() - self.bytes.len() < bytes.len() && self.first >= self.len() {
            self.move_to_front();
        }
        Ok(self.bytes.extend_from_slice(bytes)?)
    }

    /// Takes in bytes that come over a connection, behind those that wait and by way of the chunk, and answers how many. There is
    /// room for them by then, so none that comes is lost: for want of memory nothing is taken.
    pub fn receive<C: Connection>(
        &mut self,
        connection: &mut C,
        chunk: &mut [u8],
    ) -> Result<usize, ReceiveFault>
        ensures count { IfOk result (λ n. n ≤ length chunk.new) }
        ensures waits { IfOk result (λ n. self.new ≡ self.old ++ take n chunk.new) }
        ensures received { IfOk result (λ n.
            C.received connection.new ≡ C.received connection.old ++ take n chunk.new) }
        ensures evidence { IfOk result (λ _. ∥ C.facts.came (C.origin connection.old)
            (C.serial connection.old) (C.received connection.new) ∥₁) }
        ensures err { OnErr result (self.new ≡ self.old) }
        ensures none { OnErr result (C.received connection.new ≡ C.received connection.old) }
        ensures sent { C.sent connection.new ≡ C.sent connection.old }
        ensures origin { C.origin connection.new ≡ C.origin connection.old }
        ensures serial { C.serial connection.new ≡ C.serial connection.old }
        ensures joined { C.joined connection.new ≡ C.joined connection.old }
    {
        if self.first > 0 {
            self.move_to_front();
        }
        if self.bytes.reserve(chunk.len()).is_err() {
            return Err(ReceiveFault::NoMemory);
        }
        match connection.receive(chunk) {
            Ok(count) => {
                append(&mut self.bytes, &chunk[..count]);
                Ok(count)
            }
            Err(Halt::Blocked) => Err(ReceiveFault::Blocked),
            Err(Halt::Closed) => Err(ReceiveFault::Closed),
        }
    }

    /// Sends the first of these bytes from where they lie, and the rest waits. For want of memory for all of them nothing is sent.
    pub fn send_straight<C: Connection>(
        &mut self,
        connection: &mut C,
        bytes: &[u8],
    ) -> Result<(), NoMemory>
        requires none { self.old ≡ [] }
        requires may { ∥ MayBeTold C.facts (C.origin connection.old) (C.serial connection.old)
            (C.received connection.old) (C.sent connection.old ++ bytes.now) ∥₁ }
        ensures all { IfOk result (λ _.
            C.sent connection.new ++ self.new ≡ C.sent connection.old ++ bytes.now) }
        ensures err { OnErr result (C.sent connection.new ≡ C.sent connection.old) }
        ensures unchanged { OnErr result (self.new ≡ self.old) }
        ensures received { C.received connection.new ≡ C.received connection.old }
        ensures origin { C.origin connection.new ≡ C.origin connection.old }
        ensures serial { C.serial connection.new ≡ C.serial connection.old }
        ensures joined { C.joined connection.new ≡ C.joined connection.old }
    {
        self.first = 0;
        self.bytes.clear();
        self.bytes.reserve(bytes.len())?;
        send_first(connection, bytes, &mut self.bytes);
        Ok(())
    }

    // What waits is moved to the beginning of the room.
    fn move_to_front(&mut self)
        ensures { self.new ≡ self.old }
    {
        let count = self.len();
        self.bytes.copy_within(self.first.., 0);
        self.bytes.truncate(count);
        self.first = 0;
    }

    /// The first bytes wait no longer.
    pub fn take(&mut self, count: usize)
        ensures { self.new ≡ drop count self.old }
    {
        self.first += count.min(self.len());
        if self.is_empty() {
            self.give_back();
        }
    }

    // The room is used from its beginning again, and much of it is given back.
    fn give_back(&mut self)
        requires { self.old ≡ [] }
        ensures { self.new ≡ [] }
    {
        self.first = 0;
        if self.bytes.capacity() > KEPT {
            self.bytes = Vec::new(*self.bytes.allocator());
        } else {
            self.bytes.clear();
        }
    }
}
