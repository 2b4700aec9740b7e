//! How what a client is owed goes out.
ghost use Rattle.std.specs.Prelude.{◌≡◌, ◌≢◌, ◌≤◌, ◌==◌, ◌++◌, [], IfOk, OnErr, length, not, false};
ghost use Rattle.network_log.specs.Guest.{Offers, fallen, guest_step};
ghost use Rattle.network_log.specs.Telling.{IsToldToClient};
ghost use Rattle.network_log.specs.Truth.{AreWholeLines};
ghost use Rattle.network_log.specs.declared.origin.Origin.TheVariants.{ClientCame};

use crate::client::Client;
use crate::fall::Fall;
use attach::{Attachment, Overrun, RingClient};
use byte_text::find_byte;
use node_ports::{Connection, Halt};

/// So many bytes at most of what is owed go out by one write.
const CHUNK: usize = 32_768;

// How long the first line is, with its end, or what there is of it.
fn first_line(bytes: &[u8]) -> usize
    ensures within { result ≤ length bytes.now }
    ensures whole { ∥ AreWholeLines bytes.now result ∥₁ }
{
    match find_byte(bytes, b'\n') {
        Some(at) => at + 1,
        None => bytes.len(),
    }
}

// How many of the bytes that wait may be offered now: all where there is room to half of the bound, or else the first line. Where
// nothing is owed that is offered, however long it is.
fn offerable(bytes: &[u8], owed: usize, bound: usize) -> usize
    ensures within { result ≤ length bytes.now }
    ensures whole { result ≢ 0 → ∥ AreWholeLines bytes.now result ∥₁ }
{
    let room = (bound / 2).saturating_sub(owed);
    if bytes.len() <= room {
        return bytes.len();
    }
    let count = first_line(bytes);
    if owed != 0 && count > room {
        return 0;
    }
    count
}

// Sends the first of what is owed, by one write, where there may be room for it at the connection.
pub(crate) fn send_owed<C: Connection>(
    connection: &mut C,
    ring: &mut RingClient,
    is_writable: &mut bool,
) -> Result<(), Halt>
    requires origin { C.origin connection.old ≡ ClientCame }
    requires told { ∥ IsToldToClient C.facts (C.serial connection.old) (C.received connection.old)
        (C.sent connection.old ++ ring.old.owed) ∥₁ }
    ensures told { C.sent connection.new ++ ring.new.owed ≡ C.sent connection.old ++ ring.old.owed }
    ensures received { C.received connection.new ≡ C.received connection.old }
    ensures origin { C.origin connection.new ≡ C.origin connection.old }
    ensures serial { C.serial connection.new ≡ C.serial connection.old }
    ensures joined { C.joined connection.new ≡ C.joined connection.old }
{
    let owed = ring.first_owed();
    if owed.is_empty() {
        return Ok(());
    }
    if !*is_writable {
        return Err(Halt::Blocked);
    }
    match connection.send(&owed[..owed.len().min(CHUNK)]) {
        Ok(count) => {
            *is_writable = count > 0;
            ring.settle(count);
            Ok(())
        }
        Err(halt) => {
            *is_writable = false;
            Err(halt)
        }
    }
}

/// Sends what is owed, by as many writes as the connection takes.
pub(crate) fn send_all<C: Connection>(
    connection: &mut C,
    ring: &mut RingClient,
    is_writable: &mut bool,
)
    requires origin { C.origin connection.old ≡ ClientCame }
    requires told { ∥ IsToldToClient C.facts (C.serial connection.old) (C.received connection.old)
        (C.sent connection.old ++ ring.old.owed) ∥₁ }
    ensures told { C.sent connection.new ++ ring.new.owed ≡ C.sent connection.old ++ ring.old.owed }
    ensures received { C.received connection.new ≡ C.received connection.old }
    ensures origin { C.origin connection.new ≡ C.origin connection.old }
    ensures serial { C.serial connection.new ≡ C.serial connection.old }
    ensures joined { C.joined connection.new ≡ C.joined connection.old }
{
    for _ in 0..usize::MAX {
        if ring.owed() == 0 || send_owed(connection, ring, is_writable).is_err() {
            return;
        }
    }
}

impl<C: Connection> Client<C> {
    /// Whether something waits until there is room in the ring.
    pub fn waits(&self) -> bool
        ensures { result ≡ not (length self.now.waiting == 0) }
    {
        !self.waiting.is_empty()
    }

    /// Moves the first of what waits to the ring, as there is room to half of the bound: all of it, or the first line. Where
    /// nothing is owed a line is offered however long it is. It is gone where that exceeds the bound. Answers how many bytes.
    pub fn offer(&mut self) -> Result<usize, Overrun>
        ensures offered { IfOk result (λ n. self.new ≡ guest_step [] (Offers n) self.old) }
        ensures whole { IfOk result (λ n. n ≢ 0 → ∥ AreWholeLines self.old.waiting n ∥₁) }
        ensures there { IfOk result (λ n. n ≢ 0 → self.old.is_gone ≡ false) }
        ensures fell { OnErr result (self.new ≡ fallen self.old) }
    {
        if self.is_gone {
            return Ok(0);
        }
        let count = offerable(self.waiting.as_bytes(), self.ring.owed(), self.ring.bound());
        if self.ring.offer(&self.waiting.as_bytes()[..count]).is_err() {
            self.fall(Fall::OverBound);
            return Err(Overrun);
        }
        self.waiting.take(count);
        Ok(count)
    }

    /// Whether something of it can be sent: something is owed, and its connection had room since it was blocked last.
    pub fn can_send(&self) -> bool {
        !self.is_gone && self.is_writable && self.ring.owed() > 0
    }

    /// Sends the first of what is in the ring, by one write. Where its connection was blocked, nothing is tried before there may be
    /// room again.
    pub fn pump(&mut self) -> Result<(), Halt>
        requires { ∥ IsToldToClient C.facts self.old.serial self.old.received self.old.told ∥₁ }
        ensures { self.new ≡ self.old }
    {
        send_owed(&mut self.connection, &mut self.ring, &mut self.is_writable)
    }
}
