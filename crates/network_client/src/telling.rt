//! What a client of a network is told, and what it is answered.
ghost use Rattle.std.specs.Prelude.{◌≡◌, ◌≤◌, ◌++◌, [], length, true, false};
ghost use Rattle.network_log.specs.Guest.{fallen};
ghost use Rattle.network_log.specs.Telling.{IsToldToClient};
ghost use Rattle.network_log.specs.declared.origin.Origin.TheVariants.{ClientCame};
ghost use Rattle.network_client.specs.Steps as spec;

use crate::client::Client;
use crate::fall::Fall;
use crate::ring::send_all;
use attach::{Attachment, Overrun, RingClient};
use byte_text::Text;
use client_session::Effect;
use node_ports::Connection;

/// So many bytes go out from where they lie, where nothing is owed, and don't pass through the ring.
const LONG: usize = 2048;

// Sends the first of these bytes from where they lie, and the others are owed. False where none goes, and nothing changes.
fn send_straight<C: Connection>(
    connection: &mut C,
    ring: &mut RingClient,
    is_writable: &mut bool,
    bytes: &[u8],
) -> bool
    requires origin { C.origin connection.old ≡ ClientCame }
    requires owed { ring.old.owed ≡ [] }
    requires fits { length bytes.now ≤ ring.old.bound }
    requires told { ∥ IsToldToClient C.facts (C.serial connection.old) (C.received connection.old)
        (C.sent connection.old ++ bytes.now) ∥₁ }
    ensures went { result ≡ true → C.sent connection.new ++ ring.new.owed
        ≡ C.sent connection.old ++ bytes.now }
    ensures sent { result ≡ false → C.sent connection.new ≡ C.sent connection.old }
    ensures same { result ≡ false → ring.new ≡ ring.old }
    ensures received { C.received connection.new ≡ C.received connection.old }
    ensures origin { C.origin connection.new ≡ C.origin connection.old }
    ensures serial { C.serial connection.new ≡ C.serial connection.old }
    ensures joined { C.joined connection.new ≡ C.joined connection.old }
{
    let Ok(count) = connection.send(bytes) else {
        *is_writable = false;
        return false;
    };
    *is_writable = count > 0;
    // (what is left of them fits)
    ring.offer(&bytes[count..]).is_ok()
}

// These bytes are owed behind the others. Where they don't fit, what is owed goes out first, as much as the connection takes. False where
// they don't fit even then, and nothing changes.
fn owe<C: Connection>(
    connection: &mut C,
    ring: &mut RingClient,
    is_writable: &mut bool,
    bytes: &[u8],
) -> bool
    requires origin { C.origin connection.old ≡ ClientCame }
    requires told { ∥ IsToldToClient C.facts (C.serial connection.old) (C.received connection.old)
        ((C.sent connection.old ++ ring.old.owed) ++ bytes.now) ∥₁ }
    ensures went { result ≡ true → C.sent connection.new ++ ring.new.owed
        ≡ (C.sent connection.old ++ ring.old.owed) ++ bytes.now }
    ensures stayed { result ≡ false → C.sent connection.new ++ ring.new.owed
        ≡ C.sent connection.old ++ ring.old.owed }
    ensures received { C.received connection.new ≡ C.received connection.old }
    ensures origin { C.origin connection.new ≡ C.origin connection.old }
    ensures serial { C.serial connection.new ≡ C.serial connection.old }
    ensures joined { C.joined connection.new ≡ C.joined connection.old }
{
    let Err(Overrun) = ring.offer(bytes) else {
        return true;
    };
    // (what tells of room may still be on its way)
    *is_writable = true;
    send_all(connection, ring, is_writable);
    ring.offer(bytes).is_ok()
}

// The same, but that long ones go out from where they lie where nothing is owed, by one write, and what the connection doesn't take of
// them is owed.
fn tell<C: Connection>(
    connection: &mut C,
    ring: &mut RingClient,
    is_writable: &mut bool,
    bytes: &[u8],
) -> bool
    requires origin { C.origin connection.old ≡ ClientCame }
    requires told { ∥ IsToldToClient C.facts (C.serial connection.old) (C.received connection.old)
        ((C.sent connection.old ++ ring.old.owed) ++ bytes.now) ∥₁ }
    ensures went { result ≡ true → C.sent connection.new ++ ring.new.owed
        ≡ (C.sent connection.old ++ ring.old.owed) ++ bytes.now }
    ensures stayed { result ≡ false → C.sent connection.new ++ ring.new.owed
        ≡ C.sent connection.old ++ ring.old.owed }
    ensures received { C.received connection.new ≡ C.received connection.old }
    ensures origin { C.origin connection.new ≡ C.origin connection.old }
    ensures serial { C.serial connection.new ≡ C.serial connection.old }
    ensures joined { C.joined connection.new ≡ C.joined connection.old }
{
    let is_free = *is_writable && ring.owed() == 0;
    if is_free && bytes.len() >= LONG && bytes.len() <= ring.bound() {
        if send_straight(connection, ring, is_writable, bytes) {
            return true;
        }
    }
    owe(connection, ring, is_writable, bytes)
}

impl<C: Connection> Client<C> {
    /// It is told this, all of it: where nothing is owed and it is long it goes out from where it lies, by one write, and what the
    /// connection doesn't take of it is owed. Where it can't be owed that, or is gone, it is gone, and is told nothing.
    pub fn tell(&mut self, share: &[u8]) -> bool
        requires { self.old.is_gone ≡ false → ∥ IsToldToClient C.facts self.old.serial
            self.old.received (self.old.told ++ share.now) ∥₁ }
        ensures told { result ≡ true
            → self.new ≡ record self.old { told = self.old.told ++ share.now } }
        ensures there { result ≡ true → self.old.is_gone ≡ false }
        ensures gone { result ≡ false → self.new ≡ fallen self.old }
    {
        if self.is_gone {
            self.fall(Fall::OverBound);
            return false;
        }
        if !self.tell_share(share) {
            self.fall(Fall::OverBound);
            return false;
        }
        true
    }

    // The same, of one that isn't gone. False where it can't be owed that, and nothing changes.
    fn tell_share(&mut self, share: &[u8]) -> bool
        requires { ∥ IsToldToClient C.facts self.old.serial
            self.old.received (self.old.told ++ share.now) ∥₁ }
        ensures told { result ≡ true
            → self.new ≡ record self.old { told = self.old.told ++ share.now } }
        ensures same { result ≡ false → self.new ≡ self.old }
    {
        tell(
            &mut self.connection,
            &mut self.ring,
            &mut self.is_writable,
            share,
        )
    }

    /// It knows that nick as its own from now on.
    pub fn rename(&mut self, nick: Text)
        ensures { self.new ≡ record self.old { nick = nick } }
    {
        self.nick = nick;
    }

    /// The nick that it knows as its own.
    pub fn nick(&self) -> &[u8]
        ensures { result.now ≡ self.now.nick }
    {
        self.nick.as_bytes()
    }

    /// The line for the server, or the marker, which is next, is done.
    pub fn effect_done(&mut self)
        ensures { self.new ≡ record self.old { todo = spec.after_act self.old.todo } }
    {
        match self.effects.get(self.done) {
            Some(Effect::Put(_) | Effect::Upstream(_)) => self.done += 1,
            Some(Effect::Send(_) | Effect::Ask(_) | Effect::Close) | None => {}
        }
    }
}
