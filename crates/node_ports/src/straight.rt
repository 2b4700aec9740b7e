//! Bytes that are sent from where they lie.
ghost use Rattle.std.specs.Prelude.{◌≡◌, ◌≤◌, ◌+◌, ◌++◌, [], length, take, vec_len, vec_capacity};
ghost use Rattle.network_log.specs.Telling.{MayBeTold};

use crate::connection::Connection;

/// Appends bytes for which there is room.
pub(crate) fn append(list: &mut Vec<u8>, bytes: &[u8])
    requires { vec_len list.old + length bytes.now ≤ vec_capacity list.old }
    ensures { list.new.items ≡ list.old.items ++ bytes.now }
{
    let _ = list.extend_from_slice(bytes);
}

// Sends the first of these bytes, and answers how many, or 0 where none goes.
fn send_some<C: Connection>(connection: &mut C, bytes: &[u8]) -> usize
    requires { ∥ MayBeTold C.facts (C.origin connection.old) (C.serial connection.old)
        (C.received connection.old) (C.sent connection.old ++ bytes.now) ∥₁ }
    ensures count { result ≤ length bytes.now }
    ensures sent { C.sent connection.new ≡ C.sent connection.old ++ take result bytes.now }
    ensures received { C.received connection.new ≡ C.received connection.old }
    ensures origin { C.origin connection.new ≡ C.origin connection.old }
    ensures serial { C.serial connection.new ≡ C.serial connection.old }
    ensures joined { C.joined connection.new ≡ C.joined connection.old }
{
    let Ok(count) = connection.send(bytes) else {
        return 0;
    };
    count
}

/// Sends the first of these bytes, and keeps the rest, for which there is room.
pub(crate) fn send_first<C: Connection>(connection: &mut C, bytes: &[u8], rest: &mut Vec<u8>)
    requires none { rest.old.items ≡ [] }
    requires room { vec_len rest.old + length bytes.now ≤ vec_capacity rest.old }
    requires may { ∥ MayBeTold C.facts (C.origin connection.old) (C.serial connection.old)
        (C.received connection.old) (C.sent connection.old ++ bytes.now) ∥₁ }
    ensures all { C.sent connection.new ++ rest.new.items ≡ C.sent connection.old ++ bytes.now }
    ensures received { C.received connection.new ≡ C.received connection.old }
    ensures origin { C.origin connection.new ≡ C.origin connection.old }
    ensures serial { C.serial connection.new ≡ C.serial connection.old }
    ensures joined { C.joined connection.new ≡ C.joined connection.old }
{
    let count = send_some(connection, bytes);
    append(rest, &bytes[count..]);
}
