//! A socket.
ghost use Rattle.std.specs.Prelude.{◌≤◌, length, IfOk};

use mio::net::TcpStream;
use node_events::Unreached;
use node_ports::Halt;
use std::io;
use std::io::{ErrorKind, Read, Write};

// So often is a read or a write made again that a signal interrupted, before the connection is given up.
const TRIES: usize = 1_000;

// What has become of a connection that was dialed.
#[derive(Clone, Copy, PartialEq, Eq)]
pub(crate) enum DialOutcome {
    Connected,
    Failed(Unreached),
    Pending,
}

// What has become of it. An event may be an old one, of a connection that had the same token: then nothing is known yet.
pub(crate) fn outcome_of(stream: &TcpStream) -> DialOutcome {
    match stream.take_error() {
        Ok(None) => {}
        Ok(Some(error)) => return DialOutcome::Failed(Unreached::from(error)),
        Err(error) => return DialOutcome::Failed(Unreached::from(error)),
    }
    match stream.peer_addr() {
        Ok(_) => DialOutcome::Connected,
        Err(error) if error.kind() == ErrorKind::NotConnected => DialOutcome::Pending,
        Err(error) => DialOutcome::Failed(Unreached::from(error)),
    }
}

// Moves bytes that came to the start of the buffer. A read that a signal interrupted is made again, since no event would tell of
// the bytes once more.
pub(crate) fn receive_from(stream: &mut TcpStream, buffer: &mut [u8]) -> Result<usize, Halt>
    ensures { IfOk result (λ n. n ≤ length buffer.new) }
{
    for _ in 0..TRIES {
        match stream.read(buffer) {
            Ok(0) => return Err(Halt::Closed),
            Ok(count) => return Ok(count),
            Err(error) if error.kind() == ErrorKind::Interrupted => {}
            Err(error) => return Err(halt_of(error)),
        }
    }
    Err(Halt::Closed)
}

// Sends the first of these bytes. A write that a signal interrupted is made again, since no event would tell of the room once
// more.
pub(crate) fn send_to(stream: &mut TcpStream, bytes: &[u8]) -> Result<usize, Halt>
    ensures { IfOk result (λ n. n ≤ length bytes.now) }
{
    for _ in 0..TRIES {
        match stream.write(bytes) {
            Ok(count) => return Ok(count),
            Err(error) if error.kind() == ErrorKind::Interrupted => {}
            Err(error) => return Err(halt_of(error)),
        }
    }
    Err(Halt::Closed)
}

// Why no byte moved, as the system says.
fn halt_of(error: io::Error) -> Halt {
    match error.kind() {
        ErrorKind::WouldBlock => Halt::Blocked,
        _ => Halt::Closed,
    }
}
