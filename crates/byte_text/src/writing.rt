//! Output to any writer.
ghost use Rattle.byte_text.specs.Writes.{Writes};

use std::io;
use std::io::{ErrorKind, Write};

/// Writes all the bytes. It goes on after a short write and after an interruption (`ErrorKind::Interrupted`), and gives
/// up at any other error of the writer, which it hands on, at a write of nothing (`ErrorKind::WriteZero`), and after
/// 2^64 - 1 writes (`ErrorKind::TimedOut`). After an error a prefix of the bytes was written.
///
/// That it fails only where the writer failed can't be said of an unknown writer, since nothing in `Write` tells that one
/// has failed: the tests show it of a writer that takes one byte at a time and is interrupted at every second write, and
/// of one that fails at some write.
// Most texts are a few bytes, for which a call takes longer than the write, and most writers take all of them at once.
#[inline(always)]
pub fn put<W: Write>(writer: &mut W, bytes: &[u8]) -> io::Result<()>
    ensures { Writes W.contents writer.old writer.new result bytes.now }
{
    if bytes.is_empty() {
        return Ok(());
    }
    match writer.write(bytes) {
        Ok(n) if n == bytes.len() => Ok(()),
        Ok(0) => Err(io::Error::from(ErrorKind::WriteZero)),
        Ok(n) => put_rest(writer, &bytes[n..]),
        Err(e) => {
            if e.kind() != ErrorKind::Interrupted {
                return Err(e);
            }
            put_rest(writer, bytes)
        }
    }
}

// Writes the bytes that are left after a write that took a part of them, or none.
#[inline(never)]
fn put_rest<W: Write>(writer: &mut W, bytes: &[u8]) -> io::Result<()>
    ensures { Writes W.contents writer.old writer.new result bytes.now }
{
    let mut sent = 0;
    'writes: for _ in 1..u64::MAX {
        if sent >= bytes.len() {
            return Ok(());
        }
        match writer.write(&bytes[sent..]) {
            Ok(0) => return Err(io::Error::from(ErrorKind::WriteZero)),
            Ok(n) => sent += n,
            Err(e) => {
                if e.kind() != ErrorKind::Interrupted {
                    return Err(e);
                }
            }
        }
    }
    Err(io::Error::from(ErrorKind::TimedOut))
}
