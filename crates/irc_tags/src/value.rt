//! Values of tags, and their escapes (IRCv3 message-tags, "Escaping values").
ghost use Rattle.std.specs.Prelude.{◌≡◌, ◌==◌, ◌∷◌, [], length, not, IfOk};
ghost use Rattle.byte_text.specs.Writes.{Writes};
ghost use Rattle.irc_tags.specs.Value.{backslash, escaped_byte, value_in, byte_spelling, value_text};
ghost use Rattle.irc_tags.specs.TagList.{same_bytes};

use byte_text::{find_byte, put};
use std::alloc::{AllocError, Global};
use std::io;
use std::io::Write;

/// What a byte behind a backslash stands for.
fn unescape(b: u8) -> u8
    ensures { result ≡ escaped_byte b }
{
    match b {
        b':' => b';',
        b's' => b' ',
        b'r' => b'\r',
        b'n' => b'\n',
        _ => b,
    }
}

/// The value that the bytes spell: `\:` is `;`, `\s` a space, `\\` a backslash, `\r` CR and `\n` LF. A backslash before
/// another byte is dropped, and so is one at the end. It fails where memory runs out.
pub(crate) fn read_value(alloc: Global, bytes: &[u8]) -> Result<Vec<u8>, AllocError>
    ensures { IfOk result (λ value. value.items ≡ value_in bytes.now) }
{
    let mut value = Vec::with_capacity(alloc, bytes.len())?;
    let mut rest = bytes;
    while let Some(at) = find_byte(rest, b'\\') {
        value.extend_from_slice(&rest[..at])?;
        let Some(next) = rest.get(at + 1) else {
            return Ok(value);
        };
        value.push(unescape(*next))?;
        rest = &rest[at + 2..];
    }
    value.extend_from_slice(rest)?;
    Ok(value)
}

fn write_byte<W: Write>(b: u8, writer: &mut W) -> io::Result<()>
    ensures { Writes W.contents writer.old writer.new result (byte_spelling b) }
{
    match b {
        b';' => put(writer, b"\\:"),
        b' ' => put(writer, b"\\s"),
        b'\\' => put(writer, b"\\\\"),
        b'\r' => put(writer, b"\\r"),
        b'\n' => put(writer, b"\\n"),
        _ => put(writer, &[b]),
    }
}

/// Writes a value with its escapes, at an error a prefix of it. It fails where the writer does, and takes no memory.
pub fn write_value<W: Write>(value: &[u8], writer: &mut W) -> io::Result<()>
    ensures { Writes W.contents writer.old writer.new result (value_text value.now) }
{
    for b in value {
        write_byte(*b, writer)?;
    }
    Ok(())
}

/// Whether the bytes spell the empty value: none do, and a backslash at the end.
pub(crate) fn is_value_empty(bytes: &[u8]) -> bool
    ensures { result ≡ length (value_in bytes.now) == 0 }
{
    match bytes {
        [] => true,
        [b] => *b == b'\\',
        _ => false,
    }
}

/// Whether a backslash and this byte are how a byte is written.
fn is_escape(b: u8) -> bool
    ensures { result ≡ same_bytes (byte_spelling (escaped_byte b)) (backslash ∷ b ∷ []) }
{
    match b {
        b':' | b's' | b'\\' | b'r' | b'n' => true,
        _ => false,
    }
}

/// Whether a byte is written with a backslash.
fn has_escape(b: u8) -> bool
    ensures { result ≡ not (same_bytes (byte_spelling b) (b ∷ [])) }
{
    match b {
        b';' | b' ' | b'\\' | b'\r' | b'\n' => true,
        _ => false,
    }
}

/// Whether the bytes are how the value that they spell is written.
pub(crate) fn is_value_as_written(bytes: &[u8]) -> bool
    ensures { result ≡ same_bytes (value_text (value_in bytes.now)) bytes.now }
{
    let mut rest = bytes;
    while let [b, behind @ ..] = rest {
        if *b != b'\\' {
            if has_escape(*b) {
                return false;
            }
            rest = behind;
            continue;
        }
        let [next, behind @ ..] = behind else {
            return false;
        };
        if !is_escape(*next) {
            return false;
        }
        rest = behind;
    }
    true
}
