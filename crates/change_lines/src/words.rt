//! The words of a line, with one space behind each.
ghost use Rattle.std.specs.Prelude.{◌≡◌, ◌++◌, [], ◌∷◌, map};
ghost use Rattle.byte_text.specs.Bytes.{line_ending};
ghost use Rattle.byte_text.specs.Writes.{Writes};
ghost use Rattle.change_lines.specs.Words as spec;
ghost use Rattle.change_lines.specs.Words.{words_text};

use byte_text::{find_byte, put};
use std::io;
use std::io::Write;

/// Whether the text is that word, byte for byte.
pub fn is_text(text: &[u8], word: &[u8]) -> bool
    ensures { result ≡ spec.is_text text.now word.now }
{
    text == word
}

pub(crate) fn is_filled(text: &[u8]) -> bool
    ensures { result ≡ spec.is_filled text.now }
{
    !text.is_empty()
}

fn has_space(text: &[u8]) -> bool
    ensures { result ≡ spec.has_space text.now }
{
    text.iter().any(|b| *b == b' ')
}

/// Whether the text is one word, and nothing behind it.
pub(crate) fn is_last_word(text: &[u8]) -> bool
    ensures { result ≡ spec.is_last_word text.now }
{
    is_filled(text) && !has_space(text)
}

/// The first word of a line, and what stands behind the one space that ends it: nothing where there is no space.
pub fn split_word(bytes: &[u8]) -> (&[u8], &[u8])
    ensures word { result.0.now ≡ spec.word bytes.now }
    ensures behind { result.1.now ≡ spec.behind bytes.now }
{
    match find_byte(bytes, b' ') {
        Some(at) => (&bytes[..at], &bytes[at + 1..]),
        None => (bytes, &bytes[bytes.len()..]),
    }
}

// Writes a word and the space behind it.
pub(crate) fn put_word<W: Write>(writer: &mut W, word: &[u8]) -> io::Result<()>
    ensures { Writes W.contents writer.old writer.new result (word.now ++ (32 ∷ [])) }
{
    put(writer, word)?;
    put(writer, b" ")
}

pub(crate) fn put_words<W: Write>(writer: &mut W, words: &[&[u8]]) -> io::Result<()>
    ensures { Writes W.contents writer.old writer.new result
        (words_text (map (λ w. w.now) words.now)) }
{
    for word in words {
        put_word(writer, word)?;
    }
    Ok(())
}

// Writes the last field behind its sign, and the end of the line.
fn put_end<W: Write>(writer: &mut W, sign: &[u8], last: &[u8]) -> io::Result<()>
    ensures { Writes W.contents writer.old writer.new result
        (sign.now ++ (last.now ++ line_ending)) }
{
    put(writer, sign)?;
    put(writer, last)?;
    put(writer, b"\r\n")
}

// Writes words with one space behind each, the last field behind its sign, and the end of the line.
pub(crate) fn put_line<W: Write>(
    writer: &mut W,
    words: &[&[u8]],
    sign: &[u8],
    last: &[u8],
) -> io::Result<()>
    ensures { Writes W.contents writer.old writer.new result
        ((words_text (map (λ w. w.now) words.now) ++ (sign.now ++ last.now)) ++ line_ending) }
{
    put_words(writer, words)?;
    put_end(writer, sign, last)
}
