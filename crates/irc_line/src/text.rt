//! Writing a line (RFC 1459 and RFC 2812, section 2.3; IRCv3 message-tags).
ghost use Rattle.std.specs.Prelude.{◌≡◌, ◌++◌, IfOk};
ghost use Rattle.std.specs.Option.{option_copied as copied};
ghost use Rattle.byte_text.specs.Writes.{Writes};
ghost use Rattle.irc_line.specs.Text.{tags_text, source_text, middles_text, end_text, line_text};
ghost use Rattle.irc_line.specs.OutLine.{bytes_of, value_of};

use byte_text::{NoMemory, Text, put};
use std::alloc::Global;
use std::io;
use std::io::Write;

/// A line to be written. Each part is written as it is, so it has to be one that may stand in its place: no NUL, CR or
/// LF anywhere; tags without a space; a source and middle parameters that are not empty and have no space; no middle
/// parameter begins with a colon.
#[derive(Clone, Copy)]
pub struct OutLine<'a> {
    /// The tag data, without its `@`.
    pub tags: Option<&'a [u8]>,
    /// The source, without its `:`.
    pub source: Option<&'a [u8]>,
    /// Letters, or three digits.
    pub command: &'a [u8],
    /// The parameters that are written without a colon: at most 15, or 14 before a trailing one.
    pub middles: &'a [&'a [u8]],
    /// The last parameter, which is written with its colon.
    pub trailing: Option<&'a [u8]>,
}

/// Writes the text between two others.
fn put_between<W: Write>(writer: &mut W, first: &[u8], text: &[u8], last: &[u8]) -> io::Result<()>
    ensures { Writes W.contents writer.old writer.new result (first.now ++ (text.now ++ last.now)) }
{
    put(writer, first)?;
    put(writer, text)?;
    put(writer, last)
}

fn put_tags<W: Write>(writer: &mut W, tags: Option<&[u8]>) -> io::Result<()>
    ensures { Writes W.contents writer.old writer.new result (tags_text (copied tags.entry)) }
{
    match tags {
        None => Ok(()),
        Some(data) => put_between(writer, b"@", data, b" "),
    }
}

fn put_source<W: Write>(writer: &mut W, source: Option<&[u8]>) -> io::Result<()>
    ensures { Writes W.contents writer.old writer.new result (source_text (copied source.entry)) }
{
    match source {
        None => Ok(()),
        Some(name) => put_between(writer, b":", name, b" "),
    }
}

fn put_middles<W: Write>(writer: &mut W, middles: &[&[u8]]) -> io::Result<()>
    ensures { Writes W.contents writer.old writer.new result (middles_text (bytes_of middles.now)) }
{
    for middle in middles {
        put_between(writer, b" ", middle, b"")?;
    }
    Ok(())
}

/// Writes the last parameter, and the ending of the line.
fn put_end<W: Write>(writer: &mut W, trailing: Option<&[u8]>) -> io::Result<()>
    ensures { Writes W.contents writer.old writer.new result (end_text (copied trailing.entry)) }
{
    match trailing {
        None => put(writer, b"\r\n"),
        Some(text) => put_between(writer, b" :", text, b"\r\n"),
    }
}

/// Writes the line with CR LF behind it: all of it at `Ok`, and a prefix of it where the writer failed. It takes no
/// memory. Where the parts may stand in their places, what is written reads back as those parts
/// ([`written_lines_read_back`](crate::laws::written_lines_read_back)).
pub fn write_line<W: Write>(line: &OutLine<'_>, writer: &mut W) -> io::Result<()>
    ensures { Writes W.contents writer.old writer.new result (line_text (value_of line.now)) }
{
    put_tags(writer, line.tags)?;
    put_source(writer, line.source)?;
    put(writer, line.command)?;
    put_middles(writer, line.middles)?;
    put_end(writer, line.trailing)
}

/// The line with CR LF behind it, in memory of its own.
pub fn line_text(alloc: Global, line: &OutLine<'_>) -> Result<Text, NoMemory>
    ensures { IfOk result (λ text. text ≡ line_text (value_of line.now)) }
{
    let mut bytes = Vec::new(alloc);
    match write_line(line, &mut bytes) {
        Ok(()) => Ok(Text::of(bytes)),
        // A `Vec` refuses bytes only where memory runs out.
        Err(_) => Err(NoMemory),
    }
}
