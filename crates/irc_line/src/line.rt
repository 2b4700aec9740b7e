//! Reading one line (RFC 1459 and RFC 2812, section 2.3; IRCv3 message-tags).
ghost use Rattle.std.specs.Prelude.{◌≡◌, ◌≤◌, ◌==◌, nat_lt, not, [], length, unwrap_or, map, take, drop, position, Ok, IfOk, IfErr, if◌then◌else◌};
ghost use Rattle.std.specs.List.{list_all};
ghost use Rattle.std.specs.Option.{option_copied};
ghost use Rattle.byte_text.specs.Bytes.{begins_with, colon, space};
ghost use Rattle.irc_line.specs.Faults.{shows, first_fault, is_empty_source};
ghost use Rattle.irc_line.specs.Read.{read, text_in};
ghost use Rattle.irc_line.specs.Line.{Reading, most_parameters, tag_limit, is_letter, is_command, SkipsSpaces, SplitsWord, SplitsTags, SplitsSource, HasParameters, IsRefused, Reads};

use byte_text::{begins_with, find_byte, has_digits_only, has_line_end};
use std::marker::Model;
use thiserror::Error;

/// The most bytes of tag data in a line of a client, and in one of a server (IRCv3 message-tags).
const MAX_CLIENT_TAG_DATA: usize = 4094;

const MAX_SERVER_TAG_DATA: usize = 8189;

/// The most bytes behind the tags, without CR LF (RFC 1459 section 2.3).
const MAX_REST: usize = 510;

/// The most parameters of a line, and the most before its last (RFC 2812 section 2.3.1).
const MAX_PARAMETERS: usize = 15;

const MAX_MIDDLES: usize = 14;

/// Whose lines are read, which says how long their tag data may be (IRCv3 message-tags).
#[derive(Clone, Copy, PartialEq, Eq)]
pub enum TagLimit {
    /// At most 4094 bytes of tag data.
    Client,
    /// At most 8189 bytes of tag data.
    Server,
}

/// Why a line is refused. Of several faults the first of this list is answered.
#[derive(Clone, Copy, Debug, PartialEq, Eq, Error)]
pub enum LineFault {
    /// Nothing, or spaces alone.
    #[error("the line is empty")]
    Empty,
    /// More tag data than the limit allows.
    #[error("the tags are too long")]
    TagsTooLong,
    /// More than 510 bytes behind the tags.
    #[error("the line is too long")]
    TooLong,
    /// A NUL, CR or LF.
    #[error("the line has a NUL, CR or LF")]
    BadByte,
    /// An empty source, or no command of letters or of three digits.
    #[error("the line has no command")]
    NoCommand,
}

/// A line, by slices of the bytes that it was read from. Contracts see it as a `Reading`: the tag data, the source,
/// the command and the parameters.
#[derive(Drop)]
pub struct Line<'a> {
    tags: Option<&'a [u8]>,
    source: Option<&'a [u8]>,
    command: &'a [u8],
    parameters: [&'a [u8]; MAX_PARAMETERS],
    count: usize,
}

impl<'a> Model for Line<'a> {
    ghost Value = { Reading };

    ghost view = { λ l. record {
      tags = option_copied l.tags;
      source = option_copied l.source;
      command = l.command.now;
      parameters = map (λ p. p.now) (take l.count l.parameters);
    } };

    ghost invariant = { λ l. l.count ≤ most_parameters };
}

impl<'a> Line<'a> {
    /// The tag data between `@` and the first space, as it was sent.
    pub fn tags(&self) -> Option<&'a [u8]>
        ensures { option_copied result ≡ self.now.tags }
    {
        self.tags
    }

    /// The source, without its `:`.
    pub fn source(&self) -> Option<&'a [u8]>
        ensures { option_copied result ≡ self.now.source }
    {
        self.source
    }

    /// The command: letters, or three digits.
    pub fn command(&self) -> &'a [u8]
        ensures { result.now ≡ self.now.command }
    {
        self.command
    }

    /// The parameters, at most 15, the last one without a `:` that stood before it.
    pub fn parameters(&self) -> &[&'a [u8]]
        ensures { map (λ p. p.now) result.now ≡ self.now.parameters }
    {
        &self.parameters[..self.count]
    }
}

/// The place of the first byte that is no space.
fn find_other(bytes: &[u8]) -> Option<usize>
    ensures { result ≡ position (λ b. not (b == space)) bytes.now }
{
    bytes.iter().position(|b| *b != b' ')
}

fn skip_spaces(bytes: &[u8]) -> &[u8]
    ensures { SkipsSpaces bytes.now result.now }
{
    match find_other(bytes) {
        Some(at) => &bytes[at..],
        None => &bytes[bytes.len()..],
    }
}

fn split_word(bytes: &[u8]) -> (&[u8], &[u8])
    ensures { SplitsWord bytes.now result.0.now result.1.now }
{
    match find_byte(bytes, b' ') {
        Some(at) => bytes.split_at(at),
        None => bytes.split_at(bytes.len()),
    }
}

fn split_tags(bytes: &[u8]) -> (Option<&[u8]>, &[u8])
    ensures { SplitsTags bytes.now (option_copied result.0) result.1.now }
{
    if bytes.is_empty() || bytes[0] != b'@' {
        return (None, bytes);
    }
    let (tags, tail) = split_word(&bytes[1..]);
    if tail.is_empty() {
        (Some(tags), tail)
    } else {
        (Some(tags), &tail[1..])
    }
}

fn split_source(bytes: &[u8]) -> (Option<&[u8]>, &[u8])
    ensures { SplitsSource bytes.now (option_copied result.0) result.1.now }
{
    let text = skip_spaces(bytes);
    if text.is_empty() || text[0] != b':' {
        return (None, text);
    }
    let (source, tail) = split_word(&text[1..]);
    (Some(source), skip_spaces(tail))
}

fn is_letter(b: u8) -> bool
    ensures { result ≡ is_letter b }
{
    (b'A' <= b && b <= b'Z') || (b'a' <= b && b <= b'z')
}

fn has_letters_only(text: &[u8]) -> bool
    ensures { result ≡ list_all is_letter text.now }
{
    text.iter().all(|b| is_letter(*b))
}

fn is_command(text: &[u8]) -> bool
    ensures { result ≡ is_command text.now }
{
    (!text.is_empty() && has_letters_only(text)) || (text.len() == 3 && has_digits_only(text))
}

/// The text without a colon at its beginning.
fn without_colon(text: &[u8]) -> &[u8]
    ensures { result.now ≡ (if begins_with colon text.now then drop 1 text.now else text.now) }
{
    if begins_with(b':', text) {
        &text[1..]
    } else {
        text
    }
}

/// The parameters behind a command, and how many there are.
fn read_parameters<'a>(bytes: &'a [u8]) -> ([&'a [u8]; MAX_PARAMETERS], usize)
    ensures count { result.1 ≤ most_parameters }
    ensures parameters { HasParameters 0 bytes.now (map (λ p. p.now) (take result.1 result.0)) }
{
    let mut parameters: [&'a [u8]; MAX_PARAMETERS] = [bytes; MAX_PARAMETERS];
    let mut rest = bytes;
    for count in 0..MAX_MIDDLES {
        let text = skip_spaces(rest);
        if text.is_empty() {
            return (parameters, count);
        }
        if text[0] == b':' {
            parameters[count] = without_colon(text);
            return (parameters, count + 1);
        }
        let (word, after) = split_word(text);
        parameters[count] = word;
        rest = after;
    }
    let text = skip_spaces(rest);
    if text.is_empty() {
        return (parameters, MAX_MIDDLES);
    }
    parameters[MAX_MIDDLES] = without_colon(text);
    (parameters, MAX_PARAMETERS)
}

/// The head of a line: its parts before the parameters, which tell whether it is refused.
#[derive(Drop)]
struct LineHead<'a> {
    bytes: &'a [u8],
    tags: Option<&'a [u8]>,
    after_tags: &'a [u8],
    source: Option<&'a [u8]>,
    command: &'a [u8],
}

fn has_long_tags(tags: Option<&[u8]>, limit: TagLimit) -> bool
    ensures { result ≡ nat_lt (tag_limit limit) (length (unwrap_or (option_copied tags.entry) [])) }
{
    let most = match limit {
        TagLimit::Client => MAX_CLIENT_TAG_DATA,
        TagLimit::Server => MAX_SERVER_TAG_DATA,
    };
    match tags {
        None => false,
        Some(data) => data.len() > most,
    }
}

fn has_empty_source(source: Option<&[u8]>) -> bool
    ensures { result ≡ is_empty_source (option_copied source.entry) }
{
    match source {
        None => false,
        Some(name) => name.is_empty(),
    }
}

impl<'a> LineHead<'a> {
    ghost use Rattle.irc_line.specs.Head.{value_of};

    fn first_fault(&self, limit: TagLimit) -> Option<LineFault>
        ensures { result ≡ first_fault (shows limit (value_of self.now)) }
    {
        if find_other(self.bytes).is_none() {
            Some(LineFault::Empty)
        } else if has_long_tags(self.tags, limit) {
            Some(LineFault::TagsTooLong)
        } else if self.after_tags.len() > MAX_REST {
            Some(LineFault::TooLong)
        } else if has_line_end(self.bytes) {
            Some(LineFault::BadByte)
        } else if has_empty_source(self.source) || !is_command(self.command) {
            Some(LineFault::NoCommand)
        } else {
            None
        }
    }
}

/// The line that the bytes spell, which stand without an ending (RFC 1459 and RFC 2812, section 2.3): `@`, tag data
/// and a space, which may be missing; `:`, a source and spaces, which may be missing; a command; and up to 15
/// parameters, of which one that begins with `:` is the rest of the line, as the 15th is. Spaces at the end give no
/// parameter. It copies nothing and takes no memory.
pub fn read_line(bytes: &[u8], limit: TagLimit) -> Result<Line<'_>, LineFault>
    // What is answered, as a function of the bytes,
    ensures read { result ≡ read limit bytes.now }
    // and what that means.
    ensures line { IfOk result (Reads limit bytes.now) }
    ensures refused { IfErr result (IsRefused limit bytes.now) }
    // A line that can be read is.
    ensures only { (line : Reading) → Reads limit bytes.now line → result ≡ Ok line }
{
    let (tags, after_tags) = split_tags(bytes);
    let (source, after_source) = split_source(after_tags);
    let (command, after_command) = split_word(after_source);
    let head = LineHead {
        bytes,
        tags,
        after_tags,
        source,
        command,
    };
    if let Some(fault) = head.first_fault(limit) {
        return Err(fault);
    }
    let (parameters, count) = read_parameters(after_command);
    Ok(Line {
        tags,
        source,
        command,
        parameters,
        count,
    })
}

/// The text of a line from its command on, without the tags and the source that may stand before it (RFC 1459 and RFC
/// 2812, section 2.3; IRCv3 message-tags). It copies nothing.
pub fn text_of(bytes: &[u8]) -> &[u8]
    ensures { result.now ≡ text_in bytes.now }
{
    let (_, after_tags) = split_tags(bytes);
    let (_, text) = split_source(after_tags);
    text
}
