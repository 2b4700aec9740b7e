//! Writing the line of a change.
ghost use Rattle.std.specs.Prelude.{◌≡◌, ◌≤◌, ◌++◌, [], true, decimal, Ok};
ghost use Rattle.byte_text.specs.Bytes.{line_ending};
ghost use Rattle.chat_change.specs.Words.{is_name};
ghost use Rattle.irc_time.specs.Time.{greatest};
ghost use Rattle.chat_change.specs.Buffer.{IsLawfulBuffer};
ghost use Rattle.byte_text.specs.Writes.{Writes};
ghost use Rattle.chat_change.specs.declared.change.Change.TheVariants as change;
ghost use Rattle.change_lines.specs.Words.{words_text};
ghost use Rattle.change_lines.specs.ChangeLine.{read_change};
ghost use Rattle.change_lines.specs.ChangeText.{line_of, buffer_words, account_words};
ghost use Rattle.chat_change.specs.Lawful.{IsLawfulChange};

use crate::post_line::put_post;
use crate::words::put_line;
use chat_change::{Account, Buffer, Change, Moment, MsgId};
use std::io;
use std::io::Write;

fn put_redaction<W: Write>(
    writer: &mut W,
    buffer: &Buffer,
    id: &MsgId,
    at: Option<Moment>,
) -> io::Result<()>
    ensures text { Writes W.contents writer.old writer.new result
        (line_of (change.Redact buffer.now id.now at) ++ line_ending) }
    ensures lawful { IsLawfulChange (change.Redact buffer.now id.now at) }
{
    let words: [&[u8]; 6] = [
        b"C",
        b"REDACT",
        buffer.account(),
        buffer.network(),
        buffer.target(),
        id.as_bytes(),
    ];
    match at {
        None => put_line(writer, &words, b"", b"*"),
        Some(at) => {
            let mut digits = itoa::Buffer::new();
            put_line(writer, &words, b"", digits.format(at.ms()).as_bytes())
        }
    }
}

// Writes the line of a marker or of a floor.
fn put_moment<W: Write>(writer: &mut W, kind: &[u8], buffer: &Buffer, at: Moment) -> io::Result<()>
    ensures text { Writes W.contents writer.old writer.new result
        ((words_text (buffer_words kind.now buffer.now []) ++ decimal at) ++ line_ending) }
    ensures buffer { IsLawfulBuffer buffer.now }
    ensures at { at ≤ greatest }
{
    let mut digits = itoa::Buffer::new();
    let words: [&[u8]; 5] = [
        b"C",
        kind,
        buffer.account(),
        buffer.network(),
        buffer.target(),
    ];
    put_line(writer, &words, b"", digits.format(at.ms()).as_bytes())
}

// Writes the line of a floor of an account.
fn put_account_floor<W: Write>(writer: &mut W, account: &Account, at: Moment) -> io::Result<()>
    ensures text { Writes W.contents writer.old writer.new result
        ((words_text (account_words account.now) ++ decimal at) ++ line_ending) }
    ensures account { is_name account.now ≡ true }
    ensures at { at ≤ greatest }
{
    let mut digits = itoa::Buffer::new();
    let words: [&[u8]; 3] = [b"C", b"AFLOOR", account.name()];
    put_line(writer, &words, b"", digits.format(at.ms()).as_bytes())
}

/// Writes the one line that spells the change, and CR LF behind it: all of it at `Ok`, and a prefix of it where the
/// writer failed. It takes no memory. The line is read back as that change.
pub fn write_change<W: Write>(change: &Change, writer: &mut W) -> io::Result<()>
    ensures text { Writes W.contents writer.old writer.new result
        (line_of change.now ++ line_ending) }
    ensures read_back { read_change (line_of change.now) ≡ Ok change.now }
{
    match change {
        Change::Post(record) => put_post(writer, record),
        Change::Redact { buffer, id, at } => put_redaction(writer, buffer, id, *at),
        Change::Mark { buffer, at } => put_moment(writer, b"MARK", buffer, *at),
        Change::Floor { buffer, at } => put_moment(writer, b"FLOOR", buffer, *at),
        Change::AccountFloor { account, at } => put_account_floor(writer, account, *at),
    }
}
