//! Lines that the cluster sends in its own name.
ghost use Rattle.std.specs.Prelude.{◌≡◌, ◌++◌, map, codes};
ghost use Rattle.std.specs.Option.{option_copied};
ghost use Rattle.byte_text.specs.Writes.{Writes};
ghost use Rattle.irc_time.specs.Text.{time_text};

use irc_line::{OutLine, write_line};
use irc_time::{Moment, write_time};
use std::io;
use std::io::Write;

/// The words that say what a refusal is about (the context of IRCv3 standard-replies).
#[derive(Clone, Copy)]
pub enum Context<'a> {
    Nothing,
    One(&'a [u8]),
    Two(&'a [u8], &'a [u8]),
}

ghost use Rattle.irc_reply.specs.Reply.{reply, unknown_text, fail_text, value_of, mark_text};

/// Writes a line of the cluster.
pub fn write_reply<'a, W: Write>(
    cluster: &'a [u8],
    command: &'a [u8],
    middles: &'a [&'a [u8]],
    trailing: Option<&'a [u8]>,
    writer: &mut W,
) -> io::Result<()>
    ensures { Writes W.contents writer.old writer.new result
        (reply cluster.now command.now (map (λ p. p.now) middles.now)
        (option_copied trailing.entry)) }
{
    let line = OutLine {
        tags: None,
        source: Some(cluster),
        command,
        middles,
        trailing,
    };
    write_line(&line, writer)
}

/// Writes `:cluster 421 nick word :Unknown command` (ERR_UNKNOWNCOMMAND, RFC 2812, section 5.2). Fails where the writer
/// fails.
pub fn write_unknown<W: Write>(
    cluster: &[u8],
    nick: &[u8],
    word: &[u8],
    writer: &mut W,
) -> io::Result<()>
    ensures { Writes W.contents writer.old writer.new result
        (unknown_text cluster.now nick.now word.now) }
{
    write_reply(
        cluster,
        b"421",
        &[nick, word],
        Some(b"Unknown command"),
        writer,
    )
}

/// Writes the refusal `:cluster FAIL command code context.. :text` (IRCv3 standard-replies). Fails where the writer
/// fails.
pub fn write_fail<W: Write>(
    cluster: &[u8],
    command: &[u8],
    code: &[u8],
    context: Context<'_>,
    text: &[u8],
    writer: &mut W,
) -> io::Result<()>
    ensures { Writes W.contents writer.old writer.new result
        (fail_text cluster.now command.now code.now (value_of context.entry) text.now) }
{
    match context {
        Context::Nothing => write_reply(cluster, b"FAIL", &[command, code], Some(text), writer),
        Context::One(a) => write_reply(cluster, b"FAIL", &[command, code, a], Some(text), writer),
        Context::Two(a, b) => {
            write_reply(cluster, b"FAIL", &[command, code, a, b], Some(text), writer)
        }
    }
}

/// The word of a marker at that moment.
fn marker_word(at: Moment) -> [u8; 34]
    ensures { result ≡ codes "timestamp=" ++ time_text at }
{
    let mut word = [0; 34];
    word[..10].copy_from_slice(b"timestamp=");
    word[10..].copy_from_slice(&write_time(at));
    word
}

/// Writes the read marker of a target, `:cluster MARKREAD given timestamp=time`, with `*` in the place of the last word
/// where there is no marker (IRCv3 draft/read-marker). `given` is the target as the client spelled it. Fails where the
/// writer fails.
pub fn write_mark<W: Write>(
    cluster: &[u8],
    given: &[u8],
    marker: Option<Moment>,
    writer: &mut W,
) -> io::Result<()>
    ensures { Writes W.contents writer.old writer.new result
        (mark_text cluster.now given.now marker) }
{
    match marker {
        None => write_reply(cluster, b"MARKREAD", &[given, b"*"], None, writer),
        Some(at) => {
            let word = marker_word(at);
            write_reply(
                cluster,
                b"MARKREAD",
                &[given, word.as_slice()],
                None,
                writer,
            )
        }
    }
}
