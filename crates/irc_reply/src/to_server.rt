//! Lines to a server: what a session with it sends (RFC 2812, section 3; IRCv3 capability negotiation), and what a client
//! says.
ghost use Rattle.std.specs.Prelude.{◌≡◌, ◌≤◌, IfOk};
ghost use Rattle.std.specs.Option.{option_copied};
ghost use Rattle.irc_reply.specs.ToServer as spec;

use crate::text::{followed_by, plain_line, put_client_tags, put_line_tags, put_with_ending};
use byte_text::{NoMemory, Text};
use irc_line::text_of;
use irc_tags::Tags;
use std::alloc::Global;

/// `CAP LS 302`: asks for the server's capabilities.
pub fn ls_line(alloc: Global) -> Result<Text, NoMemory>
    ensures { IfOk result (λ text. text ≡ spec.ls_line) }
{
    plain_line(alloc, b"CAP", &[b"LS".as_slice(), b"302"], None)
}

/// `USER user 0 * :user` (RFC 2812, section 3.1.3).
pub fn user_line(alloc: Global, user: &[u8]) -> Result<Text, NoMemory>
    ensures { IfOk result (λ text. text ≡ spec.user_line user.now) }
{
    plain_line(alloc, b"USER", &[user, b"0", b"*"], Some(user))
}

/// `NICK nick` (RFC 2812, section 3.1.2).
pub fn nick_line(alloc: Global, nick: &[u8]) -> Result<Text, NoMemory>
    ensures { IfOk result (λ text. text ≡ spec.nick_line nick.now) }
{
    plain_line(alloc, b"NICK", &[nick], None)
}

/// `JOIN channel` (RFC 2812, section 3.2.1).
pub fn join_line(alloc: Global, channel: &[u8]) -> Result<Text, NoMemory>
    ensures { IfOk result (λ text. text ≡ spec.join_line channel.now) }
{
    plain_line(alloc, b"JOIN", &[channel], None)
}

/// `PONG :word` (RFC 2812, section 3.7.3).
pub fn pong_line(alloc: Global, word: &[u8]) -> Result<Text, NoMemory>
    ensures { IfOk result (λ text. text ≡ spec.pong_line word.now) }
{
    plain_line(alloc, b"PONG", &[], Some(word))
}

/// `CAP END`: the negotiation is over.
pub fn cap_end(alloc: Global) -> Result<Text, NoMemory>
    ensures { IfOk result (λ text. text ≡ spec.cap_end) }
{
    plain_line(alloc, b"CAP", &[b"END".as_slice()], None)
}

/// `REDACT target id`, and the reason where there is one (IRCv3 draft/message-redaction).
pub fn redact_line<'a>(
    alloc: Global,
    target: &'a [u8],
    id: &'a [u8],
    reason: Option<&'a [u8]>,
) -> Result<Text, NoMemory>
    ensures { IfOk result (λ text. text
        ≡ spec.redact_line target.now id.now (option_copied reason.entry)) }
{
    plain_line(alloc, b"REDACT", &[target, id], reason)
}

/// The nick with so many `_` behind it.
pub fn with_underscores(alloc: Global, nick: &[u8], count: usize) -> Result<Text, NoMemory>
    requires { count ≤ 3 }
    ensures { IfOk result (λ text. text ≡ spec.with_underscores nick.now count) }
{
    followed_by(alloc, nick, &b"___"[..count])
}

/// A client's line, without its tags and its source, for the server. It is copied once, into that room, whose bytes are
/// let go.
pub fn passed_line(room: Vec<u8>, bytes: &[u8]) -> Result<Text, NoMemory>
    ensures { IfOk result (λ text. text ≡ spec.passed_line bytes.now) }
{
    let text = text_of(bytes);
    let mut line = room;
    line.clear();
    line.reserve(text.len() + 2)?;
    put_with_ending(&mut line, text)?;
    Ok(Text::of(line))
}

/// The same with its client-only tags in front, of the tag data that it has (IRCv3 message-tags, "Client-only tags").
pub fn tagged_line(room: Vec<u8>, tags: Option<&[u8]>, bytes: &[u8]) -> Result<Text, NoMemory>
    ensures { IfOk result (λ text. text
        ≡ spec.tagged_line (option_copied tags.entry) bytes.now) }
{
    let mut line = room;
    line.clear();
    line.reserve(bytes.len() + 2)?;
    put_line_tags(&mut line, tags)?;
    put_with_ending(&mut line, text_of(bytes))?;
    Ok(Text::of(line))
}

/// The same of tags that were read.
pub fn line_of_tags(room: Vec<u8>, tags: &Option<Tags<'_>>, bytes: &[u8]) -> Result<Text, NoMemory>
    ensures { IfOk result (λ text. text ≡ spec.line_of_tags tags.now bytes.now) }
{
    let mut line = room;
    line.clear();
    line.reserve(bytes.len() + 2)?;
    put_client_tags(&mut line, tags)?;
    put_with_ending(&mut line, text_of(bytes))?;
    Ok(Text::of(line))
}
