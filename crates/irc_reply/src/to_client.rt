//! Lines to a client: what it is answered with (RFC 2812, section 5; IRCv3 standard-replies), and what its network's server
//! says.
ghost use Rattle.std.specs.Prelude.{◌≡◌, ◌++◌, ◌∷◌, [], take, codes, IfOk, Some, None, string_bytes};
ghost use Rattle.std.specs.Option.{option_copied};
ghost use Rattle.std.specs.Fmt.{decimal};
ghost use Rattle.irc_line.specs.Text.{source_text};
ghost use Rattle.irc_reply.specs.Reply.{unknown_text, too_long_text, fail_text};
ghost use Rattle.irc_reply.specs.ToClient as spec;

use crate::echo::echoed;
use crate::text::{followed_by, plain_line, put_line_tags, put_with_ending, reply_text};
use byte_text::{NoMemory, Text};
use irc_line::text_of;
use std::alloc::{AllocError, Global};

/// The most bytes of a line without its tags, with CR LF (RFC 1459, section 2.3).
const MOST_BYTES: usize = 512;

/// `:cluster 001 nick :Welcome to network` (RPL_WELCOME).
pub fn welcome(alloc: Global, cluster: &[u8], nick: &[u8], network: &[u8]) -> Result<Text, NoMemory>
    ensures { IfOk result (λ text. text ≡ spec.welcome cluster.now nick.now network.now) }
{
    let greeting = followed_by(alloc, b"Welcome to ", network)?;
    reply_text(alloc, cluster, b"001", &[nick], Some(greeting.as_bytes()))
}

fn maximum_text(alloc: Global, maximum: u32) -> Result<String, AllocError>
    ensures { IfOk result (λ text. string_bytes text ≡ codes "CHATHISTORY=" ++ decimal maximum) }
{
    format!(in alloc; "CHATHISTORY={maximum}")
}

/// `:cluster 005 nick ..`: how letters are folded, the most messages of a page, and how a message is named
/// (RPL_ISUPPORT; IRCv3 draft/chathistory).
pub fn support(alloc: Global, cluster: &[u8], nick: &[u8], maximum: u32) -> Result<Text, NoMemory>
    ensures { IfOk result (λ text. text ≡ spec.support cluster.now nick.now maximum) }
{
    let history = maximum_text(alloc, maximum)?;
    reply_text(
        alloc,
        cluster,
        b"005",
        &[
            nick,
            b"CASEMAPPING=ascii",
            history.as_bytes(),
            b"MSGREFTYPES=msgid,timestamp",
        ],
        Some(b"are supported by this server"),
    )
}

/// `:cluster 422 nick :MOTD File is missing` (ERR_NOMOTD).
pub fn no_motd(alloc: Global, cluster: &[u8], nick: &[u8]) -> Result<Text, NoMemory>
    ensures { IfOk result (λ text. text ≡ spec.no_motd cluster.now nick.now) }
{
    reply_text(
        alloc,
        cluster,
        b"422",
        &[nick],
        Some(b"MOTD File is missing"),
    )
}

/// `:cluster 417 nick :Input line was too long` (ERR_INPUTTOOLONG, IRCv3 message-tags, "Size limit").
pub fn too_long(alloc: Global, cluster: &[u8], nick: &[u8]) -> Result<Text, NoMemory>
    ensures { IfOk result (λ text. text ≡ too_long_text cluster.now nick.now) }
{
    reply_text(
        alloc,
        cluster,
        b"417",
        &[nick],
        Some(b"Input line was too long"),
    )
}

/// `:cluster 421 nick word :Unknown command` (ERR_UNKNOWNCOMMAND).
pub fn unknown(alloc: Global, cluster: &[u8], nick: &[u8], word: &[u8]) -> Result<Text, NoMemory>
    ensures { IfOk result (λ text. text ≡ unknown_text cluster.now nick.now word.now) }
{
    reply_text(
        alloc,
        cluster,
        b"421",
        &[nick, word],
        Some(b"Unknown command"),
    )
}

/// `:cluster 431 nick :No nickname given` (ERR_NONICKNAMEGIVEN).
pub fn no_nick_given(alloc: Global, cluster: &[u8], nick: &[u8]) -> Result<Text, NoMemory>
    ensures { IfOk result (λ text. text ≡ spec.no_nick_given cluster.now nick.now) }
{
    reply_text(alloc, cluster, b"431", &[nick], Some(b"No nickname given"))
}

/// `:cluster 432 nick given :Erroneous nickname` (ERR_ERRONEUSNICKNAME), with `*` for a nick that can't be told again.
pub fn erroneous_nick(
    alloc: Global,
    cluster: &[u8],
    nick: &[u8],
    given: &[u8],
) -> Result<Text, NoMemory>
    ensures { IfOk result (λ text. text ≡ spec.erroneous_nick cluster.now nick.now given.now) }
{
    reply_text(
        alloc,
        cluster,
        b"432",
        &[nick, echoed(given)],
        Some(b"Erroneous nickname"),
    )
}

/// `:cluster 451 * :You have not registered` (ERR_NOTREGISTERED).
pub fn not_registered(alloc: Global, cluster: &[u8]) -> Result<Text, NoMemory>
    ensures { IfOk result (λ text. text ≡ spec.not_registered cluster.now) }
{
    reply_text(
        alloc,
        cluster,
        b"451",
        &[b"*".as_slice()],
        Some(b"You have not registered"),
    )
}

/// `:cluster 462 nick :You may not reregister` (ERR_ALREADYREGISTRED).
pub fn may_not_reregister(alloc: Global, cluster: &[u8], nick: &[u8]) -> Result<Text, NoMemory>
    ensures { IfOk result (λ text. text ≡ spec.may_not_reregister cluster.now nick.now) }
{
    reply_text(
        alloc,
        cluster,
        b"462",
        &[nick],
        Some(b"You may not reregister"),
    )
}

/// `:cluster 464 * :Password incorrect` (ERR_PASSWDMISMATCH). It doesn't tell what was given.
pub fn password_incorrect(alloc: Global, cluster: &[u8]) -> Result<Text, NoMemory>
    ensures { IfOk result (λ text. text ≡ spec.password_incorrect cluster.now) }
{
    reply_text(
        alloc,
        cluster,
        b"464",
        &[b"*".as_slice()],
        Some(b"Password incorrect"),
    )
}

fn prefix(word: &[u8]) -> &[u8]
    ensures { result.now ≡ take 300 word.now }
{
    if word.len() < 300 { word } else { &word[..300] }
}

/// `:cluster PONG cluster :word`, with the first 300 bytes of the word (RFC 2812, section 3.7.3).
pub fn pong(alloc: Global, cluster: &[u8], word: &[u8]) -> Result<Text, NoMemory>
    ensures { IfOk result (λ text. text ≡ spec.pong cluster.now word.now) }
{
    reply_text(alloc, cluster, b"PONG", &[cluster], Some(prefix(word)))
}

/// `:cluster NOTICE nick :Not connected to network`.
pub fn not_connected(
    alloc: Global,
    cluster: &[u8],
    nick: &[u8],
    network: &[u8],
) -> Result<Text, NoMemory>
    ensures { IfOk result (λ text. text ≡ spec.not_connected cluster.now nick.now network.now) }
{
    let notice = followed_by(alloc, b"Not connected to ", network)?;
    reply_text(alloc, cluster, b"NOTICE", &[nick], Some(notice.as_bytes()))
}

/// `:cluster FAIL REDACT NEED_MORE_PARAMS :Missing parameters`: there is no target, or no id (IRCv3
/// draft/message-redaction).
pub fn redact_needs_more(alloc: Global, cluster: &[u8]) -> Result<Text, NoMemory>
    ensures { IfOk result (λ text. text ≡ spec.redact_needs_more cluster.now) }
{
    reply_text(
        alloc,
        cluster,
        b"FAIL",
        &[b"REDACT".as_slice(), b"NEED_MORE_PARAMS"],
        Some(b"Missing parameters"),
    )
}

/// `:cluster FAIL REDACT INVALID_TARGET :Invalid target`: the target is refused, and not told again.
pub fn redact_bad_target(alloc: Global, cluster: &[u8]) -> Result<Text, NoMemory>
    ensures { IfOk result (λ text. text ≡ spec.redact_bad_target cluster.now) }
{
    reply_text(
        alloc,
        cluster,
        b"FAIL",
        &[b"REDACT".as_slice(), b"INVALID_TARGET"],
        Some(b"Invalid target"),
    )
}

fn refusal_at(
    alloc: Global,
    cluster: &[u8],
    code: &[u8],
    target: &[u8],
    text: &[u8],
) -> Result<Text, NoMemory>
    ensures { IfOk result (λ line. line ≡
        fail_text cluster.now (codes "REDACT") code.now (target.now ∷ []) text.now) }
{
    reply_text(
        alloc,
        cluster,
        b"FAIL",
        &[b"REDACT".as_slice(), code, target],
        Some(text),
    )
}

/// `:cluster FAIL REDACT UNKNOWN_MSGID target :No such message`: the target shows no message of that id.
pub fn redact_unknown_id(alloc: Global, cluster: &[u8], target: &[u8]) -> Result<Text, NoMemory>
    ensures { IfOk result (λ text. text ≡ spec.redact_unknown_id cluster.now target.now) }
{
    refusal_at(alloc, cluster, b"UNKNOWN_MSGID", target, b"No such message")
}

/// `:cluster FAIL REDACT REDACT_FORBIDDEN target :Not allowed here`: the network isn't up, or its server hasn't
/// `draft/message-redaction`.
pub fn redact_forbidden(alloc: Global, cluster: &[u8], target: &[u8]) -> Result<Text, NoMemory>
    ensures { IfOk result (λ text. text ≡ spec.redact_forbidden cluster.now target.now) }
{
    refusal_at(
        alloc,
        cluster,
        b"REDACT_FORBIDDEN",
        target,
        b"Not allowed here",
    )
}

/// `ERROR :Closing link`, the last line of a connection (RFC 2812, section 3.7.4).
pub fn closing_link(alloc: Global) -> Result<Text, NoMemory>
    ensures { IfOk result (λ text. text ≡ spec.closing_link) }
{
    plain_line(alloc, b"ERROR", &[], Some(b"Closing link"))
}

/// `:nick JOIN channel`: a channel that the session is in (RFC 2812, section 3.2.1).
pub fn join_line(alloc: Global, nick: &[u8], channel: &[u8]) -> Result<Text, NoMemory>
    ensures { IfOk result (λ text. text ≡ spec.join_line nick.now channel.now) }
{
    reply_text(alloc, nick, b"JOIN", &[channel], None)
}

/// `MARKREAD channel`, without an ending: the question of a channel's marker (IRCv3 draft/read-marker).
pub fn marker_question(alloc: Global, channel: &[u8]) -> Result<Text, NoMemory>
    ensures { IfOk result (λ text. text ≡ spec.marker_question channel.now) }
{
    followed_by(alloc, b"MARKREAD ", channel)
}

fn put_source(line: &mut Vec<u8>, source: Option<&[u8]>) -> Result<(), AllocError>
    ensures { IfOk result (λ _. line.new.items
        ≡ line.old.items ++ source_text (option_copied source.entry)) }
{
    if let Some(name) = source {
        line.push(b':')?;
        line.extend_from_slice(name)?;
        line.push(b' ')?;
    }
    Ok(())
}

/// A server's line, with that source, as it is passed on: without its tags. It is copied once, into that room, whose bytes
/// are let go.
pub fn relayed_line(room: Vec<u8>, source: Option<&[u8]>, bytes: &[u8]) -> Result<Text, NoMemory>
    ensures { IfOk result (λ text. text
        ≡ spec.relayed_line (option_copied source.entry) bytes.now) }
{
    let mut line = room;
    line.clear();
    line.reserve(MOST_BYTES)?;
    put_source(&mut line, source)?;
    put_with_ending(&mut line, text_of(bytes))?;
    Ok(Text::of(line))
}

/// The same with its client-only tags in front, of the tag data that it has (IRCv3 message-tags, "Client-only tags").
pub fn tagged_line(
    room: Vec<u8>,
    tags: Option<&[u8]>,
    source: Option<&[u8]>,
    bytes: &[u8],
) -> Result<Text, NoMemory>
    ensures { IfOk result (λ text. text
        ≡ spec.tagged_line (option_copied tags.entry) (option_copied source.entry) bytes.now) }
{
    let mut line = room;
    line.clear();
    line.reserve(bytes.len() + MOST_BYTES)?;
    put_line_tags(&mut line, tags)?;
    put_source(&mut line, source)?;
    put_with_ending(&mut line, text_of(bytes))?;
    Ok(Text::of(line))
}
