//! Lines in memory of their own.
ghost use Rattle.std.specs.Prelude.{◌≡◌, ◌++◌, map, IfOk};
ghost use Rattle.std.specs.Option.{option_copied};
ghost use Rattle.byte_text.specs.Bytes.{line_ending};
ghost use Rattle.irc_tags.specs.ClientOnly.{client_only_of};
ghost use Rattle.irc_reply.specs.Tagged.{client_tags, tag_part, kept_text};
ghost use Rattle.irc_reply.specs.Reply as spec;

use byte_text::{NoMemory, Text};
use irc_line::{OutLine, line_text};
use irc_tags::{Tags, line_tags, write_client_only};
use std::alloc::{AllocError, Global};

/// A line of that source, which is mostly the cluster, with its ending.
pub fn reply_text<'a>(
    alloc: Global,
    source: &'a [u8],
    command: &'a [u8],
    middles: &'a [&'a [u8]],
    trailing: Option<&'a [u8]>,
) -> Result<Text, NoMemory>
    ensures { IfOk result (λ text. text ≡
        spec.reply source.now command.now (map (λ p. p.now) middles.now)
        (option_copied trailing.entry)) }
{
    let line = OutLine {
        tags: None,
        source: Some(source),
        command,
        middles,
        trailing,
    };
    line_text(alloc, &line)
}

/// `:cluster 461 nick command :Not enough parameters` (ERR_NEEDMOREPARAMS, RFC 2812, section 5.2).
pub fn need_more_params(
    alloc: Global,
    cluster: &[u8],
    nick: &[u8],
    command: &[u8],
) -> Result<Text, NoMemory>
    ensures { IfOk result (λ text. text ≡ spec.need_more_params cluster.now nick.now command.now) }
{
    reply_text(
        alloc,
        cluster,
        b"461",
        &[nick, command],
        Some(b"Not enough parameters"),
    )
}

/// A line without tags and source, with its ending.
pub fn plain_line<'a>(
    alloc: Global,
    command: &'a [u8],
    middles: &'a [&'a [u8]],
    trailing: Option<&'a [u8]>,
) -> Result<Text, NoMemory>
    ensures { IfOk result (λ text. text ≡ spec.plain_line command.now
        (map (λ p. p.now) middles.now) (option_copied trailing.entry)) }
{
    let line = OutLine {
        tags: None,
        source: None,
        command,
        middles,
        trailing,
    };
    line_text(alloc, &line)
}

/// The second text behind the first.
pub(crate) fn followed_by(alloc: Global, first: &[u8], second: &[u8]) -> Result<Text, NoMemory>
    ensures { IfOk result (λ text. text ≡ first.now ++ second.now) }
{
    let mut bytes = Vec::new(alloc);
    bytes.extend_from_slice(first)?;
    bytes.extend_from_slice(second)?;
    Ok(Text::of(bytes))
}

/// Puts the text of a line and its ending.
pub(crate) fn put_with_ending(line: &mut Vec<u8>, text: &[u8]) -> Result<(), AllocError>
    ensures { IfOk result (λ _. line.new.items ≡ line.old.items ++ (text.now ++ line_ending)) }
{
    line.extend_from_slice(text)?;
    line.extend_from_slice(b"\r\n")?;
    Ok(())
}

/// Puts the client-only tags of the tags that a line bears, as they are written, with `@` in front and a space behind them;
/// nothing where there are none.
pub(crate) fn put_client_tags(line: &mut Vec<u8>, tags: &Option<Tags<'_>>) -> Result<(), NoMemory>
    ensures { IfOk result (λ _. line.new.items ≡ line.old.items ++ tag_part (kept_text tags.now)) }
{
    match tags {
        None => Ok(()),
        Some(tags) => put_tag_part(line, tags),
    }
}

fn put_tag_part(line: &mut Vec<u8>, tags: &Tags<'_>) -> Result<(), NoMemory>
    ensures { IfOk result (λ _. line.new.items
        ≡ line.old.items ++ tag_part (client_only_of tags.now)) }
{
    line.extend_from_slice(b"@")?;
    let start = line.len();
    // A `Vec` refuses bytes only where memory runs out.
    if write_client_only(tags, line).is_err() {
        return Err(NoMemory);
    }
    if line.len() == start {
        line.truncate(start - 1);
    } else {
        line.extend_from_slice(b" ")?;
    }
    Ok(())
}

/// The same of the tag data of a line.
pub(crate) fn put_line_tags(line: &mut Vec<u8>, tags: Option<&[u8]>) -> Result<(), NoMemory>
    ensures { IfOk result (λ _. line.new.items
        ≡ line.old.items ++ tag_part (client_tags (option_copied tags.entry))) }
{
    let read = line_tags(*line.allocator(), tags)?;
    put_client_tags(line, &read)?;
    Ok(())
}
