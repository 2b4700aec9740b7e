//! The client-only tags of a line (IRCv3 message-tags, "Client-only tags").
ghost use Rattle.std.specs.Prelude.{◌≡◌, true, IfOk};
ghost use Rattle.byte_text.specs.Writes.{Writes};
ghost use Rattle.irc_tags.specs.ClientOnly.{client_only_of, client_only_text, is_client_only_text};
ghost use Rattle.irc_tags.specs.Kept.{is_client_only_tag, is_kept};

use crate::lookup::find_spelled;
use crate::tag::{cut_tag, is_client_only};
use crate::tag_list::{Tags, tags_in};
use crate::text::{put_separator, write_tag};
use crate::value::{is_value_as_written, is_value_empty};
use byte_text::find_byte;
use std::alloc::{AllocError, Global};
use std::io;
use std::io::Write;

/// Writes those of the tags whose keys begin with `+`, in their order, as [`write_tags`](crate::write_tags) writes a list. At
/// an error a prefix of them is written. It fails where the writer does, and takes no memory.
pub fn write_client_only<W: Write>(tags: &Tags<'_>, writer: &mut W) -> io::Result<()>
    ensures written { Writes W.contents writer.old writer.new result (client_only_of tags.now) }
    // What is written is such text as [`is_client_only_text`] tells.
    ensures as_written { is_client_only_text (client_only_of tags.now) ≡ true }
{
    let mut count = 0;
    for index in 0..tags.len() {
        let (key, value) = tags.entry(index);
        if !is_client_only(key) {
            continue;
        }
        put_separator(count, writer)?;
        write_tag(key, value, writer)?;
        count += 1;
    }
    Ok(())
}

/// Whether a tag is client-only and stands as it is written.
fn is_client_only_tag(tag: &[u8]) -> bool
    ensures { result ≡ is_client_only_tag tag.now }
{
    let (key, value) = cut_tag(tag);
    is_client_only(key)
        && (key.len() == tag.len() || !is_value_empty(value) && is_value_as_written(value))
}

/// Whether it is such a tag, and no tag in the tag data behind it has its key.
fn is_kept(tag: &[u8], later: &[u8]) -> bool
    ensures { result ≡ is_kept tag.now later.now }
{
    let (key, _) = cut_tag(tag);
    is_client_only_tag(tag) && find_spelled(later, key).is_none()
}

/// The same by comparing each key with those behind it. It takes no memory; its time grows with the square of the number of
/// tags.
fn is_kept_part_by_part(bytes: &[u8]) -> bool
    ensures { result ≡ is_client_only_text bytes.now }
{
    if bytes.is_empty() {
        return true;
    }
    let mut rest = bytes;
    while let Some(at) = find_byte(rest, b';') {
        let tag = &rest[..at];
        rest = &rest[at + 1..];
        if !is_kept(tag, rest) {
            return false;
        }
    }
    is_client_only_tag(rest)
}

/// What [`write_client_only`] writes of the tags.
fn text_of(alloc: Global, tags: &Tags<'_>) -> Result<Vec<u8>, AllocError>
    ensures { IfOk result (λ text. text.items ≡ client_only_of tags.now) }
{
    let mut text = Vec::new(alloc);
    // A `Vec` refuses bytes only where memory runs out.
    if write_client_only(tags, &mut text).is_err() {
        return Err(AllocError);
    }
    Ok(text)
}

/// The same of the tags of tag data.
#[tactic(auto, using(crate::proofs::ClientTextLemmas::client_only_text_is))]
fn client_only_text(alloc: Global, bytes: &[u8]) -> Result<Vec<u8>, AllocError>
    ensures { IfOk result (λ text. text.items ≡ client_only_text bytes.now) }
{
    match tags_in(alloc, bytes) {
        Ok(tags) => text_of(alloc, &tags),
        Err(error) => Err(error),
    }
}

/// So many bytes are few enough to be looked at without memory.
const FEW_BYTES: usize = 64;

/// Whether tag data has client-only tags alone and stands as [`write_client_only`] writes it: keeping its client-only tags
/// changes nothing. Empty tag data is such. Where memory runs out it takes none, and its time then grows with the square of
/// the number of tags.
pub fn is_client_only_text(alloc: Global, bytes: &[u8]) -> bool
    ensures { result ≡ is_client_only_text bytes.now }
{
    if bytes.len() <= FEW_BYTES {
        return is_kept_part_by_part(bytes);
    }
    match client_only_text(alloc, bytes) {
        Ok(text) => text.as_slice() == bytes,
        Err(_) => is_kept_part_by_part(bytes),
    }
}
