//! The list of tags, and reading it.
ghost use Rattle.std.specs.Prelude.{◌≡◌, ◌<◌, ◌↔◌, false, length, slice_get, Some, IfOk, OnOk, IsErrOf, IsTrue};
ghost use Rattle.std.specs.Cow.{cow_slice_items};
ghost use Rattle.std.specs.Option.{option_copied, option_map};
ghost use Rattle.irc_tags.specs.TagList.{Tag, max_tag_data, tag_list, value_at};
ghost use Rattle.irc_tags.specs.Entries.{value_of, PutsTag};
ghost use Rattle.irc_tags.specs.Standing.{CanStand};
ghost use Rattle.irc_tags.specs.Value.{value_in, IsPlain};

use crate::tag::cut_tag;
use crate::value::read_value;
use byte_text::find_byte;
use indexmap::IndexMap;
use std::alloc::{AllocError, Global};
use std::borrow::CowSlice;
use std::marker::Model;
use thiserror::Error;

/// The greatest length of tag data in bytes, without `@` and the space behind it (IRCv3 message-tags, "Size limit").
pub const MAX_TAG_DATA: usize = 8189;

/// Why tag data was not read.
#[derive(Clone, Copy, Debug, PartialEq, Eq, Error)]
pub enum TagFault {
    /// The tag data has more than 8189 bytes.
    #[error("the tag data has more than 8189 bytes")]
    TooLong,
    /// Memory ran out.
    #[error("out of memory")]
    NoMemory,
}

/// The tags of a line (IRCv3 message-tags): their keys in the order of their first places, each with its value. No
/// two keys are equal, and each has at least one byte. Keys and values are bytes, without the escapes of values. Keys, and
/// values without escapes, are lent by the line.
#[derive(Drop)]
pub struct Tags<'a> {
    by_key: IndexMap<&'a [u8], CowSlice<'a, u8>>,
}

impl<'a> Model for Tags<'a> {
    ghost use Rattle.std.specs.Prelude.{List};
    ghost use Rattle.irc_tags.specs.Entries.{value_of};
    ghost use Rattle.irc_tags.specs.Standing.{CanStand};
    ghost use Rattle.irc_tags.specs.TagList.{Tag};

    ghost Value = { List Tag };

    ghost view = { λ t. value_of t.by_key.entries };

    ghost invariant = { λ t. CanStand (value_of t.by_key.entries) };
}

impl<'a> Tags<'a> {
    /// How many tags there are. Their keys are distinct, and each may stand as a key.
    pub fn len(&self) -> usize
        ensures len { result ≡ length self.now }
        ensures keys { CanStand self.now }
    {
        self.by_key.len()
    }

    /// Whether there are no tags.
    pub fn is_empty(&self) -> bool
        ensures { IsTrue result ↔ (length self.now ≡ 0) }
    {
        self.by_key.is_empty()
    }

    /// The value of a key, byte for byte, or `None` where no tag has that key. The value of a bare key is empty.
    pub fn get(&self, key: &[u8]) -> Option<&[u8]>
        ensures { option_copied result ≡ value_at key.now self.now }
    {
        match self.by_key.get(key) {
            Some(value) => Some(value.as_slice()),
            None => None,
        }
    }

    /// The key and the value at an index, by the order of the tags.
    pub fn entry(&self, index: usize) -> (&[u8], &[u8])
        requires { index < length self.now }
        ensures { slice_get self.now index ≡ Some (result.0.now, result.1.now) }
    {
        let (key, value) = self.by_key.get_index(index).unwrap();
        (*key, value.as_slice())
    }
}

/// Whether a backslash is among the bytes.
fn has_backslash(bytes: &[u8]) -> bool
    ensures { result ≡ false → IsPlain bytes.now }
{
    match find_byte(bytes, b'\\') {
        Some(_) => true,
        None => false,
    }
}

/// The value that the bytes spell. Where there is no backslash, they are the value themselves.
fn unescaped(alloc: Global, bytes: &[u8], has_escapes: bool) -> Result<CowSlice<'_, u8>, AllocError>
    requires { has_escapes ≡ false → IsPlain bytes.now }
    ensures { IfOk result (λ value. cow_slice_items value ≡ value_in bytes.now) }
{
    if has_escapes {
        let value = read_value(alloc, bytes)?;
        Ok(CowSlice::Owned(value))
    } else {
        Ok(CowSlice::Borrowed(bytes))
    }
}

/// Puts a tag into the map, unless its key is empty.
fn put_tag<'a>(
    alloc: Global,
    by_key: &mut IndexMap<&'a [u8], CowSlice<'a, u8>>,
    tag: &'a [u8],
    has_escapes: bool,
) -> Result<(), AllocError>
    requires { has_escapes ≡ false → IsPlain tag.now }
    ensures { OnOk result (PutsTag by_key.old.entries by_key.new.entries tag.now) }
{
    let (key, value) = cut_tag(tag);
    if key.is_empty() {
        return Ok(());
    }
    let value = unescaped(alloc, value, has_escapes)?;
    by_key.insert(key, value)?;
    Ok(())
}

/// A map has room for so many tags from the beginning.
const FEW_TAGS: usize = 7;

/// The map of all the tags.
fn read_map(alloc: Global, bytes: &[u8]) -> Result<IndexMap<&[u8], CowSlice<'_, u8>>, AllocError>
    ensures { IfOk result (λ by_key. value_of by_key.entries ≡ tag_list bytes.now) }
{
    let mut by_key = IndexMap::with_capacity(alloc, FEW_TAGS)?;
    let has_escapes = has_backslash(bytes);
    let mut rest = bytes;
    while let Some(at) = find_byte(rest, b';') {
        put_tag(alloc, &mut by_key, &rest[..at], has_escapes)?;
        rest = &rest[at + 1..];
    }
    put_tag(alloc, &mut by_key, rest, has_escapes)?;
    Ok(by_key)
}

/// The tags of tag data of any length.
pub(crate) fn tags_in(alloc: Global, bytes: &[u8]) -> Result<Tags<'_>, AllocError>
    ensures { IfOk result (λ tags. tags ≡ tag_list bytes.now) }
{
    match read_map(alloc, bytes) {
        Ok(by_key) => Ok(Tags { by_key }),
        Err(_) => Err(AllocError),
    }
}

/// Reads tag data, which is what stands between `@` and the space behind the tags (IRCv3 message-tags, "Format").
/// Of equal keys the last value counts, and the key keeps its first place; a tag with an empty key is skipped; a key
/// without `=` has the empty value. No byte is refused: more than 8189 bytes are `TooLong`, whatever they are, and
/// anything else is read, or `NoMemory` where memory runs out.
pub fn read_tags(alloc: Global, bytes: &[u8]) -> Result<Tags<'_>, TagFault>
    ensures ok { IfOk result (λ tags. tags ≡ tag_list bytes.now) }
    ensures too_long { IsErrOf result TagFault.TooLong ↔ (max_tag_data < length bytes.now) }
{
    if bytes.len() > MAX_TAG_DATA {
        return Err(TagFault::TooLong);
    }
    match tags_in(alloc, bytes) {
        Ok(tags) => Ok(tags),
        Err(_) => Err(TagFault::NoMemory),
    }
}

/// The tags of a line, of any length, or `None` where it has none. It fails where memory runs out.
pub fn line_tags(alloc: Global, line: Option<&[u8]>) -> Result<Option<Tags<'_>>, AllocError>
    ensures { IfOk result (λ tags. tags ≡ option_map tag_list (option_copied line.entry)) }
{
    match line {
        None => Ok(None),
        Some(bytes) => match tags_in(alloc, bytes) {
            Ok(tags) => Ok(Some(tags)),
            Err(error) => Err(error),
        },
    }
}
