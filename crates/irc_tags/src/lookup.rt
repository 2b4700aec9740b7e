//! Looking up a tag in tag data as it stands.
ghost use Rattle.std.specs.Prelude.{◌≡◌};
ghost use Rattle.std.specs.Option.{option_copied, option_map};
ghost use Rattle.irc_tags.specs.Entries.{found_in};
ghost use Rattle.irc_tags.specs.TagList.{tag_of, tag_list, value_at};
ghost use Rattle.irc_tags.specs.Value.{value_in};

use crate::tag::cut_tag;
use byte_text::find_byte;

/// The value of a tag, as it is spelled, if the tag has that key; else what was found before. No tag has the empty key.
fn value_if<'a>(tag: (&[u8], &'a [u8]), key: &[u8], found: Option<&'a [u8]>) -> Option<&'a [u8]>
    ensures { option_map value_in (option_copied result)
        ≡ found_in key.now (option_map value_in (option_copied found.entry))
        (tag.entry.0.now, value_in tag.entry.1.now) }
{
    let (tag_key, value) = tag;
    if !tag_key.is_empty() && tag_key == key {
        Some(value)
    } else {
        found
    }
}

/// The same of a tag that isn't cut yet.
fn found_in<'a>(tag: &'a [u8], key: &[u8], found: Option<&'a [u8]>) -> Option<&'a [u8]>
    ensures { option_map value_in (option_copied result)
        ≡ found_in key.now (option_map value_in (option_copied found.entry)) (tag_of tag.now) }
{
    value_if(cut_tag(tag), key, found)
}

/// The value of a key as it is spelled. Of equal keys the last counts.
pub(crate) fn find_spelled<'a>(bytes: &'a [u8], key: &[u8]) -> Option<&'a [u8]>
    ensures { option_map value_in (option_copied result)
        ≡ value_at key.now (tag_list bytes.now) }
{
    let mut found = None;
    let mut rest = bytes;
    while let Some(at) = find_byte(rest, b';') {
        found = found_in(&rest[..at], key, found);
        rest = &rest[at + 1..];
    }
    found_in(rest, key, found)
}
