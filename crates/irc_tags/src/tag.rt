//! One tag of tag data (IRCv3 message-tags, "Format").
ghost use Rattle.std.specs.Prelude.{◌≡◌};
ghost use Rattle.std.specs.List.{before_first, after_first};
ghost use Rattle.irc_tags.specs.Standing.{is_client_only};
ghost use Rattle.irc_tags.specs.TagList.{is_equals};

use byte_text::find_byte;

/// Whether a key begins with `+`.
pub(crate) fn is_client_only(key: &[u8]) -> bool
    ensures { result ≡ is_client_only key.now }
{
    match key {
        [first, ..] => *first == b'+',
        [] => false,
    }
}

/// What stands before the first `=`, and what stands behind it.
pub(crate) fn cut_tag(tag: &[u8]) -> (&[u8], &[u8])
    ensures key { result.0.now ≡ before_first is_equals tag.now }
    ensures value { result.1.now ≡ after_first is_equals tag.now }
{
    match find_byte(tag, b'=') {
        Some(at) => (&tag[..at], &tag[at + 1..]),
        None => (tag, &tag[tag.len()..]),
    }
}
