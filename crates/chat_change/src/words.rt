//! Tests of the texts that changes are made of. All but that of tags take no memory, and none needs any.
ghost use Rattle.std.specs.Prelude.{◌≡◌, true};
ghost use Rattle.std.specs.List.{list_any, list_all};
ghost use Rattle.byte_text.specs.Words.{has_length_to};
ghost use Rattle.irc_tags.specs.ClientOnly.{is_client_only_text};
ghost use Rattle.chat_change.specs.Words as spec;

use byte_text::{begins_with, ends_word, has_line_end, has_word_end};
use irc_tags::is_client_only_text;
use std::alloc::Global;

/// The most bytes that the name of an account or of a network has.
pub const NAME_LIMIT: usize = 32;

/// The most bytes that a target has.
pub const TARGET_LIMIT: usize = 200;

/// The most bytes that a message id or a source has.
pub const ID_LIMIT: usize = 255;

/// The most bytes that the tags of a message have: those of a client's line, without `@` and the space behind them
/// (IRCv3 message-tags, "Size limit").
pub const TAGS_LIMIT: usize = 4094;

fn has_length_to(most: usize, text: &[u8]) -> bool
    ensures { result ≡ has_length_to most text.now }
{
    !text.is_empty() && text.len() <= most
}

fn begins_with_colon(text: &[u8]) -> bool
    ensures { result ≡ spec.begins_with_colon text.now }
{
    begins_with(b':', text)
}

/// Whether the text is `*`, which stands for none and is no target.
pub fn is_star(text: &[u8]) -> bool
    ensures { result ≡ spec.is_star text.now }
{
    text.len() == 1 && begins_with(b'*', text)
}

fn ends_target(byte: u8) -> bool
    ensures { result ≡ spec.ends_target byte }
{
    ends_word(byte) || byte == b','
}

fn is_name_byte(byte: u8) -> bool
    ensures { result ≡ spec.is_name_byte byte }
{
    (b'a' <= byte && byte <= b'z') || (b'0' <= byte && byte <= b'9') || byte == b'-' || byte == b'_'
}

fn has_target_end(text: &[u8]) -> bool
    ensures { result ≡ list_any spec.ends_target text.now }
{
    text.iter().any(|byte| ends_target(*byte))
}

fn has_name_bytes_only(text: &[u8]) -> bool
    ensures { result ≡ list_all spec.is_name_byte text.now }
{
    text.iter().all(|byte| is_name_byte(*byte))
}

/// Whether the text is the name of an account or of a network: 1 to 32 bytes of `a-z`, `0-9`, `-` and `_`.
pub fn is_name(text: &[u8]) -> bool
    ensures { result ≡ spec.is_name text.now }
{
    has_length_to(NAME_LIMIT, text) && has_name_bytes_only(text)
}

/// Whether the text is a target, a channel or a nick: 1 to 200 bytes, none of NUL, CR, LF, space and comma, no `:` in
/// front, and not `*` (RFC 1459 and RFC 2812, section 2.3).
pub fn is_target(text: &[u8]) -> bool
    ensures { result ≡ spec.is_target text.now }
{
    has_length_to(TARGET_LIMIT, text)
        && !has_target_end(text)
        && !begins_with_colon(text)
        && !is_star(text)
}

/// Whether the text is a message id (IRCv3 message-ids): 1 to 255 bytes, none of NUL, CR, LF and space, and no `:` in
/// front (RFC 1459 and RFC 2812, section 2.3).
pub fn is_id(text: &[u8]) -> bool
    ensures { result ≡ spec.is_id text.now }
{
    has_length_to(ID_LIMIT, text) && !has_word_end(text) && !begins_with_colon(text)
}

/// Whether the text is a source, who sent a message: the rule of a message id.
pub fn is_source(text: &[u8]) -> bool
    ensures { result ≡ spec.is_source text.now }
{
    is_id(text)
}

/// Whether the text is a body, what a message says: no NUL, CR or LF. It may be empty.
pub fn is_body(text: &[u8]) -> bool
    ensures { result ≡ spec.is_body text.now }
{
    !has_line_end(text)
}

/// Whether the text is the tags of a message (IRCv3 message-tags, "Client-only tags"): 1 to 4094 bytes, none of NUL, CR,
/// LF and space, that spell tags of distinct keys, each with a `+` in front, as they are written: joined by `;`, with an
/// empty value as the bare key, and in other values the five escapes and no others.
pub fn is_tags(alloc: Global, text: &[u8]) -> bool
    ensures { result ≡ spec.is_tags text.now }
{
    has_length_to(TAGS_LIMIT, text) && !has_word_end(text) && is_client_only_text(alloc, text)
}

/// The same of a text that is written of client-only tags, whose length and bytes are looked at alone.
pub fn is_tags_as_written(text: &[u8]) -> bool
    requires { is_client_only_text text.now ≡ true }
    ensures { result ≡ spec.is_tags text.now }
{
    has_length_to(TAGS_LIMIT, text) && !has_word_end(text)
}
