//! Words of a client that are repeated.
ghost use Rattle.std.specs.Prelude.{◌≡◌, ◌==◌};
ghost use Rattle.std.specs.List.{list_any};
ghost use Rattle.byte_text.specs.Bytes.{space};
ghost use Rattle.irc_reply.specs.Echo as spec;

use byte_text::begins_with;

/// The most bytes of a word that is repeated.
const WORD_LIMIT: usize = 64;

fn has_space(word: &[u8]) -> bool
    ensures { result ≡ list_any (λ b. b == space) word.now }
{
    word.iter().any(|b| *b == b' ')
}

fn can_be_echoed(word: &[u8]) -> bool
    ensures { result ≡ spec.can_be_echoed word.now }
{
    !word.is_empty() && word.len() <= WORD_LIMIT && !begins_with(b':', word) && !has_space(word)
}

/// The word as it is repeated: `*` for one that can't stand as a parameter, or has more than 64 bytes.
pub fn echoed(word: &[u8]) -> &[u8]
    ensures { result.now ≡ spec.echoed word.now }
{
    if can_be_echoed(word) { word } else { b"*" }
}
