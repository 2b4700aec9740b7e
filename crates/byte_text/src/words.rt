//! Words of a line, which a space ends.
ghost use Rattle.std.specs.Prelude.{◌≡◌, ◌≤◌, ◌*◌, length, not, take};
ghost use Rattle.std.specs.List.{list_any};
ghost use Rattle.byte_text.specs.Bytes as bytes;
ghost use Rattle.byte_text.specs.Words as spec;

use crate::search::{LANES, begins_without};

fn ends_line(byte: u8) -> bool
    ensures { result ≡ bytes.ends_line byte }
{
    byte == 0 || byte == b'\n' || byte == b'\r'
}

/// Whether the byte is NUL, LF, CR or a space, which stand in no word of a line.
pub fn ends_word(byte: u8) -> bool
    ensures { result ≡ spec.ends_word byte }
{
    ends_line(byte) || byte == b' '
}

// Whether none of the first bytes ends a word.
fn begins_within_word(text: &[u8]) -> bool
    requires { LANES ≤ length text.now }
    ensures { result ≡ not (list_any spec.ends_word (take LANES text.now)) }
{
    begins_without(text, 0)
        & begins_without(text, b'\n')
        & begins_without(text, b'\r')
        & begins_without(text, b' ')
}

// Whether no byte ends a word, where two looks, which overlap, see all of them.
fn is_within_word(text: &[u8]) -> bool
    requires long { LANES ≤ length text.now }
    requires short { length text.now ≤ 2 * LANES }
    ensures { result ≡ not (list_any spec.ends_word text.now) }
{
    begins_within_word(text) & begins_within_word(&text[text.len() - LANES..])
}

/// Whether NUL, LF, CR or a space stands in the text. Texts of 16 to 32 bytes are seen by two looks.
pub fn has_word_end(text: &[u8]) -> bool
    ensures { result ≡ list_any spec.ends_word text.now }
{
    if text.len() < LANES || text.len() > 2 * LANES {
        return text.iter().any(|byte| ends_word(*byte));
    }
    !is_within_word(text)
}
