//! What stands behind the last whole block of a file: the end of an append that was cut short, or damage.
ghost use Rattle.std.specs.Prelude.{◌≡◌, true, false, drop};
ghost use Rattle.block_file.specs.Ending.{HasNoLaterBlock, IsFinished, IsTornEnd};

use crate::head::{HEAD, MOST, first_block};

// Whether behind none of the line ends in these bytes a whole open block begins.
fn has_no_later_block(bytes: &[u8]) -> bool
    ensures none { result ≡ true → HasNoLaterBlock bytes.now }
    ensures some { result ≡ false → HasNoLaterBlock bytes.now → ⊥ }
{
    let mut rest = bytes;
    while let Some((byte, after)) = rest.split_first() {
        if *byte == b'\n' && first_block(after).is_some() {
            return false;
        }
        rest = after;
    }
    true
}

// The bytes behind the first.
fn behind_first(bytes: &[u8]) -> &[u8]
    ensures { result.now ≡ drop 1 bytes.now }
{
    match bytes {
        [_, after @ ..] => after,
        [] => &[],
    }
}

// Whether an open gate begins the bytes, and a line's end and a closed gate end them.
fn is_finished(end: &[u8]) -> bool
    ensures yes { result ≡ true → IsFinished end.now }
    ensures no { result ≡ false → IsFinished end.now → ⊥ }
{
    matches!(end, [b'+', .., b'\r', b'\n', b'-'])
}

/// Whether an append that was cut short may have left these bytes behind the last whole block. Anything else is damage: a
/// block whose head was changed, or bytes that no append wrote.
pub fn is_torn_end(end: &[u8]) -> bool
    ensures torn { result ≡ true → IsTornEnd end.now }
    ensures damage { result ≡ false → IsTornEnd end.now → ⊥ }
{
    end.len() <= HEAD + MOST + 1
        && !is_finished(end)
        && first_block(behind_first(end)).is_none()
        && has_no_later_block(end)
}
