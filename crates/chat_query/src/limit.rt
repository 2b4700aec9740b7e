//! How many records a client asks for at most.
ghost use Rattle.std.specs.Prelude.{◌≡◌, true, min};
ghost use Rattle.std.specs.List.{list_all};
ghost use Rattle.byte_text.specs.Number.{is_digit, value};
ghost use Rattle.chat_query.specs.Limit as spec;

use byte_text::is_digits;

/// The value of the digits, or the greatest number where it is above that.
fn decimal_value(text: &[u8]) -> usize
    requires { list_all is_digit text.now ≡ true }
    ensures { result ≡ min usize.MAX (value text.now) }
{
    let mut n = 0usize;
    'digits: for byte in text {
        n = n.saturating_mul(10).saturating_add((*byte - b'0') as usize);
    }
    n
}

/// The limit that a text spells: one or more digits of a value above 0. One of more than a number has room for counts as
/// the greatest number.
pub(crate) fn read_limit(text: &[u8]) -> Option<usize>
    ensures { result ≡ spec.limit_of text.now }
{
    if !is_digits(text) {
        return None;
    }
    let n = decimal_value(text);
    if n > 0 { Some(n) } else { None }
}
