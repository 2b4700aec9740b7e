//! Decimal numbers as texts.
ghost use Rattle.std.specs.Prelude.{◌≡◌, ◌-◌, ◌<◌, ◌≤◌, ◌^◌, length, true, SomeIff};
ghost use Rattle.std.specs.List.{list_all};
ghost use Rattle.byte_text.specs.Number as spec;

fn is_digit(b: u8) -> bool
    ensures { result ≡ spec.is_digit b }
{
    b'0' <= b && b <= b'9'
}

/// Whether every byte is a decimal digit.
pub fn has_digits_only(text: &[u8]) -> bool
    ensures { result ≡ list_all spec.is_digit text.now }
{
    text.iter().all(|b| is_digit(*b))
}

/// Whether the text is one or more decimal digits.
pub fn is_digits(text: &[u8]) -> bool
    ensures { result ≡ spec.is_digits text.now }
{
    !text.is_empty() && has_digits_only(text)
}

fn has_leading_zero(text: &[u8]) -> bool
    ensures { result ≡ spec.has_leading_zero text.now }
{
    text.len() > 1 && text[0] == b'0'
}

// What a digit counts.
fn digit_value(b: u8) -> u64
    ensures { result ≡ b - 48 }
{
    b.saturating_sub(b'0') as u64
}

// So many digits have a value below 2^64.
const FEW: usize = 19;

// The value of few digits.
fn short_decimal_value(text: &[u8]) -> u64
    requires few { length text.now ≤ FEW }
    requires digits { list_all spec.is_digit text.now ≡ true }
    ensures { result ≡ spec.value text.now }
{
    let mut n = 0u64;
    'digits: for b in text {
        n = n * 10 + (*b - b'0') as u64;
    }
    n
}

// The value of digits, where it is below 2^64.
fn decimal_value(text: &[u8]) -> Option<u64>
    requires { list_all spec.is_digit text.now ≡ true }
    ensures { SomeIff result (spec.value text.now < 2 ^ 64) (spec.value text.now) }
{
    if text.len() <= FEW {
        return Some(short_decimal_value(text));
    }
    let mut n = 0u64;
    'digits: for b in text {
        n = n.checked_mul(10)?.checked_add(digit_value(*b))?;
    }
    Some(n)
}

/// The number up to `most` that the text spells: one or more decimal digits without a leading zero (`0` itself is
/// allowed). None of every other text.
#[tactic(auto, unfolding(crate::specs::Number::number_to))]
pub fn number_to(most: u64, text: &[u8]) -> Option<u64>
    ensures { result ≡ spec.number_to most text.now }
{
    if !is_digits(text) || has_leading_zero(text) {
        return None;
    }
    let n = decimal_value(text)?;
    if n <= most { Some(n) } else { None }
}
