//! The head of a block: its gate, the length of its payload, and CR LF.
ghost use Rattle.std.specs.Prelude.{◌≡◌, ◌≤◌, ◌++◌, length, IfSome, IsNone};
ghost use Rattle.block_file.specs.Blocks as spec;
ghost use Rattle.block_file.specs.Decode as decode;

/// The greatest length of a payload.
pub const MOST: usize = 99_999_999;

/// How much longer a block is than its payload.
pub(crate) const HEAD: usize = 11;

fn digit(n: usize) -> u8
    ensures { result ≡ spec.digit n }
{
    b'0' + (n % 10) as u8
}

/// What stands between the gate and the payload.
pub(crate) fn head(n: usize) -> [u8; 10]
    ensures { result ≡ spec.head n }
{
    let a = n / 10;
    let b = a / 10;
    let c = b / 10;
    let d = c / 10;
    let e = d / 10;
    let f = e / 10;
    let g = f / 10;
    [
        digit(g),
        digit(f),
        digit(e),
        digit(d),
        digit(c),
        digit(b),
        digit(a),
        digit(n),
        13,
        10,
    ]
}

// The value of a digit, and a small number of any other byte.
fn value(digit: u8) -> usize
    ensures value { result ≡ decode.value digit }
    ensures small { result ≤ 207 }
{
    digit.saturating_sub(b'0') as usize
}

// The number that eight digits spell, and some number of other bytes.
fn number(digits: &[u8; 8]) -> usize
    ensures { result ≡ decode.number digits.now }
{
    let [g, f, e, d, c, b, a, n] = *digits;
    let high = ((value(g) * 10 + value(f)) * 10 + value(e)) * 10 + value(d);
    (((high * 10 + value(c)) * 10 + value(b)) * 10 + value(a)) * 10 + value(n)
}

/// The payload of the whole open block that begins the bytes, if one does, and what stands behind it.
pub(crate) fn first_block(bytes: &[u8]) -> Option<(&[u8], &[u8])>
    ensures block { IfSome result (λ found. bytes.now ≡ spec.block found.0.now ++ found.1.now) }
    ensures size { IfSome result (λ found. length found.0.now ≤ spec.most) }
    ensures none { IsNone result → spec.IsNoBlock bytes.now }
{
    let [gate, g, f, e, d, c, b, a, n, cr, lf, rest @ ..] = bytes else {
        return None;
    };
    let length = number(&[*g, *f, *e, *d, *c, *b, *a, *n]);
    if length > MOST || rest.len() < length {
        return None;
    }
    let found = [*g, *f, *e, *d, *c, *b, *a, *n, *cr, *lf];
    if *gate != b'+' || found != head(length) {
        return None;
    }
    Some((&rest[..length], &rest[length..]))
}
