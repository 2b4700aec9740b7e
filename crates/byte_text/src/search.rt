//! Searches for a byte: at the beginning, anywhere, by the vectors of `bstr`, and among the first bytes by one look.
ghost use Rattle.std.specs.Prelude.{◌≡◌, ◌<◌, ◌≤◌, ◌==◌, length, not, position, take, IfSome};
ghost use Rattle.std.specs.List.{list_any, position_or_len};
ghost use Rattle.byte_text.specs.Bytes as spec;

use bstr::ByteSlice;
use memchr::memchr3;
use std::simd::prelude::*;

/// Whether the first byte is that one.
pub fn begins_with(byte: u8, text: &[u8]) -> bool
    ensures { result ≡ spec.begins_with byte text.now }
{
    !text.is_empty() && text[0] == byte
}

/// Whether NUL, LF or CR stands in it, which stand in no line.
pub fn has_line_end(text: &[u8]) -> bool
    ensures { result ≡ list_any spec.ends_line text.now }
{
    memchr3(0, b'\n', b'\r', text).is_some()
}

/// So many bytes are looked at at once.
pub const LANES: usize = 16;

/// Whether none of the first [`LANES`] bytes is that one.
pub fn begins_without(bytes: &[u8], byte: u8) -> bool
    requires { LANES ≤ length bytes.now }
    ensures { result ≡ not (list_any (λ b. b == byte) (take LANES bytes.now)) }
{
    let found = u8x16::from_slice(bytes)
        .simd_eq(u8x16::splat(byte))
        .to_bitmask();
    found == 0
}

// The index of the first byte of that value among the first [`LANES`], or that number where it isn't among them.
fn place_near(bytes: &[u8], byte: u8) -> usize
    requires { LANES ≤ length bytes.now }
    ensures { result ≡ position_or_len (λ b. b == byte) (take LANES bytes.now) }
{
    let found = u8x16::from_slice(bytes)
        .simd_eq(u8x16::splat(byte))
        .to_bitmask();
    if found == 0 {
        LANES
    } else {
        found.trailing_zeros() as usize
    }
}

/// The index of the first byte of that value. Mostly it is near, and one look finds it.
#[inline]
pub fn find_byte(bytes: &[u8], byte: u8) -> Option<usize>
    ensures place { result ≡ position (λ b. b == byte) bytes.now }
    ensures within { IfSome result (λ at. at < length bytes.now) }
{
    if bytes.len() < LANES {
        return find_in_few(bytes, byte);
    }
    let at = place_near(bytes, byte);
    if at < LANES {
        return Some(at);
    }
    find_by_vectors(bytes, byte)
}

// The same of a few bytes.
#[inline]
fn find_in_few(bytes: &[u8], byte: u8) -> Option<usize>
    ensures place { result ≡ position (λ b. b == byte) bytes.now }
    ensures within { IfSome result (λ at. at < length bytes.now) }
{
    match bytes {
        [] => None,
        [only] => (*only == byte).then_some(0),
        _ => find_by_vectors(bytes, byte),
    }
}

// It stands apart, since a search by vectors takes its time to begin.
#[inline(never)]
fn find_by_vectors(bytes: &[u8], byte: u8) -> Option<usize>
    ensures place { result ≡ position (λ b. b == byte) bytes.now }
    ensures within { IfSome result (λ at. at < length bytes.now) }
{
    bytes.find_byte(byte)
}
