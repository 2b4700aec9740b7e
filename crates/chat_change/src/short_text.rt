//! Short texts, whose bytes lie in the value itself.
ghost use Rattle.std.specs.Prelude.{◌≡◌, ◌≤◌, ◌-◌, drop, length};
ghost use Rattle.chat_change.specs.ShortText.{CanBeRoom, IsWordOf};
ghost use Rattle.byte_text.specs.Order.{text_cmp};
ghost use Rattle.chat_change.specs.Words.{lower_case_of};

use std::cmp::Ordering;
use std::marker::Model;

// How many bytes are compared at once. Two such words, of which the second ends with the room, cover it.
const WORD: usize = 16;

/// At most `N` bytes, in the value itself.
#[derive(Drop)]
pub(crate) struct ShortText<const N: usize> {
    length: u8,
    // the bytes of the text, and zeros after them
    bytes: [u8; N],
}

impl<const N: usize> Model for ShortText<N> {
    ghost use Rattle.std.specs.Prelude.{◌≤◌, ℕ, List, take};
    ghost use Rattle.chat_change.specs.ShortText.{CanBeRoom, HasZerosFrom};

    ghost Value = { List ℕ };

    ghost view = { λ t. take t.length t.bytes };

    ghost invariant = { λ t. CanBeRoom N × (t.length ≤ N) × HasZerosFrom t.length t.bytes };
}

// The bytes of a word as one number, the first counting most.
fn number_of(bytes: [u8; WORD]) -> u128
    ensures { IsWordOf bytes result }
{
    u128::from_be_bytes(bytes)
}

impl<const N: usize> ShortText<N> {
    /// A copy of these bytes.
    pub(crate) fn new(text: &[u8]) -> ShortText<N>
        requires room { CanBeRoom N }
        requires fits { length text.now ≤ N }
        ensures { result ≡ text.now }
    {
        let mut bytes = [0; N];
        bytes[..text.len()].copy_from_slice(text);
        ShortText {
            length: text.len() as u8,
            bytes,
        }
    }

    /// An equal text.
    pub(crate) fn copy(&self) -> ShortText<N>
        ensures { result ≡ self.now }
    {
        ShortText {
            length: self.length,
            bytes: self.bytes,
        }
    }

    /// Folds its letters to lower case.
    pub(crate) fn fold(&mut self)
        ensures { self.new ≡ lower_case_of self.old }
    {
        self.bytes.make_ascii_lowercase();
    }

    /// The bytes, lent.
    pub(crate) fn as_bytes(&self) -> &[u8]
        ensures { result.now ≡ self.now }
    {
        &self.bytes[..self.length as usize]
    }

    // The first bytes as one number, the first counting most. Where the text ends before, there are zeros.
    fn first_word(&self) -> u128
        ensures { IsWordOf self.now result }
    {
        match self.bytes.first_chunk::<WORD>() {
            Some(bytes) => number_of(*bytes),
            None => unreachable!(),
        }
    }

    // The same of the last bytes. No byte lies between the two words.
    fn second_word(&self) -> u128
        ensures word { IsWordOf (drop (N - WORD) self.now) result }
        ensures covered { CanBeRoom N }
    {
        match self.bytes.last_chunk::<WORD>() {
            Some(bytes) => number_of(*bytes),
            None => unreachable!(),
        }
    }

    /// How two texts compare, byte by byte. Their words tell, or else their lengths, without a look at each byte.
    pub(crate) fn order(&self, other: &ShortText<N>) -> Ordering
        ensures { result ≡ text_cmp self.now other.now }
    {
        let own = self.first_word();
        let others = other.first_word();
        if own != others {
            return own.cmp(&others);
        }
        let own_second = self.second_word();
        let others_second = other.second_word();
        if own_second != others_second {
            return own_second.cmp(&others_second);
        }
        self.length.cmp(&other.length)
    }
}
