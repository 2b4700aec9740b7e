//! Where the bytes of a message id or of a target lie.
ghost use Rattle.std.specs.Prelude.{◌≡◌, IfOk};
ghost use Rattle.chat_change.specs.CompactText.{bytes_of};
ghost use Rattle.byte_text.specs.Order.{text_cmp};
ghost use Rattle.chat_change.specs.Words.{lower_case_of};

use crate::short_text::ShortText;
use std::alloc::{AllocError, Global};
use std::cmp::Ordering;

/// The most bytes of a text that take no block of their own. Most servers and nodes make ids within it, and few targets
/// are longer.
pub(crate) const SHORT_LIMIT: usize = 30;

/// The bytes of a message id or of a target: those of a short one in the value itself, those of a long one in a block of
/// their own.
#[derive(Drop)]
pub(crate) enum CompactText {
    Short(ShortText<SHORT_LIMIT>),
    Long(Vec<u8>),
}

impl CompactText {
    /// A copy of these bytes. Fails where there is no memory.
    pub(crate) fn new(alloc: Global, text: &[u8]) -> Result<CompactText, AllocError>
        ensures { IfOk result (λ copy. bytes_of copy ≡ text.now) }
    {
        if text.len() <= SHORT_LIMIT {
            Ok(CompactText::Short(ShortText::new(text)))
        } else {
            Ok(CompactText::Long(Vec::from_slice(alloc, text)?))
        }
    }

    /// Folds its letters to lower case.
    pub(crate) fn fold(&mut self)
        ensures { bytes_of self.new ≡ lower_case_of (bytes_of self.old) }
    {
        match self {
            CompactText::Short(text) => text.fold(),
            CompactText::Long(bytes) => bytes.make_ascii_lowercase(),
        }
    }

    /// How two texts compare, byte by byte.
    pub(crate) fn order(&self, other: &CompactText) -> Ordering
        ensures { result ≡ text_cmp (bytes_of self.now) (bytes_of other.now) }
    {
        match (self, other) {
            (CompactText::Short(own), CompactText::Short(others)) => own.order(others),
            _ => self.as_bytes().cmp(other.as_bytes()),
        }
    }

    /// The bytes, lent.
    pub(crate) fn as_bytes(&self) -> &[u8]
        ensures { result.now ≡ bytes_of self.now }
    {
        match self {
            CompactText::Short(text) => text.as_bytes(),
            CompactText::Long(bytes) => bytes,
        }
    }
}
