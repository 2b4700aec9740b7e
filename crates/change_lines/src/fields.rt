//! The words of a line that spells a change, up to the names of its buffer.
ghost use Rattle.std.specs.Prelude.{◌≡◌};
ghost use Rattle.change_lines.specs.ChangeLine as spec;
ghost use Rattle.change_lines.specs.BufferFields as fields;

use crate::words::{is_filled, is_text, split_word};

/// What a change in a buffer does, which the second word of its line says.
#[derive(Clone, Copy)]
pub(crate) enum ChangeKind {
    /// A post without tags.
    Post,
    /// A post with tags.
    TaggedPost,
    Redact,
    Mark,
    Floor,
}

/// The names of a buffer, and what stands behind them.
#[derive(Clone, Copy)]
pub(crate) struct BufferFields<'a> {
    pub(crate) account: &'a [u8],
    pub(crate) network: &'a [u8],
    pub(crate) target: &'a [u8],
    pub(crate) rest: &'a [u8],
}

/// The kind of change that a word says.
pub(crate) fn change_kind(word: &[u8]) -> Option<ChangeKind>
    ensures { result ≡ spec.change_kind word.now }
{
    if is_text(word, b"POST") {
        Some(ChangeKind::Post)
    } else if is_text(word, b"TPOST") {
        Some(ChangeKind::TaggedPost)
    } else if is_text(word, b"REDACT") {
        Some(ChangeKind::Redact)
    } else if is_text(word, b"MARK") {
        Some(ChangeKind::Mark)
    } else if is_text(word, b"FLOOR") {
        Some(ChangeKind::Floor)
    } else {
        None
    }
}

pub(crate) fn buffer_fields<'a>(bytes: &'a [u8]) -> BufferFields<'a>
    ensures { fields.value_of result ≡ spec.buffer_fields bytes.now }
{
    let (account, rest) = split_word(bytes);
    let (network, rest) = split_word(rest);
    let (target, rest) = split_word(rest);
    BufferFields {
        account,
        network,
        target,
        rest,
    }
}

pub(crate) fn has_names(b: BufferFields<'_>) -> bool
    ensures { result ≡ spec.has_names (fields.value_of b.entry) }
{
    is_filled(b.account) && is_filled(b.network) && is_filled(b.target)
}
