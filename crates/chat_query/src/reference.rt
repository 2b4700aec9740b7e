//! References of batches (IRCv3 batch).
ghost use Rattle.std.specs.Prelude.{◌≡◌, IfOk, string_bytes};
ghost use Rattle.chat_query.specs.Reference as spec;

use crate::facts::Answered;
use std::alloc::{AllocError, Global};

/// The reference of the batch of that number.
pub fn reference_text(alloc: Global, n: u32) -> Result<String, AllocError>
    ensures { IfOk result (λ text. string_bytes text ≡ spec.reference_text n) }
{
    format!(in alloc; "r{n}")
}

/// The number that follows in a session's batches.
fn after_reference(n: u32) -> u32
    ensures { result ≡ spec.after_reference n }
{
    if n == u32::MAX { 1 } else { n + 1 }
}

/// The number of a session's next batch behind an answer. Only an answer that opened a batch uses up a number; after
/// 4294967295 comes 1.
pub fn next_reference(reference: u32, answered: Answered) -> u32
    ensures { result ≡ spec.after_answer answered reference }
{
    match answered {
        Answered::Batch => after_reference(reference),
        Answered::Plain => reference,
        Answered::NotAQuery => reference,
    }
}
