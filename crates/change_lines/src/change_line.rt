//! Reading the line of a change.
ghost use Rattle.std.specs.Prelude.{◌≡◌, Ok, IfOk, IfErr};
ghost use Rattle.change_lines.specs.ChangeLine as spec;

use crate::fault::ChangeLineFault;
use crate::reading::read_kind;
use crate::words::{is_text, split_word};
use chat_change::{Buffer, Change};
use std::alloc::Global;

/// The change that a line spells. The line stands without its ending.
///
/// Fields stand exactly one space apart, numbers have no leading zeros, and the target of the buffer stands folded, so
/// that a change has one line ([`changes_have_one_spelling`](crate::laws::changes_have_one_spelling)). The form of the
/// line is checked before its fields, and [`ChangeLineFault::NoMemory`] comes only of a line that spells a change.
pub fn read_change(alloc: Global, line: &[u8]) -> Result<Change, ChangeLineFault>
    ensures made { IfOk result (λ change. spec.read_change line.now ≡ Ok change) }
    ensures refused { IfErr result
        (λ fault. fault ≡ spec.fault_or_no_memory (spec.read_change line.now)) }
{
    read_change_in(alloc, None, line)
}

/// The same, with a buffer that is known already. A line of that buffer gets a clone of it, which shares its memory; of
/// every other line the change is made anew. What is answered doesn't depend on it.
#[tactic(auto, unfolding(crate::specs::ChangeLine::read_change))]
pub fn read_change_in(
    alloc: Global,
    known: Option<&Buffer>,
    line: &[u8],
) -> Result<Change, ChangeLineFault>
    ensures made { IfOk result (λ change. spec.read_change line.now ≡ Ok change) }
    ensures refused { IfErr result
        (λ fault. fault ≡ spec.fault_or_no_memory (spec.read_change line.now)) }
{
    let (first, rest) = split_word(line);
    let (kind, rest) = split_word(rest);
    if is_text(first, b"C") {
        read_kind(alloc, known, kind, rest)
    } else {
        Err(ChangeLineFault::BadForm)
    }
}
