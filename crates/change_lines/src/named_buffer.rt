//! The buffer that a line names.
ghost use Rattle.std.specs.Prelude.{◌≡◌, true, IfOk};
ghost use Rattle.std.specs.Option.{option_map};
ghost use Rattle.std.specs.Map.Iter.{deref};
ghost use Rattle.change_lines.specs.ChangeLine as spec;
ghost use Rattle.change_lines.specs.BufferFields as fields;
ghost use Rattle.change_lines.specs.NamedBuffer.{IsNamed};

use crate::fields::BufferFields;
use chat_change::{Buffer, is_name, is_target, lawful_buffer};
use std::alloc::{AllocError, Global};

fn is_folded_byte(b: u8) -> bool
    ensures { result ≡ spec.is_folded_byte b }
{
    b.to_ascii_lowercase() == b
}

fn is_folded(text: &[u8]) -> bool
    ensures { result ≡ spec.is_folded text.now }
{
    text.iter().all(|b| is_folded_byte(*b))
}

// Whether the names are those of a buffer, with the target folded.
fn is_buffer(b: BufferFields<'_>) -> bool
    ensures { result ≡ spec.is_buffer (fields.value_of b.entry) }
{
    is_name(b.account) && is_name(b.network) && is_target(b.target) && is_folded(b.target)
}

// Whether these are the names of a buffer that is known.
fn is_known(buffer: &Buffer, b: BufferFields<'_>) -> bool
    ensures named { result ≡ true → buffer.now ≡ spec.buffer_named (fields.value_of b.entry) }
    ensures lawful { result ≡ true → spec.is_buffer (fields.value_of b.entry) ≡ true }
{
    buffer.account() == b.account && buffer.network() == b.network && buffer.target() == b.target
}

/// The known buffer, if these are its names.
pub(crate) fn known_buffer<'a>(known: Option<&'a Buffer>, b: BufferFields<'_>) -> Option<&'a Buffer>
    ensures { IsNamed (option_map deref result) (fields.value_of b.entry) }
{
    match known {
        Some(buffer) if is_known(buffer, b) => Some(buffer),
        _ => None,
    }
}

/// Whether the names are those of a buffer, with the target folded. Those of the known one are, without another look at them.
pub(crate) fn names_buffer(known: Option<&Buffer>, b: &BufferFields<'_>) -> bool
    requires { IsNamed (option_map deref known) (fields.value_of b.now) }
    ensures { result ≡ spec.is_buffer (fields.value_of b.now) }
{
    match known {
        Some(_) => true,
        None => is_buffer(*b),
    }
}

/// The buffer of these names: a clone of the known one, if there is one.
pub(crate) fn buffer_for(
    alloc: Global,
    known: Option<&Buffer>,
    b: &BufferFields<'_>,
) -> Result<Buffer, AllocError>
    requires known { IsNamed (option_map deref known) (fields.value_of b.now) }
    requires lawful { spec.is_buffer (fields.value_of b.now) ≡ true }
    ensures { IfOk result (λ buffer. buffer ≡ spec.buffer_named (fields.value_of b.now)) }
{
    match known {
        Some(buffer) => buffer.try_clone(),
        None => lawful_buffer(alloc, b.account, b.network, b.target),
    }
}
