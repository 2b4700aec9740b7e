//! Lists of effects.
ghost use Rattle.std.specs.Prelude.{◌≡◌, ◌++◌, ◌∷◌, [], IfOk};
ghost use Rattle.upstream_session.specs.declared.effect.UpEffect.TheVariants as effects;

use crate::effect::UpEffect;
use byte_text::{NoMemory, Text};
use std::alloc::{AllocError, Global};

fn list_of(alloc: Global, effect: UpEffect) -> Result<Vec<UpEffect>, AllocError>
    ensures { IfOk result (λ list. list.items ≡ effect ∷ []) }
{
    let mut list = Vec::new(alloc);
    list.push(effect)?;
    Ok(list)
}

/// One effect.
pub(crate) fn one(alloc: Global, effect: UpEffect) -> Result<Vec<UpEffect>, NoMemory>
    ensures { IfOk result (λ list. list.items ≡ effect ∷ []) }
{
    let list = list_of(alloc, effect)?;
    Ok(list)
}

fn push_effect(list: &mut Vec<UpEffect>, effect: UpEffect) -> Result<(), AllocError>
    ensures { IfOk result (λ _. list.new.items ≡ list.old.items ++ effect ∷ []) }
{
    list.push(effect)?;
    Ok(())
}

/// One effect more.
pub(crate) fn push(list: &mut Vec<UpEffect>, effect: UpEffect) -> Result<(), NoMemory>
    ensures { IfOk result (λ _. list.new.items ≡ list.old.items ++ effect ∷ []) }
{
    push_effect(list, effect)?;
    Ok(())
}

/// One line to the server.
pub(crate) fn send(alloc: Global, text: Text) -> Result<Vec<UpEffect>, NoMemory>
    ensures { IfOk result (λ list. list.items ≡ effects.Send text ∷ []) }
{
    one(alloc, UpEffect::Send(text))
}
