//! MARKREAD of a registered session (IRCv3 draft/read-marker).
ghost use Rattle.std.specs.Prelude.{◌≡◌, ◌∷◌, [], ◌++◌, map, IfOk, Some, true};
ghost use Rattle.chat_change.specs.Buffer.{buffer_of};
ghost use Rattle.chat_change.specs.declared.change.Change.TheVariants as changes;
ghost use Rattle.chat_query.specs.Buffers.{has_buffer};
ghost use Rattle.client_session.specs.Registered as spec;
ghost use Rattle.client_session.specs.declared.effect.Effect.TheVariants as effects;

use crate::effect::Effect;
use crate::registered::unknown_command;
use crate::shared::{one, push};
use byte_text::{NoMemory, Text};
use chat_change::{Change, Moment};
use chat_query::{Facts, read_moment};
use std::alloc::Global;

fn mark(alloc: Global, facts: &Facts, target: &[u8], at: Moment) -> Result<Vec<Effect>, NoMemory>
    requires { has_buffer facts.now target.now ≡ true }
    ensures { IfOk result (λ list. list.items ≡ effects.Put
        (changes.Mark (buffer_of facts.now.account facts.now.network target.now) at) ∷ []) }
{
    let buffer = facts.buffer(alloc, target)?;
    one(alloc, Effect::Put(Change::Mark { buffer, at }))
}

fn marker_put(
    alloc: Global,
    facts: &Facts,
    target: &[u8],
    at: Moment,
) -> Result<Vec<Effect>, NoMemory>
    ensures { IfOk result (λ list. list.items ≡ spec.marker_put facts.now target.now (Some at)) }
{
    if facts.has_buffer(target) {
        mark(alloc, facts, target, at)
    } else {
        Ok(Vec::new(alloc))
    }
}

fn markread_put(alloc: Global, facts: &Facts, parameters: &[&[u8]]) -> Result<Vec<Effect>, NoMemory>
    ensures { IfOk result (λ list. list.items
        ≡ spec.markread_put facts.now (map (λ p. p.now) parameters.now)) }
{
    match parameters {
        [target, word, ..] => match read_moment(word) {
            None => Ok(Vec::new(alloc)),
            Some(at) => marker_put(alloc, facts, target, at),
        },
        _ => Ok(Vec::new(alloc)),
    }
}

fn put_and_ask(
    alloc: Global,
    facts: &Facts,
    bytes: &[u8],
    parameters: &[&[u8]],
) -> Result<Vec<Effect>, NoMemory>
    ensures { IfOk result (λ list. list.items ≡ spec.markread_put facts.now
        (map (λ p. p.now) parameters.now) ++ effects.Ask bytes.now ∷ []) }
{
    let mut list = markread_put(alloc, facts, parameters)?;
    let line = Text::new(alloc, bytes)?;
    push(&mut list, Effect::Ask(line))?;
    Ok(list)
}

/// MARKREAD: the marker where there is one, and then the question, as it came.
pub(crate) fn markread(
    alloc: Global,
    facts: &Facts,
    bytes: &[u8],
    parameters: &[&[u8]],
) -> Result<Vec<Effect>, NoMemory>
    ensures { IfOk result (λ list. list.items
        ≡ spec.markread facts.now bytes.now (map (λ p. p.now) parameters.now)) }
{
    if facts.caps.read_marker {
        put_and_ask(alloc, facts, bytes, parameters)
    } else {
        unknown_command(alloc, facts, b"MARKREAD")
    }
}
