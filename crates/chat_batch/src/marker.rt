//! Answers to MARKREAD (IRCv3 draft/read-marker).
ghost use Rattle.std.specs.Prelude.{◌≡◌, map, IfOk};
ghost use Rattle.chat_query.specs.Buffers.{has_buffer};
ghost use Rattle.chat_query.specs.Answers as spec;
ghost use Rattle.chat_batch.specs.WritesAnswer.{WritesAnswer, WritesAnswerFrom, IsUnwritten};

use crate::answers::{AnswerFault, write_incapable};
use crate::refusal::refuse;
use byte_text::NoMemory;
use chat_change::Moment;
use chat_page::read_moment;
use chat_query::{Answered, Facts};
use chat_state::State;
use irc_reply::{Context, write_mark};
use std::alloc::Global;
use std::io::Write;

/// Whether the parameters behind a target ask for its marker, or set it.
fn asks_or_sets(parameters: &[&[u8]]) -> bool
    ensures { result ≡ spec.asks_or_sets (map (λ p. p.now) parameters.now) }
{
    match parameters {
        [] => true,
        [word, ..] => read_moment(word).is_some(),
    }
}

/// Refuses a MARKREAD line.
fn refuse_marker<W: Write>(
    facts: &Facts,
    code: &[u8],
    reason: &[u8],
    writer: &mut W,
) -> Result<Answered, AnswerFault>
    ensures text { WritesAnswer W.contents writer.old writer.new result
        (spec.marker_refusal facts.now code.now reason.now) }
    ensures memory { IsUnwritten result writer.old writer.new }
{
    refuse(facts, b"MARKREAD", code, Context::Nothing, reason, writer)
}

/// The marker of a target.
fn marker_of(
    alloc: Global,
    state: &State,
    facts: &Facts,
    given: &[u8],
) -> Result<Option<Moment>, NoMemory>
    requires { has_buffer facts.now given.now ≡ true }
    ensures { (changes : List Change) → state.now.history ≡ norm changes
        → IfOk result (λ marker. marker ≡ spec.marker_of changes facts.now given.now) }
{
    let buffer = facts.buffer(alloc, given)?;
    Ok(state.mark(&buffer))
}

ghost use Rattle.std.specs.Prelude.{List, true};
ghost use Rattle.chat_change.specs.declared.change.Change.{Change};
ghost use Rattle.chat_history.specs.History.{norm};

/// Answers the marker of a target.
fn write_marker<W: Write>(
    alloc: Global,
    state: &State,
    facts: &Facts,
    given: &[u8],
    writer: &mut W,
) -> Result<Answered, AnswerFault>
    requires { has_buffer facts.now given.now ≡ true }
    ensures text { WritesAnswerFrom W.contents writer.old writer.new result state.now.history
        (λ changes. spec.marker_answer changes facts.now given.now) }
    ensures memory { IsUnwritten result writer.old writer.new }
{
    let Ok(marker) = marker_of(alloc, state, facts, given) else {
        return Err(AnswerFault::NoMemory);
    };
    match write_mark(facts.cluster.as_bytes(), given, marker, writer) {
        Ok(()) => Ok(Answered::Plain),
        Err(_) => Err(AnswerFault::Write),
    }
}

/// Answers the parameters of a MARKREAD line.
fn answer_parameters<W: Write>(
    alloc: Global,
    state: &State,
    facts: &Facts,
    parameters: &[&[u8]],
    writer: &mut W,
) -> Result<Answered, AnswerFault>
    ensures text { WritesAnswerFrom W.contents writer.old writer.new result state.now.history
        (λ changes. spec.marker_or_refusal changes facts.now (map (λ p. p.now) parameters.now)) }
    ensures memory { IsUnwritten result writer.old writer.new }
{
    match parameters {
        [] => refuse_marker(facts, b"NEED_MORE_PARAMS", b"Missing parameters", writer),
        [given, rest @ ..] => {
            if asks_or_sets(rest) && facts.has_buffer(given) {
                write_marker(alloc, state, facts, given, writer)
            } else {
                refuse_marker(facts, b"INVALID_PARAMS", b"Invalid parameters", writer)
            }
        }
    }
}

/// Answers a MARKREAD line of these parameters.
pub(crate) fn answer_marker<W: Write>(
    alloc: Global,
    state: &State,
    facts: &Facts,
    parameters: &[&[u8]],
    writer: &mut W,
) -> Result<Answered, AnswerFault>
    ensures text { WritesAnswerFrom W.contents writer.old writer.new result state.now.history
        (λ changes. spec.markread_answer changes facts.now (map (λ p. p.now) parameters.now)) }
    ensures memory { IsUnwritten result writer.old writer.new }
{
    if !facts.caps.read_marker {
        return write_incapable(facts, b"MARKREAD", writer);
    }
    answer_parameters(alloc, state, facts, parameters, writer)
}
