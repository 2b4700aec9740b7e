//! Looking for the message that a REDACT names.
ghost use Rattle.std.specs.Prelude.{◌≡◌, map, IfOk, IfErr, OnErr, IsSome, MatchOption};
ghost use Rattle.irc_line.specs.Read.{read};
ghost use Rattle.irc_line.specs.declared.line.TagLimit.TheVariants.{Client};
ghost use Rattle.client_session.specs.Lookup as spec;
ghost use Rattle.client_session.specs.declared.command.ClientCommand.TheVariants as commands;
ghost use Rattle.client_session.specs.declared.session.StepFault.TheVariants as fault;

use crate::command::{ClientCommand, command_of};
use crate::session::StepFault;
use byte_text::NoMemory;
use chat_change::{Buffer, MsgId, is_id, lawful_id};
use chat_history::Peek;
use chat_query::Facts;
use irc_line::{TagLimit, read_line};
use std::alloc::Global;

// The message that the parameters of a REDACT name, if it is to be looked up.
fn sought_by(
    alloc: Global,
    facts: &Facts,
    parameters: &[&[u8]],
) -> Result<Option<(Buffer, MsgId)>, NoMemory>
    ensures { IfOk result (λ sought. sought ≡ spec.parts_of
        (spec.name_by_command facts.now commands.Redact (map (λ p. p.now) parameters.now))) }
{
    if parameters.len() < 2 {
        return Ok(None);
    }
    let (target, id) = (parameters[0], parameters[1]);
    if facts.caps.message_redaction && (facts.has_buffer(target) && is_id(id)) {
        let buffer = facts.buffer(alloc, target)?;
        let id = lawful_id(alloc, id)?;
        Ok(Some((buffer, id)))
    } else {
        Ok(None)
    }
}

/// The message that a line names, if it is a REDACT that is to be looked up.
pub(crate) fn sought(
    alloc: Global,
    facts: &Facts,
    bytes: &[u8],
) -> Result<Option<(Buffer, MsgId)>, NoMemory>
    ensures { IfOk result (λ sought.
        sought ≡ spec.parts_of (spec.name_in facts.now (read Client bytes.now))) }
{
    match read_line(bytes, TagLimit::Client) {
        Err(_) => Ok(None),
        Ok(line) => match command_of(line.command()) {
            ClientCommand::Redact => sought_by(alloc, facts, line.parameters()),
            _ => Ok(None),
        },
    }
}

/// Whether the message is shown that a line names, if it is a REDACT that is to be looked up; any other line looks at
/// nothing.
pub(crate) fn look<P: Peek>(
    alloc: Global,
    facts: &Facts,
    bytes: &[u8],
    peek: &mut P,
) -> Result<bool, StepFault>
    ensures shown { IfOk result (λ shown.
        MatchOption (spec.name_in facts.now (read Client bytes.now))
        (peek.new ≡ peek.old) (λ m. P.peeks peek.old m.buffer m.id shown peek.new)) }
    ensures refused { IfErr result (λ e. e ≡ fault.NoEntry
        → IsSome (spec.name_in facts.now (read Client bytes.now))) }
    ensures err { OnErr result (peek.new ≡ peek.old) }
{
    let Some((buffer, id)) = sought(alloc, facts, bytes)? else {
        return Ok(false);
    };
    match peek.shown(&buffer, &id) {
        Err(_) => Err(StepFault::NoEntry),
        Ok(shown) => Ok(shown),
    }
}
