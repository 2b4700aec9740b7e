//! Questions about the past, and their answers.
ghost use Rattle.std.specs.Prelude.{◌≡◌, Err, List, IfOk};
ghost use Rattle.byte_text.specs.Writes.{Writes};
ghost use Rattle.chat_change.specs.declared.change.Change.{Change};
ghost use Rattle.chat_history.specs.History.{norm};
ghost use Rattle.chat_query.specs.Answers as spec;
ghost use Rattle.chat_batch.specs.WritesAnswer.{WritesAnswer, IsUnwritten};

use crate::history::answer_history;
use crate::marker::answer_marker;
use chat_query::{Answered, Facts};
use chat_state::State;
use irc_line::Line;
use irc_reply::write_unknown;
use std::alloc::Global;
use std::io::Write;
use thiserror::Error;

/// Why a line wasn't answered to its end.
#[derive(Clone, Copy, Debug, PartialEq, Eq, Error)]
pub enum AnswerFault {
    /// There was no memory. Nothing was written.
    #[error("no memory")]
    NoMemory,
    /// The writer failed. A prefix of the answer was written.
    #[error("writing failed")]
    Write,
}

/// Answers a command that the session has no capability for.
pub(crate) fn write_incapable<W: Write>(
    facts: &Facts,
    command: &[u8],
    writer: &mut W,
) -> Result<Answered, AnswerFault>
    ensures text { WritesAnswer W.contents writer.old writer.new result
        (spec.unknown facts.now command.now) }
    ensures memory { IsUnwritten result writer.old writer.new }
{
    match write_unknown(
        facts.cluster.as_bytes(),
        facts.nick.as_bytes(),
        command,
        writer,
    ) {
        Ok(()) => Ok(Answered::Plain),
        Err(_) => Err(AnswerFault::Write),
    }
}

/// Answers a question about the past: CHATHISTORY (IRCv3 draft/chathistory) and MARKREAD (IRCv3 draft/read-marker), from
/// what a state holds, to the session of these facts.
///
/// CHATHISTORY is answered by its page as a batch, or by a FAIL line (IRCv3 standard-replies) that tells the first fault
/// of the line, or that a selector names a message that has no position in the buffer. MARKREAD is answered by the
/// marker that is set now, also where it comes with a time: setting it is the caller's. Without the capability
/// `draft/chathistory` or `draft/read-marker` the command is answered as unknown (numeric 421), whatever its parameters
/// are. Every other command is [`Answered::NotAQuery`], and nothing is written.
///
/// A session whose account or network is no name has no buffers: its targets are refused.
///
/// Fails with [`AnswerFault::NoMemory`] for want of memory, before anything is written, and with [`AnswerFault::Write`]
/// where the writer fails.
pub fn answer<W: Write>(
    alloc: Global,
    state: &State,
    facts: &Facts,
    line: &Line<'_>,
    writer: &mut W,
) -> Result<Answered, AnswerFault>
    ensures text { (changes : List Change) → state.now.history ≡ norm changes
        → Writes W.contents writer.old writer.new result
        (spec.answer_of changes facts.now line.now).text }
    ensures answered { (changes : List Change) → state.now.history ≡ norm changes
        → IfOk result (λ a. a ≡ (spec.answer_of changes facts.now line.now).answered) }
    ensures memory { result ≡ Err AnswerFault.NoMemory → writer.new ≡ writer.old }
{
    answer_command(alloc, state, facts, line, writer)
}

ghost use Rattle.chat_batch.specs.WritesAnswer.{WritesAnswerFrom};

fn answer_command<W: Write>(
    alloc: Global,
    state: &State,
    facts: &Facts,
    line: &Line<'_>,
    writer: &mut W,
) -> Result<Answered, AnswerFault>
    ensures text { WritesAnswerFrom W.contents writer.old writer.new result state.now.history
        (λ changes. spec.answer_of changes facts.now line.now) }
    ensures memory { IsUnwritten result writer.old writer.new }
{
    if line.command().eq_ignore_ascii_case(b"CHATHISTORY") {
        answer_history(alloc, state, facts, line, writer)
    } else if line.command().eq_ignore_ascii_case(b"MARKREAD") {
        answer_marker(alloc, state, facts, line.parameters(), writer)
    } else {
        Ok(Answered::NotAQuery)
    }
}
