//! Refusals of CHATHISTORY and MARKREAD (IRCv3 standard-replies, `FAIL`).
ghost use Rattle.std.specs.Prelude.{◌≡◌, Some, None, IfOk, map};
ghost use Rattle.irc_reply.specs.Reply.{value_of};
ghost use Rattle.chat_query.specs.Answers as spec;
ghost use Rattle.chat_batch.specs.WritesAnswer.{WritesAnswer, IsUnwritten};

use crate::answers::AnswerFault;
use byte_text::Text;
use chat_page::QueryFault;
use chat_query::{Answered, Facts, first_of};
use irc_reply::{Context, echoed, write_fail};
use std::alloc::{AllocError, Global};
use std::io::Write;

/// Writes a refusal.
pub(crate) fn refuse<W: Write>(
    facts: &Facts,
    command: &[u8],
    code: &[u8],
    context: Context<'_>,
    reason: &[u8],
    writer: &mut W,
) -> Result<Answered, AnswerFault>
    ensures text { WritesAnswer W.contents writer.old writer.new result
        (spec.fail facts.now command.now code.now (value_of context.entry) reason.now) }
    ensures memory { IsUnwritten result writer.old writer.new }
{
    match write_fail(
        facts.cluster.as_bytes(),
        command,
        code,
        context,
        reason,
        writer,
    ) {
        Ok(()) => Ok(Answered::Plain),
        Err(_) => Err(AnswerFault::Write),
    }
}

/// A subcommand as it is repeated: in upper case, and `*` for a word that can't be repeated.
fn subcommand_of(alloc: Global, word: &[u8]) -> Result<Text, AllocError>
    ensures { IfOk result (λ text. text ≡ spec.subcommand_of word.now) }
{
    let bytes = echoed(word).to_ascii_uppercase(alloc)?;
    Ok(Text::of(bytes))
}

fn code_of(fault: QueryFault) -> &'static [u8]
    ensures { result.now ≡ spec.code_of fault }
{
    match fault {
        QueryFault::NeedMoreParams => b"INVALID_PARAMS",
        QueryFault::UnknownCommand => b"INVALID_PARAMS",
        QueryFault::InvalidTarget => b"INVALID_TARGET",
        QueryFault::InvalidMsgRef => b"INVALID_MSGREFTYPE",
        QueryFault::InvalidParams => b"INVALID_PARAMS",
    }
}

fn reason_of(fault: QueryFault) -> &'static [u8]
    ensures { result.now ≡ spec.reason_of fault }
{
    match fault {
        QueryFault::NeedMoreParams => b"Missing parameters",
        QueryFault::UnknownCommand => b"Unknown command",
        QueryFault::InvalidTarget => b"Invalid target",
        QueryFault::InvalidMsgRef => b"Invalid message reference type",
        QueryFault::InvalidParams => b"Invalid parameters",
    }
}

/// Refuses a line of that subcommand.
fn refuse_subcommand<W: Write>(
    alloc: Global,
    facts: &Facts,
    word: &[u8],
    fault: QueryFault,
    writer: &mut W,
) -> Result<Answered, AnswerFault>
    ensures text { WritesAnswer W.contents writer.old writer.new result
        (spec.refusal_about facts.now (Some word.now) fault) }
    ensures memory { IsUnwritten result writer.old writer.new }
{
    let Ok(subcommand) = subcommand_of(alloc, word) else {
        return Err(AnswerFault::NoMemory);
    };
    refuse(
        facts,
        b"CHATHISTORY",
        code_of(fault),
        Context::One(subcommand.as_bytes()),
        reason_of(fault),
        writer,
    )
}

/// Refuses a line without a subcommand.
fn refuse_bare<W: Write>(
    facts: &Facts,
    fault: QueryFault,
    writer: &mut W,
) -> Result<Answered, AnswerFault>
    ensures text { WritesAnswer W.contents writer.old writer.new result
        (spec.refusal_about facts.now None fault) }
    ensures memory { IsUnwritten result writer.old writer.new }
{
    refuse(
        facts,
        b"CHATHISTORY",
        code_of(fault),
        Context::Nothing,
        reason_of(fault),
        writer,
    )
}

/// Refuses a CHATHISTORY line of these parameters, which is no query.
pub(crate) fn refuse_query<W: Write>(
    alloc: Global,
    facts: &Facts,
    parameters: &[&[u8]],
    fault: QueryFault,
    writer: &mut W,
) -> Result<Answered, AnswerFault>
    ensures text { WritesAnswer W.contents writer.old writer.new result
        (spec.query_refusal facts.now (map (λ p. p.now) parameters.now) fault) }
    ensures memory { IsUnwritten result writer.old writer.new }
{
    match first_of(parameters) {
        Some(word) => refuse_subcommand(alloc, facts, word, fault, writer),
        None => refuse_bare(facts, fault, writer),
    }
}

/// Refuses a query of that subcommand and that target, since a selector names an unknown message.
pub(crate) fn refuse_selector<W: Write>(
    alloc: Global,
    facts: &Facts,
    word: &[u8],
    given: &[u8],
    writer: &mut W,
) -> Result<Answered, AnswerFault>
    ensures text { WritesAnswer W.contents writer.old writer.new result
        (spec.unknown_message facts.now word.now given.now) }
    ensures memory { IsUnwritten result writer.old writer.new }
{
    let Ok(subcommand) = subcommand_of(alloc, word) else {
        return Err(AnswerFault::NoMemory);
    };
    refuse(
        facts,
        b"CHATHISTORY",
        b"MESSAGE_ERROR",
        Context::Two(subcommand.as_bytes(), given),
        b"No such message",
        writer,
    )
}
