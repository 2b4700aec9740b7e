//! Answers to CHATHISTORY (IRCv3 draft/chathistory).
ghost use Rattle.std.specs.Prelude.{◌≡◌, map, if◌then◌else◌};
ghost use Rattle.byte_text.specs.Writes.{Writes};
ghost use Rattle.chat_page.specs.Answer.{value_of};
ghost use Rattle.chat_query.specs.Answers as spec;
ghost use Rattle.chat_query.specs.Batch.{page_text};
ghost use Rattle.chat_batch.specs.WritesAnswer.{WritesAnswer, WritesAnswerFrom, IsUnwritten};

use crate::answers::{AnswerFault, write_incapable};
use crate::refusal::{refuse_query, refuse_selector};
use chat_page::{Page, PageFault, Query, QueryFault, Scope, page, read_query};
use chat_query::{Answered, Facts, reference_text, write_page, write_targets};
use chat_state::State;
use irc_caps::CapSet;
use irc_line::Line;
use std::alloc::Global;
use std::io;
use std::io::Write;

fn put_page<W: Write>(
    page: &Page<'_>,
    given: &[u8],
    caps: CapSet,
    cluster: &[u8],
    reference: &[u8],
    writer: &mut W,
) -> io::Result<()>
    ensures { Writes W.contents writer.old writer.new result
        (page_text caps cluster.now reference.now given.now (value_of page.now)) }
{
    match page {
        Page::Records(records) => write_page(records, given, caps, cluster, reference, writer),
        Page::Buffers(buffers) => write_targets(buffers, caps, cluster, reference, writer),
    }
}

/// What an answer by a page is: only a session with `batch` gets the lines of a batch.
fn page_answered(caps: CapSet) -> Answered
    ensures { result ≡ (if caps.batch then Answered.Batch else Answered.Plain) }
{
    if caps.batch {
        Answered::Batch
    } else {
        Answered::Plain
    }
}

/// Answers a query by its page.
fn write_answer<W: Write>(
    alloc: Global,
    facts: &Facts,
    given: &[u8],
    page: &Page<'_>,
    writer: &mut W,
) -> Result<Answered, AnswerFault>
    ensures text { WritesAnswer W.contents writer.old writer.new result
        (spec.page_answer facts.now given.now (value_of page.now)) }
    ensures memory { IsUnwritten result writer.old writer.new }
{
    let Ok(reference) = reference_text(alloc, facts.reference) else {
        return Err(AnswerFault::NoMemory);
    };
    let reference = reference.as_bytes();
    match put_page(
        page,
        given,
        facts.caps,
        facts.cluster.as_bytes(),
        reference,
        writer,
    ) {
        Ok(()) => Ok(page_answered(facts.caps)),
        Err(_) => Err(AnswerFault::Write),
    }
}

/// The subcommand, as it was given.
fn word_of<'a>(parameters: &[&'a [u8]]) -> &'a [u8]
    ensures { result.now ≡ spec.word_of (map (λ p. p.now) parameters.now) }
{
    match parameters {
        [word, ..] => word,
        [] => b"",
    }
}

/// The target, as it was given.
fn given_of<'a>(parameters: &[&'a [u8]]) -> &'a [u8]
    ensures { result.now ≡ spec.given_of (map (λ p. p.now) parameters.now) }
{
    match parameters {
        [_, given, ..] => given,
        _ => b"",
    }
}

ghost use Rattle.chat_query.specs.Page.{page};

/// A question of a session, and what answers it.
#[derive(Clone, Copy)]
struct Question<'a> {
    alloc: Global,
    state: &'a State,
    facts: &'a Facts,
    parameters: &'a [&'a [u8]],
}

impl Question<'_> {
    /// Answers a query of a session that has buffers.
    fn answer_in_scope<W: Write>(
        &self,
        scope: &Scope<'_>,
        query: &Query<'_>,
        writer: &mut W,
    ) -> Result<Answered, AnswerFault>
        ensures text { WritesAnswerFrom W.contents writer.old writer.new result
            self.now.state.now.history (λ changes. spec.page_or_unknown self.now.facts.now
            (map (λ p. p.now) self.now.parameters.now) (page changes scope.now query.now)) }
        ensures memory { IsUnwritten result writer.old writer.new }
    {
        let given = given_of(self.parameters);
        match page(self.alloc, self.state, scope, query) {
            Ok(page) => {
                let answered = write_answer(self.alloc, self.facts, given, &page, writer);
                drop(page);
                answered
            }
            Err(PageFault::UnknownMessage) => {
                let word = word_of(self.parameters);
                refuse_selector(self.alloc, self.facts, word, given, writer)
            }
            Err(PageFault::NoMemory) => Err(AnswerFault::NoMemory),
        }
    }

    /// Answers a query.
    fn answer_query<W: Write>(
        &self,
        query: &Query<'_>,
        writer: &mut W,
    ) -> Result<Answered, AnswerFault>
        ensures text { WritesAnswerFrom W.contents writer.old writer.new result
            self.now.state.now.history (λ changes. spec.query_answer changes self.now.facts.now
            (map (λ p. p.now) self.now.parameters.now) query.now) }
        ensures memory { IsUnwritten result writer.old writer.new }
    {
        let facts = self.facts;
        match Scope::new(
            facts.account.as_bytes(),
            facts.network.as_bytes(),
            facts.maximum as usize,
        ) {
            Some(scope) => self.answer_in_scope(&scope, query, writer),
            None => {
                let fault = QueryFault::InvalidTarget;
                refuse_query(self.alloc, facts, self.parameters, fault, writer)
            }
        }
    }
}

/// Answers a CHATHISTORY line of a session that holds its capability.
fn answer_line<W: Write>(
    alloc: Global,
    state: &State,
    facts: &Facts,
    line: &Line<'_>,
    writer: &mut W,
) -> Result<Answered, AnswerFault>
    ensures text { WritesAnswerFrom W.contents writer.old writer.new result state.now.history
        (λ changes. spec.query_or_refusal changes facts.now line.now.parameters
        (read_query line.now.parameters)) }
    ensures memory { IsUnwritten result writer.old writer.new }
{
    match read_query(line) {
        Ok(query) => {
            let asked = Question {
                alloc,
                state,
                facts,
                parameters: line.parameters(),
            };
            let answered = asked.answer_query(&query, writer);
            drop(query);
            answered
        }
        Err(fault) => refuse_query(alloc, facts, line.parameters(), fault, writer),
    }
}

ghost use Rattle.chat_query.specs.Parameters.{read_query};

/// Answers a CHATHISTORY line.
pub(crate) fn answer_history<W: Write>(
    alloc: Global,
    state: &State,
    facts: &Facts,
    line: &Line<'_>,
    writer: &mut W,
) -> Result<Answered, AnswerFault>
    ensures text { WritesAnswerFrom W.contents writer.old writer.new result state.now.history
        (λ changes. spec.history_answer changes facts.now line.now.parameters) }
    ensures memory { IsUnwritten result writer.old writer.new }
{
    if facts.caps.chathistory {
        answer_line(alloc, state, facts, line, writer)
    } else {
        write_incapable(facts, b"CHATHISTORY", writer)
    }
}
