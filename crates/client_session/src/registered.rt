//! A session after its registration.
ghost use Rattle.std.specs.Prelude.{◌≡◌, ◌∷◌, [], map, codes, IfOk, OnErr, None};
ghost use Rattle.std.specs.Option.{option_copied};
ghost use Rattle.irc_reply.specs.Reply.{unknown_text};
ghost use Rattle.irc_reply.specs.Reply.{plain_line};
ghost use Rattle.irc_reply.specs.ToClient.{may_not_reregister};
ghost use Rattle.client_session.specs.Step as steps;
ghost use Rattle.client_session.specs.Registered as spec;
ghost use Rattle.client_session.specs.Session as session;
ghost use Rattle.client_session.specs.Continuation.{stage_of, with_former_nick};

use crate::command::ClientCommand;
use crate::effect::Effect;
use crate::markread::markread;
use crate::redact::redact;
use crate::registration::user_name;
use crate::scratch::SessionScratch;
use crate::shared::{answer, closing, nick_refusal, one, ping, refusal};
use crate::stage::Continuation;
use byte_text::{NoMemory, Text};
use chat_query::Facts;
use cluster_directory::Entry;
use irc_caps::Negotiation;
use irc_line::{Line, LineFault};
use irc_reply::need_more_params;
use irc_reply::to_client::{may_not_reregister, not_connected, unknown};
use irc_reply::to_server::{nick_line, passed_line, tagged_line};
use std::alloc::Global;
use std::mem;

/// A line that a registered session serves.
#[derive(Clone, Copy)]
pub(crate) struct ServedLine<'a> {
    /// The session's network, where the directory has it.
    pub(crate) entry: Option<&'a Entry>,
    pub(crate) command: ClientCommand,
    pub(crate) line: &'a Line<'a>,
    /// The line as it came.
    pub(crate) bytes: &'a [u8],
    /// Whether the message is shown that a REDACT names.
    pub(crate) shown: bool,
}

fn is_up(entry: Option<&Entry>) -> bool
    ensures { result ≡ spec.is_up (option_copied entry.entry) }
{
    match entry {
        None => false,
        Some(found) => found.is_up(),
    }
}

/// Whether a REDACT can go to the network's server.
pub(crate) fn takes_redact(entry: Option<&Entry>) -> bool
    ensures { result ≡ spec.takes_redact (option_copied entry.entry) }
{
    match entry {
        None => false,
        Some(found) => found.is_up() && found.takes_redact(),
    }
}

fn not_up(alloc: Global, facts: &Facts) -> Result<Vec<Effect>, NoMemory>
    ensures { IfOk result (λ list. list.items ≡ spec.upstream None facts.now []) }
{
    let cluster = facts.cluster.as_bytes();
    let nick = facts.nick.as_bytes();
    let text = not_connected(alloc, cluster, nick, facts.network.as_bytes())?;
    answer(alloc, text)
}

/// A command that the session has no capability for (ERR_UNKNOWNCOMMAND, RFC 2812, section 5.2).
pub(crate) fn unknown_command(
    alloc: Global,
    facts: &Facts,
    command: &[u8],
) -> Result<Vec<Effect>, NoMemory>
    ensures { IfOk result (λ list. list.items ≡ steps.answer
        (unknown_text facts.now.cluster facts.now.nick command.now)) }
{
    let cluster = facts.cluster.as_bytes();
    let text = unknown(alloc, cluster, facts.nick.as_bytes(), command)?;
    answer(alloc, text)
}

fn need_more(alloc: Global, facts: &Facts, command: &[u8]) -> Result<Vec<Effect>, NoMemory>
    ensures { IfOk result (λ list. list.items ≡ spec.need_more facts.now command.now) }
{
    let cluster = facts.cluster.as_bytes();
    let text = need_more_params(alloc, cluster, facts.nick.as_bytes(), command)?;
    answer(alloc, text)
}

fn reregisters(alloc: Global, facts: &Facts) -> Result<Vec<Effect>, NoMemory>
    ensures { IfOk result (λ list. list.items ≡ steps.answer
        (may_not_reregister facts.now.cluster facts.now.nick)) }
{
    let text = may_not_reregister(alloc, facts.cluster.as_bytes(), facts.nick.as_bytes())?;
    answer(alloc, text)
}

/// PASS, which comes too late (RFC 2812, section 3.1.1).
fn pass(alloc: Global, facts: &Facts, parameters: &[&[u8]]) -> Result<Vec<Effect>, NoMemory>
    ensures { IfOk result (λ list. list.items
        ≡ spec.pass facts.now (map (λ p. p.now) parameters.now)) }
{
    if parameters.is_empty() {
        need_more(alloc, facts, b"PASS")
    } else {
        reregisters(alloc, facts)
    }
}

/// USER, which comes too late (RFC 2812, section 3.1.3).
fn user(alloc: Global, facts: &Facts, parameters: &[&[u8]]) -> Result<Vec<Effect>, NoMemory>
    ensures { IfOk result (λ list. list.items
        ≡ spec.user facts.now (map (λ p. p.now) parameters.now)) }
{
    match user_name(parameters) {
        None => need_more(alloc, facts, b"USER"),
        Some(_) => reregisters(alloc, facts),
    }
}

fn ask_nick(
    alloc: Global,
    entry: Option<&Entry>,
    facts: &Facts,
    nick: &[u8],
) -> Result<Vec<Effect>, NoMemory>
    ensures { IfOk result (λ list. list.items ≡ spec.upstream (option_copied entry.entry)
        facts.now (plain_line (codes "NICK") (nick.now ∷ []) None)) }
{
    if is_up(entry) {
        let line = nick_line(alloc, nick)?;
        one(alloc, Effect::Upstream(line))
    } else {
        not_up(alloc, facts)
    }
}

/// NICK (RFC 2812, section 3.1.2), which the network's server decides.
fn nick(
    alloc: Global,
    entry: Option<&Entry>,
    facts: &Facts,
    parameters: &[&[u8]],
) -> Result<Vec<Effect>, NoMemory>
    ensures { IfOk result (λ list. list.items ≡ spec.nick (option_copied entry.entry)
        facts.now (map (λ p. p.now) parameters.now)) }
{
    let cluster = facts.cluster.as_bytes();
    match nick_refusal(alloc, cluster, facts.nick.as_bytes(), parameters)? {
        Some(text) => answer(alloc, text),
        None => ask_nick(alloc, entry, facts, parameters[0]),
    }
}

/// CHATHISTORY (IRCv3 draft/chathistory), which is asked as it came.
fn chathistory(alloc: Global, facts: &Facts, bytes: &[u8]) -> Result<Vec<Effect>, NoMemory>
    ensures { IfOk result (λ list. list.items ≡ spec.chathistory facts.now bytes.now) }
{
    if facts.caps.chathistory {
        let line = Text::new(alloc, bytes)?;
        one(alloc, Effect::Ask(line))
    } else {
        unknown_command(alloc, facts, b"CHATHISTORY")
    }
}

/// CAP (IRCv3 capability negotiation).
fn cap(alloc: Global, facts: &mut Facts, parameters: &[&[u8]]) -> Result<Vec<Effect>, NoMemory>
    ensures ok { IfOk result (λ list. spec.stays facts.new list.items
        ≡ spec.cap facts.old (map (λ p. p.now) parameters.now)) }
    ensures err { OnErr result (facts.new ≡ facts.old) }
{
    let mut negotiation = Negotiation::registered(facts.caps);
    let cluster = facts.cluster.as_bytes();
    let line = negotiation.answer_cap(alloc, parameters, cluster, facts.nick.as_bytes())?;
    let list = match line {
        None => Vec::new(alloc),
        Some(text) => answer(alloc, text)?,
    };
    facts.caps = negotiation.caps();
    Ok(list)
}

fn changed_nick(
    alloc: Global,
    entry: Option<&Entry>,
    facts: &Facts,
) -> Result<Option<Text>, NoMemory>
    ensures { IfOk result (λ nick. with_former_nick nick facts.now
        ≡ spec.with_nick_of (option_copied entry.entry) facts.now) }
{
    match entry {
        None => Ok(None),
        Some(found) => {
            if facts.nick.as_bytes() == found.nick() {
                Ok(None)
            } else {
                Ok(Some(Text::new(alloc, found.nick())?))
            }
        }
    }
}

// Gives the facts another nick, if there is one, and answers the one that they had.
fn exchange_nick(facts: &mut Facts, nick: Option<Text>) -> Option<Text>
    ensures now { facts.new ≡ with_former_nick nick facts.old }
    ensures former { with_former_nick result facts.new ≡ facts.old }
{
    match nick {
        None => None,
        Some(nick) => Some(mem::replace(&mut facts.nick, nick)),
    }
}

ghost use Rattle.irc_reply.specs.ToServer.{passed_line, tagged_line};

impl ServedLine<'_> {
    // A message goes to the network's server with its client-only tags.
    fn pass_message_on(
        &self,
        alloc: Global,
        scratch: &mut SessionScratch,
        facts: &Facts,
    ) -> Result<Vec<Effect>, NoMemory>
        ensures { IfOk result (λ list. list.items ≡ spec.upstream (option_copied self.now.entry)
            facts.now (tagged_line self.now.line.now.tags self.now.bytes.now)) }
    {
        if is_up(self.entry) {
            let line = tagged_line(scratch.text_room(alloc), self.line.tags(), self.bytes)?;
            scratch.one(alloc, Effect::Upstream(line))
        } else {
            not_up(alloc, facts)
        }
    }

    // Any other line goes to the network's server without its tags.
    fn pass_on(
        &self,
        alloc: Global,
        scratch: &mut SessionScratch,
        facts: &Facts,
    ) -> Result<Vec<Effect>, NoMemory>
        ensures { IfOk result (λ list. list.items ≡ spec.upstream (option_copied self.now.entry)
            facts.now (passed_line self.now.bytes.now)) }
    {
        if is_up(self.entry) {
            let line = passed_line(scratch.text_room(alloc), self.bytes)?;
            scratch.one(alloc, Effect::Upstream(line))
        } else {
            not_up(alloc, facts)
        }
    }

    // What a command does that leaves the session as it is.
    fn effects(
        &self,
        alloc: Global,
        scratch: &mut SessionScratch,
        facts: &Facts,
    ) -> Result<Vec<Effect>, NoMemory>
        ensures { IfOk result (λ list. list.items ≡ spec.effects (option_copied self.now.entry)
            facts.now self.now.shown self.now.bytes.now self.now.command self.now.line.now) }
    {
        let parameters = self.line.parameters();
        match self.command {
            ClientCommand::Cap | ClientCommand::Quit | ClientCommand::Pong => Ok(Vec::new(alloc)),
            ClientCommand::Pass => pass(alloc, facts, parameters),
            ClientCommand::User => user(alloc, facts, parameters),
            ClientCommand::Ping => {
                let cluster = facts.cluster.as_bytes();
                ping(alloc, cluster, facts.nick.as_bytes(), parameters)
            }
            ClientCommand::Nick => nick(alloc, self.entry, facts, parameters),
            ClientCommand::Chathistory => chathistory(alloc, facts, self.bytes),
            ClientCommand::Markread => markread(alloc, facts, self.bytes, parameters),
            ClientCommand::Redact => redact(alloc, facts, self),
            ClientCommand::Message => self.pass_message_on(alloc, scratch, facts),
            ClientCommand::Other => self.pass_on(alloc, scratch, facts),
        }
    }

    // What a command does, under the nick that the session knows.
    fn serve_named(
        &self,
        alloc: Global,
        scratch: &mut SessionScratch,
        facts: &mut Facts,
    ) -> Result<(Continuation, Vec<Effect>), NoMemory>
        ensures ok { IfOk result (λ r.
            record { session = stage_of r.0 facts.new; effects = r.1.items }
            ≡ spec.after_registration (option_copied self.now.entry) facts.old self.now.shown
            self.now.bytes.now self.now.command self.now.line.now) }
        ensures err { OnErr result (facts.new ≡ facts.old) }
    {
        match self.command {
            ClientCommand::Cap => {
                let list = cap(alloc, facts, self.line.parameters())?;
                Ok((Continuation::Stays, list))
            }
            ClientCommand::Quit => {
                let list = closing(alloc)?;
                Ok((Continuation::Closes, list))
            }
            _ => {
                let list = self.effects(alloc, scratch, facts)?;
                Ok((Continuation::Stays, list))
            }
        }
    }

    /// What its command does, under the network's present nick. For want of memory nothing changes.
    pub(crate) fn serve(
        &self,
        alloc: Global,
        scratch: &mut SessionScratch,
        facts: &mut Facts,
    ) -> Result<(Continuation, Vec<Effect>), NoMemory>
        ensures ok { IfOk result (λ r.
            record { session = stage_of r.0 facts.new; effects = r.1.items }
            ≡ spec.after_registration (option_copied self.now.entry)
            (spec.with_nick_of (option_copied self.now.entry) facts.old) self.now.shown
            self.now.bytes.now self.now.command self.now.line.now) }
        ensures err { OnErr result (facts.new ≡ facts.old) }
    {
        let nick = changed_nick(alloc, self.entry, facts)?;
        let former = exchange_nick(facts, nick);
        match self.serve_named(alloc, scratch, facts) {
            Ok(turn) => {
                drop(former);
                Ok(turn)
            }
            Err(fault) => {
                drop(exchange_nick(facts, former));
                Err(fault)
            }
        }
    }
}

/// What a line that can't be read does, under the network's present nick. For want of memory nothing changes.
pub(crate) fn refuse(
    alloc: Global,
    entry: Option<&Entry>,
    facts: &mut Facts,
    fault: LineFault,
) -> Result<Vec<Effect>, NoMemory>
    ensures ok { IfOk result (λ list. spec.stays facts.new list.items
        ≡ session.refuse (spec.with_nick_of (option_copied entry.entry) facts.old) fault) }
    ensures err { OnErr result (facts.new ≡ facts.old) }
{
    let nick = changed_nick(alloc, entry, facts)?;
    let former = exchange_nick(facts, nick);
    match refusal(
        alloc,
        facts.cluster.as_bytes(),
        facts.nick.as_bytes(),
        fault,
    ) {
        Ok(list) => {
            drop(former);
            Ok(list)
        }
        Err(fault) => {
            drop(exchange_nick(facts, former));
            Err(fault)
        }
    }
}
