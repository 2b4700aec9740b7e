//! Capability negotiation (IRCv3 capability negotiation).
ghost use Rattle.std.specs.Prelude.{◌≡◌, ◌∷◌, [], map, take, IfOk, OnErr, Some, IsSome};
ghost use Rattle.irc_caps.specs.Negotiation as spec;
ghost use Rattle.irc_caps.specs.Words.{list_limit, is_acknowledged};

use crate::registration::Registration;
use crate::words::{are_wishes, joined, list_of, with_words, words_of};
use crate::{CapSet, NoMemory, Text};
use irc_line::Line;
use irc_reply::{echoed, need_more_params, reply_text};
use std::alloc::Global;
use std::marker::Model;

/// The most bytes of a list that is repeated whole.
const LIST_LIMIT: usize = 200;

/// The capabilities that a session holds, and how far its registration is.
#[derive(Clone, Copy)]
pub struct Negotiation {
    caps: CapSet,
    registration: Registration,
}

impl Model for Negotiation {
    ghost use Rattle.irc_caps.specs.Negotiation.{Negotiation as Negotiated};

    ghost Value = { Negotiated };

    ghost view = { λ n. record { caps = n.caps; registration = n.registration } };

    ghost inverse = { λ n. record { caps = n.caps; registration = n.registration } };
}

/// What a line is answered with.
#[derive(Drop)]
pub struct CapReply {
    /// The answer, with its ending. `CAP END` has none.
    pub line: Option<Text>,
    /// Whether registration is now held back.
    pub is_holding: bool,
}

fn cap_line(
    alloc: Global,
    cluster: &[u8],
    nick: &[u8],
    subcommand: &[u8],
    list: &[u8],
) -> Result<Text, NoMemory>
    ensures { IfOk result (λ text. text
        ≡ spec.cap_line cluster.now nick.now subcommand.now list.now) }
{
    reply_text(alloc, cluster, b"CAP", &[nick, subcommand], Some(list))
}

/// The part of a list that is repeated.
fn prefix(list: &[u8]) -> &[u8]
    ensures { result.now ≡ take list_limit list.now }
{
    if list.len() <= LIST_LIMIT {
        list
    } else {
        &list[..LIST_LIMIT]
    }
}

fn is_acknowledged(list: &[u8], words: &[&[u8]]) -> bool
    requires { list.now ≡ joined (map (λ w. w.now) words.now) }
    ensures { result ≡ is_acknowledged (map (λ w. w.now) words.now) }
{
    list.len() <= LIST_LIMIT && are_wishes(words)
}

ghost use Rattle.irc_caps.specs.Words.{joined};

impl Negotiation {
    /// The negotiation of a new session, which holds no capability, and whose registration is to come.
    pub fn new() -> Negotiation
        ensures { result ≡ spec.new }
    {
        Negotiation {
            caps: CapSet::none(),
            registration: Registration::Free,
        }
    }

    /// The negotiation of a session that is registered and holds these capabilities.
    pub fn registered(caps: CapSet) -> Negotiation
        ensures { result ≡ spec.registered caps }
    {
        Negotiation {
            caps,
            registration: Registration::Done,
        }
    }

    /// The capabilities that the session holds.
    pub fn caps(&self) -> CapSet
        ensures { result ≡ self.now.caps }
    {
        self.caps
    }

    /// Whether registration is held back.
    pub fn holding(&self) -> bool
        ensures { result ≡ spec.is_held self.now.registration }
    {
        self.registration.is_held()
    }

    fn ls(&mut self, alloc: Global, cluster: &[u8], nick: &[u8]) -> Result<Text, NoMemory>
        ensures answer { IfOk result (λ text. record { negotiation = self.new; line = Some text }
            ≡ spec.ls cluster.now nick.now self.old) }
        ensures err { OnErr result (self.new ≡ self.old) }
    {
        let list = list_of(alloc, CapSet::all())?;
        let text = cap_line(alloc, cluster, nick, b"LS", list.as_bytes())?;
        self.registration = self.registration.held_back();
        Ok(text)
    }

    fn list(&self, alloc: Global, cluster: &[u8], nick: &[u8]) -> Result<Text, NoMemory>
        ensures { IfOk result (λ text. record { negotiation = self.now; line = Some text }
            ≡ spec.list cluster.now nick.now self.now) }
    {
        let list = list_of(alloc, self.caps)?;
        cap_line(alloc, cluster, nick, b"LIST", list.as_bytes())
    }

    fn ack(
        &mut self,
        alloc: Global,
        cluster: &[u8],
        nick: &[u8],
        words: &[&[u8]],
        list: &[u8],
    ) -> Result<Text, NoMemory>
        requires { list.now ≡ joined (map (λ w. w.now) words.now) }
        ensures answer { IfOk result (λ text. record { negotiation = self.new; line = Some text }
            ≡ spec.ack cluster.now nick.now self.old (map (λ w. w.now) words.now)) }
        ensures err { OnErr result (self.new ≡ self.old) }
    {
        let text = cap_line(alloc, cluster, nick, b"ACK", list)?;
        self.caps = with_words(self.caps, words);
        self.registration = self.registration.held_back();
        Ok(text)
    }

    fn nak(
        &mut self,
        alloc: Global,
        cluster: &[u8],
        nick: &[u8],
        list: &[u8],
    ) -> Result<Text, NoMemory>
        ensures answer { IfOk result (λ text. record { negotiation = self.new; line = Some text }
            ≡ spec.nak cluster.now nick.now self.old list.now) }
        ensures err { OnErr result (self.new ≡ self.old) }
    {
        let text = cap_line(alloc, cluster, nick, b"NAK", prefix(list))?;
        self.registration = self.registration.held_back();
        Ok(text)
    }

    fn req(
        &mut self,
        alloc: Global,
        cluster: &[u8],
        nick: &[u8],
        list: &[u8],
    ) -> Result<Text, NoMemory>
        ensures answer { IfOk result (λ text. record { negotiation = self.new; line = Some text }
            ≡ spec.req cluster.now nick.now self.old (list.now ∷ [])) }
        ensures err { OnErr result (self.new ≡ self.old) }
    {
        let words = words_of(alloc, list)?;
        let list = joined(alloc, &words)?;
        if is_acknowledged(list.as_bytes(), &words) {
            self.ack(alloc, cluster, nick, &words, list.as_bytes())
        } else {
            self.nak(alloc, cluster, nick, list.as_bytes())
        }
    }

    fn invalid(
        &self,
        alloc: Global,
        cluster: &[u8],
        nick: &[u8],
        subcommand: &[u8],
    ) -> Result<Text, NoMemory>
        ensures { IfOk result (λ text. record { negotiation = self.now; line = Some text }
            ≡ spec.invalid cluster.now nick.now self.now subcommand.now) }
    {
        reply_text(
            alloc,
            cluster,
            b"410",
            &[nick, echoed(subcommand)],
            Some(b"Invalid CAP command"),
        )
    }

    fn answer_subcommand(
        &mut self,
        alloc: Global,
        cluster: &[u8],
        nick: &[u8],
        subcommand: &[u8],
        list: &[u8],
    ) -> Result<Option<Text>, NoMemory>
        ensures answer { IfOk result (λ line. record { negotiation = self.new; line = line }
            ≡ spec.subcommand_answer cluster.now nick.now self.old subcommand.now (list.now ∷ [])) }
        ensures memory { OnErr result (IsSome (spec.subcommand_answer cluster.now nick.now self.old
            subcommand.now (list.now ∷ [])).line) }
        ensures err { OnErr result (self.new ≡ self.old) }
    {
        let answer = if subcommand.eq_ignore_ascii_case(b"LS") {
            self.ls(alloc, cluster, nick)
        } else if subcommand.eq_ignore_ascii_case(b"LIST") {
            self.list(alloc, cluster, nick)
        } else if subcommand.eq_ignore_ascii_case(b"REQ") {
            self.req(alloc, cluster, nick, list)
        } else if subcommand.eq_ignore_ascii_case(b"END") {
            self.registration = self.registration.released();
            return Ok(None);
        } else {
            self.invalid(alloc, cluster, nick, subcommand)
        };
        Ok(Some(answer?))
    }

    /// Answers a CAP of these parameters (IRCv3 capability negotiation): [`step`](Negotiation::step) of a line whose
    /// command is known. `CAP END` has no answer. For want of memory nothing changes.
    pub fn answer_cap(
        &mut self,
        alloc: Global,
        parameters: &[&[u8]],
        cluster: &[u8],
        nick: &[u8],
    ) -> Result<Option<Text>, NoMemory>
        ensures answer { IfOk result (λ line. record { negotiation = self.new; line = line }
            ≡ spec.cap_answer cluster.now nick.now self.old (map (λ p. p.now) parameters.now)) }
        // Only an answer asks for memory.
        ensures memory { OnErr result (IsSome (spec.cap_answer cluster.now nick.now self.old
            (map (λ p. p.now) parameters.now)).line) }
        ensures err { OnErr result (self.new ≡ self.old) }
    {
        if parameters.is_empty() {
            Ok(Some(need_more_params(alloc, cluster, nick, b"CAP")?))
        } else if parameters.len() == 1 {
            self.answer_subcommand(alloc, cluster, nick, parameters[0], b"")
        } else {
            self.answer_subcommand(alloc, cluster, nick, parameters[0], parameters[1])
        }
    }

    fn answer(
        &mut self,
        alloc: Global,
        line: &Line<'_>,
        cluster: &[u8],
        nick: &[u8],
    ) -> Result<Option<Text>, NoMemory>
        ensures answer { IfOk result (λ answer. record { negotiation = self.new; line = answer }
            ≡ spec.answer cluster.now nick.now self.old line.now) }
        ensures memory { OnErr result
            (IsSome (spec.answer cluster.now nick.now self.old line.now).line) }
        ensures err { OnErr result (self.new ≡ self.old) }
    {
        if line.command().eq_ignore_ascii_case(b"CAP") {
            self.answer_cap(alloc, line.parameters(), cluster, nick)
        } else {
            Ok(None)
        }
    }

    /// Takes a line, and answers it if it is a CAP (IRCv3 capability negotiation); any other line changes nothing and has
    /// no answer. The nick is `*` before registration. For want of memory nothing changes.
    pub fn step(
        &mut self,
        alloc: Global,
        line: &Line<'_>,
        cluster: &[u8],
        nick: &[u8],
    ) -> Result<CapReply, NoMemory>
        ensures answer { IfOk result
            (λ reply. record { negotiation = self.new; line = reply.line }
            ≡ spec.answer cluster.now nick.now self.old line.now) }
        ensures holding { IfOk result (λ reply. reply.is_holding
            ≡ spec.is_held self.new.registration) }
        // Only an answer asks for memory.
        ensures memory { OnErr result
            (IsSome (spec.answer cluster.now nick.now self.old line.now).line) }
        ensures err { OnErr result (self.new ≡ self.old) }
    {
        let line = self.answer(alloc, line, cluster, nick)?;
        Ok(CapReply {
            line,
            is_holding: self.holding(),
        })
    }
}
