//! What each line of a server does.
ghost use Rattle.std.specs.Prelude.{◌≡◌, ◌++◌, ◌∷◌, [], map, true, IfOk, OnErr};
ghost use Rattle.std.specs.Option.{option_copied, option_map};
ghost use Rattle.irc_caps.specs.Negotiation.{list_in};
ghost use Rattle.irc_tags.specs.TagList.{tag_list};
ghost use Rattle.chat_change.specs.Message.{value_of};
ghost use Rattle.chat_change.specs.Words as words;
ghost use Rattle.upstream_session.specs.Messages as messages;
ghost use Rattle.irc_reply.specs.ToServer as lines;
ghost use Rattle.upstream_session.specs.Rows as spec;
ghost use Rattle.upstream_session.specs.MessageOutcome.{after};
ghost use Rattle.upstream_session.specs.declared.effect.UpEffect.TheVariants as effects;

use crate::command::{ServerCommand, command_of};
use crate::connection::{LAST_SERIAL, MOST_TRIES, MessageOutcome, ServerSession};
use crate::effect::UpEffect;
use crate::effects::{one, push, send};
use crate::heard::HeardLine;
use crate::messages::{MessageStamp, TaggedMessage, has_buffer, is_same_nick, made_id, stamp_of};
use crate::scratch::Scratch;
use byte_text::{NoMemory, Text};
use chat_change::{Change, Kind, Message, MsgId, is_id, is_star, is_target, lawful_id};
use irc_caps::{Capability, Recipients, request, with_acknowledged, with_offers};
use irc_line::Line;
use irc_reply::to_client::{relayed_line, tagged_line};
use irc_reply::to_server::{cap_end, join_line, nick_line, pong_line, with_underscores};
use irc_tags::line_tags;
use std::alloc::Global;

/// The list behind a subcommand of CAP; empty where there is none.
fn list_in<'a>(parameters: &[&'a [u8]]) -> &'a [u8]
    ensures { result.now ≡ list_in (map (λ p. p.now) parameters.now) }
{
    match parameters {
        [list, ..] => list,
        [] => b"",
    }
}

/// The first parameter, where it is a nick or a channel.
fn first_target<'a>(parameters: &[&'a [u8]]) -> Option<&'a [u8]>
    ensures { option_copied result ≡ spec.first_target (map (λ p. p.now) parameters.now) }
{
    match parameters {
        [word, ..] => { if is_target(word) { Some(word) } else { None } }
        [] => None,
    }
}

fn copy_of(alloc: Global, text: Option<&[u8]>) -> Result<Option<Text>, NoMemory>
    ensures { IfOk result (λ copy. copy ≡ option_copied text.entry) }
{
    match text {
        None => Ok(None),
        Some(text) => Ok(Some(Text::new(alloc, text)?)),
    }
}

fn relay_to_all(
    alloc: Global,
    scratch: &mut Scratch,
    heard: &HeardLine<'_>,
) -> Result<Vec<UpEffect>, NoMemory>
    ensures { IfOk result (λ list. list.items
        ≡ spec.relay_to_all heard.now.line.now heard.now.bytes.now) }
{
    let text = relayed_line(scratch.text_room(alloc), heard.line.source(), heard.bytes)?;
    scratch.one(alloc, UpEffect::Relay(text, Recipients::All))
}

fn push_join(alloc: Global, list: &mut Vec<UpEffect>, channel: &[u8]) -> Result<(), NoMemory>
    ensures { IfOk result (λ _. list.new.items
        ≡ list.old.items ++ effects.Send (lines.join_line channel.now) ∷ []) }
{
    let text = join_line(alloc, channel)?;
    push(list, UpEffect::Send(text))
}

fn joins(alloc: Global, channels: &[Text]) -> Result<Vec<UpEffect>, NoMemory>
    ensures { IfOk result (λ list. list.items ≡ spec.joins channels.now) }
{
    let mut list = Vec::new(alloc);
    for channel in channels {
        push_join(alloc, &mut list, channel.as_bytes())?;
    }
    Ok(list)
}

impl ServerSession {
    // Once the network is up, a line is passed on as it is.
    fn pass_on(
        &self,
        alloc: Global,
        scratch: &mut Scratch,
        heard: &HeardLine<'_>,
    ) -> Result<Vec<UpEffect>, NoMemory>
        ensures { IfOk result (λ list. list.items
            ≡ spec.pass_on self.now heard.now.line.now heard.now.bytes.now) }
    {
        if self.entry.is_up() {
            relay_to_all(alloc, scratch, heard)
        } else {
            Ok(Vec::new(alloc))
        }
    }

    // More offers are to come.
    fn gather(&mut self, alloc: Global, list: &[u8]) -> Result<Vec<UpEffect>, NoMemory>
        ensures ok { IfOk result (λ effects. record { session = self.new; effects = effects.items }
            ≡ spec.gather self.old list.now) }
        ensures err { OnErr result (self.new ≡ self.old) }
    {
        self.offered = with_offers(alloc, self.offered, list)?;
        Ok(Vec::new(alloc))
    }

    // These offers are the last.
    fn ask(&mut self, alloc: Global, list: &[u8]) -> Result<Vec<UpEffect>, NoMemory>
        ensures ok { IfOk result (λ effects. record { session = self.new; effects = effects.items }
            ≡ spec.ask self.old list.now) }
        ensures err { OnErr result (self.new ≡ self.old) }
    {
        let offered = with_offers(alloc, self.offered, list)?;
        let text = request(alloc, offered)?;
        let effects = send(alloc, text)?;
        self.offered = offered;
        Ok(effects)
    }

    fn ls(&mut self, alloc: Global, parameters: &[&[u8]]) -> Result<Vec<UpEffect>, NoMemory>
        ensures ok { IfOk result (λ effects. record { session = self.new; effects = effects.items }
            ≡ spec.ls self.old (map (λ p. p.now) parameters.now)) }
        ensures err { OnErr result (self.new ≡ self.old) }
    {
        match parameters {
            [first, list, ..] => {
                if is_star(first) {
                    self.gather(alloc, list)
                } else {
                    self.ask(alloc, first)
                }
            }
            _ => self.ask(alloc, list_in(parameters)),
        }
    }

    fn ack(&mut self, alloc: Global, list: &[u8]) -> Result<Vec<UpEffect>, NoMemory>
        ensures ok { IfOk result (λ effects. record { session = self.new; effects = effects.items }
            ≡ spec.ack self.old list.now) }
        ensures err { OnErr result (self.new ≡ self.old) }
    {
        let held = with_acknowledged(alloc, self.held, list)?;
        let text = cap_end(alloc)?;
        let effects = send(alloc, text)?;
        self.held = held;
        self.entry.set_takes_redact(held.message_redaction);
        Ok(effects)
    }

    fn nak(&self, alloc: Global) -> Result<Vec<UpEffect>, NoMemory>
        ensures { IfOk result (λ list. list.items ≡ effects.Send lines.cap_end ∷ []) }
    {
        let text = cap_end(alloc)?;
        send(alloc, text)
    }

    /// CAP (IRCv3 capability negotiation).
    fn cap(&mut self, alloc: Global, parameters: &[&[u8]]) -> Result<Vec<UpEffect>, NoMemory>
        ensures ok { IfOk result (λ effects. record { session = self.new; effects = effects.items }
            ≡ spec.cap self.old (map (λ p. p.now) parameters.now)) }
        ensures err { OnErr result (self.new ≡ self.old) }
    {
        match parameters {
            [_, subcommand, more @ ..] => {
                if subcommand.eq_ignore_ascii_case(b"LS") {
                    self.ls(alloc, more)
                } else if subcommand.eq_ignore_ascii_case(b"ACK") {
                    self.ack(alloc, list_in(more))
                } else if subcommand.eq_ignore_ascii_case(b"NAK") {
                    self.nak(alloc)
                } else {
                    Ok(Vec::new(alloc))
                }
            }
            _ => Ok(Vec::new(alloc)),
        }
    }

    fn set_nick(&mut self, nick: Option<Text>)
        ensures { self.new ≡ spec.with_nick self.old nick }
    {
        if let Some(nick) = nick {
            self.entry.set_nick(nick);
        }
    }

    /// 001 (RPL_WELCOME, RFC 2812, section 5.1).
    fn welcome(&mut self, alloc: Global, parameters: &[&[u8]]) -> Result<Vec<UpEffect>, NoMemory>
        ensures ok { IfOk result (λ effects. record { session = self.new; effects = effects.items }
            ≡ spec.welcome self.old (map (λ p. p.now) parameters.now)) }
        ensures err { OnErr result (self.new ≡ self.old) }
    {
        let nick = copy_of(alloc, first_target(parameters))?;
        let effects = joins(alloc, self.home.channels.names())?;
        self.set_nick(nick);
        self.entry.set_up(true);
        Ok(effects)
    }

    fn next_nick(&self, alloc: Global, count: usize) -> Result<Vec<UpEffect>, NoMemory>
        requires { count ≤ MOST_TRIES }
        ensures { IfOk result (λ list. list.items ≡ effects.Send
            (lines.nick_line (lines.with_underscores self.now.entry.nick count)) ∷ []) }
    {
        let nick = with_underscores(alloc, self.entry.nick(), count)?;
        let text = nick_line(alloc, nick.as_bytes())?;
        send(alloc, text)
    }

    fn try_again(&mut self, alloc: Global) -> Result<Vec<UpEffect>, NoMemory>
        ensures ok { IfOk result (λ effects. record { session = self.new; effects = effects.items }
            ≡ spec.try_again self.old) }
        ensures err { OnErr result (self.new ≡ self.old) }
    {
        if self.tries < MOST_TRIES {
            let count = self.tries + 1;
            let effects = self.next_nick(alloc, count)?;
            self.tries = count;
            Ok(effects)
        } else {
            self.close(alloc)
        }
    }

    // The session is over.
    fn close(&mut self, alloc: Global) -> Result<Vec<UpEffect>, NoMemory>
        ensures ok { IfOk result (λ effects. record { session = self.new; effects = effects.items }
            ≡ closes self.old) }
        ensures err { OnErr result (self.new ≡ self.old) }
    {
        let effects = one(alloc, UpEffect::Close)?;
        self.is_closed = true;
        Ok(effects)
    }

    /// 433 (ERR_NICKNAMEINUSE, RFC 2812, section 5.2).
    fn nick_in_use(
        &mut self,
        alloc: Global,
        scratch: &mut Scratch,
        heard: &HeardLine<'_>,
    ) -> Result<Vec<UpEffect>, NoMemory>
        ensures ok { IfOk result (λ effects. record { session = self.new; effects = effects.items }
            ≡ spec.nick_in_use self.old heard.now.line.now heard.now.bytes.now) }
        ensures err { OnErr result (self.new ≡ self.old) }
    {
        if self.entry.is_up() {
            relay_to_all(alloc, scratch, heard)
        } else {
            self.try_again(alloc)
        }
    }

    /// PING (RFC 2812, section 3.7.2).
    fn ping(
        &self,
        alloc: Global,
        scratch: &mut Scratch,
        heard: &HeardLine<'_>,
    ) -> Result<Vec<UpEffect>, NoMemory>
        ensures { IfOk result (λ list. record { session = self.now; effects = list.items }
            ≡ spec.ping self.now heard.now.line.now heard.now.bytes.now
            heard.now.line.now.parameters) }
    {
        match heard.line.parameters() {
            [word, ..] => {
                let text = pong_line(alloc, word)?;
                send(alloc, text)
            }
            [] => self.pass_on(alloc, scratch, heard),
        }
    }

    // The network is up, and the line comes from the session itself.
    fn is_up_and_own(&self, line: &Line<'_>) -> bool
        ensures { result ≡ spec.is_up_and_own self.now line.now }
    {
        self.entry.is_up() && self.is_own(self.source_of(line.source()))
    }

    // The nick that the session itself takes by a NICK, or the channel that it joins by a JOIN.
    fn own_target<'a>(&self, line: &Line<'a>) -> Option<&'a [u8]>
        ensures { option_copied result ≡ spec.own_join self.now line.now }
    {
        if self.is_up_and_own(line) {
            first_target(line.parameters())
        } else {
            None
        }
    }

    /// NICK (RFC 2812, section 3.1.2).
    fn nick(
        &mut self,
        alloc: Global,
        scratch: &mut Scratch,
        heard: &HeardLine<'_>,
    ) -> Result<Vec<UpEffect>, NoMemory>
        ensures ok { IfOk result (λ effects. record { session = self.new; effects = effects.items }
            ≡ spec.nick self.old heard.now.line.now heard.now.bytes.now) }
        ensures err { OnErr result (self.new ≡ self.old) }
    {
        let effects = self.pass_on(alloc, scratch, heard)?;
        let nick = copy_of(alloc, self.own_target(heard.line))?;
        self.set_nick(nick);
        Ok(effects)
    }

    fn join_if(&mut self, alloc: Global, channel: Option<&[u8]>) -> Result<(), NoMemory>
        ensures ok { IfOk result (λ _.
            self.new ≡ spec.join_if self.old (option_copied channel.entry)) }
        ensures err { OnErr result (self.new ≡ self.old) }
    {
        match channel {
            None => Ok(()),
            Some(name) => {
                let name = Text::new(alloc, name)?;
                self.entry.join(name)
            }
        }
    }

    /// JOIN (RFC 2812, section 3.2.1).
    fn join(
        &mut self,
        alloc: Global,
        scratch: &mut Scratch,
        heard: &HeardLine<'_>,
    ) -> Result<Vec<UpEffect>, NoMemory>
        ensures ok { IfOk result (λ effects. record { session = self.new; effects = effects.items }
            ≡ spec.join self.old heard.now.line.now heard.now.bytes.now) }
        ensures err { OnErr result (self.new ≡ self.old) }
    {
        let effects = self.pass_on(alloc, scratch, heard)?;
        self.join_if(alloc, self.own_target(heard.line))?;
        Ok(effects)
    }

    /// The channel that the session itself joins by a line of the server.
    pub(crate) fn joined<'a>(&self, line: &Line<'a>) -> Option<&'a [u8]>
        ensures { option_copied result
            ≡ spec.joined_by self.now line.now (command_of line.now.command) }
    {
        match command_of(line.command()) {
            ServerCommand::Join => self.own_target(line),
            _ => None,
        }
    }

    fn leave(&mut self, parameters: &[&[u8]])
        ensures { self.new ≡ spec.leave self.old (map (λ p. p.now) parameters.now) }
    {
        match parameters {
            [channel, ..] => self.entry.part(channel),
            [] => {}
        }
    }

    /// PART (RFC 2812, section 3.2.2).
    fn part(
        &mut self,
        alloc: Global,
        scratch: &mut Scratch,
        heard: &HeardLine<'_>,
    ) -> Result<Vec<UpEffect>, NoMemory>
        ensures ok { IfOk result (λ effects. record { session = self.new; effects = effects.items }
            ≡ spec.part self.old heard.now.line.now heard.now.bytes.now) }
        ensures err { OnErr result (self.new ≡ self.old) }
    {
        let effects = self.pass_on(alloc, scratch, heard)?;
        if self.is_up_and_own(heard.line) {
            self.leave(heard.line.parameters());
        }
        Ok(effects)
    }

    fn put_out(&mut self, parameters: &[&[u8]])
        ensures { self.new ≡ spec.put_out self.old (map (λ p. p.now) parameters.now) }
    {
        match parameters {
            [channel, nick, ..] => {
                if is_same_nick(nick, self.entry.nick()) {
                    self.entry.part(channel);
                }
            }
            _ => {}
        }
    }

    /// KICK (RFC 2812, section 3.2.8).
    fn kick(
        &mut self,
        alloc: Global,
        scratch: &mut Scratch,
        heard: &HeardLine<'_>,
    ) -> Result<Vec<UpEffect>, NoMemory>
        ensures ok { IfOk result (λ effects. record { session = self.new; effects = effects.items }
            ≡ spec.kick self.old heard.now.line.now heard.now.bytes.now) }
        ensures err { OnErr result (self.new ≡ self.old) }
    {
        let effects = self.pass_on(alloc, scratch, heard)?;
        if self.entry.is_up() {
            self.put_out(heard.line.parameters());
        }
        Ok(effects)
    }

    // A message is kept under that id.
    fn keep_under(
        &self,
        alloc: Global,
        scratch: &mut Scratch,
        id: MsgId,
        tagged: &TaggedMessage<'_, '_>,
    ) -> Result<Vec<UpEffect>, NoMemory>
        requires { messages.can_be_kept self.now (value_of tagged.now.message) ≡ true }
        ensures { IfOk result (λ list. list.items ≡ messages.post self.now id tagged.now.at
            (messages.kept_read tagged.now.tags.now) (value_of tagged.now.message) ∷ []) }
    {
        let post = self.post(alloc, scratch, id, tagged)?;
        scratch.one(alloc, post)
    }

    fn keep_made(
        &self,
        alloc: Global,
        scratch: &mut Scratch,
        heard: &HeardLine<'_>,
        tagged: &TaggedMessage<'_, '_>,
    ) -> Result<(MessageOutcome, Vec<UpEffect>), NoMemory>
        requires can { messages.can_be_kept self.now (value_of tagged.now.message) ≡ true }
        requires tags { tagged.now.tags.now ≡ option_map tag_list heard.now.line.now.tags }
        ensures { IfOk result (λ r. record { session = after r.0 self.now; effects = r.1.items }
            ≡ spec.keep_made self.now heard.now.line.now heard.now.bytes.now
            (value_of tagged.now.message) tagged.now.at) }
    {
        if self.serial == LAST_SERIAL {
            let list = one(alloc, UpEffect::Close)?;
            return Ok((MessageOutcome::Closes, list));
        }
        match made_id(alloc, &self.home, self.serial)? {
            None => {
                let list = relay_to_all(alloc, scratch, heard)?;
                Ok((MessageOutcome::Stays, list))
            }
            Some(id) => {
                let list = self.keep_under(alloc, scratch, id, tagged)?;
                Ok((MessageOutcome::Counts(self.serial + 1), list))
            }
        }
    }

    #[tactic(auto, using(crate::proofs::KeptLemmas::kept_tags_read))]
    fn keep_stamped(
        &self,
        alloc: Global,
        scratch: &mut Scratch,
        heard: &HeardLine<'_>,
        id: Option<MsgId>,
        tagged: &TaggedMessage<'_, '_>,
    ) -> Result<(MessageOutcome, Vec<UpEffect>), NoMemory>
        requires can { messages.can_be_kept self.now (value_of tagged.now.message) ≡ true }
        requires tags { tagged.now.tags.now ≡ option_map tag_list heard.now.line.now.tags }
        ensures { IfOk result (λ r. record { session = after r.0 self.now; effects = r.1.items }
            ≡ spec.keep_stamped self.now heard.now.line.now heard.now.bytes.now
            (value_of tagged.now.message) id tagged.now.at) }
    {
        match id {
            None => self.keep_made(alloc, scratch, heard, tagged),
            Some(id) => {
                let list = self.keep_under(alloc, scratch, id, tagged)?;
                Ok((MessageOutcome::Stays, list))
            }
        }
    }

    fn keep<'a>(
        &self,
        alloc: Global,
        scratch: &mut Scratch,
        heard: &HeardLine<'a>,
        message: Message<'a>,
    ) -> Result<(MessageOutcome, Vec<UpEffect>), NoMemory>
        ensures { IfOk result (λ r. record { session = after r.0 self.now; effects = r.1.items }
            ≡ spec.keep self.now heard.now.at heard.now.line.now heard.now.bytes.now
            (value_of message.entry)) }
    {
        if self.can_be_kept(message) {
            let tags = &line_tags(alloc, heard.line.tags())?;
            let MessageStamp { id, at } = stamp_of(alloc, tags, heard.at)?;
            let tagged = TaggedMessage { message, tags, at };
            self.keep_stamped(alloc, scratch, heard, id, &tagged)
        } else {
            let list = relay_to_all(alloc, scratch, heard)?;
            Ok((MessageOutcome::Stays, list))
        }
    }

    fn serve_message(
        &self,
        alloc: Global,
        scratch: &mut Scratch,
        kind: Kind,
        heard: &HeardLine<'_>,
    ) -> Result<(MessageOutcome, Vec<UpEffect>), NoMemory>
        ensures { IfOk result (λ r. record { session = after r.0 self.now; effects = r.1.items }
            ≡ spec.message self.now heard.now.at kind heard.now.line.now heard.now.bytes.now
            heard.now.line.now.parameters) }
    {
        match heard.line.parameters() {
            [target, body, ..] => {
                if self.entry.is_up() {
                    let source = self.source_of(heard.line.source());
                    let message = Message {
                        kind,
                        source,
                        target,
                        body,
                    };
                    self.keep(alloc, scratch, heard, message)
                } else {
                    Ok((MessageOutcome::Stays, Vec::new(alloc)))
                }
            }
            _ => {
                let list = self.pass_on(alloc, scratch, heard)?;
                Ok((MessageOutcome::Stays, list))
            }
        }
    }

    /// PRIVMSG and NOTICE (RFC 2812, section 3.3).
    fn message(
        &mut self,
        alloc: Global,
        scratch: &mut Scratch,
        kind: Kind,
        heard: &HeardLine<'_>,
    ) -> Result<Vec<UpEffect>, NoMemory>
        ensures ok { IfOk result (λ effects. record { session = self.new; effects = effects.items }
            ≡ spec.message self.old heard.now.at kind heard.now.line.now heard.now.bytes.now
            heard.now.line.now.parameters) }
        ensures err { OnErr result (self.new ≡ self.old) }
    {
        let (outcome, list) = self.serve_message(alloc, scratch, kind, heard)?;
        self.go_on(outcome);
        Ok(list)
    }

    fn redact_change(
        &self,
        alloc: Global,
        scratch: &mut Scratch,
        talk: &[u8],
        id: &[u8],
    ) -> Result<UpEffect, NoMemory>
        requires buffer { messages.has_buffer self.now.home talk.now ≡ true }
        requires id { words.is_id id.now ≡ true }
        ensures { IfOk result (λ effect. effect ≡ effects.Put (changes.Redact
            (buffer_of self.now.home.account self.now.home.network talk.now) id.now None)) }
    {
        let buffer = scratch.buffers.buffer_for(alloc, &self.home, talk)?;
        let id = lawful_id(alloc, id)?;
        Ok(UpEffect::Put(Change::Redact {
            buffer,
            id,
            at: None,
        }))
    }

    fn redaction(
        &self,
        alloc: Global,
        scratch: &mut Scratch,
        source: &[u8],
        target: &[u8],
        id: &[u8],
    ) -> Result<Vec<UpEffect>, NoMemory>
        ensures { IfOk result (λ list. list.items
            ≡ spec.redaction self.now source.now target.now id.now) }
    {
        let talk = self.conversation(source, target);
        if has_buffer(&self.home, talk) && is_id(id) {
            let change = self.redact_change(alloc, scratch, talk, id)?;
            scratch.one(alloc, change)
        } else {
            Ok(Vec::new(alloc))
        }
    }

    // The message is redacted, and the line is passed on to the sessions that know of redactions.
    fn relay_redaction(
        &self,
        alloc: Global,
        scratch: &mut Scratch,
        heard: &HeardLine<'_>,
        target: &[u8],
        id: &[u8],
    ) -> Result<Vec<UpEffect>, NoMemory>
        ensures { IfOk result (λ list. list.items
            ≡ spec.relay_redaction self.now heard.now.line.now heard.now.bytes.now
            target.now id.now) }
    {
        let source = self.source_of(heard.line.source());
        let mut list = self.redaction(alloc, scratch, source, target, id)?;
        let text = relayed_line(scratch.text_room(alloc), heard.line.source(), heard.bytes)?;
        let to = Recipients::Holding(Capability::MessageRedaction);
        push(&mut list, UpEffect::Relay(text, to))?;
        Ok(list)
    }

    /// REDACT (IRCv3 draft/message-redaction).
    fn redact(
        &self,
        alloc: Global,
        scratch: &mut Scratch,
        heard: &HeardLine<'_>,
    ) -> Result<Vec<UpEffect>, NoMemory>
        ensures { IfOk result (λ list. record { session = self.now; effects = list.items }
            ≡ spec.redact self.now heard.now.line.now heard.now.bytes.now
            heard.now.line.now.parameters) }
    {
        match heard.line.parameters() {
            [target, id, ..] => {
                if self.entry.is_up() && self.entry.takes_redact() {
                    self.relay_redaction(alloc, scratch, heard, target, id)
                } else {
                    self.pass_on(alloc, scratch, heard)
                }
            }
            _ => self.pass_on(alloc, scratch, heard),
        }
    }

    /// TAGMSG (IRCv3 message-tags).
    fn tagmsg(
        &self,
        alloc: Global,
        scratch: &mut Scratch,
        heard: &HeardLine<'_>,
    ) -> Result<Vec<UpEffect>, NoMemory>
        ensures { IfOk result (λ list. record { session = self.now; effects = list.items }
            ≡ spec.tagmsg self.now heard.now.line.now heard.now.bytes.now) }
    {
        if !self.entry.is_up() {
            return Ok(Vec::new(alloc));
        }
        let line = heard.line;
        let room = scratch.text_room(alloc);
        let text = tagged_line(room, line.tags(), line.source(), heard.bytes)?;
        let to = Recipients::Holding(Capability::MessageTags);
        scratch.one(alloc, UpEffect::Relay(text, to))
    }

    /// What a line of the server does. For want of memory nothing changes.
    pub(crate) fn serve(
        &mut self,
        alloc: Global,
        scratch: &mut Scratch,
        heard: &HeardLine<'_>,
    ) -> Result<Vec<UpEffect>, NoMemory>
        ensures ok { IfOk result (λ effects. record { session = self.new; effects = effects.items }
            ≡ spec.serve self.old heard.now.at heard.now.bytes.now heard.now.line.now
            (command_of heard.now.line.now.command)) }
        ensures err { OnErr result (self.new ≡ self.old) }
    {
        match command_of(heard.line.command()) {
            ServerCommand::Cap => self.cap(alloc, heard.line.parameters()),
            ServerCommand::Welcome => self.welcome(alloc, heard.line.parameters()),
            ServerCommand::Greeting => Ok(Vec::new(alloc)),
            ServerCommand::NickInUse => self.nick_in_use(alloc, scratch, heard),
            ServerCommand::Ping => self.ping(alloc, scratch, heard),
            ServerCommand::Error => self.close(alloc),
            ServerCommand::Nick => self.nick(alloc, scratch, heard),
            ServerCommand::Join => self.join(alloc, scratch, heard),
            ServerCommand::Part => self.part(alloc, scratch, heard),
            ServerCommand::Kick => self.kick(alloc, scratch, heard),
            ServerCommand::Privmsg => self.message(alloc, scratch, Kind::Privmsg, heard),
            ServerCommand::Notice => self.message(alloc, scratch, Kind::Notice, heard),
            ServerCommand::Redact => self.redact(alloc, scratch, heard),
            ServerCommand::Tagmsg => self.tagmsg(alloc, scratch, heard),
            ServerCommand::Other => self.pass_on(alloc, scratch, heard),
        }
    }
}

ghost use Rattle.std.specs.Prelude.{◌≤◌, None};
ghost use Rattle.chat_change.specs.Buffer.{buffer_of};
ghost use Rattle.chat_change.specs.declared.change.Change.TheVariants as changes;
ghost use Rattle.upstream_session.specs.Step.{closes};
ghost use Rattle.upstream_session.specs.Command.{command_of};
