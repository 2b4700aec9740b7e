//! What a client's line for the server does.
ghost use Rattle.std.specs.Prelude.{◌≡◌, ◌<◌, map, true, IfOk};
ghost use Rattle.std.specs.Option.{option_copied};
ghost use Rattle.irc_line.specs.declared.line.TagLimit.TheVariants.{Client};
ghost use Rattle.chat_change.specs.Message.{value_of};
ghost use Rattle.upstream_session.specs.Messages as messages;
ghost use Rattle.upstream_session.specs.Sayings as spec;
ghost use Rattle.upstream_session.specs.MessageOutcome.{after};
ghost use Rattle.upstream_session.specs.Step.{stays};
ghost use Rattle.upstream_session.specs.Command.{command_of};

use crate::command::{ServerCommand, command_of};
use crate::connection::{LAST_SERIAL, MessageOutcome, ServerSession};
use crate::effect::UpEffect;
use crate::effects::{one, push};
use crate::heard::HeardLine;
use crate::messages::{TaggedMessage, made_id};
use crate::scratch::Scratch;
use byte_text::NoMemory;
use chat_change::{Kind, Message, Moment};
use irc_line::{TagLimit, read_line};
use irc_reply::to_server::{line_of_tags, passed_line, tagged_line};
use irc_tags::{Tags, line_tags};
use std::alloc::Global;

/// The line without the CR LF at its end, if it has that.
pub(crate) fn without_ending(bytes: &[u8]) -> &[u8]
    ensures { result.now ≡ spec.without_ending bytes.now }
{
    match bytes.strip_suffix(b"\r\n") {
        Some(text) => text,
        None => bytes,
    }
}

fn send_line(alloc: Global, scratch: &mut Scratch, text: &[u8]) -> Result<Vec<UpEffect>, NoMemory>
    ensures { IfOk result (λ list. list.items ≡ spec.send_line text.now) }
{
    let line = passed_line(scratch.text_room(alloc), text)?;
    scratch.one(alloc, UpEffect::Send(line))
}

fn send_tagged(
    alloc: Global,
    scratch: &mut Scratch,
    tags: Option<&[u8]>,
    text: &[u8],
) -> Result<Vec<UpEffect>, NoMemory>
    ensures { IfOk result (λ list. list.items
        ≡ spec.send_tagged (option_copied tags.entry) text.now) }
{
    let line = tagged_line(scratch.text_room(alloc), tags, text)?;
    scratch.one(alloc, UpEffect::Send(line))
}

// The same of tags that were read.
fn send_of_tags(
    alloc: Global,
    scratch: &mut Scratch,
    tags: &Option<Tags<'_>>,
    text: &[u8],
) -> Result<Vec<UpEffect>, NoMemory>
    ensures { IfOk result (λ list. list.items ≡ spec.send_of_tags tags.now text.now) }
{
    let line = line_of_tags(scratch.text_room(alloc), tags, text)?;
    scratch.one(alloc, UpEffect::Send(line))
}

impl ServerSession {
    fn send_only(
        &self,
        alloc: Global,
        scratch: &mut Scratch,
        text: &[u8],
    ) -> Result<(MessageOutcome, Vec<UpEffect>), NoMemory>
        ensures { IfOk result (λ r. record { session = after r.0 self.now; effects = r.1.items }
            ≡ stays self.now (spec.send_line text.now)) }
    {
        let list = send_line(alloc, scratch, text)?;
        Ok((MessageOutcome::Stays, list))
    }

    // The tags that a line goes with: none to a server that takes no tags.
    fn sent_tags<'a>(&self, tags: Option<&'a [u8]>) -> Option<&'a [u8]>
        ensures { option_copied result ≡ spec.sent_tags self.now (option_copied tags.entry) }
    {
        if self.held.message_tags { tags } else { None }
    }

    fn send_only_tagged(
        &self,
        alloc: Global,
        scratch: &mut Scratch,
        heard: &HeardLine<'_>,
    ) -> Result<(MessageOutcome, Vec<UpEffect>), NoMemory>
        ensures { IfOk result (λ r. record { session = after r.0 self.now; effects = r.1.items }
            ≡ stays self.now (spec.send_tagged
            (spec.sent_tags self.now heard.now.line.now.tags) heard.now.bytes.now)) }
    {
        let tags = self.sent_tags(heard.line.tags());
        let list = send_tagged(alloc, scratch, tags, heard.bytes)?;
        Ok((MessageOutcome::Stays, list))
    }

    // TAGMSG, which doesn't go to a server that takes no tags.
    fn say_tagmsg(
        &self,
        alloc: Global,
        scratch: &mut Scratch,
        heard: &HeardLine<'_>,
    ) -> Result<(MessageOutcome, Vec<UpEffect>), NoMemory>
        ensures { IfOk result (λ r. record { session = after r.0 self.now; effects = r.1.items }
            ≡ spec.say_tagmsg self.now heard.now.bytes.now heard.now.line.now.tags) }
    {
        if self.held.message_tags {
            self.send_only_tagged(alloc, scratch, heard)
        } else {
            Ok((MessageOutcome::Stays, Vec::new(alloc)))
        }
    }

    // Whether the message is kept here: the server doesn't send it back.
    fn is_kept_here(&self, message: Message<'_>) -> bool
        ensures { result ≡ spec.is_kept_here self.now (value_of message.entry) }
    {
        self.entry.is_up() && (!self.held.echo_message && self.can_be_kept(message))
    }

    // The message goes with the tags that were read of its line, and is kept with them.
    fn say_of_tags(
        &self,
        alloc: Global,
        scratch: &mut Scratch,
        text: &[u8],
        tagged: &TaggedMessage<'_, '_>,
    ) -> Result<(MessageOutcome, Vec<UpEffect>), NoMemory>
        requires can { messages.can_be_kept self.now (value_of tagged.now.message) ≡ true }
        requires more { self.now.serial < LAST_SERIAL }
        ensures { IfOk result (λ r. record { session = after r.0 self.now; effects = r.1.items }
            ≡ spec.say_of_tags self.now tagged.now.at text.now tagged.now.tags.now
            (value_of tagged.now.message) (messages.made_id self.now.home self.now.serial)) }
    {
        let mut list = send_of_tags(alloc, scratch, tagged.tags, text)?;
        match made_id(alloc, &self.home, self.serial)? {
            None => Ok((MessageOutcome::Stays, list)),
            Some(id) => {
                let post = self.post(alloc, scratch, id, tagged)?;
                push(&mut list, post)?;
                Ok((MessageOutcome::Counts(self.serial + 1), list))
            }
        }
    }

    fn say_kept<'a>(
        &self,
        alloc: Global,
        scratch: &mut Scratch,
        heard: &HeardLine<'a>,
        message: Message<'a>,
    ) -> Result<(MessageOutcome, Vec<UpEffect>), NoMemory>
        requires { messages.can_be_kept self.now (value_of message) ≡ true }
        ensures { IfOk result (λ r. record { session = after r.0 self.now; effects = r.1.items }
            ≡ spec.say_kept self.now heard.now.at heard.now.bytes.now
            (spec.sent_tags self.now heard.now.line.now.tags) (value_of message.entry)) }
    {
        if self.serial == LAST_SERIAL {
            let list = one(alloc, UpEffect::Close)?;
            return Ok((MessageOutcome::Closes, list));
        }
        let read = line_tags(alloc, self.sent_tags(heard.line.tags()))?;
        let tagged = TaggedMessage {
            message,
            tags: &read,
            at: heard.at,
        };
        let said = self.say_of_tags(alloc, scratch, heard.bytes, &tagged)?;
        Ok(said)
    }

    fn say_message(
        &self,
        alloc: Global,
        scratch: &mut Scratch,
        heard: &HeardLine<'_>,
        message: Message<'_>,
    ) -> Result<(MessageOutcome, Vec<UpEffect>), NoMemory>
        ensures { IfOk result (λ r. record { session = after r.0 self.now; effects = r.1.items }
            ≡ spec.say_message self.now heard.now.at heard.now.bytes.now
            (spec.sent_tags self.now heard.now.line.now.tags) (value_of message.entry)) }
    {
        if self.is_kept_here(message) {
            self.say_kept(alloc, scratch, heard, message)
        } else {
            self.send_only_tagged(alloc, scratch, heard)
        }
    }

    fn say_words(
        &self,
        alloc: Global,
        scratch: &mut Scratch,
        kind: Kind,
        heard: &HeardLine<'_>,
    ) -> Result<(MessageOutcome, Vec<UpEffect>), NoMemory>
        ensures { IfOk result (λ r. record { session = after r.0 self.now; effects = r.1.items }
            ≡ spec.say_words self.now heard.now.at heard.now.bytes.now
            (spec.sent_tags self.now heard.now.line.now.tags) kind
            heard.now.line.now.parameters) }
    {
        match heard.line.parameters() {
            [target, body, ..] => {
                let source = self.entry.nick();
                let message = Message {
                    kind,
                    source,
                    target,
                    body,
                };
                self.say_message(alloc, scratch, heard, message)
            }
            _ => self.send_only_tagged(alloc, scratch, heard),
        }
    }

    // What a client's line that could be read does.
    fn say_command(
        &self,
        alloc: Global,
        scratch: &mut Scratch,
        heard: &HeardLine<'_>,
    ) -> Result<(MessageOutcome, Vec<UpEffect>), NoMemory>
        ensures { IfOk result (λ r. record { session = after r.0 self.now; effects = r.1.items }
            ≡ spec.say_command self.now heard.now.at heard.now.bytes.now heard.now.line.now
            (command_of heard.now.line.now.command)) }
    {
        match command_of(heard.line.command()) {
            ServerCommand::Privmsg => self.say_words(alloc, scratch, Kind::Privmsg, heard),
            ServerCommand::Notice => self.say_words(alloc, scratch, Kind::Notice, heard),
            ServerCommand::Tagmsg => self.say_tagmsg(alloc, scratch, heard),
            ServerCommand::Cap
            | ServerCommand::Welcome
            | ServerCommand::Greeting
            | ServerCommand::NickInUse
            | ServerCommand::Ping
            | ServerCommand::Nick
            | ServerCommand::Join
            | ServerCommand::Part
            | ServerCommand::Kick
            | ServerCommand::Error
            | ServerCommand::Redact
            | ServerCommand::Other => self.send_only(alloc, scratch, heard.bytes),
        }
    }

    /// What a client's line does, which stands without its ending.
    pub(crate) fn say_line(
        &self,
        alloc: Global,
        scratch: &mut Scratch,
        now: Moment,
        text: &[u8],
    ) -> Result<(MessageOutcome, Vec<UpEffect>), NoMemory>
        ensures { IfOk result (λ r. record { session = after r.0 self.now; effects = r.1.items }
            ≡ spec.say_line self.now now text.now) }
    {
        match read_line(text, TagLimit::Client) {
            Err(_) => self.send_only(alloc, scratch, text),
            Ok(line) => {
                let heard = HeardLine {
                    line: &line,
                    bytes: text,
                    at: now,
                };
                self.say_command(alloc, scratch, &heard)
            }
        }
    }
}
