//! What a session makes of a message: its source, the conversation that it belongs to, its id, its moment and its tags.
ghost use Rattle.std.specs.Prelude.{◌≡◌, ◌<◌, ◌++◌, [], codes, length, true, None, IfOk, OnOk, OnErr};
ghost use Rattle.std.specs.Option.{option_copied};
ghost use Rattle.std.specs.Fmt.{decimal};
ghost use Rattle.chat_change.specs.Message.{value_of};
ghost use Rattle.upstream_session.specs.Messages as spec;

use crate::connection::{Home, ServerSession};
use crate::effect::UpEffect;
use crate::scratch::Scratch;
use arrayvec::{ArrayVec, CapacityError};
use byte_text::{NoMemory, find_byte};
use chat_change::{
    Change, ID_LIMIT, Message, Moment, MsgId, Record, is_id, is_message, lawful_id, lawful_record,
};
use irc_tags::Tags;
use irc_time::read_time;
use std::alloc::Global;

/// The id and the moment that a message bears.
#[derive(Drop)]
pub(crate) struct MessageStamp {
    pub(crate) id: Option<MsgId>,
    pub(crate) at: Moment,
}

/// A message with the tags that were read of its line, and its moment.
#[derive(Clone, Copy)]
pub(crate) struct TaggedMessage<'a, 'b> {
    pub(crate) message: Message<'a>,
    pub(crate) tags: &'b Option<Tags<'a>>,
    pub(crate) at: Moment,
}

/// The nick of a source, which stands before its `!` (RFC 2812, section 2.3.1).
pub(crate) fn nick_of(source: &[u8]) -> &[u8]
    ensures { result.now ≡ spec.nick_of source.now }
{
    match find_byte(source, b'!') {
        Some(at) => &source[..at],
        None => source,
    }
}

/// Whether both are one nick, which is compared without regard to case.
pub(crate) fn is_same_nick(nick: &[u8], other: &[u8]) -> bool
    ensures { result ≡ spec.is_same_nick nick.now other.now }
{
    nick.eq_ignore_ascii_case(other)
}

/// The id of these bytes, where they can be one.
fn id_of(alloc: Global, text: &[u8]) -> Result<Option<MsgId>, NoMemory>
    ensures { IfOk result (λ id. id ≡ spec.id_if (Some text.now)) }
{
    if !is_id(text) {
        return Ok(None);
    }
    let id = lawful_id(alloc, text)?;
    Ok(Some(id))
}

ghost use Rattle.std.specs.Prelude.{Some};

/// The moment of these bytes, where they are one, or else now.
fn moment_of(text: &[u8], now: Moment) -> Moment
    ensures { result ≡ spec.moment_if (Some text.now) now }
{
    match read_time(text) {
        None => now,
        Some(at) => at,
    }
}

fn id_if(alloc: Global, text: Option<&[u8]>) -> Result<Option<MsgId>, NoMemory>
    ensures { IfOk result (λ id. id ≡ spec.id_if (option_copied text.entry)) }
{
    match text {
        None => Ok(None),
        Some(text) => id_of(alloc, text),
    }
}

fn moment_if(text: Option<&[u8]>, now: Moment) -> Moment
    ensures { result ≡ spec.moment_if (option_copied text.entry) now }
{
    match text {
        None => now,
        Some(text) => moment_of(text, now),
    }
}

fn stamp_in(alloc: Global, tags: &Tags<'_>, now: Moment) -> Result<MessageStamp, NoMemory>
    ensures { IfOk result (λ stamp. stamp ≡ spec.stamp_in tags.now now) }
{
    let at = moment_if(tags.get(b"time"), now);
    let id = id_if(alloc, tags.get(b"msgid"))?;
    Ok(MessageStamp { id, at })
}

/// The id and the moment that the tags of a line give (IRCv3 message-ids and server-time).
pub(crate) fn stamp_of(
    alloc: Global,
    tags: &Option<Tags<'_>>,
    now: Moment,
) -> Result<MessageStamp, NoMemory>
    ensures { IfOk result (λ stamp. stamp ≡ spec.stamp_read tags.now now) }
{
    match tags {
        None => Ok(MessageStamp { id: None, at: now }),
        Some(tags) => stamp_in(alloc, tags, now),
    }
}

type IdText = ArrayVec<u8, ID_LIMIT>;

fn push_number(text: &mut IdText, number: u64) -> Result<(), CapacityError>
    ensures ok { OnOk result (text.new.items
        ≡ text.old.items ++ (codes "-" ++ decimal number)) }
    ensures err { OnErr result (ID_LIMIT
        < length (text.old.items ++ (codes "-" ++ decimal number))) }
{
    let mut digits = itoa::Buffer::new();
    text.try_extend_from_slice(b"-")?;
    text.try_extend_from_slice(digits.format(number).as_bytes())
}

// The text of the id is pushed to none. It is refused where it is longer than an id may be.
fn push_made(text: &mut IdText, home: &Home, serial: u64) -> Result<(), CapacityError>
    requires { text.old.items ≡ [] }
    ensures ok { OnOk result (text.new.items ≡ spec.made_text home.now serial) }
    ensures err { OnErr result (ID_LIMIT < length (spec.made_text home.now serial)) }
{
    text.try_extend_from_slice(home.node.as_bytes())?;
    push_number(text, home.incarnation)?;
    push_number(text, serial)
}

/// The id that the node makes of that serial number.
pub(crate) fn made_id(alloc: Global, home: &Home, serial: u64) -> Result<Option<MsgId>, NoMemory>
    ensures { IfOk result (λ id. id ≡ spec.made_id home.now serial) }
{
    let mut text = ArrayVec::new();
    match push_made(&mut text, home, serial) {
        Err(_) => Ok(None),
        Ok(()) => id_of(alloc, text.as_slice()),
    }
}

/// Whether the conversation has a buffer.
pub(crate) fn has_buffer(home: &Home, target: &[u8]) -> bool
    ensures { result ≡ spec.has_buffer home.now target.now }
{
    chat_change::has_buffer(home.account.as_bytes(), home.network.as_bytes(), target)
}

/// Whether a message is from that nick, which is compared without regard to case.
pub fn is_from(nick: &[u8], message: &Record) -> bool
    ensures { result ≡ spec.is_from nick.now message.now }
{
    is_same_nick(nick_of(message.source()), nick)
}

impl ServerSession {
    /// Whether the source is the session itself, by its present nick.
    pub(crate) fn is_own(&self, source: &[u8]) -> bool
        ensures { result ≡ spec.is_own self.now source.now }
    {
        is_same_nick(nick_of(source), self.entry.nick())
    }

    /// The source of a line. One without comes from the network.
    pub(crate) fn source_of<'a>(&'a self, source: Option<&'a [u8]>) -> &'a [u8]
        ensures { result.now ≡ spec.source_of self.now (option_copied source.entry) }
    {
        match source {
            None => self.home.network.as_bytes(),
            Some(name) => name,
        }
    }

    /// The target of the conversation: who sent it, where the target is the present nick.
    pub(crate) fn conversation<'a>(&self, source: &'a [u8], target: &'a [u8]) -> &'a [u8]
        ensures { result.now ≡ spec.conversation self.now source.now target.now }
    {
        if is_same_nick(target, self.entry.nick()) {
            nick_of(source)
        } else {
            target
        }
    }

    /// Whether a record can be made of the message.
    pub(crate) fn can_be_kept(&self, message: Message<'_>) -> bool
        ensures { result ≡ spec.can_be_kept self.now (value_of message.entry) }
    {
        let talk = self.conversation(message.source, message.target);
        has_buffer(&self.home, talk) && is_message(message)
    }

    /// The post of a message that can be kept, with what is kept of its tags.
    pub(crate) fn post(
        &self,
        alloc: Global,
        scratch: &mut Scratch,
        id: MsgId,
        tagged: &TaggedMessage<'_, '_>,
    ) -> Result<UpEffect, NoMemory>
        requires { spec.can_be_kept self.now (value_of tagged.now.message) ≡ true }
        ensures { IfOk result (λ effect. effect ≡ spec.post self.now id tagged.now.at
            (spec.kept_read tagged.now.tags.now) (value_of tagged.now.message)) }
    {
        let message = tagged.message;
        let talk = self.conversation(message.source, message.target);
        let buffer = scratch.buffers.buffer_for(alloc, &self.home, talk)?;
        let tags = scratch.kept_tags(tagged.tags)?;
        let record = lawful_record(alloc, buffer, id, tagged.at, message, tags)?;
        Ok(UpEffect::Put(Change::Post(record)))
    }
}
