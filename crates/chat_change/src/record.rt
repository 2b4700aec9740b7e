//! Records: messages that were posted.
ghost use Rattle.std.specs.Prelude.{◌≡◌, true, [], IfOk, IfErr, None};
ghost use Rattle.chat_change.specs.Words.{is_target, is_source, is_body, MayBeTags};
ghost use Rattle.chat_change.specs.Message.{value_of, sent_line, IsLawfulMessage};
ghost use Rattle.chat_change.specs.Faults.{record_fault, tagged_fault, fault_or_no_memory};

use crate::buffer::Buffer;
use crate::faults::ChangeFault;
use crate::key::Key;
use crate::message::{Kind, Message, fault_of, tagged_fault_of};
use crate::message_texts::MessageTexts;
use crate::msg_id::MsgId;
use irc_time::Moment;
use std::alloc::{AllocError, Global};
use std::marker::Model;
use std::sync::Arc;

/// A message that was posted: the buffer that it stands in, its id and its moment, and what its line says.
///
/// Its line `:source KIND target :body` has at most 510 bytes without its ending (RFC 1459 section 2.3). The target is as
/// it was spelled, and need not be the buffer's: a message to a nick stands in the buffer of its sender.
pub struct Record {
    // shared with every clone
    parts: Arc<RecordParts>,
}

// Written out, so that this is proved once, and not in each crate that lets a record go.
impl Drop for Record {
    fn drop(self) {
        let Self { parts: _parts } = self;
    }
}

#[derive(Drop)]
struct RecordParts {
    buffer: Buffer,
    id: MsgId,
    at: Moment,
    // its tags and its line
    texts: MessageTexts,
}

impl Model for Record {
    ghost use Rattle.chat_change.specs.Record as spec;
    ghost use Rattle.chat_change.specs.Message.{IsLawfulMessage};
    ghost use Rattle.chat_change.specs.Words.{MayBeTags};

    ghost Value = { spec.Record };

    ghost view = { λ r. record {
      buffer = r.parts.value.buffer;
      id = r.parts.value.id;
      at = r.parts.value.at;
      tags = r.parts.value.texts.tags;
      message = r.parts.value.texts.message;
    } };

    ghost invariant = { λ r. MayBeTags r.parts.value.texts.tags
        × IsLawfulMessage r.parts.value.texts.message };
}

impl Record {
    ghost use Rattle.chat_change.specs.Key as key;

    /// The record of a message without tags, whose target is kept as it is spelled.
    ///
    /// Of several faults the first of these is answered:
    /// [`ChangeFault::BadTarget`] unless the target has 1 to 200 bytes, none of NUL, CR, LF, space and comma, doesn't begin
    /// with `:` and isn't `*`; [`ChangeFault::BadSource`] unless the source has 1 to 255 bytes, none of NUL, CR, LF and
    /// space, and doesn't begin with `:`; [`ChangeFault::BadBody`] where the body has a NUL, CR or LF (it may be empty);
    /// [`ChangeFault::LineTooLong`] where `:source KIND target :body` has more than 510 bytes (RFC 1459 and RFC 2812,
    /// section 2.3).
    pub fn new(
        alloc: Global,
        buffer: Buffer,
        id: MsgId,
        at: Moment,
        message: Message<'_>,
    ) -> Result<Record, ChangeFault>
        ensures made { IfOk result (λ r. r ≡ record {
          buffer = buffer;
          id = id;
          at = at;
          tags = [];
          message = value_of message.entry;
        }) }
        ensures lawful { IfOk result (λ _. record_fault (value_of message.entry) ≡ None) }
        ensures refused { IfErr result (λ fault.
            fault ≡ fault_or_no_memory (record_fault (value_of message.entry))) }
    {
        match fault_of(message) {
            Some(fault) => Err(fault),
            None => match Record::from_lawful(alloc, buffer, id, at, message, b"") {
                Ok(record) => Ok(record),
                Err(_) => Err(ChangeFault::NoMemory),
            },
        }
    }

    /// The record of a message with client-only tags (IRCv3 message-tags, "Client-only tags"), which don't count for the
    /// limit of its line.
    ///
    /// Refused like a message without tags ([`Record::new`]), and then with [`ChangeFault::BadTags`] unless the tags have 1
    /// to 4094 bytes, none of NUL, CR, LF and space, and are as they are written of distinct keys that each begin with `+`
    /// ([`is_tags`](crate::is_tags)).
    pub fn new_tagged(
        alloc: Global,
        buffer: Buffer,
        id: MsgId,
        at: Moment,
        message: Message<'_>,
        tags: &[u8],
    ) -> Result<Record, ChangeFault>
        ensures made { IfOk result (λ r. r ≡ record {
          buffer = buffer;
          id = id;
          at = at;
          tags = tags.now;
          message = value_of message.entry;
        }) }
        ensures lawful { IfOk result (λ _. tagged_fault (value_of message.entry) tags.now ≡ None) }
        ensures refused { IfErr result (λ fault.
            fault ≡ fault_or_no_memory (tagged_fault (value_of message.entry) tags.now)) }
    {
        match tagged_fault_of(alloc, message, tags) {
            Some(fault) => Err(fault),
            None => match Record::from_lawful(alloc, buffer, id, at, message, tags) {
                Ok(record) => Ok(record),
                Err(_) => Err(ChangeFault::NoMemory),
            },
        }
    }

    // Of a message and tags that are lawful.
    pub(crate) fn from_lawful(
        alloc: Global,
        buffer: Buffer,
        id: MsgId,
        at: Moment,
        message: Message<'_>,
        tags: &[u8],
    ) -> Result<Record, AllocError>
        requires message { record_fault (value_of message) ≡ None }
        requires tags { MayBeTags tags.now }
        ensures { IfOk result (λ r. r ≡ record {
          buffer = buffer;
          id = id;
          at = at;
          tags = tags.now;
          message = value_of message.entry;
        }) }
    {
        let texts = MessageTexts::new(alloc, tags, message)?;
        let parts = RecordParts {
            buffer,
            id,
            at,
            texts,
        };
        let parts = Arc::new(alloc, parts)?;
        Ok(Record { parts })
    }

    /// The buffer that the message stands in.
    pub fn buffer(&self) -> &Buffer
        ensures { result.now ≡ self.now.buffer }
    {
        &self.parts.buffer
    }

    /// The id of the message.
    pub fn id(&self) -> &MsgId
        ensures { result.now ≡ self.now.id }
    {
        &self.parts.id
    }

    /// What the record is a record of: the message of its id in its buffer.
    pub fn key(&self) -> Key<'_>
        ensures { key.value_of result ≡ key.MessageOf self.now.buffer self.now.id }
    {
        Key::Message(self.buffer(), self.id())
    }

    /// The moment at which the message was sent.
    pub fn at(&self) -> Moment
        ensures { result ≡ self.now.at }
    {
        self.parts.at
    }

    /// The client-only tags of the message as they are written, without `@`; nothing where it has none.
    pub fn tags(&self) -> &[u8]
        ensures value { result.now ≡ self.now.tags }
        ensures lawful { MayBeTags result.now }
    {
        self.parts.texts.tags()
    }

    /// What the line of the message says.
    pub fn message(&self) -> Message<'_>
        ensures value { value_of result ≡ self.now.message }
        ensures lawful { IsLawfulMessage (value_of result) }
    {
        let texts = &self.parts.texts;
        Message {
            kind: texts.kind(),
            source: texts.source(),
            target: texts.target(),
            body: texts.body(),
        }
    }

    /// The command by which the message was sent.
    pub fn kind(&self) -> Kind
        ensures { result ≡ self.now.message.kind }
    {
        self.parts.texts.kind()
    }

    /// The line of the message as it goes out, `:source KIND target :body` with CR LF behind it (RFC 2812, section 2.3).
    pub fn line(&self) -> &[u8]
        ensures { result.now ≡ sent_line self.now.message }
    {
        self.parts.texts.line()
    }

    /// Who sent the message, without the `:` of its line.
    pub fn source(&self) -> &[u8]
        ensures value { result.now ≡ self.now.message.source }
        ensures lawful { is_source result.now ≡ true }
    {
        self.parts.texts.source()
    }

    /// The target as it was spelled.
    pub fn target(&self) -> &[u8]
        ensures value { result.now ≡ self.now.message.target }
        ensures lawful { is_target result.now ≡ true }
    {
        self.parts.texts.target()
    }

    /// What the message says, maybe nothing.
    pub fn body(&self) -> &[u8]
        ensures value { result.now ≡ self.now.message.body }
        ensures lawful { is_body result.now ≡ true }
    {
        self.parts.texts.body()
    }

    /// An equal record, which shares its memory. It takes none, and fails only where the record has 2^63 - 1 owners.
    pub fn try_clone(&self) -> Result<Record, AllocError>
        ensures { IfOk result (λ copy. copy ≡ self.now) }
    {
        let parts = Arc::try_clone(&self.parts)?;
        Ok(Record { parts })
    }
}

/// A clone shares its memory, as one by [`Record::try_clone`] does.
impl Clone for Record {
    ghost is_clone = { λ post copy. copy ≡ post };

    fn clone(&self) -> Result<Record, AllocError> {
        self.try_clone()
    }
}
