//! The line of a message and its tags, in one block of memory.
ghost use Rattle.std.specs.Prelude.{◌≡◌, ◌<◌, ◌^◌, IfOk};
ghost use Rattle.chat_change.specs.Message.{value_of, sent_line};
ghost use Rattle.chat_change.specs.MessageTexts as spec;

use crate::message::{Kind, Message};
use std::alloc::{AllocError, Global};
use std::marker::Model;

/// The tags of a message, and behind them its line as it goes out, `:source KIND target :body` with its ending. They stand one
/// after the other in one block of memory, so that a line is written by one write. What shares them copies no text.
#[derive(Drop)]
pub(crate) struct MessageTexts {
    bytes: Vec<u8>,
    // where the line begins, whose source stands behind a colon
    line: u16,
    // where the source ends
    command: u16,
    // where the target begins
    target: u16,
    // where the body begins
    body: u16,
    kind: Kind,
}

impl Model for MessageTexts {
    ghost use Rattle.std.specs.Prelude.{◌≡◌, ◌+◌, ◌-◌, ◌≤◌, length, take, drop, slice_range};
    ghost use Rattle.chat_change.specs.Message.{sent_line};
    ghost use Rattle.chat_change.specs.MessageTexts as spec;

    ghost Value = { spec.MessageTexts };

    ghost view = { λ t. record {
      tags = take t.line t.bytes.items;
      message = spec.message_at t.bytes.items t.line t.command t.target t.body t.kind;
    } };

    ghost invariant = { λ t. spec.IsLaidOut t.bytes.items t.line t.command t.target t.body t.kind };
}

// The command of a message, between two spaces.
fn spaced_word(kind: Kind) -> &'static [u8]
    ensures { result.now ≡ spec.spaced_word kind }
{
    match kind {
        Kind::Privmsg => b" PRIVMSG ",
        Kind::Notice => b" NOTICE ",
    }
}

impl MessageTexts {
    /// Copies of the texts of a message, and of its tags. Fails where there is no memory.
    pub(crate) fn new(
        alloc: Global,
        tags: &[u8],
        message: Message<'_>,
    ) -> Result<MessageTexts, AllocError>
        requires { spec.length_to_body tags.now (value_of message) < 2 ^ 16 }
        ensures { IfOk result (λ texts. texts ≡ record {
          tags = tags.now;
          message = value_of message.entry;
        }) }
    {
        let word = spaced_word(message.kind);
        let line = tags.len();
        let command = line + 1 + message.source.len();
        let target = command + word.len();
        let body = target + message.target.len() + 2;
        let mut bytes = Vec::with_capacity(alloc, body + message.body.len() + 2)?;
        bytes.extend_from_slice(tags)?;
        bytes.extend_from_slice(b":")?;
        bytes.extend_from_slice(message.source)?;
        bytes.extend_from_slice(word)?;
        bytes.extend_from_slice(message.target)?;
        bytes.extend_from_slice(b" :")?;
        bytes.extend_from_slice(message.body)?;
        bytes.extend_from_slice(b"\r\n")?;
        Ok(MessageTexts {
            bytes,
            line: line as u16,
            command: command as u16,
            target: target as u16,
            body: body as u16,
            kind: message.kind,
        })
    }

    /// By which command the message was sent.
    pub(crate) fn kind(&self) -> Kind
        ensures { result ≡ self.now.message.kind }
    {
        self.kind
    }

    /// The tags.
    pub(crate) fn tags(&self) -> &[u8]
        ensures { result.now ≡ self.now.tags }
    {
        &self.bytes[..self.line as usize]
    }

    /// The line as it goes out, with its ending.
    pub(crate) fn line(&self) -> &[u8]
        ensures { result.now ≡ sent_line self.now.message }
    {
        &self.bytes[self.line as usize..]
    }

    /// The source.
    pub(crate) fn source(&self) -> &[u8]
        ensures { result.now ≡ self.now.message.source }
    {
        &self.bytes[self.line as usize + 1..self.command as usize]
    }

    /// The target.
    pub(crate) fn target(&self) -> &[u8]
        ensures { result.now ≡ self.now.message.target }
    {
        &self.bytes[self.target as usize..self.body as usize - 2]
    }

    /// The body.
    pub(crate) fn body(&self) -> &[u8]
        ensures { result.now ≡ self.now.message.body }
    {
        &self.bytes[self.body as usize..self.bytes.len() - 2]
    }
}
