//! Messages: what the line of a private message or of a notice says.
ghost use Rattle.std.specs.Prelude.{◌≡◌, ◌↔◌, IsTrue};
ghost use Rattle.chat_change.specs.Faults.{record_fault, tagged_fault, is_message, fits_line};
ghost use Rattle.chat_change.specs.Message.{value_of, IsLawfulMessage};

use crate::faults::ChangeFault;
use crate::words::{is_body, is_source, is_tags, is_target};
use std::alloc::Global;

/// The most bytes of a line without its ending (RFC 1459 section 2.3).
pub const LINE_LIMIT: usize = 510;

// The bytes of a line beside its words: its two colons and three spaces.
const LINE_MARKS: usize = 5;

/// By which command a message was sent (RFC 1459 section 4.4).
#[derive(Clone, Copy, PartialEq, Eq)]
pub enum Kind {
    /// A private message, `PRIVMSG` (RFC 1459 section 4.4.1).
    Privmsg,
    /// A notice, `NOTICE` (RFC 1459 section 4.4.2).
    Notice,
}

impl Kind {
    ghost use Rattle.chat_change.specs.Message.{kind_letter, kind_word};

    /// The letter that stands for the kind: `P` for `PRIVMSG`, `N` for `NOTICE`.
    pub fn letter(self) -> u8
        ensures { result ≡ kind_letter self }
    {
        match self {
            Kind::Privmsg => b'P',
            Kind::Notice => b'N',
        }
    }

    /// The command, `PRIVMSG` or `NOTICE`.
    pub fn word(self) -> &'static [u8]
        ensures { result.now ≡ kind_word self }
    {
        match self {
            Kind::Privmsg => b"PRIVMSG",
            Kind::Notice => b"NOTICE",
        }
    }
}

/// What the line of a message says, `:source KIND target :body`.
#[derive(Clone, Copy)]
pub struct Message<'a> {
    /// By which command it was sent.
    pub kind: Kind,
    /// Who sent it, without the `:` of its line.
    pub source: &'a [u8],
    /// The target as it was spelled.
    pub target: &'a [u8],
    /// What it says, maybe nothing.
    pub body: &'a [u8],
}

/// Whether the maker of records finds no fault in the message: its target, its source and its body are such, and its
/// line is within [`LINE_LIMIT`]. It takes no memory.
pub fn is_message(message: Message<'_>) -> bool
    ensures test { result ≡ is_message (value_of message.entry) }
    ensures lawful { IsTrue result ↔ IsLawfulMessage (value_of message.entry) }
{
    fault_of(message).is_none()
}

/// Why a message isn't made into a record: the first of its faults in the order target, source, body, line.
pub(crate) fn fault_of(message: Message<'_>) -> Option<ChangeFault>
    ensures { result ≡ record_fault (value_of message.entry) }
{
    if !is_target(message.target) {
        Some(ChangeFault::BadTarget)
    } else if !is_source(message.source) {
        Some(ChangeFault::BadSource)
    } else if !is_body(message.body) {
        Some(ChangeFault::BadBody)
    } else if !fits_line(message) {
        Some(ChangeFault::LineTooLong)
    } else {
        None
    }
}

/// The same of a message with tags, whose fault is the last.
pub(crate) fn tagged_fault_of(
    alloc: Global,
    message: Message<'_>,
    tags: &[u8],
) -> Option<ChangeFault>
    ensures { result ≡ tagged_fault (value_of message.entry) tags.now }
{
    match fault_of(message) {
        Some(fault) => Some(fault),
        None if is_tags(alloc, tags) => None,
        None => Some(ChangeFault::BadTags),
    }
}

// Whether the line of a message is within its limit.
fn fits_line(message: Message<'_>) -> bool
    ensures { result ≡ fits_line (value_of message.entry) }
{
    let Message {
        kind,
        source,
        target,
        body,
    } = message;
    if source.len() > LINE_LIMIT || target.len() > LINE_LIMIT || body.len() > LINE_LIMIT {
        return false;
    }
    source.len() + target.len() + body.len() + kind.word().len() + LINE_MARKS <= LINE_LIMIT
}
