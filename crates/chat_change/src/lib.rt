//! The changes that a chat history is made of, and the order between the records of one message.
//!
//! A [`Change`] posts a message (a [`Record`]), redacts one, sets a read marker, or sets a floor below which nothing is
//! kept, in a [`Buffer`], the conversation of an account on a network with a target, or in all buffers of an [`Account`].
//! What it speaks of is its [`Key`]: the floor of an [`Extent`], the marker of a buffer, or one message of a buffer.
//! [`goes_before`] says which of two records of one message is kept.
//!
//! A [`ChangeRef`] says what a change says, lent from where it is held.
//!
//! The makers [`Account::new`], [`Buffer::new`], [`MsgId::new`], [`Record::new`] and [`Record::new_tagged`] refuse what
//! can't stand in a line (RFC 1459 and RFC 2812, section 2.3; IRCv3 message-tags), each with the first [`ChangeFault`] that
//! there is, so that every value of these types has lawful parts. Their tests are functions of their own, as [`is_target`] and [`is_message`], which take no memory.
//!
//! The makers take memory, except that of accounts. Where there is none, a maker answers [`ChangeFault::NoMemory`] and
//! leaves nothing behind. What they make lies in blocks that nobody writes to, which clones share: a `try_clone` takes no
//! memory and copies no text, and fails only where a block has 2^63 - 1 owners. The name of an account lies in the value
//! itself, and a clone of it is a copy.
#![tactic(auto)]

mod account;
mod buffer;
mod change;
mod change_ref;
mod compact_text;
mod extent;
mod faults;
mod key;
mod lawful;
pub mod laws;
mod message;
mod message_texts;
mod msg_id;
mod order;
mod record;
mod short_text;
mod words;

pub use account::Account;
pub use buffer::Buffer;
pub use change::Change;
pub use change_ref::ChangeRef;
pub use extent::Extent;
pub use faults::ChangeFault;
pub use irc_time::Moment;
pub use key::Key;
pub use lawful::{has_buffer, lawful_buffer, lawful_id, lawful_record};
pub use message::{Kind, LINE_LIMIT, Message, is_message};
pub use msg_id::MsgId;
pub use order::goes_before;
pub use record::Record;
pub use words::{
    ID_LIMIT, NAME_LIMIT, TAGS_LIMIT, TARGET_LIMIT, is_body, is_id, is_name, is_source, is_star,
    is_tags, is_tags_as_written, is_target,
};
