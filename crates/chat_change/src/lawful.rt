//! Buffers, ids and records of parts that are known to be lawful.
ghost use Rattle.std.specs.Prelude.{◌≡◌, IfOk, None, true};
ghost use Rattle.chat_change.specs.Buffer.{buffer_of};
ghost use Rattle.chat_change.specs.Buffers as spec;
ghost use Rattle.chat_change.specs.Faults.{record_fault};
ghost use Rattle.chat_change.specs.Message.{value_of};
ghost use Rattle.chat_change.specs.Words as words;

use crate::buffer::Buffer;
use crate::message::Message;
use crate::msg_id::MsgId;
use crate::record::Record;
use crate::words::{is_name, is_target};
use irc_time::Moment;
use std::alloc::{AllocError, Global};

/// Whether a target has a buffer of an account on a network: both have to be names, and the target has to be one.
pub fn has_buffer(account: &[u8], network: &[u8], target: &[u8]) -> bool
    ensures { result ≡ spec.has_buffer account.now network.now target.now }
{
    is_name(account) && is_name(network) && is_target(target)
}

/// The buffer of a target that has one ([`has_buffer`]). It fails for want of memory alone.
pub fn lawful_buffer(
    alloc: Global,
    account: &[u8],
    network: &[u8],
    target: &[u8],
) -> Result<Buffer, AllocError>
    requires { spec.has_buffer account.now network.now target.now ≡ true }
    ensures { IfOk result (λ buffer. buffer ≡ buffer_of account.now network.now target.now) }
{
    match Buffer::new(alloc, account, network, target) {
        Ok(buffer) => Ok(buffer),
        Err(_) => Err(AllocError),
    }
}

/// The id of bytes that are one ([`is_id`](crate::is_id)), which aren't looked at again. It fails for want of memory alone.
pub fn lawful_id(alloc: Global, bytes: &[u8]) -> Result<MsgId, AllocError>
    requires { words.is_id bytes.now ≡ true }
    ensures { IfOk result (λ id. id ≡ bytes.now) }
{
    MsgId::from_lawful(alloc, bytes)
}

/// The record of a message that is one ([`is_message`](crate::is_message)), with tags that are such
/// ([`is_tags`](crate::is_tags)) or with none. They aren't looked at again. It fails for want of memory alone.
pub fn lawful_record(
    alloc: Global,
    buffer: Buffer,
    id: MsgId,
    at: Moment,
    message: Message<'_>,
    tags: &[u8],
) -> Result<Record, AllocError>
    requires message { record_fault (value_of message) ≡ None }
    requires tags { words.MayBeTags tags.now }
    ensures { IfOk result (λ r. r ≡ record {
      buffer = buffer;
      id = id;
      at = at;
      tags = tags.now;
      message = value_of message.entry;
    }) }
{
    Record::from_lawful(alloc, buffer, id, at, message, tags)
}
