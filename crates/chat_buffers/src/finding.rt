//! Messages that are found by names and bytes alone, without memory.

ghost use Rattle.std.specs.Prelude.{◌≡◌, ℕ, List, None, IfSome};
ghost use Rattle.std.specs.FinMap as map;
ghost use Rattle.std.specs.Ordering.{eq_by_cmp};
ghost use Rattle.std.specs.Option.{option_map};
ghost use Rattle.chat_change.specs.Buffer.{buffer_of};
ghost use Rattle.chat_change.specs.Key.{MessageOf};
ghost use Rattle.chat_change.specs.Order.{buffer_cmp, id_cmp};
ghost use Rattle.chat_buffers.specs.MessageRef.{message_change};
ghost use Rattle.chat_buffers.specs.Store as spec;

use crate::buffers::{Buffers, MessageRef};
use crate::messages::Messages;
use chat_change::{Buffer, MsgId};

// Whether a buffer has these names. The target may be spelled in either case.
fn has_names(buffer: &Buffer, account: &[u8], network: &[u8], target: &[u8]) -> bool
    ensures { result ≡
        eq_by_cmp buffer_cmp (buffer_of account.now network.now target.now) buffer.now }
{
    buffer.account() == account
        && buffer.network() == network
        && buffer.target().eq_ignore_ascii_case(target)
}

fn has_bytes(id: &MsgId, bytes: &[u8]) -> bool
    ensures { result ≡ eq_by_cmp id_cmp bytes.now id.now }
{
    id.as_bytes() == bytes
}

impl Messages {
    // The id of these bytes, as it is held.
    fn find_id(&self, bytes: &[u8]) -> Option<&MsgId>
        ensures found { IfSome result (λ id. id.now ≡ bytes.now) }
        ensures none { result ≡ None → map.get self.now bytes.now ≡ None }
    {
        let mut entries = self.by_id.entries();
        let (key, _) = entries.find(|(key, _)| has_bytes(key.id(), bytes))?;
        Some(key.id())
    }
}

impl Buffers {
    // The buffer of these names, as it is held.
    fn find_buffer(&self, account: &[u8], network: &[u8], target: &[u8]) -> Option<&Buffer>
        ensures found { IfSome result (λ b.
            b.now ≡ buffer_of account.now network.now target.now) }
        ensures none { result ≡ None → (m : List ℕ) → spec.change_at self.now
            (MessageOf (buffer_of account.now network.now target.now) m) ≡ None }
    {
        self.held
            .keys()
            .find(|buffer| has_names(buffer, account, network, target))
    }

    // The id of these bytes, as it is held in a buffer.
    fn find_id(&self, buffer: &Buffer, bytes: &[u8]) -> Option<&MsgId>
        ensures found { IfSome result (λ id. id.now ≡ bytes.now) }
        ensures none { result ≡ None →
            spec.change_at self.now (MessageOf buffer.now bytes.now) ≡ None }
    {
        self.held.get(buffer)?.messages.find_id(bytes)
    }

    /// What is held of the message of that id in the buffer of these names, if anything. It takes no memory.
    ///
    /// A map is looked up by a key that owns its memory, as [`Buffers::message`] does. This goes through the buffers one
    /// by one, and through the ids of that buffer, so it is for where there is no memory for such keys.
    pub fn find_message(
        &self,
        account: &[u8],
        network: &[u8],
        target: &[u8],
        id: &[u8],
    ) -> Option<MessageRef<'_>>
        ensures { spec.change_at self.now
            (MessageOf (buffer_of account.now network.now target.now) id.now) ≡ option_map
            (message_change (buffer_of account.now network.now target.now) id.now) result }
    {
        let buffer = self.find_buffer(account, network, target)?;
        let id = self.find_id(buffer, id)?;
        self.message(buffer, id)
    }
}
