//! The buffers of a session's conversations.
ghost use Rattle.std.specs.Prelude.{◌≡◌, ◌<◌, true, IfOk, IfSome, IsTrue};
ghost use Rattle.chat_change.specs.Buffer.{buffer_of};
ghost use Rattle.upstream_session.specs.Messages.{has_buffer};

use crate::connection::Home;
use byte_text::NoMemory;
use chat_change::{Buffer, lawful_buffer};
use std::alloc::{AllocError, Global};
use std::array;

// How many conversations have a slot.
const SLOTS: usize = 64;

/// The buffers of late conversations, so that the messages of a conversation share one.
///
/// The target of a conversation tells its slot. Of two with one slot the later has it.
#[derive(Drop)]
pub(crate) struct KnownBuffers {
    slots: [Option<Buffer>; SLOTS],
}

fn slot_of(target: &[u8]) -> usize
    ensures { result < SLOTS }
{
    let mut sum = 0u32;
    for byte in target {
        sum = sum.rotate_left(5) ^ u32::from(byte.to_ascii_lowercase());
    }
    sum as usize % SLOTS
}

// All buffers that are kept are of the session's account and network; that they are compared spares an invariant.
fn is_buffer_of(buffer: &Buffer, home: &Home, target: &[u8]) -> bool
    ensures { IsTrue result
        → buffer.now ≡ buffer_of home.now.account home.now.network target.now }
{
    buffer.target().eq_ignore_ascii_case(target)
        && buffer.account() == home.account.as_bytes()
        && buffer.network() == home.network.as_bytes()
}

impl KnownBuffers {
    /// No buffers yet.
    pub(crate) fn none() -> KnownBuffers {
        KnownBuffers {
            slots: array::from_fn(|_| None),
        }
    }

    // A clone of the buffer at that slot, if it is that of the conversation.
    fn held(&self, slot: usize, home: &Home, target: &[u8]) -> Result<Option<Buffer>, AllocError>
        requires { slot < SLOTS }
        ensures { IfOk result (λ held. IfSome held (λ buffer. buffer
            ≡ buffer_of home.now.account home.now.network target.now)) }
    {
        match &self.slots[slot] {
            Some(buffer) if is_buffer_of(buffer, home, target) => {
                let buffer = buffer.try_clone()?;
                Ok(Some(buffer))
            }
            _ => Ok(None),
        }
    }

    /// The buffer of a conversation that has one. It takes memory where the slot of the conversation has
    /// another.
    pub(crate) fn buffer_for(
        &mut self,
        alloc: Global,
        home: &Home,
        target: &[u8],
    ) -> Result<Buffer, NoMemory>
        requires { has_buffer home.now target.now ≡ true }
        ensures { IfOk result (λ buffer. buffer
            ≡ buffer_of home.now.account home.now.network target.now) }
    {
        let slot = slot_of(target);
        if let Some(buffer) = self.held(slot, home, target)? {
            return Ok(buffer);
        }
        let account = home.account.as_bytes();
        let buffer = lawful_buffer(alloc, account, home.network.as_bytes(), target)?;
        let kept = buffer.try_clone()?;
        self.slots[slot] = Some(kept);
        Ok(buffer)
    }
}
