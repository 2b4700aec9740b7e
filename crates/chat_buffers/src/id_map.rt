//! What is held of the messages of one buffer, by their ids.

ghost use Rattle.std.specs.Prelude.{◌≡◌, [], IsTrue, IsSome, false, IfOk, OnOk, OnErr};
ghost use Rattle.std.specs.Map.Iter.{deref};
ghost use Rattle.std.specs.Option.{option_map};
ghost use Rattle.ordered_maps.specs.MapView.{get, IsWith, IsWithout, IsRetained};
ghost use Rattle.chat_change.specs.Order.{id_cmp};
ghost use Rattle.chat_buffers.specs.Messages.{is_left};

use crate::from_floor::FromFloor;
use crate::held_message::HeldMessage;
use crate::id_key::{IdKey, SoughtId};
use chat_change::{Moment, MsgId};
use ordered_maps::{PackedEntries, PackedMap};
use std::alloc::{AllocError, Global};
use std::marker::Model;
use std::ops::Bound;

/// What is held of messages, by their ids. It is seen as the entries, in the order of the ids.
#[derive(Drop)]
pub(crate) struct IdMap {
    messages: PackedMap<IdKey, HeldMessage>,
}

impl Model for IdMap {
    ghost use Rattle.std.specs.Prelude.{ℕ, List};
    ghost use Rattle.chat_buffers.specs.declared.held_message.HeldMessage.{HeldMessage};

    ghost Value = { List (List ℕ × HeldMessage) };

    ghost view = { λ m. m.messages };
}

/// A clone has a map of its own, and shares the ids and the records.
impl Clone for IdMap {
    ghost is_clone = { λ ids copy. copy ≡ ids };

    fn clone(&self) -> Result<IdMap, AllocError> {
        let messages = self.messages.clone()?;
        Ok(IdMap { messages })
    }
}

impl IdMap {
    /// Nothing of any message.
    pub(crate) fn new(alloc: Global) -> IdMap
        ensures { result ≡ [] }
    {
        IdMap {
            messages: PackedMap::new(alloc),
        }
    }

    /// What is held of a message, if anything.
    pub(crate) fn get(&self, id: &MsgId) -> Option<&HeldMessage>
        ensures { option_map deref result ≡ get id_cmp self.now id.now }
    {
        self.messages.get(&SoughtId::of(id))
    }

    /// Puts what is held of a message in place of what was. Where there is no memory the map stays as it was.
    pub(crate) fn put(&mut self, id: MsgId, held_message: HeldMessage) -> bool
        ensures put { IsTrue result → IsWith id_cmp self.old id held_message self.new }
        ensures refused { result ≡ false → self.new ≡ self.old }
    {
        self.messages.put(IdKey::of(id), held_message)
    }

    /// Puts what is held of a message, and answers what was held of it. Where there is no memory the map stays as it was.
    pub(crate) fn exchange(
        &mut self,
        id: MsgId,
        held_message: HeldMessage,
    ) -> Result<Option<HeldMessage>, AllocError>
        ensures before { IfOk result (λ before. before ≡ get id_cmp self.old id) }
        ensures put { OnOk result (IsWith id_cmp self.old id held_message self.new) }
        ensures refused { OnErr result (self.new ≡ self.old) }
    {
        self.messages.exchange(IdKey::of(id), held_message)
    }

    /// Takes what is held of a message out, if anything is. It takes no memory.
    pub(crate) fn take_out(&mut self, id: &MsgId)
        ensures { IsWithout id_cmp self.old id.now self.new }
    {
        self.messages.take_out(&SoughtId::of(id));
    }

    /// Writes over what is held of a message. It takes no memory.
    pub(crate) fn overwrite(&mut self, id: &MsgId, held_message: HeldMessage)
        requires held { IsSome (get id_cmp self.old id.now) }
        ensures { IsWith id_cmp self.old id.now held_message self.new }
    {
        self.messages.overwrite(&SoughtId::of(id), held_message);
    }

    /// Takes the records out that stand before a floor, in one walk over all messages. It takes no memory.
    pub(crate) fn remove_below(&mut self, floor: Moment)
        ensures { IsRetained id_cmp (is_left floor) self.old self.new }
    {
        self.messages.retain(&FromFloor { floor });
    }

    /// All entries.
    pub(crate) fn entries(&self) -> PackedEntries<'_, IdKey, HeldMessage>
        ensures { result ≡ self.now }
    {
        self.messages.from::<IdKey>(Bound::Unbounded)
    }
}
