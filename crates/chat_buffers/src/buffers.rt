//! The numbered pieces of many buffers.

ghost use Rattle.std.specs.Prelude.{◌≡◌, ◌≤◌, Ok, true, false, IfOk, OnOk, OnErr, Some, None, IfSome};
ghost use Rattle.std.specs.FinMap as map;
ghost use Rattle.chat_change.specs.Key as key;
ghost use Rattle.chat_change.specs.Key.{key_of, key_extent, value_of};
ghost use Rattle.chat_change.specs.Extent as extents;
ghost use Rattle.std.specs.Option.{option_map};
ghost use Rattle.chat_change.specs.declared.change.Change.TheVariants as value;
ghost use Rattle.chat_buffers.specs.MessageRef.{message_change, IsMessageOf};
ghost use Rattle.chat_buffers.specs.Store as spec;
ghost use Rattle.chat_buffers.specs.Entering.{FitsStore, IsEntered, TakesOne, IsSweptOf, IsSwept};
ghost use Rattle.chat_buffers.specs.Held.{IsOfBuffer, floor_piece};

use crate::held::{Held, Stamp, floor_ms, moment_of, nothing_held, number_of, settle};
use crate::held_message::HeldMessage;
use chat_change::{Account, Buffer, Change, Extent, Key, Moment, MsgId, Record};
use chat_history::at_or_above;
use ordered_maps::put;
use std::alloc::{AllocError, Global};
use std::collections::BTreeMap;
use std::marker::Model;

/// What is held of a message.
#[derive(Clone, Copy)]
pub enum MessageRef<'a> {
    /// Its kept record.
    Kept(&'a Record),
    /// It was redacted, and stood at that moment. None where its moment isn't known.
    Gone(Option<Moment>),
}

/// What a message that enters a buffer finds there.
#[derive(Clone, Copy)]
pub struct FloorAndMessage<'a> {
    /// The floor in force in the buffer, in milliseconds. 0 where there is none.
    pub floor_ms: u64,
    /// What is held of the message, if anything.
    pub message: Option<MessageRef<'a>>,
}

/// The numbered pieces of many buffers and of their accounts, one for each key at most. They are seen as one store.
#[derive(Drop)]
pub struct Buffers {
    pub(crate) alloc: Global,
    // the floor of each account that has one
    pub(crate) accounts: BTreeMap<Account, Stamp>,
    pub(crate) held: BTreeMap<Buffer, Held>,
}

impl Model for Buffers {
    ghost use Rattle.ordered_maps.specs.MapView.{held_by};
    ghost use Rattle.chat_buffers.specs.Store as spec;
    ghost use Rattle.chat_buffers.specs.Held.{store_in};

    ghost Value = { spec.Store };

    ghost coded = { spec.coded_store };

    ghost view = { λ b. store_in (held_by b.accounts.entries) (held_by b.held.entries) };

    ghost invariant = { λ b.
        spec.IsKeyedStore (store_in (held_by b.accounts.entries) (held_by b.held.entries)) };
}

impl Buffers {
    /// Nothing of any buffer.
    pub fn new(alloc: Global) -> Buffers
        ensures { result ≡ map.empty }
    {
        Buffers {
            alloc,
            accounts: BTreeMap::new(alloc),
            held: BTreeMap::new(alloc),
        }
    }

    /// An equal value, with maps of its own. It shares the names of accounts and buffers, the ids and the records.
    pub fn try_clone(&self, alloc: Global) -> Result<Buffers, AllocError>
        ensures { IfOk result (λ copy. copy ≡ self.now) }
    {
        let accounts = self.accounts.clone()?;
        let held = self.held.clone()?;
        Ok(Buffers {
            alloc,
            accounts,
            held,
        })
    }

    /// The number of the piece of a key, if it has one.
    pub fn number(&self, key: &Key<'_>) -> Option<u64>
        ensures { result ≡ spec.number_at self.now (value_of key.now) }
    {
        match *key {
            Key::Floor(extent) => number_of(&self.own_floor(extent)),
            Key::Marker(buffer) => number_of(&self.held.get(buffer)?.marker),
            Key::Message(buffer, id) => {
                let held_message = self.held.get(buffer)?.messages.held_message(id)?;
                Some(held_message.number())
            }
        }
    }

    /// The own floor that was set for an account or for a buffer, if one was.
    pub fn floor(&self, extent: &Extent<'_>) -> Option<Moment>
        ensures { spec.change_at self.now (key.FloorOf (extents.value_of extent.now)) ≡
            option_map (key.floor_change (extents.value_of extent.now)) result }
    {
        moment_of(&self.own_floor(*extent))
    }

    // The own floor of an account or of a buffer, under the number of its piece.
    fn own_floor(&self, extent: Extent<'_>) -> Option<Stamp>
        ensures { map.get self.now (key.FloorOf (extents.value_of extent.entry)) ≡
            option_map (floor_piece (extents.value_of extent.entry)) result }
    {
        match extent {
            Extent::Account(account) => Some(*self.accounts.get(account)?),
            Extent::Buffer(buffer) => self.held.get(buffer)?.floor,
        }
    }

    /// The read marker of a buffer, if one was set.
    pub fn marker(&self, buffer: &Buffer) -> Option<Moment>
        ensures { spec.change_at self.now (key.MarkerOf buffer.now) ≡
            option_map (value.Mark buffer.now) result }
    {
        moment_of(&self.held.get(buffer)?.marker)
    }

    /// What is held of a message, if anything.
    pub fn message(&self, buffer: &Buffer, id: &MsgId) -> Option<MessageRef<'_>>
        ensures held { spec.change_at self.now (key.MessageOf buffer.now id.now) ≡
            option_map (message_change buffer.now id.now) result }
        ensures bears { IfSome result (IsMessageOf buffer.now id.now) }
    {
        self.floor_and_message(buffer, id).message
    }

    /// The floor in force in a buffer, and what is held of a message there, by one search for the buffer.
    pub fn floor_and_message(&self, buffer: &Buffer, id: &MsgId) -> FloorAndMessage<'_>
        ensures floor { result.floor_ms ≡ spec.floor_in self.now (extents.OfBuffer buffer.now) }
        ensures held { spec.change_at self.now (key.MessageOf buffer.now id.now) ≡
            option_map (message_change buffer.now id.now) result.message }
        ensures bears { IfSome result.message (IsMessageOf buffer.now id.now) }
    {
        let around = floor_ms(&self.own_floor(Extent::Account(buffer.owner())));
        let Some(held) = self.held.get(buffer) else {
            return FloorAndMessage {
                floor_ms: around,
                message: None,
            };
        };
        let floor_ms = around.max(floor_ms(&held.floor));
        let message = match held.messages.held_message(id) {
            Some(HeldMessage::Kept(post, _)) => Some(MessageRef::Kept(post)),
            Some(HeldMessage::Gone(at, _)) => Some(MessageRef::Gone(at_or_above(
                floor_ms,
                at.get(),
            ))),
            None => None,
        };
        FloorAndMessage { floor_ms, message }
    }

    /// Puts a piece under its key, and answers the number that the key had. A floor forgets the moments of redactions
    /// that lie below it, in its buffer or in all buffers of its account. It leaves the records, and one of an account
    /// leaves the own floors of buffers: they leave by [`Buffers::remove_first_below`] and
    /// [`Buffers::remove_floor_to`]. Where there is no memory nothing has changed.
    pub fn enter(&mut self, number: u64, change: Change) -> Result<Option<u64>, AllocError>
        requires fits { FitsStore self.old change }
        ensures before { IfOk result (λ before. before ≡ spec.number_at self.old (key_of change)) }
        ensures entered { OnOk result (IsEntered self.old number change self.new) }
        ensures refused { OnErr result (self.new ≡ self.old) }
    {
        match change {
            Change::AccountFloor { account, at } => {
                self.enter_account_floor(account, Stamp { at, number })
            }
            change => self.enter_in_buffer(number, change),
        }
    }

    /// Puts a post under its key that is new in a buffer of which something is held: nothing is held of its message, and it doesn't
    /// stand below the floor in force. That takes one search for the buffer. The answer is whether it is such a post. Where it isn't,
    /// and where there is no memory, nothing has changed.
    pub fn enter_new(&mut self, number: u64, post: &Record) -> Result<bool, AllocError>
        ensures new { result ≡ Ok true →
            spec.change_at self.old (key_of (value.Post post.now)) ≡ None }
        ensures above { result ≡ Ok true →
            spec.floor_in self.old (extents.OfBuffer post.now.buffer) ≤ post.now.at }
        ensures entered { result ≡ Ok true →
            IsEntered self.old number (value.Post post.now) self.new }
        ensures other { result ≡ Ok false → self.new ≡ self.old }
        ensures refused { OnErr result (self.new ≡ self.old) }
    {
        let around = floor_ms(&self.own_floor(Extent::Account(post.buffer().owner())));
        let Some(held) = self.held.get_mut(post.buffer()) else {
            return Ok(false);
        };
        if post.at().ms() < around.max(floor_ms(&held.floor)) {
            return Ok(false);
        }
        if held.messages.held_message(post.id()).is_some() {
            return Ok(false);
        }
        held.messages.post(post.try_clone()?, number)?;
        Ok(true)
    }

    // Puts a piece of a buffer under its key.
    fn enter_in_buffer(&mut self, number: u64, change: Change) -> Result<Option<u64>, AllocError>
        requires of_buffer { IsOfBuffer change }
        requires fits { FitsStore self.old change }
        ensures before { IfOk result (λ before. before ≡ spec.number_at self.old (key_of change)) }
        ensures entered { OnOk result (IsEntered self.old number change self.new) }
        ensures refused { OnErr result (self.new ≡ self.old) }
    {
        let Extent::Buffer(buffer) = change.key().extent() else {
            unreachable!()
        };
        let Some(held) = self.held.get_mut(buffer) else {
            let Ok(buffer) = buffer.try_clone() else {
                return Err(AllocError);
            };
            self.enter_first(buffer, number, change)?;
            return Ok(None);
        };
        settle(held, number, change)
    }

    // Puts the first piece of a buffer.
    fn enter_first(&mut self, buffer: Buffer, number: u64, change: Change) -> Result<(), AllocError>
        requires of_buffer { key_extent (key_of change) ≡ extents.OfBuffer buffer }
        requires fits { FitsStore self.old change }
        requires absent { (k : key.Key) → key_extent k ≡ extents.OfBuffer buffer →
            map.get self.old k ≡ None }
        ensures entered { OnOk result (IsEntered self.old number change self.new) }
        ensures refused { OnErr result (self.new ≡ self.old) }
    {
        let mut held = nothing_held(self.alloc);
        let Ok(_) = settle(&mut held, number, change) else {
            return Err(AllocError);
        };
        if !put(&mut self.held, buffer, held) {
            return Err(AllocError);
        }
        Ok(())
    }

    /// Takes the oldest record of a buffer out where it stands before a floor, and answers the number of its piece. None
    /// where no record of the buffer stands before the floor. It takes no memory.
    pub fn remove_first_below(&mut self, buffer: &Buffer, floor: Moment) -> Option<u64>
        ensures one { IfSome result (λ n. TakesOne self.old buffer.now floor n self.new) }
        ensures done { result ≡ None → IsSweptOf buffer.now floor self.new }
        ensures kept { result ≡ None → self.new ≡ self.old }
    {
        let held = self.held.get_mut(buffer)?;
        held.messages.remove_first_below(floor)
    }

    /// Takes the records of a buffer out that stand before a floor, in one walk over its messages. It takes no memory.
    pub fn remove_below(&mut self, buffer: &Buffer, floor: Moment)
        ensures { IsSwept (extents.OfBuffer buffer.now) floor self.old self.new }
    {
        let Some(held) = self.held.get_mut(buffer) else {
            return;
        };
        held.messages.remove_below(floor);
    }

    /// How many pages of records a buffer has of which some stand before a floor.
    pub fn page_count_below(&self, buffer: &Buffer, floor: Moment) -> usize {
        match self.held.get(buffer) {
            Some(held) => held.messages.page_count_below(floor),
            None => 0,
        }
    }
}
