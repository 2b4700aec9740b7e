//! The store below a state: numbered changes, one for each key, with what is looked up and searched among them, and the
//! form in which a change counts.
//!
//! A [`Store`] is seen as one finite map from keys to numbered changes. It is `chat_buffers` with an index beside it, in
//! which each piece is found by its number; [`laws`](crate::laws) says that nothing of a redacted text is left there. A
//! floor is set for an account or for a buffer, and the greater of the two is in force in a buffer ([`Store::floor_ms`]).
//! How a change counts is [`form_of`], in the words of `chat_history`. Read [`Store::place`] first.

ghost use Rattle.std.specs.Prelude.{◌≡◌, ◌≤◌, IsTrue, IfOk, Ok, OnErr, Some, true, false};
ghost use Rattle.std.specs.FinMap as map;
ghost use Rattle.chat_change.specs.Extent.{OfAccount, OfBuffer};
ghost use Rattle.chat_change.specs.declared.change.Change.TheVariants as value;
ghost use Rattle.chat_buffers.specs.Store as spec;
ghost use Rattle.chat_buffers.specs.Entering.{FitsStore, IsEntered, IsSwept, IsSweptOf, AreBuffersOf};
ghost use Rattle.chat_state.specs.Form.{form};
ghost use Rattle.chat_state.specs.Sweeping.{TakesSome, IsFloorSwept};

mod form;
mod from_floor;
mod lookups;
mod number;
mod piece;
mod piece_name;
mod walk;

use chat_buffers::Buffers;
use chat_change::{Account, Buffer, Change, Moment, Record};
pub(crate) use form::{form_of, piece_in};
use from_floor::FromBufferFloor;
use number::Number;
use ordered_maps::PackedMap;
pub use piece::Piece;
use piece_name::{PieceName, name_of, name_of_post};
use std::alloc::{AllocError, Global};
use std::marker::Model;

/// Of the pages of the index, a floor has to reach more than one in so many for the maps to be walked through as a whole. Else each
/// record that goes is looked up.
const PAGES_PER_WALK: usize = 16;

/// The numbered pieces of many buffers, one for each key at most. Each is found by its number. They are seen as one store.
#[derive(Drop)]
pub(crate) struct Store {
    alloc: Global,
    buffers: Buffers,
    // what the piece of each number is known by
    index: PackedMap<Number, PieceName>,
}

impl Model for Store {
    ghost use Rattle.chat_buffers.specs.Store as spec;
    ghost use Rattle.chat_state.specs.Index.{IsIndexed};

    ghost Value = { spec.Store };

    ghost coded = { spec.coded_store };

    ghost view = { λ s. s.buffers };

    ghost invariant = { λ s. spec.IsKeyedStore s.buffers × IsIndexed s.buffers s.index };
}

impl Store {
    /// No pieces.
    pub(crate) fn new(alloc: Global) -> Store
        ensures { result ≡ map.empty }
    {
        Store {
            alloc,
            buffers: Buffers::new(alloc),
            index: PackedMap::new(alloc),
        }
    }

    /// Puts a piece under its key. A floor takes away the records that lie below it, and makes redactions forget the moments
    /// there. The floor of an account also takes away the own floors of its buffers that are no higher. Where there is no
    /// memory nothing has changed.
    pub(crate) fn place(&mut self, number: u64, change: Change) -> bool
        requires fits { FitsStore self.old change }
        requires fresh { spec.IsFresh self.old number }
        ensures placed { IsTrue result → spec.Places self.old number change self.new }
        ensures refused { result ≡ false → self.new ≡ self.old }
    {
        match change {
            Change::Floor { buffer, at } => self.place_floor(number, buffer, at),
            Change::AccountFloor { account, at } => self.place_account_floor(number, account, at),
            Change::Post(post) => self.enter(number, Change::Post(post)),
            Change::Redact { buffer, id, at } => self.enter(
                number,
                Change::Redact { buffer, id, at },
            ),
            Change::Mark { buffer, at } => self.enter(number, Change::Mark { buffer, at }),
        }
    }

    /// Puts a post under its key that is new in a buffer of which something is held ([`Buffers::enter_new`]). The answer is whether it
    /// is such a post. Where it isn't, and where there is no memory, nothing has changed.
    pub(crate) fn place_new(&mut self, number: u64, post: &Record) -> Result<bool, AllocError>
        requires fresh { spec.IsFresh self.old number }
        ensures counts { result ≡ Ok true →
            form self.old (value.Post post.now) ≡ Some (value.Post post.now) }
        ensures placed { result ≡ Ok true →
            spec.Places self.old number (value.Post post.now) self.new }
        ensures other { result ≡ Ok false → self.new ≡ self.old }
        ensures refused { OnErr result (self.new ≡ self.old) }
    {
        if !self.index.put(Number::of(number), name_of_post(post)?) {
            return Err(AllocError);
        }
        match self.buffers.enter_new(number, post) {
            Ok(true) => Ok(true),
            Ok(false) => {
                self.index.take_out(&Number::of(number));
                Ok(false)
            }
            Err(_) => {
                self.index.take_out(&Number::of(number));
                Err(AllocError)
            }
        }
    }

    fn place_floor(&mut self, number: u64, buffer: Buffer, at: Moment) -> bool
        requires fits { FitsStore self.old (value.Floor buffer at) }
        requires fresh { spec.IsFresh self.old number }
        ensures placed { IsTrue result →
            spec.Places self.old number (value.Floor buffer at) self.new }
        ensures refused { result ≡ false → self.new ≡ self.old }
    {
        // it shows that each piece stands under its own key
        let _ = &self.buffers;
        let Ok(floored) = buffer.try_clone() else {
            return false;
        };
        if !self.enter(number, Change::Floor { buffer, at }) {
            return false;
        }
        self.sweep(&floored, at);
        true
    }

    fn place_account_floor(&mut self, number: u64, account: Account, at: Moment) -> bool
        requires fits { FitsStore self.old (value.AccountFloor account at) }
        requires fresh { spec.IsFresh self.old number }
        ensures placed { IsTrue result →
            spec.Places self.old number (value.AccountFloor account at) self.new }
        ensures refused { result ≡ false → self.new ≡ self.old }
    {
        let Ok(buffers) = self.buffers.buffers_of(self.alloc, &account) else {
            return false;
        };
        let Ok(floored) = account.try_clone() else {
            return false;
        };
        if !self.enter(number, Change::AccountFloor { account, at }) {
            return false;
        }
        self.sweep_account(&floored, &buffers, at);
        true
    }

    // Puts a piece under its key. A floor leaves what lies below it.
    fn enter(&mut self, number: u64, change: Change) -> bool
        requires fits { FitsStore self.old change }
        requires fresh { spec.IsFresh self.old number }
        ensures entered { IsTrue result → IsEntered self.old number change self.new }
        ensures refused { result ≡ false → self.new ≡ self.old }
    {
        let Ok(name) = name_of(self.alloc, &change) else {
            return false;
        };
        if !self.index.put(Number::of(number), name) {
            return false;
        }
        let Ok(before) = self.buffers.enter(number, change) else {
            self.index.take_out(&Number::of(number));
            return false;
        };
        if let Some(before) = before {
            self.index.take_out(&Number::of(before));
        }
        true
    }

    /// An equal value, with maps of its own. It shares the buffers' names, the ids and the records.
    pub(crate) fn try_clone(&self, alloc: Global) -> Result<Store, AllocError>
        ensures { IfOk result (λ copy. copy ≡ self.now) }
    {
        let buffers = self.buffers.try_clone(alloc)?;
        let index = self.index.clone()?;
        Ok(Store {
            alloc,
            buffers,
            index,
        })
    }

    // Takes away what lies below the floor of an account: records of its buffers, and their own floors that are no higher.
    // It takes no memory.
    fn sweep_account(&mut self, account: &Account, buffers: &[Buffer], floor: Moment)
        requires listed { AreBuffersOf self.old account.now buffers.now }
        requires stands { floor ≤ spec.own_floor_in self.old (OfAccount account.now) }
        ensures { IsSwept (OfAccount account.now) floor self.old self.new }
    {
        // it shows that each piece stands under its own key
        let _ = &self.buffers;
        for buffer in buffers {
            // the list may have buffers of other accounts
            if buffer.owner().is_same(account) {
                self.sweep(buffer, floor);
                self.sweep_floor(buffer, floor);
            }
        }
    }

    // Takes the own floor of a buffer away, where it is no higher than the account's. It takes no memory.
    fn sweep_floor(&mut self, buffer: &Buffer, floor: Moment)
        requires stands { floor ≤ spec.own_floor_in self.old (OfAccount buffer.now.account) }
        ensures { IsFloorSwept buffer.now floor self.old self.new }
    {
        if let Some(gone) = self.buffers.remove_floor_to(buffer, floor) {
            self.index.take_out(&Number::of(gone));
        }
    }

    // Takes the records of a buffer away that lie below a floor. It takes no memory.
    fn sweep(&mut self, buffer: &Buffer, floor: Moment)
        ensures { IsSwept (OfBuffer buffer.now) floor self.old self.new }
    {
        if self.are_many_below(buffer, floor) {
            self.sweep_at_once(buffer, floor);
            return;
        }
        while self.take_first_below(buffer, floor) {}
    }

    // Whether a large share of all pieces are records of a buffer that stand below a floor.
    fn are_many_below(&self, buffer: &Buffer, floor: Moment) -> bool {
        let below = self.buffers.page_count_below(buffer, floor);
        self.index.page_count() / PAGES_PER_WALK < below
    }

    // Takes the records of a buffer away that lie below a floor, in one walk over each map. It takes no memory.
    fn sweep_at_once(&mut self, buffer: &Buffer, floor: Moment)
        ensures { IsSwept (OfBuffer buffer.now) floor self.old self.new }
    {
        self.buffers.remove_below(buffer, floor);
        self.index.retain(&FromBufferFloor { buffer, floor });
    }

    // Takes the oldest record of a buffer away, where it lies below a floor.
    fn take_first_below(&mut self, buffer: &Buffer, floor: Moment) -> bool
        ensures one { IsTrue result → TakesSome self.old buffer.now floor self.new }
        ensures done { result ≡ false → IsSweptOf buffer.now floor self.new }
        ensures kept { result ≡ false → self.new ≡ self.old }
    {
        match self.buffers.remove_first_below(buffer, floor) {
            Some(gone) => {
                self.index.take_out(&Number::of(gone));
                true
            }
            None => false,
        }
    }
}
