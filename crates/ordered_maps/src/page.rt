//! A page of a packed map.

ghost use Rattle.std.specs.Prelude.{◌≡◌, ◌≤◌, ◌<◌, ◌++◌, ◌∷◌, [], None, false, length, take, drop, slice_index_or, IfOk, OnOk, OnErr, IsTrue};
ghost use Rattle.std.specs.List.{insert, remove, filter};
ghost use Rattle.std.specs.List.Sorted.{IsBinarySearchResult, IsSearchInRange};
ghost use Rattle.std.specs.Option.{option_to_list};
ghost use Rattle.ordered_maps.specs.Pages.{first_prefix, starts_above, WritesValue};

use crate::keys::{Lookup, Prefixed, order};
use crate::packed_map::Keeps;
use std::alloc::{AllocError, Global};
use std::collections::VecDeque;
use std::marker::Model;
use std::mem::replace;

/// How many entries a full page has at least.
pub(crate) const PAGE: usize = 64;

/// How many entries a full page has where keys come in order, before all others or behind them.
pub(crate) const END_PAGE: usize = 512;

/// For how many more entries a page takes room at least.
const LEAST_ROOM: usize = 4;

/// Some entries of a map that stand next to each other, in the order of their keys. It is seen as the list of them.
#[derive(Drop)]
pub(crate) struct MapPage<K: Prefixed, V> {
    // the prefix of the first key, so that a search among pages looks into few of them
    first: u64,
    pub(crate) entries: VecDeque<(K, V)>,
}

impl<K: Prefixed, V> Model for MapPage<K, V> {
    ghost use Rattle.std.specs.Prelude.{◌≡◌, List};
    ghost use Rattle.ordered_maps.specs.Pages.{first_prefix};

    ghost Value = { List (K × V) };

    ghost view = { λ p. p.entries.items };

    ghost invariant = { λ p. p.first ≡ first_prefix K.prefix_of p.entries.items };
}

// The prefix of the first key, and 0 where there is none.
fn first_prefix<K: Prefixed, V>(entries: &VecDeque<(K, V)>) -> u64
    ensures { result ≡ first_prefix K.prefix_of entries.now.items }
{
    match entries.front() {
        Some(entry) => entry.0.prefix(),
        None => 0,
    }
}

impl<K: Prefixed, V> MapPage<K, V> {
    /// A page of these entries.
    pub(crate) fn of(entries: VecDeque<(K, V)>) -> MapPage<K, V>
        ensures { result ≡ entries.items }
    {
        MapPage {
            first: first_prefix(&entries),
            entries,
        }
    }
}

impl<K: Prefixed + Drop, V: Drop> MapPage<K, V> {
    /// A page of one entry, with room for some at once.
    pub(crate) fn begin(
        alloc: Global,
        room: usize,
        entry: (K, V),
    ) -> Result<MapPage<K, V>, AllocError>
        ensures { IfOk result (λ page. page ≡ entry ∷ []) }
    {
        let mut entries = VecDeque::with_capacity(alloc, room)?;
        if entries.push_back(entry).is_err() {
            return Err(AllocError);
        }
        Ok(MapPage::of(entries))
    }

    /// How many entries it has.
    pub(crate) fn len(&self) -> usize
        ensures { result ≡ length self.now }
    {
        self.entries.len()
    }

    /// The entry at an index.
    pub(crate) fn at(&self, index: usize) -> &(K, V)
        requires { index < length self.now }
        ensures { result.now ≡ slice_index_or self.now index result.now }
    {
        &self.entries[index]
    }

    /// Puts an entry at an index, before those that stand from there on. Where there is no memory the page stays as it was.
    pub(crate) fn insert(&mut self, index: usize, entry: (K, V)) -> bool
        requires { index ≤ length self.old }
        ensures put { IsTrue result → self.new ≡ insert self.old index entry }
        ensures refused { result ≡ false → self.new ≡ self.old }
    {
        self.make_room();
        let is_put = self.entries.insert(index, entry).is_ok();
        self.first = first_prefix(&self.entries);
        is_put
    }

    /// Writes a value over the one at an index, and answers what stood there.
    pub(crate) fn write(&mut self, index: usize, value: V) -> V
        requires { index < length self.old }
        ensures { WritesValue self.old index value result self.new }
    {
        let before = replace(&mut self.entries[index].1, value);
        self.first = first_prefix(&self.entries);
        before
    }

    /// Takes the entry at an index out. It takes no memory.
    pub(crate) fn remove(&mut self, index: usize)
        ensures { self.new ≡ remove self.old index }
    {
        let _ = self.entries.remove(index);
        self.first = first_prefix(&self.entries);
        self.give_room_back();
    }

    /// Takes the last entry out. It takes no memory.
    pub(crate) fn pop(&mut self) -> Option<(K, V)>
        ensures out { self.old ≡ self.new ++ option_to_list result }
        ensures none { result ≡ None → self.old ≡ [] }
    {
        let entry = self.entries.pop_back();
        self.first = first_prefix(&self.entries);
        self.give_room_back();
        entry
    }

    /// Keeps the entries whose values stay by a test, and gives room back where more than half is left. It takes no memory.
    pub(crate) fn retain<T: Keeps<V>>(&mut self, test: &T)
        ensures { self.new ≡ filter (λ e. T.is_kept test.now e.1) self.old }
    {
        self.entries.retain(|entry| test.keeps(&entry.1));
        self.first = first_prefix(&self.entries);
        if self.entries.len() <= self.entries.capacity() / 2 {
            self.entries.shrink_to_fit();
        }
    }

    // Takes room for a quarter more entries where there is none. By itself a list takes room for as many again, of which half
    // stays empty in most pages where keys come in no order.
    fn make_room(&mut self)
        ensures { self.new ≡ self.old }
    {
        let len = self.entries.len();
        if len == self.entries.capacity() {
            let _ = self.entries.reserve_exact((len / 4).max(LEAST_ROOM));
        }
    }

    // Gives half of the room back where at most a quarter of it is used.
    fn give_room_back(&mut self)
        ensures { self.new ≡ self.old }
    {
        let room = self.entries.capacity();
        if self.entries.len() <= room / 4 {
            self.entries.shrink_to(room / 2);
        }
    }

    /// Takes the entries from an index on out, as a page of their own. Where there is no memory the page stays as it was.
    pub(crate) fn split_off(&mut self, index: usize) -> Result<MapPage<K, V>, AllocError>
        requires { index ≤ length self.old }
        ensures kept { OnOk result (self.new ≡ take index self.old) }
        ensures rest { IfOk result (λ page. page ≡ drop index self.old) }
        ensures refused { OnErr result (self.new ≡ self.old) }
    {
        let entries = self.entries.split_off(index)?;
        self.entries.shrink_to_fit();
        self.first = first_prefix(&self.entries);
        Ok(MapPage::of(entries))
    }
}

impl<K: Prefixed, V> MapPage<K, V> {
    /// Whether the first key is above another. Its prefix tells mostly, without a look at the entries.
    pub(crate) fn starts_above<Q: Lookup<K>>(&self, key: &Q) -> bool
        ensures { result ≡ starts_above K.cmp (Q.key key.now) self.now }
    {
        let prefix = key.key_prefix();
        if self.first != prefix {
            return self.first > prefix;
        }
        match self.entries.front() {
            Some(entry) => key.order_of(&entry.0).is_gt(),
            None => false,
        }
    }

    /// Where a key stands, or would stand.
    pub(crate) fn find<Q: Lookup<K>>(&self, key: &Q) -> Result<usize, usize>
        ensures bound { IsSearchInRange result (length self.now) }
        ensures position { IsBinarySearchResult (λ e. K.cmp e.0 (Q.key key.now)) self.now result }
    {
        self.entries.binary_search_by(|entry| order(&entry.0, key))
    }
}
