//! An ordered map in full pages.

ghost use Rattle.std.specs.Prelude.{◌≡◌, []};

mod changes;
mod clones;
mod cuts;
mod edits;
mod entries;
mod reads;
mod retain;
mod search;

use crate::keys::Prefixed;
use crate::page::MapPage;
pub use entries::PackedEntries;
pub use retain::Keeps;
use std::alloc::Global;
use std::collections::VecDeque;
use std::marker::Model;

/// An ordered map. It is seen as its entries, in the order of their keys.
#[derive(Drop)]
pub struct PackedMap<K: Prefixed, V> {
    pub(crate) alloc: Global,
    pub(crate) pages: VecDeque<MapPage<K, V>>,
}

impl<K: Prefixed, V> Model for PackedMap<K, V> {
    ghost use Rattle.std.specs.Prelude.{List};
    ghost use Rattle.ordered_maps.specs.Pages.{entries_of, AreInPages};

    ghost Value = { List (K × V) };

    ghost view = { λ m. entries_of m.pages.items };

    ghost invariant = { λ m. AreInPages K.cmp m.pages.items };
}

impl<K: Prefixed + Drop, V: Drop> PackedMap<K, V> {
    /// No entries.
    pub fn new(alloc: Global) -> PackedMap<K, V>
        ensures { result ≡ [] }
    {
        PackedMap {
            alloc,
            pages: VecDeque::new(alloc),
        }
    }
}
