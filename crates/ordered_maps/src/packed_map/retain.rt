//! What stays of a packed map, and what goes.

ghost use Rattle.std.specs.Prelude.{◌≡◌, Bool};
ghost use Rattle.std.specs.List.{filter};
ghost use Rattle.ordered_maps.specs.MapView.{IsRetained};
ghost use Rattle.ordered_maps.specs.Pages.{entries_of, AreFilled};

use super::PackedMap;
use super::cuts::pages_before;
use crate::keys::{Lookup, Prefixed};
use crate::page::MapPage;
use std::collections::VecDeque;
use std::ops::Bound;

/// Tells which values stay in a map.
pub trait Keeps<V> {
    ghost is_kept: { Self → V → Bool };

    /// Whether a value stays.
    fn keeps(&self, value: &V) -> bool
        ensures { result ≡ is_kept self.now value.now };
}

impl<K: Prefixed + Drop, V: Drop> PackedMap<K, V> {
    /// Keeps the values that stay by a test, in one walk over the map, and takes the others out. It takes no memory.
    pub fn retain<T: Keeps<V>>(&mut self, test: &T)
        ensures { IsRetained K.cmp (T.is_kept test.now) self.old self.new }
    {
        retain(&mut self.pages, test);
    }

    /// How many pages it has. A full one has at least 64 entries, and 512 where the keys came in order.
    pub fn page_count(&self) -> usize {
        self.pages.len()
    }

    /// How many pages have entries from a bound on.
    pub fn page_count_from<Q: Lookup<K>>(&self, start: Bound<&Q>) -> usize {
        self.pages
            .len()
            .saturating_sub(pages_before(&self.pages, start))
    }
}

// Keeps the entries whose values stay by a test. It takes no memory.
fn retain<K: Prefixed + Drop, V: Drop, T: Keeps<V>>(pages: &mut VecDeque<MapPage<K, V>>, test: &T)
    ensures kept { entries_of pages.new.items
        ≡ filter (λ e. T.is_kept test.now e.1) (entries_of pages.old.items) }
    ensures filled { AreFilled pages.new.items }
{
    for index in 0..pages.len() {
        pages[index].retain(test);
    }
    pages.retain(|page| page.len() != 0);
}
