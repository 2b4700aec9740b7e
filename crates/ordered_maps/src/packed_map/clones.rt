//! The clone of a packed map.

ghost use Rattle.std.specs.Prelude.{IsTrue};
ghost use Rattle.ordered_maps.specs.MapView.{AreOrdered};
ghost use Rattle.ordered_maps.specs.Pages.{entries_of};

use super::{PackedEntries, PackedMap};
use crate::keys::Prefixed;
use crate::page::MapPage;
use std::alloc::AllocError;
use std::cmp::Ordering;
use std::collections::VecDeque;

/// A clone has pages of its own, and clones of the keys and values.
impl<K: Prefixed + Clone + Drop, V: Clone + Drop> Clone for PackedMap<K, V> {
    ghost use Rattle.ordered_maps.specs.Clones.{AreClones};

    ghost is_clone = { λ m n. AreClones K.is_clone V.is_clone m n };

    // `Clone` has no law that a clone is equal to its source, so this fails too where the keys' clones don't ascend.
    fn clone(&self) -> Result<PackedMap<K, V>, AllocError> {
        let pages = self.pages.clone()?;
        if !ascend(&pages) {
            return Err(AllocError);
        }
        Ok(PackedMap {
            alloc: self.alloc,
            pages,
        })
    }
}

/// A clone has clones of the keys and values.
impl<K: Prefixed + Clone + Drop, V: Clone + Drop> Clone for MapPage<K, V> {
    ghost use Rattle.ordered_maps.specs.Clones.{AreClones};

    ghost is_clone = { λ m n. AreClones K.is_clone V.is_clone m n };

    fn clone(&self) -> Result<MapPage<K, V>, AllocError> {
        let mut entries = self.entries.clone()?;
        entries.shrink_to_fit();
        Ok(MapPage::of(entries))
    }
}

// Whether the keys ascend from entry to entry and from page to page.
fn ascend<K: Prefixed, V>(pages: &VecDeque<MapPage<K, V>>) -> bool
    ensures { IsTrue result → AreOrdered K.cmp (entries_of pages.now.items) }
{
    let mut rest = PackedEntries {
        first: None,
        pages: pages.iter(),
        last: None,
    };
    let Some((mut above, _)) = rest.next_back() else {
        return true;
    };
    while let Some((key, _)) = rest.next_back() {
        match key.cmp(above) {
            Ordering::Less => above = key,
            _ => return false,
        }
    }
    true
}
