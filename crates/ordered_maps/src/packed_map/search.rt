//! The search for a key among pages.

ghost use Rattle.std.specs.Prelude.{IfOk, IfErr, MatchOption};
ghost use Rattle.ordered_maps.specs.Pages.{entries_of, AreInPages};
ghost use Rattle.ordered_maps.specs.Places.{AreAbove, IsPageOf, IsHeldAt, IsGap};

use crate::keys::{Lookup, Prefixed};
use crate::page::MapPage;
use std::collections::VecDeque;

/// A place among pages: the one before the entry at an index in a page, or at the page's end.
#[derive(Clone, Copy, Drop)]
pub(crate) struct Place {
    pub(crate) page: usize,
    pub(crate) index: usize,
}

/// The place of the entry that has a key, or else the place where it would stand.
pub(crate) fn find<K: Prefixed, V, Q: Lookup<K>>(
    pages: &VecDeque<MapPage<K, V>>,
    key: &Q,
) -> Result<Place, Place>
    requires { AreInPages K.cmp pages.now.items }
    ensures held { IfOk result (λ place. IsHeldAt K.cmp (Q.key key.now) pages.now.items place) }
    ensures gap { IfErr result (λ place. IsGap K.cmp (Q.key key.now) pages.now.items place) }
{
    let Some(page) = page_of(pages, key) else {
        return Err(Place { page: 0, index: 0 });
    };
    match pages[page].find(key) {
        Ok(index) => Ok(Place { page, index }),
        Err(index) => Err(Place { page, index }),
    }
}

// The last page whose first key isn't above a key.
fn page_of<K: Prefixed, V, Q: Lookup<K>>(pages: &VecDeque<MapPage<K, V>>, key: &Q) -> Option<usize>
    requires { AreInPages K.cmp pages.now.items }
    ensures { MatchOption result
        (AreAbove K.cmp (Q.key key.now) (entries_of pages.now.items))
        (λ page. IsPageOf K.cmp (Q.key key.now) pages.now.items page) }
{
    // most new keys come before all others
    if pages.front()?.starts_above(key) {
        return None;
    }
    let begun = pages.partition_point(|page| !page.starts_above(key));
    begun.checked_sub(1)
}
