//! Where a bound cuts the pages of a map: so many pages stand before it, whole, and so many entries of the next.

ghost use Rattle.std.specs.Prelude.{◌≡◌, ◌≤◌, length, not};
ghost use Rattle.std.specs.Range.Bound.{bound_map};
ghost use Rattle.std.specs.BTreeMap.Range.{is_from_start};
ghost use Rattle.ordered_maps.specs.MapView.{AreOrdered};
ghost use Rattle.ordered_maps.specs.Pages.{AreInPages};
ghost use Rattle.ordered_maps.specs.Parts.{stands_before, last_passes, IsCutIn, IsCutBetween};

use crate::keys::{Lookup, Prefixed, order};
use crate::page::MapPage;
use std::collections::VecDeque;
use std::ops::Bound;

// Whether a key stands before a start bound.
fn is_before<K: Prefixed, Q: Lookup<K>>(key: &K, start: Bound<&Q>) -> bool
    ensures { result ≡ not (is_from_start K.cmp
        (bound_map (λ q. Q.key q.now) start.entry) key.now) }
{
    match start {
        Bound::Included(limit) => order(key, limit).is_lt(),
        Bound::Excluded(limit) => order(key, limit).is_le(),
        Bound::Unbounded => false,
    }
}

// Whether the last entry of a page stands before a start bound.
fn ends_before<K: Prefixed, V, Q: Lookup<K>>(page: &MapPage<K, V>, start: Bound<&Q>) -> bool
    ensures { result ≡ last_passes
        (stands_before K.cmp (bound_map (λ q. Q.key q.now) start.entry)) page.now }
{
    match page.entries.back() {
        Some(entry) => is_before(&entry.0, start),
        None => true,
    }
}

/// How many pages stand before a start bound, whole. The front page is looked at first, as it is asked for most.
pub(super) fn pages_before<K: Prefixed, V, Q: Lookup<K>>(
    pages: &VecDeque<MapPage<K, V>>,
    start: Bound<&Q>,
) -> usize
    requires { AreInPages K.cmp pages.now.items }
    ensures bound { result ≤ length pages.now.items }
    ensures cut { IsCutBetween K.cmp
        (bound_map (λ q. Q.key q.now) start.entry) pages.now.items result }
{
    if let Some(front) = pages.front() {
        if !ends_before(front, start) {
            return 0;
        }
    }
    pages.partition_point(|page| ends_before(page, start))
}

/// How many entries of a page stand before a start bound.
pub(super) fn entries_before<K: Prefixed, V, Q: Lookup<K>>(
    page: &MapPage<K, V>,
    start: Bound<&Q>,
) -> usize
    requires { AreOrdered K.cmp page.now }
    ensures bound { result ≤ length page.now }
    ensures cut { IsCutIn K.cmp (bound_map (λ q. Q.key q.now) start.entry) page.now result }
{
    page.entries
        .partition_point(|entry| is_before(&entry.0, start))
}
