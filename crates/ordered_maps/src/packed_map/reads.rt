//! What is read of a packed map at its ends, and from a bound on.

ghost use Rattle.std.specs.Prelude.{◌≡◌, [], None, IfSome};
ghost use Rattle.std.specs.List.{slice_get, filter};
ghost use Rattle.std.specs.Map.Iter.{deref_pair};
ghost use Rattle.std.specs.Option.{option_map};
ghost use Rattle.std.specs.Range.Bound.{bound_map};
ghost use Rattle.std.specs.BTreeMap.Range.{entries_between};
ghost use Rattle.std.specs.declared.ops.Bound.TheVariants.{Unbounded};
ghost use Rattle.ordered_maps.specs.MapView.{AreOrdered};
ghost use Rattle.ordered_maps.specs.Ends.{IsLeast, IsGreatest, IsLastBefore};
ghost use Rattle.ordered_maps.specs.Parts.{stands_before};

use super::cuts::{entries_before, pages_before};
use super::{PackedEntries, PackedMap};
use crate::keys::{Lookup, Prefixed};
use std::ops::Bound;

impl<K: Prefixed + Drop, V: Drop> PackedMap<K, V> {
    /// The entry with the least key.
    pub fn first(&self) -> Option<(&K, &V)>
        ensures first { option_map deref_pair result ≡ slice_get self.now 0 }
        ensures least { IfSome result (λ e. IsLeast K.cmp (deref_pair e) self.now) }
    {
        let (key, value) = self.pages.front()?.entries.front()?;
        Some((key, value))
    }

    /// The entry with the greatest key.
    pub fn last(&self) -> Option<(&K, &V)>
        ensures none { result ≡ None → self.now ≡ [] }
        ensures greatest { IfSome result (λ e. IsGreatest K.cmp (deref_pair e) self.now) }
    {
        let (key, value) = self.pages.back()?.entries.back()?;
        Some((key, value))
    }

    /// The entry with the greatest key below another.
    pub fn last_before<Q: Lookup<K>>(&self, key: &Q) -> Option<(&K, &V)>
        ensures { IsLastBefore K.cmp (Q.key key.now) self.now (option_map deref_pair result) }
    {
        self.before(Bound::Included(key)).next_back()
    }

    /// The entries from a bound on.
    pub fn from<Q: Lookup<K>>(&self, start: Bound<&Q>) -> PackedEntries<'_, K, V>
        ensures between { result
            ≡ entries_between K.cmp (bound_map (λ q. Q.key q.now) start.entry) Unbounded self.now }
        ensures ordered { AreOrdered K.cmp self.now }
    {
        let whole = pages_before(&self.pages, start);
        let Some(page) = self.pages.get(whole) else {
            return PackedEntries {
                first: None,
                pages: self.pages.range(whole..),
                last: None,
            };
        };
        PackedEntries {
            first: Some(page.entries.range(entries_before(page, start)..)),
            pages: self.pages.range(whole + 1..),
            last: None,
        }
    }

    /// The entries up to a bound.
    pub fn until<Q: Lookup<K>>(&self, end: Bound<&Q>) -> PackedEntries<'_, K, V>
        ensures between { result
            ≡ entries_between K.cmp Unbounded (bound_map (λ q. Q.key q.now) end.entry) self.now }
        ensures ordered { AreOrdered K.cmp self.now }
    {
        match end {
            Bound::Included(key) => self.before(Bound::Excluded(key)),
            Bound::Excluded(key) => self.before(Bound::Included(key)),
            Bound::Unbounded => PackedEntries {
                first: None,
                pages: self.pages.iter(),
                last: None,
            },
        }
    }

    // The entries before a start bound.
    fn before<Q: Lookup<K>>(&self, start: Bound<&Q>) -> PackedEntries<'_, K, V>
        ensures before { result
            ≡ filter (stands_before K.cmp (bound_map (λ q. Q.key q.now) start.entry)) self.now }
        ensures ordered { AreOrdered K.cmp self.now }
    {
        let whole = pages_before(&self.pages, start);
        let last = match self.pages.get(whole) {
            Some(page) => Some(page.entries.range(..entries_before(page, start))),
            None => None,
        };
        PackedEntries {
            first: None,
            pages: self.pages.range(..whole),
            last,
        }
    }
}
