//! The kept records of one buffer, by where they stand.

ghost use Rattle.std.specs.Prelude.{◌≡◌, [], ◌∷◌, ◌++◌, None, IsTrue, IfSome, false};
ghost use Rattle.std.specs.Map.Iter.{deref, deref_pair};
ghost use Rattle.std.specs.Range.Bound.{bound_map};
ghost use Rattle.std.specs.BTreeMap.Range.{entries_between};
ghost use Rattle.std.specs.declared.ops.Bound.TheVariants.{Unbounded};
ghost use Rattle.ordered_maps.specs.MapView.{AreOrdered, IsWith, IsWithout, IsRetained};
ghost use Rattle.ordered_maps.specs.Ends.{IsGreatest};
ghost use Rattle.chat_history.specs.Cut.{latest_first};
ghost use Rattle.chat_buffers.specs.Messages.{stands_from};
ghost use Rattle.chat_buffers.specs.RecordMap.{IsLatestIn};

use crate::from_floor::FromFloor;
use crate::spot_key::SpotKey;
use chat_change::{Moment, Record};
use chat_history::Spot;
use ordered_maps::{PackedEntries, PackedMap};
use std::alloc::{AllocError, Global};
use std::marker::Model;
use std::ops::Bound;

/// Records by where they stand, the latest first. The moment of the latest one lies beside them, so that a walk over many buffers
/// needn't look into each map. It is seen as the entries, in the order of their places.
#[derive(Drop)]
pub(crate) struct RecordMap {
    records: PackedMap<SpotKey, Record>,
    latest: Option<Moment>,
}

impl Model for RecordMap {
    ghost use Rattle.std.specs.Prelude.{List};
    ghost use Rattle.chat_change.specs.Record.{Record};
    ghost use Rattle.chat_history.specs.declared.cut.Spot.{Spot};
    ghost use Rattle.chat_buffers.specs.RecordMap.{IsLatestIn};

    ghost Value = { List (Spot × Record) };

    ghost view = { λ m. m.records };

    ghost invariant = { λ m. IsLatestIn m.records m.latest };
}

/// A clone has a map of its own, and shares the records.
impl Clone for RecordMap {
    ghost is_clone = { λ records copy. copy ≡ records };

    fn clone(&self) -> Result<RecordMap, AllocError> {
        let records = self.records.clone()?;
        let latest = latest_in(&records);
        Ok(RecordMap { records, latest })
    }
}

fn latest_in(records: &PackedMap<SpotKey, Record>) -> Option<Moment>
    ensures { IsLatestIn records.now result }
{
    match records.first() {
        Some((spot, _)) => Some(spot.at),
        None => None,
    }
}

impl RecordMap {
    /// No records.
    pub(crate) fn new(alloc: Global) -> RecordMap
        ensures { result ≡ [] }
    {
        RecordMap {
            records: PackedMap::new(alloc),
            latest: None,
        }
    }

    /// The moment of the latest record.
    pub(crate) fn latest(&self) -> Option<Moment>
        ensures { IsLatestIn self.now result }
    {
        self.latest
    }

    /// The entry of the oldest record.
    pub(crate) fn last(&self) -> Option<(&SpotKey, &Record)>
        ensures none { result ≡ None → self.now ≡ [] }
        ensures greatest { IfSome result (λ e. IsGreatest latest_first (deref_pair e) self.now) }
    {
        self.records.last()
    }

    /// Takes the oldest record out. It takes no memory.
    pub(crate) fn pop_last(&mut self) -> Option<(SpotKey, Record)>
        ensures none { result ≡ None → (self.old ≡ []) × (self.new ≡ []) }
        ensures removal { IfSome result (λ e. self.old ≡ self.new ++ e ∷ []) }
        ensures greatest { IfSome result (λ e. IsGreatest latest_first e self.old) }
        ensures without { IfSome result (λ e. IsWithout latest_first self.old e.0 self.new) }
    {
        let entry = self.records.pop_last();
        self.latest = latest_in(&self.records);
        entry
    }

    /// Puts a record at a place, in place of what stood there. Where there is no memory the records stay as they were.
    pub(crate) fn put(&mut self, spot: SpotKey, post: Record) -> bool
        ensures put { IsTrue result → IsWith latest_first self.old spot post self.new }
        ensures refused { result ≡ false → self.new ≡ self.old }
    {
        let is_put = self.records.put(spot, post);
        self.latest = latest_in(&self.records);
        is_put
    }

    /// Takes the record at a place out, if there is one. It takes no memory.
    pub(crate) fn take_out(&mut self, spot: &Spot)
        ensures { IsWithout latest_first self.old spot.now self.new }
    {
        self.records.take_out(spot);
        self.latest = latest_in(&self.records);
    }

    /// Takes the records out that stand before a floor, in one walk over all. It takes no memory.
    pub(crate) fn remove_below(&mut self, floor: Moment)
        ensures { IsRetained latest_first (stands_from floor) self.old self.new }
    {
        self.records.retain(&FromFloor { floor });
        self.latest = latest_in(&self.records);
    }

    /// How many pages have records that stand before a floor.
    pub(crate) fn page_count_below(&self, floor: Moment) -> usize {
        let spot = Spot {
            at: floor,
            id: None,
        };
        self.records.page_count_from(Bound::Included(&spot))
    }

    /// The entries from a bound on.
    pub(crate) fn from(&self, start: Bound<&Spot>) -> PackedEntries<'_, SpotKey, Record>
        ensures between { result
            ≡ entries_between latest_first (bound_map deref start.entry) Unbounded self.now }
        ensures ordered { AreOrdered latest_first self.now }
    {
        self.records.from(start)
    }

    /// The entries up to a bound.
    pub(crate) fn until(&self, end: Bound<&Spot>) -> PackedEntries<'_, SpotKey, Record>
        ensures between { result
            ≡ entries_between latest_first Unbounded (bound_map deref end.entry) self.now }
        ensures ordered { AreOrdered latest_first self.now }
    {
        self.records.until(end)
    }
}
