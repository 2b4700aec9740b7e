//! Where records stand, as keys of a map.

ghost use Rattle.std.specs.Prelude.{◌≡◌, Some};
ghost use Rattle.std.proofs.Common.{rules};
ghost use Rattle.std.specs.Cmp.Rules.{comparing};
ghost use Rattle.std.specs.Ordering.{as_partial_cmp, eq_by_cmp};
ghost use Rattle.chat_history.specs.Cut.{latest_first, latest_first_total};
ghost use Rattle.chat_buffers.specs.SpotKey.{spot_prefix};
ghost use Rattle.chat_buffers.specs.Prefixes.{spot_ascends};

use chat_change::{Moment, MsgId};
use chat_history::Spot;
use ordered_maps::{Lookup, Prefixed};
use std::alloc::AllocError;
use std::cmp::Ordering;
use std::marker::Model;

/// Where a record stands, as a key. It is seen as that spot.
#[derive(Drop)]
pub(crate) struct SpotKey {
    pub(crate) at: Moment,
    pub(crate) id: MsgId,
}

impl Model for SpotKey {
    ghost use Rattle.std.specs.Prelude.{Some};
    ghost use Rattle.chat_history.specs.declared.cut.Spot.{Spot};

    ghost Value = { Spot };

    ghost view = { λ k. record { at = k.at; id = Some k.id } };
}

impl Prefixed for SpotKey {
    ghost prefix_of = { spot_prefix };

    fn prefix(&self) -> u64 {
        u64::MAX - self.at.ms()
    }

    ghost ascends = { spot_ascends };
}

impl Lookup<SpotKey> for Spot {
    ghost key = { λ s. s };

    fn key_prefix(&self) -> u64 {
        u64::MAX - self.at.ms()
    }

    fn order_of(&self, other: &SpotKey) -> Ordering {
        let id = match &self.id {
            Some(own) => own.text_order(&other.id),
            None => Ordering::Less,
        };
        self.at.ms().cmp(&other.at.ms()).then(id)
    }
}

impl PartialEq for SpotKey {
    ghost eq = { eq_by_cmp latest_first };

    ghost laws = { Prim.search (comparing, latest_first_total, rules) };

    fn eq(&self, other: &SpotKey) -> bool {
        self.cmp(other).is_eq()
    }
}

impl Eq for SpotKey {
    ghost laws = { Prim.search (comparing, latest_first_total, rules) };
}

impl PartialOrd for SpotKey {
    ghost partial_cmp = { as_partial_cmp latest_first };

    ghost laws = { Prim.search (comparing, latest_first_total, rules) };

    fn partial_cmp(&self, other: &SpotKey) -> Option<Ordering> {
        Some(self.cmp(other))
    }
}

/// The latest spot comes first. Most messages come in the order of their moments, and a map looks at its first keys first:
/// so the place of a new one is found at once.
impl Ord for SpotKey {
    ghost cmp = { latest_first };

    ghost total = { Prim.search (comparing, latest_first_total, rules) };

    ghost matches_partial_cmp = { Prim.search (comparing, rules) };

    ghost matches_eq = { Prim.search (comparing, rules) };

    fn cmp(&self, other: &SpotKey) -> Ordering {
        let at = other.at.ms().cmp(&self.at.ms());
        if at.is_ne() {
            return at;
        }
        other.id.text_order(&self.id)
    }
}

/// A clone shares the memory of the id.
impl Clone for SpotKey {
    ghost is_clone = { λ key copy. copy ≡ key };

    fn clone(&self) -> Result<SpotKey, AllocError> {
        let id = self.id.try_clone()?;
        Ok(SpotKey { at: self.at, id })
    }
}
