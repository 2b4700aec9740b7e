//! Cursors over the kept records of a buffer, which take no memory.

ghost use Rattle.std.specs.Prelude.{◌≡◌, ◌<◌, ◌+◌, [], length, reverse, not, nat_le, nat_lt, MatchOption};
ghost use Rattle.irc_time.specs.Time.{greatest};
ghost use Rattle.std.specs.Iterator.{at_most};
ghost use Rattle.std.specs.Map.{values_of};
ghost use Rattle.std.specs.Map.Iter.{TakesFirst, deref};
ghost use Rattle.std.specs.Option.{option_map};
ghost use Rattle.std.specs.Ordering.{flip_args};
ghost use Rattle.std.specs.Range.Bound.{bound_map};
ghost use Rattle.chat_history.specs.Cut.{is_after};
ghost use Rattle.chat_history.specs.Visible.{by_spot};
ghost use Rattle.chat_buffers.specs.Ends.{is_from, is_until};
ghost use Rattle.chat_buffers.specs.Kept.{IsFirstKept, IsLatestKept, AreKept};

use crate::messages::Messages;
use crate::spot_key::SpotKey;
use chat_change::{Moment, Record};
use chat_history::{Cut, Spot};
use ordered_maps::PackedEntries;
use std::marker::Model;
use std::ops::Bound;

/// Records by rising (moment, id). It is seen as the list of what is left.
#[derive(Drop)]
pub struct Up<'a> {
    entries: Option<PackedEntries<'a, SpotKey, Record>>,
}

impl<'a> Model for Up<'a> {
    ghost use Rattle.std.specs.Prelude.{List, reverse};
    ghost use Rattle.chat_change.specs.Record as spec;
    ghost use Rattle.chat_buffers.specs.MessageWalk.{records_of};

    ghost Value = { List spec.Record };

    ghost view = { λ u. reverse (records_of u.entries) };
}

impl<'a> Up<'a> {
    /// No records.
    pub(crate) fn empty() -> Up<'a>
        ensures { result ≡ [] }
    {
        Up { entries: None }
    }

    fn over(entries: PackedEntries<'a, SpotKey, Record>) -> Up<'a>
        ensures { result ≡ reverse (values_of entries.entry) }
    {
        Up {
            entries: Some(entries),
        }
    }
}

impl<'a> Iterator for Up<'a> {
    type Item = &'a Record;

    ghost next_gives = { TakesFirst deref };

    ghost remaining = { λ s. at_most (length s) };

    fn next(&mut self) -> Option<&'a Record> {
        let Some(entries) = &mut self.entries else {
            return None;
        };
        match entries.next_back() {
            Some((_, post)) => Some(post),
            None => None,
        }
    }
}

/// Records by falling (moment, id). It is seen as the list of what is left, in the order in which it comes.
#[derive(Drop)]
pub struct Down<'a> {
    entries: Option<PackedEntries<'a, SpotKey, Record>>,
}

impl<'a> Model for Down<'a> {
    ghost use Rattle.std.specs.Prelude.{List};
    ghost use Rattle.chat_change.specs.Record as spec;
    ghost use Rattle.chat_buffers.specs.MessageWalk.{records_of};

    ghost Value = { List spec.Record };

    ghost view = { λ d. records_of d.entries };
}

impl<'a> Down<'a> {
    /// No records.
    pub(crate) fn empty() -> Down<'a>
        ensures { result ≡ [] }
    {
        Down { entries: None }
    }

    fn over(entries: PackedEntries<'a, SpotKey, Record>) -> Down<'a>
        ensures { result ≡ values_of entries.entry }
    {
        Down {
            entries: Some(entries),
        }
    }
}

impl<'a> Iterator for Down<'a> {
    type Item = &'a Record;

    ghost next_gives = { TakesFirst deref };

    ghost remaining = { λ s. at_most (length s) };

    fn next(&mut self) -> Option<&'a Record> {
        let Some(entries) = &mut self.entries else {
            return None;
        };
        match entries.next() {
            Some((_, post)) => Some(post),
            None => None,
        }
    }
}

impl Messages {
    /// The first kept record, by (moment, id).
    pub(crate) fn first(&self) -> Option<&Record>
        ensures { IsFirstKept self.now (option_map deref result) }
    {
        match self.by_spot.last() {
            Some((_, post)) => Some(post),
            None => None,
        }
    }

    /// The moment of the last kept record, by (moment, id).
    pub(crate) fn latest(&self) -> Option<Moment>
        ensures { IsLatestKept self.now result }
    {
        self.by_spot.latest()
    }

    /// The kept records after a cut, by rising (moment, id).
    pub(crate) fn up(&self, cut: &Cut<'_>) -> Up<'_>
        ensures { AreKept by_spot (is_after cut.now) self.now result }
    {
        match cut {
            Cut::Bottom => self.up_from(Bound::Unbounded),
            Cut::UnderTime(at) => self.up_from_moment(*at),
            Cut::OverTime(at) => match moment_after(*at) {
                Some(next) => self.up_from_moment(next),
                None => self.past_the_greatest(*at),
            },
            Cut::UnderMsg(spot) => self.up_from(Bound::Included(*spot)),
            Cut::OverMsg(spot) => self.up_from(Bound::Excluded(*spot)),
            Cut::Top => Up::empty(),
        }
    }

    /// The kept records before a cut, by falling (moment, id).
    pub(crate) fn down(&self, cut: &Cut<'_>) -> Down<'_>
        ensures { AreKept (flip_args by_spot) (λ r. not (is_after cut.now r)) self.now result }
    {
        match cut {
            Cut::Bottom => Down::empty(),
            Cut::UnderTime(at) => self.down_from_moment(*at),
            Cut::OverTime(at) => match moment_after(*at) {
                Some(next) => self.down_from_moment(next),
                None => self.down_from_the_greatest(*at),
            },
            Cut::UnderMsg(spot) => self.down_from(Bound::Excluded(*spot)),
            Cut::OverMsg(spot) => self.down_from(Bound::Included(*spot)),
            Cut::Top => self.down_from(Bound::Unbounded),
        }
    }

    // The records from a bound on.
    fn up_from(&self, start: Bound<&Spot>) -> Up<'_>
        ensures { AreKept by_spot
            (is_from (bound_map (λ s. s.now) start.entry)) self.now result }
    {
        Up::over(self.by_spot.until(start))
    }

    // The records up to a bound, the last first.
    fn down_from(&self, end: Bound<&Spot>) -> Down<'_>
        ensures { AreKept (flip_args by_spot)
            (is_until (bound_map (λ s. s.now) end.entry)) self.now result }
    {
        Down::over(self.by_spot.from(end))
    }

    // The records at a moment or later.
    fn up_from_moment(&self, at: Moment) -> Up<'_>
        ensures { AreKept by_spot (λ r. nat_le at r.at) self.now result }
    {
        let spot = Spot { at, id: None };
        self.up_from(Bound::Included(&spot))
    }

    // The records before a moment, the last first.
    fn down_from_moment(&self, at: Moment) -> Down<'_>
        ensures { AreKept (flip_args by_spot) (λ r. not (nat_le at r.at)) self.now result }
    {
        let spot = Spot { at, id: None };
        self.down_from(Bound::Excluded(&spot))
    }

    // No record stands past the greatest moment.
    fn past_the_greatest(&self, at: Moment) -> Up<'_>
        requires { greatest < at + 1 }
        ensures { AreKept by_spot (λ r. nat_lt at r.at) self.now result }
    {
        // without it the invariant isn't at hand, by which no record stands past the greatest moment
        let _ = &self.by_spot;
        Up::empty()
    }

    // Each record stands at the greatest moment or before it.
    fn down_from_the_greatest(&self, at: Moment) -> Down<'_>
        requires { greatest < at + 1 }
        ensures { AreKept (flip_args by_spot) (λ r. not (nat_lt at r.at)) self.now result }
    {
        // without it the invariant isn't at hand, by which no record stands past the greatest moment
        let _ = &self.by_spot;
        self.down_from(Bound::Unbounded)
    }
}

// The moment after another, where there is one.
fn moment_after(at: Moment) -> Option<Moment>
    ensures { MatchOption result (greatest < at + 1) (λ next. next ≡ at + 1) }
{
    Moment::from_ms(at.ms() + 1)
}
