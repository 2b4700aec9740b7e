//! Timers, in two collections that agree: by timer, and by moment.

ghost use Rattle.std.specs.Prelude.{◌≡◌, ◌<◌, None, OnOk, OnErr, IfSome};
ghost use Rattle.std.specs.FinMap as map;
ghost use Rattle.bnc_work.specs.Timers as spec;

use crate::due::Due;
use crate::timer::Timer;
use byte_text::NoMemory;
use std::alloc::Global;
use std::collections::{BTreeMap, BTreeSet};
use std::marker::Model;

/// Timers, each with the moment at which it is due, in milliseconds. They are seen as the finite map from a timer to its
/// moment.
#[derive(Drop)]
pub struct Timers {
    moments: BTreeMap<Timer, u64>,
    // the same, the earliest first
    order: BTreeSet<Due>,
}

impl Model for Timers {
    ghost use Rattle.ordered_maps.specs.MapView.{held_by};
    ghost use Rattle.bnc_work.specs.Timers as spec;
    ghost use Rattle.bnc_work.specs.Agreement.{Agree};

    ghost Value = { spec.Timers };

    ghost coded = { spec.coded_timers };

    ghost view = { λ t. held_by t.moments.entries };

    ghost invariant = { λ t. Agree t.order t.moments };
}

impl Timers {
    /// No timers.
    pub fn new(alloc: Global) -> Timers
        ensures { result ≡ map.empty }
    {
        Timers {
            moments: BTreeMap::new(alloc),
            order: BTreeSet::new(alloc),
        }
    }

    /// The moment at which a timer is due, where it is set.
    pub fn moment(&self, timer: Timer) -> Option<u64>
        ensures { result ≡ map.get self.now timer }
    {
        self.moments.get(&timer).copied()
    }

    /// Sets a timer to a moment, in place of the one that it was set to. For want of memory nothing changes.
    pub fn set(&mut self, timer: Timer, at: u64) -> Result<(), NoMemory>
        ensures set { OnOk result (self.new ≡ map.insert self.old timer at) }
        ensures err { OnErr result (self.new ≡ self.old) }
    {
        let before = self.moment(timer);
        let Ok(_) = self.order.insert(Due { at, timer }) else {
            return Err(NoMemory);
        };
        let Ok(_) = self.moments.insert(timer, at) else {
            self.order.remove(&Due { at, timer });
            return Err(NoMemory);
        };
        if let Some(before) = before {
            if before != at {
                self.order.remove(&Due { at: before, timer });
            }
        }
        Ok(())
    }

    /// Clears a timer, where it is set. It takes no memory.
    pub fn clear(&mut self, timer: Timer)
        ensures { self.new ≡ map.remove self.old timer }
    {
        if let Some(before) = self.moments.remove(&timer) {
            let due = Due { at: before, timer };
            self.order.remove(&due);
        }
    }

    /// The earliest moment at which a timer is due.
    pub fn next(&self) -> Option<u64>
        ensures none { result ≡ None → self.now ≡ map.empty }
        ensures earliest { IfSome result (spec.IsEarliest self.now) }
    {
        match self.order.first() {
            Some(due) => Some(due.at),
            None => None,
        }
    }

    /// Takes out the earliest timer, where it is due at a moment or before. It takes no memory.
    pub fn take_due(&mut self, now: u64) -> Option<Timer>
        ensures taken { IfSome result (λ timer. spec.TakesDue self.old now timer self.new) }
        ensures none { result ≡ None → spec.IsLaterThan now self.old }
        ensures kept { result ≡ None → self.new ≡ self.old }
    {
        let first = *self.order.first()?;
        if now < first.at {
            return None;
        }
        self.order.remove(&first);
        self.moments.remove(&first.timer);
        Some(first.timer)
    }
}
