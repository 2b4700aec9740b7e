//! Which floors are due.

ghost use Rattle.std.specs.Prelude.{◌≡◌, ◌++◌, ◌∷◌, [], IfOk, if◌then◌else◌};
ghost use Rattle.chat_history.specs.History.{IsKeyed};
ghost use Rattle.chat_history.specs.Retention as spec;
ghost use Rattle.chat_buffers.specs.Store.{history_in};

use crate::state::State;
use crate::store::Store;
use byte_text::NoMemory;
use chat_buffers::Sought;
use chat_change::{Buffer, Change, Moment};
use std::alloc::Global;

const DAY_LENGTH: u64 = 86_400_000;

// The moment so many days before another.
fn due_moment(now: Moment, days: u32) -> Option<Moment>
    ensures { result ≡ spec.due_moment now days }
{
    let back = days as u64 * DAY_LENGTH;
    if days == 0 {
        return None;
    }
    if now.ms() < back {
        return None;
    }
    Moment::from_ms(now.ms() - back)
}

// Whether there was memory for one more floor.
fn push_floor(floors: &mut Vec<Change>, buffer: &Buffer, at: Moment) -> bool
    ensures { floors.new.items ≡
        (if result then floors.old.items ++ Change.Floor buffer.now at ∷ [] else floors.old.items) }
{
    let Ok(buffer) = buffer.try_clone() else {
        return false;
    };
    floors.push(Change::Floor { buffer, at }).is_ok()
}

// A floor for each buffer that holds a record older than a moment.
fn floors_at(alloc: Global, store: &Store, at: Moment) -> Result<Vec<Change>, NoMemory>
    requires { IsKeyed (history_in store.now) }
    ensures { IfOk result (λ floors. floors.items ≡ spec.floors_at (history_in store.now) at) }
{
    let mut floors = Vec::new(alloc);
    let mut walk = store.walk();
    while let Some((buffer, _)) = walk.next_sought(&Sought::Outdated(at)) {
        if !push_floor(&mut floors, buffer, at) {
            return Err(NoMemory);
        }
    }
    Ok(floors)
}

impl State {
    /// For each buffer that holds a record older than `now` less so many days, a floor at that moment, in the order of
    /// buffers. Nothing for 0 days, or where that moment lies before 1970.
    pub fn due_floors(&self, alloc: Global, now: Moment, days: u32) -> Result<Vec<Change>, NoMemory>
        ensures { IfOk result (λ floors. floors.items ≡ spec.due_floors self.now.history now days) }
    {
        match due_moment(now, days) {
            Some(at) => floors_at(alloc, &self.store, at),
            None => Ok(Vec::new(alloc)),
        }
    }
}
