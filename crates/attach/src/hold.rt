//! A seat at the places, and the place that it holds.
ghost use Rattle.std.specs.Prelude.{◌≡◌, ◌<◌, ◌≤◌, None, Some, IfOk, if◌then◌else◌};

use atomic_table::{Play, Seat, Split, Table, TableRule};
use std::alloc::{AllocError, Global};
use std::marker::Model;
use std::sync::Arc;

// The word of a place that no seat holds.
const FREE: u64 = 0;

// The word of a place that a seat holds.
const TAKEN: u64 = 1;

/// The rule of the places: no two seats hold one place, and a place is taken just where a seat holds it.
pub struct OneHolder;

impl TableRule<(), Option<usize>, usize> for OneHolder {
    ghost use Rattle.attach.specs.Hold.{IsOneHolder};
    ghost use Rattle.attach.specs.Steps.{first_view};

    ghost holds = { IsOneHolder };

    ghost first = { λ _. first_view };
}

// A word for each place. The key is how many there are.
type PlaceTable = Table<(), Option<usize>, usize, OneHolder, Global>;

// A seat's view is the place that it holds.
type PlaceSeat = Seat<(), Option<usize>>;

// A seat that holds no place tries to take one.
struct Claim;

impl Play<(), Option<usize>> for Claim {
    ghost use Rattle.attach.specs.Steps.{IsClaim};

    ghost then = { IsClaim };
}

// A seat frees the place that it holds.
struct Release;

impl Play<(), Option<usize>> for Release {
    ghost use Rattle.attach.specs.Steps.{IsReleaseOfTaken};

    ghost then = { IsReleaseOfTaken };
}

// A new seat holds no place.
struct NewSeat;

impl Split<Option<usize>> for NewSeat {
    ghost use Rattle.attach.specs.Steps.{kept_view, newcomers_view};

    ghost left = { kept_view };

    ghost right = { newcomers_view };
}

// The count of the owners of the places is full.
#[derive(Drop)]
pub(crate) struct NoFurtherOwner;

/// A stand's seat at the places. It is not `Drop`, and can be let go only once it holds no place.
pub struct Hold {
    words: Arc<PlaceTable, Global>,
    seat: PlaceSeat,
    place: Option<usize>,
}

impl Model for Hold {
    ghost use Rattle.std.specs.Arc.{arc_value};
    ghost use Rattle.attach.specs.Codes.{hold_code};
    ghost use Rattle.attach.specs.Hold.{HoldState, IsSeated};

    ghost Value = { HoldState };

    ghost coded = { hold_code };

    ghost view = { λ a. record { table = a.seat.table_id; place = a.seat.me.0 } };

    ghost invariant = { λ a. IsSeated (arc_value a.words).shared.table_id
        (arc_value a.words).shared.key a.seat a.place };
}

impl Hold {
    // The first seat at a new table of so many words, each free.
    pub(crate) fn first(alloc: Global, count: usize) -> Result<Hold, AllocError>
        ensures none { IfOk result (λ h. h.place ≡ None) }
        ensures count { IfOk result (λ h. h.table.words ≡ count) }
    {
        let free = Vec::from_elem(alloc, FREE, count)?;
        let (table, seat) = Table::of_words(alloc, free.as_slice(), &count)?;
        let words = Arc::new(alloc, table)?;
        Ok(Hold {
            words,
            seat,
            place: None,
        })
    }

    // A further seat at the same table, split off this one. Takes no memory.
    pub(crate) fn another(&mut self) -> Result<Hold, NoFurtherOwner>
        requires { 1 ≤ self.old.table.words }
        ensures none { IfOk result (λ h. h.place ≡ None) }
        ensures table { IfOk result (λ h. h.table ≡ self.old.table) }
        ensures same { self.new ≡ self.old }
    {
        let Ok(words) = Arc::try_clone(&self.words) else {
            return Err(NoFurtherOwner);
        };
        let seat = words.shared.split_seat::<NewSeat>(&mut self.seat);
        Ok(Hold {
            words,
            seat,
            place: None,
        })
    }

    // Takes the place if it is free. Takes no memory and waits for nobody.
    pub(crate) fn take(&mut self, place: usize) -> bool
        requires none { self.old.place ≡ None }
        requires within { place < self.old.table.words }
        ensures { self.new ≡ record self.old { place = (if result then Some place else None) } }
    {
        let found = self
            .words
            .shared
            .compare_exchange::<Claim>(&mut self.seat, place, FREE, TAKEN);
        if found == FREE {
            self.place = Some(place);
        }
        found == FREE
    }

    // Lets go of a seat that holds no place.
    pub(crate) fn end(self)
        requires { self.place ≡ None }
    {
        let Self {
            words: _,
            seat: _,
            place: _,
        } = self;
    }

    /// Frees the place that the seat holds, in one exchange. A seat that holds none is left as it is.
    /// Takes no memory and waits for nobody.
    pub fn free(&mut self)
        ensures { self.new ≡ record self.old { place = None } }
    {
        if let Some(place) = self.place {
            self.words
                .shared
                .swap::<Release>(&mut self.seat, place, FREE);
            self.place = None;
        }
    }
}
