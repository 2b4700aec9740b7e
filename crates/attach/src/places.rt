//! Places for clients: a clerk hands them out, and a stand holds one until it is dropped.
ghost use Rattle.std.specs.Prelude.{◌≡◌, ◌<◌, ◌⊎◌, ◌↔◌, None, IfOk};

use crate::hold::{Hold, NoFurtherOwner};
use std::alloc::{AllocError, Global};
use std::fmt;
use std::marker::Model;
use thiserror::Error;

/// The most places that there may be.
pub const MOST_PLACES: usize = 4096;

/// Why no places were made.
#[derive(Debug, Drop, PartialEq, Error)]
pub enum PlacesFault {
    /// The count is 0 or more than [`MOST_PLACES`].
    #[error("the number of places is not 1 to 4096")]
    BadCount,
    /// There was no memory for so many places.
    #[error("no memory for the places")]
    NoMemory,
}

impl From<AllocError> for PlacesFault {
    ghost use Rattle.std.specs.Prelude.{◌≡◌};
    ghost use Rattle.attach.specs.declared.places.PlacesFault.{PlacesFault};

    ghost from_gives = { λ _ fault. fault ≡ PlacesFault.NoMemory };

    fn from(_: AllocError) -> PlacesFault {
        PlacesFault::NoMemory
    }
}

/// Why no place was given.
#[derive(Debug, Drop, PartialEq, Error)]
pub enum ClaimFault {
    /// Each place was found taken once during the call.
    #[error("each place is taken")]
    Full,
    /// The places can have no further owner. No place was tried.
    #[error("the places can have no further owner")]
    NoSeat,
}

// Each place was found taken.
#[derive(Drop)]
struct EachTaken;

impl From<EachTaken> for ClaimFault {
    ghost use Rattle.std.specs.Prelude.{◌≡◌};
    ghost use Rattle.attach.specs.declared.places.ClaimFault.{ClaimFault};

    ghost from_gives = { λ _ fault. fault ≡ ClaimFault.Full };

    fn from(_: EachTaken) -> ClaimFault {
        ClaimFault::Full
    }
}

impl From<NoFurtherOwner> for ClaimFault {
    ghost use Rattle.std.specs.Prelude.{◌≡◌};
    ghost use Rattle.attach.specs.declared.places.ClaimFault.{ClaimFault};

    ghost from_gives = { λ _ fault. fault ≡ ClaimFault.NoSeat };

    fn from(_: NoFurtherOwner) -> ClaimFault {
        ClaimFault::NoSeat
    }
}

/// Where places are made.
pub struct Places;

/// Hands out places. It keeps them, and the stands keep them too, so either may be dropped first.
pub struct Clerk {
    hold: Hold,
    count: usize,
}

impl Model for Clerk {
    ghost use Rattle.std.specs.Prelude.{◌≡◌, ◌≤◌, None};
    ghost use Rattle.attach.specs.Codes.{clerk_code};
    ghost use Rattle.attach.specs.Places.{ClerkState};

    ghost Value = { ClerkState };

    ghost coded = { clerk_code };

    ghost view = { λ a. record { table = a.hold.table; count = a.count } };

    ghost invariant = { λ a. (a.hold.place ≡ None)
        × (a.hold.table.words ≡ a.count) × (1 ≤ a.count) };
}

/// Holds a place until it is dropped. No other stand of the same places holds it meanwhile.
pub struct Stand {
    hold: Hold,
    place: usize,
}

impl Model for Stand {
    ghost use Rattle.std.specs.Prelude.{◌≡◌, Some};
    ghost use Rattle.attach.specs.Codes.{stand_code};
    ghost use Rattle.attach.specs.Places.{StandState};

    ghost Value = { StandState };

    ghost coded = { stand_code };

    ghost view = { λ a. record { table = a.hold.table; place = a.place } };

    ghost invariant = { λ a. a.hold.place ≡ Some a.place };
}

impl Places {
    /// Makes so many places, 1 to [`MOST_PLACES`], numbered from 0 and all free.
    pub fn new(alloc: Global, count: usize) -> Result<Clerk, PlacesFault>
        ensures ok { IfOk result (λ c. c.count ≡ count) }
        ensures bad_count { (result ≡ Err PlacesFault.BadCount)
            ↔ ((count ≡ 0) ⊎ (MOST_PLACES < count)) }
    {
        if count == 0 || count > MOST_PLACES {
            return Err(PlacesFault::BadCount);
        }
        let hold = Hold::first(alloc, count)?;
        Ok(Clerk { hold, count })
    }
}

impl Clerk {
    /// Claims a place: tries each once, from 0 upwards, and takes the first that it finds free.
    /// Takes no memory.
    pub fn claim(&mut self) -> Result<Stand, ClaimFault>
        ensures place { IfOk result (λ s. s.place < self.old.count) }
        ensures table { IfOk result (λ s. s.table ≡ self.old.table) }
        ensures same { self.new ≡ self.old }
    {
        let hold = self.hold.another()?;
        let stand = Stand::first_free(hold, self.count)?;
        Ok(stand)
    }
}

impl Stand {
    // Tries each place once, from 0 upwards, and takes the first that it finds free.
    fn first_free(mut hold: Hold, count: usize) -> Result<Stand, EachTaken>
        requires none { hold.place ≡ None }
        requires count { hold.table.words ≡ count }
        ensures place { IfOk result (λ s. s.place < count) }
        ensures table { IfOk result (λ s. s.table ≡ hold.table) }
    {
        for place in 0..count {
            if hold.take(place) {
                return Ok(Stand { hold, place });
            }
        }
        hold.end();
        Err(EachTaken)
    }

    /// The number of the place that is held.
    pub fn place(&self) -> usize
        ensures { result ≡ self.now.place }
    {
        self.place
    }
}

impl fmt::Debug for Stand {
    fn fmt<W: fmt::Write>(&self, f: &mut fmt::Formatter<W>) -> fmt::Result {
        write!(f, "Stand {{ place: {} }}", self.place)
    }
}

impl Drop for Stand {
    fn drop(self) {
        let Self { mut hold, place: _ } = self;
        hold.free();
        hold.end();
    }
}

impl Drop for Clerk {
    fn drop(self) {
        let Self { hold, count: _ } = self;
        hold.end();
    }
}
