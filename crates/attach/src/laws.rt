//! What holds of the places between any two steps of any threads.
ghost use Rattle.attach.specs.Laws.{AHeldPlaceIsTaken, APlaceIsFreeOrHeld, TwoStandsHaveDifferentPlaces};

pub use crate::hold::{Hold, OneHolder};

/// Two stands of one table have different places, whatever steps the seats at the table have made.
pub fn two_stands_have_different_places()
    ensures { TwoStandsHaveDifferentPlaces }
{}

/// Whatever steps the seats have made, a place that one of them holds is taken: no claim finds it free.
pub fn a_held_place_is_taken()
    ensures { AHeldPlaceIsTaken }
{}

/// Whatever steps the seats have made, a place that none of them holds is free to be claimed.
pub fn a_place_is_free_or_held()
    ensures { APlaceIsFreeOrHeld }
{}
