//! Numbered changes, lent from where they are held.

ghost use Rattle.std.specs.Prelude.{◌≡◌};

use chat_change::ChangeRef;

/// A change that is held, under its number.
#[derive(Clone, Copy)]
pub struct Piece<'s> {
    /// Its number.
    pub number: u64,
    /// What it says.
    pub change: ChangeRef<'s>,
}

impl Piece<'_> {
    /// Its number.
    // `merge` of a state counts by it; of a field that is read there the prover wouldn't know that it fits a u64.
    pub fn number(&self) -> u64
        ensures { result ≡ self.now.number }
    {
        self.number
    }
}
