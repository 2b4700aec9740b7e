//! What went by, in order. It exists in proofs alone: it takes no memory, and its methods do nothing at run time.
ghost use Rattle.std.specs.Prelude.{◌≡◌, ◌++◌, ℕ, List, []};
ghost use Rattle.std.specs.Borrow.{ftrue};

use std::marker::Model;

/// Bytes that went by. A clause reads them as `bytes`.
#[derive(Drop)]
pub struct Transcript {
    pub ghost bytes: { List ℕ },
}

impl Model for Transcript {
    ghost also_owns = { λ _. ftrue };
}

// It owns nothing.
unsafe impl Send for Transcript {}

/// Further bytes.
#[derive(Clone, Copy)]
pub struct FurtherBytes<'a> {
    pub bytes: &'a [u8],
}

impl Transcript {
    /// Nothing went by.
    pub fn new() -> Transcript
        ensures { result.bytes ≡ [] }
    {
        Transcript {}
    }

    /// These too.
    #[inline(always)]
    pub fn then(&self, _piece: &FurtherBytes<'_>) -> Transcript
        ensures { result.bytes ≡ self.now.bytes ++ _piece.now.bytes.now }
    {
        Transcript {}
    }
}
