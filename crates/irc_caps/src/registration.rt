//! How far the registration of a session is.
ghost use Rattle.std.specs.Prelude.{◌≡◌};
ghost use Rattle.irc_caps.specs.Negotiation as spec;

/// How far the registration of a session is, as its negotiation sees it.
#[derive(Clone, Copy, PartialEq, Eq)]
pub enum Registration {
    /// To come, and not held back.
    Free,
    /// To come, and held back until `CAP END`.
    Held,
    /// Past. It can't be held back any more.
    Done,
}

impl Registration {
    pub(crate) fn is_held(self) -> bool
        ensures { result ≡ spec.is_held self }
    {
        match self {
            Registration::Held => true,
            Registration::Free | Registration::Done => false,
        }
    }

    pub(crate) fn held_back(self) -> Registration
        ensures { result ≡ spec.held_back self }
    {
        match self {
            Registration::Free | Registration::Held => Registration::Held,
            Registration::Done => self,
        }
    }

    pub(crate) fn released(self) -> Registration
        ensures { result ≡ spec.released self }
    {
        match self {
            Registration::Free | Registration::Held => Registration::Free,
            Registration::Done => Registration::Done,
        }
    }
}
