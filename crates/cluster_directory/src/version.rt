//! Versions of the lines between nodes.
ghost use Rattle.std.specs.Prelude.{◌≡◌};
ghost use Rattle.cluster_directory.specs.Version as spec;

/// A version of the lines between nodes.
#[derive(Clone, Copy, PartialEq, Eq)]
pub enum Version {
    /// Version 1: posts have no tags.
    One,
    /// Version 2: posts may have tags.
    Two,
    /// Version 3: an account may have a floor.
    Three,
}

impl Version {
    /// The version that this program speaks.
    pub const OWN: Version = Version::Three;

    /// Its number.
    pub fn number(self) -> u8
        ensures { result ≡ spec.number self }
    {
        match self {
            Version::One => 1,
            Version::Two => 2,
            Version::Three => 3,
        }
    }

    /// The version of that number, if there is one.
    pub fn of_number(number: u64) -> Option<Version>
        ensures { result ≡ spec.of_number number }
    {
        match number {
            1 => Some(Version::One),
            2 => Some(Version::Two),
            3 => Some(Version::Three),
            _ => None,
        }
    }

    /// Whether it is lower than the other.
    pub fn is_lower_than(self, other: Version) -> bool
        ensures { result ≡ spec.is_lower self other }
    {
        self.number() < other.number()
    }
}
