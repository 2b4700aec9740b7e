//! Numbers of pieces, as keys.

ghost use Rattle.std.specs.Prelude.{◌≡◌};
ghost use Rattle.std.proofs.Common.{rules};
ghost use Rattle.std.specs.Cmp.Rules.{comparing};
ghost use Rattle.std.specs.Ordering.{as_partial_cmp, eq_by_cmp};
ghost use Rattle.chat_state.specs.Number.{number_ascends, number_cmp, number_prefix};

use ordered_maps::Prefixed;
use std::cmp::Ordering;
use std::marker::Model;

/// The number of a piece, as a key of the index.
#[derive(Clone, Copy)]
pub(crate) struct Number {
    value: u64,
}

impl Model for Number {
    ghost use Rattle.std.specs.Prelude.{ℕ};

    ghost Value = { ℕ };

    ghost view = { λ n. n.value };

    ghost inverse = { λ n. record { value = n } };
}

impl Number {
    /// The key of that number.
    pub(crate) fn of(value: u64) -> Number
        ensures { result ≡ value }
    {
        Number { value }
    }

    /// The number itself.
    pub(crate) fn value(&self) -> u64
        ensures { result ≡ self.now }
    {
        self.value
    }
}

impl PartialEq for Number {
    ghost eq = { eq_by_cmp number_cmp };

    ghost laws = { Prim.search (comparing, rules) };

    fn eq(&self, other: &Number) -> bool {
        self.cmp(other).is_eq()
    }
}

impl Eq for Number {
    ghost laws = { Prim.search (comparing, rules) };
}

impl PartialOrd for Number {
    ghost partial_cmp = { as_partial_cmp number_cmp };

    ghost laws = { Prim.search (comparing, rules) };

    fn partial_cmp(&self, other: &Number) -> Option<Ordering> {
        Some(self.cmp(other))
    }
}

impl Prefixed for Number {
    ghost prefix_of = { number_prefix };

    fn prefix(&self) -> u64 {
        u64::MAX - self.value
    }

    ghost ascends = { number_ascends };
}

/// The greatest number comes first. New numbers are above all earlier ones, and a map looks at its first keys first: so
/// the place of a new one is found at once.
impl Ord for Number {
    ghost cmp = { number_cmp };

    ghost total = { Prim.search (comparing, rules) };

    ghost matches_partial_cmp = { Prim.search (comparing, rules) };

    ghost matches_eq = { Prim.search (comparing, rules) };

    fn cmp(&self, other: &Number) -> Ordering {
        other.value.cmp(&self.value)
    }
}
