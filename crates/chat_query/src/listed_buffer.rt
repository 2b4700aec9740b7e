//! Buffers of a list of buffers.
ghost use Rattle.std.specs.Prelude.{◌≡◌};
ghost use Rattle.std.proofs.Common.{rules};
ghost use Rattle.std.specs.Cmp.Rules.{comparing};
ghost use Rattle.std.specs.Ordering.{as_partial_cmp, eq_by_cmp};
ghost use Rattle.chat_history.specs.Visible.{spot_cmp};
ghost use Rattle.chat_query.specs.ListedBuffer.{listed_total};

use chat_change::Moment;
use std::cmp::Ordering;
use std::marker::Model;

/// A buffer of a list of buffers: its folded target and the moment of its latest message, by which such lists are ordered.
/// Contracts see the pair of moment and target.
#[derive(Drop)]
pub struct ListedBuffer<'a> {
    at: Moment,
    target: &'a [u8],
}

impl<'a> Model for ListedBuffer<'a> {
    ghost use Rattle.std.specs.Prelude.{ℕ, List};

    ghost Value = { ℕ × List ℕ };

    ghost view = { λ b. (b.at, b.target.now) };
}

impl<'a> ListedBuffer<'a> {
    /// The buffer of a target whose latest message is of that moment.
    pub fn new(target: &'a [u8], at: Moment) -> ListedBuffer<'a>
        ensures { result ≡ (at, target.now) }
    {
        ListedBuffer { at, target }
    }

    /// The moment of the latest message.
    pub fn at(&self) -> Moment
        ensures { result ≡ self.now.0 }
    {
        self.at
    }

    /// The folded target.
    pub fn target(&self) -> &'a [u8]
        ensures { result.now ≡ self.now.1 }
    {
        self.target
    }

    // How two of them compare: by moment, and at equal moments by target, byte by byte.
    fn order(&self, other: &ListedBuffer<'_>) -> Ordering
        ensures { result ≡ spot_cmp self.now other.now }
    {
        match self.at.ms().cmp(&other.at.ms()) {
            Ordering::Equal => self.target.cmp(other.target),
            by_moment => by_moment,
        }
    }
}

impl<'a> PartialEq for ListedBuffer<'a> {
    ghost eq = { eq_by_cmp spot_cmp };

    ghost laws = { Prim.search (comparing, listed_total, rules) };

    fn eq(&self, other: &ListedBuffer<'a>) -> bool {
        self.order(other).is_eq()
    }
}

impl<'a> Eq for ListedBuffer<'a> {
    ghost laws = { Prim.search (comparing, listed_total, rules) };
}

impl<'a> PartialOrd for ListedBuffer<'a> {
    ghost partial_cmp = { as_partial_cmp spot_cmp };

    ghost laws = { Prim.search (comparing, listed_total, rules) };

    fn partial_cmp(&self, other: &ListedBuffer<'a>) -> Option<Ordering> {
        Some(self.cmp(other))
    }
}

impl<'a> Ord for ListedBuffer<'a> {
    ghost cmp = { spot_cmp };

    ghost total = { Prim.search (comparing, listed_total, rules) };

    ghost matches_partial_cmp = { Prim.search (comparing, rules) };

    ghost matches_eq = { Prim.search (comparing, rules) };

    fn cmp(&self, other: &ListedBuffer<'a>) -> Ordering {
        self.order(other)
    }
}
