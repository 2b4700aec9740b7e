//! Keys with prefixes, and what is looked up among them.

ghost use Rattle.std.specs.Prelude.{◌≡◌, ◌<◌, ℕ};
ghost use Rattle.std.specs.declared.cmp.Ordering.TheVariants.{Less};

use std::cmp::Ordering;

/// A key with a number that goes by the keys' order.
///
/// A map keeps the number of each page's first key in its list of pages, and asks for those of others in a page. So it should lie
/// in the key itself.
pub trait Prefixed: Ord {
    ghost prefix_of: { Self → ℕ };

    /// The number. Of two keys with different numbers, the one with the smaller is the smaller. Where the numbers are equal,
    /// they say nothing.
    fn prefix(&self) -> u64
        ensures { result ≡ prefix_of self.now };

    ghost ascends: { (k l : Self) → prefix_of k < prefix_of l → Self.cmp k l ≡ Less };
}

/// What stands for a key where one is looked up: a key itself, or what it is made of.
pub trait Lookup<K: Prefixed> {
    ghost key: { Self → K };

    /// The prefix of the key.
    fn key_prefix(&self) -> u64
        ensures { result ≡ K.prefix_of (key self.now) };

    /// How another key compares with it.
    fn order_of(&self, other: &K) -> Ordering
        ensures { result ≡ K.cmp other.now (key self.now) };
}

impl<K: Prefixed> Lookup<K> for K {
    ghost key = { λ k. k };

    fn key_prefix(&self) -> u64 {
        self.prefix()
    }

    fn order_of(&self, other: &K) -> Ordering {
        other.cmp(self)
    }
}

/// How a key compares with one that is sought. Most prefixes differ, and then the keys aren't looked at.
pub(crate) fn order<K: Prefixed, Q: Lookup<K>>(key: &K, sought: &Q) -> Ordering
    ensures { result ≡ K.cmp key.now (Q.key sought.now) }
{
    match key.prefix().cmp(&sought.key_prefix()) {
        Ordering::Less => Ordering::Less,
        Ordering::Equal => sought.order_of(key),
        Ordering::Greater => Ordering::Greater,
    }
}
