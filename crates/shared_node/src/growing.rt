//! A list that only grows, and prefixes of it. Both exist in proofs alone: they take no memory, and their methods do nothing at
//! run time.
ghost use Rattle.std.specs.Prelude.{◌≡◌, ℕ, ◌++◌, ◌∷◌, List, []};
ghost use mathlib.Core.List.{IsPrefix};
ghost use base.Stored.{coded_list};
ghost use denote.Sharing.{said};
ghost use Rattle.shared_node.specs.Owned.{whole_owns, prefix_owns};

use std::marker::{Model, PhantomData};

/// A list that grows at this end alone. There is one end, so whoever has it knows the whole list. A clause reads which list it is
/// as `book`, and its entries as `list`.
pub(crate) struct Growing<E> {
    marker: PhantomData<E>,
    pub ghost book: { ℕ },
    pub ghost list: { List E } by { coded_list E.code },
}

impl<E> Model for Growing<E> {
    ghost also_owns = { λ g. whole_owns E.row.coded.code g.book g.list };
}

/// A prefix of such a list: all that it was at some time. It may be had any number of times.
pub(crate) struct Reached<E> {
    marker: PhantomData<E>,
    pub ghost book: { ℕ },
    pub ghost list: { List E } by { coded_list E.code },
}

impl<E> Model for Reached<E> {
    ghost also_owns = { λ r. prefix_owns E.row.coded.code r.book r.list };

    ghost also_shares = { λ r _ κ. said (prefix_owns E.row.coded.code r.book r.list) κ };
}

impl<E> Growing<E> {
    /// An empty list.
    pub fn new() -> Growing<E>
        ensures { result.list ≡ [] }
    {
        Growing {
            marker: PhantomData,
        }
    }

    /// The list has this entry too.
    pub fn add(&mut self, _entry: &E)
        ensures { (self.new.book ≡ self.old.book)
            × (self.new.list ≡ self.old.list ++ _entry.now ∷ []) }
    {}

    /// All of the list, as it is now.
    pub fn reached(&mut self) -> Reached<E>
        ensures { (self.new ≡ self.old) × (result.book ≡ self.old.book)
            × (result.list ≡ self.old.list) }
    {
        Reached {
            marker: PhantomData,
        }
    }

    /// The list begins with each prefix that was reached.
    pub fn compare(&mut self, _prefix: &Reached<E>)
        requires { _prefix.now.book ≡ self.old.book }
        ensures { (self.new ≡ self.old) × IsPrefix _prefix.now.list self.old.list }
    {}
}

impl<E> Reached<E> {
    /// The same prefix once more.
    pub fn again(&self) -> Reached<E>
        ensures { result ≡ self.now }
    {
        Reached {
            marker: PhantomData,
        }
    }

    /// The list begins with both prefixes.
    pub fn compare(&self, _other: &Reached<E>)
        requires { _other.now.book ≡ self.now.book }
        ensures { (both : List E) × IsPrefix self.now.list both × IsPrefix _other.now.list both }
    {}
}

impl<E> Drop for Growing<E> {
    fn drop(self) {
        let Self { marker: _ } = self;
    }
}

impl<E> Drop for Reached<E> {
    fn drop(self) {
        let Self { marker: _ } = self;
    }
}

unsafe impl<E> Send for Growing<E> {}

unsafe impl<E> Send for Reached<E> {}

unsafe impl<E> Sync for Reached<E> {}
