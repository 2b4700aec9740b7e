//! The list of all changes that were put. It exists in proofs alone: at run time there is its length.
ghost use Rattle.std.specs.Prelude.{◌≡◌, ℕ, ◌+◌, ◌<◌, ◌^◌, ◌++◌, ◌∷◌, [], length};
ghost use mathlib.Core.List.{IsPrefix};
ghost use Rattle.shared_node.specs.Names.{IsNamed};

use crate::entry::LogEntry;
use crate::growing::Growing;
use crate::prefix::Prefix;
use crate::unnamed::Unnamed;
use std::marker::{Brand, Model};
use std::sync::ledger::{Book, Ledger, Share};

/// Which node it is. A caller picks it for each run of a node, as that of the [`Unnamed`] that it made.
pub trait Naming: Ledger {
    ghost book: { ℕ };
}

impl Naming for Brand {
    ghost book = { 0 };
}

/// The history of the node `J`. There is one, and without it no entry is added. Contracts see it as its entries.
#[derive(Drop)]
pub struct History<J: Naming> {
    whole: Growing<LogEntry>,
    list: Prefix<J>,
}

impl<J: Naming> Model for History<J> {
    ghost use Rattle.std.specs.Prelude.{◌≡◌, List};
    ghost use Rattle.shared_node.specs.declared.entry.LogEntry.{LogEntry};

    ghost Value = { List LogEntry };

    ghost view = { λ h. h.list };

    ghost invariant = { λ h. (h.whole.list ≡ h.list) × (h.whole.book ≡ J.book) };
}

impl<J: Naming> History<J> {
    /// All of it, as a prefix.
    pub(crate) fn list(&self) -> &Prefix<J>
        ensures { result.now ≡ self.now }
    {
        &self.list
    }

    /// It begins with each prefix that was reached.
    pub(crate) fn compare(&mut self, prefix: &Prefix<J>)
        ensures prefix { IsPrefix prefix.now self.old }
        ensures same { self.new ≡ self.old }
    {
        self.whole.compare(prefix.seen());
    }

    /// Adds an entry.
    pub(crate) fn add(&mut self, entry: &LogEntry)
        requires { length self.old + 1 < 2 ^ 64 }
        ensures { self.new ≡ self.old ++ entry.now ∷ [] }
    {
        let count = self.list.len() + 1;
        self.whole.add(entry);
        self.list = Prefix::new(count, self.whole.reached());
    }
}

impl Unnamed {
    /// The empty history, the empty prefix of it, the count of changes, and all parts of that count.
    pub fn named<J: Naming>(self) -> (History<J>, Prefix<J>, Book<J>, Share<J>)
        requires { IsNamed J.book J.name J.parts self }
        ensures history { result.0 ≡ [] }
        ensures list { result.1 ≡ [] }
        ensures tally { result.2.total ≡ 0 }
        ensures shares { (result.3.parts ≡ J.parts) × (result.3.amount ≡ 0) }
    {
        let Unnamed {
            whole,
            seen,
            blank,
            passes: _,
        } = self;
        let (tally, all) = blank.open::<J>();
        let list = Prefix::new(0, seen);
        let again = list.again();
        (History { whole, list }, again, tally, all)
    }
}
