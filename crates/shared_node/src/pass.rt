//! Who puts and reads: a reader of the published state, with the list that it has seen.
ghost use Rattle.std.specs.Prelude.{◌≡◌, MatchBool};
ghost use mathlib.Core.List.{IsPrefix};
ghost use Rattle.shared_node.specs.Passes.{IsSamePut};

use crate::entrance::Entrance;
use crate::history::Naming;
use crate::prefix::Prefix;
use std::marker::Model;
use std::sync::ledger::Share;

/// One user's way into a node. Contracts see it as its number, the count of changes that it put, the list that it has seen,
/// and the longest list that it was told of.
///
/// A pass that is let go takes its part of the count along: the node is then never closed.
#[derive(Drop)]
pub struct Pass<J: Naming> {
    pub(crate) number: u64,
    pub(crate) count: u64,
    pub(crate) list: Prefix<J>,
    pub(crate) told: Prefix<J>,
    pub(crate) entrance: Entrance<J>,
    pub(crate) share: Share<J>,
}

impl<J: Naming> Model for Pass<J> {
    ghost use Rattle.std.specs.Prelude.{◌≡◌, true};
    ghost use Rattle.shared_node.specs.Passes.{PassValue, pass_value};

    ghost Value = { PassValue };

    ghost view = { λ p. pass_value p.number p.count p.list p.told };

    ghost invariant = { λ p. (p.share.parts ≡ 1) × (p.share.amount ≡ p.count)
        × (p.entrance ≡ true) };
}

/// A list that was published. Contracts see it as its entries.
#[derive(Drop)]
pub struct Receipt<J: Naming> {
    pub(crate) list: Prefix<J>,
}

impl<J: Naming> Model for Receipt<J> {
    ghost use Rattle.std.specs.Prelude.{List};
    ghost use Rattle.shared_node.specs.declared.entry.LogEntry.{LogEntry};

    ghost Value = { List LogEntry };

    ghost view = { λ r. r.list };
}

impl<J: Naming> Receipt<J> {
    /// Whether this list begins with the other's. Of any two lists of a node one begins with the other.
    pub fn follows(&self, other: &Receipt<J>) -> bool
        ensures { MatchBool result (IsPrefix other.now self.now) (IsPrefix self.now other.now) }
    {
        self.list.follows(&other.list)
    }
}

impl<J: Naming> Pass<J> {
    /// Its number, by which its entries are known.
    pub fn number(&self) -> u64
        ensures { result ≡ self.now.number }
    {
        self.number
    }

    /// A receipt of the list that it has seen.
    pub fn receipt(&self) -> Receipt<J>
        ensures { result ≡ self.now.list }
    {
        Receipt {
            list: self.list.again(),
        }
    }

    /// Tells it of the receipt's list: what it reads and puts from now on follows that list.
    pub fn learn(&mut self, receipt: &Receipt<J>)
        ensures told { IsPrefix receipt.now self.new.told × IsPrefix self.old.told self.new.told }
        ensures list { self.new.list ≡ self.old.list }
        ensures same { IsSamePut self.old self.new }
    {
        self.told = self.told.longer(&receipt.list);
    }
}
