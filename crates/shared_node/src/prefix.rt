//! Prefixes of a node's history that were reached.
ghost use Rattle.std.specs.Prelude.{◌≡◌, ◌<◌, ◌⊎◌, length, MatchBool};
ghost use mathlib.Core.List.{IsPrefix};

use crate::entry::LogEntry;
use crate::growing::Reached;
use crate::history::Naming;
use std::marker::{Model, PhantomData};

/// A prefix of the history of the node `J`, with its length. Contracts see it as its entries.
#[derive(Drop)]
pub struct Prefix<J: Naming> {
    count: u64,
    seen: Reached<LogEntry>,
    of: PhantomData<J>,
}

impl<J: Naming> Model for Prefix<J> {
    ghost use Rattle.std.specs.Prelude.{◌≡◌, List, length};
    ghost use Rattle.shared_node.specs.declared.entry.LogEntry.{LogEntry};

    ghost Value = { List LogEntry };

    ghost view = { λ p. p.seen.list };

    ghost invariant = { λ p. (p.count ≡ length p.seen.list) × (p.seen.book ≡ J.book) };
}

impl<J: Naming> Prefix<J> {
    pub(crate) fn new(count: u64, seen: Reached<LogEntry>) -> Prefix<J>
        requires { (count ≡ length seen.list) × (seen.book ≡ J.book) }
        ensures { result ≡ seen.list }
    {
        Prefix {
            count,
            seen,
            of: PhantomData,
        }
    }

    pub(crate) fn seen(&self) -> &Reached<LogEntry>
        ensures { (result.now.list ≡ self.now) × (result.now.book ≡ J.book) }
    {
        &self.seen
    }

    /// How many entries it has.
    pub fn len(&self) -> u64
        ensures { result ≡ length self.now }
    {
        self.count
    }

    /// The same prefix once more.
    pub fn again(&self) -> Prefix<J>
        ensures { result ≡ self.now }
    {
        Prefix {
            count: self.count,
            seen: self.seen.again(),
            of: PhantomData,
        }
    }

    /// Whether this one begins with the other. Of any two prefixes of a history one begins with the other.
    pub fn follows(&self, other: &Prefix<J>) -> bool
        ensures { MatchBool result (IsPrefix other.now self.now)
            (IsPrefix self.now other.now × (length self.now < length other.now)) }
    {
        self.seen.compare(&other.seen);
        if other.count > self.count {
            return false;
        }
        true
    }

    /// The longer of two prefixes. It begins with both.
    pub fn longer(&self, other: &Prefix<J>) -> Prefix<J>
        ensures one { (result ≡ self.now) ⊎ (result ≡ other.now) }
        ensures this { IsPrefix self.now result }
        ensures that { IsPrefix other.now result }
    {
        if self.follows(other) {
            self.again()
        } else {
            other.again()
        }
    }
}
