//! What is told of a file that is damaged.
ghost use Rattle.std.specs.Prelude.{◌≡◌, ◌≤◌, ◌+◌, length, take, drop, min};
ghost use Rattle.bnc_keep.specs.Damage as spec;

use std::fmt;

/// What is wrong with a file that is damaged.
#[derive(Clone, Copy, PartialEq, Eq)]
pub(crate) enum DamageKind {
    /// A whole block is neither changes nor a life.
    NoEntry,
    /// What stands behind the last whole block isn't the end of an append that was cut short.
    NoEnd,
}

/// Where a file is damaged.
#[derive(Clone, Copy, PartialEq, Eq)]
pub(crate) struct Damage {
    fault: DamageKind,
    // the first byte that isn't read, counted from 0, and its line, counted from 1
    at: usize,
    line: usize,
    // how many lines of changes stand from there on
    changes: usize,
}

// How many lines end in these bytes.
fn lines_in(bytes: &[u8]) -> usize
    ensures count { result ≡ spec.lines_in bytes.now }
    ensures bound { result ≤ length bytes.now }
{
    bytes.iter().filter(|byte| **byte == b'\n').count()
}

// Whether a line is that of a change.
fn is_change(line: &[u8]) -> bool
    ensures { result ≡ spec.is_change line.now }
{
    line.starts_with(b"C ")
}

// How many lines of changes these bytes have.
fn changes_in(bytes: &[u8]) -> usize
    ensures { result ≡ spec.changes_in bytes.now }
{
    bytes
        .split(|byte| *byte == b'\n')
        .filter(|line| is_change(line))
        .count()
}

impl Damage {
    /// The damage of a file that has these bytes, of which those from that place on aren't read.
    pub(crate) fn of(fault: DamageKind, bytes: &[u8], at: usize) -> Damage
        ensures fault { result.fault ≡ fault }
        ensures at { result.at ≡ min at (length bytes.now) }
        ensures line { result.line ≡ spec.lines_in (take result.at bytes.now) + 1 }
        ensures changes { result.changes ≡ spec.changes_in (drop result.at bytes.now) }
    {
        let at = at.min(bytes.len());
        let (read, unread) = bytes.split_at(at);
        Damage {
            fault,
            at,
            line: lines_in(read) + 1,
            changes: changes_in(unread),
        }
    }
}

impl fmt::Display for Damage {
    fn fmt<W: fmt::Write>(&self, f: &mut fmt::Formatter<W>) -> fmt::Result {
        let fault = match self.fault {
            DamageKind::NoEntry => "a block that has neither changes nor a life",
            DamageKind::NoEnd => "bytes that no append leaves",
        };
        write!(
            f,
            "damaged at byte {}, line {}: {fault}; {} lines `C ..` stand there and behind it; the file is as it was",
            self.at, self.line, self.changes
        )
    }
}
