//! When the file is written anew.
ghost use Rattle.std.specs.Prelude.{◌≡◌};
ghost use Rattle.bnc_keep.specs.Upkeep as spec;

use chat_change::{Change, ChangeRef, Extent, MsgId, Record};
use chat_state::State;
use keeper::{Count, is_removal};

/// A file of fewer bytes is a small one.
const SMALL: usize = 20_000_000;

/// So many milliseconds after a redaction a small file is written anew.
const SOON: u64 = 30_000;

/// So many milliseconds after a redaction another file is.
const LATER: u64 = 300_000;

/// So many milliseconds after a floor the file is written anew.
const FLOOR: u64 = 43_200_000;

/// A file of fewer bytes isn't written anew for what is of no use in it.
const LEAST: usize = 1_000_000;

/// Between two rewritings lies so many times the time that one takes.
const APART: u64 = 20;

/// What is known of the file, for when it is written anew. Moments are milliseconds of the monotonic clock.
#[derive(Clone, Copy)]
pub(crate) struct Upkeep {
    /// How many changes the file had when the front of the state was `front`.
    pub(crate) changes: u64,
    pub(crate) front: u64,
    /// How many pieces the state had when they were counted last.
    pub(crate) pieces: u64,
    /// When the first message was redacted whose text may be in the file.
    pub(crate) redacted_at: Option<u64>,
    /// When the first floor was put below which the file may have records.
    pub(crate) floored_at: Option<u64>,
    /// Before that moment the file isn't written anew.
    pub(crate) not_before: u64,
}

// Whether so many milliseconds have passed since that moment, if there was one.
fn has_passed(since: Option<u64>, now: u64, wait: u64) -> bool
    ensures { result ≡ spec.has_passed since now wait }
{
    match since {
        Some(since) => now.saturating_sub(since) >= wait,
        None => false,
    }
}

// That moment, where there was none before.
fn first(before: Option<u64>, is_so: bool, now: u64) -> Option<u64>
    ensures { result ≡ spec.first before is_so now }
{
    match before {
        None if is_so => Some(now),
        _ => before,
    }
}

// How long the text of a redacted message may stay in a file of so many bytes, before it is written anew.
fn patience(bytes: usize) -> u64
    ensures { result ≡ spec.patience bytes }
{
    if bytes < SMALL { SOON } else { LATER }
}

// Whether a change would change the state.
fn is_new(state: &State, change: &Change) -> bool {
    // without it the borrow checker can't plan the call
    let _lent: (Option<&Record>, Option<&MsgId>, Option<Extent<'_>>) = (None, None, None);
    state.would_count(&ChangeRef::of(change))
}

// Whether a change is a redaction.
fn is_redaction(change: &Change) -> bool {
    matches!(change, Change::Redact { .. })
}

// Whether one of the changes is a redaction that would change the state.
fn redacts(state: &State, changes: &[Change]) -> bool {
    changes
        .iter()
        .any(|change| is_redaction(change) && is_new(state, change))
}

// Whether one of the changes is a floor that would change the state.
fn puts_a_floor(state: &State, changes: &[Change]) -> bool {
    changes.iter().any(|change| {
        is_removal(change) && !is_redaction(change) && is_new(state, change)
    })
}

impl Upkeep {
    /// Of a file that was read at that moment, with so many changes, and of a state with that front and so many pieces. Where
    /// some of the changes take others away, what they took away may still be in the file.
    pub(crate) fn new(count: Count, front: u64, pieces: u64, now: u64) -> Upkeep
        ensures { result ≡ spec.found count front pieces now }
    {
        let is_left = count.removals > 0 && count.changes > pieces;
        Upkeep {
            changes: count.changes,
            front,
            pieces,
            redacted_at: first(None, is_left, now),
            floored_at: None,
            not_before: 0,
        }
    }

    /// These changes come at that moment to that state.
    pub(crate) fn note(&mut self, state: &State, changes: &[Change], now: u64) {
        self.redacted_at = first(self.redacted_at, redacts(state, changes), now);
        self.floored_at = first(self.floored_at, puts_a_floor(state, changes), now);
    }

    /// How many changes the file has, where the front of the state is that.
    pub(crate) fn changes_at(&self, front: u64) -> u64
        ensures { result ≡ spec.changes_at self.now front }
    {
        self.changes
            .saturating_add(front.saturating_sub(self.front))
    }

    /// Whether the file, which has so many bytes, is to be written anew at that moment, since something is to leave it.
    pub(crate) fn is_owed(&self, bytes: usize, now: u64) -> bool
        ensures { result ≡ spec.is_owed self.now bytes now }
    {
        self.not_before <= now
            && (has_passed(self.redacted_at, now, patience(bytes))
                || has_passed(self.floored_at, now, FLOOR))
    }

    /// Whether half of the file, which has so many bytes, is of no use, as far as is known, and it may be written anew at that
    /// moment. The front of the state is that.
    pub(crate) fn is_half_useless(&self, bytes: usize, front: u64, now: u64) -> bool
        ensures { result ≡ spec.is_half_useless self.now bytes front now }
    {
        self.not_before <= now
            && LEAST <= bytes
            && self.pieces.saturating_mul(2) < self.changes_at(front)
    }

    /// It was tried to write the file anew, between these moments. It isn't tried again for so many milliseconds at least.
    pub(crate) fn tried(&mut self, began: u64, ended: u64, least: u64)
        ensures { self.new ≡ spec.tried began ended least self.old }
    {
        let took = ended.saturating_sub(began);
        let wait = took.saturating_mul(APART).max(least);
        self.not_before = ended.saturating_add(wait);
    }

    /// The file has so many changes, each of them a piece of the state, whose front is that.
    pub(crate) fn is_new(&mut self, pieces: u64, front: u64)
        ensures { self.new ≡ spec.renewed pieces front self.old }
    {
        self.changes = pieces;
        self.front = front;
        self.pieces = pieces;
        self.redacted_at = None;
        self.floored_at = None;
    }
}
