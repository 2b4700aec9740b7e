//! Lists of buffers.
ghost use Rattle.std.specs.Prelude.{◌≡◌, ◌≤◌, ◌-◌, IsTrue, IfOk, OnOk, length, take, if◌then◌else◌};
ghost use Rattle.std.specs.Iterator.{at_most};
ghost use Rattle.std.specs.BTreeSet.{btree_set_len, insert_key};
ghost use Rattle.std.specs.Map.Iter.{TakesFirst};
ghost use Rattle.chat_history.specs.Visible.{spot_cmp};
ghost use Rattle.chat_query.specs.Page.{buffers_in, last, lies_between, targets_cut};

use chat_change::Moment;
use chat_query::{ListedBuffer, Scope};
use chat_state::{Latest, State};
use std::alloc::{AllocError, Global};
use std::collections::BTreeSet;
use std::marker::Model;

/// The buffers of a network as they are listed. It is seen as the list of what is left.
#[derive(Drop)]
struct Listing<'a> {
    latest: Latest<'a>,
}

impl<'a> Model for Listing<'a> {
    ghost use Rattle.std.specs.Prelude.{ℕ, List};
    ghost use Rattle.chat_query.specs.Page.{listed};

    ghost Value = { List (ℕ × List ℕ) };

    ghost view = { λ l. listed l.latest };
}

impl<'a> Iterator for Listing<'a> {
    type Item = ListedBuffer<'a>;

    ghost next_gives = { TakesFirst (λ b. b) };

    ghost remaining = { λ s. at_most (length s) };

    fn next(&mut self) -> Option<ListedBuffer<'a>> {
        match self.latest.next() {
            Some((buffer, at)) => Some(ListedBuffer::new(buffer.target(), at)),
            None => None,
        }
    }
}

fn lies_between(one: Moment, other: Moment, buffer: &ListedBuffer<'_>) -> bool
    ensures { result ≡ lies_between one other buffer.now }
{
    let low = one.ms().min(other.ms());
    let high = one.ms().max(other.ms());
    low < buffer.at().ms() && buffer.at().ms() < high
}

/// Whether a buffer comes behind those that are kept, or before them where the last are kept. It does where none is kept.
fn comes_past(kept: &BTreeSet<ListedBuffer<'_>>, forward: bool, buffer: &ListedBuffer<'_>) -> bool
    ensures { IsTrue result → (
        let all = insert_key spot_cmp kept.now.keys buffer.now in
        let n = btree_set_len kept.now in
        (if forward then take n all else last n all) ≡ kept.now.keys) }
{
    if forward {
        match kept.last() {
            Some(end) => buffer.cmp(end).is_ge(),
            None => true,
        }
    } else {
        match kept.first() {
            Some(end) => buffer.cmp(end).is_le(),
            None => true,
        }
    }
}

/// Lets the last buffer go, or the first one where the last are kept.
fn let_go_of_end(kept: &mut BTreeSet<ListedBuffer<'_>>, forward: bool)
    ensures { let n = btree_set_len kept.old - 1 in
        kept.new.keys ≡ (if forward then take n kept.old.keys else last n kept.old.keys) }
{
    if forward {
        kept.pop_last();
    } else {
        kept.pop_first();
    }
}

/// Adds a buffer to at most `n` others and keeps the first `n`, or the last `n` where it is not forward. A buffer that
/// comes past `n` others costs one comparison.
fn keep<'a>(
    kept: &mut BTreeSet<ListedBuffer<'a>>,
    forward: bool,
    n: usize,
    buffer: ListedBuffer<'a>,
) -> Result<(), AllocError>
    requires { btree_set_len kept.old ≤ n }
    ensures { OnOk result (
        let all = insert_key spot_cmp kept.old.keys buffer.entry in
        kept.new.keys ≡ (if forward then take n all else last n all)) }
{
    if kept.len() >= n && comes_past(kept, forward, &buffer) {
        return Ok(());
    }
    kept.insert(buffer)?;
    if kept.len() > n {
        let_go_of_end(kept, forward);
    }
    Ok(())
}

/// The first `n` of the buffers of a scope whose latest visible records lie strictly between two moments, and the last `n`
/// where the first moment is not the lower one. No more than `n + 1` are held at a time.
fn found_between<'a>(
    alloc: Global,
    state: &'a State,
    scope: &Scope<'_>,
    one: Moment,
    other: Moment,
    n: usize,
) -> Result<BTreeSet<ListedBuffer<'a>>, AllocError>
    ensures { IfOk result (λ found. found.keys ≡ targets_cut n one other
        (buffers_in state.now.history scope.now)) }
{
    let latest = state.latest_since(scope.account(), scope.network(), one.min(other));
    let forward = one.ms() < other.ms();
    let mut found = BTreeSet::new(alloc);
    for buffer in (Listing { latest }) {
        if lies_between(one, other, &buffer) {
            keep(&mut found, forward, n, buffer)?;
        }
    }
    Ok(found)
}

/// The first `n` of the buffers whose latest visible records lie strictly between two moments, and the last `n` where the
/// first moment is not the lower one.
pub(crate) fn listed_between<'a>(
    alloc: Global,
    state: &'a State,
    scope: &Scope<'_>,
    one: Moment,
    other: Moment,
    n: usize,
) -> Result<Vec<ListedBuffer<'a>>, AllocError>
    ensures { IfOk result (λ page. page.items ≡ targets_cut n one other
        (buffers_in state.now.history scope.now)) }
{
    found_between(alloc, state, scope, one, other, n)?
        .into_iter()
        .collect(alloc)
}
