//! Edits of pages at a place: one page is changed, begun, split or taken out.

ghost use Rattle.std.specs.Prelude.{◌≡◌, ◌≤◌, ◌<◌, ◌++◌, ◌∷◌, [], None, false, length, IsTrue, OnOk, OnErr};
ghost use Rattle.std.specs.List.{insert};
ghost use Rattle.std.specs.Option.{option_to_list};
ghost use Rattle.ordered_maps.specs.Pages.{entries_of, page_at, AreFilled};
ghost use Rattle.ordered_maps.specs.Places.{IsPlace, IsEntryPlace, before, past, AreFilledBut, ChangesEntry, entered, split_at};

use super::search::Place;
use crate::keys::Prefixed;
use crate::page::{END_PAGE, MapPage, PAGE};
use std::alloc::{AllocError, Global};
use std::collections::VecDeque;

// A full page has an entry for each so many pages of the map, where that is more than [`PAGE`].
const PAGES_PER_ENTRY: usize = 128;

/// Writes a value over the one of the entry at a place, and answers what stood there.
pub(crate) fn write<K: Prefixed + Drop, V: Drop>(
    pages: &mut VecDeque<MapPage<K, V>>,
    place: Place,
    value: V,
) -> V
    requires at { IsEntryPlace pages.old.items place }
    requires filled { AreFilled pages.old.items }
    ensures written { ChangesEntry pages.old.items place value result pages.new.items }
    ensures filled { AreFilled pages.new.items }
{
    pages[place.page].write(place.index, value)
}

/// Takes the entry at a place out. It takes no memory.
pub(crate) fn take_out<K: Prefixed + Drop, V: Drop>(
    pages: &mut VecDeque<MapPage<K, V>>,
    place: Place,
)
    requires at { IsEntryPlace pages.old.items place }
    requires filled { AreFilled pages.old.items }
    ensures out { entries_of pages.new.items
        ≡ before pages.old.items place ++ past pages.old.items place }
    ensures filled { AreFilled pages.new.items }
{
    pages[place.page].remove(place.index);
    drop_if_empty(pages, place.page);
}

/// Takes the last entry out. It takes no memory.
pub(crate) fn take_last<K: Prefixed + Drop, V: Drop>(
    pages: &mut VecDeque<MapPage<K, V>>,
) -> Option<(K, V)>
    requires filled { AreFilled pages.old.items }
    ensures out { entries_of pages.old.items ≡ entries_of pages.new.items ++ option_to_list result }
    ensures none { result ≡ None → entries_of pages.old.items ≡ [] }
    ensures filled { AreFilled pages.new.items }
{
    let last = pages.len().checked_sub(1)?;
    let entry = pages[last].pop();
    drop_if_empty(pages, last);
    entry
}

// Takes a page out where it is empty.
fn drop_if_empty<K: Prefixed + Drop, V: Drop>(pages: &mut VecDeque<MapPage<K, V>>, page: usize)
    requires within { page < length pages.old.items }
    requires others { AreFilledBut pages.old.items page }
    ensures same { entries_of pages.new.items ≡ entries_of pages.old.items }
    ensures filled { AreFilled pages.new.items }
{
    if pages[page].len() == 0 {
        let _ = pages.remove(page);
    }
}

/// Puts an entry at a place. Where there is no memory the entries stay as they were.
pub(crate) fn enter<K: Prefixed + Drop, V: Drop>(
    pages: &mut VecDeque<MapPage<K, V>>,
    alloc: Global,
    place: Place,
    entry: (K, V),
) -> bool
    requires at { IsPlace pages.old.items place }
    requires filled { AreFilled pages.old.items }
    ensures entered { entries_of pages.new.items ≡ entered pages.old.items place entry result }
    ensures filled { AreFilled pages.new.items }
{
    if place.page == pages.len() {
        return begin(pages, alloc, place.page, entry);
    }
    let len = pages[place.page].len();
    if len < limit(pages.len()) {
        return put_in(pages, place, entry);
    }
    if place.page == 0 && place.index == 0 {
        if len < END_PAGE {
            return put_in(pages, place, entry);
        }
        return begin(pages, alloc, 0, entry);
    }
    if place.page + 1 == pages.len() && place.index == len {
        if len < END_PAGE {
            return put_in(pages, place, entry);
        }
        return begin(pages, alloc, pages.len(), entry);
    }
    enter_in_full(pages, place, entry)
}

// How many entries a full page has in a map of so many pages. In a large map it is more than in a small one, so that the list of
// pages stays short, of which all is copied as it grows.
fn limit(pages: usize) -> usize
    ensures { PAGE ≤ result }
{
    PAGE.max(pages / PAGES_PER_ENTRY)
}

// Splits a full page and puts an entry in one of the halves.
fn enter_in_full<K: Prefixed + Drop, V: Drop>(
    pages: &mut VecDeque<MapPage<K, V>>,
    place: Place,
    entry: (K, V),
) -> bool
    requires at { IsPlace pages.old.items place }
    requires within { place.page < length pages.old.items }
    requires full { PAGE ≤ length (page_at pages.old.items place.page) }
    requires filled { AreFilled pages.old.items }
    ensures entered { entries_of pages.new.items ≡ entered pages.old.items place entry result }
    ensures filled { AreFilled pages.new.items }
{
    let half = pages[place.page].len() / 2;
    if split(pages, place.page, half).is_err() {
        return false;
    }
    if place.index <= half {
        return put_in(pages, place, entry);
    }
    let place = Place {
        page: place.page + 1,
        index: place.index - half,
    };
    put_in(pages, place, entry)
}

// Puts an entry in the page of a place.
fn put_in<K: Prefixed + Drop, V: Drop>(
    pages: &mut VecDeque<MapPage<K, V>>,
    place: Place,
    entry: (K, V),
) -> bool
    requires at { IsPlace pages.old.items place }
    requires within { place.page < length pages.old.items }
    requires filled { AreFilled pages.old.items }
    ensures entered { entries_of pages.new.items ≡ entered pages.old.items place entry result }
    ensures filled { AreFilled pages.new.items }
{
    pages[place.page].insert(place.index, entry)
}

// Begins a page before those from an index on. The first page of all grows with its entries, and another has its room at once.
fn begin<K: Prefixed + Drop, V: Drop>(
    pages: &mut VecDeque<MapPage<K, V>>,
    alloc: Global,
    page: usize,
    entry: (K, V),
) -> bool
    requires within { page ≤ length pages.old.items }
    requires filled { AreFilled pages.old.items }
    ensures begun { IsTrue result → pages.new.items ≡ insert pages.old.items page (entry ∷ []) }
    ensures refused { result ≡ false → pages.new.items ≡ pages.old.items }
{
    let room = if pages.is_empty() { 0 } else { END_PAGE };
    match MapPage::begin(alloc, room, entry) {
        Ok(begun) => pages.insert(page, begun).is_ok(),
        Err(_) => false,
    }
}

// Splits a page at an index. Where there is no memory it stays whole.
fn split<K: Prefixed + Drop, V: Drop>(
    pages: &mut VecDeque<MapPage<K, V>>,
    page: usize,
    index: usize,
) -> Result<(), AllocError>
    requires within { page < length pages.old.items }
    requires fits { index ≤ length (page_at pages.old.items page) }
    ensures split { OnOk result (pages.new.items ≡ split_at pages.old.items page index) }
    ensures refused { OnErr result (pages.new.items ≡ pages.old.items) }
{
    pages.reserve(1)?;
    let rest = pages[page].split_off(index)?;
    match pages.insert(page + 1, rest) {
        Ok(()) => Ok(()),
        Err(_) => unreachable!(),
    }
}
