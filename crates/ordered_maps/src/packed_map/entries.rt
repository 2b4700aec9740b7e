//! The entries of a packed map, in the order of their keys.

ghost use Rattle.std.specs.Prelude.{length};
ghost use Rattle.std.specs.Iterator.{at_most};
ghost use Rattle.std.specs.Map.Iter.{TakesFirst, TakesLast, deref, deref_pair};
ghost use Rattle.ordered_maps.specs.Parts.{rest_of};

use crate::keys::Prefixed;
use crate::page::MapPage;
use std::collections::vec_deque;
use std::marker::Model;

/// Entries of a map, from either end. It is seen as the list of what is left, in the order of the keys.
#[derive(Drop)]
pub struct PackedEntries<'a, K: Prefixed, V> {
    pub(super) first: Option<vec_deque::Iter<'a, (K, V)>>,
    pub(super) pages: vec_deque::Iter<'a, MapPage<K, V>>,
    pub(super) last: Option<vec_deque::Iter<'a, (K, V)>>,
}

impl<'a, K: Prefixed, V> Model for PackedEntries<'a, K, V> {
    ghost use Rattle.std.specs.Prelude.{List};
    ghost use Rattle.ordered_maps.specs.Parts.{what_is_left};

    ghost Value = { List (K × V) };

    ghost view = { λ e. what_is_left e.first e.pages e.last };
}

impl<'a, K: Prefixed, V> Iterator for PackedEntries<'a, K, V> {
    type Item = (&'a K, &'a V);

    ghost next_gives = { TakesFirst deref_pair };

    ghost remaining = { λ s. at_most (length s) };

    fn next(&mut self) -> Option<(&'a K, &'a V)> {
        loop {
            if let Some((key, value)) = next_of(&mut self.first) {
                return Some((key, value));
            }
            let Some(page) = self.pages.next() else {
                let (key, value) = next_of(&mut self.last)?;
                return Some((key, value));
            };
            self.first = Some(page.entries.iter());
        }
    }
}

impl<'a, K: Prefixed, V> DoubleEndedIterator for PackedEntries<'a, K, V> {
    ghost next_back_gives = { TakesLast deref_pair };

    fn next_back(&mut self) -> Option<(&'a K, &'a V)> {
        loop {
            if let Some((key, value)) = next_back_of(&mut self.last) {
                return Some((key, value));
            }
            let Some(page) = self.pages.next_back() else {
                let (key, value) = next_back_of(&mut self.first)?;
                return Some((key, value));
            };
            self.last = Some(page.entries.iter());
        }
    }
}

// The first of what is left of a page.
fn next_of<'a, T>(rest: &mut Option<vec_deque::Iter<'a, T>>) -> Option<&'a T>
    ensures { TakesFirst deref (rest_of rest.old) result (rest_of rest.new) }
{
    rest.as_mut()?.next()
}

// The last of what is left of a page.
fn next_back_of<'a, T>(rest: &mut Option<vec_deque::Iter<'a, T>>) -> Option<&'a T>
    ensures { TakesLast deref (rest_of rest.old) result (rest_of rest.new) }
{
    rest.as_mut()?.next_back()
}
