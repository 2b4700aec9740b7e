//! Changes of a packed map: each takes effect whole, or leaves the map as it was and says so.

ghost use Rattle.std.specs.Prelude.{◌≡◌, [], ◌∷◌, ◌++◌, None, false, IsTrue, OnOk, OnErr, IfOk, IsSome, IfSome};
ghost use Rattle.std.specs.Option.{option_map};
ghost use Rattle.std.specs.Map.Iter.{deref};
ghost use Rattle.ordered_maps.specs.MapView.{get, IsWith, IsWithout};
ghost use Rattle.ordered_maps.specs.Ends.{IsGreatest};

use super::PackedMap;
use super::edits::{enter, take_last, take_out, write};
use super::search::find;
use crate::keys::{Lookup, Prefixed};
use std::alloc::AllocError;

impl<K: Prefixed + Drop, V: Drop> PackedMap<K, V> {
    /// The value at a key, if there is one.
    pub fn get<Q: Lookup<K>>(&self, key: &Q) -> Option<&V>
        ensures { option_map deref result ≡ get K.cmp self.now (Q.key key.now) }
    {
        match find(&self.pages, key) {
            Ok(place) => Some(&self.pages[place.page].at(place.index).1),
            Err(_) => None,
        }
    }

    /// Takes the entry with the greatest key out. It takes no memory.
    pub fn pop_last(&mut self) -> Option<(K, V)>
        ensures none { result ≡ None → (self.old ≡ []) × (self.new ≡ []) }
        ensures removal { IfSome result (λ e. self.old ≡ self.new ++ e ∷ []) }
        ensures greatest { IfSome result (λ e. IsGreatest K.cmp e self.old) }
        ensures without { IfSome result (λ e. IsWithout K.cmp self.old e.0 self.new) }
    {
        take_last(&mut self.pages)
    }

    /// Puts a value at a key, in place of what stood there. Where there is no memory the map stays as it was.
    pub fn put(&mut self, key: K, value: V) -> bool
        ensures put { IsTrue result → IsWith K.cmp self.old key value self.new }
        ensures refused { result ≡ false → self.new ≡ self.old }
    {
        self.exchange(key, value).is_ok()
    }

    /// Puts a value at a key, and answers what stood there. Where there is no memory the map stays as it was.
    pub fn exchange(&mut self, key: K, value: V) -> Result<Option<V>, AllocError>
        ensures before { IfOk result (λ before. before ≡ get K.cmp self.old key) }
        ensures put { OnOk result (IsWith K.cmp self.old key value self.new) }
        ensures refused { OnErr result (self.new ≡ self.old) }
    {
        match find(&self.pages, &key) {
            Ok(place) => Ok(Some(write(&mut self.pages, place, value))),
            Err(place) => {
                if enter(&mut self.pages, self.alloc, place, (key, value)) {
                    Ok(None)
                } else {
                    Err(AllocError)
                }
            }
        }
    }

    /// Takes the value at a key out, if there is one. It takes no memory.
    pub fn take_out<Q: Lookup<K>>(&mut self, key: &Q)
        ensures { IsWithout K.cmp self.old (Q.key key.now) self.new }
    {
        if let Ok(place) = find(&self.pages, key) {
            take_out(&mut self.pages, place);
        }
    }

    /// Writes a value over the one that stands at a key. It takes no memory.
    pub fn overwrite<Q: Lookup<K>>(&mut self, key: &Q, value: V)
        requires held { IsSome (get K.cmp self.old (Q.key key.now)) }
        ensures { IsWith K.cmp self.old (Q.key key.now) value self.new }
    {
        if let Ok(place) = find(&self.pages, key) {
            drop(write(&mut self.pages, place, value));
        }
    }
}
