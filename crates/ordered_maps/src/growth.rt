//! Changes of one map of `std`, which drop what they don't keep.

ghost use Rattle.std.specs.Prelude.{◌≡◌, IsTrue, OnOk, OnErr, IfOk, false};
ghost use Rattle.ordered_maps.specs.MapView.{get, IsWith};

use std::alloc::AllocError;
use std::collections::BTreeMap;

/// Puts a value at a key, in place of what stood there. Where there is no memory the map stays as it was.
pub fn put<K: Ord + Drop, V: Drop>(map: &mut BTreeMap<K, V>, key: K, value: V) -> bool
    ensures put { IsTrue result → IsWith K.cmp map.old.entries key value map.new.entries }
    ensures refused { result ≡ false → map.new.entries ≡ map.old.entries }
{
    map.insert(key, value).is_ok()
}

/// Puts a value at a key, and answers what stood there. Where there is no memory the map stays as it was.
pub fn exchange<K: Ord + Drop, V: Drop>(
    map: &mut BTreeMap<K, V>,
    key: K,
    value: V,
) -> Result<Option<V>, AllocError>
    ensures before { IfOk result (λ before. before ≡ get K.cmp map.old.entries key) }
    ensures put { OnOk result (IsWith K.cmp map.old.entries key value map.new.entries) }
    ensures refused { OnErr result (map.new.entries ≡ map.old.entries) }
{
    match map.insert(key, value) {
        Ok(before) => Ok(before),
        Err(failed) => {
            drop(failed);
            Err(AllocError)
        }
    }
}
