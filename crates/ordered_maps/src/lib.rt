//! Ordered maps: each change takes effect whole, or leaves the map as it was and says so.
//!
//! A [`PackedMap`] keeps its entries in pages that are full where keys come in order, and is seen as the list of its entries. std's map
//! leaves its blocks half full then, and hands back what it could not put in; [`put`] and [`exchange`] drop that, so that a
//! caller reads one answer. Either may be refused for want of memory, and then nothing has changed; what takes an entry out or
//! writes over one takes none. Contracts say which entries come of a change by `IsWith` and `IsWithout`. It stands on `std`
//! alone. Read [`PackedMap::put`] first.
#![tactic(auto)]

mod growth;
mod keys;
mod packed_map;
mod page;

pub use growth::{exchange, put};
pub use keys::{Lookup, Prefixed};
pub use packed_map::{Keeps, PackedEntries, PackedMap};
