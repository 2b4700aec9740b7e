//! The ids that a node makes.

/// The serial number of the first id that a node makes for a network. Messages of one millisecond are ordered by the bytes of
/// their ids. So that they stand in the order in which they came, all numbers have 13 digits: the next longer one comes after 9
/// million million messages. With a node's name of two letters an id has 30 bytes.
pub const FIRST_SERIAL: u64 = 1_000_000_000_000;
