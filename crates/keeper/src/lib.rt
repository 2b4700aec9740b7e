//! The history of a node that keeps it in a file: a packet is taken once it is on the disk and in the state.
#![tactic(auto)]

mod compaction;
mod found;
mod fresh;
mod keeper;
pub mod laws;
mod living;
mod reading;

pub use found::{Count, Found, Unread, is_removal};
pub use history_file::{ByteSource, Device, FileFault};
pub use keeper::{Keeper, open};
pub use living::{live, take_packets};
pub use reading::read;
