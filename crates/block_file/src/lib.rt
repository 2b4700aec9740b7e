//! A file of blocks that is only appended to. Each block is on the disk before it is acknowledged.
#![tactic(auto)]

mod device;
mod ending;
mod head;
mod journal;
pub mod laws;
mod memory;
mod reader;
mod recovery;
mod source;

pub use device::{Device, DeviceError};
pub use ending::is_torn_end;
pub use head::MOST;
pub use journal::Journal;
pub use memory::{Bytes, Memory};
pub use reader::Reader;
pub use recovery::repair;
pub use source::ByteSource;
