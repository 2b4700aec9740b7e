//! The tags of IRC lines (IRCv3 message-tags).
//!
//! [`read_tags`] and [`line_tags`] read tag data into [`Tags`], a map in which each key stands once, at its first place, with its
//! last value. [`write_tags`] writes all of them, [`write_client_only`] the client-only ones, and [`is_client_only_text`] tells
//! whether tag data is what that writes. [`write_value`] knows the escapes of values. [`laws`] says that what is written reads
//! back. Read [`Tags`] first.
#![tactic(auto)]

mod client_only;
pub mod laws;
mod lookup;
mod tag;
mod tag_list;
mod text;
mod value;

pub use client_only::{is_client_only_text, write_client_only};
pub use tag_list::{MAX_TAG_DATA, TagFault, Tags, line_tags, read_tags};
pub use text::write_tags;
pub use value::write_value;
