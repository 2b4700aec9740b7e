//! Lines of the IRC protocol (RFC 1459 and RFC 2812, section 2.3; IRCv3 message-tags).
//!
//! A [`Feeder`] cuts a stream, which comes in any pieces, into lines; [`read_line`] reads a line into its parts and refuses
//! what is none, and [`write_line`] writes one of parts. [`laws`] says that what is written reads back. It stands on
//! [`byte_text`] alone, and only [`Feeder::new`] and [`line_text`] take memory. Read [`read_line`] first.
#![tactic(auto)]

pub mod laws;
mod line;
mod stream;
mod text;

pub use byte_text::NoMemory;
pub use line::{Line, LineFault, TagLimit, read_line, text_of};
pub use stream::{Feeder, Next};
pub use text::{OutLine, line_text, write_line};
