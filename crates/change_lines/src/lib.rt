//! Lines that spell changes, as nodes send them to each other and scripts have them.
//!
//! [`write_change`] writes the one line that spells a change, and [`read_change`] reads exactly these lines ([`laws`]). The
//! fields of such lines stand one space apart; [`split_word`] and [`is_text`] serve other lines of this kind, too. It stands on
//! `chat_change`, and on no state. Read [`write_change`] first.
#![tactic(auto)]

mod change_line;
mod change_text;
mod fault;
mod fields;
pub mod laws;
mod moment;
mod named_buffer;
mod post_line;
mod reading;
mod words;

pub use change_line::{read_change, read_change_in};
pub use change_text::write_change;
pub use fault::ChangeLineFault;
pub use words::{is_text, split_word};
