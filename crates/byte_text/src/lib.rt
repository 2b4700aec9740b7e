//! What every crate above does with bytes: it keeps them ([`Text`]), finds one of them ([`find_byte`]), says whether one ends a
//! word ([`has_word_end`]), reads a number in them ([`number_to`]), writes them to any writer ([`put`]), and says that there was
//! no memory for them ([`NoMemory`]).
//!
//! Contracts see a text as its list of bytes. What a writing call leaves in its writer they say by one word, `Writes`: at
//! `Ok` the writer's known bytes have grown by the whole text, and at `Err` by a prefix of it. Writing takes no memory: no
//! function that writes, here or above, is given an allocator for it. Read [`put`] first.
#![tactic(auto)]

mod no_memory;
mod number;
mod search;
mod text;
mod words;
mod writing;

pub use no_memory::NoMemory;
pub use number::{has_digits_only, is_digits, number_to};
pub use search::{LANES, begins_with, begins_without, find_byte, has_line_end};
pub use text::{Text, copies_of};
pub use words::{ends_word, has_word_end};
pub use writing::put;
