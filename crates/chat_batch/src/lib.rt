//! What the cluster answers to a session that asks for the past: pages as batches (IRCv3 batch and draft/chathistory),
//! read markers (IRCv3 draft/read-marker), and refusals (IRCv3 standard-replies, and the numerics 417 and 421).
//!
//! It stands on the pages of `chat_page`, which it finds in a state, and on `chat_query`, which defines an answer over the set
//! of changes that was taken. Read [`answer`] first: it answers a line from what a state holds. What is written is said to
//! the byte, and [`laws`] says that it is lines that read back, and depends on the normal form of the set alone.
#![tactic(auto)]

mod answers;
mod history;
pub mod laws;
mod marker;
mod refusal;

pub use answers::{AnswerFault, answer};
pub use chat_query::{
    Answered, AskFault, Facts, Identity, ListedBuffer, Past, next_reference, write_live,
    write_page, write_targets,
};
pub use irc_reply::{Context, write_fail, write_mark, write_unknown};
