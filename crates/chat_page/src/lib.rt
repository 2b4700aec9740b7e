//! Pages of a chat history (IRCv3 draft/chathistory), looked up in a state: the records or buffers that answer what a
//! CHATHISTORY line asks for. It stands on the states of `chat_state`, and on `chat_query`, which defines a page over a set
//! of changes.
//!
//! Read [`page`] first: the visible records of one buffer, sorted by moment and id, filtered by the selectors of the query
//! and cut to its limit. [`laws`] says that reading a buffer page by page gives each record once.
#![tactic(auto)]

mod answer;
mod known;
pub mod laws;
mod listed_buffer;
mod pager;
mod pages;
mod point;

pub use answer::page;
pub use chat_query::{
    GivenId, ListedBuffer, Query, QueryFault, Scope, Selector, Target, read_moment, read_query,
};
pub use pages::{Page, PageFault};
