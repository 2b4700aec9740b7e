//! Who asks, what is asked, and what is answered, over a set of changes (IRCv3 batch, draft/chathistory and
//! draft/read-marker). A client asks by CHATHISTORY and MARKREAD.
//!
//! [`Facts`] are what is known of a session with its [`Identity`], [`Scope`] is of them what an answer depends on,
//! [`read_query`] reads the parameters of CHATHISTORY, and [`read_moment`] those of MARKREAD. [`Answered`] says what an answer
//! was, and [`next_reference`] which number the session's next batch has. Pages and answers are defined over a set of changes
//! (`specs/Page.antt`, `specs/Answers.antt`), and whoever answers is a [`Past`].
//!
//! It stands on the normal form of a set of changes of `chat_history` and the lines of `irc_reply`, and on no state: pages are
//! found in one by `chat_page`, and answers written by `chat_batch`. Read [`read_query`] and [`Past::ask`] first. [`laws`] says
//! that answers are lines that read back, and what pages and answers depend on.
#![tactic(auto)]

mod batch;
mod facts;
pub mod laws;
mod limit;
mod listed_buffer;
mod message;
mod parameters;
mod past;
mod query;
mod reference;
mod scope;
mod tags;

pub use batch::{write_page, write_targets};
pub use facts::{Answered, Facts, Identity};
pub use listed_buffer::ListedBuffer;
pub use message::write_live;
pub use parameters::{QueryFault, first_of, read_moment, read_query};
pub use past::{AskFault, Past};
pub use query::{GivenId, Query, Selector, Target};
pub use reference::{next_reference, reference_text};
pub use scope::Scope;
