//! The session of a client: registration, capabilities, and what each command does (RFC 2812, section 3; IRCv3
//! capability negotiation, message-tags, draft/chathistory, draft/read-marker and draft/message-redaction). It stands on the
//! directory of `cluster_directory`, the capabilities of `irc_caps` and the questions of `chat_query`. A [`Session`] is a value
//! and reads nothing. Read [`step`](Session::step) first: it takes a line and the directory of that moment, and gives the
//! [`Effect`]s that its caller carries out in their order. [`laws`] says that nobody gets in without the account's secret,
//! nobody inside reaches another account's past, what is sent is lines that read back, and after [`Effect::Close`] there is
//! nothing more. Who hears what comes from a server is decided by [`hears_message`] and [`hears_line`].
#![tactic(auto)]

mod command;
mod effect;
mod hearers;
pub mod laws;
mod lookup;
mod markread;
mod naming;
mod redact;
mod registered;
mod registration;
mod scratch;
mod session;
mod shared;
mod stage;

pub use byte_text::{NoMemory, Text};
pub use chat_query::{Answered, Facts};
pub use cluster_directory::{ConfiguredAccount, Directory, Entry, Network};
pub use effect::Effect;
pub use hearers::{hears_line, hears_message};
pub use naming::{split_user, user_in};
pub use session::{Session, StepFault};
