//! The session with the server of a network: registration, capabilities, and what each line of the server and each line
//! for it does (RFC 2812, sections 3 and 5; IRCv3 capability negotiation, message-tags, server-time, echo-message and
//! draft/message-redaction). It stands on the lines of `irc_reply`, the capabilities of `irc_caps` and the changes of
//! `chat_change`. An [`Upstream`] is a value and reads nothing. Read [`step`](Upstream::step) first: it takes a line of the
//! server and the moment, and gives the [`UpEffect`]s that its caller carries out in their order; [`say`](Upstream::say)
//! takes a line of a client.
#![tactic(auto)]

mod buffers;
mod command;
mod connection;
mod effect;
mod effects;
mod heard;
pub mod laws;
mod messages;
mod passing;
mod refusal;
mod rows;
mod sayings;
mod scratch;
mod upstream;

pub use byte_text::{NoMemory, Text};
pub use cluster_directory::{Channels, Entry, SessionConfig};
pub use effect::UpEffect;
pub use irc_caps::{Capability, Recipients};
pub use messages::is_from;
pub use passing::is_passed_on;
pub use upstream::Upstream;
