//! The lines that the node itself makes: those in the cluster's name and the others to a client ([`to_client`]; RFC 2812,
//! section 5; IRCv3 standard-replies and draft/read-marker), and those to a server ([`to_server`]). A line of the one that
//! goes on to the other is there too, without its tags.
//!
//! Each line is the exact bytes of its definition, with CR LF behind it. It stands on [`irc_line::write_line`] alone. Each
//! `write_` function writes over any writer and takes no memory: at `Ok` the whole line, and a prefix of it where the
//! writer failed. The others make a text, or answer want of memory. Parts that are handed in are written as they are: that
//! each may stand in its place is the caller's to see to. Read [`reply_text`] first.
#![tactic(auto)]

mod echo;
pub mod laws;
mod reply;
mod text;
pub mod to_client;
pub mod to_server;

pub use byte_text::{NoMemory, Text};
pub use echo::echoed;
pub use reply::{Context, write_fail, write_mark, write_reply, write_unknown};
pub use text::{need_more_params, plain_line, reply_text};
