//! The capabilities of IRCv3 capability negotiation that the node knows: those that it offers its clients, and those that
//! it asks a server for.
//!
//! A [`CapSet`] says which of seven names a session holds. A [`Negotiation`] takes the lines of a client, answers each CAP
//! with lines of [`irc_reply`], and knows what is held and whether registration waits for `CAP END`; [`with_offers`],
//! [`request`] and [`with_acknowledged`] are the other side of it, with a server. Read [`Negotiation::step`] first.
#![tactic(auto)]

mod capability;
pub mod laws;
mod negotiation;
mod offers;
mod recipients;
mod registration;
mod words;

pub use byte_text::{NoMemory, Text};
pub use capability::Capability;
pub use negotiation::{CapReply, Negotiation};
pub use offers::{request, with_acknowledged, with_offers};
pub use recipients::Recipients;
pub use registration::Registration;

/// A set of capabilities: for each of the seven names whether it is held. The fields stand in the byte order of the
/// names.
#[derive(Clone, Copy, PartialEq, Eq)]
pub struct CapSet {
    /// `batch`: answers come between two BATCH lines, and their lines are tagged `batch`.
    pub batch: bool,
    /// `draft/chathistory`: the command CHATHISTORY.
    pub chathistory: bool,
    /// `draft/message-redaction`: the command REDACT.
    pub message_redaction: bool,
    /// `draft/read-marker`: the command MARKREAD.
    pub read_marker: bool,
    /// `echo-message`: a session's own messages come back to it.
    pub echo_message: bool,
    /// `message-tags`: messages are tagged `msgid`.
    pub message_tags: bool,
    /// `server-time`: messages are tagged `time`.
    pub server_time: bool,
}

impl CapSet {
    ghost use Rattle.std.specs.Prelude.{◌≡◌};
    ghost use Rattle.irc_caps.specs.CapSet as spec;
    ghost use Rattle.irc_caps.specs.CapSet.{no_capabilities, all_capabilities};

    /// The empty set, which a session holds at first.
    pub fn none() -> CapSet
        ensures { result ≡ no_capabilities }
    {
        CapSet {
            batch: false,
            chathistory: false,
            message_redaction: false,
            read_marker: false,
            echo_message: false,
            message_tags: false,
            server_time: false,
        }
    }

    /// All seven capabilities.
    pub fn all() -> CapSet
        ensures { result ≡ all_capabilities }
    {
        CapSet {
            batch: true,
            chathistory: true,
            message_redaction: true,
            read_marker: true,
            echo_message: true,
            message_tags: true,
            server_time: true,
        }
    }

    /// Whether that capability is held.
    pub fn holds(&self, capability: Capability) -> bool
        ensures { result ≡ spec.holds self.now capability }
    {
        match capability {
            Capability::Batch => self.batch,
            Capability::Chathistory => self.chathistory,
            Capability::MessageRedaction => self.message_redaction,
            Capability::ReadMarker => self.read_marker,
            Capability::EchoMessage => self.echo_message,
            Capability::MessageTags => self.message_tags,
            Capability::ServerTime => self.server_time,
        }
    }

    /// The set in which that capability is held, or isn't, and all others are as they were.
    pub fn with(self, capability: Capability, is_held: bool) -> CapSet
        ensures { result ≡ spec.with_held self capability is_held }
    {
        let mut caps = self;
        match capability {
            Capability::Batch => caps.batch = is_held,
            Capability::Chathistory => caps.chathistory = is_held,
            Capability::MessageRedaction => caps.message_redaction = is_held,
            Capability::ReadMarker => caps.read_marker = is_held,
            Capability::EchoMessage => caps.echo_message = is_held,
            Capability::MessageTags => caps.message_tags = is_held,
            Capability::ServerTime => caps.server_time = is_held,
        }
        caps
    }
}
