//! The capabilities that the cluster offers, by their names.
ghost use Rattle.std.specs.Prelude.{◌≡◌};
ghost use Rattle.irc_caps.specs.Capability.{name_of, capability_of};

/// A capability that the cluster offers.
#[derive(Clone, Copy, PartialEq, Eq)]
pub enum Capability {
    /// `batch` (IRCv3 batch).
    Batch,
    /// `draft/chathistory` (IRCv3 draft/chathistory).
    Chathistory,
    /// `draft/message-redaction` (IRCv3 draft/message-redaction).
    MessageRedaction,
    /// `draft/read-marker` (IRCv3 draft/read-marker).
    ReadMarker,
    /// `echo-message` (IRCv3 echo-message).
    EchoMessage,
    /// `message-tags` (IRCv3 message-tags).
    MessageTags,
    /// `server-time` (IRCv3 server-time).
    ServerTime,
}

impl Capability {
    /// All of them, in the byte order of their names.
    pub const ALL: [Capability; 7] = [
        Capability::Batch,
        Capability::Chathistory,
        Capability::MessageRedaction,
        Capability::ReadMarker,
        Capability::EchoMessage,
        Capability::MessageTags,
        Capability::ServerTime,
    ];

    /// The name, as it stands in a list.
    pub fn name(self) -> &'static [u8]
        ensures { result.now ≡ name_of self }
    {
        match self {
            Capability::Batch => b"batch",
            Capability::Chathistory => b"draft/chathistory",
            Capability::MessageRedaction => b"draft/message-redaction",
            Capability::ReadMarker => b"draft/read-marker",
            Capability::EchoMessage => b"echo-message",
            Capability::MessageTags => b"message-tags",
            Capability::ServerTime => b"server-time",
        }
    }

    #[tactic(auto, unfolding(crate::specs::Capability::capability_of))]
    /// The capability of that name. Names are compared as they are written.
    pub fn named(name: &[u8]) -> Option<Capability>
        ensures { result ≡ capability_of name.now }
    {
        if name == b"batch".as_slice() {
            Some(Capability::Batch)
        } else if name == b"draft/chathistory".as_slice() {
            Some(Capability::Chathistory)
        } else if name == b"draft/message-redaction".as_slice() {
            Some(Capability::MessageRedaction)
        } else if name == b"draft/read-marker".as_slice() {
            Some(Capability::ReadMarker)
        } else if name == b"echo-message".as_slice() {
            Some(Capability::EchoMessage)
        } else if name == b"message-tags".as_slice() {
            Some(Capability::MessageTags)
        } else if name == b"server-time".as_slice() {
            Some(Capability::ServerTime)
        } else {
            None
        }
    }
}
