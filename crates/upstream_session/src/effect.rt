//! What a session with a server asks its caller to do.
use byte_text::Text;
use chat_change::Change;
use irc_caps::Recipients;

/// What the caller does for a session with a server, in the order of the list.
#[derive(Drop)]
pub enum UpEffect {
    /// Write these bytes to the server. They end with CR LF.
    Send(Text),
    /// Take this change: a message, which goes to the sessions that hear it as it comes, or a redaction.
    Put(Change),
    /// Pass these bytes on to sessions of the account and the network. They end with CR LF.
    Relay(Text, Recipients),
    /// Close the connection. Nothing comes after it.
    Close,
}
