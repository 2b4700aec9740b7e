//! What a session asks its caller to do.
use byte_text::Text;
use chat_change::Change;

/// What the caller does for a session, in the order of the list.
#[derive(Drop)]
pub enum Effect {
    /// Write these bytes to the client. They end with CR LF.
    Send(Text),
    /// Take this change, a read marker.
    Put(Change),
    /// Answer this line to the client. It has no ending.
    Ask(Text),
    /// Write these bytes to the network's server. They end with CR LF.
    Upstream(Text),
    /// Close the connection. Nothing comes after it.
    Close,
}
