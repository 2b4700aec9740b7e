//! Lines that a session hears.
use chat_change::Moment;
use irc_line::Line;

/// A line of the server, or of a client for it: what it says, its bytes without their ending, and when it was heard.
#[derive(Clone, Copy)]
pub(crate) struct HeardLine<'a> {
    pub(crate) line: &'a Line<'a>,
    pub(crate) bytes: &'a [u8],
    pub(crate) at: Moment,
}
