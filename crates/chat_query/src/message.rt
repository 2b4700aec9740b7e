//! The line of a record (RFC 2812, sections 2.3, 3.3.1 and 3.3.2).
ghost use Rattle.byte_text.specs.Writes.{Writes};
ghost use Rattle.chat_query.specs.Message.{message_line, record_text, live_text};

use super::tags::put_tags;
use byte_text::put;
use chat_change::Record;
use irc_caps::CapSet;
use std::io;
use std::io::Write;

/// Writes a message as it was sent, by one write.
fn put_message<W: Write>(writer: &mut W, message: &Record) -> io::Result<()>
    ensures { Writes W.contents writer.old writer.new result (message_line message.now) }
{
    put(writer, message.line())
}

/// Writes a record in a batch under that reference.
pub(crate) fn put_record<W: Write>(
    message: &Record,
    caps: CapSet,
    reference: &[u8],
    writer: &mut W,
) -> io::Result<()>
    ensures { Writes W.contents writer.old writer.new result
        (record_text caps reference.now message.now) }
{
    put_tags(writer, caps, reference, message)?;
    put_message(writer, message)
}

/// Writes a record as it comes, without a batch: the line `:source KIND target :body`. A session that holds
/// `message-tags` gets the tag `msgid`, one that holds `server-time` the tag `time`, and behind them one that holds
/// `message-tags` gets the record's own client-only tags. Writing takes no memory. Fails where the writer fails.
pub fn write_live<W: Write>(message: &Record, caps: &CapSet, writer: &mut W) -> io::Result<()>
    ensures { Writes W.contents writer.old writer.new result (live_text caps.now message.now) }
{
    let unbatched = CapSet {
        batch: false,
        ..*caps
    };
    put_record(message, unbatched, b"", writer)
}
