//! Batches (IRCv3 batch).
ghost use Rattle.std.specs.Prelude.{◌++◌, [], map, codes, if◌then◌else◌};
ghost use Rattle.byte_text.specs.Bytes.{line_ending};
ghost use Rattle.byte_text.specs.Writes.{Writes};
ghost use Rattle.chat_query.specs.Batch.{batch_start, opening, closing, records_text, history_text, buffer_text, buffers_text, targets_text};

use super::listed_buffer::ListedBuffer;
use super::message::put_record;
use super::tags::put_three;
use byte_text::put;
use chat_change::Record;
use irc_caps::CapSet;
use irc_reply::write_reply;
use irc_time::write_time;
use std::io;
use std::io::Write;

fn put_records<W: Write>(
    records: &[&Record],
    caps: CapSet,
    reference: &[u8],
    writer: &mut W,
) -> io::Result<()>
    ensures { Writes W.contents writer.old writer.new result
        (records_text caps reference.now (map (λ r. r.now) records.now)) }
{
    for record in records {
        put_record(record, caps, reference, writer)?;
    }
    Ok(())
}

/// Writes how a line begins that opens or closes a batch.
fn put_start<W: Write>(
    writer: &mut W,
    cluster: &[u8],
    sign: &[u8],
    reference: &[u8],
) -> io::Result<()>
    ensures { Writes W.contents writer.old writer.new result
        (batch_start cluster.now sign.now reference.now) }
{
    put(writer, b":")?;
    put(writer, cluster)?;
    put(writer, sign)?;
    put(writer, reference)
}

/// Writes two texts in turn.
pub(crate) fn put_pair<W: Write>(writer: &mut W, prefix: &[u8], text: &[u8]) -> io::Result<()>
    ensures { Writes W.contents writer.old writer.new result (prefix.now ++ text.now) }
{
    put(writer, prefix)?;
    put(writer, text)
}

/// Writes the type of a batch, with its parameter, and the line_ending of the line.
fn put_kind<W: Write>(writer: &mut W, kind: &[u8], parameter: &[u8]) -> io::Result<()>
    ensures { Writes W.contents writer.old writer.new result
        ((kind.now ++ parameter.now) ++ line_ending) }
{
    put_pair(writer, kind, parameter)?;
    put(writer, b"\r\n")
}

fn put_open_line<W: Write>(
    writer: &mut W,
    cluster: &[u8],
    reference: &[u8],
    kind: &[u8],
    parameter: &[u8],
) -> io::Result<()>
    ensures { Writes W.contents writer.old writer.new result
        (opening cluster.now reference.now (kind.now ++ parameter.now)) }
{
    put_start(writer, cluster, b" BATCH +", reference)?;
    put_kind(writer, kind, parameter)
}

/// Writes the line that opens a batch, where there is one.
fn put_open<W: Write>(
    writer: &mut W,
    flag: bool,
    cluster: &[u8],
    reference: &[u8],
    kind: &[u8],
    parameter: &[u8],
) -> io::Result<()>
    ensures { Writes W.contents writer.old writer.new result
        (if flag then opening cluster.now reference.now (kind.now ++ parameter.now) else []) }
{
    if flag {
        put_open_line(writer, cluster, reference, kind, parameter)
    } else {
        Ok(())
    }
}

fn put_close_line<W: Write>(writer: &mut W, cluster: &[u8], reference: &[u8]) -> io::Result<()>
    ensures { Writes W.contents writer.old writer.new result (closing cluster.now reference.now) }
{
    put_start(writer, cluster, b" BATCH -", reference)?;
    put(writer, b"\r\n")
}

/// Writes the line that closes a batch, where there is one.
fn put_close<W: Write>(
    writer: &mut W,
    flag: bool,
    cluster: &[u8],
    reference: &[u8],
) -> io::Result<()>
    ensures { Writes W.contents writer.old writer.new result
        (if flag then closing cluster.now reference.now else []) }
{
    if flag {
        put_close_line(writer, cluster, reference)
    } else {
        Ok(())
    }
}

/// Writes the tag `batch` and the space behind it, where the flag is set.
fn put_batch_tag<W: Write>(writer: &mut W, flag: bool, reference: &[u8]) -> io::Result<()>
    ensures { Writes W.contents writer.old writer.new result
        (if flag then codes "@batch=" ++ (reference.now ++ codes " ") else []) }
{
    if flag {
        put_three(writer, b"@batch=", reference, b" ")
    } else {
        Ok(())
    }
}

/// Writes the line of a buffer.
fn put_buffer<W: Write>(
    writer: &mut W,
    caps: CapSet,
    cluster: &[u8],
    reference: &[u8],
    buffer: &ListedBuffer<'_>,
) -> io::Result<()>
    ensures { Writes W.contents writer.old writer.new result
        (buffer_text caps cluster.now reference.now buffer.now) }
{
    put_batch_tag(writer, caps.batch, reference)?;
    let at = write_time(buffer.at());
    let middles: [&[u8]; 3] = [b"TARGETS", buffer.target(), &at];
    write_reply(cluster, b"CHATHISTORY", &middles, None, writer)
}

fn put_buffers<W: Write>(
    writer: &mut W,
    caps: CapSet,
    cluster: &[u8],
    reference: &[u8],
    buffers: &[ListedBuffer<'_>],
) -> io::Result<()>
    ensures { Writes W.contents writer.old writer.new result
        (buffers_text caps cluster.now reference.now buffers.now) }
{
    for buffer in buffers {
        put_buffer(writer, caps, cluster, reference, buffer)?;
    }
    Ok(())
}

/// Writes a page of records as a batch of the type `chathistory` under the reference: the line
/// `:cluster BATCH +reference chathistory given`, a line for each record in the order of the page, tagged with the
/// reference, and the line `:cluster BATCH -reference`. `given` is the target as the client spelled it. A session
/// without the capability `batch` gets the records alone, without that tag. A record's line has the tags `batch`, `msgid`
/// and `time` in this order, and then the record's own client-only tags as they stand in it; `msgid` and the record's own
/// are for a session that holds `message-tags`, and `time` for one that holds `server-time`. Names, target and reference are
/// written as they are: that each may stand in its place of a line is the caller's to see to. Writing takes no memory. Fails
/// where the writer fails.
pub fn write_page<W: Write>(
    records: &[&Record],
    given: &[u8],
    caps: CapSet,
    cluster: &[u8],
    reference: &[u8],
    writer: &mut W,
) -> io::Result<()>
    ensures { Writes W.contents writer.old writer.new result
        (history_text caps cluster.now reference.now given.now (map (λ r. r.now) records.now)) }
{
    put_open(
        writer,
        caps.batch,
        cluster,
        reference,
        b" chathistory ",
        given,
    )?;
    put_records(records, caps, reference, writer)?;
    put_close(writer, caps.batch, cluster, reference)
}

/// Writes a list of buffers as a batch of the type `draft/chathistory-targets` under the reference: the line
/// `:cluster BATCH +reference draft/chathistory-targets`, a line `:cluster CHATHISTORY TARGETS target time` for each
/// buffer in the order of the list, tagged with the reference, and the line `:cluster BATCH -reference`. A session
/// without the capability `batch` gets the lines of the buffers alone, without that tag. Fails where the writer fails.
pub fn write_targets<W: Write>(
    buffers: &[ListedBuffer<'_>],
    caps: CapSet,
    cluster: &[u8],
    reference: &[u8],
    writer: &mut W,
) -> io::Result<()>
    ensures { Writes W.contents writer.old writer.new result
        (targets_text caps cluster.now reference.now buffers.now) }
{
    put_open(
        writer,
        caps.batch,
        cluster,
        reference,
        b" draft/chathistory-targets",
        b"",
    )?;
    put_buffers(writer, caps, cluster, reference, buffers)?;
    put_close(writer, caps.batch, cluster, reference)
}
