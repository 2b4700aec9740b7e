//! The tags of a message (IRCv3 message-tags), each written only where the session has its capability.
ghost use Rattle.std.specs.Prelude.{◌≡◌, ◌≤◌, ◌++◌, ◌||◌, [], true, not, codes, length, take, if◌then◌else◌, OnOk};
ghost use Rattle.byte_text.specs.Writes.{Writes};
ghost use Rattle.std.specs.List.{list_all, list_any};
ghost use Rattle.memchr.specs.Find.{is_byte2};
ghost use Rattle.irc_tags.specs.Value.{value_text, semicolon, backslash};
ghost use Rattle.chat_change.specs.Words.{is_id};
ghost use Rattle.chat_query.specs.declared.tags.Tag.TheVariants.{MsgId};
ghost use Rattle.chat_query.specs.Tags.{next_tag, tag_part, has_own_tags, batch_tags, message_tags, separator, key_text, is_plain_byte};

use crate::batch::put_pair;
use byte_text::{LANES, begins_without, put};
use chat_change::Record;
use irc_caps::CapSet;
use irc_tags::write_value;
use irc_time::write_time;
use memchr::memchr2;
use std::io;
use std::io::Write;

/// Writes three texts in turn.
pub(crate) fn put_three<W: Write>(
    writer: &mut W,
    first: &[u8],
    second: &[u8],
    third: &[u8],
) -> io::Result<()>
    ensures { Writes W.contents writer.old writer.new result (first.now ++
        (second.now ++ third.now)) }
{
    put(writer, first)?;
    put(writer, second)?;
    put(writer, third)
}

// Whether none of the first bytes is escaped in an id.
fn begins_plain(id: &[u8]) -> bool
    requires { LANES ≤ length id.now }
    ensures { result ≡ not (list_any (is_byte2 semicolon backslash) (take LANES id.now)) }
{
    begins_without(id, b';') && begins_without(id, b'\\')
}

// Whether an id has no byte that is escaped. No id has a space, CR or LF, which are escaped too. Most ids are so long that two
// looks, which overlap, see all of them.
fn is_plain(id: &[u8]) -> bool
    requires { is_id id.now ≡ true }
    ensures { result ≡ list_all is_plain_byte id.now }
{
    if id.len() < LANES || id.len() > 2 * LANES {
        return memchr2(b';', b'\\', id).is_none();
    }
    begins_plain(id) && begins_plain(&id[id.len() - LANES..])
}

/// Writes an id with the escapes of a value. Most ids have none, and are written at once.
fn put_id<W: Write>(writer: &mut W, id: &[u8]) -> io::Result<()>
    requires { is_id id.now ≡ true }
    ensures { Writes W.contents writer.old writer.new result (value_text id.now) }
{
    if is_plain(id) {
        put(writer, id)
    } else {
        write_value(id, writer)
    }
}

/// Writes a tag whose value is an id.
fn put_id_tag<W: Write>(writer: &mut W, key: &[u8], id: &[u8]) -> io::Result<()>
    requires { is_id id.now ≡ true }
    ensures { Writes W.contents writer.old writer.new result (key.now ++ value_text id.now) }
{
    put(writer, key)?;
    put_id(writer, id)
}

/// A tag that a line has before the record's own.
#[derive(Clone, Copy)]
pub(crate) enum Tag {
    Batch,
    MsgId,
    Time,
}

impl Tag {
    /// Its key, with what stands before the tag, and with the `=` behind it.
    fn key(self, begun: bool) -> &'static [u8]
        ensures { result.now ≡ separator begun ++ key_text self }
    {
        match (self, begun) {
            (Tag::Batch, false) => b"@batch=",
            (Tag::Batch, true) => b";batch=",
            (Tag::MsgId, false) => b"@msgid=",
            (Tag::MsgId, true) => b";msgid=",
            (Tag::Time, false) => b"@time=",
            (Tag::Time, true) => b";time=",
        }
    }
}

/// Tags that are written one by one: `@` before the first, `;` before a later one.
#[derive(Drop)]
struct TagWriter {
    /// Whether a tag was written.
    begun: bool,
}

impl TagWriter {
    /// What stands before the next tag.
    fn separator(&self) -> &'static [u8]
        ensures { result.now ≡ separator self.now.begun }
    {
        if self.begun { b";" } else { b"@" }
    }

    /// Writes a tag where the flag is set.
    fn tag<W: Write>(
        &mut self,
        writer: &mut W,
        flag: bool,
        tag: Tag,
        value: &[u8],
    ) -> io::Result<()>
        ensures text { Writes W.contents writer.old writer.new result
            (next_tag self.old.begun flag (key_text tag ++ value.now)) }
        ensures begun { OnOk result (self.new.begun ≡ (self.old.begun || flag)) }
    {
        if !flag {
            return Ok(());
        }
        let key = tag.key(self.begun);
        self.begun = true;
        put_pair(writer, key, value)
    }

    /// Writes the tag of an id where the flag is set, with the escapes of a value.
    fn id_tag<W: Write>(&mut self, writer: &mut W, flag: bool, id: &[u8]) -> io::Result<()>
        requires { is_id id.now ≡ true }
        ensures text { Writes W.contents writer.old writer.new result
            (next_tag self.old.begun flag (key_text MsgId ++ value_text id.now)) }
        ensures begun { OnOk result (self.new.begun ≡ (self.old.begun || flag)) }
    {
        if !flag {
            return Ok(());
        }
        let key = Tag::MsgId.key(self.begun);
        self.begun = true;
        put_id_tag(writer, key, id)
    }

    /// Writes tags that stand as they are written, where the flag is set.
    fn written_tags<W: Write>(&mut self, writer: &mut W, flag: bool, tags: &[u8]) -> io::Result<()>
        ensures text { Writes W.contents writer.old writer.new result
            (next_tag self.old.begun flag tags.now) }
        ensures begun { OnOk result (self.new.begun ≡ (self.old.begun || flag)) }
    {
        if !flag {
            return Ok(());
        }
        let separator = self.separator();
        self.begun = true;
        put_pair(writer, separator, tags)
    }

    /// Writes the space behind the tags, where there are any.
    fn end<W: Write>(&self, writer: &mut W) -> io::Result<()>
        ensures { Writes W.contents writer.old writer.new result (if self.now.begun then codes " "
            else []) }
    {
        if self.begun {
            put(writer, b" ")
        } else {
            Ok(())
        }
    }
}

/// Whether a record's own tags are written: a session with `message-tags` gets those of a record that has some.
fn has_own_tags(caps: CapSet, message: &Record) -> bool
    ensures { result ≡ has_own_tags caps message.now }
{
    caps.message_tags && !message.tags().is_empty()
}

/// Writes the tags of a record in a batch, in the order `batch`, `msgid`, `time`, and then the record's own as they
/// stand in it. Where there is none nothing is written. It takes no memory.
pub(crate) fn put_tags<W: Write>(
    writer: &mut W,
    caps: CapSet,
    reference: &[u8],
    message: &Record,
) -> io::Result<()>
    ensures { Writes W.contents writer.old writer.new result
        (tag_part (batch_tags caps reference.now ++ message_tags caps message.now)) }
{
    let time = write_time(message.at());
    let id = message.id().as_bytes();
    let mut tags = TagWriter { begun: false };
    tags.tag(writer, caps.batch, Tag::Batch, reference)?;
    tags.id_tag(writer, caps.message_tags, id)?;
    tags.tag(writer, caps.server_time, Tag::Time, time.as_slice())?;
    tags.written_tags(writer, has_own_tags(caps, message), message.tags())?;
    tags.end(writer)
}
