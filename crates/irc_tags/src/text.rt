//! Writing tags and lists of them (IRCv3 message-tags, "Format"). What is written at an error is a prefix of the text. A call
//! fails where the writer does, and takes no memory.
ghost use Rattle.std.specs.Prelude.{◌≡◌};
ghost use Rattle.byte_text.specs.Writes.{Writes};
ghost use Rattle.irc_tags.specs.TagList.{tag_list};
ghost use Rattle.irc_tags.specs.Text.{value_part, tag_text, tags_text, separator};

use crate::tag_list::Tags;
use crate::value::write_value;
use byte_text::put;
use std::io;
use std::io::Write;

/// Writes what stands behind a key: `=` and the value with its escapes, or nothing where the value is empty.
fn put_value_part<W: Write>(value: &[u8], writer: &mut W) -> io::Result<()>
    ensures { Writes W.contents writer.old writer.new result (value_part value.now) }
{
    if value.is_empty() {
        return Ok(());
    }
    put(writer, b"=")?;
    write_value(value, writer)
}

/// Writes a tag: the key, `=` and the value with its escapes, or the bare key where the value is empty.
pub(crate) fn write_tag<W: Write>(key: &[u8], value: &[u8], writer: &mut W) -> io::Result<()>
    ensures { Writes W.contents writer.old writer.new result (tag_text (key.now, value.now)) }
{
    put(writer, key)?;
    put_value_part(value, writer)
}

/// Writes what stands between the tag at an index and the one before it.
pub(crate) fn put_separator<W: Write>(index: usize, writer: &mut W) -> io::Result<()>
    ensures { Writes W.contents writer.old writer.new result (separator index) }
{
    if index == 0 {
        Ok(())
    } else {
        put(writer, b";")
    }
}

/// Writes the tags in their order, joined by `;`, without `@` and the space behind them.
pub fn write_tags<W: Write>(tags: &Tags, writer: &mut W) -> io::Result<()>
    ensures written { Writes W.contents writer.old writer.new result (tags_text tags.now) }
    // What is written is read back as these tags.
    ensures read_back { tag_list (tags_text tags.now) ≡ tags.now }
{
    for index in 0..tags.len() {
        put_separator(index, writer)?;
        let (key, value) = tags.entry(index);
        write_tag(key, value, writer)?;
    }
    Ok(())
}
