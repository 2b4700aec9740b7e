//! The line of a post behind the names of its buffer: its fields as they are read, the parts of the post that they say, and
//! its words as they are written. What a post has is spelled here alone.
ghost use Rattle.std.specs.Prelude.{◌≡◌, ◌++◌, ◌∷◌, drop, true, IfOk};
ghost use Rattle.std.specs.Option.{option_map, option_and_then};
ghost use Rattle.std.specs.Map.Iter.{deref};
ghost use Rattle.byte_text.specs.Bytes.{line_ending};
ghost use Rattle.byte_text.specs.Writes.{Writes};
ghost use Rattle.chat_change.specs.Buffer as buffer;
ghost use Rattle.chat_change.specs.Lawful.{IsLawfulRecord};
ghost use Rattle.chat_change.specs.Message as message;
ghost use Rattle.chat_change.specs.declared.change.Change.TheVariants as change;
ghost use Rattle.change_lines.specs.Words.{words_text};
ghost use Rattle.change_lines.specs.PostLine as spec;
ghost use Rattle.change_lines.specs.BufferFields as fields;
ghost use Rattle.change_lines.specs.ChangeLine.{is_buffer, buffer_named};
ghost use Rattle.change_lines.specs.NamedBuffer.{IsNamed};
ghost use Rattle.change_lines.specs.ChangeText.{line_of, buffer_words};

use crate::fields::BufferFields;
use crate::moment::moment_of;
use crate::named_buffer::buffer_for;
use crate::words::{is_filled, is_text, put_line, put_word, put_words, split_word};
use byte_text::begins_with;
use chat_change::{
    Buffer, Kind, Message, Moment, Record, is_id, is_message, is_tags, lawful_id, lawful_record,
};
use std::alloc::{AllocError, Global};
use std::io;
use std::io::Write;

/// The fields of a post behind its buffer. The body stands with its colon.
#[derive(Clone, Copy)]
pub(crate) struct PostFields<'a> {
    id: &'a [u8],
    at: &'a [u8],
    kind: &'a [u8],
    /// Nothing where the line has none.
    tags: &'a [u8],
    to: &'a [u8],
    source: &'a [u8],
    body: &'a [u8],
}

/// What a line says of a post. Whether its id, its tags and its message are lawful its makers say.
#[derive(Clone, Copy)]
pub(crate) struct PostParts<'a> {
    id: &'a [u8],
    at: Moment,
    /// Nothing where the post has none.
    tags: &'a [u8],
    message: Message<'a>,
}

// The tags, in a line that has some, and what stands behind them.
fn split_tags(is_tagged: bool, bytes: &[u8]) -> (&[u8], &[u8])
    ensures tags { result.0.now ≡ spec.tags_word is_tagged bytes.now }
    ensures behind { result.1.now ≡ spec.behind_tags is_tagged bytes.now }
{
    if is_tagged {
        split_word(bytes)
    } else {
        (b"", bytes)
    }
}

/// The fields of a post, which has tags or none.
pub(crate) fn post_fields<'a>(is_tagged: bool, bytes: &'a [u8]) -> PostFields<'a>
    ensures { spec.value_of result ≡ spec.post_fields is_tagged bytes.now }
{
    let (id, rest) = split_word(bytes);
    let (at, rest) = split_word(rest);
    let (kind, rest) = split_word(rest);
    let (tags, rest) = split_tags(is_tagged, rest);
    let (to, rest) = split_word(rest);
    let (source, body) = split_word(rest);
    PostFields {
        id,
        at,
        kind,
        tags,
        to,
        source,
        body,
    }
}

/// Whether the fields of a post, which has tags or none, are all there.
pub(crate) fn has_post_form(is_tagged: bool, p: PostFields<'_>) -> bool
    ensures { result ≡ spec.has_post_form is_tagged (spec.value_of p.entry) }
{
    is_filled(p.id)
        && is_filled(p.at)
        && is_filled(p.kind)
        && (!is_tagged || is_filled(p.tags))
        && is_filled(p.to)
        && is_filled(p.source)
        && begins_with(b':', p.body)
}

fn message_kind(text: &[u8]) -> Option<Kind>
    ensures { result ≡ spec.message_kind text.now }
{
    if is_text(text, b"P") {
        Some(Kind::Privmsg)
    } else if is_text(text, b"N") {
        Some(Kind::Notice)
    } else {
        None
    }
}

// The body, which stands behind a colon.
fn behind_colon(body: &[u8]) -> &[u8]
    ensures { result.now ≡ drop 1 body.now }
{
    if body.is_empty() { body } else { &body[1..] }
}

fn message_of<'a>(p: PostFields<'a>, kind: Kind) -> Message<'a>
    ensures { message.value_of result ≡ spec.message_of (spec.value_of p.entry) kind }
{
    Message {
        kind,
        source: p.source,
        target: p.to,
        body: behind_colon(p.body),
    }
}

fn may_be_tags(alloc: Global, tags: &[u8]) -> bool
    ensures { result ≡ spec.may_be_tags tags.now }
{
    !is_filled(tags) || is_tags(alloc, tags)
}

/// The parts of the post that the fields say, if its kind and its moment are such.
pub(crate) fn post_parts<'a>(p: PostFields<'a>) -> Option<PostParts<'a>>
    ensures { (b : buffer.Buffer) → option_and_then (λ post. spec.if_lawful (spec.record_of b post))
        result ≡ spec.post_in b (spec.value_of p.entry) }
{
    match (message_kind(p.kind), moment_of(p.at)) {
        (Some(kind), Some(at)) => Some(PostParts {
            id: p.id,
            at,
            tags: p.tags,
            message: message_of(p, kind),
        }),
        _ => None,
    }
}

/// Whether the makers of a post refuse none of these parts.
pub(crate) fn is_lawful_post(alloc: Global, post: &PostParts<'_>) -> bool
    ensures { result ≡ spec.are_lawful post.now }
{
    is_id(post.id) && may_be_tags(alloc, post.tags) && is_message(post.message)
}

// The record of the parts, in that buffer.
fn new_record(alloc: Global, buffer: Buffer, post: &PostParts<'_>) -> Result<Record, AllocError>
    requires { spec.are_lawful post.now ≡ true }
    ensures { IfOk result (λ made. made ≡ spec.record_of buffer post.now) }
{
    let id = lawful_id(alloc, post.id)?;
    lawful_record(alloc, buffer, id, post.at, post.message, post.tags)
}

/// The post of these parts in the buffer of these names. They are lawful, so it fails for want of memory alone.
pub(crate) fn new_post(
    alloc: Global,
    known: Option<&Buffer>,
    names: &BufferFields<'_>,
    post: &PostParts<'_>,
) -> Result<Record, AllocError>
    requires known { IsNamed (option_map deref known) (fields.value_of names.now) }
    requires names { is_buffer (fields.value_of names.now) ≡ true }
    requires post { spec.are_lawful post.now ≡ true }
    ensures { IfOk result (λ made.
        made ≡ spec.record_of (buffer_named (fields.value_of names.now)) post.now) }
{
    match buffer_for(alloc, known, names) {
        Ok(buffer) => new_record(alloc, buffer, post),
        Err(fault) => Err(fault),
    }
}

// The second word of the line. As `'static` it could not stand in an array beside the other words.
fn post_word(tags: &[u8]) -> &[u8]
    ensures { result.now ≡ spec.post_word tags.now }
{
    if is_filled(tags) { b"TPOST" } else { b"POST" }
}

// Writes the tags as a word, if there are any.
fn put_tags<W: Write>(writer: &mut W, tags: &[u8]) -> io::Result<()>
    ensures { Writes W.contents writer.old writer.new result
        (words_text (spec.tags_words tags.now)) }
{
    if is_filled(tags) {
        put_word(writer, tags)
    } else {
        Ok(())
    }
}

// Writes the words in front of the tags.
fn put_front<W: Write>(writer: &mut W, post: &Record) -> io::Result<()>
    ensures text { Writes W.contents writer.old writer.new result (words_text
        (buffer_words (spec.post_word post.now.tags) post.now.buffer (spec.front_words post.now))) }
    ensures lawful { IsLawfulRecord post.now }
{
    let mut digits = itoa::Buffer::new();
    let buffer = post.buffer();
    let message = post.message();
    let words: [&[u8]; 8] = [
        b"C",
        post_word(post.tags()),
        buffer.account(),
        buffer.network(),
        buffer.target(),
        post.id().as_bytes(),
        digits.format(post.at().ms()).as_bytes(),
        &[message.kind.letter()],
    ];
    put_words(writer, &words)
}

// Writes the words behind the tags, the body, and the end of the line.
fn put_back<W: Write>(writer: &mut W, post: &Record) -> io::Result<()>
    ensures { Writes W.contents writer.old writer.new result ((words_text
        (spec.back_words post.now) ++ (58 ∷ post.now.message.body)) ++ line_ending) }
{
    let message = post.message();
    put_line(
        writer,
        &[message.target, message.source],
        b":",
        message.body,
    )
}

/// Writes the line of a post, and its end.
pub(crate) fn put_post<W: Write>(writer: &mut W, post: &Record) -> io::Result<()>
    ensures text { Writes W.contents writer.old writer.new result
        (line_of (change.Post post.now) ++ line_ending) }
    ensures lawful { IsLawfulRecord post.now }
{
    put_front(writer, post)?;
    put_tags(writer, post.tags())?;
    put_back(writer, post)
}
