//! Calls that a library has and no program makes: tags as a list (`irc_tags`), and a record with tags (`chat_change`). And a line
//! that comes in pieces (`irc_line`). What takes memory is called again where it was refused, and gives the same.
use crate::changes::buffer_of;
use crate::places::REFUSALS;
use chat_change::{ChangeFault, Kind, Message, Moment, MsgId, Record};
use irc_line::{Feeder, Next, TagLimit, read_line};
use irc_tags::{MAX_TAG_DATA, TagFault, Tags, read_tags, write_tags};
use std::alloc::Global;
use std::process::Abort;

// Three tags, of which one stands twice.
const DATA: &[u8] = b"+a=1;msgid=a\\:b;+a=2;c";

// 26 tags, of which the first stands twice.
const MANY: &[u8] = b"a=1;b;c;d;e;f;g;h;i;j;k;l;m;n;o;p;q;r;s;t;u;v;w;x;y;z;a=2";

// The tags, read again where there was no memory.
fn tags_of(alloc: Global, data: &[u8]) -> Result<Tags<'_>, TagFault> {
    for _ in 0..REFUSALS {
        match read_tags(alloc, data) {
            Err(TagFault::NoMemory) => {}
            read => return read,
        }
    }
    read_tags(alloc, data)
}

// What is written of the tags, once there is memory for it.
fn written(alloc: Global, tags: &Tags<'_>) -> Vec<u8> {
    for _ in 0..REFUSALS {
        let mut out = Vec::new(alloc);
        if write_tags(tags, &mut out).is_ok() {
            return out;
        }
    }
    let mut out = Vec::new(alloc);
    let _ = write_tags(tags, &mut out);
    out
}

// Whether the last value of each key is found, without its escapes.
fn are_found(tags: &Tags<'_>) -> bool {
    tags.len() == 3
        && tags.get(b"+a") == Some(b"2".as_slice())
        && tags.get(b"msgid") == Some(b"a;b".as_slice())
        && tags.get(b"c") == Some(b"".as_slice())
        && tags.get(b"a").is_none()
}

#[test]
fn tags_are_read_and_written_again(rt: HostRuntime) {
    let tags = tags_of(rt.alloc(), DATA).expect(&rt, "memory");
    assert!(rt; are_found(&tags));
    assert!(rt; written(rt.alloc(), &tags).as_slice() == b"+a=2;msgid=a\\:b;c".as_slice());
}

#[test]
fn a_list_of_tags_grows(rt: HostRuntime) {
    let tags = tags_of(rt.alloc(), MANY).expect(&rt, "memory");
    assert!(rt; tags.len() == 26 && tags.get(b"a") == Some(b"2".as_slice()));
    let wanted = b"a=2;b;c;d;e;f;g;h;i;j;k;l;m;n;o;p;q;r;s;t;u;v;w;x;y;z".as_slice();
    assert!(rt; written(rt.alloc(), &tags).as_slice() == wanted);
}

// A feeder, made again where there was no memory.
fn feeder_of<R: Abort>(rt: &R, alloc: Global) -> Feeder {
    for _ in 0..REFUSALS {
        if let Ok(feeder) = Feeder::new(alloc) {
            return feeder;
        }
    }
    Feeder::new(alloc).expect(rt, "memory")
}

// The tag data of the line that is fed.
fn tag_data<'a, R: Abort>(rt: &R, feeder: &'a mut Feeder) -> &'a [u8] {
    match feeder.next_line() {
        Next::Line(bytes) => match read_line(bytes, TagLimit::Server) {
            Ok(line) => line.tags().unwrap_or(b""),
            Err(_) => rt.panic("a line"),
        },
        _ => rt.panic("the line"),
    }
}

#[test]
fn a_line_that_is_fed_in_pieces_has_its_tags(rt: HostRuntime) {
    let mut feeder = feeder_of(&rt, rt.alloc());
    let first: &[u8] = b"@msgid=a\\";
    let second: &[u8] = b":b\\;time=1970-01-01T00:00:01.000Z :bob!b@h PRI";
    let third: &[u8] = b"VMSG #a :hi\r\n";
    for piece in [first, second, third] {
        assert!(rt; matches!(feeder.next_line(), Next::More));
        assert!(rt; feeder.feed(piece) == piece.len());
    }
    let tags = tags_of(rt.alloc(), tag_data(&rt, &mut feeder)).expect(&rt, "memory");
    assert!(rt; tags.get(b"msgid") == Some(b"a;b".as_slice()));
}

// Tag data of so many bytes, which are one key.
fn one_key(alloc: Global, count: usize) -> Vec<u8> {
    match vec![in alloc; b'a'; count] {
        Ok(data) => data,
        Err(_) => Vec::new(alloc),
    }
}

#[test]
fn tag_data_has_at_most_8189_bytes(rt: HostRuntime) {
    let most = one_key(rt.alloc(), MAX_TAG_DATA);
    let read = read_tags(rt.alloc(), &most);
    assert!(rt; matches!(&read, Ok(tags) if tags.len() == 1));
    let more = one_key(rt.alloc(), MAX_TAG_DATA + 1);
    let read = read_tags(rt.alloc(), &more);
    assert!(rt; matches!(&read, Err(TagFault::TooLong)));
}

// A record with these tags. None is want of memory.
fn tagged(alloc: Global, tags: &[u8]) -> Option<Result<Record, ChangeFault>> {
    let buffer = buffer_of(alloc, "#a")?;
    let id = MsgId::new(alloc, b"m1").ok()?;
    let at = Moment::from_ms(1000)?;
    let message = Message {
        kind: Kind::Privmsg,
        source: b"bob!b@h",
        target: b"#a",
        body: b"hi",
    };
    match Record::new_tagged(alloc, buffer, id, at, message, tags) {
        Err(ChangeFault::NoMemory) => None,
        made => Some(made),
    }
}

// The same, made again where there was no memory.
fn tagged_again(alloc: Global, tags: &[u8]) -> Option<Result<Record, ChangeFault>> {
    for _ in 0..REFUSALS {
        if let Some(made) = tagged(alloc, tags) {
            return Some(made);
        }
    }
    tagged(alloc, tags)
}

#[test]
fn a_record_has_client_only_tags_alone(rt: HostRuntime) {
    let made = tagged_again(rt.alloc(), b"+a=2;+c");
    assert!(rt; matches!(&made, Some(Ok(record)) if record.tags() == b"+a=2;+c".as_slice()));
    let refused = tagged_again(rt.alloc(), b"+a=2;c");
    assert!(rt; matches!(&refused, Some(Err(ChangeFault::BadTags))));
}
