//! What is put. None is want of memory.
use chat_change::{Buffer, Change, Kind, Message, Moment, MsgId, Record};
use std::alloc::Global;

pub fn buffer_of(alloc: Global, channel: &str) -> Option<Buffer> {
    Buffer::new(alloc, b"demo", b"net", channel.as_bytes()).ok()
}

/// A marker of the channel.
pub fn mark(alloc: Global, channel: &str, ms: u64) -> Option<Change> {
    let at = Moment::from_ms(ms)?;
    let buffer = buffer_of(alloc, channel)?;
    Some(Change::Mark { buffer, at })
}

/// A post of `#a`.
pub fn post(alloc: Global, id: &str, ms: u64) -> Option<Change> {
    let at = Moment::from_ms(ms)?;
    let id = MsgId::new(alloc, id.as_bytes()).ok()?;
    let buffer = buffer_of(alloc, "#a")?;
    let message = Message {
        kind: Kind::Privmsg,
        source: b"bob!b@h",
        target: b"#a",
        body: b"hi",
    };
    let record = Record::new(alloc, buffer, id, at, message).ok()?;
    Some(Change::Post(record))
}

fn add_post(alloc: Global, changes: &mut Vec<Change>, ms: u64) -> Option<()> {
    let id = format!(in alloc; "m{ms}").ok()?;
    let change = post(alloc, id.as_str(), ms)?;
    changes.push(change).ok()
}

/// As many posts of `#a` as a packet may carry.
pub fn packet(alloc: Global) -> Option<Vec<Change>> {
    let mut changes = Vec::new(alloc);
    for ms in 0..256 {
        add_post(alloc, &mut changes, ms)?;
    }
    Some(changes)
}
