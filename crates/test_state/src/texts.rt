//! Numbers, moments and changes as text.
use byte_text::number_to;
use chat_change::{Change, Moment};
use chat_state::ChangeRef;
use gossip_delta::write_change;
use std::io;
use std::io::Write;

/// The number that a word spells, and 0 of another word.
pub fn number_of(word: &str) -> u64 {
    number_to(u64::MAX, word.as_bytes()).unwrap_or(0)
}

/// The two numbers that words spell.
pub fn numbers_of(words: &str) -> (u64, u64) {
    let (one, other) = words.split_once(" ").unwrap_or((words, ""));
    (number_of(one), number_of(other))
}

pub fn put_moment(out: &mut Vec<u8>, at: Option<Moment>) -> io::Result<()> {
    match at {
        Some(at) => write!(out, " {}", at.ms()),
        None => write!(out, " -"),
    }
}

/// The line of a change, with `;` for its ending.
pub fn put_line(out: &mut Vec<u8>, change: &Change) -> io::Result<()> {
    write_change(change, out)?;
    out.truncate(out.len().saturating_sub(2));
    out.push(b';')?;
    Ok(())
}

pub fn put_lines(out: &mut Vec<u8>, changes: &[Change]) -> io::Result<()> {
    for change in changes {
        put_line(out, change)?;
    }
    Ok(())
}

/// The same of a change that is lent.
pub fn put_lent(out: &mut Vec<u8>, change: &ChangeRef<'_>) -> io::Result<()> {
    let change = change.to_change()?;
    put_line(out, &change)
}
