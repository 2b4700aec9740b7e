//! Lines of peers: what arrives with each.
use crate::telling::tell_row;
use peer_lines::{Arrived, Gather, LinkFault, read_peer};
use std::alloc::{AllocError, Global};

/// What arrived: `P ` for a packet, `. ` for nothing yet, or `- ` where the line was refused with `BadForm`.
fn word_of(heard: &Result<Option<Arrived>, LinkFault>) -> &'static [u8] {
    match heard {
        Ok(None) => b". ",
        Ok(Some(Arrived::Word(_))) => b"W ",
        Ok(Some(Arrived::Hello(_, _))) => b"H ",
        Ok(Some(Arrived::Packet(_))) => b"P ",
        Ok(Some(Arrived::Ack(_))) => b"A ",
        Err(LinkFault::BadForm) => b"- ",
        Err(_) => b"? ",
    }
}

fn word_at(alloc: Global, gather: &mut Gather, line: &[u8]) -> &'static [u8] {
    match read_peer(alloc, line) {
        Ok(line) => word_of(&gather.push(alloc, line)),
        Err(LinkFault::BadForm) => b"- ",
        Err(_) => b"? ",
    }
}

/// A row has a letter and a line. Told is the letter of what arrives with the line, for the rows of one connection.
pub fn tell_rows(alloc: Global, rows: &str, out: &mut Vec<u8>) -> Result<(), AllocError> {
    let mut gather = Gather::new();
    for row in rows.lines() {
        let (_, line) = row.split_once(" ").unwrap_or((row, ""));
        let word = word_at(alloc, &mut gather, line.as_bytes());
        tell_row(out, word, line.as_bytes())?;
    }
    Ok(())
}
