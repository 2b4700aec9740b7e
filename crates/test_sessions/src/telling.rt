//! What players share: telling in rows, and a state that takes what a line spells.
use anyhow::Error;
use chat_change::Change;
use chat_state::State;
use gossip_delta::{read_change, write_change};
use std::alloc::{AllocError, Global};

/// Tells a word, and bytes behind it, in a row.
pub fn tell_row(out: &mut Vec<u8>, word: &[u8], bytes: &[u8]) -> Result<(), AllocError> {
    out.extend_from_slice(word)?;
    out.extend_from_slice(bytes)?;
    out.push(b'\n')?;
    Ok(())
}

/// A line without its ending, which it must have.
pub fn without_ending(line: &[u8]) -> &[u8] {
    match line {
        [text @ .., b'\r', b'\n'] => text,
        _ => b"a line without an ending",
    }
}

/// Tells a change that is put, by the line that spells it.
pub fn tell_change(alloc: Global, out: &mut Vec<u8>, change: &Change) -> Result<(), Error> {
    let mut line = Vec::new(alloc);
    write_change(change, &mut line)?;
    Ok(tell_row(out, b"put ", without_ending(&line))?)
}

/// The state takes the change that a line spells.
pub fn absorb(alloc: Global, state: &mut State, line: &[u8]) -> Result<(), Error> {
    let change = read_change(alloc, line)?;
    let _ = state.absorb(change)?;
    Ok(())
}
