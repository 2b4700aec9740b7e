//! Lines out of a stream that comes in any pieces.
ghost use Rattle.std.specs.Prelude.{◌≡◌, ◌↔◌, ◌+◌, ◌-◌, ◌<◌, ◌≤◌, true, IsTrue, None, IfOk, [], length, take, drop, vec_len, vec_capacity, position, if◌then◌else◌};
ghost use Rattle.std.specs.Io.BufRead.{strip_last};
ghost use Rattle.byte_text.specs.Bytes.{cr};
ghost use Rattle.irc_line.specs.Stream.{Held, HasRoom, max_line, holding, skipping, bytes_of, is_lf, held_with, held_without, next_item};

use byte_text::{NoMemory, find_byte};
use std::alloc::Global;
use std::marker::Model;

/// The greatest length of a line in bytes, with its LF: 8191 of tags (IRCv3 message-tags) and 512 of the rest
/// (RFC 1459 section 2.3).
const MAX_LINE: usize = 8703;

/// The bytes of a stream of which no line was made yet: at most 8703 of them, or none while the rest of a line
/// that was too long is skipped. Only [`Feeder::new`] takes memory.
///
/// Each byte is searched for LF once. It is moved at most once where each line is taken out before more is fed.
#[derive(Drop)]
pub struct Feeder {
    buffer: Vec<u8>,
    // Of the bytes before it lines were made.
    start: usize,
    // The rest of a line that was too long is still to come.
    in_long_line: bool,
    // No LF stands from `start` up to here. It is no neighbour of `start`, since both would then be loaded as one
    // vector just after one of them was written, which is slow where bytes come one by one.
    searched: usize,
}

impl Model for Feeder {
    ghost Value = { Held };

    ghost view = { λ f. if f.in_long_line then skipping
        else holding (drop f.start f.buffer.items) };

    ghost invariant = { λ f. record {
      in_order : f.start ≤ f.searched;
      in_buffer : f.searched ≤ vec_len f.buffer;
      room : vec_len f.buffer ≤ max_line;
      capacity : max_line ≤ vec_capacity f.buffer;
      no_lf : position is_lf (take (f.searched - f.start) (drop f.start f.buffer.items)) ≡ None;
      none_held : f.in_long_line ≡ true → f.start ≡ vec_len f.buffer;
    } };
}

/// What comes next out of a stream.
#[derive(Drop)]
pub enum Next<'a> {
    /// A line of at most 8703 bytes with its LF, here without the LF and without one CR directly before it.
    Line(&'a [u8]),
    /// A line of more than 8703 bytes with its LF. It is reported once, and its rest is skipped up to its LF.
    TooLong,
    /// Nothing before more bytes are fed.
    More,
}

/// The bytes without one CR at their end.
fn without_cr(bytes: &[u8]) -> &[u8]
    ensures { result.now ≡ strip_last cr bytes.now }
{
    let n = bytes.len();
    if n > 0 && bytes[n - 1] == b'\r' {
        &bytes[..n - 1]
    } else {
        bytes
    }
}

/// Makes room for `n` more bytes behind those held: where they would not fit there, the bytes before `start` are
/// dropped. It says how many bytes were dropped.
fn make_room(buffer: &mut Vec<u8>, start: usize, n: usize) -> usize
    requires in_buffer { start ≤ vec_len buffer.old }
    requires in_room { vec_len buffer.old ≤ max_line }
    requires fits { vec_len buffer.old - start + n ≤ max_line }
    ensures dropped { result ≤ start }
    ensures items { buffer.new.items ≡ drop result buffer.old.items }
    ensures room { vec_len buffer.new + n ≤ max_line }
    ensures capacity { vec_capacity buffer.new ≡ vec_capacity buffer.old }
{
    if n <= MAX_LINE - buffer.len() {
        return 0;
    }
    let rest = buffer.len() - start;
    buffer.copy_within(start.., 0);
    buffer.truncate(rest);
    start
}

impl Feeder {
    ghost use Rattle.irc_line.specs.contracts.stream.Feeder.{the_row};
    ghost use Rattle.std.specs.Borrow.{sem};
    ghost use Rattle.std.specs.Io.BufRead.{Rests};
    ghost use Rattle.irc_line.specs.Next.{value_of, rest_of};

    /// A feeder that holds nothing, with room for 8703 bytes: 8191 of tags (IRCv3 message-tags) and 512 of the rest
    /// (RFC 1459 section 2.3).
    pub fn new(alloc: Global) -> Result<Feeder, NoMemory>
        ensures { IfOk result (λ f. f ≡ holding []) }
    {
        let buffer = Vec::with_capacity(alloc, MAX_LINE).map_err(|_| NoMemory)?;
        Ok(Feeder {
            buffer,
            start: 0,
            searched: 0,
            in_long_line: false,
        })
    }

    /// Whether nothing is held and nothing is skipped, so that a new feeder would go on alike.
    pub fn is_empty(&self) -> bool
        ensures { IsTrue result ↔ (self.now ≡ holding []) }
    {
        !self.in_long_line && self.start == self.buffer.len()
    }

    /// Takes as long a prefix of the piece as there is room for, and says how many bytes that is. It takes at
    /// least one byte of a piece that has one where [`Feeder::next_line`] answered [`Next::More`] last.
    pub fn feed(&mut self, piece: &[u8]) -> usize
        ensures within { result ≤ length piece.now }
        ensures taken { self.new ≡ held_with self.old (take result piece.now) }
        // It stops before the end of the piece only where no room is left,
        ensures full { result < length piece.now → length (bytes_of self.new) ≡ max_line }
        // and there is room where fewer bytes were held, and so after `More`.
        ensures progress { HasRoom self.old → 0 < length piece.now → 0 < result }
        ensures after_more { next_item self.old ≡ None → 0 < length piece.now → 0 < result }
    {
        // what is left of a piece that was taken whole
        if piece.is_empty() {
            return 0;
        }
        let mut skipped = 0;
        if self.in_long_line {
            let Some(at) = find_byte(piece, b'\n') else {
                return piece.len();
            };
            skipped = at + 1;
        }
        self.in_long_line = false;
        let rest = &piece[skipped..];
        let n = rest.len().min(MAX_LINE - (self.buffer.len() - self.start));
        let dropped = make_room(&mut self.buffer, self.start, n);
        self.start -= dropped;
        self.searched -= dropped;
        let _ = self.buffer.extend_from_slice(&rest[..n]);
        skipped + n
    }

    /// Takes out the next line: LF ends a line, and one CR directly before it is dropped (RFC 1459 and RFC 2812,
    /// section 2.3).
    pub fn next_line(&mut self) -> Next<'_>
        ensures item { value_of result ≡ next_item self.old }
        // What is left once it was taken out,
        ensures rest { rest_of result self.old ≡ held_without (next_item self.old) self.old }
        // and that is held once the line is no longer lent.
        ensures* left { sem 𝓛 (Rests the_row self.entry (λ new. new ≡ rest_of result self.old)) }
    {
        if self.in_long_line {
            return Next::More;
        }
        match find_byte(&self.buffer[self.searched..], b'\n') {
            Some(at) => {
                let from = self.start;
                let end = self.searched + at;
                self.start = end + 1;
                self.searched = end + 1;
                Next::Line(without_cr(&self.buffer[from..end]))
            }
            None if self.buffer.len() - self.start >= MAX_LINE => {
                self.buffer.clear();
                self.start = 0;
                self.searched = 0;
                self.in_long_line = true;
                Next::TooLong
            }
            None => {
                self.searched = self.buffer.len();
                Next::More
            }
        }
    }
}
