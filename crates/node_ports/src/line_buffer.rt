//! What came over a connection, line by line.
ghost use Rattle.std.specs.Prelude.{◌≡◌, ◌++◌, [], IfOk, OnErr, take, true, if◌then◌else◌};
ghost use Rattle.std.specs.Io.BufRead.{strip_last};
ghost use Rattle.byte_text.specs.Bytes.{cr};
ghost use Rattle.irc_line.specs.Next.{value_of};
ghost use Rattle.irc_line.specs.Stream.{holding, skipping, bytes_of, held_past, held_with, next_item};

use crate::connection::Connection;
use crate::pending::{Pending, ReceiveFault};
use byte_text::find_byte;
use irc_line::Next;
use std::alloc::Global;
use std::marker::Model;

/// A line with its LF has at most so many bytes: 8191 of tags (IRCv3 message-tags) and 512 of the rest (RFC 1459, section 2.3).
const MAX_LINE: usize = 8703;

/// What came over a connection, and was not taken as lines yet. Contracts see what is held of the stream, as with a
/// [`Feeder`](irc_line::Feeder). In place of that it gives a line before it is taken out, so that a line can be tried again.
#[derive(Drop)]
pub struct LineBuffer {
    bytes: Pending,
    // The rest of a line that was too long is still to come.
    is_skipping: bool,
}

impl Model for LineBuffer {
    ghost use Rattle.std.specs.Prelude.{◌≡◌, [], true, if◌then◌else◌};
    ghost use Rattle.irc_line.specs.Stream.{Held, holding, skipping};

    ghost Value = { Held };

    ghost view = { λ i. if i.is_skipping then skipping else holding i.bytes };

    ghost invariant = { λ i. i.is_skipping ≡ true → i.bytes ≡ [] };
}

// The bytes without one CR at their end.
fn without_cr(bytes: &[u8]) -> &[u8]
    ensures { result.now ≡ strip_last cr bytes.now }
{
    let n = bytes.len();
    if n > 0 && bytes[n - 1] == b'\r' {
        &bytes[..n - 1]
    } else {
        bytes
    }
}

// The first line is let go, or all of it that came: whether its rest is still to come.
fn skip(bytes: &mut Pending) -> bool
    ensures held { (if result then skipping else holding bytes.new) ≡ held_past bytes.old }
    ensures none { result ≡ true → bytes.new ≡ [] }
{
    match find_byte(bytes.as_bytes(), b'\n') {
        Some(at) => {
            bytes.take(at + 1);
            false
        }
        None => {
            bytes.take(bytes.len());
            true
        }
    }
}

impl LineBuffer {
    /// Nothing came yet. It takes no memory.
    pub fn new(alloc: Global) -> LineBuffer
        ensures { result ≡ holding [] }
    {
        LineBuffer {
            bytes: Pending::new(alloc),
            is_skipping: false,
        }
    }

    /// Takes in bytes that come over the connection ([`Pending::receive`]).
    pub fn receive<C: Connection>(
        &mut self,
        connection: &mut C,
        chunk: &mut [u8],
    ) -> Result<usize, ReceiveFault>
        ensures held { IfOk result (λ n. self.new ≡ held_with self.old (take n chunk.new)) }
        ensures received { IfOk result (λ n.
            C.received connection.new ≡ C.received connection.old ++ take n chunk.new) }
        ensures evidence { IfOk result (λ _. ∥ C.facts.came (C.origin connection.old)
            (C.serial connection.old) (C.received connection.new) ∥₁) }
        ensures err { OnErr result (self.new ≡ self.old) }
        ensures none { OnErr result (C.received connection.new ≡ C.received connection.old) }
        ensures sent { C.sent connection.new ≡ C.sent connection.old }
        ensures origin { C.origin connection.new ≡ C.origin connection.old }
        ensures serial { C.serial connection.new ≡ C.serial connection.old }
    {
        let count = self.bytes.receive(connection, chunk)?;
        if self.is_skipping {
            self.is_skipping = skip(&mut self.bytes);
        }
        Ok(count)
    }

    /// The next line: LF ends a line, and one CR directly before it is dropped (RFC 1459 and RFC 2812, section 2.3).
    pub fn next_line(&self) -> Next<'_>
        ensures { value_of result ≡ next_item self.now }
    {
        let bytes = self.bytes.as_bytes();
        match find_byte(bytes, b'\n') {
            Some(at) if at < MAX_LINE => Next::Line(without_cr(&bytes[..at])),
            Some(_) => Next::TooLong,
            None if bytes.len() >= MAX_LINE => Next::TooLong,
            None => Next::More,
        }
    }

    /// The next line is taken out.
    pub fn take_line(&mut self)
        ensures { self.new ≡ held_past (bytes_of self.old) }
    {
        self.is_skipping = skip(&mut self.bytes);
    }
}
