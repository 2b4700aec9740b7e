//! What comes over a connection, line by line.
ghost use Rattle.std.specs.Prelude.{◌≡◌, ◌≢◌, ◌++◌, List, ℕ, [], None, IfOk, false, is_some};
ghost use Rattle.std.specs.Option.{option_copied};
ghost use Rattle.std.specs.Borrow.{sem};
ghost use Rattle.std.specs.Io.BufRead.{Rests};
ghost use Rattle.irc_line.specs.Next.{value_of};
ghost use Rattle.irc_line.specs.Stream.{holding, items_from, next_item};
ghost use Rattle.node_ports.specs.Unread as spec;
ghost use Rattle.node_ports.specs.declared.input.Filled.TheVariants as filled;

use crate::connection::{Connection, Halt};
use crate::feeders::Feeders;
use crate::pending::Pending;
use byte_text::NoMemory;
use irc_line::{Feeder, Next};
use std::alloc::Global;
use std::marker::Model;

/// What came of asking for more bytes.
#[derive(Clone, Copy, Debug, PartialEq, Eq)]
pub enum Filled {
    /// Some came.
    More,
    /// None is there for now.
    Nothing,
    /// The connection is closed. Its other half may be open.
    Closed,
    /// There was no memory.
    NoMemory,
}

// What is known of the next line before it is heard.
#[derive(Clone, Copy, PartialEq, Eq)]
enum Ahead {
    Nothing,
    Line,
    TooLong,
}

/// What came over a connection, and isn't heard yet. Contracts see what is unread.
#[derive(Drop)]
pub struct Input {
    // of the line that was looked at
    ahead: Ahead,
    line: Vec<u8>,
    // None where nothing of a line is held.
    feeder: Option<Feeder>,
    // What the feeder had no room for.
    rest: Pending,
    is_readable: bool,
}

impl Model for Input {
    ghost use Rattle.std.specs.Prelude.{◌≡◌, [], None, unwrap_or};
    ghost use Rattle.irc_line.specs.Stream.{holding};
    ghost use Rattle.node_ports.specs.Unread.{Unread, item_ahead};

    ghost Value = { Unread };

    ghost view = { λ i. record {
      ahead = item_ahead i.ahead i.line.items;
      held = unwrap_or i.feeder (holding []);
      behind = i.rest;
    } };

    ghost invariant = { λ i. i.feeder ≡ None → i.rest ≡ [] };
}

impl Input {
    ghost use Rattle.node_ports.specs.contracts.input.Input.{the_row};

    /// Nothing came yet, and bytes may be there. It takes no memory.
    pub fn new(alloc: Global) -> Input
        ensures { result ≡ record { ahead = None; held = holding []; behind = [] } }
    {
        Input {
            ahead: Ahead::Nothing,
            line: Vec::new(alloc),
            feeder: None,
            rest: Pending::new(alloc),
            is_readable: true,
        }
    }

    /// Bytes may be there again.
    pub fn mark_readable(&mut self)
        ensures { self.new ≡ self.old }
    {
        self.is_readable = true;
    }

    /// The next line is looked at, and stays the next one: whether there is one. For want of memory it is lost.
    pub fn look(&mut self) -> Result<bool, NoMemory>
        ensures left { IfOk result (λ _. (more : List ℕ)
            → spec.items_left self.new more ≡ spec.items_left self.old more) }
        ensures there { IfOk result (λ is_there. is_there ≡ is_some self.new.ahead) }
        ensures looked { IfOk result (λ _. spec.IsLooked self.new) }
    {
        if self.look_in_feeder()? {
            return Ok(true);
        }
        self.feed_rest();
        self.look_in_feeder()
    }

    // The next of the lines that the feeder has is looked at.
    fn look_in_feeder(&mut self) -> Result<bool, NoMemory>
        ensures looked { IfOk result (λ _. self.new ≡ spec.looked self.old) }
        ensures there { IfOk result (λ is_there. is_there ≡ is_some self.new.ahead) }
    {
        if self.ahead != Ahead::Nothing {
            return Ok(true);
        }
        let Some(feeder) = &mut self.feeder else {
            return Ok(false);
        };
        match feeder.next_line() {
            Next::More => Ok(false),
            Next::TooLong => {
                self.ahead = Ahead::TooLong;
                Ok(true)
            }
            Next::Line(bytes) => {
                self.line.clear();
                self.line.extend_from_slice(bytes)?;
                self.ahead = Ahead::Line;
                Ok(true)
            }
        }
    }

    // Its feeder gets as much as it has room for of what waits for it.
    fn feed_rest(&mut self)
        ensures left { (more : List ℕ)
            → spec.items_left self.new more ≡ spec.items_left self.old more }
        ensures ahead { self.new.ahead ≡ self.old.ahead }
        ensures all { next_item self.new.held ≡ None → self.new.behind ≡ [] }
    {
        if let Some(feeder) = &mut self.feeder {
            feed_rest(feeder, &mut self.rest);
        }
    }

    /// The line that was looked at, where there is one and it wasn't too long.
    pub fn line_ahead(&self) -> Option<&[u8]>
        ensures { option_copied result ≡ spec.line_in self.now.ahead }
    {
        match self.ahead {
            Ahead::Line => Some(self.line.as_slice()),
            Ahead::Nothing | Ahead::TooLong => None,
        }
    }

    /// The next line, which is heard with that. After `More` it is time to [`fill`](Input::fill).
    pub fn next_line(&mut self) -> Next<'_>
        ensures item { value_of result ≡ spec.next_of self.old }
        ensures* left { sem 𝓛 (Rests the_row self.entry (λ new. new ≡ spec.without_next self.old)) }
    {
        let ahead = self.ahead;
        self.ahead = Ahead::Nothing;
        match ahead {
            Ahead::Line => Next::Line(self.line.as_slice()),
            Ahead::TooLong => Next::TooLong,
            Ahead::Nothing => match &mut self.feeder {
                Some(feeder) => feeder.next_line(),
                None => Next::More,
            },
        }
    }

    /// Takes in more bytes, into a feeder that is lent where there is none. It goes back once nothing more is there and it holds
    /// nothing. For want of memory some of what came may be lost.
    pub fn fill<C: Connection>(
        &mut self,
        connection: &mut C,
        chunk: &mut [u8],
        feeders: &mut Feeders,
    ) -> Filled
        ensures left { (heard : ℕ) → result ≢ filled.NoMemory
            → spec.AreLeft (C.received connection.old) heard self.old
            → spec.AreLeft (C.received connection.new) heard self.new }
        ensures received { ∥ spec.IsReceived C.facts (C.origin connection.old)
            (C.serial connection.old) (C.received connection.old) (C.received connection.new) ∥₁ }
        ensures sent { C.sent connection.new ≡ C.sent connection.old }
        ensures origin { C.origin connection.new ≡ C.origin connection.old }
        ensures serial { C.serial connection.new ≡ C.serial connection.old }
        ensures joined { C.joined connection.new ≡ C.joined connection.old }
    {
        if self.rest.is_empty() && !self.is_readable {
            return Filled::Nothing;
        }
        if self.take_feeder(feeders).is_err() {
            return Filled::NoMemory;
        }
        let filled = self.receive(connection, chunk);
        if filled == Filled::Nothing {
            self.give_back(feeders);
        }
        filled
    }

    // Has a feeder, its own or one that is lent to it.
    fn take_feeder(&mut self, feeders: &mut Feeders) -> Result<(), NoMemory>
        ensures { self.new ≡ self.old }
    {
        if self.feeder.is_none() {
            self.feeder = Some(feeders.lend()?);
        }
        Ok(())
    }

    // Gives its feeder back, where that holds nothing.
    fn give_back(&mut self, feeders: &mut Feeders)
        requires { self.old.behind ≡ [] }
        ensures { self.new ≡ self.old }
    {
        if let Some(feeder) = self.feeder.take() {
            self.feeder = feeders.take_back(feeder);
        }
    }

    // Hands its feeder what that had no room for before, or else what the connection gives.
    fn receive<C: Connection>(&mut self, connection: &mut C, chunk: &mut [u8]) -> Filled
        ensures nothing { result ≡ filled.Nothing → self.new.behind ≡ [] }
        ensures left { (heard : ℕ) → result ≢ filled.NoMemory
            → spec.AreLeft (C.received connection.old) heard self.old
            → spec.AreLeft (C.received connection.new) heard self.new }
        ensures received { ∥ spec.IsReceived C.facts (C.origin connection.old)
            (C.serial connection.old) (C.received connection.old) (C.received connection.new) ∥₁ }
        ensures sent { C.sent connection.new ≡ C.sent connection.old }
        ensures origin { C.origin connection.new ≡ C.origin connection.old }
        ensures serial { C.serial connection.new ≡ C.serial connection.old }
        ensures joined { C.joined connection.new ≡ C.joined connection.old }
    {
        let Some(feeder) = &mut self.feeder else {
            return Filled::Nothing;
        };
        if !self.rest.is_empty() {
            feed_rest(feeder, &mut self.rest);
            return Filled::More;
        }
        match connection.receive(chunk) {
            Ok(0) | Err(Halt::Blocked) => {
                self.is_readable = false;
                Filled::Nothing
            }
            Ok(count) => match feed(feeder, &mut self.rest, &chunk[..count]) {
                Ok(()) => Filled::More,
                Err(NoMemory) => Filled::NoMemory,
            },
            Err(Halt::Closed) => Filled::Closed,
        }
    }
}

// Hands the feeder as much as it has room for of what waits for it.
fn feed_rest(feeder: &mut Feeder, rest: &mut Pending)
    ensures all { next_item feeder.new ≡ None → rest.new ≡ [] }
    ensures left { (more : List ℕ)
        → items_from feeder.new (rest.new ++ more) ≡ items_from feeder.old (rest.old ++ more) }
{
    let count = feeder.feed(rest.as_bytes());
    rest.take(count);
}

// Hands bytes to the feeder, and keeps those that it has no room for.
fn feed(feeder: &mut Feeder, rest: &mut Pending, bytes: &[u8]) -> Result<(), NoMemory>
    requires { rest.old ≡ [] }
    ensures { IfOk result (λ _. (more : List ℕ)
        → items_from feeder.new (rest.new ++ more) ≡ items_from feeder.old (bytes.now ++ more)) }
{
    let count = feeder.feed(bytes);
    rest.push(&bytes[count..])?;
    Ok(())
}
