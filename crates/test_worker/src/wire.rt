//! What a port and a worker share of one connection.
ghost use Rattle.std.specs.Prelude.{◌≤◌, length, IfOk};

use crate::act::FarTurn;
use byte_text::NoMemory;
use network_client::Dial;
use node_ports::{Halt, Pending};
use std::alloc::Global;
use std::io;
use std::io::Write;

/// What the other end does.
#[derive(Clone, Copy)]
enum Other {
    /// It may send more.
    Sends,
    /// It sends nothing more.
    Ended,
    /// It is gone.
    Gone,
}

/// What the worker did with the connection.
#[derive(Clone, Copy)]
enum Own {
    Open,
    /// It was closed since the last telling.
    JustClosed,
    Closed,
}

/// What the worker learns of a connection: whether bytes may be there, and whether there may be room for bytes.
#[derive(Clone, Copy)]
pub struct Sign {
    pub is_readable: bool,
    pub is_writable: bool,
}

impl Sign {
    const NOTHING: Sign = Sign {
        is_readable: false,
        is_writable: false,
    };

    const READABLE: Sign = Sign {
        is_readable: true,
        is_writable: false,
    };

    /// The connection is gone, which a read finds and a write.
    const BROKEN: Sign = Sign {
        is_readable: true,
        is_writable: true,
    };

    fn is_nothing(self) -> bool {
        !self.is_readable && !self.is_writable
    }
}

/// What the worker is told of a connection: under which token, and what.
#[derive(Clone, Copy)]
pub struct Readiness {
    pub token: usize,
    pub sign: Sign,
}

/// A connection of a case.
#[derive(Drop)]
pub struct Wire {
    input: Pending,
    // so many bytes of the input are there
    arrived: usize,
    // so many come at once
    gives: usize,
    // what was sent since the last telling
    output: Pending,
    // so many bytes the other end takes before the worker learns that it takes more
    at_once: usize,
    // so many of these it still takes
    room: usize,
    // so many it takes in all from now on
    left: usize,
    other: Other,
    own: Own,
    token: Option<usize>,
    dialed: Option<Dial>,
}

impl Wire {
    /// A connection whose other end takes all that is sent. It was dialed, or not.
    pub fn new(alloc: Global, dialed: Option<Dial>) -> Wire {
        Wire {
            input: Pending::new(alloc),
            arrived: 0,
            gives: usize::MAX,
            output: Pending::new(alloc),
            at_once: usize::MAX,
            room: usize::MAX,
            left: usize::MAX,
            other: Other::Sends,
            own: Own::Open,
            token: None,
            dialed,
        }
    }

    /// Whom the worker connects to by it.
    pub fn dialed(&self) -> Option<Dial> {
        self.dialed
    }

    /// The worker is told of it under that token from now on, or no more.
    pub fn watch(&mut self, token: Option<usize>) {
        self.token = token;
    }

    /// The worker closes it.
    pub fn close(&mut self) {
        self.own = Own::JustClosed;
        self.token = None;
    }

    // What the worker is told, where it watches the connection.
    fn readiness(&self, sign: Sign) -> Option<Readiness> {
        if sign.is_nothing() {
            return None;
        }
        let token = self.token?;
        Some(Readiness { token, sign })
    }

    // These bytes come, at once or by and by.
    fn come(&mut self, bytes: &[u8]) -> Result<(), NoMemory> {
        self.input.push(bytes)?;
        self.arrived = self.arrived.max(self.gives).min(self.input.len());
        Ok(())
    }

    // A line comes, so many times.
    fn come_lines(&mut self, count: usize, text: &str) -> Result<(), NoMemory> {
        for _ in 0..count {
            self.come(text.as_bytes())?;
            self.come(b"\r\n")?;
        }
        Ok(())
    }

    // The other end has its turn.
    fn turn(&mut self, turn: FarTurn<'_>) -> Result<Sign, NoMemory> {
        match turn {
            FarTurn::Line(text) => self.come_lines(1, text)?,
            FarTurn::Part(text) => self.come(text.as_bytes())?,
            FarTurn::Ends => self.other = Other::Ended,
            FarTurn::Many(count, text) => {
                self.come_lines(count, text)?;
                return Ok(Sign::NOTHING);
            }
            FarTurn::Takes(at_once, most) => {
                self.at_once = at_once;
                self.left = most;
                self.room = 0;
                return Ok(Sign::NOTHING);
            }
            FarTurn::Gives(count) => {
                self.gives = count;
                return Ok(Sign::NOTHING);
            }
            FarTurn::Gone => {
                self.other = Other::Gone;
                return Ok(Sign::BROKEN);
            }
        }
        Ok(Sign::READABLE)
    }

    /// The other end has its turn: what the worker is told of that.
    pub fn play(&mut self, turn: FarTurn<'_>) -> Result<Option<Readiness>, NoMemory> {
        let sign = self.turn(turn)?;
        Ok(self.readiness(sign))
    }

    fn is_dead(&self) -> bool {
        matches!(self.own, Own::JustClosed | Own::Closed) || matches!(self.other, Other::Gone)
    }

    /// The worker takes bytes that came.
    pub fn take(&mut self, buffer: &mut [u8]) -> Result<usize, Halt>
        ensures count { IfOk result (λ n. n ≤ length buffer.new) }
    {
        if self.is_dead() {
            return Err(Halt::Closed);
        }
        let bytes = self.input.as_bytes();
        let count = bytes.len().min(self.arrived).min(buffer.len());
        if count != 0 {
            buffer[..count].copy_from_slice(&bytes[..count]);
            self.input.take(count);
            self.arrived = self.arrived.saturating_sub(count);
            return Ok(count);
        }
        match self.other {
            Other::Ended if self.input.is_empty() => Err(Halt::Closed),
            _ => Err(Halt::Blocked),
        }
    }

    /// The worker sends bytes.
    pub fn put(&mut self, bytes: &[u8]) -> Result<usize, Halt>
        ensures count { IfOk result (λ n. n ≤ length bytes.now) }
    {
        if self.is_dead() {
            return Err(Halt::Closed);
        }
        let count = bytes.len().min(self.room);
        if count == 0 {
            return Err(Halt::Blocked);
        }
        if self.output.push(&bytes[..count]).is_err() {
            return Err(Halt::Closed);
        }
        self.room = self.room.saturating_sub(count);
        self.left = self.left.saturating_sub(count);
        Ok(count)
    }

    // Whether more of what the other end sent comes, all that had come being taken.
    fn brings_more(&mut self) -> bool {
        if self.arrived != 0 {
            return false;
        }
        self.arrived = self.gives.min(self.input.len());
        self.arrived != 0
    }

    // Whether the other end took what it takes at once, and takes more from now on.
    fn takes_more(&mut self) -> bool {
        if self.room != 0 {
            return false;
        }
        self.room = self.at_once.min(self.left);
        self.room != 0
    }

    /// What the worker is told once it has nothing to do: more comes, or the other end takes more.
    pub fn go_on(&mut self) -> Option<Readiness> {
        if self.is_dead() {
            return None;
        }
        let sign = Sign {
            is_readable: self.brings_more(),
            is_writable: self.takes_more(),
        };
        self.readiness(sign)
    }

    /// Tells what was sent over it since the last telling.
    pub fn tell_sent(&mut self, number: usize, out: &mut Vec<u8>) -> io::Result<()> {
        tell_texts(number, self.output.as_bytes(), out)?;
        self.output.take(usize::MAX);
        Ok(())
    }

    /// Tells what was sent over it, and whether the worker closed it, since the last telling.
    pub fn tell(&mut self, number: usize, out: &mut Vec<u8>) -> io::Result<()> {
        self.tell_sent(number, out)?;
        if matches!(self.own, Own::JustClosed) {
            self.own = Own::Closed;
            write!(out, "    {number} closed\n")?;
        }
        Ok(())
    }
}

/// Of a longer line so many bytes are printed.
const TOLD: usize = 40;

/// A line of more bytes is longer.
const LONG: usize = 200;

// Tells lines, and how often those are there that stand there several times in turn.
fn tell_texts(number: usize, texts: &[u8], out: &mut Vec<u8>) -> io::Result<()> {
    let mut last: &[u8] = b"";
    let mut times: u64 = 0;
    for text in texts.split(|byte| *byte == b'\n') {
        if text == last {
            times = times.saturating_add(1);
        } else {
            tell_text(number, last, times, out)?;
            last = text;
            times = 1;
        }
    }
    tell_text(number, last, times, out)
}

// Tells a line, which ends with a CR here, or bytes that end no line.
fn tell_text(number: usize, text: &[u8], times: u64, out: &mut Vec<u8>) -> io::Result<()> {
    let (mark, text) = match text {
        [] => return Ok(()),
        [line @ .., b'\r'] => (">", line),
        _ => (".", text),
    };
    write!(out, "    {number} {mark} ")?;
    tell_front(text, out)?;
    if times > 1 {
        write!(out, ", {times} times")?;
    }
    Ok(out.extend_from_slice(b"\n")?)
}

// Tells a text, or how a long one begins, and how many bytes it has.
fn tell_front(text: &[u8], out: &mut Vec<u8>) -> io::Result<()> {
    if text.len() <= LONG {
        return Ok(out.extend_from_slice(text)?);
    }
    if let Some(front) = text.get(..TOLD) {
        out.extend_from_slice(front)?;
    }
    write!(out, "… ({} bytes)", text.len())
}
