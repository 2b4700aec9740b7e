//! Lines of 100 bytes, which are cut out of a stream and read.
ghost use Rattle.std.specs.Prelude.{◌<◌};

use irc_line::{Feeder, Line, Next, TagLimit, read_line};
use std::alloc::Global;
use std::time::{Duration, Instant};

/// A line of 100 bytes with its ending.
const LINE: &[u8] =
    b"@time=1970-01-01T00:00:01.000Z :bob!bob@host.example PRIVMSG #channel :how are you all this summer\r\n";

/// How many lines stand in the block that is fed again and again.
const BLOCK_LINES: usize = 1_000;

fn block(alloc: Global) -> Option<Vec<u8>> {
    let mut bytes = Vec::new(alloc);
    for _ in 0..BLOCK_LINES {
        bytes.extend_from_slice(LINE).ok()?;
    }
    Some(bytes)
}

fn parameter_bytes(line: &Line<'_>) -> u64 {
    let mut bytes = 0u64;
    for parameter in line.parameters() {
        bytes = bytes.wrapping_add(parameter.len() as u64);
    }
    bytes
}

/// The bytes of a line's parameters, where it can be read. It stands apart from the loop, so that its locals cost nothing
/// where no line comes.
#[inline(never)]
fn read_bytes(text: &[u8]) -> u64 {
    match read_line(text, TagLimit::Server) {
        Ok(line) => parameter_bytes(&line),
        Err(_) => 0,
    }
}

/// The bytes of the parameters of the lines that are there.
fn take_lines(feeder: &mut Feeder) -> u64 {
    let mut bytes = 0u64;
    for _ in 0..u64::MAX {
        match feeder.next_line() {
            Next::Line(text) => bytes = bytes.wrapping_add(read_bytes(text)),
            Next::TooLong => {}
            Next::More => return bytes,
        }
    }
    bytes
}

/// Feeds a block in pieces that are no longer than the room of a feeder that holds no line.
fn feed_block(feeder: &mut Feeder, block: &[u8], size: usize) -> u64
    requires { 0 < size }
{
    let mut bytes = 0u64;
    for piece in block.chunks(size) {
        let taken = feeder.feed(piece);
        bytes = bytes.wrapping_add(take_lines(feeder));
        let _ = feeder.feed(&piece[taken..]);
        bytes = bytes.wrapping_add(take_lines(feeder));
    }
    bytes
}

/// How long it takes to feed a block so many times, and the bytes of the lines' parameters.
fn timed(
    rt: &HostRuntime,
    feeder: &mut Feeder,
    block: &[u8],
    size: u64,
    count: u64,
) -> Option<(Duration, u64)> {
    let size = usize::try_from(size).unwrap_or(1).max(1);
    let start = Instant::now(rt).ok()?;
    let mut total = 0u64;
    for _ in 0..count {
        total = total.wrapping_add(feed_block(feeder, block, size));
    }
    Some((start.elapsed(rt).ok()?, total))
}

/// Reads the block `count` times in pieces of that many bytes, and counts the bytes of the lines' parameters.
pub fn read_lines(
    rt: &HostRuntime,
    alloc: Global,
    size: u64,
    count: u64,
) -> Option<(Duration, u64)> {
    let block = block(alloc)?;
    let mut feeder = Feeder::new(alloc).ok()?;
    timed(rt, &mut feeder, &block, size, count)
}
