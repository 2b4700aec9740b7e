//! A script: its lines are read, and answered in turn.
ghost use Rattle.std.specs.Prelude.{◌≡◌, [], None, IfSome, OnOk, IfOk, IfErr, is_some};
ghost use Rattle.std.specs.Io.KnownBytes.{IsAtEnd};
ghost use Rattle.byte_text.specs.Writes.{Writes};
ghost use Rattle.irc_line.specs.Stream.{holding, items, next_item, held_without};
ghost use Rattle.chat_change.specs.Faults.{buffer_fault};
ghost use Rattle.bnc_server.specs.Script.{start, script, text_of};
ghost use Rattle.bnc_server.specs.World as worlds;
ghost use Rattle.bnc_server.specs.Ending.{Ends, IsReadBy, most_reads};
ghost use Rattle.bnc_server.specs.HeldNode.{held_world, WritesTextOf, Becomes, EndsBy};
ghost use Rattle.bnc_server.specs.Progress.{text_of_next, world_after_next, MayEndNext, IsDrained, ServesPiece, ServesAndSends};

use crate::fault::ReplayFault;
use crate::world::World;
use irc_line::{Feeder, Next};
use std::alloc::Global;
use std::io::{ErrorKind, Read, Write};

/// The most reads that are made.
const MOST_READS: u64 = 16_777_216;

// Answers one item of what the feeder holds, and says whether there was one.
fn serve_next<W: Write>(
    world: &mut World,
    feeder: &mut Feeder,
    alloc: Global,
    writer: &mut W,
) -> Result<bool, ReplayFault>
    ensures text { WritesTextOf W.contents writer.old writer.new result held_world world.old
        (text_of_next (next_item feeder.old)) }
    ensures world { Becomes result held_world world.old
        (world_after_next (next_item feeder.old)) world.new }
    ensures fault { EndsBy result held_world world.old
        (λ w. MayEndNext w (next_item feeder.old)) }
    ensures feeder { feeder.new ≡ held_without (next_item feeder.old) feeder.old }
    ensures some { IfOk result (λ more. more ≡ is_some (next_item feeder.old)) }
{
    match feeder.next_line() {
        Next::More => Ok(false),
        Next::TooLong => {
            world.serve_too_long(alloc, writer)?;
            Ok(true)
        }
        Next::Line(text) => {
            world.serve_line(alloc, text, writer)?;
            Ok(true)
        }
    }
}

// Answers each whole line that the feeder holds.
fn drain<W: Write>(
    world: &mut World,
    feeder: &mut Feeder,
    alloc: Global,
    writer: &mut W,
) -> Result<(), ReplayFault>
    ensures serves { ServesPiece W.contents writer.old writer.new result
        world.old feeder.old [] world.new feeder.new }
    ensures drained { OnOk result (IsDrained feeder.new) }
{
    'lines: while serve_next(world, feeder, alloc, writer)? {}
    Ok(())
}

// Answers the lines that end in a piece of the script.
fn feed_piece<W: Write>(
    world: &mut World,
    feeder: &mut Feeder,
    alloc: Global,
    piece: &[u8],
    writer: &mut W,
) -> Result<(), ReplayFault>
    requires drained { IsDrained feeder.old }
    ensures serves { ServesPiece W.contents writer.old writer.new result
        world.old feeder.old piece.now world.new feeder.new }
    ensures drained { OnOk result (IsDrained feeder.new) }
{
    let mut rest = piece;
    'feeds: while !rest.is_empty() {
        let n = feeder.feed(rest);
        rest = &rest[n..];
        drain(world, feeder, alloc, writer)?;
    }
    Ok(())
}

// Answers the lines that end in a piece of the script, and sends the answers on their way, so that whoever asked sees
// them before more is read.
fn serve_piece<W: Write>(
    world: &mut World,
    feeder: &mut Feeder,
    alloc: Global,
    piece: &[u8],
    writer: &mut W,
) -> Result<(), ReplayFault>
    requires drained { IsDrained feeder.old }
    ensures serves { ServesAndSends W.contents writer.old writer.new result
        world.old feeder.old piece.now world.new feeder.new }
    ensures drained { OnOk result (IsDrained feeder.new) }
{
    feed_piece(world, feeder, alloc, piece, writer)?;
    match writer.flush() {
        Ok(()) => Ok(()),
        Err(_) => Err(ReplayFault::Write),
    }
}

// Answers all that a reader gives, by the most reads at most. The feeder holds nothing yet.
fn replay_from<In: Read, Out: Write>(
    world: &mut World,
    feeder: &mut Feeder,
    alloc: Global,
    reader: &mut In,
    writer: &mut Out,
) -> Result<(), ReplayFault>
    requires { feeder.old ≡ holding [] }
    ensures script { (w : worlds.World) → world.old ≡ held_world w
        → IfSome (In.remaining reader.old) (λ input.
        Writes Out.contents writer.old writer.new result (text_of w (items input))) }
    ensures end { OnOk result (IsAtEnd (In.remaining reader.new)) }
    ensures reads { IsReadBy most_reads (In.remaining reader.old) (In.remaining reader.new) }
    ensures fault { EndsBy result held_world world.old
        (Ends (In.remaining reader.old) (In.remaining reader.new)
        (Out.contents writer.old) (Out.contents writer.new)) }
{
    let mut buffer = [0u8; 4096];
    'reads: for _ in 0..MOST_READS {
        match reader.read(&mut buffer) {
            Ok(0) => return Ok(()),
            Ok(n) => serve_piece(world, feeder, alloc, &buffer[..n], writer)?,
            Err(e) => {
                if e.kind() != ErrorKind::Interrupted {
                    return Err(ReplayFault::Read);
                }
            }
        }
    }
    Err(ReplayFault::Read)
}

/// Answers a script, which is read to its end by at most 16,777,216 reads. At `Ok` all that the script prints was
/// written, and after a fault a prefix of it.
///
/// The script is of nine nodes, `n1` to `n9`, which begin with nothing taken and know each other's lives. The client talks
/// to node 1 until a line selects another. Each node has a session of the account and the network of those names, and the
/// session's nick is a target. The network isn't up. Lines end with LF, and one CR before it is dropped; bytes behind the
/// last LF are ignored where they are fewer than 8703. What is printed are lines that end with CR LF:
///
/// - a line that begins with `C` and a space is taken by the selected node where it spells a change
///   (`gossip_delta::read_change`), and answered `% BadForm` or `% BadField` where it spells none;
/// - a line that begins with `%` is about nodes, which are `1` to `9`, and of a pair no node is both:
///   - `%2` selects node 2;
///   - `%1>2` makes a packet of node 1 for node 2 (`gossip_link::Link`), where there is anything that node 2 hasn't
///     acknowledged. Node 2 takes it, and node 1 takes the acknowledgement;
///   - `%1>2!` makes the packet and loses it;
///   - `%1>2-` has it taken and holds the acknowledgement back. The last one of each pair stays held, whatever comes;
///   - `%1<2` lets node 1 take the one that is held of node 2. A refusal prints `% WrongLife` or `% AckTooHigh`, and where
///     none is held nothing happens;
///   - `%2*` begins another life of node 2: nothing is taken, its session is new, and all nodes hear each other's hellos;
///   - any other is answered `% BadForm`;
/// - every other line, and one of too many bytes, goes to the selected node's session (`client_session::Session`), which is
///   registered and holds all capabilities. What it puts is taken by the node, and what it asks is answered by what the
///   node took (`chat_batch::answer`). Once it is closed nothing answers.
///
/// Fails with `NoMemory` for want of memory, with `Read` where the reader fails or has more after the most reads, or a
/// node can take no further change or begin no further life, and with `Write` where the writer fails.
/// The contract says in which item the script ended, or that all that was read was answered. That the reader or the writer
/// failed it can't say, since nothing in `Read` and `Write` tells that one has. Nor does anything there count reads: so the
/// contract says that no more bytes are read than so many reads give.
pub fn replay<In: Read, Out: Write>(
    alloc: Global,
    reader: &mut In,
    writer: &mut Out,
    account: &[u8],
    network: &[u8],
    nick: &[u8],
) -> Result<(), ReplayFault>
    requires names { buffer_fault account.now network.now nick.now ≡ None }
    ensures script { IfSome (In.remaining reader.old) (λ input.
        Writes Out.contents writer.old writer.new result
        (script input account.now network.now nick.now)) }
    ensures end { OnOk result (IsAtEnd (In.remaining reader.new)) }
    ensures reads { IsReadBy most_reads (In.remaining reader.old) (In.remaining reader.new) }
    ensures fault { IfErr result (Ends (In.remaining reader.old) (In.remaining reader.new)
        (Out.contents writer.old) (Out.contents writer.new)
        (start account.now network.now nick.now)) }
{
    let Ok(mut feeder) = Feeder::new(alloc) else {
        return Err(ReplayFault::NoMemory);
    };
    let Ok(mut world) = World::new(alloc, account, network, nick) else {
        return Err(ReplayFault::NoMemory);
    };
    replay_from(&mut world, &mut feeder, alloc, reader, writer)
}
