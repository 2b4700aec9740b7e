//! Writing lines of a peer. Nothing here takes memory, and all of it fails only where its writer does.
ghost use Rattle.std.specs.Prelude.{◌++◌, map, codes};
ghost use Rattle.std.specs.Fmt.{decimal};
ghost use Rattle.std.specs.List.{flat_map};
ghost use Rattle.byte_text.specs.Writes.{Writes};
ghost use Rattle.peer_lines.specs.Packet as parts;
ghost use Rattle.peer_lines.specs.Spelling.{written, packet_text};
ghost use Rattle.peer_lines.specs.WrittenParts.{life_text, lives_text, numbers_text};

use crate::packet::{Ack, Packet};
use crate::peer_line::PeerLine;
use byte_text::put;
use change_lines::write_change;
use chat_change::Change;
use cluster_directory::{Life, Version};
use std::io;
use std::io::Write;

fn put_number<W: Write>(writer: &mut W, n: u64) -> io::Result<()>
    ensures { Writes W.contents writer.old writer.new result (decimal n) }
{
    let mut buffer = itoa::Buffer::new();
    put(writer, buffer.format(n).as_bytes())
}

// A space, and the number behind it.
fn put_next_number<W: Write>(writer: &mut W, n: u64) -> io::Result<()>
    ensures { Writes W.contents writer.old writer.new result (codes " " ++ decimal n) }
{
    put(writer, b" ")?;
    put_number(writer, n)
}

// A space, and the life behind it.
fn put_next_life<W: Write>(writer: &mut W, life: &Life) -> io::Result<()>
    ensures { Writes W.contents writer.old writer.new result (life_text life.now) }
{
    put(writer, b" ")?;
    put(writer, life.node().as_bytes())?;
    put_next_number(writer, life.incarnation())
}

// The first word of a line, and two lives behind it.
fn put_lives<W: Write>(
    writer: &mut W,
    kind: &[u8],
    sender: &Life,
    receiver: &Life,
) -> io::Result<()>
    ensures { Writes W.contents writer.old writer.new result
        (lives_text kind.now sender.now receiver.now) }
{
    put(writer, kind)?;
    put_next_life(writer, sender)?;
    put_next_life(writer, receiver)
}

// The numbers of a head, and the ending of its line.
fn put_numbers<W: Write>(writer: &mut W, from: u64, to: u64, count: u64) -> io::Result<()>
    ensures { Writes W.contents writer.old writer.new result (numbers_text from to count) }
{
    put_next_number(writer, from)?;
    put_next_number(writer, to)?;
    put_next_number(writer, count)?;
    put(writer, b"\r\n")
}

fn put_head<W: Write>(packet: &Packet, writer: &mut W) -> io::Result<()>
    ensures { Writes W.contents writer.old writer.new result
        (written (PeerLine.Head (parts.head_of packet.now))) }
{
    put_lives(writer, b"D", packet.sender(), packet.receiver())?;
    let count = packet.changes().len() as u64;
    put_numbers(writer, packet.from(), packet.to(), count)
}

fn put_changes<W: Write>(changes: &[Change], writer: &mut W) -> io::Result<()>
    ensures { Writes W.contents writer.old writer.new result
        (flat_map written (map PeerLine.Change changes.now)) }
{
    for change in changes {
        write_change(change, writer)?;
    }
    Ok(())
}

/// Writes a packet: the line of its head, and a line for each change.
pub fn write_packet<W: Write>(packet: &Packet, writer: &mut W) -> io::Result<()>
    ensures { Writes W.contents writer.old writer.new result (packet_text packet.now) }
{
    put_head(packet, writer)?;
    put_changes(packet.changes(), writer)
}

/// Writes the line of an acknowledgement.
pub fn write_ack<W: Write>(ack: &Ack, writer: &mut W) -> io::Result<()>
    ensures { Writes W.contents writer.old writer.new result (written (PeerLine.Ack ack.now)) }
{
    put_lives(writer, b"A", ack.sender(), ack.receiver())?;
    put_next_number(writer, ack.upto())?;
    put(writer, b"\r\n")
}

/// Writes the line of a hello of a life, in a version.
pub fn write_hello<W: Write>(life: &Life, version: Version, writer: &mut W) -> io::Result<()>
    ensures { Writes W.contents writer.old writer.new result
        (written (PeerLine.Hello life.now version)) }
{
    put(writer, b"H")?;
    put_next_number(writer, u64::from(version.number()))?;
    put_next_life(writer, life)?;
    put(writer, b"\r\n")
}

/// Writes the line of the word that the nodes share.
pub fn write_word<W: Write>(word: &[u8], writer: &mut W) -> io::Result<()>
    ensures { Writes W.contents writer.old writer.new result (written (PeerLine.Word word.now)) }
{
    put(writer, b"W ")?;
    put(writer, word)?;
    put(writer, b"\r\n")
}
