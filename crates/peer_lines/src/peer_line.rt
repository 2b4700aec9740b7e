//! Lines of a peer, and how they are read.
ghost use Rattle.std.specs.Prelude.{◌≡◌, true, IfOk};
ghost use Rattle.std.specs.Option.{option_map};
ghost use Rattle.cluster_directory.specs.Names as names;
ghost use Rattle.peer_lines.specs.Fields.{life_value};
ghost use Rattle.peer_lines.specs.Reading as spec;
ghost use Rattle.peer_lines.specs.LineReading as reading;

use crate::fields::{AckFields, HeadFields, HelloFields, LifeFields, ack_at, head_at, hello_at};
use crate::packet::{Ack, Head};
use byte_text::NoMemory;
use change_lines::{ChangeLineFault, is_text, read_change_in, split_word};
use chat_change::{Buffer, Change};
use cluster_directory::{Life, LinkFault, NodeName, SharedWord, Version, is_shared_word};
use std::alloc::Global;

/// A line of a peer.
#[derive(Drop)]
pub enum PeerLine {
    /// `W <word>`: the word that the nodes share, the first line of a connection.
    Word(SharedWord),
    /// `H <version> <node> <inc>`: a hello, which says the life of its sender, and which version it speaks.
    Hello(Life, Version),
    /// `D <node> <inc> <node> <inc> <from> <to> <count>`: the head of a packet, from one life to another. So many changes
    /// follow, a line each.
    Head(Head),
    /// `C ..`: a change of the packet whose head came last.
    Change(Change),
    /// `A <node> <inc> <node> <inc> <upto>`: an acknowledgement, from one life to another.
    Ack(Ack),
}

// The life of fields of which the first is a name.
fn made_life(alloc: Global, life: LifeFields<'_>) -> Result<Life, NoMemory>
    requires { names.is_node_name life.node.now ≡ true }
    ensures { IfOk result (λ made. made ≡ life_value life.entry) }
{
    let node = NodeName::of_name(alloc, life.node)?;
    Ok(Life::new(node, life.incarnation))
}

// The lives of a sender and of a receiver.
fn made_lives(
    alloc: Global,
    sender: LifeFields<'_>,
    receiver: LifeFields<'_>,
) -> Result<(Life, Life), NoMemory>
    requires sender { names.is_node_name sender.node.now ≡ true }
    requires receiver { names.is_node_name receiver.node.now ≡ true }
    ensures sender { IfOk result (λ made. made.0 ≡ life_value sender.entry) }
    ensures receiver { IfOk result (λ made. made.1 ≡ life_value receiver.entry) }
{
    let sender = made_life(alloc, sender)?;
    let receiver = made_life(alloc, receiver)?;
    Ok((sender, receiver))
}

fn read_word(alloc: Global, bytes: &[u8]) -> Result<PeerLine, LinkFault>
    ensures { reading.IsAnswer (option_map PeerLine.Word (spec.word_at bytes.now)) result }
{
    match SharedWord::new(alloc, bytes) {
        Ok(word) => Ok(PeerLine::Word(word)),
        Err(fault) => Err(fault),
    }
}

fn read_hello(alloc: Global, bytes: &[u8]) -> Result<PeerLine, LinkFault>
    ensures { reading.IsAnswer (option_map reading.hello_line (spec.hello_at bytes.now)) result }
{
    let Some(hello) = hello_at(bytes) else {
        return Err(LinkFault::BadForm);
    };
    match made_life(alloc, hello.life) {
        Ok(life) => Ok(PeerLine::Hello(life, hello.version)),
        Err(NoMemory) => Err(LinkFault::NoMemory),
    }
}

fn read_head(alloc: Global, bytes: &[u8]) -> Result<PeerLine, LinkFault>
    ensures { reading.IsAnswer (option_map PeerLine.Head (spec.head_at bytes.now)) result }
{
    let Some(head) = head_at(bytes) else {
        return Err(LinkFault::BadForm);
    };
    match made_lives(alloc, head.sender, head.receiver) {
        Ok((sender, receiver)) => Ok(PeerLine::Head(Head {
            sender,
            receiver,
            from: head.from,
            to: head.to,
            count: head.count,
        })),
        Err(NoMemory) => Err(LinkFault::NoMemory),
    }
}

fn read_ack(alloc: Global, bytes: &[u8]) -> Result<PeerLine, LinkFault>
    ensures { reading.IsAnswer (option_map PeerLine.Ack (spec.ack_at bytes.now)) result }
{
    let Some(ack) = ack_at(bytes) else {
        return Err(LinkFault::BadForm);
    };
    match made_lives(alloc, ack.sender, ack.receiver) {
        Ok((sender, receiver)) => Ok(PeerLine::Ack(Ack::new(sender, receiver, ack.upto))),
        Err(NoMemory) => Err(LinkFault::NoMemory),
    }
}

fn read_change_line(
    alloc: Global,
    known: Option<&Buffer>,
    bytes: &[u8],
) -> Result<PeerLine, LinkFault>
    ensures { reading.IsAnswer (reading.change_at bytes.now) result }
{
    match read_change_in(alloc, known, bytes) {
        Ok(change) => Ok(PeerLine::Change(change)),
        Err(ChangeLineFault::BadForm) => Err(LinkFault::BadForm),
        Err(ChangeLineFault::BadField) => Err(LinkFault::BadForm),
        Err(ChangeLineFault::NoMemory) => Err(LinkFault::NoMemory),
    }
}

// The line of the first word, of all bytes and of those behind that word.
fn read_kind(
    alloc: Global,
    known: Option<&Buffer>,
    kind: &[u8],
    bytes: &[u8],
    rest: &[u8],
) -> Result<PeerLine, LinkFault>
    ensures { reading.IsAnswer (reading.line_of_kind kind.now bytes.now rest.now) result }
{
    if is_text(kind, b"W") {
        read_word(alloc, rest)
    } else if is_text(kind, b"H") {
        read_hello(alloc, rest)
    } else if is_text(kind, b"D") {
        read_head(alloc, rest)
    } else if is_text(kind, b"A") {
        read_ack(alloc, rest)
    } else {
        read_change_line(alloc, known, bytes)
    }
}

/// The line that these bytes spell. They stand without the line's ending, LF or CR LF.
///
/// Refused with [`LinkFault::BadForm`] exactly where they spell none: each line has one spelling. Want of memory is
/// answered only of bytes that spell a line.
pub fn read_peer(alloc: Global, bytes: &[u8]) -> Result<PeerLine, LinkFault>
    ensures { reading.IsReading bytes.now result }
{
    read_peer_in(alloc, None, bytes)
}

/// The same, with a buffer that is known already ([`Gather::latest_buffer`](crate::Gather::latest_buffer)). A change of that
/// buffer gets a clone of it, which shares its memory. What is answered doesn't depend on it.
pub fn read_peer_in(
    alloc: Global,
    known: Option<&Buffer>,
    bytes: &[u8],
) -> Result<PeerLine, LinkFault>
    ensures { reading.IsReading bytes.now result }
{
    let (kind, rest) = split_word(bytes);
    read_kind(alloc, known, kind, bytes, rest)
}
