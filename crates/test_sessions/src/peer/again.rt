//! Calls of a link and of a gather that are refused memory, and made again. A node n1 makes a packet for n2, which holds
//! nothing. n2 gathers the packet's lines, takes the changes and acknowledges them. Told are the packet's lines and the
//! acknowledgement.
//!
//! Before a call is made again it is looked at what stands: of a packet that wasn't made nothing was sent, of one that wasn't
//! taken the state holds the first changes, and a gather takes a whole packet. A line with `but` tells where it isn't so.
use super::node::link_word;
use anyhow::Error;
use chat_change::Change;
use chat_state::State;
use gossip_delta::{delta_since, write_change};
use gossip_link::{
    Ack, Arrived, Gather, Link, LinkFault, Packet, PeerLine, read_peer, write_ack, write_packet,
};
use std::alloc::Global;
use std::io;

// What wasn't sent can't be acknowledged.
fn make(
    alloc: Global,
    link: &mut Link,
    state: &mut State,
    ack: &PeerLine,
    out: &mut Vec<u8>,
) -> Result<Option<Packet>, Error> {
    if let Ok(made) = link.make(alloc, state) {
        return Ok(made);
    }
    if link_word(link, ack) != b"too high".as_slice() {
        out.extend_from_slice(b"but it was sent\n")?;
    }
    Ok(link.make(alloc, state)?)
}

/// Appends a packet, if there is one.
pub fn tell_packet(packet: &Option<Packet>, out: &mut Vec<u8>) -> Result<(), Error> {
    match packet {
        Some(packet) => Ok(write_packet(packet, out)?),
        None => Ok(out.extend_from_slice(b"nothing")?),
    }
}

// The lines of the packet that n1 makes.
fn made_lines(
    alloc: Global,
    link: &mut Link,
    state: &mut State,
    ack: &PeerLine,
    out: &mut Vec<u8>,
) -> Result<Vec<u8>, Error> {
    let packet = make(alloc, link, state, ack, out)?;
    let mut lines = Vec::new(alloc);
    let told = tell_packet(&packet, &mut lines);
    drop(packet);
    told?;
    Ok(lines)
}

// A line that isn't read for want of memory is read again, three times at most.
fn line_of(alloc: Global, line: &[u8]) -> Result<PeerLine, LinkFault> {
    for _ in 0..3u8 {
        if let Ok(line) = read_peer(alloc, line) {
            return Ok(line);
        }
    }
    read_peer(alloc, line)
}

// What arrives with one of the lines.
fn push_all(
    alloc: Global,
    gather: &mut Gather,
    lines: &[u8],
) -> Result<Option<Arrived>, LinkFault> {
    for line in lines.split(|b| *b == b'\n') {
        if let [text @ .., b'\r'] = line {
            let arrived = gather.push(alloc, line_of(alloc, text)?)?;
            if arrived.is_some() {
                return Ok(arrived);
            }
        }
    }
    Ok(None)
}

// What arrives with these lines. A gather that was refused is empty, so that the whole packet arrives.
fn arrived_of(alloc: Global, lines: &[u8]) -> Result<Option<Arrived>, LinkFault> {
    let mut gather = Gather::new();
    match push_all(alloc, &mut gather, lines) {
        Ok(arrived) => Ok(arrived),
        Err(_) => push_all(alloc, &mut gather, lines),
    }
}

fn write_changes(changes: &[Change], out: &mut Vec<u8>) -> io::Result<()> {
    for change in changes {
        write_change(change, out)?;
    }
    Ok(())
}

fn write_held(alloc: Global, state: &State, out: &mut Vec<u8>) -> Result<(), Error> {
    out.clear();
    let delta = delta_since(alloc, state, 0)?;
    Ok(write_changes(delta.changes(), out)?)
}

// What a state holds. It is asked again where it is refused too, twice at most.
fn held_by(alloc: Global, state: &State) -> Result<Vec<u8>, Error> {
    let mut held = Vec::new(alloc);
    for _ in 0..2u8 {
        if write_held(alloc, state, &mut held).is_ok() {
            return Ok(held);
        }
    }
    write_held(alloc, state, &mut held)?;
    Ok(held)
}

// A packet that was refused before the state was asked leaves it empty; else the first changes of these lines are held.
fn check_part(
    alloc: Global,
    fault: LinkFault,
    lines: &[u8],
    state: &State,
    out: &mut Vec<u8>,
) -> Result<(), Error> {
    let held = held_by(alloc, state)?;
    let is_right = match fault {
        LinkFault::NoMemory => held.is_empty(),
        _ => lines.starts_with(&held),
    };
    if !is_right {
        out.extend_from_slice(b"but other changes are held\n")?;
    }
    Ok(())
}

fn take(
    alloc: Global,
    peer: &Link,
    packet: &Packet,
    state: &mut State,
    out: &mut Vec<u8>,
) -> Result<Ack, Error> {
    let mut lines = Vec::new(alloc);
    write_changes(packet.changes(), &mut lines)?;
    match peer.take_packet(alloc, packet, state) {
        Ok(ack) => return Ok(ack),
        Err(fault) => check_part(alloc, fault, &lines, state, out)?,
    }
    Ok(peer.take_packet(alloc, packet, state)?)
}

// n2, which holds nothing, takes a packet and acknowledges it.
fn tell_taken(alloc: Global, peer: &Link, packet: &Packet, out: &mut Vec<u8>) -> Result<(), Error> {
    let mut state = State::new(alloc);
    let ack = take(alloc, peer, packet, &mut state, out)?;
    Ok(write_ack(&ack, out)?)
}

fn tell_arrived(alloc: Global, arrived: &Option<Arrived>, out: &mut Vec<u8>) -> Result<(), Error> {
    let Some(Arrived::Packet(packet)) = arrived else {
        return Ok(out.extend_from_slice(b"no packet arrived\n")?);
    };
    write_packet(packet, out)?;
    let me = packet.receiver().try_clone(alloc)?;
    let peer = Link::new(me, packet.sender().node().try_clone(alloc)?);
    tell_taken(alloc, &peer, packet, out)
}

/// A node makes a packet, and its peer takes it. `ack` is the acknowledgement of all that the node holds.
pub fn carry(
    alloc: Global,
    link: &mut Link,
    state: &mut State,
    ack: &PeerLine,
    out: &mut Vec<u8>,
) -> Result<(), Error> {
    let lines = made_lines(alloc, link, state, ack, out)?;
    let arrived = arrived_of(alloc, &lines)?;
    tell_arrived(alloc, &arrived, out)
}
