//! What two passes that no worker has see once the workers have ended.
use chat_batch::{Facts, Identity};
use chat_change::Change;
use gossip_delta::{Delta, read_change, write_change};
use irc_caps::CapSet;
use irc_line::{TagLimit, read_line};
use shared_node::{Naming, Pass, SharedNode};
use std::alloc::Global;
use std::io::Write;
use std::sync::Wait;

// A line of an answer without its ending.
fn without_ending(line: &[u8]) -> Option<&str> {
    str::from_utf8(line).ok()?.strip_suffix("\r\n")
}

fn tell_line(name: &str, line: &[u8], told: &mut Vec<u8>) -> Option<()> {
    let text = without_ending(line)?;
    write!(told, "    {name} > {text}\n").ok()
}

// Asks for the marker of `#a` by that pass, and tells the answer.
fn tell_marker<J: Naming>(
    alloc: Global,
    name: &str,
    pass: &mut Pass<J>,
    told: &mut Vec<u8>,
) -> Option<()> {
    let identity = Identity {
        account: b"demo",
        network: b"net",
        nick: b"al",
    };
    let facts = Facts::new(alloc, identity, CapSet::all(), b"bnc.example", 100).ok()?;
    let line = read_line(b"MARKREAD #a", TagLimit::Client).ok()?;
    let mut answer = Vec::new(alloc);
    pass.ask(alloc, &facts, &line, &mut answer).ok()?;
    tell_line(name, &answer, told)
}

fn tell_delta(alloc: Global, name: &str, delta: &Delta, told: &mut Vec<u8>) -> Option<()> {
    write!(told, "    {name} to {}\n", delta.to()).ok()?;
    for change in delta.changes() {
        let mut line = Vec::new(alloc);
        write_change(change, &mut line).ok()?;
        tell_line(name, &line, told)?;
    }
    Some(())
}

fn marker_of(alloc: Global) -> Option<Change> {
    read_change(alloc, b"C MARK demo net #a 5000").ok()
}

// Puts a marker by the third pass, which asks for it. The fourth learns of it, asks for it too, and tells all that there is.
fn tell_of<J: Naming, R: Wait + Drop>(
    rt: &R,
    alloc: Global,
    node: &SharedNode<J, &R>,
    third: &mut Pass<J>,
    fourth: &mut Pass<J>,
    told: &mut Vec<u8>,
) -> Option<()> {
    let marker = marker_of(alloc)?;
    let receipt = node.put(rt, third, &[marker]).ok()?;
    tell_marker(alloc, "third", third, told)?;
    fourth.learn(&receipt);
    tell_marker(alloc, "fourth", fourth, told)?;
    let delta = fourth.delta(alloc, 0).ok()?;
    tell_delta(alloc, "fourth", &delta, told)
}

/// Tells what the third and the fourth pass see of a marker that the third one puts. Nothing where there are no two such
/// passes. None where a call is refused.
pub fn tell_others<J: Naming, R: Wait + Drop>(
    rt: &R,
    alloc: Global,
    node: &SharedNode<J, &R>,
    others: &mut [Pass<J>],
    told: &mut Vec<u8>,
) -> Option<()> {
    match others {
        [third, fourth] => tell_of(rt, alloc, node, third, fourth, told),
        _ => Some(()),
    }
}
