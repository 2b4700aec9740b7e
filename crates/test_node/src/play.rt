//! Plays the rows.
ghost use Rattle.shared_node.specs.Names.{IsNamed};

use crate::asks::facts;
use crate::fault::RowFault;
use crate::growth::{REFUSALS, put_markers_on_half};
use crate::rows::{LONG, Play, SHORT};
use crate::steps::Cluster;
use crate::threads::puts_beside_asks;
use chat_batch::Facts;
use shared_node::laws::WritingHalf;
use shared_node::{Ends, Naming, Pass, SharedNode, Unnamed};
use std::alloc::Global;
use std::marker::Brand;
use std::sync::Wait;
use std::thread::Threads;

type Node<'a, J, R> = SharedNode<J, &'a R>;

/// How many changes were put, where these are all passes of the node.
fn total_of<J: Naming, R: Wait>(
    node: Node<'_, J, R>,
    passes: Vec<Pass<J>>,
) -> Result<u64, RowFault> {
    match node.close(passes) {
        Ok((half, _)) => Ok(half.total()),
        Err(_) => Err(RowFault::NotClosed),
    }
}

/// The same, where these are all passes but one.
fn total_with<J: Naming, R: Wait>(
    node: Node<'_, J, R>,
    mut passes: Vec<Pass<J>>,
    pass: Pass<J>,
) -> Result<u64, RowFault> {
    match passes.push(pass) {
        Ok(()) => total_of(node, passes),
        Err(_) => Err(RowFault::NoMemory),
    }
}

/// A node isn't closed where a pass is missing. Then it counts what all of them put.
fn close<J: Naming, R: Wait>(
    node: Node<'_, J, R>,
    mut passes: Vec<Pass<J>>,
) -> Result<u64, RowFault> {
    let Some(pass) = passes.pop() else {
        return Err(RowFault::NoPass);
    };
    match node.close(passes) {
        Ok(_) => Err(RowFault::NotClosed),
        Err((node, passes)) => total_with(node, passes, pass),
    }
}

// The first pass puts three markers on what stood under the lock of a node, and it is counted what was put.
fn put_on_half<J: Naming, H: Ends, W: Wait>(
    rt: &W,
    alloc: Global,
    facts: &Facts,
    half: &mut WritingHalf<J, H>,
    passes: &mut [Pass<J>],
) -> Result<u64, RowFault> {
    let Some(pass) = passes.first_mut() else {
        return Err(RowFault::NoPass);
    };
    let _ = put_markers_on_half(rt, half, alloc, facts, pass, 3)?;
    Ok(half.total())
}

fn play_half<J: Naming, R: Wait>(
    rt: &R,
    alloc: Global,
    facts: &Facts,
    node: Node<'_, J, R>,
    passes: Vec<Pass<J>>,
) -> Result<u64, RowFault> {
    match node.close(passes) {
        Ok((mut half, mut passes)) => {
            put_on_half(rt, alloc, facts, &mut half, passes.as_mut_slice())
        }
        Err(_) => Err(RowFault::NotClosed),
    }
}

// Plays on a node that stays open.
fn play_open<J: Naming + Send + Sync, R: Threads + Wait + Sync>(
    cluster: &mut Cluster<'_, J, R>,
    play: Play,
) -> Result<(), RowFault> {
    match play {
        Play::Half => Ok(()),
        Play::Steps(steps) => cluster.play_steps(steps),
        Play::Threads => puts_beside_asks(cluster),
    }
}

fn play_on<J: Naming + Send + Sync, R: Threads + Wait + Sync>(
    mut cluster: Cluster<'_, J, R>,
    play: Play,
) -> Result<u64, RowFault> {
    play_open(&mut cluster, play)?;
    let Cluster {
        rt,
        alloc,
        facts,
        node,
        passes,
    } = cluster;
    match play {
        Play::Half => play_half(rt, alloc, facts, node, passes),
        _ => close(node, passes),
    }
}

// Plays on a new node, and says how many changes were put.
fn play<J: Naming + Send + Sync, R: Threads + Wait + AllocGlobal + Sync>(
    rt: &R,
    name: Unnamed,
    play: Play,
) -> Result<u64, RowFault>
    requires { IsNamed J.book J.name J.parts name }
{
    let alloc = rt.alloc();
    let facts = facts(alloc).ok_or(RowFault::NoMemory)?;
    let (node, passes) = SharedNode::<J, &R>::new(alloc, rt, name)?;
    let cluster = Cluster {
        rt,
        alloc,
        facts: &facts,
        node,
        passes,
    };
    play_on(cluster, play)
}

// Plays on a new node of so many passes.
fn play_anew<R: Threads + Wait + AllocGlobal + Sync>(
    rt: &R,
    passes: usize,
    row: Play,
) -> Result<u64, RowFault> {
    play::<Brand, R>(rt, Unnamed::new(passes), row)
}

// Plays again on a new node where a row ended for want of memory.
fn play_again<R: Threads + Wait + AllocGlobal + Sync>(
    rt: &R,
    passes: usize,
    row: Play,
) -> Result<u64, RowFault> {
    for _ in 0..REFUSALS {
        match play_anew(rt, passes, row) {
            Err(RowFault::NoMemory) => {}
            played => return played,
        }
    }
    play_anew(rt, passes, row)
}

#[test]
fn short_rows_come_to_their_totals(rt: HostRuntime) {
    for (name, passes, row, total) in SHORT {
        assert_eq!(rt; play_again(&rt, passes, row), Ok(total), "{name}");
    }
}

#[test]
fn long_rows_come_to_their_totals(rt: HostRuntime) {
    for (name, passes, row, total) in LONG {
        assert_eq!(rt; play_anew(&rt, passes, row), Ok(total), "{name}");
    }
}

#[test]
fn a_node_has_1_to_64_passes(rt: HostRuntime) {
    for passes in [0, 65] {
        let refused = play_anew(&rt, passes, Play::Steps(&[]));
        assert!(rt; matches!(refused, Err(RowFault::BadCount)));
    }
}
