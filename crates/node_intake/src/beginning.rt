//! The node before its workers begin, and what each of them begins with.
ghost use Rattle.std.specs.Prelude.{◌≡◌};
ghost use Rattle.node_intake.specs.Fault as spec;
ghost use Rattle.shared_node.specs.Names.{IsNamed};

use crate::floors::put_floors;
use crate::intake::Intake;
use chat_change::Change;
use network_client::Port;
use node_events::ServeFault;
use operator_log::Log;
use shared_node::{Naming, NodeFault, Pass, SharedNode, Unnamed};
use std::alloc::{AllocError, Global};
use std::sync::Wait;
use std::thread::Threads;
use std::time::Clock;

/// What a worker begins with: its pass, and its port.
pub type Job<J, P> = (Pass<J>, P);

/// Begins a node of that name: puts the floors, and takes connections in from then on, on a thread of its own. It answers the
/// node, and a job for each of its passes.
pub fn begin_node<'a, J, R, P>(
    rt: &'a R,
    log: &Log,
    name: Unnamed,
    intake: Intake,
    ports: Vec<P>,
    floors: &[Change],
) -> Result<(SharedNode<J, &'a R>, Vec<Job<J, P>>), ServeFault>
where
    J: Naming,
    R: Threads + Wait + Clock + AllocGlobal + Copy + Send + Drop + 'static,
    P: Port,
    requires named { IsNamed J.book J.name J.parts name }
{
    match node_with::<J, R, P>(rt, log, name, ports, floors) {
        Ok((node, jobs)) => {
            intake.begin(rt)?;
            Ok((node, jobs))
        }
        Err(fault) => {
            drop(intake);
            Err(fault)
        }
    }
}

// The fault where what the node holds can't be shared among its workers.
fn fault_of_node(fault: NodeFault) -> ServeFault
    ensures { result ≡ spec.fault_of_node fault }
{
    match fault {
        NodeFault::NoMemory => ServeFault::NoMemory,
        NodeFault::BadCount => ServeFault::BadCount,
        NodeFault::NoReader => ServeFault::NoReader,
    }
}

// A node of that name, in which the floors are put, and a job for each of its passes.
fn node_with<'a, J, R, P>(
    rt: &'a R,
    log: &Log,
    name: Unnamed,
    ports: Vec<P>,
    floors: &[Change],
) -> Result<(SharedNode<J, &'a R>, Vec<Job<J, P>>), ServeFault>
where
    J: Naming,
    R: Wait + Clock + AllocGlobal + Drop,
    P: Port,
    requires { IsNamed J.book J.name J.parts name }
{
    let (node, mut passes) = match SharedNode::<J, &R>::new(rt.alloc(), rt, name) {
        Ok(made) => made,
        Err(fault) => return Err(fault_of_node(fault)),
    };
    if let Some(pass) = passes.first_mut() {
        put_floors(rt, log, &node, pass, floors)?;
    }
    let jobs = in_step(rt.alloc(), passes, ports)?;
    Ok((node, jobs))
}

// The first of each list, then the second of each, and so on. What the lists have is any type here, so the proof of this
// function has none of the parts that a pass or a port is let go by.
fn in_step<A: Drop, B: Drop>(
    alloc: Global,
    first: Vec<A>,
    second: Vec<B>,
) -> Result<Vec<(A, B)>, AllocError> {
    first.into_iter().zip(second).collect(alloc)
}
