//! The work of one worker, and of all of a node, each on a thread of its own.
ghost use Rattle.std.specs.Prelude.{◌≡◌};
ghost use Rattle.bnc_work.specs.Settings.{AreSettingsOf};

use crate::clock::read_time;
use crate::worker::Worker;
use crate::worker_config::{WorkEnd, WorkerConfig};
use byte_text::NoMemory;
use network_client::Port;
use node_events::{StartFault, each_in_a_thread};
use shared_node::{Ends, Naming, NodeTaker, Pass, SharedNode};
use std::sync::Wait;
use std::thread::Threads;
use worker_pass::{Gate, Witness, WorkPass, WorkerPass};

/// Serves the connections of the port as worker `worker` of those that the port counts, until the gate shuts or the port ends or
/// fails. Where there is no memory to begin, or the clocks aren't read, that is a failure too.
///
/// It serves the networks that fall to its number, with their servers, to which it connects, and their clients; clients that come and
/// aren't registered yet; and, as worker 0, the node's peers.
pub fn work<J, R, W, P, G>(
    rt: &W,
    worker: usize,
    node: &SharedNode<J, R>,
    pass: Pass<J>,
    config: WorkerConfig<'_>,
    port: P,
    gate: &G,
) -> WorkEnd
where
    J: Naming,
    R: Ends,
    W: Wait + AllocGlobal,
    P: Port,
    P::Connection: Witness<J>,
    G: Gate,
    requires { AreSettingsOf P.Connection.facts config.settings.now }
{
    let taker = NodeTaker::new(node, pass, rt);
    let pass = WorkerPass::new(rt.alloc(), taker, gate, worker, config.settings.retain_days);
    match try_work(rt, worker, config, port, pass) {
        Ok(end) => end,
        Err(NoMemory) => WorkEnd::Failed,
    }
}

// Serves as [`work`] does, and tells where there is no memory to begin.
fn try_work<W, P, N>(
    rt: &W,
    worker: usize,
    config: WorkerConfig<'_>,
    port: P,
    pass: N,
) -> Result<WorkEnd, NoMemory>
where
    W: Wait + AllocGlobal,
    P: Port,
    N: WorkPass<Connection = P::Connection>,
    requires own { AreSettingsOf P.Connection.facts config.settings.now }
    requires given { N.given pass ≡ 0 }
{
    let mut port = port;
    let Some(time) = read_time(&mut port) else {
        return Ok(WorkEnd::Failed);
    };
    let mut worker = Worker::new(rt.alloc(), worker, config, port, pass, time)?;
    worker.begin();
    for _ in rt.forever() {
        if let Err(end) = worker.turn() {
            return Ok(end);
        }
    }
    unreachable!()
}

/// Runs [`work`] for each pass and port, as worker 0, 1, .. in the list's order, each on a thread of its own, and answers their ends in
/// that order. Where a worker has no memory to begin, that is a fault, told once the others have ended.
pub fn work_all<J, R, W, P, G>(
    rt: &W,
    node: &SharedNode<J, R>,
    config: WorkerConfig<'_>,
    all: Vec<(Pass<J>, P)>,
    gate: &G,
) -> Result<Vec<WorkEnd>, StartFault>
where
    J: Naming + Send + Sync,
    R: Ends + Send + Sync,
    W: Threads + Wait + AllocGlobal + Sync,
    P: Port + Send,
    P::Connection: Witness<J> + Send,
    G: Gate,
    requires { AreSettingsOf P.Connection.facts config.settings.now }
{
    let settings = config.settings;
    let waiting = &config.waiting;
    each_in_a_thread(
        rt,
        all,
        &|worker: usize, pass: Pass<J>, port: P| -> Result<WorkEnd, NoMemory>
            requires { AreSettingsOf P.Connection.facts settings.now }
        {
            let config = WorkerConfig {
                settings,
                waiting: waiting.try_clone()?,
            };
            let taker = NodeTaker::new(node, pass, rt);
            let days = settings.retain_days;
            let pass = WorkerPass::new(rt.alloc(), taker, gate, worker, days);
            try_work(rt, worker, config, port, pass)
        },
    )
}
