//! The run of a node over sockets: its name, its floors, and its workers, each on a thread of its own. What is made before, and
//! who takes connections in, is `node_intake`; what a worker does is `bnc_work`.
ghost use Rattle.shared_node.specs.Names.{IsNamed};
ghost use Rattle.bnc_work.specs.Site.{facts_of};
ghost use Rattle.bnc_work.specs.Settings.{AreSettingsOf};

use bnc_sockets::{Dialer, ports_of};
use bnc_work::{NodeSite, WorkEnd, WorkerConfig, work_all};
use node_intake::{Prepared, ServeFault, begin_node};
use operator_log::Log;
use shared_node::{Naming, Unnamed};
use std::marker::Brand;
use std::sync::Wait;
use std::thread::Threads;
use std::time::Clock;
use worker_pass::Gate;

// A gate that is always open.
#[derive(Drop)]
struct Open;

impl Gate for Open {
    fn before_answer(&self, _: usize) -> bool {
        true
    }
}

/// Runs a node of that name, which is to have a pass for each port, at a site of what never changes of it. The floors are put
/// first. Connections are taken in on a thread of its own, and each worker runs on one of its own. It answers how the workers
/// ended, once all have. A worker that ends makes the others end.
fn run_node<J, S, R, D>(
    rt: &R,
    log: &Log,
    prepared: Prepared<D>,
    name: Unnamed,
) -> Result<Vec<WorkEnd>, ServeFault>
where
    J: Naming + Send + Sync,
    S: NodeSite + Send + Sync,
    R: Threads + Wait + Clock + AllocGlobal + Copy + Send + Sync + Drop + 'static,
    D: Dialer + Send,
    requires named { IsNamed J.book J.name J.parts name }
    requires site { AreSettingsOf (facts_of S.settings) prepared.settings }
{
    let Prepared {
        intake,
        setups,
        settings,
        waiting,
        floors,
    } = prepared;
    let ports = ports_of::<S, R, D>(rt, setups)?;
    let (node, jobs) = begin_node::<J, _, _>(rt, log, name, intake, ports, &floors)?;
    let config = WorkerConfig {
        settings: &settings,
        waiting,
    };
    Ok(work_all(rt, &node, config, jobs, &Open)?)
}

/// Runs a node as [`run_node`] does, under a name that no other node of the program has.
pub(crate) fn run_prepared<R, D>(
    rt: &R,
    log: &Log,
    prepared: Prepared<D>,
) -> Result<Vec<WorkEnd>, ServeFault>
where
    R: Threads + Wait + Clock + AllocGlobal + Copy + Send + Sync + Drop + 'static,
    D: Dialer + Send,
{
    let name = Unnamed::new(prepared.setups.len());
    run_node::<Brand, Brand, R, D>(rt, log, prepared, name)
}
