//! Plays one case.
ghost use Rattle.std.specs.Prelude.{◌≡◌};
ghost use Rattle.shared_node.specs.Names.{IsNamed};
ghost use Rattle.bnc_work.specs.Site.{settings_of};

use crate::entrance::PlaceGiver;
use crate::gate::Latch;
use crate::lists::{in_step, with_one};
use crate::others::tell_others;
use crate::port::{MemoryPort, PortOf};
use crate::post::Post;
use crate::{WorkerCase, node_settings};
use bnc_work::{NodeSettings, NodeSite, WaitingClients, WorkEnd, WorkerConfig, work_all};
use shared_node::{Naming, Pass, SharedNode, Unnamed};
use std::alloc::Global;
use std::io;
use std::marker::Brand;
use std::sync::Wait;
use std::thread::Threads;
use std::time::Clock;

// Puts so many posts by the first pass.
fn put_posts<J: Naming, R: Wait + Drop>(
    rt: &R,
    alloc: Global,
    node: &SharedNode<J, &R>,
    passes: &mut [Pass<J>],
    count: u64,
) -> Option<()> {
    let pass = passes.first_mut()?;
    let changes = node_settings::posts(alloc, count)?;
    node.put(rt, pass, changes.as_slice()).ok()?;
    Some(())
}

// So many workers play a case.
fn workers_of(case: WorkerCase<'_>) -> usize {
    case.script.split("--\n").count()
}

// The ports of the workers, on each of which a part of the script is played.
fn ports_of<S: NodeSite, R: Wait + Clock + Copy + Drop>(
    rt: R,
    alloc: Global,
    case: WorkerCase<'_>,
    waiting: &WaitingClients,
) -> Option<Vec<PortOf<S, R>>> {
    let WorkerCase {
        setting,
        script,
        ..
    } = case;
    let posts = Post::all(alloc, workers_of(case))?;
    let mut ports = Vec::new(alloc);
    for ((worker, post), part) in posts.into_iter().enumerate().zip(script.split("--\n")) {
        let entrance = PlaceGiver::new(alloc, worker, setting.places, waiting)?;
        let port = MemoryPort::new(rt, alloc, setting, entrance, post, part);
        ports = with_one(ports, port)?;
    }
    Some(ports)
}

fn name_of(end: WorkEnd) -> &'static str {
    match end {
        WorkEnd::GateShut => "gate shut",
        WorkEnd::Ended => "ended",
        WorkEnd::Failed => "failed",
    }
}

// Tells how the work ended, and appends all that the port told, behind a line `--` where another one has told something.
fn tell_end<S: NodeSite, R: Wait + Clock + Copy + Drop>(
    port: &mut PortOf<S, R>,
    end: WorkEnd,
    told: &mut Vec<u8>,
) -> io::Result<()> {
    port.tell(name_of(end))?;
    if !told.is_empty() {
        told.extend_from_slice(b"--\n")?;
    }
    Ok(told.extend_from_slice(port.told())?)
}

// Runs the workers, each in a thread of its own, over a node that the first pass puts posts into, and tells what came of it.
fn run<J, S, R>(
    rt: &R,
    node: &SharedNode<J, &R>,
    mut passes: Vec<Pass<J>>,
    case: WorkerCase<'_>,
    config: WorkerConfig<'_>,
    mut ports: Vec<PortOf<S, R>>,
) -> Option<Vec<u8>>
where
    J: Naming + Send + Sync,
    S: NodeSite + Send + Sync,
    R: Threads + Wait + Clock + AllocGlobal + Copy + Send + Sync + Drop,
    requires { settings_of config.settings.now ≡ S.settings }
{
    let alloc = rt.alloc();
    put_posts(rt, alloc, node, passes.as_mut_slice(), case.setting.posts)?;
    let mut others = passes.split_off(ports.len().min(passes.len())).ok()?;
    let all = in_step(alloc, passes, ports.as_mut_slice())?;
    let gate = Latch::new(*rt, case.setting.is_open, case.setting.holds);
    let ends = work_all(rt, node, config, all, &gate).ok()?;
    let mut told = Vec::new(alloc);
    for (port, end) in ports.iter_mut().zip(ends.iter()) {
        tell_end(port, *end, &mut told).ok()?;
    }
    tell_others(rt, alloc, node, others.as_mut_slice(), &mut told)?;
    Some(told)
}

// Plays a case on a node of that name and these settings.
fn play<J, S, R>(
    rt: &R,
    name: Unnamed,
    case: WorkerCase<'_>,
    settings: &NodeSettings,
) -> Option<Vec<u8>>
where
    J: Naming + Send + Sync,
    S: NodeSite + Send + Sync,
    R: Threads + Wait + Clock + AllocGlobal + Copy + Send + Sync + Drop,
    requires name { IsNamed J.book J.name J.parts name }
    requires settings { settings_of settings.now ≡ S.settings }
{
    let alloc = rt.alloc();
    let places = workers_of(case).checked_mul(case.setting.places)?;
    let waiting = WaitingClients::new(alloc, places).ok()?;
    let ports = ports_of::<S, R>(*rt, alloc, case, &waiting)?;
    let Ok((node, passes)) = SharedNode::<J, &R>::new(alloc, rt, name) else {
        return None;
    };
    let config = WorkerConfig { settings, waiting };
    run(rt, &node, passes, case, config, ports)
}

/// What a case gives: its acts, and what follows each. None where it can't be played.
pub fn played<R>(rt: &R, case: WorkerCase<'_>) -> Option<Vec<u8>>
where
    R: Threads + Wait + Clock + AllocGlobal + Copy + Send + Sync + Drop,
{
    let settings = node_settings::settings_of(rt.alloc(), case.setting)?;
    let name = Unnamed::new(workers_of(case).saturating_add(case.setting.others));
    play::<Brand, Brand, R>(rt, name, case, &settings)
}
