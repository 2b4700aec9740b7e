//! The run of a keeper: the file is opened, and threads keep up a connection with each peer, and look after the file.
use crate::clocks::{monotonic_ms, wall_ms};
use crate::event::KeeperEvent;
use crate::fault::KeepFault;
use crate::opening::open_file;
use crate::peer::keep_in_touch;
use crate::shared::{Common, SharedKeeper};
use crate::survey::Survey;
use crate::version::{LOGIC, PROGRAM};
use crate::watch::watch;
use node_config::KeeperConfig;
use node_events::Event;
use operator_log::Log;
use std::sync::atomic::{AtomicBool, Ordering};
use std::sync::{Mutex, Wait};
use std::thread::Threads;
use std::time::Clock;
use std::{str, thread};

// What the threads share: the file is open, and its life is begun. The operator is told what was read.
fn begin<R: Wait + Clock + AllocGlobal>(
    rt: &R,
    host: &HostRuntime,
    config: &KeeperConfig,
    path: &str,
    log: &Log,
) -> Result<SharedKeeper, KeepFault> {
    let began = monotonic_ms(rt);
    let opened = open_file(host, config, path, wall_ms(rt))?;
    let took = monotonic_ms(rt).saturating_sub(began);
    let found = Survey::of(rt.alloc(), opened.begun.keeper.state())?;
    log.report(
        rt,
        &KeeperEvent::Read {
            changes: opened.count.changes,
            conversations: found.conversations,
            took,
        },
    );
    if opened.cut > 0 {
        log.report(rt, &KeeperEvent::Cut { bytes: opened.cut });
    }
    Ok(SharedKeeper::new(opened, found, monotonic_ms(rt)))
}

// A thread for each peer, and this one for the file.
fn keep_up<R>(rt: &R, host: &HostRuntime, common: &Common<'_>) -> Result<(), KeepFault>
where
    R: Threads + Wait + Clock + AllocGlobal + Sync,
{
    thread::scope(thread::scope_env(), rt, |scope| -> Result<(), KeepFault> {
        for (place, peer) in common.config.peers.iter().enumerate() {
            let run = move || keep_in_touch(rt, host, common, place, peer);
            if scope.spawn(run).is_err() {
                common.is_ending.store(true, Ordering::SeqCst);
                return Err(KeepFault::NoThread);
            }
        }
        watch(rt, host, common);
        Ok(())
    })
}

/// Keeps the history by a configuration. It answers where that can't begin.
pub(crate) fn keep<R>(
    rt: &R,
    host: &HostRuntime,
    config: &KeeperConfig,
    log: &Log,
) -> Result<(), KeepFault>
where
    R: Threads + Wait + Clock + AllocGlobal + Sync,
{
    log.report(
        rt,
        &KeeperEvent::Node(Event::Starting {
            program: PROGRAM,
            logic: LOGIC,
        }),
    );
    let Ok(path) = str::from_utf8(config.file.as_bytes()) else {
        return Err(KeepFault::Changed);
    };
    let shared = begin(rt, host, config, path, log)?;
    let common = Common {
        config,
        path,
        log,
        shared: Mutex::new(shared),
        is_ending: AtomicBool::new(false),
    };
    keep_up(rt, host, &common)
}
