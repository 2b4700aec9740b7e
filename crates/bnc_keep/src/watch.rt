//! Looking after the file: it is written anew where something is to leave it, and opened again after the disk failed.
use crate::clocks::{monotonic_ms, wall_ms};
use crate::event::KeeperEvent;
use crate::fault::KeepFault;
use crate::kept::Kept;
use crate::opening::{fault_of, open_file};
use crate::shared::{Common, SharedKeeper};
use crate::survey::Survey;
use crate::upkeep::Upkeep;
use byte_text::NoMemory;
use gossip_link::NodeName;
use keeper::Keeper;
use real_file::RealFile;
use std::alloc::Global;
use std::sync::Wait;
use std::time::{Clock, Duration};
use std::{mem, thread};

/// So many milliseconds lie between two looks.
const LOOK: u64 = 1_000;

/// So many milliseconds lie between two tries to open the file again, or to write it anew after that failed.
const AGAIN: u64 = 60_000;

/// After so many milliseconds the operator is told how much is kept.
const HOUR: u64 = 3_600_000;

// What is to be done with the file.
#[derive(Clone, Copy, PartialEq, Eq)]
enum Need {
    Nothing,
    // It failed, and is let go.
    LetGo,
    // It is let go, and may be there again.
    Open,
    // It is to be written anew.
    Rewrite,
}

// The file was written anew: how many bytes it had and has, and in how many milliseconds.
struct Rewriting {
    from: usize,
    to: usize,
    took: u64,
}

// Whether the file is to be written anew at that moment. The pieces are counted where half of it may be of no use.
fn is_to_be_rewritten(
    alloc: Global,
    keeper: &Keeper<RealFile>,
    upkeep: &mut Upkeep,
    now: u64,
) -> bool {
    let (bytes, front) = (keeper.len(), keeper.state().front());
    if upkeep.is_owed(bytes, now) {
        return true;
    }
    if !upkeep.is_half_useless(bytes, front, now) {
        return false;
    }
    match Survey::of(alloc, keeper.state()) {
        Ok(found) => upkeep.pieces = found.pieces,
        Err(NoMemory) => return false,
    }
    upkeep.is_half_useless(bytes, front, now)
}

impl SharedKeeper {
    // What is to be done with the file at that moment, where it was tried last at that one.
    fn need(&mut self, alloc: Global, tried_at: u64, now: u64) -> Need {
        match &self.kept {
            Kept::LetGo(_, _) if now.saturating_sub(tried_at) >= AGAIN => Need::Open,
            Kept::LetGo(_, _) => Need::Nothing,
            Kept::Open(begun) if !begun.keeper.is_open() => Need::LetGo,
            Kept::Open(begun) => {
                if is_to_be_rewritten(alloc, &begun.keeper, &mut self.upkeep, now) {
                    Need::Rewrite
                } else {
                    Need::Nothing
                }
            }
        }
    }
}

// Lets the file go, which failed.
fn let_go<R: Wait + Clock + AllocGlobal>(rt: &R, common: &Common<'_>) {
    let found = common.shared.lock(rt).let_go(rt.alloc());
    if let Some(fault) = found {
        let file = common.path;
        common.log.report(rt, &KeeperEvent::NotKept { file, fault });
    }
}

// Opens the file and begins a life in it.
fn shared_again<R: Clock + AllocGlobal>(
    rt: &R,
    host: &HostRuntime,
    common: &Common<'_>,
) -> Result<(SharedKeeper, usize), KeepFault> {
    let opened = open_file(host, common.config, common.path, wall_ms(rt))?;
    let cut = opened.cut;
    let found = Survey::of(rt.alloc(), opened.begun.keeper.state())?;
    Ok((SharedKeeper::new(opened, found, monotonic_ms(rt)), cut))
}

// Tries to open the file again, which was let go. Only once a new life is begun in it, it takes the place of what is kept, and
// all connections begin anew.
fn open_again<R: Wait + Clock + AllocGlobal>(rt: &R, host: &HostRuntime, common: &Common<'_>) {
    let file = common.path;
    let (shared, cut) = match shared_again(rt, host, common) {
        Ok(again) => again,
        Err(fault) => {
            return common.log.report(rt, &KeeperEvent::NotKept { file, fault });
        }
    };
    let before = mem::replace(&mut *common.shared.lock(rt), shared);
    drop(before);
    if cut > 0 {
        common.log.report(rt, &KeeperEvent::Cut { bytes: cut });
    }
    common.log.report(rt, &KeeperEvent::OpenAgain { file });
}

// Writes the file anew, under the lock.
fn rewritten<R: Clock + AllocGlobal>(
    rt: &R,
    shared: &mut SharedKeeper,
    node: &NodeName,
) -> Option<Result<Rewriting, KeepFault>> {
    let Kept::Open(begun) = &mut shared.kept else {
        return None;
    };
    if !begun.keeper.is_open() {
        return None;
    }
    let from = begun.keeper.len();
    let began = monotonic_ms(rt);
    let done = begun.rewrite(rt.alloc(), node).map_err(fault_of);
    let ended = monotonic_ms(rt);
    match done {
        Ok(pieces) => {
            shared.upkeep.tried(began, ended, 0);
            shared.upkeep.is_new(pieces, begun.keeper.state().front());
            Some(Ok(Rewriting {
                from,
                to: begun.keeper.len(),
                took: ended.saturating_sub(began),
            }))
        }
        Err(fault) => {
            shared.upkeep.tried(began, ended, AGAIN);
            shared.note_failure();
            Some(Err(fault))
        }
    }
}

// Writes the file anew, and tells the operator.
fn rewrite<R: Wait + Clock + AllocGlobal>(rt: &R, common: &Common<'_>) {
    let done = {
        let mut guard = common.shared.lock(rt);
        rewritten(rt, &mut guard, &common.config.node)
    };
    let event = match done {
        None => return,
        Some(Ok(Rewriting { from, to, took })) => KeeperEvent::Rewritten { from, to, took },
        Some(Err(fault)) => KeeperEvent::NotRewritten {
            file: common.path,
            fault,
        },
    };
    common.log.report(rt, &event);
}

// How much is kept, where the file is open.
fn count_kept<R: Wait>(rt: &R, common: &Common<'_>) -> Option<KeeperEvent<'static>> {
    let shared = common.shared.lock(rt);
    match &shared.kept {
        Kept::Open(begun) => Some(KeeperEvent::Kept {
            changes: shared.upkeep.changes_at(begun.keeper.state().front()),
            bytes: begun.keeper.len(),
        }),
        Kept::LetGo(_, _) => None,
    }
}

/// Looks after the file.
pub(crate) fn watch<R: Wait + Clock + AllocGlobal>(
    rt: &R,
    host: &HostRuntime,
    common: &Common<'_>,
) {
    let mut tried_at = 0;
    let mut told_at = monotonic_ms(rt);
    for _ in rt.forever() {
        thread::sleep(rt, Duration::from_millis(LOOK));
        let now = monotonic_ms(rt);
        let need = common.shared.lock(rt).need(rt.alloc(), tried_at, now);
        match need {
            Need::Nothing => {}
            Need::Rewrite => rewrite(rt, common),
            Need::LetGo => {
                let_go(rt, common);
                tried_at = now;
            }
            Need::Open => {
                open_again(rt, host, common);
                tried_at = now;
            }
        }
        if now.saturating_sub(told_at) >= HOUR {
            told_at = now;
            if let Some(event) = count_kept(rt, common) {
                common.log.report(rt, &event);
            }
        }
    }
}
