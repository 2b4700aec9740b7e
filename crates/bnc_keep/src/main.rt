//! A keeper of the past. `bnc-keep <config>` is a peer of a cluster, without clients and networks, that holds the history in
//! memory and in one file. It acknowledges a packet only once all its changes are on the disk.
//!
//! `program` says how the program ends by its words; `opening` opens the file, and begins a life above each earlier one before
//! the first hello; `running` starts a thread for each peer (`peer`, `talk`) and one that looks after the file (`watch`), round
//! one lock (`shared`). `kept` carries out what a peer says: an acknowledgement goes out only after its changes are on the disk.
//! The status says how the program ended: 2 for its words, 3 for want of memory, 4 for a device or a file, 5 for the
//! configuration. The whole of a refusal stands on standard error. Read `kept` first, and then `opening`.
#![tactic(auto)]

mod begun;
mod clocks;
mod damage;
mod dialing;
mod ending;
mod event;
mod fault;
mod kept;
mod lost;
mod opening;
mod peer;
mod program;
mod running;
mod shared;
mod survey;
mod talk;
mod upkeep;
mod version;
mod watch;
mod words;

ghost use Rattle.std.specs.Prelude.{◌≡◌, ◌↔◌, Ok, IfErr};
ghost use Rattle.std.specs.Process.{exit_status};
ghost use Rattle.bnc_keep.specs.Status.{status_of};

use crate::ending::KeeperEnd;
use crate::fault::KeepFault;
use crate::program::end_of_program;
use node_config::KeeperConfig;
use operator_log::Log;
use std::process::ExitCode;
use std::sync::atomic::{AtomicBool, Ordering};
use std::{env, fs, io};

/// The words behind the program's name.
fn given_words(rt: &HostRuntime) -> Result<Vec<String>, KeeperEnd<'static>> {
    let all = match env::args(rt) {
        Ok(all) => all,
        Err(e) => return Err(KeeperEnd::without_words(e.kind())),
    };
    let words: Result<Vec<String>, _> = all.skip(1).collect(rt.alloc());
    match words {
        Ok(words) => Ok(words),
        Err(_) => Err(KeeperEnd::NoMemory),
    }
}

/// Ends the program: with 0 exactly where its work is done. Else it writes to standard error why, where that is read.
fn exit(rt: &HostRuntime, done: Result<(), KeeperEnd<'_>>, is_read: bool) -> ExitCode
    ensures success { (exit_status result ≡ 0) ↔ (done.entry ≡ Ok tt) }
    ensures failure { IfErr done.entry (λ end. exit_status result ≡ status_of end) }
{
    match done {
        Ok(()) => ExitCode::from(0),
        Err(end) => {
            let status = end.status();
            if is_read {
                let _ = rt.eprintln(end);
            }
            ExitCode::from(status)
        }
    }
}

fn main(rt: HostRuntime) -> ExitCode {
    let words = match given_words(&rt) {
        Ok(words) => words,
        Err(end) => return exit(&rt, Err(end), true),
    };
    let handle = rt;
    let read = move |path: &str| -> io::Result<Vec<u8>> { fs::read(&handle, path) };
    // Whether somebody reads standard error: what was logged waits for that.
    let is_log_read = AtomicBool::new(true);
    let is_read = &is_log_read;
    let keep = move |config: &KeeperConfig| -> Result<(), KeepFault> {
        let log = Log::begin(&handle)?;
        let kept = running::keep(&handle, &handle, config, &log);
        is_read.store(log.end(&handle), Ordering::SeqCst);
        kept
    };
    let done = end_of_program(rt.alloc(), &words, read, keep);
    exit(&rt, done, is_log_read.load(Ordering::SeqCst))
}
