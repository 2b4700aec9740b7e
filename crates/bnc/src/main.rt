//! The bouncer. `bnc replay <account> <network> <nick>` answers the script on standard input; `bnc serve <config>` runs a
//! node.
//!
//! What the words ask for is done by [`end_of_program`], over devices and a node that it is handed: a script is answered by
//! `bnc_server`, a configuration is read by `node_config`, and a node is run by `node`. Where the work isn't done, an [`End`]
//! says why. The status says how the program ended: 0 once all is done, 2 for its words, 3 for want of memory, 4 for a device
//! or a file, 5 for the configuration. The whole of a refusal stands on standard error. Read [`end_of_program`] first, and then
//! `exit`, which says which status each end has.
#![tactic(auto)]

mod ending;
mod logging;
mod node;
mod program;
mod replaying;
mod serving;
mod version;
mod words;

ghost use Rattle.std.specs.Prelude.{◌≡◌, ◌↔◌, Ok, IfErr};
ghost use Rattle.std.specs.Process.{exit_status};
ghost use Rattle.bnc.specs.Status.{status_of};

use crate::ending::End;
use crate::logging::tell_version;
use crate::node::run_prepared;
use crate::program::end_of_program;
use bnc_work::WorkEnd;
use node_config::Config;
use node_intake::{ServeFault, prepare};
use operator_log::Log;
use std::io::BufWriter;
use std::process::ExitCode;
use std::sync::atomic::{AtomicBool, Ordering};
use std::{env, fs, io};

/// The words behind the program's name.
fn given_words(rt: &HostRuntime) -> Result<Vec<String>, End<'static>> {
    let all = match env::args(rt) {
        Ok(all) => all,
        Err(e) => return Err(End::without_words(e.kind())),
    };
    let words: Result<Vec<String>, _> = all.skip(1).collect(rt.alloc());
    match words {
        Ok(words) => Ok(words),
        Err(_) => Err(End::NoMemory),
    }
}

/// Ends the program: with 0 exactly where its work is done. Else it writes to standard error why, where that is read.
fn exit(rt: &HostRuntime, done: Result<(), End<'_>>, is_read: bool) -> ExitCode
    ensures success { (exit_status result ≡ 0) ↔ (done.entry ≡ Ok tt) }
    ensures failure { IfErr done.entry (λ end. exit_status result ≡ status_of end) }
{
    match done {
        Ok(()) => ExitCode::from(0),
        Err(end) => {
            if is_read {
                let _ = rt.eprintln(&end);
            }
            ExitCode::from(end.status())
        }
    }
}

fn main(rt: HostRuntime) -> ExitCode {
    let alloc = rt.alloc();
    let words = match given_words(&rt) {
        Ok(words) => words,
        Err(end) => return exit(&rt, Err(end), true),
    };
    let Ok(mut output) = BufWriter::new(alloc, rt.stdout()) else {
        return exit(&rt, Err(End::NoMemory), true);
    };
    let handle = rt;
    // Whether somebody reads standard error: what a node logged waits for that.
    let is_log_read = AtomicBool::new(true);
    let is_read = &is_log_read;
    let read = move |path: &str| -> io::Result<Vec<u8>> { fs::read(&handle, path) };
    let serve = move |config: &Config| -> Result<Vec<WorkEnd>, ServeFault> {
        let log = Log::begin(&handle)?;
        tell_version(&handle, &log);
        let ends = match prepare(&handle, &log, config) {
            Ok(prepared) => run_prepared(&handle, &log, prepared),
            Err(fault) => Err(fault),
        };
        is_read.store(log.end(&handle), Ordering::SeqCst);
        ends
    };
    let done = end_of_program(alloc, &words, &mut rt.stdin(), &mut output, read, serve);
    exit(&rt, done, is_log_read.load(Ordering::SeqCst))
}
