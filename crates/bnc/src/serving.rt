//! `bnc serve`: what it reads, the node that it runs, and how it ends.
ghost use Rattle.std.specs.Prelude.{◌≢◌, ◌↔◌, IsTrue};
ghost use Rattle.std.specs.Fn.{FnOnceReturnsAt};
ghost use Rattle.std.specs.List.{All};
ghost use Rattle.bnc.specs.Serving.{IsConfigOf, IsEndOfRun, Serves};

use crate::ending::End;
use bnc_work::WorkEnd;
use node_config::{Config, read_config};
use node_events::ServeFault;
use std::alloc::Global;
use std::io;

/// The configuration in a file, by what reading the file gave.
fn config_in<'a>(alloc: Global, path: &'a str, read: io::Result<Vec<u8>>) -> Result<Config, End<'a>>
    ensures { IsConfigOf path.entry read result }
{
    let bytes = match read {
        Ok(bytes) => bytes,
        Err(error) => return Err(End::without_file(path, error.kind())),
    };
    match read_config(alloc, &bytes) {
        Ok(config) => Ok(config),
        Err(fault) => Err(End::without_config(alloc, &bytes, fault)),
    }
}

/// Whether no worker failed.
fn none_failed(ends: &[WorkEnd]) -> bool
    ensures { IsTrue result ↔ All (λ end. end ≢ WorkEnd.Failed) ends.now }
{
    ends.iter().all(|end| *end != WorkEnd::Failed)
}

/// How the program ends as the workers of its node have ended.
fn end_of_run(run: Result<Vec<WorkEnd>, ServeFault>) -> Result<(), End<'static>>
    ensures { IsEndOfRun run result }
{
    let ends = run?;
    if none_failed(&ends) {
        Ok(())
    } else {
        Err(End::Worker)
    }
}

/// Runs a node by the configuration in that file. `read` reads the file, and `serve` runs a node by a configuration.
pub(crate) fn serve_file<'a, Files, Node>(
    alloc: Global,
    path: &'a str,
    read: Files,
    serve: Node,
) -> Result<(), End<'a>>
where
    Files: FnOnce(&str) -> io::Result<Vec<u8>>,
    Node: FnOnce(&Config) -> Result<Vec<WorkEnd>, ServeFault>,
    requires reads { Files.IsAlwaysCallable read }
    requires serves { Node.IsAlwaysCallable serve }
    ensures { Serves (FnOnceReturnsAt Files.FnOnce read path.now)
        (FnOnceReturnsAt Node.FnOnce serve) path.entry result }
{
    let config = config_in(alloc, path, read(path))?;
    end_of_run(serve(&config))
}
