//! Lines between nodes, links, and connections of nodes. What stands behind the first `_` of a file's name says what is played:
//! `gathers`, `limits` and `spellings` have rows that `tell_rows` tells, and any other file a node at one end of a connection
//! (`node`); in `exchanges` it hears what a plain node says at the other end, until both are silent, and `refused` has calls
//! that are made again where they are refused memory (`again`). `peer_tables.py` writes `limits`, `gathers` and `exchanges`;
//! `tests/suites/calls.py` refuses each request of `refused`.
mod again;
mod gathers;
mod node;

use anyhow::Error;
use gathers::tell_rows;
use node::tell_script;
use std::alloc::Global;

/// Prints what a script of such a file gives.
pub fn play(alloc: Global, file: &str, script: &str, out: &mut Vec<u8>) -> Result<(), Error> {
    match file {
        "gathers" | "limits" | "spellings" => Ok(tell_rows(alloc, script, out)?),
        _ => tell_script(alloc, script, out),
    }
}
