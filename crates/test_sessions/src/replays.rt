//! Scripts over devices that fail. The setting of a case has two words:
//!
//!     == reads|writes|whole-writes|flushes|interrupted most: name of the case
//!     lines of the script
//!     --
//!     how often that device works, how many bytes are written then, and how the script ends
//!
//! The reader gives so many bytes a read at most, and the writer takes one a write, but all of it where its `whole-writes`
//! fail. The device fails at once, then after one such call, after two, and so on, until the script is answered. A reader that is
//! `interrupted` gives nothing, and what stands first is how often it was read. `tables.py` writes this file.
use crate::devices::{BytesReader, Interrupted, Sink};
use anyhow::Error;
use bnc_server::{ReplayFault, replay};
use std::alloc::Global;
use std::io::Write;

/// How a script ends, and how many bytes are written by then.
fn ended(
    alloc: Global,
    reader: BytesReader<'_>,
    device: &str,
    count: usize,
) -> (Result<(), ReplayFault>, usize) {
    let (mut reader, mut writer) = (reader, Sink::new(alloc));
    match device {
        "reads" => reader = reader.failing_after(count),
        "writes" => writer = writer.at_most(1).failing_after(count),
        "whole-writes" => writer = writer.failing_after(count),
        _ => writer = writer.failing_after_flushes(count),
    }
    let answered = replay(alloc, &mut reader, &mut writer, b"demo", b"net", b"al");
    (answered, writer.bytes().len())
}

/// Prints how a script ends whose reader is interrupted at each read.
fn play_interrupted(alloc: Global, out: &mut Vec<u8>) -> Result<(), Error> {
    let (mut reader, mut writer) = (Interrupted::new(), Sink::new(alloc));
    let answered = replay(alloc, &mut reader, &mut writer, b"demo", b"net", b"al");
    if let Err(fault) = answered {
        let (reads, bytes) = (reader.reads(), writer.bytes().len());
        write!(out, "{reads} {bytes} {fault}\n")?;
    }
    Ok(())
}

/// Prints what a script gives with that device failing after each number of calls.
pub fn play(alloc: Global, setting: &str, script: &str, out: &mut Vec<u8>) -> Result<(), Error> {
    let (device, most) = setting.split_once(" ").unwrap_or((setting, ""));
    if device == "interrupted" {
        return play_interrupted(alloc, out);
    }
    let most = most.parse::<usize>()?;
    let script = format!(in alloc; "{script}\n")?;
    for count in 0..usize::MAX {
        let reader = BytesReader::new(script.as_bytes()).at_most(most);
        let (answered, bytes) = ended(alloc, reader, device, count);
        let Err(fault) = answered else {
            write!(out, "{count} {bytes} answered\n")?;
            break;
        };
        write!(out, "{count} {bytes} {fault}\n")?;
    }
    Ok(())
}
