//! Each function makes one call of the system, and notes it with its answer. No proof shows that it makes the call that it
//! notes, so these have to be read.
ghost use Rattle.std.specs.Prelude.{◌≡◌, ◌≤◌, [], ◌∷◌, length, take, true, false, IfSome, IsNone};
ghost use Rattle.real_file.specs.Calls.{wrote as was_wrote, cut as was_cut, synced, renamed, folder_synced, read as was_read, measured, side_begun, side_wrote, side_synced, refused as was_refused};

use crate::record::CallRecord;
use std::fs;
use std::fs::{File, OpenOptions};
use std::os::fd::AsRawFd;
use std::os::unix::fs::{FileExt, OpenOptionsExt};

const WROTE: u64 = 0;

const CUT: u64 = 1;

const SYNCED: u64 = 2;

const RENAMED: u64 = 3;

const FOLDER_SYNCED: u64 = 4;

const READ: u64 = 5;

const MEASURED: u64 = 6;

const SIDE_BEGUN: u64 = 7;

const SIDE_WROTE: u64 = 8;

const SIDE_SYNCED: u64 = 9;

const REFUSED: u64 = 10;

const MAX_OFFSET: usize = (1 << 63) - 1;

fn put(file: &File, at: usize, bytes: &[u8]) -> bool {
    at <= MAX_OFFSET && file.write_all_at(bytes, at as u64).is_ok()
}

/// Writes all the bytes.
pub(crate) fn write(file: &File, log: &mut CallRecord, at: usize, bytes: &[u8]) -> bool
    ensures { log.new.events ≡ was_wrote at result bytes.now ∷ log.old.events }
{
    let is_ok = put(file, at, bytes);
    if is_ok {
        log.note(&[WROTE, at as u64, 1], bytes);
    } else {
        log.note(&[WROTE, at as u64, 0], bytes);
    }
    is_ok
}

pub(crate) fn cut(file: &File, log: &mut CallRecord, len: usize) -> bool
    ensures { log.new.events ≡ was_cut len result ∷ log.old.events }
{
    let is_ok = file.set_len(len as u64).is_ok();
    if is_ok {
        log.note(&[CUT, len as u64, 1], &[]);
    } else {
        log.note(&[CUT, len as u64, 0], &[]);
    }
    is_ok
}

/// Syncs what was written, and what is needed to read it.
pub(crate) fn sync(file: &File, log: &mut CallRecord) -> bool
    ensures { log.new.events ≡ synced result ∷ log.old.events }
{
    let is_ok = file.sync_data().is_ok();
    if is_ok {
        log.note(&[SYNCED, 0, 1], &[]);
    } else {
        log.note(&[SYNCED, 0, 0], &[]);
    }
    is_ok
}

/// Syncs a file at its opening, and lets go what the kernel has of it: after a sync that failed in another life it may have
/// other bytes than the disk.
pub(crate) fn settle(file: &File, log: &mut CallRecord) -> bool
    ensures { log.new.events ≡ synced result ∷ log.old.events }
{
    let is_ok = file.sync_all().is_ok() && is_let_go(file);
    if is_ok {
        log.note(&[SYNCED, 0, 1], &[]);
    } else {
        log.note(&[SYNCED, 0, 0], &[]);
    }
    is_ok
}

fn is_let_go(file: &File) -> bool {
    libc::posix_fadvise(file.as_raw_fd(), 0, 0, libc::POSIX_FADV_DONTNEED) == 0
}

pub(crate) fn sync_folder(folder: &File, log: &mut CallRecord) -> bool
    ensures { log.new.events ≡ folder_synced result ∷ log.old.events }
{
    let is_ok = folder.sync_all().is_ok();
    if is_ok {
        log.note(&[FOLDER_SYNCED, 0, 1], &[]);
    } else {
        log.note(&[FOLDER_SYNCED, 0, 0], &[]);
    }
    is_ok
}

/// Gives the new file the name of the other.
pub(crate) fn rename(rt: &HostRuntime, log: &mut CallRecord, new: &str, path: &str) -> bool
    ensures { log.new.events ≡ renamed result ∷ log.old.events }
{
    let is_ok = fs::rename(rt, new, path).is_ok();
    if is_ok {
        log.note(&[RENAMED, 0, 1], &[]);
    } else {
        log.note(&[RENAMED, 0, 0], &[]);
    }
    is_ok
}

fn got(file: &File, at: usize, buf: &mut [u8]) -> Option<usize>
    ensures { IfSome result (λ n. n ≤ length buf.old) }
{
    if at > MAX_OFFSET {
        return None;
    }
    match file.read_at(buf, at as u64) {
        Ok(n) => Some(n),
        Err(_) => None,
    }
}

/// Reads some bytes; none are the end.
pub(crate) fn read(file: &File, log: &mut CallRecord, at: usize, buf: &mut [u8]) -> Option<usize>
    ensures count { IfSome result (λ n. n ≤ length buf.old) }
    ensures some { IfSome result (λ n. log.new.events ≡ was_read at true (take n buf.new) ∷
        log.old.events) }
    ensures none { IsNone result → log.new.events ≡ was_read at false [] ∷ log.old.events }
{
    match got(file, at, buf) {
        Some(n) => {
            log.note(&[READ, at as u64, 1], &buf[..n]);
            Some(n)
        }
        None => {
            log.note(&[READ, at as u64, 0], &[]);
            None
        }
    }
}

fn len_of(file: &File) -> Option<u64> {
    match file.metadata() {
        Ok(found) => Some(found.len()),
        Err(_) => None,
    }
}

/// Whether the file has so many bytes.
pub(crate) fn has_len(file: &File, log: &mut CallRecord, len: usize) -> bool
    ensures { log.new.events ≡ measured len result ∷ log.old.events }
{
    let is_so = len_of(file) == Some(len as u64);
    if is_so {
        log.note(&[MEASURED, len as u64, 1], &[]);
    } else {
        log.note(&[MEASURED, len as u64, 0], &[]);
    }
    is_so
}

/// A new file under this name, which is empty. A link that stands there isn't followed.
pub(crate) fn make(rt: &HostRuntime, path: &str) -> Option<File> {
    if let Ok(found) = fs::symlink_metadata(rt, path) {
        if !found.is_file() || fs::remove_file(rt, path).is_err() {
            return None;
        }
    }
    match OpenOptions::new()
        .read(true)
        .write(true)
        .create_new(true)
        .mode(0o600)
        .open(rt, path)
    {
        Ok(file) => Some(file),
        Err(_) => None,
    }
}

pub(crate) fn begin_side(rt: &HostRuntime, log: &mut CallRecord, path: &str) -> Option<File>
    ensures some { IfSome result (λ _. log.new.events ≡ side_begun true ∷ log.old.events) }
    ensures none { IsNone result → log.new.events ≡ side_begun false ∷ log.old.events }
{
    match make(rt, path) {
        Some(file) => {
            log.note(&[SIDE_BEGUN, 0, 1], &[]);
            Some(file)
        }
        None => {
            log.note(&[SIDE_BEGUN, 0, 0], &[]);
            None
        }
    }
}

pub(crate) fn write_side(file: &File, log: &mut CallRecord, at: usize, bytes: &[u8]) -> bool
    ensures { log.new.events ≡ side_wrote at result bytes.now ∷ log.old.events }
{
    let is_ok = put(file, at, bytes);
    if is_ok {
        log.note(&[SIDE_WROTE, at as u64, 1], bytes);
    } else {
        log.note(&[SIDE_WROTE, at as u64, 0], bytes);
    }
    is_ok
}

pub(crate) fn sync_side(file: &File, log: &mut CallRecord) -> bool
    ensures { log.new.events ≡ side_synced result ∷ log.old.events }
{
    let is_ok = file.sync_all().is_ok();
    if is_ok {
        log.note(&[SIDE_SYNCED, 0, 1], &[]);
    } else {
        log.note(&[SIDE_SYNCED, 0, 0], &[]);
    }
    is_ok
}

/// Makes no call.
pub(crate) fn refuse(log: &mut CallRecord)
    ensures { log.new.events ≡ was_refused ∷ log.old.events }
{
    log.note(&[REFUSED, 0, 0], &[]);
}
