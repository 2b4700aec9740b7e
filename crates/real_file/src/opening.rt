//! Opening the file of a keeper. What isn't one is refused before it is touched.
ghost use Rattle.std.specs.Prelude.{◌≡◌, [], IfOk, IfSome};
ghost use Rattle.real_file.specs.Members.{source_got};

use crate::record::CallRecord;
use crate::source::OpenFile;
use crate::{RealSource, calls};
use std::alloc::AllocError;
use std::fs::{File, OpenOptions, TryLockError};
use std::os::fd::AsRawFd;
use std::os::unix::fs::{FileExt, MetadataExt, OpenOptionsExt};
use std::{fmt, fs, io};

/// Why a file isn't opened.
#[derive(Clone, Copy, Debug)]
pub enum OpenError {
    /// By what the system says.
    Io(io::Error),
    /// There was no memory.
    OutOfMemory,
    /// Another process has the file open.
    Busy,
    /// It is there, and is no file of blocks. It was not touched.
    NotOurs,
}

impl From<io::Error> for OpenError {
    fn from(error: io::Error) -> OpenError {
        OpenError::Io(error)
    }
}

impl From<AllocError> for OpenError {
    fn from(_error: AllocError) -> OpenError {
        OpenError::OutOfMemory
    }
}

impl fmt::Display for OpenError {
    fn fmt<W: fmt::Write>(&self, f: &mut fmt::Formatter<W>) -> fmt::Result {
        match self {
            OpenError::Io(error) => write!(f, "{error}"),
            OpenError::OutOfMemory => f.write_str("out of memory"),
            OpenError::Busy => f.write_str("another process has it open"),
            OpenError::NotOurs => f.write_str("it is no file of a keeper, and was not touched"),
        }
    }
}

impl std::error::Error for OpenError {}

/// Opens a file of blocks, or makes one that has these first bytes, which are to be blocks and a closed gate.
pub fn open(rt: &HostRuntime, path: &str, first: &[u8]) -> Result<RealSource, OpenError>
    // Nothing is read yet.
    ensures { IfOk result (λ s. source_got s ≡ []) }
{
    let alloc = rt.alloc();
    let lock = locked(rt, format!(in alloc; "{path}.lock")?.as_str())?;
    let new_path = format!(in alloc; "{path}.new")?;
    let folder = File::open(rt, folder_of(path))?;
    if is_missing(rt, path)? {
        make(rt, path, new_path.as_str(), first)?;
    }
    let parts = OpenFile {
        rt: *rt,
        path: format!(in alloc; "{path}")?,
        new_path,
        file: open_ours(rt, path)?,
        folder,
        lock,
    };
    match settled(parts) {
        Some(source) => Ok(source),
        None => Err(OpenError::Io(io::Error::from_raw_os_error(os::errno()))),
    }
}

// What is read from now on is on the disk, and the name too.
fn settled(parts: OpenFile) -> Option<RealSource>
    ensures { IfSome result (λ s. source_got s ≡ []) }
{
    let mut log = CallRecord::new();
    if calls::settle(&parts.file, &mut log) && calls::sync_folder(&parts.folder, &mut log) {
        Some(RealSource { parts, at: 0, log })
    } else {
        None
    }
}

// The lock is a file of its own: one on the file itself would go with it once another takes its place.
fn locked(rt: &HostRuntime, path: &str) -> Result<File, OpenError> {
    let lock = OpenOptions::new()
        .read(true)
        .write(true)
        .create(true)
        .mode(0o600)
        .open(rt, path)?;
    match lock.try_lock() {
        Ok(()) => Ok(lock),
        Err(TryLockError::WouldBlock) => Err(OpenError::Busy),
        Err(TryLockError::Error(error)) => Err(OpenError::Io(error)),
    }
}

fn folder_of(path: &str) -> &str {
    match path.rsplit_once('/') {
        Some(("", _)) => "/",
        Some((folder, _)) => folder,
        None => ".",
    }
}

fn is_missing(rt: &HostRuntime, path: &str) -> io::Result<bool> {
    match fs::symlink_metadata(rt, path) {
        Ok(_) => Ok(false),
        Err(error) if error.kind() == io::ErrorKind::NotFound => Ok(true),
        Err(error) => Err(error),
    }
}

// A new file is written beside and then renamed, so under the name there is never an empty one.
fn make(rt: &HostRuntime, path: &str, new_path: &str, first: &[u8]) -> Result<(), OpenError> {
    let Some(file) = calls::make(rt, new_path) else {
        return Err(OpenError::Io(io::Error::from_raw_os_error(os::errno())));
    };
    file.write_all_at(first, 0)?;
    file.sync_all()?;
    fs::rename(rt, new_path, path)?;
    Ok(())
}

// A regular file with one name that begins with a block.
fn open_ours(rt: &HostRuntime, path: &str) -> Result<File, OpenError> {
    let named = fs::symlink_metadata(rt, path)?;
    if !named.is_file() || named.nlink() != 1 {
        return Err(OpenError::NotOurs);
    }
    let file = OpenOptions::new().read(true).write(true).open(rt, path)?;
    let found = file.metadata()?;
    let mut head = [0; 11];
    if found.dev() != named.dev() || found.ino() != named.ino() || file.as_raw_fd() <= 2 {
        return Err(OpenError::NotOurs);
    }
    if found.len() < 12 {
        return Err(OpenError::NotOurs);
    }
    file.read_exact_at(&mut head, 0)?;
    if begins_block(&head) {
        Ok(file)
    } else {
        Err(OpenError::NotOurs)
    }
}

fn begins_block(head: &[u8]) -> bool {
    let [gate, digits @ .., cr, lf] = head else {
        return false;
    };
    *gate == b'+' && digits.iter().all(|d| d.is_ascii_digit()) && *cr == 13 && *lf == 10
}
