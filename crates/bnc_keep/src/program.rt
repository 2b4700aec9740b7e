//! What the program does by its words, and how it ends.
ghost use Rattle.std.specs.Prelude.{map, string_bytes};
ghost use Rattle.std.specs.Fn.{FnOnceReturnsAt};
ghost use Rattle.bnc_keep.specs.Words.{spelled_path};
ghost use Rattle.bnc_keep.specs.Program.{IsConfigOf, IsEndOfKeeping, Keeps, EndsAs};

use crate::ending::KeeperEnd;
use crate::fault::KeepFault;
use crate::words::path_in;
use byte_text::Text;
use node_config::{KeeperConfig, read_keeper_config};
use std::alloc::Global;
use std::io;

// The configuration in a file, by what reading the file gave.
fn config_in<'a>(
    alloc: Global,
    path: &'a str,
    read: io::Result<Vec<u8>>,
) -> Result<KeeperConfig, KeeperEnd<'a>>
    ensures { IsConfigOf path.entry read result }
{
    let bytes = match read {
        Ok(bytes) => bytes,
        Err(error) => return Err(KeeperEnd::without_file(path, error.kind())),
    };
    match read_keeper_config(alloc, &bytes) {
        Ok(config) => Ok(config),
        Err(fault) => Err(KeeperEnd::without_config(alloc, &bytes, fault)),
    }
}

// How the program ends where nothing can be kept in that file.
fn end_of_keeping(kept: Result<(), KeepFault>, file: Text) -> Result<(), KeeperEnd<'static>>
    ensures { IsEndOfKeeping kept file result }
{
    match kept {
        Ok(()) => Ok(()),
        Err(KeepFault::NoMemory) => Err(KeeperEnd::NoMemory),
        Err(fault) => Err(KeeperEnd::Keep(file, fault)),
    }
}

// Keeps the history by the configuration in that file. `read` reads the file, and `keep` keeps the history by a configuration.
fn keep_by<'a, Files, Keep>(
    alloc: Global,
    path: &'a str,
    read: Files,
    keep: Keep,
) -> Result<(), KeeperEnd<'a>>
where
    Files: FnOnce(&str) -> io::Result<Vec<u8>>,
    Keep: FnOnce(&KeeperConfig) -> Result<(), KeepFault>,
    requires reads { Files.IsAlwaysCallable read }
    requires keeps { Keep.IsAlwaysCallable keep }
    ensures { Keeps (FnOnceReturnsAt Files.FnOnce read path.now)
        (FnOnceReturnsAt Keep.FnOnce keep) path.entry result }
{
    let config = config_in(alloc, path, read(path))?;
    let kept = keep(&config);
    let KeeperConfig {
        node: _node,
        peer_word: _peer_word,
        file,
        peers: _peers,
    } = config;
    end_of_keeping(kept, file)
}

/// Does what the words ask for. `read` reads a file, and `keep` keeps the history by a configuration.
pub(crate) fn end_of_program<'a, Files, Keep>(
    alloc: Global,
    words: &'a [String],
    read: Files,
    keep: Keep,
) -> Result<(), KeeperEnd<'a>>
where
    Files: FnOnce(&str) -> io::Result<Vec<u8>>,
    Keep: FnOnce(&KeeperConfig) -> Result<(), KeepFault>,
    requires reads { Files.IsAlwaysCallable read }
    requires keeps { Keep.IsAlwaysCallable keep }
    ensures { EndsAs (FnOnceReturnsAt Files.FnOnce read) (FnOnceReturnsAt Keep.FnOnce keep)
        (spelled_path (map string_bytes words.now)) result }
{
    // Each branch returns, since the borrow checker doesn't join branches that move different values.
    match path_in(words) {
        None => return Err(KeeperEnd::Usage),
        Some(path) => return keep_by(alloc, path, read, keep),
    }
}
