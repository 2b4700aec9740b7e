//! Opening the file, and beginning a life in it.
ghost use Rattle.std.specs.Prelude.{◌≡◌, ◌<◌, ℕ, List, IfOk, true};
ghost use Rattle.block_file.specs.Device.{Only};
ghost use Rattle.chat_change.specs.Words.{is_name};
ghost use Rattle.chat_change.specs.declared.change.Change.{Change as Piece};
ghost use Rattle.keeper.specs.Found.{IsFound};
ghost use Rattle.keeper.specs.Keeper.{Covers, HasTaken, Says};
ghost use Rattle.real_file.specs.Members.{file_seen, file_may_leave};

use crate::begun::Begun;
use crate::damage::{Damage, DamageKind};
use crate::fault::KeepFault;
use bstr::BStr;
use byte_text::NoMemory;
use gossip_link::{Life, LinkFault, NodeName, PeerTerms, SharedWord, Terms};
use keeper::{Count, FileFault, Found, Keeper, Unread, open, read};
use node_config::KeeperConfig;
use real_file::RealFile;
use std::alloc::{AllocError, Global};
use std::{fs, io};

/// A file that is open, with what was found in it.
#[derive(Drop)]
pub(crate) struct Opened {
    pub(crate) begun: Begun<RealFile>,
    pub(crate) count: Count,
    /// How many bytes of a torn end were cut.
    pub(crate) cut: usize,
}

/// What the system said of the call that failed last on this thread.
pub(crate) fn last_error() -> KeepFault {
    KeepFault::System(io::Error::from_raw_os_error(os::errno()))
}

/// Why a call on the file failed, just now and on this thread.
pub(crate) fn fault_of(fault: FileFault) -> KeepFault {
    match fault {
        FileFault::Memory => KeepFault::NoMemory,
        FileFault::Full => KeepFault::Full,
        FileFault::Failed | FileFault::NoChanges | FileFault::Damaged => last_error(),
    }
}

// Why the file wasn't read to its end.
fn fault_of_reading(rt: &HostRuntime, path: &str, unread: Unread) -> KeepFault {
    let fault = match unread.fault {
        FileFault::Memory => return KeepFault::NoMemory,
        FileFault::Full => return KeepFault::Full,
        FileFault::Failed => return last_error(),
        FileFault::NoChanges => DamageKind::NoEntry,
        FileFault::Damaged => DamageKind::NoEnd,
    };
    match fs::read(rt, path) {
        Ok(bytes) => KeepFault::Damaged(Damage::of(fault, &bytes, unread.at)),
        Err(error) => KeepFault::System(error),
    }
}

// The first bytes of a new file: a block that says the life of that node with the number 0, which no node begins, and a closed
// gate.
fn first_bytes(alloc: Global, node: &NodeName) -> Result<Vec<u8>, AllocError> {
    let line = format!(in alloc; "L {} 0\r\n", BStr::new(node.as_bytes()))?;
    let block = format!(in alloc; "+{:08}\r\n{line}-", line.len())?;
    Ok(block.into_bytes())
}

// The name of a node, which is a name for each purpose.
#[tactic(auto, using(crate::proofs::NameLemmas::node_name_is_name))]
pub(crate) fn word_of(node: &NodeName) -> &[u8]
    ensures value { result.now ≡ node.now }
    ensures lawful { is_name result.now ≡ true }
{
    node.as_bytes()
}

// What a keeper in that life brings to each connection.
fn terms_of(alloc: Global, config: &KeeperConfig, life: u64) -> Result<Terms, NoMemory>
    ensures { IfOk result (λ terms. terms.me.incarnation ≡ life) }
{
    let Ok(word) = SharedWord::new(alloc, config.peer_word.as_bytes()) else {
        return Err(NoMemory);
    };
    let node = config.node.try_clone(alloc)?;
    let mut peers = Vec::new(alloc);
    for peer in &config.peers {
        let name = peer.name.try_clone(alloc)?;
        let version = peer.version;
        peers
            .push(PeerTerms { name, version })
            .map_err(|_| NoMemory)?;
    }
    Ok(Terms::new(word, Life::new(node, life), peers))
}

// Begins a life in a file that was read. The number of the life is above each that the file knows, and whatever a crash leaves
// from now on knows it.
fn begin(
    alloc: Global,
    file: RealFile,
    found: Found,
    config: &KeeperConfig,
    clock: u64,
) -> Result<Begun<RealFile>, KeepFault>
    requires found { IsFound (file_seen file) found }
    requires durable { Only (file_seen file) (file_may_leave file) }
    ensures above { IfOk result (λ begun. (said : List Piece) (n : ℕ)
        → Covers said n (file_seen file) → n < begun.terms.value.me.incarnation) }
    ensures taken { IfOk result (λ begun. (said : List Piece) (n : ℕ)
        → Covers said n (file_seen file) → (list : List Piece) × Says list said
        × HasTaken file_seen file_may_leave begun.keeper found.front list) }
{
    let mut keeper = match open(file, found) {
        Ok(keeper) => keeper,
        Err((fault, _file)) => return Err(fault_of(fault)),
    };
    let life = match keeper.begin_life(alloc, word_of(&config.node), clock) {
        Ok(life) => life,
        Err(fault) => return Err(fault_of(fault)),
    };
    let terms = terms_of(alloc, config, life)?;
    let begun = Begun::new(alloc, keeper, terms)?;
    Ok(begun)
}

/// Opens the file at that path, or makes it, reads it, and begins a life in it.
pub(crate) fn open_file(
    rt: &HostRuntime,
    config: &KeeperConfig,
    path: &str,
    clock: u64,
) -> Result<Opened, KeepFault> {
    let alloc = rt.alloc();
    let first = first_bytes(alloc, &config.node)?;
    let source = real_file::open(rt, path, &first)?;
    let (source, found) = match read(alloc, source, 0) {
        Ok(found) => found,
        Err((unread, _source)) => return Err(fault_of_reading(rt, path, unread)),
    };
    let count = found.count;
    // (a file at rest has the closed gate alone there)
    let cut = if found.left > 1 { found.left } else { 0 };
    let Some(file) = source.into_file() else {
        return Err(KeepFault::Changed);
    };
    let begun = begin(alloc, file, found, config, clock)?;
    Ok(Opened { begun, count, cut })
}
