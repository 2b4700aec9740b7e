//! A file of changes and a state.
ghost use Rattle.std.specs.Prelude.{◌≡◌, ◌⊎◌, ◌<◌, ◌≤◌, ◌+◌, ◌^◌, ◌++◌, ℕ, List, [], true, max, take, length, IfOk, IfErr, OnOk, OnErr, IsErrOf};
ghost use Rattle.block_file.specs.Device.{Only, LeavesOnly};
ghost use Rattle.chat_change.specs.declared.change.Change.{Change as Piece};
ghost use Rattle.chat_history.specs.Numbering.{delta};
ghost use Rattle.history_file.specs.Changes.{IsKept};
ghost use Rattle.history_file.specs.Lives.{most};
ghost use Rattle.keeper.specs.Found.{IsFound, capped};
ghost use Rattle.keeper.specs.Keeper.{Says, Covers, IsCovering, HasTaken, ArePieces, only, HasNoOthers, IsWithoutOthers, WasGiven};
ghost use Rattle.chat_change.specs.Words.{is_name};

use crate::Found;
use crate::compaction::copy_pieces;
use crate::fresh::append_fresh;
use chat_change::Change;
use chat_history::{Delta, DeltaFault, NotTaken, Source, Taker};
use chat_state::{State, delta_since};
use history_file::{Device, FileFault, HistoryFile, MOST_CHANGES, resume};
use std::alloc::Global;
use std::marker::Model;

/// A file of changes, and the state that has taken them. After a failure the file is no longer open: it has to be opened
/// again.
#[derive(Drop)]
pub struct Keeper<D: Device> {
    file: HistoryFile<D>,
    state: State,
    is_open: bool,
    // the number of the last life that it knows
    life: u64,
}

impl<D: Device> Model for Keeper<D> {
    ghost use Rattle.keeper.specs.Keeper.{KeeperValue, IsReady};
    ghost use Rattle.std.specs.Coded.{codes};
    ghost use Rattle.chat_history.specs.Codes.{coded_state};

    ghost Value = { KeeperValue D };

    ghost coded = { Prim.hlevel (codes, coded_state) };

    ghost view = { λ k. record {
      file = k.file;
      state = k.state;
      is_open = k.is_open;
      life = k.life;
    } };

    ghost invariant = { λ k. IsReady D.seen D.may_leave k.file k.is_open };
}

impl<D: Device> Keeper<D> {
    /// What it has taken.
    pub fn state(&self) -> &State
        ensures { result.now ≡ self.now.state }
    {
        &self.state
    }

    /// The device of its file.
    pub fn device(&self) -> &D
        ensures { result.now ≡ self.now.file.journal.device }
    {
        &self.file.journal.device
    }

    /// How long the blocks of its file are together, in bytes.
    pub fn len(&self) -> usize
        ensures { result ≡ self.now.file.journal.end }
    {
        self.file.journal.end
    }

    /// Whether its file is open. Where it isn't, nothing is taken.
    pub fn is_open(&self) -> bool
        ensures { result ≡ self.now.is_open }
    {
        self.is_open
    }

    /// The number of its life.
    pub fn life(&self) -> u64
        ensures { result ≡ self.now.life }
    {
        self.life
    }

    /// Begins a life: its number is the clock's milliseconds, or the next one above all that the file knows, whichever is
    /// greater. At `Ok` it is on the disk, and may be said to others. At `Err` the file may no longer be open.
    pub fn begin_life(&mut self, alloc: Global, node: &[u8], clock: u64) -> Result<u64, FileFault>
        requires open { self.old.is_open ≡ true }
        requires node { is_name node.now ≡ true }

        ensures above { IfOk result (λ n. self.old.life < n) }
        ensures number { IfOk result (λ n. n ≡ max clock (self.old.life + 1)) }
        ensures life { IfOk result (λ n. self.new.life ≡ n) }
        ensures same { OnErr result (self.new.life ≡ self.old.life) }
        ensures open { OnOk result (self.new.is_open ≡ true) }

        // Nothing that was taken is lost, and what a crash leaves from now on knows this life.
        ensures taken { (start : ℕ) (list : List Piece)
            → HasTaken D.seen D.may_leave self.old start list
            → HasTaken D.seen D.may_leave self.new start list }
        ensures any_moment { (said : List Piece) (n : ℕ)
            → IsCovering D.seen D.may_leave self.old.file said n
            → LeavesOnly D.moment D.left_since self.old.file.journal.device
            self.new.file.journal.device (Covers said n) }

        // Nothing comes to it.
        ensures given { (given : List Piece) → WasGiven D.seen D.may_leave self.old given
            → WasGiven D.seen D.may_leave self.new given }
        ensures any_moment_given { (given : List Piece)
            → IsWithoutOthers D.seen D.may_leave self.old.file given
            → LeavesOnly D.moment D.left_since self.old.file.journal.device
            self.new.file.journal.device (HasNoOthers given) }

        // It doesn't give up by itself.
        ensures failed { IsErrOf result FileFault.Failed
            → D.faults self.old.file.journal.device < D.faults self.new.file.journal.device }
        ensures full { IsErrOf result FileFault.Full
            → (self.old.life ≡ most) ⊎ (2 ^ 60 ≤ self.old.file.journal.end) }
        ensures changes { IsErrOf result FileFault.NoChanges → ⊥ }
        ensures damaged { IsErrOf result FileFault.Damaged → ⊥ }
    {
        if self.life == u64::MAX {
            return Err(FileFault::Full);
        }
        let next = self.life + 1;
        let number = if clock < next { next } else { clock };
        match self.file.append_life(alloc, node, number) {
            Ok(()) => {
                self.life = number;
                Ok(number)
            }
            Err(fault) => {
                self.is_open = false;
                Err(fault)
            }
        }
    }

    /// Writes the file anew, with its life and the pieces of the state alone: the text of a message that was redacted or let
    /// go leaves the file. The answer is how many pieces they are. At `Err` the file may no longer be open.
    pub fn compact(&mut self, alloc: Global, node: &[u8]) -> Result<u64, FileFault>
        requires open { self.old.is_open ≡ true }
        requires node { is_name node.now ≡ true }
        // Nothing that was taken is lost, also where it fails.
        ensures taken { (start : ℕ) (list : List Piece)
            → HasTaken D.seen D.may_leave self.old start list
            → HasTaken D.seen D.may_leave self.new start list }
        ensures any_moment { (start : ℕ) (list : List Piece)
            → HasTaken D.seen D.may_leave self.old start list
            → LeavesOnly D.moment D.left_since self.old.file.journal.device
            self.new.file.journal.device (Covers list self.old.life) }

        // Nothing comes to it.
        ensures given { (given : List Piece) → WasGiven D.seen D.may_leave self.old given
            → WasGiven D.seen D.may_leave self.new given }
        ensures any_moment_given { (given : List Piece)
            → WasGiven D.seen D.may_leave self.old given
            → LeavesOnly D.moment D.left_since self.old.file.journal.device
            self.new.file.journal.device (HasNoOthers given) }

        ensures pieces { IfOk result (λ count. (start : ℕ) (list : List Piece)
            → HasTaken D.seen D.may_leave self.old start list
            → (pieces : List Piece) × IsKept D.seen D.may_leave self.new.file (only pieces
            self.old.life)
            × ArePieces list pieces × (count ≡ capped (length pieces))) }
        ensures life { self.new.life ≡ self.old.life }
        ensures open { OnOk result (self.new.is_open ≡ true) }

        // It doesn't give up by itself.
        ensures failed { IsErrOf result FileFault.Failed
            → D.faults self.old.file.journal.device < D.faults self.new.file.journal.device }
        ensures changes { IsErrOf result FileFault.NoChanges → ⊥ }
        ensures damaged { IsErrOf result FileFault.Damaged → ⊥ }
    {
        let count = copy_pieces(alloc, &mut self.file, &self.state, node, self.life)?;
        match self.file.end_copy() {
            Ok(()) => Ok(count),
            Err(fault) => {
                self.is_open = false;
                Err(fault)
            }
        }
    }
}

impl<D: Device + Drop> Keeper<D> {
    /// Lets the file go, and keeps what was taken.
    pub fn into_state(self) -> State
        ensures { result ≡ self.state }
    {
        let Keeper {
            file: _file,
            state,
            is_open: _,
            life: _,
        } = self;
        state
    }
}

/// What a keeper has taken is in its state and on its disk.
impl<D: Device> Taker for Keeper<D> {
    ghost holds = { λ k start list. HasTaken D.seen D.may_leave k start list };

    ghost may_add = { λ _ others. others ≡ [] };

    /// Takes changes: at `Ok` they are on the disk and in the state. At `Err` a prefix of them is in the state, and maybe
    /// they are on the disk.
    fn take(&mut self, alloc: Global, changes: &[Change]) -> Result<(), NotTaken>
        ensures all { OnOk result ((start : ℕ) (list : List Piece)
            → HasTaken D.seen D.may_leave self.old start list
            → HasTaken D.seen D.may_leave self.new start (list ++ changes.now)) }
        ensures part { OnErr result ((start : ℕ) (list : List Piece)
            → HasTaken D.seen D.may_leave self.old start list
            → (count : ℕ) × HasTaken D.seen D.may_leave self.new start (list ++ take count
            changes.now)) }
        ensures open { OnOk result (self.new.is_open ≡ true) }
        ensures life { self.new.life ≡ self.old.life }

        // A crash at any moment of the call leaves a file that says all that the file said before.
        ensures any_moment { (said : List Piece) (n : ℕ)
            → IsCovering D.seen D.may_leave self.old.file said n
            → LeavesOnly D.moment D.left_since self.old.file.journal.device
            self.new.file.journal.device (Covers said n) }

        // And one that has nothing else than what it had, and these changes.
        ensures given { (given : List Piece) → WasGiven D.seen D.may_leave self.old given
            → WasGiven D.seen D.may_leave self.new (given ++ changes.now) }
        ensures any_moment_given { (given : List Piece)
            → IsWithoutOthers D.seen D.may_leave self.old.file given
            → LeavesOnly D.moment D.left_since self.old.file.journal.device
            self.new.file.journal.device (HasNoOthers (given ++ changes.now)) }
    {
        if !self.is_open || changes.len() > MOST_CHANGES {
            return Err(NotTaken);
        }
        match append_fresh(alloc, &mut self.file, &self.state, changes) {
            Ok(()) => Taker::take(&mut self.state, alloc, changes),
            Err(_) => {
                self.is_open = false;
                Err(NotTaken)
            }
        }
    }
}

/// What a keeper gives out is what it has taken.
impl<D: Device> Source for Keeper<D> {
    ghost holds = { λ k start list. HasTaken D.seen D.may_leave k start list };

    ghost may_add = { λ _ others. others ≡ [] };

    fn delta(&mut self, alloc: Global, from: u64) -> Result<Delta, DeltaFault>
        ensures given { IfOk result (λ d. (start : ℕ) (list : List Piece)
            → HasTaken D.seen D.may_leave self.old start list
            → d ≡ delta start list from) }
        ensures memory { IfErr result (λ fault. fault ≡ DeltaFault.NoMemory) }
        ensures same { self.new ≡ self.old }
    {
        match delta_since(alloc, &self.state, from) {
            Ok(delta) => Ok(delta),
            Err(_) => Err(DeltaFault::NoMemory),
        }
    }
}

/// Goes on with a file that a crash may have left, with what was found in it when it was read. It may crash too. An `Err` hands
/// the file back.
pub fn open<D: Device>(device: D, found: Found) -> Result<Keeper<D>, (FileFault, D)>
    requires found { IsFound (D.seen device) found }
    // After a restart, what is read is what is on the disk.
    requires durable { Only (D.seen device) (D.may_leave device) }

    ensures open { IfOk result (λ k. k.is_open ≡ true) }

    // What any earlier life has taken is taken again: the file says all that any file said in its place. And it knows each
    // earlier life.
    ensures taken { IfOk result (λ k. (said : List Piece) (n : ℕ) → Covers said n (D.seen device)
        → (list : List Piece) × Says list said × HasTaken D.seen D.may_leave k found.front list
        × (n ≤ k.life)) }

    // A crash at any moment leaves a file that says all that was said before, and knows each life.
    ensures any_moment { IfOk result (λ k. (said : List Piece) (n : ℕ)
        → Covers said n (D.seen device)
        → LeavesOnly D.moment D.left_since device k.file.journal.device (Covers said n)) }
    ensures any_moment_err { IfErr result (λ e. (said : List Piece) (n : ℕ)
        → Covers said n (D.seen device)
        → LeavesOnly D.moment D.left_since device e.1 (Covers said n)) }

    // Nothing comes to it.
    ensures given { IfOk result (λ k. (given : List Piece) → HasNoOthers given (D.seen device)
        → WasGiven D.seen D.may_leave k given) }
    ensures any_moment_given { IfOk result (λ k. (given : List Piece)
        → HasNoOthers given (D.seen device)
        → LeavesOnly D.moment D.left_since device k.file.journal.device (HasNoOthers given)) }
    ensures any_moment_given_err { IfErr result (λ e. (given : List Piece)
        → HasNoOthers given (D.seen device)
        → LeavesOnly D.moment D.left_since device e.1 (HasNoOthers given)) }

    // It doesn't give up by itself.
    ensures failed { IfErr result (λ e. e.0 ≡ FileFault.Failed → D.faults device < D.faults e.1) }
    ensures full { IfErr result (λ e. e.0 ≡ FileFault.Full → ⊥) }
    ensures changes { IfErr result (λ e. e.0 ≡ FileFault.NoChanges → ⊥) }
    ensures damaged { IfErr result (λ e. e.0 ≡ FileFault.Damaged → ⊥) }
{
    match resume(device, found.end) {
        Ok(file) => Ok(Keeper {
            file,
            state: found.state,
            is_open: true,
            life: found.life,
        }),
        Err(failed) => Err(failed),
    }
}
