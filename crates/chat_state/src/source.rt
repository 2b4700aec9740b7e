//! A state as a source and as a taker.
ghost use Rattle.std.specs.Prelude.{◌≡◌, ◌++◌, ℕ, List, [], IfOk, IfErr, OnOk, OnErr, take};
ghost use Rattle.chat_change.specs.declared.change.Change.{Change as Piece};
ghost use Rattle.chat_history.specs.StateValue as spec;
ghost use Rattle.chat_history.specs.Numbering as numbering;

use crate::since::delta_since;
use crate::state::State;
use chat_change::Change;
use chat_history::{Delta, DeltaFault, NotTaken, Source, Taker};
use std::alloc::Global;

impl Source for State {
    ghost holds = { λ s start list. s ≡ spec.state_after start list };

    ghost may_add = { λ _ others. others ≡ [] };

    /// [`delta_since`]. A state never answers `NoEntry`, and is left as it was.
    fn delta(&mut self, alloc: Global, from: u64) -> Result<Delta, DeltaFault>
        ensures given { IfOk result (λ d. (start : ℕ) (list : List Piece) →
            self.old ≡ spec.state_after start list → d ≡ numbering.delta start list from) }
        ensures same { self.new ≡ self.old }
        ensures fault { IfErr result (λ fault. fault ≡ DeltaFault.NoMemory) }
    {
        match delta_since(alloc, self, from) {
            Ok(delta) => Ok(delta),
            Err(_) => Err(DeltaFault::NoMemory),
        }
    }
}

impl Taker for State {
    ghost holds = { λ s start list. s ≡ spec.state_after start list };

    ghost may_add = { λ _ others. others ≡ [] };

    /// Takes all of them, or a prefix of them.
    fn take(&mut self, alloc: Global, changes: &[Change]) -> Result<(), NotTaken>
        ensures all { OnOk result ((start : ℕ) (list : List Piece) →
            self.old ≡ spec.state_after start list →
            self.new ≡ spec.state_after start (list ++ changes.now)) }
        ensures part { OnErr result ((start : ℕ) (list : List Piece) →
            self.old ≡ spec.state_after start list →
            (count : ℕ) × (self.new ≡ spec.state_after start (list ++ take count changes.now))) }
    {
        match State::take(self, changes) {
            Ok(()) => Ok(()),
            Err(_) => Err(NotTaken),
        }
    }
}
