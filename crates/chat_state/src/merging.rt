//! Merging one state into another.

ghost use Rattle.std.specs.Prelude.{◌≡◌, OnOk, IfErr};
ghost use Rattle.chat_history.specs.Merging.{history_of_both, TakesFirst, TakesAll};
ghost use Rattle.chat_state.specs.declared.faults.StateFault.TheVariants as fault;

use crate::faults::TakeFault;
use crate::state::State;

impl State {
    /// Takes the pieces of another state by rising number. After a refusal the first `taken` of them stand.
    pub fn merge(&mut self, other: &State) -> Result<(), TakeFault>
        ensures ok { OnOk result (self.new.history ≡ history_of_both self.old other.now) }
        ensures all { OnOk result (TakesAll self.old other.now self.new) }
        ensures refused { IfErr result (λ e. TakesFirst self.old other.now self.new e.taken
            (e.cause ≡ fault.Exhausted)) }
    {
        // it shows that each piece stands under its own key
        let _ = &self.store;
        let mut taken: usize = 0;
        let mut last: u64 = 0;
        while let Some(piece) = other.store.next_above(last) {
            if let Err(cause) = self.absorb_copy(&piece.change) {
                return Err(TakeFault { taken, cause });
            }
            last = piece.number();
            taken += 1;
        }
        Ok(())
    }
}
