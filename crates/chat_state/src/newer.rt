//! The pieces that are newer than a number.

ghost use Rattle.std.specs.Prelude.{map, IfOk};
ghost use Rattle.chat_state.specs.Piece.{entry_of};
ghost use Rattle.chat_history.specs.Newer.{AreFirstNewer};

use crate::state::State;
use crate::store::Piece;
use byte_text::NoMemory;
use std::alloc::Global;

impl State {
    /// The pieces with numbers above `from`, by rising number, at most so many as the limit says.
    pub fn newer(&self, alloc: Global, from: u64, limit: usize) -> Result<Vec<Piece<'_>>, NoMemory>
        ensures { IfOk result (λ pieces.
            AreFirstNewer self.now from limit (map entry_of pieces.items)) }
    {
        let mut newer = Vec::new(alloc);
        let mut last = from;
        while newer.len() < limit {
            let Some(piece) = self.store.next_above(last) else {
                return Ok(newer);
            };
            last = piece.number();
            let Ok(()) = newer.push(piece) else {
                return Err(NoMemory);
            };
        }
        Ok(newer)
    }
}
