//! Laws of what a state holds: those of its normal form, from `chat_history`, and one of its index by number. Their
//! contracts are the laws, and their bodies are empty.

ghost use Rattle.chat_buffers.specs.Store.{Store, IsKeyedStore};
ghost use Rattle.chat_state.specs.Index.{ByNumber, IsIndexed, HoldsNoRedacted};

pub use chat_history::laws::{
    join_is_a_semilattice, lookups, markers_never_fall, norm_is_idempotent, norm_is_of_the_set,
    normal_forms_join, stored_records_are_pieces,
};

/// The index by number, as the store of each [`State`](crate::State) keeps it, holds no record of a message that is
/// redacted (IRCv3 draft/message-redaction): none of its text is left there.
pub fn redacted_text_leaves_the_index()
    ensures { (s : Store) (index : ByNumber) → IsKeyedStore s → IsIndexed s index
        → HoldsNoRedacted s index }
{}
