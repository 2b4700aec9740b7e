//! Laws of the definitions. Their contracts are the laws, and their bodies are empty.

ghost use Rattle.std.specs.Prelude.{◌≡◌, ◌≤◌, ◌++◌, ℕ, List, Contains, Some, false};
ghost use Rattle.chat_change.specs.Buffer as spec;
ghost use Rattle.chat_change.specs.declared.change.Change.{Change};
ghost use Rattle.chat_change.specs.declared.change.Change.TheVariants.{Post};
ghost use Rattle.chat_change.specs.Key.{key_of};
ghost use Rattle.chat_change.specs.Record.{Record};
ghost use Rattle.chat_history.specs.History.{History, norm, changes_of, join, mark, floor, is_gone, SameSet, IsAtMost};
ghost use Rattle.chat_history.specs.Numbering.{front, delta};
ghost use Rattle.chat_history.specs.UpTo.{IncludesUpTo};
ghost use Rattle.std.specs.FinMap.{get};

pub mod lookups;

/// Only membership counts: neither order nor repeats change the normal form.
pub fn norm_is_of_the_set()
    ensures { (a b : List Change) → SameSet a b → norm a ≡ norm b }
{}

/// The normal forms of two sets, taken together, have the normal form of all.
pub fn normal_forms_join()
    ensures { (a b : List Change) →
        norm (changes_of (norm a) ++ changes_of (norm b)) ≡ norm (a ++ b) }
{}

/// Merging is commutative, associative and idempotent.
pub fn join_is_a_semilattice()
    ensures commutative { (a b : List Change) → join a b ≡ join b a }
    ensures associative { (a b c : List Change) →
        join (changes_of (join a b)) c ≡ join a (changes_of (join b c)) }
    ensures idempotent { (a : List Change) → join a a ≡ norm a }
{}

/// Adding changes never lowers a marker.
pub fn markers_never_fall()
    ensures { (a more : List Change) (b : spec.Buffer) → IsAtMost (mark a b) (mark (a ++ more) b) }
{}

/// A normal form is its own normal form.
pub fn norm_is_idempotent()
    ensures { (a : List Change) → norm (changes_of (norm a)) ≡ norm a }
{}

/// A history in normal form, as a state stores it, holds the piece of each key and nothing else. So there is no text of a
/// redacted message and no record below its floor.
pub fn stored_records_are_pieces()
    ensures pieces { (h : History) → norm (changes_of h) ≡ h → (c : Change) →
        Contains (changes_of h) c → get h (key_of c) ≡ Some c }
    ensures none_redacted { (h : History) → norm (changes_of h) ≡ h →
        (r : Record) → Contains (changes_of h) (Post r) → is_gone (changes_of h) r.buffer r.id
        ≡ false }
    ensures none_below { (h : History) → norm (changes_of h) ≡ h → (r : Record) →
        Contains (changes_of h) (Post r) → floor (changes_of h) r.buffer ≤ r.at }
{}

/// Whoever includes the pieces that a node held with numbers up to `from`, and takes the delta since `from` of what
/// the node holds now, includes the pieces that it holds now with numbers up to the delta's `to`.
pub fn delta_carries()
    ensures carried { (start from : ℕ) (taken earlier more : List Change) →
        from ≤ front start earlier → IncludesUpTo taken start earlier from →
        let sent = delta start (earlier ++ more) from in
        IncludesUpTo (taken ++ sent.changes) start (earlier ++ more) sent.to }
    // Without a delta nothing is lost: what the node takes meanwhile gets higher numbers.
    ensures kept { (start upto : ℕ) (taken more earlier later : List Change) →
        upto ≤ front start earlier → IncludesUpTo taken start earlier upto →
        IncludesUpTo (taken ++ more) start (earlier ++ later) upto }
    ensures reached { (start from : ℕ) (changes : List Change) →
        from ≤ front start changes → (delta start changes from).to ≤ front start changes }
{}
