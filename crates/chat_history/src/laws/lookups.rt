//! What markers, floors, positions, kept and visible records are, in the members of a set of changes.

ghost use Rattle.std.specs.Prelude.{◌≡◌, ◌≢◌, ◌≤◌, ◌<◌, ◌↔◌, ◌⊎◌, ℕ, List, Option, IsTrue, Contains, false};
ghost use Rattle.std.specs.Ordering.{on};
ghost use Rattle.std.specs.List.Sorted.{IsStrictlySortedBy};
ghost use Rattle.std.specs.declared.cmp.Ordering.TheVariants.{Less};
ghost use Rattle.chat_change.specs.Buffer as buffer;
ghost use Rattle.std.specs.FinMap.{get};
ghost use Rattle.chat_change.specs.Extent.{OfAccount, OfBuffer};
ghost use Rattle.chat_change.specs.Key.{FloorOf};
ghost use Rattle.chat_change.specs.Record as message;
ghost use Rattle.chat_change.specs.Order.{record_cmp};
ghost use Rattle.chat_change.specs.declared.change.Change.{Change};
ghost use Rattle.chat_change.specs.declared.change.Change.TheVariants.{Redact, Mark, Floor, AccountFloor};
ghost use Rattle.chat_history.specs.History.{norm, changes_of, mark, floor, account_floor, is_gone, kept_record, position_of};
ghost use Rattle.chat_history.specs.Members.{IsStandingPost, IsMomentOf};
ghost use Rattle.chat_history.specs.Lookups.{position_in};
ghost use Rattle.chat_history.specs.Visible.{visible, spot_of, spot_cmp};

/// The marker of a buffer is the greatest that was set (IRCv3 draft/read-marker).
pub fn marker_is_the_greatest()
    ensures set { (changes : List Change) (b : buffer.Buffer) (t : ℕ) →
        (mark changes b ≡ Some t) ↔ (Contains changes (Mark b t) × ((u : ℕ) →
        Contains changes (Mark b u) → u ≤ t)) }
    ensures none { (changes : List Change) (b : buffer.Buffer) → (mark changes b ≡ None) ↔
        ((t : ℕ) → ¬ (Contains changes (Mark b t))) }
{}

/// The floor of an account is the greatest that was set for it, and 0 where none was. The floor of a buffer is the greatest
/// that was set for it or for its account.
pub fn floor_is_the_greatest()
    ensures account_bound { (changes : List Change) (a : List ℕ) (t : ℕ) →
        Contains changes (AccountFloor a t) → t ≤ account_floor changes a }
    ensures account_set { (changes : List Change) (a : List ℕ) → (account_floor changes a ≡ 0)
        ⊎ Contains changes (AccountFloor a (account_floor changes a)) }
    ensures around { (changes : List Change) (b : buffer.Buffer) →
        account_floor changes b.account ≤ floor changes b }
    ensures bound { (changes : List Change) (b : buffer.Buffer) (t : ℕ) →
        Contains changes (Floor b t) → t ≤ floor changes b }
    ensures set { (changes : List Change) (b : buffer.Buffer) →
        (floor changes b ≡ account_floor changes b.account)
        ⊎ Contains changes (Floor b (floor changes b)) }
{}

/// A normal form holds the floor of each account that has one, and a buffer's own one only where it is above that of its
/// account.
pub fn floors_are_held_where_they_matter()
    ensures account { (changes : List Change) (a : List ℕ) → 0 < account_floor changes a →
        get (norm changes) (FloorOf (OfAccount a))
        ≡ Some (AccountFloor a (account_floor changes a)) }
    ensures buffer { (changes : List Change) (b : buffer.Buffer) →
        account_floor changes b.account < floor changes b →
        get (norm changes) (FloorOf (OfBuffer b)) ≡ Some (Floor b (floor changes b)) }
    ensures none_of_account { (changes : List Change) (a : List ℕ) →
        account_floor changes a ≡ 0 → get (norm changes) (FloorOf (OfAccount a)) ≡ None }
    ensures none_of_buffer { (changes : List Change) (b : buffer.Buffer) →
        floor changes b ≡ account_floor changes b.account →
        get (norm changes) (FloorOf (OfBuffer b)) ≡ None }
{}

/// A message is gone where some redaction names it (IRCv3 draft/message-redaction).
pub fn gone_is_named()
    ensures { (changes : List Change) (b : buffer.Buffer) (m : List ℕ) →
        IsTrue (is_gone changes b m) ↔ ((t : Option ℕ) × Contains changes (Redact b m t)) }
{}

/// Of the posts of a message at or above the floor that one is kept before which no other goes.
pub fn kept_goes_first()
    ensures kept { (changes : List Change) (b : buffer.Buffer) (m : List ℕ)
        (r : message.Record) → (kept_record changes b m ≡ Some r) ↔
        (IsStandingPost changes b m r × ((q : message.Record) → IsStandingPost changes b m q →
        record_cmp q r ≢ Less)) }
    ensures none { (changes : List Change) (b : buffer.Buffer) (m : List ℕ) →
        (kept_record changes b m ≡ None) ↔
        ((r : message.Record) → ¬ (IsStandingPost changes b m r)) }
{}

/// The position of a message is the greatest moment at or above the floor that its posts have or its redactions name.
pub fn position_is_the_greatest()
    ensures some { (changes : List Change) (b : buffer.Buffer) (m : List ℕ) (t : ℕ) →
        (position_of changes b m ≡ Some t) ↔ (IsMomentOf changes b m t × ((u : ℕ) →
        IsMomentOf changes b m u → u ≤ t)) }
    ensures none { (changes : List Change) (b : buffer.Buffer) (m : List ℕ) →
        (position_of changes b m ≡ None) ↔ ((t : ℕ) → ¬ (IsMomentOf changes b m t)) }
{}

/// The visible records of a buffer are the kept ones that weren't redacted, each once, sorted by (moment, id).
pub fn visible_is_kept_and_sorted()
    ensures members { (changes : List Change) (b : buffer.Buffer) (r : message.Record) →
        Contains (visible changes b) r ↔
        ((r.buffer ≡ b) × (is_gone changes b r.id ≡ false) ×
        (kept_record changes b r.id ≡ Some r)) }
    ensures sorted { (changes : List Change) (b : buffer.Buffer) →
        IsStrictlySortedBy (on spot_of spot_cmp) (visible changes b) }
{}

/// What is read off a normal form is what the set of changes says. What is kept of a redacted message isn't in it.
pub fn normal_form_reads_alike()
    ensures mark { (changes : List Change) (b : buffer.Buffer) →
        mark (changes_of (norm changes)) b ≡ mark changes b }
    ensures floor { (changes : List Change) (b : buffer.Buffer) →
        floor (changes_of (norm changes)) b ≡ floor changes b }
    ensures account_floor { (changes : List Change) (a : List ℕ) →
        account_floor (changes_of (norm changes)) a ≡ account_floor changes a }
    ensures gone { (changes : List Change) (b : buffer.Buffer) (m : List ℕ) →
        is_gone (changes_of (norm changes)) b m ≡ is_gone changes b m }
    ensures position { (changes : List Change) (b : buffer.Buffer) (m : List ℕ) →
        position_of (changes_of (norm changes)) b m ≡ position_of changes b m }
    ensures position_in { (changes : List Change) (b : buffer.Buffer) (m : List ℕ) →
        position_in (norm changes) b m ≡ position_of changes b m }
    ensures kept { (changes : List Change) (b : buffer.Buffer) (m : List ℕ) →
        is_gone changes b m ≡ false →
        kept_record (changes_of (norm changes)) b m ≡ kept_record changes b m }
{}
