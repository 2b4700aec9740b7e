//! Laws of the definitions. Their contracts are the laws, and their bodies are empty.
ghost use Rattle.std.specs.List.{list_any};
ghost use Rattle.std.specs.Prelude.{◌≡◌, ◌<◌, ◌≤◌, ◌↔◌, ◌⊎◌, ◌&&◌, IsTrue, true, false};
ghost use Rattle.std.specs.Prelude.{ℕ, List, length, None, Some};
ghost use Rattle.std.specs.declared.cmp.Ordering.TheVariants.{Less, Equal};
ghost use Rattle.std.specs.Ordering.{ordering_then, eq_by_cmp};
ghost use Rattle.std.specs.Cmp.{IsTotalOrder};
ghost use Rattle.chat_change.specs.Words.{is_name, is_target, is_id, is_source, is_body, is_tags};
ghost use Rattle.byte_text.specs.Words.{ends_word};
ghost use Rattle.chat_change.specs.Words.{lower_case_of};
ghost use Rattle.chat_change.specs.Tags.{Spells};
ghost use Rattle.irc_tags.specs.TagList.{Tag};
ghost use Rattle.irc_tags.specs.Text.{tags_text};
ghost use Rattle.chat_change.specs.Buffer.{Buffer, buffer_of, IsLawfulBuffer};
ghost use Rattle.chat_change.specs.Message.{Message, line_of, IsLawfulMessage};
ghost use Rattle.chat_change.specs.Record.{Record};
ghost use Rattle.chat_change.specs.Faults.{account_fault, buffer_fault, id_fault, record_fault, tagged_fault};
ghost use Rattle.byte_text.specs.Order.{text_cmp};
ghost use Rattle.chat_change.specs.Order.{id_cmp, buffer_cmp, record_cmp, GoesBefore};
ghost use Rattle.chat_change.specs.declared.faults.ChangeFault.TheVariants as fault;

use crate::message::LINE_LIMIT;
use crate::words::TAGS_LIMIT;

/// Of the records of one message one is kept, whatever the order in which they are compared.
///
/// One record of a message goes before another where it is later; where both are of one moment and its tags are greater,
/// compared by bytes; or where both are of one moment, with the same tags, and its (kind letter, source, target, body) is
/// the smaller one, compared in this order by bytes. No record goes before itself, and of two
/// different records of one message one goes before the other.
pub fn records_of_a_message_are_ordered()
    ensures comparison { (r s : Record) → r.buffer ≡ s.buffer → r.id ≡ s.id →
        (record_cmp r s ≡ Less) ↔ GoesBefore r s }
    ensures irreflexive { (r : Record) → ¬ GoesBefore r r }
    ensures transitive { (r s t : Record) → GoesBefore r s → GoesBefore s t → GoesBefore r t }
    ensures total { (r s : Record) → r.buffer ≡ s.buffer → r.id ≡ s.id → ¬ (r ≡ s) →
        GoesBefore r s ⊎ GoesBefore s r }
{}

/// Buffers are ordered by account, then network, then target, each byte by byte, and only equal buffers tie.
pub fn buffers_are_ordered_by_their_names()
    ensures by_names { (a b : Buffer) →
        buffer_cmp a b ≡ ordering_then (text_cmp a.account b.account)
        (ordering_then (text_cmp a.network b.network) (text_cmp a.target b.target)) }
    ensures total { IsTotalOrder buffer_cmp }
    ensures exact { (a b : Buffer) → buffer_cmp a b ≡ Equal → a ≡ b }
    ensures equality { (a b : Buffer) → IsTrue (eq_by_cmp buffer_cmp a b) ↔ (a ≡ b) }
{}

/// Message ids are compared byte by byte, and only equal ids tie. Among the keys of a map the greatest stands first.
pub fn ids_are_ordered_by_their_bytes()
    ensures total { IsTotalOrder text_cmp }
    ensures exact { (a b : List ℕ) → text_cmp a b ≡ Equal → a ≡ b }
    ensures equality { (a b : List ℕ) → IsTrue (eq_by_cmp text_cmp a b) ↔ (a ≡ b) }
    ensures greatest_first { (a b : List ℕ) → id_cmp a b ≡ text_cmp b a }
{}

/// The makers refuse exactly what has no lawful parts, and what they make is lawful.
pub fn makers_give_lawful_fields()
    ensures accounts { (name : List ℕ) → (account_fault name ≡ None) ↔ (is_name name ≡ true) }
    ensures buffer_parts { (account network target : List ℕ) →
        (buffer_fault account network target ≡ None)
        ↔ ((is_name account ≡ true) × (is_name network ≡ true) × (is_target target ≡ true)) }
    ensures buffers { (account network target : List ℕ) →
        buffer_fault account network target ≡ None →
        IsLawfulBuffer (buffer_of account network target) }
    ensures ids { (text : List ℕ) → (id_fault text ≡ None) ↔ (is_id text ≡ true) }
    ensures messages { (m : Message) → (record_fault m ≡ None) ↔ IsLawfulMessage m }
    ensures tagged { (m : Message) (tags : List ℕ) →
        (tagged_fault m tags ≡ None) ↔ (IsLawfulMessage m × (is_tags tags ≡ true)) }
{}

/// Why the makers of buffers and ids refuse: for a buffer a bad name goes before a bad target.
pub fn makers_of_keys_tell_the_first_fault()
    ensures bad_name { (account network target : List ℕ) →
        (buffer_fault account network target ≡ Some fault.BadName)
        ↔ ((is_name account && is_name network) ≡ false) }
    ensures bad_target { (account network target : List ℕ) →
        (buffer_fault account network target ≡ Some fault.BadTarget)
        ↔ (((is_name account && is_name network) ≡ true) × (is_target target ≡ false)) }
    ensures bad_id { (text : List ℕ) → (id_fault text ≡ Some fault.BadId) ↔ (is_id text ≡ false) }
{}

/// Why the makers of records refuse: their faults come in the order target, source, body, line, tags.
pub fn maker_of_records_tells_the_first_fault()
    ensures bad_target { (m : Message) → (record_fault m ≡ Some fault.BadTarget)
        ↔ (is_target m.target ≡ false) }
    ensures bad_source { (m : Message) → (record_fault m ≡ Some fault.BadSource)
        ↔ ((is_target m.target ≡ true) × (is_source m.source ≡ false)) }
    ensures bad_body { (m : Message) → (record_fault m ≡ Some fault.BadBody)
        ↔ ((is_target m.target ≡ true) × (is_source m.source ≡ true) × (is_body m.body ≡ false)) }
    ensures line_too_long { (m : Message) → (record_fault m ≡ Some fault.LineTooLong)
        ↔ ((is_target m.target ≡ true) × (is_source m.source ≡ true)
        × (is_body m.body ≡ true) × (LINE_LIMIT < length (line_of m))) }
    ensures bad_tags { (m : Message) (tags : List ℕ) →
        (tagged_fault m tags ≡ Some fault.BadTags)
        ↔ (IsLawfulMessage m × (is_tags tags ≡ false)) }
{}

/// The tags of a record are what is written of client-only tags with distinct keys (IRCv3 message-tags, "Client-only
/// tags"), and all of these are such that have 1 to 4094 bytes and none of NUL, CR, LF and space.
pub fn tags_are_written_of_client_only_tags()
    ensures spell { (text : List ℕ) → is_tags text ≡ true → (tags : List Tag) × Spells text tags }
    ensures all { (tags : List Tag) → Spells (tags_text tags) tags
        → 0 < length (tags_text tags) → length (tags_text tags) ≤ TAGS_LIMIT
        → list_any ends_word (tags_text tags) ≡ false → is_tags (tags_text tags) ≡ true }
{}

/// Folding changes nothing that is folded. What is folded is a target exactly where the text was one.
pub fn folding_keeps_targets()
    ensures idempotent { (text : List ℕ) → lower_case_of (lower_case_of text) ≡ lower_case_of text }
    ensures targets { (text : List ℕ) → is_target (lower_case_of text) ≡ is_target text }
{}
