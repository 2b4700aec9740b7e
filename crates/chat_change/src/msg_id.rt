//! Message ids (IRCv3 message-ids).
ghost use Rattle.std.specs.Prelude.{◌≡◌, ◌↔◌, IsTrue, true, ℕ, List, IfOk, IfErr, None};
ghost use Rattle.chat_change.specs.Words as spec;
ghost use Rattle.chat_change.specs.Faults.{id_fault, fault_or_no_memory};
ghost use Rattle.chat_change.specs.CompactText.{bytes_of};
ghost use Rattle.byte_text.specs.Order.{text_cmp};

use crate::compact_text::CompactText;
use crate::faults::ChangeFault;
use crate::words::is_id;
use std::alloc::{AllocError, Global};
use std::cmp::Ordering;
use std::marker::Model;
use std::sync::Arc;

/// The id of a message (IRCv3 message-ids), compared byte for byte. Contracts see it as the list of its bytes.
pub struct MsgId {
    // shared with every clone
    text: Arc<CompactText>,
}

// Written out, so that this is proved once, and not in each crate that lets an id go.
impl Drop for MsgId {
    fn drop(self) {
        let Self { text: _text } = self;
    }
}

impl Model for MsgId {
    ghost Value = { List ℕ };

    ghost view = { λ m. bytes_of m.text.value };

    ghost invariant = { λ m. spec.is_id (bytes_of m.text.value) ≡ true };
}

impl MsgId {
    /// The id of these bytes, which are kept as they are.
    ///
    /// Refused with [`ChangeFault::BadId`] unless it has 1 to 255 bytes, none of NUL, CR, LF and space, and doesn't begin
    /// with `:`, so that it can be a middle parameter (RFC 1459 and RFC 2812, section 2.3), as in `REDACT` (IRCv3
    /// draft/message-redaction).
    pub fn new(alloc: Global, text: &[u8]) -> Result<MsgId, ChangeFault>
        ensures made { IfOk result (λ id. id ≡ text.now) }
        ensures lawful { IfOk result (λ _. id_fault text.now ≡ None) }
        ensures refused { IfErr result (λ fault. fault ≡ fault_or_no_memory (id_fault text.now)) }
    {
        if !is_id(text) {
            return Err(ChangeFault::BadId);
        }
        match MsgId::from_lawful(alloc, text) {
            Ok(id) => Ok(id),
            Err(_) => Err(ChangeFault::NoMemory),
        }
    }

    // Of bytes that are an id.
    pub(crate) fn from_lawful(alloc: Global, text: &[u8]) -> Result<MsgId, AllocError>
        requires { spec.is_id text.now ≡ true }
        ensures { IfOk result (λ id. id ≡ text.now) }
    {
        let text = CompactText::new(alloc, text)?;
        let text = Arc::new(alloc, text)?;
        Ok(MsgId { text })
    }

    /// The bytes of the id.
    pub fn as_bytes(&self) -> &[u8]
        ensures value { result.now ≡ self.now }
        ensures lawful { spec.is_id result.now ≡ true }
    {
        self.text.as_bytes()
    }

    /// An equal id, which shares its memory. It takes none, and fails only where the id has 2^63 - 1 owners.
    pub fn try_clone(&self) -> Result<MsgId, AllocError>
        ensures { IfOk result (λ copy. copy ≡ self.now) }
    {
        let text = Arc::try_clone(&self.text)?;
        Ok(MsgId { text })
    }

    /// Whether both are one id.
    pub fn is_same(&self, other: &MsgId) -> bool
        ensures { IsTrue result ↔ (self.now ≡ other.now) }
    {
        self.as_bytes() == other.as_bytes()
    }

    /// How two ids compare, byte by byte.
    pub fn text_order(&self, other: &MsgId) -> Ordering
        ensures { result ≡ text_cmp self.now other.now }
    {
        self.text.order(&other.text)
    }
}

impl PartialEq for MsgId {
    ghost use Rattle.std.proofs.Common.{rules};
    ghost use Rattle.std.specs.Cmp.Rules.{comparing};
    ghost use Rattle.std.specs.Ordering.{eq_by_cmp};

    ghost eq = { eq_by_cmp text_cmp };

    ghost laws = { Prim.search (comparing, rules) };

    fn eq(&self, other: &MsgId) -> bool {
        self.text_order(other).is_eq()
    }
}

impl Eq for MsgId {
    ghost use Rattle.std.proofs.Common.{rules};
    ghost use Rattle.std.specs.Cmp.Rules.{comparing};

    ghost laws = { Prim.search (comparing, rules) };
}

impl PartialOrd for MsgId {
    ghost use Rattle.std.proofs.Common.{rules};
    ghost use Rattle.std.specs.Cmp.Rules.{comparing};
    ghost use Rattle.std.specs.Ordering.{as_partial_cmp};

    ghost partial_cmp = { as_partial_cmp text_cmp };

    ghost laws = { Prim.search (comparing, rules) };

    fn partial_cmp(&self, other: &MsgId) -> Option<Ordering> {
        Some(self.cmp(other))
    }
}

/// Ids are compared byte by byte.
impl Ord for MsgId {
    ghost use Rattle.std.proofs.Common.{rules};
    ghost use Rattle.std.specs.Cmp.Rules.{comparing};

    ghost cmp = { text_cmp };

    ghost total = { Prim.search (comparing, rules) };

    ghost matches_partial_cmp = { Prim.search (comparing, rules) };

    ghost matches_eq = { Prim.search (comparing, rules) };

    fn cmp(&self, other: &MsgId) -> Ordering {
        self.text_order(other)
    }
}

/// A clone shares its memory, as one by [`MsgId::try_clone`] does.
impl Clone for MsgId {
    ghost is_clone = { λ msg_id copy. copy ≡ msg_id };

    fn clone(&self) -> Result<MsgId, AllocError> {
        self.try_clone()
    }
}
