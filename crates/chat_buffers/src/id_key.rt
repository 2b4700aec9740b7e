//! Message ids as keys of a map.

ghost use Rattle.std.specs.Prelude.{◌≡◌, ◌<◌, length};
ghost use Rattle.std.proofs.Common.{rules};
ghost use Rattle.std.specs.Cmp.Rules.{comparing};
ghost use Rattle.std.specs.Ordering.{as_partial_cmp, eq_by_cmp};
ghost use Rattle.chat_change.specs.Order.{id_cmp};
ghost use Rattle.chat_buffers.specs.IdKey.{id_prefix, leading};
ghost use Rattle.chat_buffers.specs.Prefixes.{id_ascends};

use chat_change::MsgId;
use ordered_maps::{Lookup, Prefixed};
use std::alloc::AllocError;
use std::cmp::Ordering;
use std::marker::Model;

// How many bytes of an id its prefix has.
const WIDTH: usize = 8;

/// The id of a message, as a key, with its first bytes as a number beside it. It is seen as the id.
#[derive(Drop)]
pub(crate) struct IdKey {
    prefix: u64,
    id: MsgId,
}

impl Model for IdKey {
    ghost use Rattle.std.specs.Prelude.{◌≡◌, ℕ, List};
    ghost use Rattle.chat_buffers.specs.IdKey.{id_prefix};

    ghost Value = { List ℕ };

    ghost view = { λ k. k.id };

    ghost invariant = { λ k. k.prefix ≡ id_prefix k.id };
}

/// An id that is looked up, with its first bytes as a number beside it. It is seen as the id.
#[derive(Drop)]
pub(crate) struct SoughtId<'a> {
    prefix: u64,
    id: &'a MsgId,
}

impl<'a> Model for SoughtId<'a> {
    ghost use Rattle.std.specs.Prelude.{◌≡◌, ℕ, List};
    ghost use Rattle.chat_buffers.specs.IdKey.{id_prefix};

    ghost Value = { List ℕ };

    ghost view = { λ s. s.id.now };

    ghost invariant = { λ s. s.prefix ≡ id_prefix s.id.now };
}

// The first bytes of an id as a number, the first counting most. Where it is shorter, there are zeros.
fn leading(id: &MsgId) -> u64
    ensures { result ≡ leading WIDTH id.now }
{
    let bytes = id.as_bytes();
    match bytes.first_chunk::<WIDTH>() {
        Some(first) => number_of(*first),
        None => padded(bytes),
    }
}

// The same of fewer bytes.
fn padded(bytes: &[u8]) -> u64
    requires { length bytes.now < WIDTH }
    ensures { result ≡ leading WIDTH bytes.now }
{
    let mut first = [0; WIDTH];
    first[..bytes.len()].copy_from_slice(bytes);
    number_of(first)
}

// Bytes as one number, the first counting most.
fn number_of(bytes: [u8; WIDTH]) -> u64
    ensures { result ≡ leading WIDTH bytes }
{
    u64::from_be_bytes(bytes)
}

// The prefix of an id. As the greatest id comes first, it is the less the greater the id is.
fn prefix_of(id: &MsgId) -> u64
    ensures { result ≡ id_prefix id.now }
{
    u64::MAX - leading(id)
}

impl IdKey {
    /// An id as a key.
    pub(crate) fn of(id: MsgId) -> IdKey
        ensures { result ≡ id }
    {
        IdKey {
            prefix: prefix_of(&id),
            id,
        }
    }

    /// The id.
    pub(crate) fn id(&self) -> &MsgId
        ensures { result.now ≡ self.now }
    {
        &self.id
    }
}

impl<'a> SoughtId<'a> {
    /// An id to be looked up.
    pub(crate) fn of(id: &'a MsgId) -> SoughtId<'a>
        ensures { result ≡ id.now }
    {
        SoughtId {
            prefix: prefix_of(id),
            id,
        }
    }
}

impl Prefixed for IdKey {
    ghost prefix_of = { id_prefix };

    fn prefix(&self) -> u64 {
        self.prefix
    }

    ghost ascends = { id_ascends };
}

impl<'a> Lookup<IdKey> for SoughtId<'a> {
    ghost key = { λ s. s };

    fn key_prefix(&self) -> u64 {
        self.prefix
    }

    fn order_of(&self, other: &IdKey) -> Ordering {
        self.id.text_order(&other.id)
    }
}

impl PartialEq for IdKey {
    ghost eq = { eq_by_cmp id_cmp };

    ghost laws = { Prim.search (comparing, rules) };

    fn eq(&self, other: &IdKey) -> bool {
        self.cmp(other).is_eq()
    }
}

impl Eq for IdKey {
    ghost laws = { Prim.search (comparing, rules) };
}

impl PartialOrd for IdKey {
    ghost partial_cmp = { as_partial_cmp id_cmp };

    ghost laws = { Prim.search (comparing, rules) };

    fn partial_cmp(&self, other: &IdKey) -> Option<Ordering> {
        Some(self.cmp(other))
    }
}

/// The greatest id comes first. The ids that a node makes rise, and a map looks at its first keys first: so the place of
/// a new one is found at once.
impl Ord for IdKey {
    ghost cmp = { id_cmp };

    ghost total = { Prim.search (comparing, rules) };

    ghost matches_partial_cmp = { Prim.search (comparing, rules) };

    ghost matches_eq = { Prim.search (comparing, rules) };

    fn cmp(&self, other: &IdKey) -> Ordering {
        other.id.text_order(&self.id)
    }
}

/// A clone shares the memory of the id.
impl Clone for IdKey {
    ghost is_clone = { λ key copy. copy ≡ key };

    fn clone(&self) -> Result<IdKey, AllocError> {
        let id = self.id.try_clone()?;
        Ok(IdKey {
            prefix: self.prefix,
            id,
        })
    }
}
