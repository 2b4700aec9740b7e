//! Buffers: the conversations of accounts on networks.
ghost use Rattle.std.specs.Prelude.{◌≡◌, ◌↔◌, IsTrue, true, IfOk, IfErr, None};
ghost use Rattle.chat_change.specs.Words.{is_name, is_target, lower_case_of};
ghost use Rattle.chat_change.specs.Faults.{buffer_fault, fault_or_no_memory};
ghost use Rattle.chat_change.specs.Order.{buffer_cmp};

use crate::account::Account;
use crate::compact_text::CompactText;
use crate::faults::ChangeFault;
use crate::short_text::ShortText;
use crate::words::{NAME_LIMIT, is_name, is_target};
use std::alloc::{AllocError, Global};
use std::cmp::Ordering;
use std::marker::Model;
use std::sync::Arc;

/// One conversation of one account on one network: with a channel or with a nick, its target.
///
/// The target is folded: `A` to `Z` stand as `a` to `z`, and every other byte as it is, so that `#A` and `#a` are one
/// buffer. Buffers are ordered by account, then network, then target, each compared byte by byte.
pub struct Buffer {
    // in one block, shared with every clone
    names: Arc<Names>,
}

// Written out, so that this is proved once, and not in each crate that lets a buffer go.
impl Drop for Buffer {
    fn drop(self) {
        let Self { names: _names } = self;
    }
}

// The names of a buffer. A long target has a block of its own.
#[derive(Drop)]
struct Names {
    account: Account,
    network: ShortText<NAME_LIMIT>,
    // folded
    target: CompactText,
}

impl Model for Buffer {
    ghost use Rattle.chat_change.specs.Buffer as spec;
    ghost use Rattle.chat_change.specs.CompactText.{bytes_of};

    ghost Value = { spec.Buffer };

    ghost view = { λ b. record {
      account = b.names.value.account;
      network = b.names.value.network;
      target = bytes_of b.names.value.target;
    } };

    ghost invariant = { λ b. spec.IsLawfulBuffer (record {
      account = b.names.value.account;
      network = b.names.value.network;
      target = bytes_of b.names.value.target;
    }) };
}

impl Buffer {
    ghost use Rattle.chat_change.specs.Buffer.{buffer_of};

    /// The buffer of an account, a network and a target, whose letters `A` to `Z` are folded to `a` to `z`.
    ///
    /// Refused with [`ChangeFault::BadName`] unless account and network have 1 to 32 bytes of `a-z`, `0-9`, `-` and
    /// `_`, else with [`ChangeFault::BadTarget`] unless the target has 1 to 200 bytes, none of NUL, CR, LF, space and
    /// comma, doesn't begin with `:` and isn't `*` (a target is a middle parameter, and a list of targets has commas
    /// between them: RFC 1459 and RFC 2812, section 2.3).
    pub fn new(
        alloc: Global,
        account: &[u8],
        network: &[u8],
        target: &[u8],
    ) -> Result<Buffer, ChangeFault>
        ensures made { IfOk result (λ b. b ≡ buffer_of account.now network.now target.now) }
        ensures lawful { IfOk result (λ _. buffer_fault account.now network.now target.now ≡ None) }
        ensures refused { IfErr result (λ fault.
            fault ≡ fault_or_no_memory (buffer_fault account.now network.now target.now)) }
    {
        if !(is_name(account) && is_name(network)) {
            return Err(ChangeFault::BadName);
        }
        if !is_target(target) {
            return Err(ChangeFault::BadTarget);
        }
        match Buffer::from_lawful(alloc, account, network, target) {
            Ok(buffer) => Ok(buffer),
            Err(_) => Err(ChangeFault::NoMemory),
        }
    }

    fn from_lawful(
        alloc: Global,
        account: &[u8],
        network: &[u8],
        target: &[u8],
    ) -> Result<Buffer, AllocError>
        requires account { is_name account.now ≡ true }
        requires network { is_name network.now ≡ true }
        requires target { is_target target.now ≡ true }
        ensures { IfOk result (λ b. b ≡ buffer_of account.now network.now target.now) }
    {
        let mut target = CompactText::new(alloc, target)?;
        target.fold();
        let names = Names {
            account: Account::from_lawful(account),
            network: ShortText::new(network),
            target,
        };
        let names = Arc::new(alloc, names)?;
        Ok(Buffer { names })
    }

    /// The account whose buffer it is.
    pub fn owner(&self) -> &Account
        ensures { result.now ≡ self.now.account }
    {
        &self.names.account
    }

    /// The name of the account.
    pub fn account(&self) -> &[u8]
        ensures value { result.now ≡ self.now.account }
        ensures lawful { is_name result.now ≡ true }
    {
        self.names.account.name()
    }

    /// The name of the network.
    pub fn network(&self) -> &[u8]
        ensures value { result.now ≡ self.now.network }
        ensures lawful { is_name result.now ≡ true }
    {
        self.names.network.as_bytes()
    }

    /// The folded target.
    pub fn target(&self) -> &[u8]
        ensures value { result.now ≡ self.now.target }
        ensures lawful { is_target result.now ≡ true }
        ensures folded { lower_case_of result.now ≡ result.now }
    {
        self.names.target.as_bytes()
    }

    /// An equal buffer, which shares its memory. It takes none, and fails only where the buffer has 2^63 - 1 owners.
    pub fn try_clone(&self) -> Result<Buffer, AllocError>
        ensures { IfOk result (λ copy. copy ≡ self.now) }
    {
        let names = Arc::try_clone(&self.names)?;
        Ok(Buffer { names })
    }

    /// Whether both are one buffer.
    pub fn is_same(&self, other: &Buffer) -> bool
        ensures { IsTrue result ↔ (self.now ≡ other.now) }
    {
        self.order(other).is_eq()
    }

    // How two buffers compare: by account, network and target, byte by byte.
    fn order(&self, other: &Buffer) -> Ordering
        ensures { result ≡ buffer_cmp self.now other.now }
    {
        let account = self.names.account.order(&other.names.account);
        if account.is_ne() {
            return account;
        }
        let network = self.names.network.order(&other.names.network);
        if network.is_ne() {
            return network;
        }
        self.names.target.order(&other.names.target)
    }
}

impl PartialEq for Buffer {
    ghost use Rattle.std.proofs.Common.{rules};
    ghost use Rattle.std.specs.Cmp.Rules.{comparing};
    ghost use Rattle.std.specs.Ordering.{eq_by_cmp};

    ghost eq = { eq_by_cmp buffer_cmp };

    ghost laws = { Prim.search (comparing, rules) };

    fn eq(&self, other: &Buffer) -> bool {
        self.order(other).is_eq()
    }
}

impl Eq for Buffer {
    ghost use Rattle.std.proofs.Common.{rules};
    ghost use Rattle.std.specs.Cmp.Rules.{comparing};

    ghost laws = { Prim.search (comparing, rules) };
}

impl PartialOrd for Buffer {
    ghost use Rattle.std.proofs.Common.{rules};
    ghost use Rattle.std.specs.Cmp.Rules.{comparing};
    ghost use Rattle.std.specs.Ordering.{as_partial_cmp};

    ghost partial_cmp = { as_partial_cmp buffer_cmp };

    ghost laws = { Prim.search (comparing, rules) };

    fn partial_cmp(&self, other: &Buffer) -> Option<Ordering> {
        Some(self.cmp(other))
    }
}

impl Ord for Buffer {
    ghost use Rattle.std.proofs.Common.{rules};
    ghost use Rattle.std.specs.Cmp.Rules.{comparing};

    ghost cmp = { buffer_cmp };

    ghost total = { Prim.search (comparing, rules) };

    ghost matches_partial_cmp = { Prim.search (comparing, rules) };

    ghost matches_eq = { Prim.search (comparing, rules) };

    fn cmp(&self, other: &Buffer) -> Ordering {
        self.order(other)
    }
}

/// A clone shares its memory, as one by [`Buffer::try_clone`] does.
impl Clone for Buffer {
    ghost is_clone = { λ buffer copy. copy ≡ buffer };

    fn clone(&self) -> Result<Buffer, AllocError> {
        self.try_clone()
    }
}
