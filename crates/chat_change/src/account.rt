//! Accounts of the cluster, by their names.
ghost use Rattle.std.specs.Prelude.{◌≡◌, ◌↔◌, IsTrue, true, ℕ, List, IfOk, IfErr, None};
ghost use Rattle.chat_change.specs.Words.{is_name};
ghost use Rattle.chat_change.specs.Faults.{account_fault, fault_or_no_memory};
ghost use Rattle.byte_text.specs.Order.{text_cmp};

use crate::faults::ChangeFault;
use crate::short_text::ShortText;
use crate::words::{NAME_LIMIT, is_name};
use std::alloc::{AllocError, Global};
use std::cmp::Ordering;
use std::marker::Model;

/// An account of the cluster, by its name, which lies in the value itself. Contracts see it as the list of its bytes, by
/// which accounts are ordered.
#[derive(Drop)]
pub struct Account {
    name: ShortText<NAME_LIMIT>,
}

impl Model for Account {
    ghost Value = { List ℕ };

    ghost view = { λ a. a.name };

    ghost invariant = { λ a. is_name a.name ≡ true };
}

impl Account {
    /// The account of that name. It takes no memory.
    ///
    /// Refused with [`ChangeFault::BadName`] unless the name has 1 to 32 bytes of `a-z`, `0-9`, `-` and `_`.
    pub fn new(alloc: Global, name: &[u8]) -> Result<Account, ChangeFault>
        ensures made { IfOk result (λ account. account ≡ name.now) }
        ensures lawful { IfOk result (λ _. account_fault name.now ≡ None) }
        ensures refused { IfErr result (λ fault.
            fault ≡ fault_or_no_memory (account_fault name.now)) }
    {
        if is_name(name) {
            Ok(Account::from_lawful(name))
        } else {
            Err(ChangeFault::BadName)
        }
    }

    /// The account of what is a name.
    pub(crate) fn from_lawful(name: &[u8]) -> Account
        requires { is_name name.now ≡ true }
        ensures { result ≡ name.now }
    {
        Account {
            name: ShortText::new(name),
        }
    }

    /// Its name.
    pub fn name(&self) -> &[u8]
        ensures value { result.now ≡ self.now }
        ensures lawful { is_name result.now ≡ true }
    {
        self.name.as_bytes()
    }

    /// An equal account. It takes no memory, and never fails.
    pub fn try_clone(&self) -> Result<Account, AllocError>
        ensures { IfOk result (λ copy. copy ≡ self.now) }
    {
        let name = self.name.copy();
        Ok(Account { name })
    }

    /// Whether both are one account.
    pub fn is_same(&self, other: &Account) -> bool
        ensures { IsTrue result ↔ (self.now ≡ other.now) }
    {
        self.order(other).is_eq()
    }

    /// How two accounts compare: by their names, byte by byte.
    pub(crate) fn order(&self, other: &Account) -> Ordering
        ensures { result ≡ text_cmp self.now other.now }
    {
        self.name.order(&other.name)
    }
}

impl PartialEq for Account {
    ghost use Rattle.std.proofs.Common.{rules};
    ghost use Rattle.std.specs.Cmp.Rules.{comparing};
    ghost use Rattle.std.specs.Ordering.{eq_by_cmp};

    ghost eq = { eq_by_cmp text_cmp };

    ghost laws = { Prim.search (comparing, rules) };

    fn eq(&self, other: &Account) -> bool {
        self.order(other).is_eq()
    }
}

impl Eq for Account {
    ghost use Rattle.std.proofs.Common.{rules};
    ghost use Rattle.std.specs.Cmp.Rules.{comparing};

    ghost laws = { Prim.search (comparing, rules) };
}

impl PartialOrd for Account {
    ghost use Rattle.std.proofs.Common.{rules};
    ghost use Rattle.std.specs.Cmp.Rules.{comparing};
    ghost use Rattle.std.specs.Ordering.{as_partial_cmp};

    ghost partial_cmp = { as_partial_cmp text_cmp };

    ghost laws = { Prim.search (comparing, rules) };

    fn partial_cmp(&self, other: &Account) -> Option<Ordering> {
        Some(self.cmp(other))
    }
}

impl Ord for Account {
    ghost use Rattle.std.proofs.Common.{rules};
    ghost use Rattle.std.specs.Cmp.Rules.{comparing};

    ghost cmp = { text_cmp };

    ghost total = { Prim.search (comparing, rules) };

    ghost matches_partial_cmp = { Prim.search (comparing, rules) };

    ghost matches_eq = { Prim.search (comparing, rules) };

    fn cmp(&self, other: &Account) -> Ordering {
        self.order(other)
    }
}

/// A clone takes no memory, as one by [`Account::try_clone`].
impl Clone for Account {
    ghost is_clone = { λ account copy. copy ≡ account };

    fn clone(&self) -> Result<Account, AllocError> {
        self.try_clone()
    }
}
