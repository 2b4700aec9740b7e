//! Extents: what a floor is set for.
ghost use Rattle.std.specs.Prelude.{◌≡◌, ◌↔◌, IsTrue};
ghost use Rattle.chat_change.specs.Extent.{value_of, account_of};

use crate::account::Account;
use crate::buffer::Buffer;

/// What a floor is set for: a whole account, or one of its buffers.
#[derive(Clone, Copy)]
pub enum Extent<'a> {
    /// All buffers of the account.
    Account(&'a Account),
    /// That buffer alone.
    Buffer(&'a Buffer),
}

impl<'a> Extent<'a> {
    /// The account, or that of the buffer.
    pub fn account(&self) -> &'a Account
        ensures { result.now ≡ account_of (value_of self.now) }
    {
        match self {
            Extent::Account(account) => account,
            Extent::Buffer(buffer) => buffer.owner(),
        }
    }

    /// Whether both are one extent.
    pub fn is_same(&self, other: &Extent<'_>) -> bool
        ensures { IsTrue result ↔ (value_of self.now ≡ value_of other.now) }
    {
        match self {
            Extent::Account(account) => match other {
                Extent::Account(other) => account.is_same(other),
                Extent::Buffer(_) => false,
            },
            Extent::Buffer(buffer) => match other {
                Extent::Account(_) => false,
                Extent::Buffer(other) => buffer.is_same(other),
            },
        }
    }
}
