//! What changes say, lent from where they are held.
ghost use Rattle.std.specs.Prelude.{◌≡◌, IfOk};
ghost use Rattle.chat_change.specs.ChangeRef.{change_of};
ghost use Rattle.chat_change.specs.Extent as spec;
ghost use Rattle.chat_change.specs.Key.{floor_change, key_of, value_of};

use crate::account::Account;
use crate::buffer::Buffer;
use crate::change::Change;
use crate::extent::Extent;
use crate::key::Key;
use crate::msg_id::MsgId;
use crate::record::Record;
use irc_time::Moment;
use std::alloc::AllocError;

/// What a [`Change`] says, lent from where it is held.
#[derive(Clone, Copy)]
pub enum ChangeRef<'c> {
    /// A message was posted.
    Post(&'c Record),
    /// A message was redacted, which stood at that moment.
    Redact {
        buffer: &'c Buffer,
        id: &'c MsgId,
        at: Option<Moment>,
    },
    /// The read marker of a buffer was set.
    Mark {
        buffer: &'c Buffer,
        at: Moment,
    },
    /// The floor of an account or of a buffer was set.
    Floor {
        extent: Extent<'c>,
        at: Moment,
    },
}

impl<'c> ChangeRef<'c> {
    /// What a change says.
    pub fn of(change: &'c Change) -> ChangeRef<'c>
        ensures { change_of result ≡ change.now }
    {
        match change {
            Change::Post(post) => ChangeRef::Post(post),
            Change::Redact { buffer, id, at } => ChangeRef::Redact {
                buffer,
                id,
                at: *at,
            },
            Change::Mark { buffer, at } => ChangeRef::Mark { buffer, at: *at },
            Change::Floor { buffer, at } => ChangeRef::Floor {
                extent: Extent::Buffer(buffer),
                at: *at,
            },
            Change::AccountFloor { account, at } => ChangeRef::Floor {
                extent: Extent::Account(account),
                at: *at,
            },
        }
    }

    /// What the change speaks of.
    pub fn key(&self) -> Key<'c>
        ensures { value_of result ≡ key_of (change_of self.now) }
    {
        match self {
            ChangeRef::Post(record) => record.key(),
            ChangeRef::Redact { buffer, id, .. } => Key::Message(buffer, id),
            ChangeRef::Mark { buffer, .. } => Key::Marker(buffer),
            ChangeRef::Floor { extent, .. } => Key::Floor(*extent),
        }
    }

    /// A change that says the same and shares its memory. It takes none, and fails only where a part of the change has
    /// 2^63 - 1 owners.
    pub fn to_change(&self) -> Result<Change, AllocError>
        ensures { IfOk result (λ change. change ≡ change_of self.now) }
    {
        match self {
            ChangeRef::Post(post) => Ok(Change::Post(post.try_clone()?)),
            ChangeRef::Redact { buffer, id, at } => {
                let buffer = buffer.try_clone()?;
                let id = id.try_clone()?;
                Ok(Change::Redact {
                    buffer,
                    id,
                    at: *at,
                })
            }
            ChangeRef::Mark { buffer, at } => Ok(Change::Mark {
                buffer: buffer.try_clone()?,
                at: *at,
            }),
            ChangeRef::Floor { extent, at } => floor_of(*extent, *at),
        }
    }
}

// The floor of an extent.
fn floor_of(extent: Extent<'_>, at: Moment) -> Result<Change, AllocError>
    ensures { IfOk result (λ change. change ≡ floor_change (spec.value_of extent.entry) at) }
{
    match extent {
        Extent::Account(account) => Ok(Change::AccountFloor {
            account: account.try_clone()?,
            at,
        }),
        Extent::Buffer(buffer) => Ok(Change::Floor {
            buffer: buffer.try_clone()?,
            at,
        }),
    }
}
