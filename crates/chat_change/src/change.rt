//! Changes: what a node learns, and what nodes tell one another.
ghost use Rattle.std.specs.Prelude.{◌≡◌, IfOk};

use crate::account::Account;
use crate::buffer::Buffer;
use crate::change_ref::ChangeRef;
use crate::extent::Extent;
use crate::key::Key;
use crate::msg_id::MsgId;
use crate::record::Record;
use irc_time::Moment;
use std::alloc::AllocError;

/// One thing that a node learns, and that nodes tell one another. A chat history is a set of these.
#[derive(Drop)]
pub enum Change {
    /// A message was posted.
    Post(Record),
    /// The message of that id was redacted, for good (IRCv3 draft/message-redaction). A moment says where it stood,
    /// if that is known.
    Redact {
        buffer: Buffer,
        id: MsgId,
        at: Option<Moment>,
    },
    /// The account has read the buffer up to that moment (IRCv3 draft/read-marker).
    Mark {
        buffer: Buffer,
        at: Moment,
    },
    /// What is older than that moment is kept in the buffer no longer.
    Floor {
        buffer: Buffer,
        at: Moment,
    },
    /// What is older than that moment is kept in no buffer of the account any longer.
    AccountFloor {
        account: Account,
        at: Moment,
    },
}

// Both go by what the change says, as it is lent. The first line of each names the types that are lent then: without it the
// borrow checker isn't told of them.
impl Change {
    ghost use Rattle.chat_change.specs.Key.{key_of, value_of};

    /// What the change speaks of.
    pub fn key(&self) -> Key<'_>
        ensures { value_of result ≡ key_of self.now }
    {
        let _held: (Option<&Record>, Option<&MsgId>, Option<Extent<'_>>) = (None, None, None);
        ChangeRef::of(self).key()
    }

    /// An equal change, of the same kind, which shares its memory. It takes none, and fails only where a part of the
    /// change has 2^63 - 1 owners.
    pub fn try_clone(&self) -> Result<Change, AllocError>
        ensures { IfOk result (λ copy. copy ≡ self.now) }
    {
        let _held: (Option<&Record>, Option<&MsgId>, Option<Extent<'_>>) = (None, None, None);
        ChangeRef::of(self).to_change()
    }
}
