//! What the piece of a number is known by.

ghost use Rattle.std.specs.Prelude.{◌≡◌, IfOk};
ghost use Rattle.std.specs.Map.Iter.{deref};
ghost use Rattle.std.specs.Option.{option_map};
ghost use Rattle.chat_change.specs.Key.{value_of};
ghost use Rattle.chat_change.specs.declared.change.Change.TheVariants.{Post};
ghost use Rattle.chat_state.specs.PieceName as spec;

use chat_change::{Account, Buffer, Change, Extent, Key, MsgId, Record};
use std::alloc::{AllocError, Global};
use std::marker::Model;
use std::sync::Arc;

/// The key of a piece. Of a message that was posted it holds the record.
#[derive(Drop)]
pub(crate) struct PieceName {
    subject: Subject,
}

// What tells the key. A name is held for each piece, so it takes one pointer: most are of records, which have both buffer
// and id.
#[derive(Drop)]
enum Subject {
    // the record of a message that was posted
    Posted(Record),
    // a message that was redacted
    Redacted(Arc<MessageName>),
    // the buffer of a marker
    Marked(Buffer),
    // the buffer of a floor
    Floored(Buffer),
    // the account of a floor
    AccountFloored(Arc<Account>),
}

#[derive(Drop)]
struct MessageName {
    buffer: Buffer,
    id: MsgId,
}

impl Model for PieceName {
    ghost use Rattle.chat_state.specs.PieceName as spec;

    ghost Value = { spec.PieceName };

    ghost view = { λ p. spec.name_in p.subject };
}

impl PieceName {
    /// The key of the piece.
    pub(crate) fn key(&self) -> Key<'_>
        ensures { value_of result ≡ self.now.key }
    {
        match &self.subject {
            Subject::Posted(post) => post.key(),
            Subject::Redacted(name) => Key::Message(&name.buffer, &name.id),
            Subject::Marked(buffer) => Key::Marker(buffer),
            Subject::Floored(buffer) => Key::Floor(Extent::Buffer(buffer)),
            Subject::AccountFloored(account) => Key::Floor(Extent::Account(account)),
        }
    }

    /// The record, where the piece is a message that was posted.
    pub(crate) fn post(&self) -> Option<&Record>
        ensures { option_map deref result ≡ self.now.post }
    {
        match &self.subject {
            Subject::Posted(post) => Some(post),
            _ => None,
        }
    }
}

/// A clone shares the memory of what the name tells.
impl Clone for PieceName {
    ghost is_clone = { λ name copy. copy ≡ name };

    fn clone(&self) -> Result<PieceName, AllocError> {
        let subject = match &self.subject {
            Subject::Posted(post) => Subject::Posted(post.try_clone()?),
            Subject::Redacted(name) => Subject::Redacted(Arc::try_clone(name)?),
            Subject::Marked(buffer) => Subject::Marked(buffer.try_clone()?),
            Subject::Floored(buffer) => Subject::Floored(buffer.try_clone()?),
            Subject::AccountFloored(account) => Subject::AccountFloored(Arc::try_clone(account)?),
        };
        Ok(PieceName { subject })
    }
}

fn message_name(alloc: Global, buffer: &Buffer, id: &MsgId) -> Result<Arc<MessageName>, AllocError>
    ensures { IfOk result (λ name. name.value ≡ record { buffer = buffer.now; id = id.now }) }
{
    let buffer = buffer.try_clone()?;
    let id = id.try_clone()?;
    let name = Arc::new(alloc, MessageName { buffer, id })?;
    Ok(name)
}

/// What the piece of a post is known by. It shares the post's memory, and takes none.
pub(crate) fn name_of_post(post: &Record) -> Result<PieceName, AllocError>
    ensures { IfOk result (λ p. p ≡ spec.name_of (Post post.now)) }
{
    let subject = Subject::Posted(post.try_clone()?);
    Ok(PieceName { subject })
}

/// What the piece of a change is known by. It shares the change's memory, and takes none but for a redaction and for the
/// floor of an account.
pub(crate) fn name_of(alloc: Global, change: &Change) -> Result<PieceName, AllocError>
    ensures { IfOk result (λ p. p ≡ spec.name_of change.now) }
{
    let subject = match change {
        Change::Post(post) => Subject::Posted(post.try_clone()?),
        Change::Redact { buffer, id, .. } => Subject::Redacted(message_name(alloc, buffer, id)?),
        Change::Mark { buffer, .. } => Subject::Marked(buffer.try_clone()?),
        Change::Floor { buffer, .. } => Subject::Floored(buffer.try_clone()?),
        Change::AccountFloor { account, .. } => {
            Subject::AccountFloored(Arc::new(alloc, account.try_clone()?)?)
        }
    };
    Ok(PieceName { subject })
}
