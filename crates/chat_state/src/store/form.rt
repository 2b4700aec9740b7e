//! What a change makes of the piece of its key.

ghost use Rattle.std.specs.Prelude.{◌≡◌, IfOk};
ghost use Rattle.std.specs.Option.{option_map};
ghost use Rattle.chat_change.specs.Extent.{value_of};
ghost use Rattle.chat_change.specs.Key.{floor_change};
ghost use Rattle.chat_change.specs.declared.change.Change.TheVariants as value;
ghost use Rattle.chat_history.specs.Choice as choice;
ghost use Rattle.chat_history.specs.Form.{raises};
ghost use Rattle.chat_state.specs.Form as spec;
ghost use Rattle.chat_state.specs.Piece.{change_of};

use crate::store::Store;
use chat_buffers::MessageRef;
use chat_change::{Buffer, Change, ChangeRef, Extent, Moment, MsgId, Record, goes_before};
use chat_history::at_or_above;
use std::alloc::AllocError;

/// The form of the piece that a change makes.
#[derive(Clone, Copy)]
pub(crate) enum Form {
    /// The change itself.
    AsItIs,
    /// A redaction of its message, which stood at that moment.
    Gone(Option<Moment>),
}

// The later of two moments.
fn later(a: Option<Moment>, b: Option<Moment>) -> Option<Moment>
    ensures { result ≡ choice.later a b }
{
    match (a, b) {
        (None, _) => b,
        (Some(_), None) => a,
        (Some(t), Some(u)) => { if t.ms() < u.ms() { b } else { a } }
    }
}

// Whether a moment at or above the floor is later than the one that a redaction names.
fn raises(floor: u64, named: Option<Moment>, at: Option<Moment>) -> bool
    ensures { result ≡ raises floor named at }
{
    match at {
        None => false,
        Some(t) => {
            floor <= t.ms()
                && match named {
                    None => true,
                    Some(u) => u.ms() < t.ms(),
                }
        }
    }
}

fn form_of_post(store: &Store, post: &Record) -> Option<Form>
    ensures { option_map (spec.piece_in (value.Post post.now)) result ≡
        spec.form store.now (value.Post post.now) }
{
    let found = store.floor_and_message(post.buffer(), post.id());
    let floor = found.floor_ms;
    let counts = match found.message {
        None => floor <= post.at().ms(),
        Some(MessageRef::Kept(old)) => goes_before(post, old),
        Some(MessageRef::Gone(named)) => {
            if raises(floor, named, Some(post.at())) {
                return Some(Form::Gone(Some(post.at())));
            }
            false
        }
    };
    if counts { Some(Form::AsItIs) } else { None }
}

// `at` is lent, since the borrow checker doesn't cover an `Option<Moment>` that is used after it was passed by value.
fn form_of_redaction(
    store: &Store,
    buffer: &Buffer,
    id: &MsgId,
    at: &Option<Moment>,
) -> Option<Form>
    ensures { option_map (spec.piece_in (value.Redact buffer.now id.now at.now)) result ≡
        spec.form store.now (value.Redact buffer.now id.now at.now) }
{
    let found = store.floor_and_message(buffer, id);
    let floor = found.floor_ms;
    match found.message {
        None => Some(Form::Gone(at_or_above(floor, *at))),
        Some(MessageRef::Kept(old)) => {
            let stood = Some(old.at());
            Some(Form::Gone(later(stood, *at)))
        }
        Some(MessageRef::Gone(named)) => {
            if raises(floor, named, *at) {
                Some(Form::Gone(*at))
            } else {
                None
            }
        }
    }
}

fn form_of_marker(store: &Store, buffer: &Buffer, at: Moment) -> Option<Form>
    ensures { option_map (spec.piece_in (value.Mark buffer.now at)) result ≡
        spec.form store.now (value.Mark buffer.now at) }
{
    match store.marker(buffer) {
        Some(before) => {
            if before.ms() < at.ms() {
                Some(Form::AsItIs)
            } else {
                None
            }
        }
        None => Some(Form::AsItIs),
    }
}

fn form_of_floor(store: &Store, extent: &Extent<'_>, at: Moment) -> Option<Form>
    ensures { option_map (spec.piece_in (floor_change (value_of extent.now) at)) result ≡
        spec.floor_form store.now (value_of extent.now) at }
{
    if store.floor_ms(extent) < at.ms() {
        Some(Form::AsItIs)
    } else {
        None
    }
}

/// The form of the piece that a change makes, where it counts. It takes no memory.
pub(crate) fn form_of(store: &Store, change: &ChangeRef<'_>) -> Option<Form>
    ensures { option_map (spec.piece_in (change_of change.now)) result ≡
        spec.form store.now (change_of change.now) }
{
    match change {
        ChangeRef::Post(post) => form_of_post(store, post),
        ChangeRef::Redact { buffer, id, at } => form_of_redaction(store, buffer, id, at),
        ChangeRef::Mark { buffer, at } => form_of_marker(store, buffer, *at),
        ChangeRef::Floor { extent, at } => form_of_floor(store, extent, *at),
    }
}

fn redaction(buffer: &Buffer, id: &MsgId, at: Option<Moment>) -> Result<Change, AllocError>
    ensures { IfOk result (λ change. change ≡ value.Redact buffer.now id.now at) }
{
    let buffer = buffer.try_clone()?;
    let id = id.try_clone()?;
    Ok(Change::Redact { buffer, id, at })
}

/// The piece that a change makes in that form, which shares the texts of the change.
pub(crate) fn piece_in(change: &ChangeRef<'_>, form: Form) -> Result<Change, AllocError>
    ensures { IfOk result (λ piece. piece ≡ spec.piece_in (change_of change.now) form) }
{
    let Form::Gone(at) = form else {
        return change.to_change();
    };
    match change {
        ChangeRef::Post(post) => redaction(post.buffer(), post.id(), at),
        ChangeRef::Redact { buffer, id, .. } => redaction(buffer, id, at),
        ChangeRef::Mark { .. } | ChangeRef::Floor { .. } => change.to_change(),
    }
}
