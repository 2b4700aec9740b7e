//! The change that a line says behind its first word. All parts are judged before memory is asked for, so that want of memory is
//! told only of a change.
ghost use Rattle.std.specs.Prelude.{◌≡◌, ℕ, true, IfOk};
ghost use Rattle.std.specs.Option.{option_map};
ghost use Rattle.std.specs.Map.Iter.{deref};
ghost use Rattle.chat_change.specs.Words.{is_id};
ghost use Rattle.chat_change.specs.Buffer as buffers;
ghost use Rattle.chat_change.specs.declared.change.Change as value;
ghost use Rattle.chat_change.specs.declared.change.Change.TheVariants as change;
ghost use Rattle.change_lines.specs.Words as words;
ghost use Rattle.change_lines.specs.Moment as moments;
ghost use Rattle.change_lines.specs.ChangeLine as spec;
ghost use Rattle.change_lines.specs.BufferFields as fields;
ghost use Rattle.change_lines.specs.NamedBuffer.{IsNamed};
ghost use Rattle.change_lines.specs.PostLine as post;
ghost use Rattle.change_lines.specs.Reading.{IsAnswer, checked, made_or_fault};

use crate::fault::ChangeLineFault;
use crate::fields::{BufferFields, ChangeKind, buffer_fields, change_kind, has_names};
use crate::moment::moment_of;
use crate::named_buffer::{buffer_for, known_buffer, names_buffer};
use crate::post_line::{has_post_form, is_lawful_post, new_post, post_fields, post_parts};
use crate::words::{is_filled, is_last_word, is_text, split_word};
use chat_change::{Account, Buffer, Change, Moment, is_id, is_name, lawful_id};
use std::alloc::{AllocError, Global};

// The moment that a redaction names: `*` is none.
fn named_moment(text: &[u8]) -> Option<Option<Moment>>
    ensures { result ≡ spec.named_moment text.now }
{
    if is_text(text, b"*") {
        return Some(None);
    }
    match moment_of(text) {
        None => None,
        Some(at) => Some(Some(at)),
    }
}

// The form of what stands behind the names is checked first, and then the names.
fn read_post(
    alloc: Global,
    known: Option<&Buffer>,
    is_tagged: bool,
    names: &BufferFields<'_>,
) -> Result<Change, ChangeLineFault>
    requires { IsNamed (option_map deref known) (fields.value_of names.now) }
    ensures { IsAnswer (checked
        (post.has_post_form is_tagged (post.post_fields is_tagged names.now.rest.now))
        (spec.is_buffer (fields.value_of names.now))
        (option_map change.Post (post.post_in (spec.buffer_named (fields.value_of names.now))
        (post.post_fields is_tagged names.now.rest.now)))) result }
{
    let fields = post_fields(is_tagged, names.rest);
    if !has_post_form(is_tagged, fields) {
        return Err(ChangeLineFault::BadForm);
    }
    if !names_buffer(known, names) {
        return Err(ChangeLineFault::BadField);
    }
    let Some(post) = post_parts(fields) else {
        return Err(ChangeLineFault::BadField);
    };
    if !is_lawful_post(alloc, &post) {
        return Err(ChangeLineFault::BadField);
    }
    match new_post(alloc, known, names, &post) {
        Ok(post) => Ok(Change::Post(post)),
        Err(_) => Err(ChangeLineFault::NoMemory),
    }
}

// The redaction of a message by its id.
fn new_redaction(
    alloc: Global,
    known: Option<&Buffer>,
    names: &BufferFields<'_>,
    id: &[u8],
    at: Option<Moment>,
) -> Result<Change, AllocError>
    requires known { IsNamed (option_map deref known) (fields.value_of names.now) }
    requires lawful { spec.is_buffer (fields.value_of names.now) ≡ true }
    requires id { is_id id.now ≡ true }
    ensures { IfOk result (λ made.
        made ≡ change.Redact (spec.buffer_named (fields.value_of names.now)) id.now at) }
{
    let id = lawful_id(alloc, id)?;
    let buffer = buffer_for(alloc, known, names)?;
    Ok(Change::Redact { buffer, id, at })
}

#[inline(never)]
fn read_redaction(
    alloc: Global,
    known: Option<&Buffer>,
    names: &BufferFields<'_>,
) -> Result<Change, ChangeLineFault>
    requires { IsNamed (option_map deref known) (fields.value_of names.now) }
    ensures { IsAnswer (checked
        (spec.has_form ChangeKind.Redact names.now.rest.now)
        (spec.is_buffer (fields.value_of names.now))
        (spec.change_in ChangeKind.Redact (spec.buffer_named (fields.value_of names.now))
        names.now.rest.now)) result }
{
    let (id, at) = split_word(names.rest);
    if !is_filled(id) || !is_last_word(at) {
        return Err(ChangeLineFault::BadForm);
    }
    if !names_buffer(known, names) {
        return Err(ChangeLineFault::BadField);
    }
    let Some(at) = named_moment(at) else {
        return Err(ChangeLineFault::BadField);
    };
    if !is_id(id) {
        return Err(ChangeLineFault::BadField);
    }
    match new_redaction(alloc, known, names, id, at) {
        Ok(change) => Ok(change),
        Err(_) => Err(ChangeLineFault::NoMemory),
    }
}

// The buffer of the names and the moment behind them, as a marker and a floor have them.
fn read_moment(
    alloc: Global,
    known: Option<&Buffer>,
    names: &BufferFields<'_>,
) -> Result<(Buffer, Moment), ChangeLineFault>
    requires { IsNamed (option_map deref known) (fields.value_of names.now) }
    ensures { (make : buffers.Buffer → ℕ → value.Change) → IsAnswer (checked
        (words.is_last_word names.now.rest.now)
        (spec.is_buffer (fields.value_of names.now))
        (option_map (make (spec.buffer_named (fields.value_of names.now)))
        (moments.moment_of names.now.rest.now))) (made_or_fault make result) }
{
    if !is_last_word(names.rest) {
        return Err(ChangeLineFault::BadForm);
    }
    if !names_buffer(known, names) {
        return Err(ChangeLineFault::BadField);
    }
    let Some(at) = moment_of(names.rest) else {
        return Err(ChangeLineFault::BadField);
    };
    match buffer_for(alloc, known, names) {
        Ok(buffer) => Ok((buffer, at)),
        Err(_) => Err(ChangeLineFault::NoMemory),
    }
}

#[inline(never)]
fn read_mark(
    alloc: Global,
    known: Option<&Buffer>,
    names: &BufferFields<'_>,
) -> Result<Change, ChangeLineFault>
    requires { IsNamed (option_map deref known) (fields.value_of names.now) }
    ensures { IsAnswer (checked
        (spec.has_form ChangeKind.Mark names.now.rest.now)
        (spec.is_buffer (fields.value_of names.now))
        (spec.change_in ChangeKind.Mark (spec.buffer_named (fields.value_of names.now))
        names.now.rest.now)) result }
{
    match read_moment(alloc, known, names) {
        Ok((buffer, at)) => Ok(Change::Mark { buffer, at }),
        Err(fault) => Err(fault),
    }
}

#[inline(never)]
fn read_floor(
    alloc: Global,
    known: Option<&Buffer>,
    names: &BufferFields<'_>,
) -> Result<Change, ChangeLineFault>
    requires { IsNamed (option_map deref known) (fields.value_of names.now) }
    ensures { IsAnswer (checked
        (spec.has_form ChangeKind.Floor names.now.rest.now)
        (spec.is_buffer (fields.value_of names.now))
        (spec.change_in ChangeKind.Floor (spec.buffer_named (fields.value_of names.now))
        names.now.rest.now)) result }
{
    match read_moment(alloc, known, names) {
        Ok((buffer, at)) => Ok(Change::Floor { buffer, at }),
        Err(fault) => Err(fault),
    }
}

// What the fields behind the kind say. Their form is checked before their values.
fn read_fields(
    alloc: Global,
    known: Option<&Buffer>,
    kind: ChangeKind,
    names: BufferFields<'_>,
) -> Result<Change, ChangeLineFault>
    ensures { IsAnswer (spec.fields_change kind (fields.value_of names.entry)) result }
{
    if !has_names(names) {
        return Err(ChangeLineFault::BadForm);
    }
    let known = known_buffer(known, names);
    match kind {
        ChangeKind::Post => read_post(alloc, known, false, &names),
        ChangeKind::TaggedPost => read_post(alloc, known, true, &names),
        ChangeKind::Redact => read_redaction(alloc, known, &names),
        ChangeKind::Mark => read_mark(alloc, known, &names),
        ChangeKind::Floor => read_floor(alloc, known, &names),
    }
}

// What the words of a floor of an account say. Their form is checked before their values. The maker of the account refuses
// nothing, since the name is one: it can only want memory.
#[inline(never)]
fn read_account_floor(alloc: Global, rest: &[u8]) -> Result<Change, ChangeLineFault>
    ensures { IsAnswer (spec.account_floor_change rest.now) result }
{
    let (account, at) = split_word(rest);
    if !is_filled(account) || !is_last_word(at) {
        return Err(ChangeLineFault::BadForm);
    }
    if !is_name(account) {
        return Err(ChangeLineFault::BadField);
    }
    let Some(at) = moment_of(at) else {
        return Err(ChangeLineFault::BadField);
    };
    match Account::new(alloc, account) {
        Ok(account) => Ok(Change::AccountFloor { account, at }),
        Err(_) => Err(ChangeLineFault::NoMemory),
    }
}

/// The change that the second word of a line and the words behind it say.
pub(crate) fn read_kind(
    alloc: Global,
    known: Option<&Buffer>,
    kind: &[u8],
    rest: &[u8],
) -> Result<Change, ChangeLineFault>
    ensures { IsAnswer (spec.words_change kind.now rest.now) result }
{
    if is_text(kind, b"AFLOOR") {
        return read_account_floor(alloc, rest);
    }
    match change_kind(kind) {
        None => Err(ChangeLineFault::BadForm),
        Some(kind) => read_fields(alloc, known, kind, buffer_fields(rest)),
    }
}
