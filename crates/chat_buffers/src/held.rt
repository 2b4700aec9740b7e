//! What is held of one buffer.

ghost use Rattle.std.specs.Prelude.{◌≡◌, ℕ, IfOk, OnOk, OnErr, Some, None, IfSome};
ghost use Rattle.chat_change.specs.Key.{Key, key_of};
ghost use Rattle.chat_buffers.specs.Held.{IsOfBuffer, Fits, Settles, held_piece, number_under};
ghost use Rattle.chat_buffers.specs.Stamps.{stamp_moment, stamp_number, floor_moment, TakesStamp, IsAbove};

use crate::messages::Messages;
use chat_change::{Change, Moment};
use std::alloc::{AllocError, Global};

/// A moment under the number of its piece.
#[derive(Clone, Copy)]
pub(crate) struct Stamp {
    pub(crate) at: Moment,
    pub(crate) number: u64,
}

/// What is held of one buffer.
#[derive(Drop)]
pub(crate) struct Held {
    pub(crate) messages: Messages,
    pub(crate) floor: Option<Stamp>,
    pub(crate) marker: Option<Stamp>,
}

/// A clone has maps of its own, and shares the ids and the records.
impl Clone for Held {
    ghost is_clone = { λ held copy. copy ≡ held };

    fn clone(&self) -> Result<Held, AllocError> {
        let messages = self.messages.clone()?;
        Ok(Held {
            messages,
            floor: self.floor,
            marker: self.marker,
        })
    }
}

/// Nothing of a buffer.
pub(crate) fn nothing_held(alloc: Global) -> Held
    ensures { (f : ℕ) (k : Key) → held_piece f (Some result) k ≡ None }
{
    Held {
        messages: Messages::new(alloc),
        floor: None,
        marker: None,
    }
}

pub(crate) fn number_of(stamp: &Option<Stamp>) -> Option<u64>
    ensures { result ≡ stamp_number stamp.now }
{
    match stamp {
        Some(stamp) => Some(stamp.number),
        None => None,
    }
}

pub(crate) fn moment_of(stamp: &Option<Stamp>) -> Option<Moment>
    ensures { result ≡ stamp_moment stamp.now }
{
    match stamp {
        Some(stamp) => Some(stamp.at),
        None => None,
    }
}

/// The moment of a floor in milliseconds, or 0 where there is none.
pub(crate) fn floor_ms(floor: &Option<Stamp>) -> u64
    ensures { result ≡ floor_moment floor.now }
{
    match floor {
        Some(stamp) => stamp.at.ms(),
        None => 0,
    }
}

/// Takes a floor out where it isn't above another, and answers the number of its piece. None where there is no floor,
/// or it is above the other.
pub(crate) fn take_floor_to(own: &mut Option<Stamp>, floor: Moment) -> Option<u64>
    ensures one { IfSome result (λ n. TakesStamp own.old floor n own.new) }
    ensures done { result ≡ None → IsAbove floor own.new }
    ensures kept { result ≡ None → own.new ≡ own.old }
{
    let stamp = (*own)?;
    if stamp.at.ms() > floor.ms() {
        return None;
    }
    *own = None;
    Some(stamp.number)
}

/// Puts a piece of a buffer under its key, and answers the number that the key had. A floor forgets the moments of
/// redactions that lie below it, and leaves the records. Where there is no memory nothing has changed.
pub(crate) fn settle(
    held: &mut Held,
    number: u64,
    change: Change,
) -> Result<Option<u64>, AllocError>
    requires of_buffer { IsOfBuffer change }
    ensures before { IfOk result (λ before. before ≡ number_under held.old (key_of change)) }
    ensures settled { OnOk result ((f : ℕ) → Fits f held.old change →
        Settles f (Some held.old) number change held.new) }
    ensures refused { OnErr result (held.new ≡ held.old) }
{
    match change {
        Change::Post(post) => held.messages.post(post, number),
        Change::Redact { buffer: _, id, at } => held.messages.redact(id, at, number),
        Change::Mark { buffer: _, at } => {
            let before = number_of(&held.marker);
            held.marker = Some(Stamp { at, number });
            Ok(before)
        }
        Change::Floor { buffer: _, at } => {
            let before = number_of(&held.floor);
            held.floor = Some(Stamp { at, number });
            Ok(before)
        }
        Change::AccountFloor { .. } => unreachable!(),
    }
}
