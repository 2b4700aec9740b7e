//! The messages of one buffer, in two maps that agree.

ghost use Rattle.std.specs.Prelude.{◌≡◌, ◌≢◌, ◌<◌, Some, None, IsTrue, IsSome, false, IfOk, IfSome};
ghost use Rattle.std.specs.Prelude.{OnOk, OnErr};
ghost use Rattle.std.specs.FinMap as map;
ghost use Rattle.std.specs.Map.Iter.{deref};
ghost use Rattle.chat_change.specs.Order.{id_cmp};
ghost use Rattle.std.specs.Option.{option_map};
ghost use Rattle.chat_history.specs.Cut.{of_record, latest_first};
ghost use Rattle.ordered_maps.specs.MapView.{get, IsSetTo, IsWithout};
ghost use Rattle.chat_buffers.specs.Agreement.{place};
ghost use Rattle.chat_buffers.specs.Messages as spec;
ghost use Rattle.chat_buffers.specs.declared.held_message.HeldMessage.TheVariants as held_message;

use crate::held_message::HeldMessage;
use crate::id_map::IdMap;
use crate::moment_if_known::MomentIfKnown;
use crate::record_map::RecordMap;
use crate::spot_key::SpotKey;
use chat_change::{Moment, MsgId, Record};
use chat_history::Spot;
use std::alloc::{AllocError, Global};
use std::marker::Model;

/// What is held of the messages of one buffer. It is seen as the map from each id to what is held of its message.
#[derive(Drop)]
pub(crate) struct Messages {
    pub(crate) by_id: IdMap,
    // the kept records, by where they stand, the latest first
    pub(crate) by_spot: RecordMap,
}

impl Model for Messages {
    ghost use Rattle.ordered_maps.specs.MapView.{held_by};
    ghost use Rattle.chat_buffers.specs.Messages as spec;
    ghost use Rattle.chat_buffers.specs.Agreement.{Agree};

    ghost Value = { spec.Messages };

    ghost coded = { spec.coded_messages };

    ghost view = { λ p. held_by p.by_id };

    ghost invariant = { λ p. Agree p.by_spot p.by_id };
}

/// A clone has maps of its own, and shares the ids and the records.
impl Clone for Messages {
    ghost is_clone = { λ messages copy. copy ≡ messages };

    fn clone(&self) -> Result<Messages, AllocError> {
        let by_id = self.by_id.clone()?;
        let by_spot = self.by_spot.clone()?;
        Ok(Messages { by_id, by_spot })
    }
}

// What a record is filed by, and the record. All share its memory.
#[derive(Drop)]
struct Copies {
    spot: SpotKey,
    id: MsgId,
    // the id once more
    name: MsgId,
    post: Record,
}

fn copies_of(post: &Record) -> Result<Copies, AllocError>
    ensures { IfOk result (λ copies. copies ≡ record {
      spot = of_record post.now;
      id = post.now.id;
      name = post.now.id;
      post = post.now;
    }) }
{
    let spot = SpotKey {
        at: post.at(),
        id: post.id().try_clone()?,
    };
    let id = post.id().try_clone()?;
    let name = post.id().try_clone()?;
    let post = post.try_clone()?;
    Ok(Copies {
        spot,
        id,
        name,
        post,
    })
}

// Makes what is held of a message what it was before. It takes no memory.
fn restore(by_id: &mut IdMap, id: &MsgId, before: Option<HeldMessage>)
    requires held { IsSome (get id_cmp by_id.old id.now) }
    ensures { IsSetTo id_cmp by_id.old id.now before by_id.new }
{
    match before {
        Some(before) => by_id.overwrite(id, before),
        None => by_id.take_out(id),
    }
}

impl Messages {
    /// No messages.
    pub(crate) fn new(alloc: Global) -> Messages
        ensures { result ≡ map.empty }
    {
        Messages {
            by_id: IdMap::new(alloc),
            by_spot: RecordMap::new(alloc),
        }
    }

    /// What is held of a message, if anything.
    pub(crate) fn held_message(&self, id: &MsgId) -> Option<&HeldMessage>
        ensures { option_map deref result ≡ map.get self.now id.now }
    {
        self.by_id.get(id)
    }

    // The moment of the record that is kept of a message.
    fn kept_moment(&self, id: &MsgId) -> Option<Moment>
        ensures { result ≡ spec.kept_moment (map.get self.now id.now) }
    {
        match self.by_id.get(id)? {
            HeldMessage::Kept(post, _) => Some(post.at()),
            HeldMessage::Gone(_, _) => None,
        }
    }

    /// Keeps a record under a number, in place of what was held of its message, and answers the number that that had. Where
    /// there is no memory nothing has changed.
    pub(crate) fn post(&mut self, post: Record, number: u64) -> Result<Option<u64>, AllocError>
        ensures before { IfOk result (λ before. before ≡
            option_map spec.number_of (map.get self.old post.id)) }
        ensures placed { OnOk result
            (self.new ≡ map.insert self.old post.id (held_message.Kept post number)) }
        ensures refused { OnErr result (self.new ≡ self.old) }
    {
        let at = post.at();
        let Ok(
            Copies {
                spot,
                id,
                name,
                post: copy,
            },
        ) = copies_of(&post)
        else {
            return Err(AllocError);
        };
        let Ok(before) = self.by_id.exchange(id, HeldMessage::Kept(post, number)) else {
            return Err(AllocError);
        };
        if !self.by_spot.put(spot, copy) {
            restore(&mut self.by_id, &name, before);
            return Err(AllocError);
        }
        let earlier = number_in(&before);
        leave_place(&mut self.by_spot, moment_in(before), name, at);
        Ok(earlier)
    }

    /// Notes that a message was redacted, lets its record go, and answers the number that what was held of the message had.
    /// Where there is no memory nothing has changed.
    pub(crate) fn redact(
        &mut self,
        id: MsgId,
        at: Option<Moment>,
        number: u64,
    ) -> Result<Option<u64>, AllocError>
        ensures before { IfOk result (λ before. before ≡
            option_map spec.number_of (map.get self.old id)) }
        ensures placed { OnOk result
            (self.new ≡ map.insert self.old id (held_message.Gone at number)) }
        ensures refused { OnErr result (self.new ≡ self.old) }
    {
        let before = number_of(&self.by_id, &id);
        match self.kept_moment(&id) {
            Some(stood) => self.let_go(stood, id, at, number),
            None => {
                if !self.note(id, at, number) {
                    return Err(AllocError);
                }
            }
        }
        Ok(before)
    }

    // Notes that a message was redacted of which no record is kept.
    fn note(&mut self, id: MsgId, at: Option<Moment>, number: u64) -> bool
        requires not_kept { spec.kept_moment (map.get self.old id) ≡ None }
        ensures placed { IsTrue result →
            self.new ≡ map.insert self.old id (held_message.Gone at number) }
        ensures refused { result ≡ false → self.new ≡ self.old }
    {
        let gone = HeldMessage::Gone(MomentIfKnown::new(at), number);
        self.by_id.put(id, gone)
    }

    // Notes that a message was redacted whose record stands at `stood`, and lets that record go.
    fn let_go(&mut self, stood: Moment, id: MsgId, at: Option<Moment>, number: u64)
        requires kept { spec.kept_moment (map.get self.old id) ≡ Some stood }
        ensures { self.new ≡ map.insert self.old id (held_message.Gone at number) }
    {
        let gone = HeldMessage::Gone(MomentIfKnown::new(at), number);
        self.by_id.overwrite(&id, gone);
        let spot = Spot {
            at: stood,
            id: Some(id),
        };
        self.by_spot.take_out(&spot);
    }

    /// Takes the oldest record out where it stands before a floor, and answers the number of its piece. None where no
    /// record stands before the floor. It takes no memory.
    pub(crate) fn remove_first_below(&mut self, floor: Moment) -> Option<u64>
        ensures one { IfSome result (λ n. spec.TakesOne self.old floor n self.new) }
        ensures done { result ≡ None → spec.IsFrom floor self.new }
        ensures kept { result ≡ None → self.new ≡ self.old }
    {
        let at = match self.by_spot.last() {
            Some((spot, _)) => spot.at,
            None => return None,
        };
        if at.ms() >= floor.ms() {
            return None;
        }
        let (_spot, post) = self.by_spot.pop_last()?;
        let number = number_of(&self.by_id, post.id());
        self.by_id.take_out(post.id());
        number
    }
}

impl Messages {
    /// Takes the records out that stand before a floor, in one walk over all messages. It takes no memory.
    pub(crate) fn remove_below(&mut self, floor: Moment)
        ensures { spec.IsLeft self.old floor self.new }
    {
        self.by_spot.remove_below(floor);
        self.by_id.remove_below(floor);
    }

    /// How many pages have records that stand before a floor.
    pub(crate) fn page_count_below(&self, floor: Moment) -> usize {
        self.by_spot.page_count_below(floor)
    }
}

// The number of the piece of a message.
fn number_of(by_id: &IdMap, id: &MsgId) -> Option<u64>
    ensures { result ≡ option_map spec.number_of (get id_cmp by_id.now id.now) }
{
    let held_message = by_id.get(id)?;
    Some(held_message.number())
}

// The number of what was held of a message.
fn number_in(held_message: &Option<HeldMessage>) -> Option<u64>
    ensures { result ≡ option_map spec.number_of held_message.now }
{
    match held_message {
        Some(held_message) => Some(held_message.number()),
        None => None,
    }
}

// The moment of the record that was kept of a message.
fn moment_in(held_message: Option<HeldMessage>) -> Option<Moment>
    ensures { result ≡ spec.kept_moment held_message }
{
    match &held_message {
        Some(HeldMessage::Kept(post, _)) => Some(post.at()),
        Some(HeldMessage::Gone(_, _)) => None,
        None => None,
    }
}

// Takes out the record of a message that stood at another moment than the new one. It takes no memory.
fn leave_place(by_spot: &mut RecordMap, before: Option<Moment>, id: MsgId, at: Moment)
    ensures first { before ≡ None → by_spot.new ≡ by_spot.old }
    ensures same { before ≡ Some at → by_spot.new ≡ by_spot.old }
    ensures moved { IfSome before (λ t. t ≢ at →
        IsWithout latest_first by_spot.old (place t id) by_spot.new) }
{
    match before {
        Some(before) if before.ms() != at.ms() => {
            let spot = Spot {
                at: before,
                id: Some(id),
            };
            by_spot.take_out(&spot);
        }
        _ => {}
    }
}
