//! Where a record stands in its buffer, and cuts between records.

ghost use Rattle.std.specs.Prelude.{◌≡◌};
ghost use Rattle.std.proofs.Common.{rules};
ghost use Rattle.std.specs.Cmp.Rules.{comparing};
ghost use Rattle.std.specs.Ordering.{as_partial_cmp, eq_by_cmp};
ghost use Rattle.chat_history.specs.Cut.{cut_cmp, cut_total, of_record, is_after};

use chat_change::{Moment, MsgId, Record};
use std::alloc::AllocError;
use std::cmp::Ordering;

/// A moment, and the id of the message there. No id stands before all ids of the moment.
#[derive(Drop)]
pub struct Spot {
    pub at: Moment,
    pub id: Option<MsgId>,
}

/// A place between the records of a buffer (IRCv3 draft/chathistory: before or after a timestamp or a msgid).
#[derive(Clone, Copy)]
pub enum Cut<'s> {
    /// Before all records.
    Bottom,
    /// Before the records of that moment.
    UnderTime(Moment),
    /// After the records of that moment.
    OverTime(Moment),
    /// Before the record that stands there, if one does.
    UnderMsg(&'s Spot),
    /// After the record that stands there, if one does.
    OverMsg(&'s Spot),
    /// After all records.
    Top,
}

/// A clone shares the memory of the id.
impl Clone for Spot {
    ghost is_clone = { λ spot copy. copy ≡ spot };

    fn clone(&self) -> Result<Spot, AllocError> {
        let id = match &self.id {
            Some(id) => Some(id.try_clone()?),
            None => None,
        };
        Ok(Spot { at: self.at, id })
    }
}

impl Spot {
    // How two spots compare: by moment, and at equal moments by id, byte by byte.
    fn order(&self, other: &Spot) -> Ordering
        ensures { result ≡ cut_cmp self.now other.now }
    {
        let at = self.at.ms().cmp(&other.at.ms());
        if at.is_ne() {
            return at;
        }
        match &self.id {
            None => match &other.id {
                None => Ordering::Equal,
                Some(_) => Ordering::Less,
            },
            Some(own) => match &other.id {
                None => Ordering::Greater,
                Some(others) => own.text_order(others),
            },
        }
    }

    // How a spot and the place of a record compare.
    fn order_to(&self, post: &Record) -> Ordering
        ensures { result ≡ cut_cmp self.now (of_record post.now) }
    {
        let id = match &self.id {
            None => Ordering::Less,
            Some(own) => own.text_order(post.id()),
        };
        self.at.ms().cmp(&post.at().ms()).then(id)
    }
}

impl PartialEq for Spot {
    ghost eq = { eq_by_cmp cut_cmp };

    ghost laws = { Prim.search (comparing, cut_total, rules) };

    fn eq(&self, other: &Spot) -> bool {
        self.cmp(other).is_eq()
    }
}

impl Eq for Spot {
    ghost laws = { Prim.search (comparing, cut_total, rules) };
}

impl PartialOrd for Spot {
    ghost partial_cmp = { as_partial_cmp cut_cmp };

    ghost laws = { Prim.search (comparing, cut_total, rules) };

    fn partial_cmp(&self, other: &Spot) -> Option<Ordering> {
        Some(self.cmp(other))
    }
}

/// Spots are compared by moment, and at equal moments by id, byte by byte. No id stands before all ids.
impl Ord for Spot {
    ghost cmp = { cut_cmp };

    ghost total = { Prim.search (comparing, cut_total, rules) };

    ghost matches_partial_cmp = { Prim.search (comparing, rules) };

    ghost matches_eq = { Prim.search (comparing, rules) };

    fn cmp(&self, other: &Spot) -> Ordering {
        self.order(other)
    }
}

/// Whether a record stands after a cut.
pub fn is_after(cut: &Cut<'_>, post: &Record) -> bool
    ensures { result ≡ is_after cut.now post.now }
{
    match cut {
        Cut::Bottom => true,
        Cut::UnderTime(at) => at.ms() <= post.at().ms(),
        Cut::OverTime(at) => at.ms() < post.at().ms(),
        Cut::UnderMsg(spot) => spot.order_to(post).is_le(),
        Cut::OverMsg(spot) => spot.order_to(post).is_lt(),
        Cut::Top => false,
    }
}
