//! The records of one buffer for a page, by walks that look at no more records than they answer, and one more.
ghost use Rattle.std.specs.Prelude.{◌≡◌, Some, None, Err, IfOk, IsSome, List, map, take};
ghost use Rattle.chat_change.specs.declared.change.Change.{Change};
ghost use Rattle.chat_history.specs.History.{norm};
ghost use Rattle.chat_history.specs.Visible.{records_in};
ghost use Rattle.chat_query.specs.Page.{Point, point_of, last, around_cut, between_cut};
ghost use Rattle.chat_page.specs.Cuts.{between_cuts};
ghost use Rattle.chat_page.specs.Point.{value_of};

use crate::pages::PageFault;
use crate::point::{SelectorPoint, over, under};
use chat_change::{Buffer, Moment, MsgId, Record};
use chat_history::is_after;
use chat_query::Selector;
use chat_state::{Cut, Spot, State};
use std::alloc::{AllocError, Global};

/// Which records of a buffer are asked for by one selector.
#[derive(Clone, Copy)]
pub(crate) enum SelectorSide {
    /// The last of those after it.
    LatestAfter,
    /// The last of those before it.
    Before,
    /// The first of those after it.
    After,
    /// At most half from before it, and the others from it on.
    Around,
}

ghost use Rattle.chat_page.specs.Answer.{side_cut};

// The borrow checker doesn't cover `*cut`, of an enum that holds a reference.
fn copy_of<'c>(cut: &Cut<'c>) -> Cut<'c>
    ensures { result ≡ cut.now }
{
    match cut {
        Cut::Bottom => Cut::Bottom,
        Cut::UnderTime(at) => Cut::UnderTime(*at),
        Cut::OverTime(at) => Cut::OverTime(*at),
        Cut::UnderMsg(spot) => Cut::UnderMsg(*spot),
        Cut::OverMsg(spot) => Cut::OverMsg(*spot),
        Cut::Top => Cut::Top,
    }
}

/// A buffer that is paged through, and how many of its records a page has at most.
#[derive(Drop)]
pub(crate) struct Pager<'a> {
    pub(crate) alloc: Global,
    pub(crate) state: &'a State,
    pub(crate) buffer: Buffer,
    pub(crate) limit: usize,
}

impl<'a> Pager<'a> {
    /// The point of a selector. Refused where the buffer has no position for the message, and for want of memory.
    pub(crate) fn point_of(&self, selector: &Selector<'_>) -> Result<SelectorPoint, PageFault>
        ensures point { (changes : List Change) → self.now.state.now.history ≡ norm changes
            → IfOk result (λ point. point_of (norm changes) self.now.buffer selector.now
            ≡ value_of point) }
        ensures some { IfOk result (λ point. IsSome (value_of point)) }
        ensures unknown { (changes : List Change) → self.now.state.now.history ≡ norm changes
            → result ≡ Err PageFault.UnknownMessage
            → point_of (norm changes) self.now.buffer selector.now ≡ None }
    {
        match selector {
            Selector::Timestamp(at) => Ok(SelectorPoint::Moment(*at)),
            Selector::Message(id) => {
                let Ok(id) = MsgId::new(self.alloc, id.as_bytes()) else {
                    return Err(PageFault::NoMemory);
                };
                let Some(at) = self.state.position(&self.buffer, &id) else {
                    return Err(PageFault::UnknownMessage);
                };
                Ok(SelectorPoint::Message(Spot { at, id: Some(id) }))
            }
        }
    }

    /// The first `n` of the records above the one cut and below the other.
    fn first_between(
        &self,
        low: &Cut<'_>,
        high: &Cut<'_>,
        n: usize,
    ) -> Result<Vec<&'a Record>, AllocError>
        ensures { IfOk result (λ page. map (λ r. r.now) page.items
            ≡ take n (between_cuts low.now high.now
            (records_in self.now.state.now.history self.now.buffer))) }
    {
        // Without it the prover doesn't find the types that a cut may hold.
        let _held: (Option<Moment>, Option<&Spot>) = (None, None);
        self.state
            .up(&self.buffer, copy_of(low))
            .take_while(|post| !is_after(high, post))
            .take(n)
            .collect(self.alloc)
    }

    /// The last `n` of the records above the one cut and below the other.
    fn last_between(
        &self,
        low: &Cut<'_>,
        high: &Cut<'_>,
        n: usize,
    ) -> Result<Vec<&'a Record>, AllocError>
        ensures { IfOk result (λ page. map (λ r. r.now) page.items
            ≡ last n (between_cuts low.now high.now
            (records_in self.now.state.now.history self.now.buffer))) }
    {
        // Without it the prover doesn't find the types that a cut may hold.
        let _held: (Option<Moment>, Option<&Spot>) = (None, None);
        let mut page: Vec<&'a Record> = self
            .state
            .down(&self.buffer, copy_of(high))
            .take_while(|post| is_after(low, post))
            .take(n)
            .collect(self.alloc)?;
        page.reverse();
        Ok(page)
    }

    /// The latest records.
    pub(crate) fn latest(&self) -> Result<Vec<&'a Record>, AllocError>
        ensures { IfOk result (λ page. map (λ r. r.now) page.items ≡ last self.now.limit
            (records_in self.now.state.now.history self.now.buffer)) }
    {
        // Without it the prover doesn't find the types that a cut may hold.
        let _held: (Option<Moment>, Option<&Spot>) = (None, None);
        self.last_between(&Cut::Bottom, &Cut::Top, self.limit)
    }

    /// The records around a point.
    fn around(&self, point: &SelectorPoint) -> Result<Vec<&'a Record>, AllocError>
        ensures { (p : Point) → value_of point.now ≡ Some p → IfOk result (λ page.
            map (λ r. r.now) page.items ≡ around_cut self.now.limit
            (records_in self.now.state.now.history self.now.buffer) p) }
    {
        // Without it the prover doesn't find the types that a cut may hold.
        let _held: (Option<Moment>, Option<&Spot>) = (None, None);
        let half = self.limit / 2;
        let cut = under(point);
        let mut page = self.last_between(&Cut::Bottom, &cut, half)?;
        let mut rest = self.first_between(&cut, &Cut::Top, self.limit - half)?;
        page.append(&mut rest)?;
        Ok(page)
    }

    /// The records on a side of a point.
    pub(crate) fn beside(
        &self,
        point: &SelectorPoint,
        side: SelectorSide,
    ) -> Result<Vec<&'a Record>, AllocError>
        ensures { (p : Point) → value_of point.now ≡ Some p → IfOk result (λ page.
            map (λ r. r.now) page.items ≡ side_cut side self.now.limit
            (records_in self.now.state.now.history self.now.buffer) p) }
    {
        // Without it the prover doesn't find the type of the spots that a cut may hold.
        let _held: Option<&Spot> = None;
        match side {
            SelectorSide::LatestAfter => self.last_between(&over(point), &Cut::Top, self.limit),
            SelectorSide::Before => self.last_between(&Cut::Bottom, &under(point), self.limit),
            SelectorSide::After => self.first_between(&over(point), &Cut::Top, self.limit),
            SelectorSide::Around => self.around(point),
        }
    }

    /// The records between two points.
    pub(crate) fn between(
        &self,
        one: &SelectorPoint,
        other: &SelectorPoint,
    ) -> Result<Vec<&'a Record>, AllocError>
        ensures { (p q : Point) → value_of one.now ≡ Some p → value_of other.now ≡ Some q
            → IfOk result (λ page. map (λ r. r.now) page.items ≡ between_cut self.now.limit
            (records_in self.now.state.now.history self.now.buffer) p q) }
    {
        // Without it the prover doesn't find the types that a cut may hold.
        let _held: (Option<Moment>, Option<&Spot>) = (None, None);
        let rising = self.first_between(&over(one), &under(other), self.limit)?;
        if rising.is_empty() {
            self.last_between(&over(other), &under(one), self.limit)
        } else {
            Ok(rising)
        }
    }
}
