//! Answering queries.
ghost use Rattle.std.specs.Prelude.{◌≡◌, Some, IfOk, IfErr, List, min};
ghost use Rattle.std.specs.Option.{option_map};
ghost use Rattle.chat_change.specs.declared.change.Change.{Change};
ghost use Rattle.chat_history.specs.History.{norm};
ghost use Rattle.chat_history.specs.Visible.{records_in};
ghost use Rattle.chat_query.specs.Page as spec;
ghost use Rattle.chat_page.specs.Answer.{IsAnswer, IsRefusal, IsAnswerIfMemory, side_of, between_of};

use crate::known::has_page;
use crate::listed_buffer::listed_between;
use crate::pager::{Pager, SelectorSide};
use crate::pages::{Page, PageFault};
use chat_change::{Buffer, Moment};
use chat_query::{Query, Scope, Selector, Target};
use chat_state::State;
use std::alloc::Global;

/// The state that is asked, and who asks it.
#[derive(Clone, Copy)]
struct Asked<'a, 'b> {
    alloc: Global,
    state: &'a State,
    scope: &'b Scope<'b>,
}

impl<'a, 'b> Asked<'a, 'b> {
    /// The pager of a target's buffer, with the lower one of a limit and the scope's maximum.
    fn pager(&self, target: &Target<'_>, limit: usize) -> Result<Pager<'a>, PageFault>
        ensures state { IfOk result (λ pager. pager.state.now ≡ self.now.state.now) }
        ensures buffer { IfOk result (λ pager. pager.buffer
            ≡ spec.buffer_of self.now.scope.now target.now) }
        ensures limit { IfOk result (λ pager. pager.limit
            ≡ min limit self.now.scope.now.maximum) }
        ensures err { IfErr result (λ fault. fault ≡ PageFault.NoMemory) }
    {
        let scope = self.scope;
        match Buffer::new(self.alloc, scope.account(), scope.network(), target.given()) {
            Ok(buffer) => Ok(Pager {
                alloc: self.alloc,
                state: self.state,
                buffer,
                limit: limit.min(scope.maximum()),
            }),
            // Names and targets are lawful by their types.
            Err(_) => Err(PageFault::NoMemory),
        }
    }

    /// A page of one selector.
    fn selected_page(
        &self,
        target: &Target<'_>,
        selector: &Selector<'_>,
        side: SelectorSide,
        limit: usize,
    ) -> Result<Page<'a>, PageFault>
        ensures { (changes : List Change) → self.now.state.now.history ≡ norm changes
            → IsAnswerIfMemory (option_map spec.of_records (side_of (norm changes)
            (spec.buffer_of self.now.scope.now target.now) selector.now side
            (min limit self.now.scope.now.maximum))) result }
    {
        let pager = self.pager(target, limit)?;
        let point = pager.point_of(selector)?;
        Ok(Page::Records(pager.beside(&point, side)?))
    }

    /// A page between two selectors.
    fn between_page(
        &self,
        target: &Target<'_>,
        one: &Selector<'_>,
        other: &Selector<'_>,
        limit: usize,
    ) -> Result<Page<'a>, PageFault>
        ensures { (changes : List Change) → self.now.state.now.history ≡ norm changes
            → IsAnswerIfMemory (option_map spec.of_records (between_of (norm changes)
            (spec.buffer_of self.now.scope.now target.now) one.now other.now
            (min limit self.now.scope.now.maximum))) result }
    {
        let pager = self.pager(target, limit)?;
        let point = pager.point_of(one)?;
        let other_point = pager.point_of(other)?;
        Ok(Page::Records(pager.between(&point, &other_point)?))
    }

    /// The page of the latest records.
    fn latest_page(&self, target: &Target<'_>, limit: usize) -> Result<Page<'a>, PageFault>
        ensures { IsAnswerIfMemory (Some (spec.of_records (spec.last
            (min limit self.now.scope.now.maximum)
            (records_in self.now.state.now.history
            (spec.buffer_of self.now.scope.now target.now))))) result }
    {
        let pager = self.pager(target, limit)?;
        Ok(Page::Records(pager.latest()?))
    }

    /// The page of a list of buffers.
    fn targets_page(&self, one: Moment, other: Moment, limit: usize) -> Result<Page<'a>, PageFault>
        ensures { IsAnswerIfMemory (Some (spec.of_buffers (spec.targets_cut
            (min limit self.now.scope.now.maximum) one other
            (spec.buffers_in self.now.state.now.history self.now.scope.now)))) result }
    {
        let n = limit.min(self.scope.maximum());
        let buffers = listed_between(self.alloc, self.state, self.scope, one, other, n)?;
        Ok(Page::Buffers(buffers))
    }

    /// The page of a query. Want of memory is answered wherever some was refused.
    fn page_if_memory(&self, query: &Query<'_>) -> Result<Page<'a>, PageFault>
        ensures { (changes : List Change) → self.now.state.now.history ≡ norm changes
            → IsAnswerIfMemory (spec.page changes self.now.scope.now query.now) result }
    {
        match query {
            Query::Latest {
                target,
                after,
                limit,
            } => match after {
                None => self.latest_page(target, *limit),
                Some(selector) => {
                    self.selected_page(target, selector, SelectorSide::LatestAfter, *limit)
                }
            },
            Query::Before {
                target,
                selector,
                limit,
            } => self.selected_page(target, selector, SelectorSide::Before, *limit),
            Query::After {
                target,
                selector,
                limit,
            } => self.selected_page(target, selector, SelectorSide::After, *limit),
            Query::Around {
                target,
                selector,
                limit,
            } => self.selected_page(target, selector, SelectorSide::Around, *limit),
            Query::Between {
                target,
                one,
                other,
                limit,
            } => self.between_page(target, one, other, *limit),
            Query::Targets { one, other, limit } => self.targets_page(*one, *other, *limit),
        }
    }

    /// Why a query for which there was no memory is refused.
    fn refusal_of(&self, query: &Query<'_>) -> PageFault
        ensures { (changes : List Change) → self.now.state.now.history ≡ norm changes
            → IsRefusal (spec.page changes self.now.scope.now query.now) result }
    {
        if has_page(self.state, self.scope, query) {
            PageFault::NoMemory
        } else {
            PageFault::UnknownMessage
        }
    }
}

/// The page that answers a query (IRCv3 draft/chathistory, "Subcommands"): at most as many records or buffers as the lower
/// one of its limit and the scope's maximum. The page lends what the state holds and copies no record.
///
/// Refused with [`PageFault::UnknownMessage`] exactly where a selector names a message for which the buffer has no
/// position: a redacted one has its position still. So [`PageFault::NoMemory`] comes only where each selector has its
/// point. A message is looked up by a buffer and an id that own their memory. Where these find none, the buffers and the
/// ids are gone through one by one, which takes longer.
pub fn page<'a>(
    alloc: Global,
    state: &'a State,
    scope: &Scope<'_>,
    query: &Query<'_>,
) -> Result<Page<'a>, PageFault>
    ensures { (changes : List Change) → state.now.history ≡ norm changes
        → IsAnswer (spec.page changes scope.now query.now) result }
{
    let asked = Asked {
        alloc,
        state,
        scope,
    };
    match asked.page_if_memory(query) {
        Ok(page) => Ok(page),
        Err(PageFault::UnknownMessage) => Err(PageFault::UnknownMessage),
        Err(PageFault::NoMemory) => Err(asked.refusal_of(query)),
    }
}
