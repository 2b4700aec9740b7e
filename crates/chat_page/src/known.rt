//! Whether a query has a page, which is found out without memory.
ghost use Rattle.std.specs.Prelude.{◌≡◌, List, is_some};
ghost use Rattle.chat_change.specs.declared.change.Change.{Change};
ghost use Rattle.chat_history.specs.History.{norm};
ghost use Rattle.chat_query.specs.Page.{buffer_of, page, point_of};

use chat_query::{Query, Scope, Selector, Target};
use chat_state::State;

/// Whether a selector has a point in the buffer of a target.
fn has_point(state: &State, scope: &Scope<'_>, target: &Target<'_>, selector: &Selector<'_>) -> bool
    ensures { (changes : List Change) → state.now.history ≡ norm changes → result ≡ is_some
        (point_of (norm changes) (buffer_of scope.now target.now) selector.now) }
{
    match selector {
        Selector::Timestamp(_) => true,
        Selector::Message(id) => {
            let bytes = id.as_bytes();
            let at = state.find_position(scope.account(), scope.network(), target.given(), bytes);
            at.is_some()
        }
    }
}

/// Whether the query has a page: each message that it names has a position.
pub(crate) fn has_page(state: &State, scope: &Scope<'_>, query: &Query<'_>) -> bool
    ensures { (changes : List Change) → state.now.history ≡ norm changes
        → result ≡ is_some (page changes scope.now query.now) }
{
    match query {
        Query::Latest { target, after, .. } => match after {
            None => true,
            Some(selector) => has_point(state, scope, target, selector),
        },
        Query::Before {
            target,
            selector,
            ..
        } => has_point(state, scope, target, selector),
        Query::After {
            target,
            selector,
            ..
        } => has_point(state, scope, target, selector),
        Query::Around {
            target,
            selector,
            ..
        } => has_point(state, scope, target, selector),
        Query::Between {
            target,
            one,
            other,
            ..
        } => has_point(state, scope, target, one) && has_point(state, scope, target, other),
        Query::Targets { .. } => true,
    }
}
