//! Reading what a client asks for (IRCv3 draft/chathistory, "CHATHISTORY").
ghost use Rattle.std.specs.Prelude.{◌≡◌, ◌∷◌, [], map, drop};
ghost use Rattle.std.specs.Option.{option_copied};
ghost use Rattle.chat_query.specs.Parameters as spec;

use crate::limit::read_limit;
use crate::query::{GivenId, Query, Selector, Target};
use chat_change::{Moment, is_star};
use irc_line::Line;
use irc_time::read_time;
use thiserror::Error;

/// Why a line is no query. Of several faults the first of this list is answered, except that a known subcommand with too
/// few parameters is `NeedMoreParams`.
#[derive(Clone, Copy, Debug, PartialEq, Eq, Error)]
pub enum QueryFault {
    /// No subcommand, or too few parameters behind it.
    #[error("parameters are missing")]
    NeedMoreParams,
    /// Another subcommand than the six.
    #[error("the subcommand is unknown")]
    UnknownCommand,
    /// The target is none.
    #[error("the target is refused")]
    InvalidTarget,
    /// A selector of another kind than is allowed there.
    #[error("a selector is of the wrong kind")]
    InvalidMsgRef,
    /// A selector without a lawful value, or a limit that is no number above 0.
    #[error("a parameter is refused")]
    InvalidParams,
}

/// The first parameter, if there is one.
pub fn first_of<'a>(parameters: &[&'a [u8]]) -> Option<&'a [u8]>
    ensures { option_copied result ≡ spec.first_of (map (λ p. p.now) parameters.now) }
{
    match parameters {
        [word, ..] => Some(word),
        [] => None,
    }
}

/// A target, a selector and a limit.
#[derive(Drop)]
struct Selected<'a> {
    target: Target<'a>,
    selector: Selector<'a>,
    limit: usize,
}

fn has_timestamp_key(word: &[u8]) -> bool
    ensures { result ≡ spec.has_timestamp_key word.now }
{
    word.starts_with(b"timestamp=")
}

fn has_msgid_key(word: &[u8]) -> bool
    ensures { result ≡ spec.has_msgid_key word.now }
{
    word.starts_with(b"msgid=")
}

fn has_key(word: &[u8]) -> bool
    ensures { result ≡ spec.has_key word.now }
{
    has_timestamp_key(word) || has_msgid_key(word)
}

/// The text behind the first so many bytes, or nothing of a shorter one.
fn behind(n: usize, word: &[u8]) -> &[u8]
    ensures { result.now ≡ drop n word.now }
{
    if n <= word.len() { &word[n..] } else { b"" }
}

/// The moment behind the key `timestamp=`.
fn read_timestamp(word: &[u8]) -> Option<Moment>
    ensures { result ≡ spec.timestamp_of word.now }
{
    read_time(behind(10, word))
}

/// The moment of a word `timestamp=` and a time, as selectors and read markers name it (IRCv3 draft/chathistory,
/// "CHATHISTORY", and draft/read-marker). None for every other word.
pub fn read_moment(word: &[u8]) -> Option<Moment>
    ensures { result ≡ spec.moment_of word.now }
{
    if has_timestamp_key(word) {
        read_timestamp(word)
    } else {
        None
    }
}

/// The id behind the key `msgid=`.
fn read_id(word: &[u8]) -> Option<GivenId<'_>>
    ensures { result ≡ spec.id_of word.now }
{
    GivenId::read(behind(6, word))
}

/// The selector that a word with a key spells.
fn read_selector(word: &[u8]) -> Option<Selector<'_>>
    ensures { result ≡ spec.selector_of word.now }
{
    if has_timestamp_key(word) {
        Some(Selector::Timestamp(read_timestamp(word)?))
    } else {
        Some(Selector::Message(read_id(word)?))
    }
}

/// A selector, or `*` for none.
fn read_selector_or_none(word: &[u8]) -> Option<Option<Selector<'_>>>
    ensures { result ≡ spec.selector_or_none_of word.now }
{
    if is_star(word) {
        Some(None)
    } else {
        Some(Some(read_selector(word)?))
    }
}

/// The target that a word spells.
fn read_target(word: &[u8]) -> Option<Target<'_>>
    ensures { result ≡ spec.target_of word.now }
{
    Target::read(word)
}

/// LATEST, of a target, a selector or `*`, and a limit.
fn latest_of<'a>(
    target: &'a [u8],
    selector: &'a [u8],
    limit: &[u8],
) -> Result<Query<'a>, QueryFault>
    ensures { result ≡ spec.latest_of (target.now ∷ selector.now ∷ limit.now ∷ []) }
{
    let Some(target) = read_target(target) else {
        return Err(QueryFault::InvalidTarget);
    };
    if !(is_star(selector) || has_key(selector)) {
        return Err(QueryFault::InvalidMsgRef);
    }
    let Some(after) = read_selector_or_none(selector) else {
        return Err(QueryFault::InvalidParams);
    };
    let Some(limit) = read_limit(limit) else {
        return Err(QueryFault::InvalidParams);
    };
    Ok(Query::Latest {
        target,
        after,
        limit,
    })
}

/// A target, a selector and a limit.
fn selected_of<'a>(
    target: &'a [u8],
    selector: &'a [u8],
    limit: &[u8],
) -> Result<Selected<'a>, QueryFault>
    ensures { result ≡ spec.selected_of (target.now ∷ selector.now ∷ limit.now ∷ []) }
{
    let Some(target) = read_target(target) else {
        return Err(QueryFault::InvalidTarget);
    };
    if !has_key(selector) {
        return Err(QueryFault::InvalidMsgRef);
    }
    let Some(selector) = read_selector(selector) else {
        return Err(QueryFault::InvalidParams);
    };
    let Some(limit) = read_limit(limit) else {
        return Err(QueryFault::InvalidParams);
    };
    Ok(Selected {
        target,
        selector,
        limit,
    })
}

/// BETWEEN, of a target, two selectors and a limit.
fn between_of<'a>(
    target: &'a [u8],
    one: &'a [u8],
    other: &'a [u8],
    limit: &[u8],
) -> Result<Query<'a>, QueryFault>
    ensures { result ≡ spec.between_of (target.now ∷ one.now ∷ other.now ∷ limit.now ∷ []) }
{
    let Some(target) = read_target(target) else {
        return Err(QueryFault::InvalidTarget);
    };
    if !(has_key(one) && has_key(other)) {
        return Err(QueryFault::InvalidMsgRef);
    }
    let Some(one) = read_selector(one) else {
        return Err(QueryFault::InvalidParams);
    };
    let Some(other) = read_selector(other) else {
        return Err(QueryFault::InvalidParams);
    };
    let Some(limit) = read_limit(limit) else {
        return Err(QueryFault::InvalidParams);
    };
    Ok(Query::Between {
        target,
        one,
        other,
        limit,
    })
}

/// TARGETS, of two timestamps and a limit.
fn targets_of<'a>(one: &[u8], other: &[u8], limit: &[u8]) -> Result<Query<'a>, QueryFault>
    ensures { result ≡ spec.targets_of (one.now ∷ other.now ∷ limit.now ∷ []) }
{
    if !(has_timestamp_key(one) && has_timestamp_key(other)) {
        return Err(QueryFault::InvalidMsgRef);
    }
    let Some(one) = read_timestamp(one) else {
        return Err(QueryFault::InvalidParams);
    };
    let Some(other) = read_timestamp(other) else {
        return Err(QueryFault::InvalidParams);
    };
    let Some(limit) = read_limit(limit) else {
        return Err(QueryFault::InvalidParams);
    };
    Ok(Query::Targets { one, other, limit })
}

/// The parameters of LATEST.
fn read_latest<'a>(parameters: &[&'a [u8]]) -> Result<Query<'a>, QueryFault>
    ensures { result ≡ spec.latest_of (map (λ p. p.now) parameters.now) }
{
    match parameters {
        [target, selector, limit, ..] => latest_of(target, selector, limit),
        _ => Err(QueryFault::NeedMoreParams),
    }
}

/// The parameters of BEFORE, AFTER or AROUND.
fn read_selected<'a>(parameters: &[&'a [u8]]) -> Result<Selected<'a>, QueryFault>
    ensures { result ≡ spec.selected_of (map (λ p. p.now) parameters.now) }
{
    match parameters {
        [target, selector, limit, ..] => selected_of(target, selector, limit),
        _ => Err(QueryFault::NeedMoreParams),
    }
}

fn read_before<'a>(parameters: &[&'a [u8]]) -> Result<Query<'a>, QueryFault>
    ensures { result ≡ spec.before_of (map (λ p. p.now) parameters.now) }
{
    let Selected {
        target,
        selector,
        limit,
    } = read_selected(parameters)?;
    Ok(Query::Before {
        target,
        selector,
        limit,
    })
}

fn read_after<'a>(parameters: &[&'a [u8]]) -> Result<Query<'a>, QueryFault>
    ensures { result ≡ spec.after_of (map (λ p. p.now) parameters.now) }
{
    let Selected {
        target,
        selector,
        limit,
    } = read_selected(parameters)?;
    Ok(Query::After {
        target,
        selector,
        limit,
    })
}

fn read_around<'a>(parameters: &[&'a [u8]]) -> Result<Query<'a>, QueryFault>
    ensures { result ≡ spec.around_of (map (λ p. p.now) parameters.now) }
{
    let Selected {
        target,
        selector,
        limit,
    } = read_selected(parameters)?;
    Ok(Query::Around {
        target,
        selector,
        limit,
    })
}

/// The parameters of BETWEEN.
fn read_between<'a>(parameters: &[&'a [u8]]) -> Result<Query<'a>, QueryFault>
    ensures { result ≡ spec.between_of (map (λ p. p.now) parameters.now) }
{
    match parameters {
        [target, one, other, limit, ..] => between_of(target, one, other, limit),
        _ => Err(QueryFault::NeedMoreParams),
    }
}

/// The parameters of TARGETS.
fn read_targets<'a>(parameters: &[&'a [u8]]) -> Result<Query<'a>, QueryFault>
    ensures { result ≡ spec.targets_of (map (λ p. p.now) parameters.now) }
{
    match parameters {
        [one, other, limit, ..] => targets_of(one, other, limit),
        _ => Err(QueryFault::NeedMoreParams),
    }
}

/// The parameters behind a subcommand.
fn read_behind<'a>(word: &[u8], parameters: &[&'a [u8]]) -> Result<Query<'a>, QueryFault>
    ensures { result ≡ spec.read_behind word.now (map (λ p. p.now) parameters.now) }
{
    if word.eq_ignore_ascii_case(b"LATEST") {
        read_latest(parameters)
    } else if word.eq_ignore_ascii_case(b"BEFORE") {
        read_before(parameters)
    } else if word.eq_ignore_ascii_case(b"AFTER") {
        read_after(parameters)
    } else if word.eq_ignore_ascii_case(b"AROUND") {
        read_around(parameters)
    } else if word.eq_ignore_ascii_case(b"BETWEEN") {
        read_between(parameters)
    } else if word.eq_ignore_ascii_case(b"TARGETS") {
        read_targets(parameters)
    } else {
        Err(QueryFault::UnknownCommand)
    }
}

fn read_parameters<'a>(parameters: &[&'a [u8]]) -> Result<Query<'a>, QueryFault>
    ensures { result ≡ spec.read_query (map (λ p. p.now) parameters.now) }
{
    match parameters {
        [word, rest @ ..] => read_behind(word, rest),
        [] => Err(QueryFault::NeedMoreParams),
    }
}

/// What the parameters of a CHATHISTORY line ask for, whatever its command is (IRCv3 draft/chathistory, "CHATHISTORY").
///
/// `LATEST target selector-or-* limit`, `BEFORE`, `AFTER` or `AROUND target selector limit`, `BETWEEN target selector
/// selector limit`, and `TARGETS timestamp timestamp limit`. A selector is `msgid=` and an id or `timestamp=` and a time.
/// Subcommands are compared without regard to case, keys as they are; further parameters are ignored. The query borrows
/// the line and takes no memory.
pub fn read_query<'a>(line: &Line<'a>) -> Result<Query<'a>, QueryFault>
    ensures { result ≡ spec.read_query line.now.parameters }
{
    read_parameters(line.parameters())
}
