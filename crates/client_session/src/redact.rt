//! REDACT of a registered session (IRCv3 draft/message-redaction).
ghost use Rattle.std.specs.Prelude.{◌≡◌, IfOk};
ghost use Rattle.std.specs.Option.{option_copied};
ghost use Rattle.client_session.specs.Registered as spec;

use crate::effect::Effect;
use crate::registered::{ServedLine, takes_redact, unknown_command};
use crate::shared::{answer, one};
use byte_text::NoMemory;
use chat_change::is_id;
use chat_query::{Facts, first_of};
use irc_reply::to_client::{
    redact_bad_target, redact_forbidden, redact_needs_more, redact_unknown_id,
};
use irc_reply::to_server::redact_line;
use std::alloc::Global;

fn redact_named(
    alloc: Global,
    facts: &Facts,
    served: &ServedLine<'_>,
    target: &[u8],
    id: &[u8],
    reason: Option<&[u8]>,
) -> Result<Vec<Effect>, NoMemory>
    ensures { IfOk result (λ list. list.items ≡ spec.redact_named (option_copied served.now.entry)
        facts.now served.now.shown target.now id.now (option_copied reason.entry)) }
{
    let cluster = facts.cluster.as_bytes();
    let refusal = if !facts.has_buffer(target) {
        redact_bad_target(alloc, cluster)
    } else if !(is_id(id) && served.shown) {
        redact_unknown_id(alloc, cluster, target)
    } else if !takes_redact(served.entry) {
        redact_forbidden(alloc, cluster, target)
    } else {
        let line = redact_line(alloc, target, id, reason)?;
        return one(alloc, Effect::Upstream(line));
    };
    let text = refusal?;
    answer(alloc, text)
}

fn redact_of(alloc: Global, facts: &Facts, served: &ServedLine<'_>) -> Result<Vec<Effect>, NoMemory>
    ensures { IfOk result (λ list. list.items ≡ spec.redact_of (option_copied served.now.entry)
        facts.now served.now.shown served.now.line.now.parameters) }
{
    let parameters = served.line.parameters();
    match parameters {
        [target, id, rest @ ..] => {
            redact_named(alloc, facts, served, target, id, first_of(rest))
        }
        _ => {
            let text = redact_needs_more(alloc, facts.cluster.as_bytes())?;
            answer(alloc, text)
        }
    }
}

/// REDACT, where it is known whether the message is shown that it names: a refusal, or a line for the network's server.
pub(crate) fn redact(
    alloc: Global,
    facts: &Facts,
    served: &ServedLine<'_>,
) -> Result<Vec<Effect>, NoMemory>
    ensures { IfOk result (λ list. list.items ≡ spec.redact (option_copied served.now.entry)
        facts.now served.now.shown served.now.line.now.parameters) }
{
    if facts.caps.message_redaction {
        redact_of(alloc, facts, served)
    } else {
        unknown_command(alloc, facts, b"REDACT")
    }
}
