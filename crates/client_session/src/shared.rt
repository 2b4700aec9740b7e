//! What the commands have in common before registration and after it.
ghost use Rattle.std.specs.Prelude.{◌≡◌, ◌∷◌, [], ◌++◌, map, IfOk, Some, None};
ghost use Rattle.client_session.specs.Step as spec;

use crate::effect::Effect;
use byte_text::{NoMemory, Text};
use chat_change::is_target;
use irc_line::LineFault;
use irc_reply::need_more_params;
use irc_reply::to_client::{closing_link, erroneous_nick, no_nick_given, pong, too_long, unknown};
use std::alloc::{AllocError, Global};

/// One effect.
pub(crate) fn one(alloc: Global, effect: Effect) -> Result<Vec<Effect>, NoMemory>
    ensures { IfOk result (λ list. list.items ≡ effect ∷ []) }
{
    let mut list = Vec::new(alloc);
    list.push(effect).map_err(AllocError::from)?;
    Ok(list)
}

/// One effect more.
pub(crate) fn push(list: &mut Vec<Effect>, effect: Effect) -> Result<(), NoMemory>
    ensures { IfOk result (λ _. list.new.items ≡ list.old.items ++ effect ∷ []) }
{
    list.push(effect).map_err(AllocError::from)?;
    Ok(())
}

/// One line to the client.
pub(crate) fn answer(alloc: Global, text: Text) -> Result<Vec<Effect>, NoMemory>
    ensures { IfOk result (λ list. list.items ≡ spec.answer text) }
{
    one(alloc, Effect::Send(text))
}

/// PING (RFC 2812, section 3.7.2).
pub(crate) fn ping(
    alloc: Global,
    cluster: &[u8],
    nick: &[u8],
    parameters: &[&[u8]],
) -> Result<Vec<Effect>, NoMemory>
    ensures { IfOk result (λ list. list.items
        ≡ spec.ping cluster.now nick.now (map (λ p. p.now) parameters.now)) }
{
    if parameters.is_empty() {
        let text = need_more_params(alloc, cluster, nick, b"PING")?;
        answer(alloc, text)
    } else {
        let text = pong(alloc, cluster, parameters[0])?;
        answer(alloc, text)
    }
}

/// The last line of a connection, and its end.
pub(crate) fn closing(alloc: Global) -> Result<Vec<Effect>, NoMemory>
    ensures { IfOk result (λ list. list.items ≡ spec.quit.effects) }
{
    let text = closing_link(alloc)?;
    let mut list = answer(alloc, text)?;
    push(&mut list, Effect::Close)?;
    Ok(list)
}

/// Why a NICK is refused, if it is (RFC 2812, section 3.1.2).
pub(crate) fn nick_refusal(
    alloc: Global,
    cluster: &[u8],
    nick: &[u8],
    parameters: &[&[u8]],
) -> Result<Option<Text>, NoMemory>
    ensures { IfOk result (λ refusal. refusal
        ≡ spec.nick_refusal cluster.now nick.now (map (λ p. p.now) parameters.now)) }
{
    let refusal = if parameters.is_empty() {
        no_nick_given(alloc, cluster, nick)
    } else if parameters[0].is_empty() {
        no_nick_given(alloc, cluster, nick)
    } else if !is_target(parameters[0]) {
        erroneous_nick(alloc, cluster, nick, parameters[0])
    } else {
        return Ok(None);
    };
    let text = refusal?;
    Ok(Some(text))
}

/// What a line that can't be read does.
pub(crate) fn refusal(
    alloc: Global,
    cluster: &[u8],
    nick: &[u8],
    fault: LineFault,
) -> Result<Vec<Effect>, NoMemory>
    ensures { IfOk result (λ list. list.items ≡ spec.refusal cluster.now nick.now fault) }
{
    match fault {
        LineFault::Empty => Ok(Vec::new(alloc)),
        LineFault::TagsTooLong | LineFault::TooLong => {
            let text = too_long(alloc, cluster, nick)?;
            answer(alloc, text)
        }
        LineFault::BadByte | LineFault::NoCommand => {
            let text = unknown(alloc, cluster, nick, b"*")?;
            answer(alloc, text)
        }
    }
}
