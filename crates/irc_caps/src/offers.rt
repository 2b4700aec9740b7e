//! The capabilities that a server offers and acknowledges (IRCv3 capability negotiation).
ghost use Rattle.std.specs.Prelude.{◌≡◌, ◌∷◌, [], map, codes, true, Some, IfOk};
ghost use Rattle.irc_caps.specs.Words as lists;
ghost use Rattle.irc_caps.specs.Capability.{capability_of};
ghost use Rattle.irc_caps.specs.Offers as spec;
ghost use Rattle.irc_reply.specs.Reply.{plain_line};

use crate::words::{joined, names_among, parts_of, with_words};
use crate::{CapSet, Capability};
use byte_text::{NoMemory, Text, find_byte};
use irc_reply::plain_line;
use irc_reply::to_server::cap_end;
use std::alloc::Global;

/// What a session asks its server for, where it is offered.
const WANTED: [Capability; 4] = [
    Capability::MessageRedaction,
    Capability::EchoMessage,
    Capability::MessageTags,
    Capability::ServerTime,
];

/// The name in an offer, which may have `=` and a value behind it.
fn name_in(offer: &[u8]) -> &[u8]
    ensures { result.now ≡ spec.name_in offer.now }
{
    match find_byte(offer, b'=') {
        Some(at) => &offer[..at],
        None => offer,
    }
}

fn with_offer(caps: CapSet, offer: &[u8]) -> CapSet
    ensures { result ≡ spec.with_offer caps (capability_of (spec.name_in offer.now)) }
{
    match Capability::named(name_in(offer)) {
        None => caps,
        Some(capability) => caps.with(capability, true),
    }
}

fn with_each_offer(caps: CapSet, offers: &[&[u8]]) -> CapSet
    ensures { result ≡ spec.with_offers caps (map (λ w. w.now) offers.now) }
{
    let mut offered = caps;
    for offer in offers {
        offered = with_offer(offered, offer);
    }
    offered
}

/// The set with the capabilities that a list offers (`CAP LS`): names with spaces between them, each of which may have `=`
/// and a value behind it. Other names are skipped.
pub fn with_offers(alloc: Global, caps: CapSet, list: &[u8]) -> Result<CapSet, NoMemory>
    ensures { IfOk result (λ set. set ≡ spec.with_offers caps (lists.parts_of list.now)) }
{
    let parts = parts_of(alloc, list)?;
    Ok(with_each_offer(caps, &parts))
}

/// The set after a list that was acknowledged (`CAP ACK`), word by word: a capability is held, and one that `-` stands
/// before isn't. Other names are skipped.
pub fn with_acknowledged(alloc: Global, caps: CapSet, list: &[u8]) -> Result<CapSet, NoMemory>
    ensures { IfOk result (λ set. set ≡ lists.with_words caps (lists.parts_of list.now)) }
{
    let parts = parts_of(alloc, list)?;
    Ok(with_words(caps, &parts))
}

/// `CAP REQ :list`: asks for capabilities.
fn cap_req(alloc: Global, list: &[u8]) -> Result<Text, NoMemory>
    ensures { IfOk result (λ text. text ≡ plain_line (codes "CAP") (codes "REQ" ∷ [])
        (Some list.now)) }
{
    plain_line(alloc, b"CAP", &[b"REQ".as_slice()], Some(list))
}

fn request_of(alloc: Global, names: &[&[u8]]) -> Result<Text, NoMemory>
    ensures { IfOk result (λ text. text ≡ spec.request_of (map (λ w. w.now) names.now)) }
{
    match names {
        [] => cap_end(alloc),
        _ => {
            let list = joined(alloc, names)?;
            cap_req(alloc, list.as_bytes())
        }
    }
}

/// The answer to the last of the offers: asks for those that are wanted, or ends the negotiation where there are none.
pub fn request(alloc: Global, offered: CapSet) -> Result<Text, NoMemory>
    ensures { IfOk result (λ text. text ≡ spec.request offered) }
{
    let names = names_among(alloc, offered, &WANTED)?;
    request_of(alloc, &names)
}
