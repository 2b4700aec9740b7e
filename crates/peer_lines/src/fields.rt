//! The words of a line, and the values that they spell. Nothing here takes memory.
ghost use Rattle.std.specs.Prelude.{◌≡◌};
ghost use Rattle.std.specs.Option.{option_map};
ghost use Rattle.peer_lines.specs.Reading as spec;
ghost use Rattle.peer_lines.specs.Fields.{life_value, hello_value, head_value, ack_value};
ghost use Rattle.peer_lines.specs.Fields.{span_value};

use crate::packet::PACKET_LIMIT;
use byte_text::number_to;
use change_lines::split_word;
use cluster_directory::{Version, is_node_name};

/// The number below 2^64 of which the text is the decimal digits, without leading zeros.
pub(crate) fn number_of(text: &[u8]) -> Option<u64>
    ensures { result ≡ spec.number_of text.now }
{
    number_to(u64::MAX, text)
}

/// The version of which the text is the number, in decimal digits without leading zeros.
fn version_of(text: &[u8]) -> Option<Version>
    ensures { result ≡ spec.version_of text.now }
{
    Version::of_number(number_of(text)?)
}

/// A life in a line: the name of the node, which is one, and the incarnation.
#[derive(Clone, Copy)]
pub(crate) struct LifeFields<'a> {
    pub(crate) node: &'a [u8],
    pub(crate) incarnation: u64,
}

/// The life of a name and of the digits of an incarnation.
fn life_of<'a>(node: &'a [u8], incarnation: &[u8]) -> Option<LifeFields<'a>>
    ensures { option_map life_value result
        ≡ spec.life_of node.now (spec.number_of incarnation.now) }
{
    match number_of(incarnation) {
        None => None,
        Some(incarnation) => {
            if is_node_name(node) {
                Some(LifeFields { node, incarnation })
            } else {
                None
            }
        }
    }
}

/// The life that the first two words spell, and what stands behind them.
fn split_life<'a>(bytes: &'a [u8]) -> (Option<LifeFields<'a>>, &'a [u8])
    ensures life { option_map life_value result.0 ≡ spec.life_at bytes.now }
    ensures behind { result.1.now ≡ spec.behind_life bytes.now }
{
    let (node, rest) = split_word(bytes);
    let (incarnation, rest) = split_word(rest);
    (life_of(node, incarnation), rest)
}

/// The numbers of a head.
#[derive(Clone, Copy)]
struct Span {
    from: u64,
    to: u64,
    count: u64,
}

fn span_of(from: Option<u64>, to: Option<u64>, count: Option<u64>) -> Option<Span>
    ensures { option_map span_value result ≡ spec.span_of from to count }
{
    match (from, to, count) {
        (Some(from), Some(to), Some(count)) => {
            if from < to && 0 < count && count <= PACKET_LIMIT {
                Some(Span { from, to, count })
            } else {
                None
            }
        }
        _ => None,
    }
}

fn span_at(bytes: &[u8]) -> Option<Span>
    ensures { option_map span_value result ≡ spec.span_at bytes.now }
{
    let (from, rest) = split_word(bytes);
    let (to, count) = split_word(rest);
    span_of(number_of(from), number_of(to), number_of(count))
}

/// The fields of a hello.
#[derive(Clone, Copy)]
pub(crate) struct HelloFields<'a> {
    pub(crate) life: LifeFields<'a>,
    pub(crate) version: Version,
}

/// The hello, behind its `H`.
pub(crate) fn hello_at<'a>(bytes: &'a [u8]) -> Option<HelloFields<'a>>
    ensures { option_map hello_value result ≡ spec.hello_at bytes.now }
{
    let (version, rest) = split_word(bytes);
    let (node, incarnation) = split_word(rest);
    match (version_of(version), life_of(node, incarnation)) {
        (Some(version), Some(life)) => Some(HelloFields { life, version }),
        _ => None,
    }
}

/// The fields of the head of a packet.
#[derive(Clone, Copy)]
pub(crate) struct HeadFields<'a> {
    pub(crate) sender: LifeFields<'a>,
    pub(crate) receiver: LifeFields<'a>,
    pub(crate) from: u64,
    pub(crate) to: u64,
    pub(crate) count: u64,
}

/// The head of a packet, behind its `D`.
pub(crate) fn head_at<'a>(bytes: &'a [u8]) -> Option<HeadFields<'a>>
    ensures { option_map head_value result ≡ spec.head_at bytes.now }
{
    let (sender, rest) = split_life(bytes);
    let (receiver, rest) = split_life(rest);
    match (sender, receiver, span_at(rest)) {
        (Some(sender), Some(receiver), Some(span)) => Some(HeadFields {
            sender,
            receiver,
            from: span.from,
            to: span.to,
            count: span.count,
        }),
        _ => None,
    }
}

/// The fields of an acknowledgement.
#[derive(Clone, Copy)]
pub(crate) struct AckFields<'a> {
    pub(crate) sender: LifeFields<'a>,
    pub(crate) receiver: LifeFields<'a>,
    pub(crate) upto: u64,
}

/// The acknowledgement, behind its `A`.
pub(crate) fn ack_at<'a>(bytes: &'a [u8]) -> Option<AckFields<'a>>
    ensures { option_map ack_value result ≡ spec.ack_at bytes.now }
{
    let (sender, rest) = split_life(bytes);
    let (receiver, rest) = split_life(rest);
    match (sender, receiver, number_of(rest)) {
        (Some(sender), Some(receiver), Some(upto)) => Some(AckFields {
            sender,
            receiver,
            upto,
        }),
        _ => None,
    }
}
