//! The order between records of one message: which of several is kept.
ghost use Rattle.std.specs.Prelude.{◌≡◌, ◌↔◌, IsTrue};
ghost use Rattle.std.specs.declared.cmp.Ordering.TheVariants.{Less};
ghost use Rattle.chat_change.specs.Message.{value_of};
ghost use Rattle.std.specs.Ordering.{ordering_then};
ghost use Rattle.chat_change.specs.Order.{message_cmp, latest_first, greatest_tags_first};
ghost use Rattle.chat_change.specs.Order.{record_cmp, GoesBefore};

use crate::message::Message;
use crate::record::Record;
use std::cmp::Ordering;

/// Whether the first of two records of one message is kept over the second.
///
/// The later one is, and at equal moments the one whose tags are greater, compared by bytes. Of equal tags it is the one
/// whose (kind letter, source, target, body) is smaller, compared in this order by bytes, so that a notice goes before a
/// private message. Of two different records exactly one goes before the other
/// ([`crate::laws::records_of_a_message_are_ordered`]).
pub fn goes_before(one: &Record, other: &Record) -> bool
    requires same_buffer { one.now.buffer ≡ other.now.buffer }
    requires same_id { one.now.id ≡ other.now.id }
    ensures order { IsTrue result ↔ (record_cmp one.now other.now ≡ Less) }
    ensures kept { IsTrue result ↔ GoesBefore one.now other.now }
{
    record_order(one, other).is_lt()
}

// How two records of one message compare: by moment, then by tags, then by texts.
fn record_order(one: &Record, other: &Record) -> Ordering
    requires same_buffer { one.now.buffer ≡ other.now.buffer }
    requires same_id { one.now.id ≡ other.now.id }
    ensures { result ≡ record_cmp one.now other.now }
{
    match moment_order(one, other) {
        Ordering::Equal => tie_order(one, other),
        order => order,
    }
}

// How two records of one message and one moment compare.
fn tie_order(one: &Record, other: &Record) -> Ordering
    ensures { result ≡ ordering_then (greatest_tags_first one.now other.now)
        (message_cmp one.now.message other.now.message) }
{
    match tags_order(one, other) {
        Ordering::Equal => message_order(one.message(), other.message()),
        order => order,
    }
}

// The greater tags go first.
fn tags_order(one: &Record, other: &Record) -> Ordering
    ensures { result ≡ greatest_tags_first one.now other.now }
{
    other.tags().cmp(one.tags())
}

// The later record goes first.
fn moment_order(one: &Record, other: &Record) -> Ordering
    ensures { result ≡ latest_first one.now other.now }
{
    other.at().ms().cmp(&one.at().ms())
}

// The message with the smaller texts goes first.
fn message_order(one: Message<'_>, other: Message<'_>) -> Ordering
    ensures { result ≡ message_cmp (value_of one.entry) (value_of other.entry) }
{
    let body = one.body.cmp(other.body);
    let target = one.target.cmp(other.target).then(body);
    let source = one.source.cmp(other.source).then(target);
    one.kind.letter().cmp(&other.kind.letter()).then(source)
}
