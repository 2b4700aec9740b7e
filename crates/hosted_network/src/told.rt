//! What of a batch is told.
ghost use Rattle.std.specs.Prelude.{◌≡◌, ◌++◌, OnOk, IfOk};
ghost use Rattle.client_session.specs.Hearers as hearers;
ghost use Rattle.network_log.specs.Share.{nick_by_all, posted_text, renaming_line};
ghost use Rattle.network_server.specs.Entries.{entries};
ghost use Rattle.network_server.specs.declared.batch.BatchPart.TheVariants as part;
ghost use Rattle.hosted_network.specs.Sharing.{mark_line, told_with};
ghost use Rattle.hosted_network.specs.Written.{IsWritten};

use byte_text::NoMemory;
use chat_change::{Change, Moment};
use chat_query::{Facts, write_live};
use client_session::hears_message;
use irc_caps::Recipients;
use irc_reply::write_mark;
use network_server::BatchPart;

/// What is told of a batch: these parts, whose changes are the first of those.
#[derive(Clone, Copy)]
pub(crate) struct Told<'b> {
    pub(crate) parts: &'b [BatchPart],
    pub(crate) changes: &'b [Change],
    /// The marker of the channel that was entered, if one was.
    pub(crate) mark: Option<Moment>,
}

fn append(room: &mut Vec<u8>, bytes: &[u8]) -> Result<(), NoMemory>
    ensures { OnOk result (room.new.items ≡ room.old.items ++ bytes.now) }
{
    Ok(room.extend_from_slice(bytes)?)
}

// The line by which a client learns that its nick is another one (RFC 2812, section 3.1.2).
fn write_nick(room: &mut Vec<u8>, before: &[u8], nick: &[u8]) -> Result<(), NoMemory>
    ensures { OnOk result (room.new.items ≡ room.old.items ++ renaming_line before.now nick.now) }
{
    append(room, b":")?;
    append(room, before)?;
    append(room, b" NICK ")?;
    append(room, nick)?;
    append(room, b"\r\n")
}

// The line of a change, where the session hears that.
fn write_posted(
    room: &mut Vec<u8>,
    facts: &Facts,
    is_own: bool,
    change: &Change,
) -> Result<(), NoMemory>
    ensures { OnOk result (room.new.items ≡ room.old.items
        ++ posted_text facts.now is_own change.now) }
{
    let Change::Post(record) = change else {
        return Ok(());
    };
    if !hears_message(is_own, record, facts) {
        return Ok(());
    }
    match write_live(record, &facts.caps, room) {
        Ok(()) => Ok(()),
        Err(_) => Err(NoMemory),
    }
}

// The line of a channel's marker, for a session that follows markers.
fn write_marker(
    room: &mut Vec<u8>,
    facts: &Facts,
    channel: &[u8],
    mark: Option<Moment>,
) -> Result<(), NoMemory>
    ensures { OnOk result (room.new.items ≡ room.old.items
        ++ mark_line mark facts.now channel.now) }
{
    if !(facts.caps.read_marker && facts.has_buffer(channel)) {
        return Ok(());
    }
    match write_mark(facts.cluster.as_bytes(), channel, mark, room) {
        Ok(()) => Ok(()),
        Err(_) => Err(NoMemory),
    }
}

fn is_recipient(to: Recipients, facts: &Facts) -> bool
    ensures { result ≡ hearers.is_recipient to facts.now }
{
    match to {
        Recipients::All => true,
        Recipients::Holding(capability) => facts.caps.holds(capability),
    }
}

// A session for which a batch is written, as far as it is: the nick that its client knows by then, and the changes that are still to
// come.
#[derive(Drop)]
struct Writing<'b> {
    facts: &'b Facts,
    mark: Option<Moment>,
    nick: &'b [u8],
    changes: &'b [Change],
}

impl<'b> Writing<'b> {
    // The next part is written.
    fn write_part(&mut self, part: &'b BatchPart, room: &mut Vec<u8>) -> Result<(), NoMemory>
        ensures { OnOk result (IsWritten part.now self.old self.new room.old.items room.new.items) }
    {
        match part {
            BatchPart::Posted(is_own) => self.write_next(*is_own, room),
            BatchPart::PassedOn(text, to) => {
                if !is_recipient(*to, self.facts) {
                    return Ok(());
                }
                append(room, text.as_bytes())
            }
            BatchPart::Renamed(nick, is_passed_on) => {
                self.write_renamed(nick.as_bytes(), *is_passed_on, room)
            }
            BatchPart::Entered(channel) => {
                write_marker(room, self.facts, channel.as_bytes(), self.mark)
            }
        }
    }

    // The next change, if there is one.
    fn write_next(&mut self, is_own: bool, room: &mut Vec<u8>) -> Result<(), NoMemory>
        ensures { OnOk result (IsWritten (part.Posted is_own) self.old self.new
            room.old.items room.new.items) }
    {
        let [change, more @ ..] = self.changes else {
            return Ok(());
        };
        self.changes = more;
        write_posted(room, self.facts, is_own, change)
    }

    // The nick is that one from now on. Unless a line that says so is passed on, or the client knows it, it is told.
    fn write_renamed(
        &mut self,
        nick: &'b [u8],
        is_passed_on: bool,
        room: &mut Vec<u8>,
    ) -> Result<(), NoMemory>
        ensures { OnOk result (IsWritten (part.Renamed nick.now is_passed_on) self.old self.new
            room.old.items room.new.items) }
    {
        let before = self.nick;
        self.nick = nick;
        if is_passed_on || before == nick {
            return Ok(());
        }
        write_nick(room, before, nick)
    }
}

impl<'b> Told<'b> {
    /// Appends what a session is told of it whose client knows that nick. Answers the nick that the client knows then.
    pub(crate) fn write(
        &self,
        facts: &'b Facts,
        nick: &'b [u8],
        room: &mut Vec<u8>,
    ) -> Result<&'b [u8], NoMemory>
        ensures text { OnOk result (room.new.items ≡ room.old.items
            ++ told_with self.now.mark facts.now nick.now
            (entries self.now.parts.now self.now.changes.now)) }
        ensures nick { IfOk result (λ after. after.now ≡ nick_by_all nick.now
            (entries self.now.parts.now self.now.changes.now)) }
    {
        let mut writing = Writing {
            facts,
            mark: self.mark,
            nick,
            changes: self.changes,
        };
        for part in self.parts {
            writing.write_part(part, room)?;
        }
        Ok(writing.nick)
    }
}
