//! What comes of a server's lines, and isn't put yet.
ghost use Rattle.std.specs.Prelude.{◌≡◌, ◌<◌, ◌≤◌, ◌+◌, ◌++◌, ◌∷◌, List, [], OnOk, OnErr, length, vec_len, vec_capacity, true};
ghost use Rattle.chat_change.specs.declared.change.Change.{Change as Piece};
ghost use Rattle.network_log.specs.Host.{entries_of, entering, is_own_by, passes_on};
ghost use Rattle.network_log.specs.NetworkState.{changes_of};
ghost use Rattle.network_server.specs.Effects.{relays};
ghost use Rattle.network_server.specs.Entries.{entries, posted_count, renaming_to};

use byte_text::{NoMemory, Text};
use chat_change::Change;
use irc_caps::Recipients;
use std::alloc::Global;
use std::marker::Model;
use upstream_session::{UpEffect, is_from};

/// One thing that comes of a server's lines.
#[derive(Drop)]
pub enum BatchPart {
    /// The next change of the batch is put, and whether it is a message of the session's own.
    Posted(bool),
    /// This line is passed on.
    PassedOn(Text, Recipients),
    /// The network's nick is this one now, and whether a line that says so is passed on too.
    Renamed(Text, bool),
    /// The session has joined this channel.
    Entered(Text),
}

/// What comes of a server's lines for its node and for clients, in order, and isn't put yet. Contracts see the entries of
/// `network_log`. The changes lie apart, so that they are put as one slice, and nothing is copied.
pub struct Batch {
    changes: Vec<Change>,
    parts: Vec<BatchPart>,
}

// Written out, so that this is proved once, and not in each crate that lets a batch go.
impl Drop for Batch {
    fn drop(self) {
        let Self {
            changes: _changes,
            parts: _parts,
        } = self;
    }
}

impl Model for Batch {
    ghost use Rattle.std.specs.Prelude.{◌≡◌, List, length};
    ghost use Rattle.network_log.specs.Host.{BatchEntry};
    ghost use Rattle.network_server.specs.Effects.{relays};
    ghost use Rattle.network_server.specs.Entries.{entries, posted_count};

    ghost Value = { List BatchEntry };

    ghost view = { λ b. entries b.parts.items b.changes.items };

    ghost invariant = { λ b. posted_count b.parts.items ≡ length b.changes.items };
}

// Whether a message is the session's own, by its present nick.
fn is_own(nick: &[u8], change: &Change) -> bool
    ensures { result ≡ is_own_by nick.now change.now }
{
    match change {
        Change::Post(record) => is_from(nick, record),
        _ => false,
    }
}

// Whether a line is passed on.
fn passes_a_line_on(effects: &[UpEffect]) -> bool
    ensures { result ≡ relays effects.now }
{
    effects
        .iter()
        .any(|effect| matches!(effect, UpEffect::Relay(_, _)))
}

// One effect more. There is room for it.
fn push_effect(changes: &mut Vec<Change>, parts: &mut Vec<BatchPart>, nick: &[u8], effect: UpEffect)
    requires room_for_change { vec_len changes.old < vec_capacity changes.old }
    requires room_for_part { vec_len parts.old < vec_capacity parts.old }
    requires agree { posted_count parts.old.items ≡ length changes.old.items }
    ensures entries { entries parts.new.items changes.new.items
        ≡ entries parts.old.items changes.old.items ++ entries_of nick.now (effect ∷ []) }
    ensures agree { posted_count parts.new.items ≡ length changes.new.items }
    ensures changes { vec_len changes.new ≤ vec_len changes.old + 1 }
    ensures parts { vec_len parts.new ≤ vec_len parts.old + 1 }
    ensures same_changes { vec_capacity changes.new ≡ vec_capacity changes.old }
    ensures same_parts { vec_capacity parts.new ≡ vec_capacity parts.old }
{
    match effect {
        UpEffect::Put(change) => {
            let is_own = is_own(nick, &change);
            changes.push_reserved(change);
            parts.push_reserved(BatchPart::Posted(is_own));
        }
        UpEffect::Relay(text, to) => parts.push_reserved(BatchPart::PassedOn(text, to)),
        UpEffect::Send(_) => {}
        UpEffect::Close => {}
    }
}

// These effects more. There is room for them, and for one part behind them.
fn push_effects(
    changes: &mut Vec<Change>,
    parts: &mut Vec<BatchPart>,
    nick: &[u8],
    effects: Vec<UpEffect>,
)
    requires room_for_changes { vec_len changes.old + length effects.items
        ≤ vec_capacity changes.old }
    requires room_for_parts { vec_len parts.old + length effects.items < vec_capacity parts.old }
    requires agree { posted_count parts.old.items ≡ length changes.old.items }
    ensures entries { entries parts.new.items changes.new.items
        ≡ entries parts.old.items changes.old.items ++ entries_of nick.now effects.items }
    ensures agree { posted_count parts.new.items ≡ length changes.new.items }
    ensures parts { vec_len parts.new < vec_capacity parts.new }
{
    for effect in effects {
        push_effect(changes, parts, nick, effect);
    }
}

// The network's nick is another one, if it is. There is room for that.
fn push_renamed(parts: &mut Vec<BatchPart>, renamed: Option<Text>, is_passed_on: bool)
    requires { vec_len parts.old < vec_capacity parts.old }
    ensures entries { (changes : List Piece) → entries parts.new.items changes
        ≡ entries parts.old.items changes ++ renaming_to renamed is_passed_on }
    ensures agree { posted_count parts.new.items ≡ posted_count parts.old.items }
    ensures parts { vec_len parts.new ≤ vec_len parts.old + 1 }
    ensures same_parts { vec_capacity parts.new ≡ vec_capacity parts.old }
{
    if let Some(nick) = renamed {
        parts.push_reserved(BatchPart::Renamed(nick, is_passed_on));
    }
}

// The session has joined a channel, if it has. There is room for that.
fn push_entered(parts: &mut Vec<BatchPart>, entered: Option<Text>)
    requires { vec_len parts.old < vec_capacity parts.old }
    ensures entries { (changes : List Piece) → entries parts.new.items changes
        ≡ entries parts.old.items changes ++ entering true entered }
    ensures agree { posted_count parts.new.items ≡ posted_count parts.old.items }
{
    if let Some(channel) = entered {
        parts.push_reserved(BatchPart::Entered(channel));
    }
}

impl Batch {
    /// Nothing came yet. It takes no memory.
    pub fn new(alloc: Global) -> Batch
        ensures { result ≡ [] }
    {
        Batch {
            changes: Vec::new(alloc),
            parts: Vec::new(alloc),
        }
    }

    /// The changes that are to be put, in order.
    pub fn changes(&self) -> &[Change]
        ensures { result.now ≡ changes_of self.now }
    {
        self.changes.as_slice()
    }

    /// What is to be told, in order, each change in its place.
    pub fn parts(&self) -> &[BatchPart]
        ensures entries { entries result.now (changes_of self.now) ≡ self.now }
        ensures agree { posted_count result.now ≡ length (changes_of self.now) }
    {
        self.parts.as_slice()
    }

    /// All of it is put and told, or let go. The room for it is kept.
    pub fn clear(&mut self)
        ensures { self.new ≡ [] }
    {
        self.changes.clear();
        self.parts.clear();
    }

    /// What a step of a session comes to: the nick that the network has from now on, where that is another one, then what is put
    /// and passed on, and the channel that was joined. For want of memory nothing changes.
    pub(crate) fn add(
        &mut self,
        nick: &[u8],
        renamed: Option<Text>,
        effects: Vec<UpEffect>,
        entered: Option<Text>,
    ) -> Result<(), NoMemory>
        ensures added { OnOk result (self.new ≡ self.old
            ++ (renaming_to renamed (passes_on effects.items)
            ++ (entries_of nick.now effects.items ++ entering true entered))) }
        ensures err { OnErr result (self.new ≡ self.old) }
    {
        let Batch { changes, parts } = self;
        let is_passed_on = passes_a_line_on(&effects);
        changes.reserve(effects.len())?;
        parts.reserve(effects.len() + 2)?;
        push_renamed(parts, renamed, is_passed_on);
        push_effects(changes, parts, nick, effects);
        push_entered(parts, entered);
        Ok(())
    }
}
