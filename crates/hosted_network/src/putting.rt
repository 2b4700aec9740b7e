//! How what comes of the server's lines is put, and told.
ghost use Rattle.std.specs.Prelude.{◌≡◌, ◌++◌, ◌⊎◌, length, [], ℕ, List, Some, IfErr, IfSome, None, OnOk, slice_get, take, false};
ghost use Rattle.chat_change.specs.declared.change.Change.{Change as Piece};
ghost use Rattle.chat_query.specs.declared.facts.Facts.{Facts as Asker};
ghost use Rattle.client_session.specs.Session.{facts_in};
ghost use Rattle.network_log.specs.Guest.{Guest};
ghost use Rattle.network_log.specs.NetworkState.{changes_of};
ghost use Rattle.network_log.specs.Putting.{IsSeen, MayBePutFor};
ghost use Rattle.network_log.specs.Share.{told_to};
ghost use Rattle.network_log.specs.Telling.{IsToldToClient};
ghost use Rattle.network_log.specs.Truth.{IsReached, Leads};
ghost use Rattle.network_server.specs.Entries.{entries};
ghost use Rattle.hosted_network.specs.Putting.{ArePutBehind, ArePutInPart, IsToldSeen};
ghost use Rattle.hosted_network.specs.Sharing.{AreMarked};

use crate::batch_parts::{entered_channel, first_parts};
use crate::parts::NetworkParts;
use crate::told::Told;
use chat_change::{Change, Moment, has_buffer, lawful_buffer};
use network_server::{Batch, BatchPart};
use node_ports::{Connection, NetworkView, NodePass, NotPublished};
use std::mem;

/// Of what is put at once a client is told about so many bytes at most, and those of one line more.
const MOST_AT_ONCE: usize = 65_536;

/// A line with its end has at most so many bytes: 8191 of tags (IRCv3 message-tags) and 512 of the rest (RFC 1459, section 2.3).
const LONGEST: usize = 8703;

/// About so many bytes of a line are neither its message's text nor its client-only tags.
const REST: usize = 100;

// About how many bytes a client is told of a change.
fn length_of(change: Option<&Change>) -> usize {
    match change {
        Some(Change::Post(record)) => {
            let length = record.body().len().saturating_add(record.tags().len());
            length.saturating_add(REST)
        }
        _ => REST,
    }
}

// About how many bytes a client is told of the last part of the batch.
fn last_length(batch: &Batch) -> usize {
    match batch.parts().last() {
        Some(BatchPart::PassedOn(text, _)) => text.as_bytes().len(),
        Some(BatchPart::Posted(_)) => length_of(batch.changes().last()),
        Some(BatchPart::Renamed(_, _) | BatchPart::Entered(_)) => REST,
        None => 0,
    }
}

impl<'a, C: Connection, V: NetworkView> NetworkParts<'a, C, V> {
    /// What came of a line is counted, before which the batch had so many parts.
    pub(crate) fn count_line(&mut self, parts: usize)
        ensures { self.new ≡ self.old }
    {
        if self.batch.parts().len() > parts {
            let length = last_length(&self.batch);
            self.batch_length = self.batch_length.saturating_add(length);
        }
    }

    /// Whether so much came of the server's lines that it is to be put and told now: a client that reads is to be told all of it,
    /// and may be owed so much and no more.
    pub(crate) fn is_long(&self) -> bool {
        let bound = match self.clients.first() {
            Some(client) => client.bound(),
            None => MOST_AT_ONCE,
        };
        // (a line behind what is half of the bound fits into the other half)
        if bound / 2 < LONGEST {
            return self.batch_length > 0;
        }
        self.batch_length > MOST_AT_ONCE.min(bound / 2)
    }

    /// Whether the last of what came of the server's lines is that a channel was entered.
    pub(crate) fn has_entered(&self) -> bool {
        matches!(self.batch.parts().last(), Some(BatchPart::Entered(_)))
    }

    // Puts changes for the network, if there are any, and publishes them.
    pub(crate) fn put<N: NodePass<Connection = C, View = V>>(
        &mut self,
        pass: &mut N,
        changes: &[Change],
    ) -> Result<(), NotPublished>
        requires { ∥ MayBePutFor C.facts self.old.place self.old.puts
            self.old.held changes.now ∥₁ }
        ensures put { OnOk result ∥ ArePutBehind C.facts changes.now self.old self.new ∥₁ }
        ensures part { IfErr result (λ fault.
            ∥ ArePutInPart C.facts fault.count changes.now self.old self.new ∥₁) }
        ensures all { OnOk result (self.new.puts ≡ self.old.puts ++ changes.now) }
        ensures first { IfErr result (λ fault.
            self.new.puts ≡ self.old.puts ++ take fault.count changes.now) }
        ensures rest { self.new
            ≡ record self.old { puts = self.new.puts; held = self.new.held } }
    {
        if changes.is_empty() {
            return Ok(());
        }
        pass.put(&mut self.view, changes)
    }

    // The marker of the channel that was entered, as the node has it now, if there is one. None where it can't be read.
    fn read_mark<N: NodePass<Connection = C, View = V>>(
        &mut self,
        pass: &mut N,
        parts: &[BatchPart],
    ) -> Option<Option<Moment>>
        ensures read { IfSome result (λ at. (changes : List Piece) → AreMarked self.new.held at
            self.old.config.account self.old.config.network (entries parts.now changes)) }
        ensures seen { ∥ IsSeen C.facts self.old.held self.new.held ∥₁ }
        ensures rest { self.new ≡ record self.old { held = self.new.held } }
    {
        let Ok(channel) = entered_channel(parts) else {
            return None;
        };
        let Some(channel) = channel else {
            return Some(None);
        };
        let account = self.config.account.as_bytes();
        let network = self.config.network.as_bytes();
        if !has_buffer(account, network, channel) {
            return Some(None);
        }
        let Ok(buffer) = lawful_buffer(self.alloc, account, network, channel) else {
            return None;
        };
        match pass.marker(&mut self.view, &buffer) {
            Ok(marker) => Some(marker),
            Err(_) => None,
        }
    }

    // Each client is told its share of these parts, which have these changes and are put, or is gone.
    fn tell_parts<N: NodePass<Connection = C, View = V>>(
        &mut self,
        pass: &mut N,
        parts: &[BatchPart],
        changes: &[Change],
    )
        requires { (held : List Piece) → ∥ IsSeen C.facts self.old.held held ∥₁
            → (place : ℕ) (g : Guest) (f : Asker) → slice_get self.old.guests place ≡ Some g
            → g.is_gone ≡ false → facts_in g.session ≡ Some f
            → ∥ IsToldToClient C.facts g.serial g.received (g.told
            ++ told_to held f g.nick (entries parts.now changes.now)) ∥₁ }
        ensures told { ∥ IsToldSeen C.facts (entries parts.now changes.now) self.old self.new ∥₁ }
        ensures rest { self.new
            ≡ record self.old { held = self.new.held; guests = self.new.guests } }
    {
        let mark = self.read_mark(pass, parts);
        let told = Told {
            parts,
            changes,
            mark: mark.unwrap_or(None),
        };
        self.tell_all(&told, mark.is_some());
    }

    // Puts a batch by one call, and tells it. Where the node doesn't take all of it, what it took is told, and the connection to the
    // server is closed.
    fn put_batch<N: NodePass<Connection = C, View = V>>(&mut self, pass: &mut N, batch: &Batch)
        requires none { self.old.batch ≡ [] }
        requires reached { ∥ IsReached C.facts (record self.old { batch = batch.now }) ∥₁ }
        ensures leads { ∥ Leads C.facts (record self.old { batch = batch.now }) self.new ∥₁ }
        ensures put { (self.new.puts ≡ self.old.puts ++ changes_of batch.now)
            ⊎ (self.new.server ≡ None) }
        ensures none { self.new.batch ≡ [] }
        ensures count { length self.new.guests ≡ length self.old.guests }
    {
        let (parts, changes) = (batch.parts(), batch.changes());
        let Err(fault) = self.put(pass, changes) else {
            self.tell_parts(pass, parts, changes);
            return;
        };
        self.tell_parts(pass, first_parts(parts, fault.count), changes);
        if fault.count != changes.len() {
            self.server_goes();
        }
    }

    /// What came of the server's lines is put by one call, and only then told to each client. Where the node doesn't take all of it,
    /// the connection to the server is closed.
    pub(crate) fn flush<N: NodePass<Connection = C, View = V>>(&mut self, pass: &mut N)
        requires { ∥ IsReached C.facts self.old ∥₁ }
        ensures leads { ∥ Leads C.facts self.old self.new ∥₁ }
        ensures put { (self.new.puts ≡ self.old.puts ++ changes_of self.old.batch)
            ⊎ (self.new.server ≡ None) }
        ensures empty { self.new.batch ≡ [] }
        ensures count { length self.new.guests ≡ length self.old.guests }
    {
        if self.batch.parts().is_empty() {
            return;
        }
        self.batch_length = 0;
        let none = Batch::new(self.alloc);
        let mut batch = mem::replace(&mut self.batch, none);
        self.put_batch(pass, &batch);
        // (its room serves the next lines)
        batch.clear();
        self.batch = batch;
    }
}
