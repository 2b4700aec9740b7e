//! What a pass reads, without a lock.
ghost use Rattle.std.specs.Prelude.{◌≡◌, ◌≢◌, ◌↔◌, Err, IsTrue, IfOk, OnErr};
ghost use Rattle.byte_text.specs.Writes.{Writes};
ghost use Rattle.chat_history.specs.History.{mark, norm};
ghost use Rattle.chat_history.specs.Lookups.{IsShown};
ghost use Rattle.chat_history.specs.Numbering as numbering;
ghost use Rattle.chat_history.specs.Retention as retention;
ghost use Rattle.chat_query.specs.Answers.{answer_of};
ghost use Rattle.shared_node.specs.Lists.{changes_in};
ghost use Rattle.shared_node.specs.Passes.{Reads};

use crate::history::Naming;
use crate::pass::Pass;
use chat_batch::{AnswerFault, Answered, AskFault, Facts, Past, answer};
use chat_change::{Buffer, Change, Moment, MsgId};
use chat_state::{NoEntry, Peek};
use gossip_delta::{Delta, DeltaFault, Source, delta_since};
use irc_line::Line;
use std::alloc::Global;
use std::io::Write;

impl<J: Naming> Pass<J> {
    /// Answers a question about the past ([`answer`]), from the state of a list that follows all that the pass has seen or
    /// was told of. It takes no lock.
    ///
    /// Fails with [`AskFault::NoEntry`], and then the pass is as it was, and with [`AskFault::NoMemory`], before anything
    /// is written; with [`AskFault::Write`] where the writer fails.
    pub fn ask<W: Write>(
        &mut self,
        alloc: Global,
        facts: &Facts,
        line: &Line<'_>,
        writer: &mut W,
    ) -> Result<Answered, AskFault>
        ensures text { Writes W.contents writer.old writer.new result
            (answer_of (changes_in self.new.list) facts.now line.now).text }
        ensures answered { IfOk result (λ a.
            a ≡ (answer_of (changes_in self.new.list) facts.now line.now).answered) }
        ensures seen { result ≢ Err AskFault.NoEntry → Reads self.old self.new }
        ensures no_entry { result ≡ Err AskFault.NoEntry
            → (self.new ≡ self.old) × (writer.new ≡ writer.old) }
        ensures memory { result ≡ Err AskFault.NoMemory → writer.new ≡ writer.old }
    {
        let Some(visit) = self.entrance.enter(&mut self.list, &self.told) else {
            return Err(AskFault::NoEntry);
        };
        let answered = answer(alloc, visit.state(), facts, line, writer);
        self.entrance.leave(visit);
        match answered {
            Ok(answered) => Ok(answered),
            Err(AnswerFault::NoMemory) => Err(AskFault::NoMemory),
            Err(AnswerFault::Write) => Err(AskFault::Write),
        }
    }

    /// The floors that are due ([`State::due_floors`](chat_state::State::due_floors)) in the state of a list that follows
    /// all that the pass has seen or was told of. It takes no lock. After `NoEntry` the pass is as it was.
    pub fn due_floors(
        &mut self,
        alloc: Global,
        now: Moment,
        days: u32,
    ) -> Result<Vec<Change>, DeltaFault>
        ensures floors { IfOk result (λ floors.
            floors.items ≡ retention.due_floors (norm (changes_in self.new.list)) now days) }
        ensures seen { result ≢ Err DeltaFault.NoEntry → Reads self.old self.new }
        ensures no_entry { result ≡ Err DeltaFault.NoEntry → self.new ≡ self.old }
    {
        let Some(visit) = self.entrance.enter(&mut self.list, &self.told) else {
            return Err(DeltaFault::NoEntry);
        };
        let floors = visit.state().due_floors(alloc, now, days);
        self.entrance.leave(visit);
        match floors {
            Ok(floors) => Ok(floors),
            Err(_) => Err(DeltaFault::NoMemory),
        }
    }

    /// The delta since a number ([`delta_since`]) of the state of a list that follows all that the pass has seen or was told
    /// of. It takes no lock. After `NoEntry` the pass is as it was.
    pub fn delta(&mut self, alloc: Global, from: u64) -> Result<Delta, DeltaFault>
        ensures delta { IfOk result (λ d.
            d ≡ numbering.delta 0 (changes_in self.new.list) from) }
        ensures seen { result ≢ Err DeltaFault.NoEntry → Reads self.old self.new }
        ensures no_entry { result ≡ Err DeltaFault.NoEntry → self.new ≡ self.old }
    {
        let Some(visit) = self.entrance.enter(&mut self.list, &self.told) else {
            return Err(DeltaFault::NoEntry);
        };
        let delta = delta_since(alloc, visit.state(), from);
        self.entrance.leave(visit);
        match delta {
            Ok(delta) => Ok(delta),
            Err(_) => Err(DeltaFault::NoMemory),
        }
    }

    /// Whether a visible record of the buffer has that id, in the state of a list that follows all that the pass has seen or
    /// was told of. It takes no lock and no memory. After `NoEntry` the pass is as it was.
    pub fn shown(&mut self, buffer: &Buffer, id: &MsgId) -> Result<bool, NoEntry>
        ensures shown { IfOk result (λ shown. IsTrue shown
            ↔ IsShown (norm (changes_in self.new.list)) buffer.now id.now) }
        ensures seen { IfOk result (λ _. Reads self.old self.new) }
        ensures no_entry { OnErr result (self.new ≡ self.old) }
    {
        let Some(visit) = self.entrance.enter(&mut self.list, &self.told) else {
            return Err(NoEntry);
        };
        let shown = visit.state().is_shown(buffer, id);
        self.entrance.leave(visit);
        Ok(shown)
    }

    /// The read marker of a buffer ([`State::mark`](chat_state::State::mark)), or None where none was set, in the state of a
    /// list that follows all that the pass has seen or was told of. It takes no lock and no memory. After `NoEntry` the pass
    /// is as it was.
    pub fn marker(&mut self, buffer: &Buffer) -> Result<Option<Moment>, NoEntry>
        ensures marker { IfOk result (λ marker.
            marker ≡ mark (changes_in self.new.list) buffer.now) }
        ensures seen { IfOk result (λ _. Reads self.old self.new) }
        ensures no_entry { OnErr result (self.new ≡ self.old) }
    {
        let Some(visit) = self.entrance.enter(&mut self.list, &self.told) else {
            return Err(NoEntry);
        };
        let marker = visit.state().mark(buffer);
        self.entrance.leave(visit);
        Ok(marker)
    }
}

impl<J: Naming> Source for Pass<J> {
    ghost holds = { λ p start list. (start ≡ 0) × (list ≡ changes_in p.list) };

    ghost may_add = { λ _ _. Unit {0} };

    fn delta(&mut self, alloc: Global, from: u64) -> Result<Delta, DeltaFault> {
        Pass::delta(self, alloc, from)
    }
}

impl<J: Naming> Past for Pass<J> {
    ghost changes = { λ p. changes_in p.list };

    fn ask<W: Write>(
        &mut self,
        alloc: Global,
        facts: &Facts,
        line: &Line<'_>,
        writer: &mut W,
    ) -> Result<Answered, AskFault> {
        Pass::ask(self, alloc, facts, line, writer)
    }
}

impl<J: Naming> Peek for Pass<J> {
    ghost peeks = { λ old b m shown new. Reads old new
        × (IsTrue shown ↔ IsShown (norm (changes_in new.list)) b m) };

    fn shown(&mut self, buffer: &Buffer, id: &MsgId) -> Result<bool, NoEntry> {
        Pass::shown(self, buffer, id)
    }
}
