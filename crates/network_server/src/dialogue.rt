//! The session with a network's server, with what is owed to that.
ghost use Rattle.std.specs.Prelude.{◌≡◌, ◌++◌, ◌∷◌, ℕ, Bool, List, [], Err, None, Option, IfOk, OnOk, OnErr, true, false};
ghost use Rattle.network_log.specs.Host.{entering, entries_by, has_entered, is_renamed, renaming, sends_of};
ghost use Rattle.upstream_session.specs.Session as session;
ghost use Rattle.upstream_session.specs.declared.connection.ServerSession.{ServerSession as Session};
ghost use Rattle.network_server.specs.Effects.{closes};
ghost use Rattle.network_server.specs.Entries.{renaming_to};
ghost use Rattle.network_server.specs.Standing.{IsNoted};
ghost use Rattle.network_server.specs.declared.dialogue.ServerStepFault.TheVariants as fault;

use crate::batch::Batch;
use crate::standing::Standing;
use byte_text::{NoMemory, Text};
use chat_change::Moment;
use node_ports::Pending;
use std::alloc::Global;
use upstream_session::laws::{nothing_follows_close, what_is_joined_is_told};
use upstream_session::{UpEffect, Upstream};

/// Why nothing, or not all, came of a line.
#[derive(Clone, Copy, PartialEq, Eq)]
pub(crate) enum ServerStepFault {
    /// There was no memory. The session didn't hear it.
    Again,
    /// The session heard it, and there was no memory for what that comes to.
    Lost,
}

/// The session with a network's server, with what is owed to that.
#[derive(Drop)]
pub(crate) struct ServerDialogue {
    pub(crate) session: Upstream,
    pub(crate) output: Pending,
    // how the session stood before the last line
    before: Standing,
    // Whether the session is over: the connection is closed once what is owed is sent.
    pub(crate) is_over: bool,
}

// What is next is owed to the server, where that is a line to it.
fn owe_effect(output: &mut Pending, effect: &UpEffect) -> Result<(), NoMemory>
    ensures { OnOk result (output.new ≡ output.old ++ sends_of (effect.now ∷ [])) }
{
    match effect {
        UpEffect::Send(text) => output.push(text.as_bytes()),
        UpEffect::Put(_) => Ok(()),
        UpEffect::Relay(_, _) => Ok(()),
        UpEffect::Close => Ok(()),
    }
}

// All lines to the server among these are owed to it, in their order.
fn owe_all(output: &mut Pending, effects: &[UpEffect]) -> Result<(), NoMemory>
    ensures { OnOk result (output.new ≡ output.old ++ sends_of effects.now) }
{
    for effect in effects {
        owe_effect(output, effect)?;
    }
    Ok(())
}

// Whether the session is over.
fn has_close(effects: &[UpEffect]) -> bool
    ensures { result ≡ closes effects.now }
{
    effects
        .iter()
        .any(|effect| matches!(effect, UpEffect::Close))
}

impl ServerDialogue {
    /// A session that begins, with what it begins with.
    pub(crate) fn new(
        alloc: Global,
        session: Upstream,
        opening: &[UpEffect],
    ) -> Result<ServerDialogue, NoMemory>
        ensures session { IfOk result (λ d. d.session ≡ session) }
        ensures output { IfOk result (λ d. d.output ≡ sends_of opening.now) }
        ensures over { IfOk result (λ d. d.is_over ≡ false) }
    {
        let mut output = Pending::new(alloc);
        owe_all(&mut output, opening)?;
        Ok(ServerDialogue {
            session,
            output,
            before: Standing::new(alloc),
            is_over: false,
        })
    }

    // The nick that the network has now, where it is another one.
    fn renamed(&self, alloc: Global) -> Result<Option<Text>, NoMemory>
        ensures { IfOk result (λ nick. (u : Session) (is_passed_on : Bool)
            → IsNoted self.now.before u.entry
            → renaming_to nick is_passed_on
            ≡ renaming (is_renamed u.entry self.now.session.connection.entry)
            self.now.session.connection.entry.nick is_passed_on) }
    {
        let entry = self.session.entry();
        if !self.before.is_renamed(entry) {
            return Ok(None);
        }
        Ok(Some(Text::new(alloc, entry.nick())?))
    }

    // The channel that the session itself joined by a line of the server that it has heard, where it is in one channel more.
    fn entered(&self, alloc: Global, line: &[u8]) -> Result<Option<Text>, NoMemory>
        ensures { IfOk result (λ channel. (u : Session) → IsNoted self.now.before u.entry
            → entering true channel
            ≡ entering (has_entered u.entry self.now.session.connection.entry)
            (session.joined self.now.session.connection line.now)) }
    {
        if !self.before.has_entered(self.session.entry()) {
            return Ok(None);
        }
        let Some(channel) = self.session.joined(line) else {
            return Ok(None);
        };
        Ok(Some(Text::new(alloc, channel)?))
    }

    // Carries out what the session, which has gone on, came to by a line. For want of memory nothing is added to the batch.
    fn carry_out(
        &mut self,
        alloc: Global,
        effects: Vec<UpEffect>,
        entered: Option<Text>,
        batch: &mut Batch,
    ) -> Result<(), NoMemory>
        ensures session { self.new.session ≡ self.old.session }
        ensures output { OnOk result
            (self.new.output ≡ self.old.output ++ sends_of effects.items) }
        ensures over { self.new.is_over ≡ self.old.is_over }
        ensures batch { OnOk result ((u : Session) (channel : Option (List ℕ))
            → IsNoted self.old.before u.entry
            → entering true entered
            ≡ entering (has_entered u.entry self.old.session.connection.entry) channel
            → batch.new ≡ batch.old ++ entries_by u (record {
              session = self.old.session.connection;
              effects = effects.items;
            }) channel) }
        ensures err { OnErr result (batch.new ≡ batch.old) }
    {
        let renamed = self.renamed(alloc)?;
        owe_all(&mut self.output, &effects)?;
        batch.add(self.session.entry().nick(), renamed, effects, entered)
    }

    /// What a line of the server comes to at that moment ([`Upstream::step`]). Lines to the server are owed to it, and the rest goes
    /// into the batch.
    pub(crate) fn hear(
        &mut self,
        alloc: Global,
        line: &[u8],
        now: Moment,
        batch: &mut Batch,
    ) -> Result<(), ServerStepFault>
        ensures session { OnOk result (self.new.session.connection
            ≡ (session.step self.old.session.connection now line.now).session) }
        ensures output { OnOk result (self.new.output ≡ self.old.output
            ++ sends_of (session.step self.old.session.connection now line.now).effects) }
        ensures batch { OnOk result (batch.new ≡ batch.old
            ++ entries_by self.old.session.connection
            (session.step self.old.session.connection now line.now)
            (session.joined self.old.session.connection line.now)) }
        ensures over { self.old.session.connection.is_closed ≡ self.old.is_over
            → self.new.session.connection.is_closed ≡ self.new.is_over }
        ensures again { result ≡ Err fault.Again → (self.new.session ≡ self.old.session)
            × (self.new.output ≡ self.old.output) }
        ensures lost { result ≡ Err fault.Lost → self.new.session.connection
            ≡ (session.step self.old.session.connection now line.now).session }
        ensures err { OnErr result (batch.new ≡ batch.old) }
    {
        what_is_joined_is_told();
        nothing_follows_close();
        let Ok(()) = self.before.note(self.session.entry()) else {
            return Err(ServerStepFault::Again);
        };
        let Ok(effects) = self.session.step(alloc, line, now) else {
            return Err(ServerStepFault::Again);
        };
        self.is_over |= has_close(&effects);
        let Ok(entered) = self.entered(alloc, line) else {
            drop(effects);
            return Err(ServerStepFault::Lost);
        };
        let Ok(()) = self.carry_out(alloc, effects, entered, batch) else {
            return Err(ServerStepFault::Lost);
        };
        Ok(())
    }

    /// What a client's line for the server comes to at that moment ([`Upstream::say`]).
    pub(crate) fn say(
        &mut self,
        alloc: Global,
        text: &[u8],
        now: Moment,
        batch: &mut Batch,
    ) -> Result<(), ServerStepFault>
        ensures session { OnOk result (self.new.session.connection
            ≡ (session.say self.old.session.connection now text.now).session) }
        ensures output { OnOk result (self.new.output ≡ self.old.output
            ++ sends_of (session.say self.old.session.connection now text.now).effects) }
        ensures batch { OnOk result (batch.new ≡ batch.old
            ++ entries_by self.old.session.connection
            (session.say self.old.session.connection now text.now) None) }
        ensures over { self.old.session.connection.is_closed ≡ self.old.is_over
            → self.new.session.connection.is_closed ≡ self.new.is_over }
        ensures again { result ≡ Err fault.Again → (self.new.session ≡ self.old.session)
            × (self.new.output ≡ self.old.output) }
        ensures lost { result ≡ Err fault.Lost → self.new.session.connection
            ≡ (session.say self.old.session.connection now text.now).session }
        ensures err { OnErr result (batch.new ≡ batch.old) }
    {
        nothing_follows_close();
        let Ok(()) = self.before.note(self.session.entry()) else {
            return Err(ServerStepFault::Again);
        };
        let Ok(effects) = self.session.say(alloc, text, now) else {
            return Err(ServerStepFault::Again);
        };
        self.is_over |= has_close(&effects);
        let Ok(()) = self.carry_out(alloc, effects, None, batch) else {
            return Err(ServerStepFault::Lost);
        };
        Ok(())
    }

    /// The session alone. What is owed is let go.
    pub(crate) fn into_session(self) -> Upstream
        ensures { result ≡ self.session }
    {
        self.session
    }
}
