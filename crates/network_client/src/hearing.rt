//! What a client hears, and what its session says to that.
ghost use Rattle.std.specs.Prelude.{◌≡◌, ◌↔◌, ◌⊎◌, [], IfOk, OnErr, IsSome, IsTrue, MatchOption, None, Some, is_some, true, false, slice_get, if◌then◌else◌};
ghost use Rattle.std.specs.Option.{option_copied};
ghost use Rattle.client_session.specs.Session.{facts_in};
ghost use Rattle.client_session.specs.declared.effect.Effect.TheVariants.{Close};
ghost use Rattle.network_log.specs.Guest.{Closes, Hears, Says, fallen, guest_step, next_item, nick_after};
ghost use Rattle.network_client.specs.Naming.{is_for_item, place_in_item};
ghost use Rattle.network_client.specs.Steps as spec;
ghost use Rattle.node_ports.specs.Unread.{next_of, without_next};

use crate::client::Client;
use crate::fall::Fall;
use crate::naming::{is_for_ahead, place_ahead};
use byte_text::NoMemory;
use client_session::{Directory, Effect, Session};
use cluster_directory::SessionConfig;
use irc_line::Next;
use node_ports::{Accounts, Connection, Feeders, Filled, Input};
use std::alloc::Global;
use std::mem;

// What the next line comes to, where it is known whether the message is shown that it names. None where no line is there. For want of
// memory the line is lost.
fn next_effects(
    input: &mut Input,
    session: &mut Session,
    alloc: Global,
    directory: &Directory,
    shown: bool,
) -> Result<Option<Vec<Effect>>, NoMemory>
    ensures next { IfOk result (λ effects. MatchOption effects
        ((next_of input.old ≡ None) × (session.new ≡ session.old))
        (λ list. spec.step_if directory.now shown session.old (next_of input.old)
        ≡ Some (record { session = session.new; effects = list.items }))) }
    ensures input { IfOk result (λ effects. IsSome effects → input.new ≡ without_next input.old) }
    ensures same { IfOk result (λ effects. effects ≡ None → input.new ≡ input.old) }
    ensures err { OnErr result (session.new ≡ session.old) }
{
    match input.next_line() {
        Next::More => Ok(None),
        Next::TooLong => Ok(Some(session.too_long(alloc, directory)?)),
        Next::Line(bytes) => Ok(Some(session.step_knowing(alloc, bytes, directory, shown)?)),
    }
}

impl<C: Connection> Client<C> {
    /// What the port tells of its connection: bytes may be there, or room for bytes.
    pub fn mark(&mut self, is_readable: bool, is_writable: bool)
        ensures { self.new ≡ self.old }
    {
        self.is_writable |= is_writable;
        if is_readable {
            self.input.mark_readable();
        }
    }

    /// Takes in what comes over its connection. It is gone where there is no memory for that.
    pub fn fill(&mut self, chunk: &mut [u8], feeders: &mut Feeders) -> Filled
        ensures { ∥ spec.IsFilled C.facts self.old self.new ∥₁ }
    {
        if self.is_gone {
            return Filled::Closed;
        }
        let filled = self.input.fill(&mut self.connection, chunk, feeders);
        let Filled::NoMemory = filled else {
            return filled;
        };
        // before the call, since its unread bytes are lost: only who is gone may stand so
        self.is_gone = true;
        self.fall(Fall::NoMemory);
        filled
    }

    /// Whether there is a line to be heard, and all that the last one came to is done. It is gone where there is no memory for
    /// the line.
    pub(crate) fn has_line(&mut self) -> bool
        ensures same { result ≡ true → self.new ≡ self.old }
        ensures next { result ≡ true → IsSome (next_item self.old.received self.old.heard) }
        ensures there { result ≡ true → self.old.is_gone ≡ false }
        ensures done { result ≡ true → self.old.todo ≡ [] }
        ensures none { result ≡ false → ∥ ((self.new ≡ self.old) × spec.IsQuiet self.old)
            ⊎ (self.new ≡ fallen self.old) ∥₁ }
    {
        if self.is_gone || self.is_busy() {
            return false;
        }
        match self.input.look() {
            Ok(is_there) => is_there,
            Err(NoMemory) => {
                // before the call, since its unread bytes are lost: only who is gone may stand so
                self.is_gone = true;
                self.fall(Fall::NoMemory);
                false
            }
        }
    }

    /// The place of the network that its next line names, where that is one of these. It is gone where there is no memory for the
    /// line.
    pub(crate) fn network_named(&mut self, accounts: &Accounts) -> Result<Option<usize>, NoMemory>
        requires { self.old.is_gone ≡ false }
        ensures named { IfOk result (λ place. place
            ≡ place_in_item accounts.now (next_item self.old.received self.old.heard)) }
        ensures same { IfOk result (λ _. self.new ≡ self.old) }
        ensures fell { OnErr result (self.new ≡ fallen self.old) }
    {
        let Ok(_) = self.input.look() else {
            // before the call, since its unread bytes are lost: only who is gone may stand so
            self.is_gone = true;
            self.fall(Fall::NoMemory);
            return Err(NoMemory);
        };
        Ok(place_ahead(accounts, &self.input))
    }

    /// Whether its session is to be registered with that account and network once it has heard its next line. It is gone where there
    /// is no memory for the line.
    pub(crate) fn is_for(&mut self, config: &SessionConfig) -> Result<bool, NoMemory>
        requires { self.old.is_gone ≡ false }
        ensures named { IfOk result (λ is. is ≡ is_for_item config.now self.old.session
            (next_item self.old.received self.old.heard)) }
        ensures same { IfOk result (λ _. self.new ≡ self.old) }
        ensures fell { OnErr result (self.new ≡ fallen self.old) }
    {
        let Ok(_) = self.input.look() else {
            // before the call, since its unread bytes are lost: only who is gone may stand so
            self.is_gone = true;
            self.fall(Fall::NoMemory);
            return Err(NoMemory);
        };
        Ok(is_for_ahead(config, &self.session, &self.input))
    }

    // Its session hears the next line, where there is one: whether there was. Where it can't, the client is gone.
    pub(crate) fn step(
        &mut self,
        alloc: Global,
        directory: &Directory,
        shown: bool,
    ) -> Result<bool, NoMemory>
        requires there { self.old.is_gone ≡ false }
        requires done { self.old.todo ≡ [] }
        ensures heard { IfOk result (λ _.
            self.new ≡ guest_step [] (Hears directory.now shown) self.old) }
        ensures next { IfOk result (λ heard.
            heard ≡ is_some (next_item self.old.received self.old.heard)) }
        ensures fell { OnErr result
            (IsSome (facts_in self.old.session) → self.new ≡ fallen self.old) }
    {
        self.recycle(alloc);
        let was_outside = self.session.facts().is_none();
        let Some(heard) = self.heard.checked_add(1) else {
            self.fall(Fall::NoMemory);
            return Err(NoMemory);
        };
        let Ok(_) = self.input.look() else {
            // before the call, since its unread bytes are lost: only who is gone may stand so
            self.is_gone = true;
            self.fall(Fall::NoMemory);
            return Err(NoMemory);
        };
        match next_effects(&mut self.input, &mut self.session, alloc, directory, shown) {
            Ok(None) => Ok(false),
            Ok(Some(effects)) => {
                self.effects = effects;
                self.done = 0;
                self.heard = heard;
                self.know_nick(alloc, was_outside)?;
                Ok(true)
            }
            Err(NoMemory) => {
                // before the call, since its unread bytes are lost: only who is gone may stand so
                self.is_gone = true;
                self.fall(Fall::NoMemory);
                Err(NoMemory)
            }
        }
    }

    // All that its last line came to is done. The room of that serves the next one.
    fn recycle(&mut self, alloc: Global)
        requires { self.old.todo ≡ [] }
        ensures { self.new ≡ self.old }
    {
        let effects = mem::replace(&mut self.effects, Vec::new(alloc));
        self.session.recycle(effects);
    }

    // It has heard a line. Where its session wasn't registered before and is now, it knows the nick of that as its own. Where there
    // is no memory for that, it is gone.
    fn know_nick(&mut self, alloc: Global, was_outside: bool) -> Result<(), NoMemory>
        ensures known { IfOk result (λ _. self.new ≡ record self.old {
          nick =
              (if was_outside then nick_after None (facts_in self.old.session) self.old.nick
              else self.old.nick);
        }) }
        ensures outside { OnErr result (was_outside ≡ true) }
    {
        if !was_outside {
            return Ok(());
        }
        if self.learn_nick(alloc).is_err() {
            self.fall(Fall::NoMemory);
            return Err(NoMemory);
        }
        Ok(())
    }

    // It knows the nick of its session as its own, where that is registered.
    fn learn_nick(&mut self, alloc: Global) -> Result<(), NoMemory>
        ensures { IfOk result (λ _. self.new ≡ record self.old {
          nick = nick_after None (facts_in self.old.session) self.old.nick;
        }) }
    {
        let Some(facts) = self.session.facts() else {
            return Ok(());
        };
        self.nick = facts.nick.try_clone(alloc)?;
        Ok(())
    }

    // Whether a line of the session's own is next.
    fn says(&self) -> bool
        ensures { result ≡ spec.says self.now.todo }
    {
        matches!(self.next_effect(), Some(Effect::Send(_)))
    }

    // The next line of the session's own waits for the client, where one is next.
    fn say(&mut self) -> Result<(), NoMemory>
        ensures said { IfOk result (λ _. self.new ≡ guest_step [] Says self.old) }
        ensures err { OnErr result (self.new ≡ self.old) }
    {
        let Some(Effect::Send(text)) = self.effects.get(self.done) else {
            return Ok(());
        };
        self.waiting.push(text.as_bytes())?;
        self.done += 1;
        Ok(())
    }

    /// All that its session says itself waits for it, up to where something else is to be done. It is gone where there is no
    /// memory for that.
    pub fn say_all(&mut self) -> Result<(), NoMemory>
        ensures said { IfOk result (λ _. self.new ≡ spec.all_said self.old) }
        ensures fell { OnErr result (self.new ≡ fallen self.old) }
    {
        while self.says() {
            if self.say().is_err() {
                self.fall(Fall::NoMemory);
                return Err(NoMemory);
            }
        }
        Ok(())
    }

    /// What is next of what its last line came to, where something is.
    pub fn next_effect(&self) -> Option<&Effect>
        ensures { option_copied result ≡ slice_get self.now.todo 0 }
    {
        self.effects.get(self.done)
    }

    /// Whether its session ends, which is next. That is done with this.
    pub fn close(&mut self) -> bool
        ensures closes { self.new ≡ guest_step [] Closes self.old }
        ensures is_closing { IsTrue result ↔ (slice_get self.old.todo 0 ≡ Some Close) }
    {
        let Some(Effect::Close) = self.effects.get(self.done) else {
            return false;
        };
        self.done += 1;
        true
    }
}
