//! Client sessions.
ghost use Rattle.std.specs.Prelude.{◌≡◌, Bool, Ok, None, IfOk, IfErr, OnErr, IsSome, MatchOption};
ghost use Rattle.std.specs.Option.{option_copied};
ghost use Rattle.client_session.specs.Session as spec;
ghost use Rattle.client_session.specs.Lookup.{name_sought, parts_of};
ghost use Rattle.client_session.specs.Naming.{user_after};

use crate::command::command_of;
use crate::effect::Effect;
use crate::lookup::{look, sought};
use crate::registered::{self, ServedLine};
use crate::scratch::SessionScratch;
use crate::stage::{Continuation, Stage, Waiting};
use byte_text::{NoMemory, Text};
use chat_change::{Buffer, MsgId};
use chat_history::Peek;
use chat_query::{Answered, Facts, next_reference};
use cluster_directory::Directory;
use irc_caps::Negotiation;
use irc_line::{Line, LineFault, TagLimit, read_line};
use std::alloc::Global;
use std::marker::Model;
use std::mem;
use thiserror::Error;

/// Why a step is refused. The session is as it was.
#[derive(Clone, Copy, Debug, PartialEq, Eq, Error)]
pub enum StepFault {
    /// What tells whether a message is shown could not be asked.
    #[error("no entry")]
    NoEntry,
    /// There was no memory.
    #[error("no memory")]
    NoMemory,
}

impl From<NoMemory> for StepFault {
    ghost use Rattle.client_session.specs.declared.session.StepFault.TheVariants as fault;

    ghost from_gives = { λ _ given. given ≡ fault.NoMemory };

    fn from(_fault: NoMemory) -> StepFault {
        StepFault::NoMemory
    }
}

/// The session of a client: it waits for its registration, is registered, or is closed.
pub struct Session {
    stage: Stage,
    scratch: SessionScratch,
}

// Written out, so that this is proved once, and not in each crate that lets a session go.
impl Drop for Session {
    fn drop(self) {
        let Self {
            stage,
            scratch: _scratch,
        } = self;
        drop(stage);
    }
}

impl Model for Session {
    ghost use Rattle.client_session.specs.declared.stage.Stage.{Stage as Kept};

    ghost Value = { Kept };

    ghost view = { λ s. s.stage };
}

impl Session {
    ghost use Rattle.client_session.specs.declared.stage.Stage.TheVariants.{Registered};

    /// A session that waits for its registration, at the cluster of that name, which answers with so many messages at
    /// most. It takes no memory.
    pub fn new(alloc: Global, cluster: Text, maximum: u32) -> Session
        ensures { result ≡ spec.new cluster maximum }
    {
        Session {
            stage: Stage::Waiting(Waiting {
                cluster,
                maximum,
                negotiation: Negotiation::new(),
                password: Text::of(Vec::new(alloc)),
                has_nick: false,
                user: None,
            }),
            scratch: SessionScratch::none(),
        }
    }

    /// A session that is registered, with these facts.
    pub fn registered(facts: Facts) -> Session
        ensures { result ≡ Registered facts }
    {
        Session {
            stage: Stage::Registered(facts),
            scratch: SessionScratch::none(),
        }
    }

    /// What is known of the session: nothing before its registration, and nothing once it is closed. The nick is the one
    /// of the last step.
    pub fn facts(&self) -> Option<&Facts>
        ensures { option_copied result ≡ spec.facts_in self.now }
    {
        match &self.stage {
            Stage::Registered(facts) => Some(facts),
            Stage::Waiting(_) => None,
            Stage::Closed => None,
        }
    }

    /// An answer to the session was that: one that opened a batch has used up its number (IRCv3 batch).
    pub fn answered(&mut self, answer: Answered)
        ensures { self.new ≡ spec.session_after self.old answer }
    {
        match &mut self.stage {
            Stage::Registered(facts) => facts.reference = next_reference(facts.reference, answer),
            Stage::Waiting(_) => {}
            Stage::Closed => {}
        }
    }

    fn enter(&mut self, stage: Stage)
        ensures { self.new ≡ stage }
    {
        drop(mem::replace(&mut self.stage, stage));
    }

    // What a line of that reading does.
    fn serve(
        &mut self,
        alloc: Global,
        directory: &Directory,
        shown: bool,
        bytes: &[u8],
        line: &Line<'_>,
    ) -> Result<Vec<Effect>, NoMemory>
        ensures ok { IfOk result (λ list. record { session = self.new; effects = list.items }
            ≡ spec.line_step directory.now shown self.old bytes.now line.now) }
        ensures err { OnErr result (self.new ≡ self.old) }
    {
        let command = command_of(line.command());
        match &mut self.stage {
            Stage::Waiting(waiting) => {
                let (stage, list) = waiting.step(alloc, directory, command, line.parameters())?;
                self.enter(stage);
                Ok(list)
            }
            Stage::Registered(facts) => {
                let entry = directory.entry(facts.account.as_bytes(), facts.network.as_bytes());
                let served = ServedLine {
                    entry,
                    command,
                    line,
                    bytes,
                    shown,
                };
                let (continuation, list) = served.serve(alloc, &mut self.scratch, facts)?;
                match continuation {
                    Continuation::Stays => {}
                    Continuation::Closes => self.enter(Stage::Closed),
                }
                Ok(list)
            }
            Stage::Closed => Ok(Vec::new(alloc)),
        }
    }

    // What a line that can't be read does.
    fn refuse(
        &mut self,
        alloc: Global,
        directory: &Directory,
        fault: LineFault,
    ) -> Result<Vec<Effect>, NoMemory>
        ensures ok { IfOk result (λ list. record { session = self.new; effects = list.items }
            ≡ spec.fault_step directory.now self.old fault) }
        ensures err { OnErr result (self.new ≡ self.old) }
    {
        match &mut self.stage {
            Stage::Waiting(waiting) => waiting.refuse(alloc, fault),
            Stage::Registered(facts) => {
                let entry = directory.entry(facts.account.as_bytes(), facts.network.as_bytes());
                registered::refuse(alloc, entry, facts, fault)
            }
            Stage::Closed => Ok(Vec::new(alloc)),
        }
    }

    /// The message that a REDACT names, where a [`step`](Session::step) with this line looks whether it is shown.
    pub fn sought(&self, alloc: Global, bytes: &[u8]) -> Result<Option<(Buffer, MsgId)>, NoMemory>
        ensures { IfOk result (λ sought. sought ≡ parts_of (name_sought self.now bytes.now)) }
    {
        match &self.stage {
            Stage::Registered(facts) => sought(alloc, facts, bytes),
            Stage::Waiting(_) => Ok(None),
            Stage::Closed => Ok(None),
        }
    }

    /// The user (RFC 2812, section 3.1.3) that it is to be registered as once it has heard that line: the last that was named. None
    /// once it is registered, or closed.
    pub fn user_after<'a>(&'a self, bytes: &'a [u8]) -> Option<&'a [u8]>
        ensures { option_copied result ≡ user_after self.now bytes.now }
    {
        match &self.stage {
            Stage::Waiting(waiting) => waiting.user_after(bytes),
            Stage::Registered(_) => None,
            Stage::Closed => None,
        }
    }

    /// What [`step`](Session::step) does, where it is known whether the message is shown that a REDACT names
    /// ([`sought`](Session::sought)).
    #[tactic(auto, unfolding(crate::specs::Session::step))]
    pub fn step_knowing(
        &mut self,
        alloc: Global,
        bytes: &[u8],
        directory: &Directory,
        shown: bool,
    ) -> Result<Vec<Effect>, NoMemory>
        ensures ok { IfOk result (λ list. record { session = self.new; effects = list.items }
            ≡ spec.step directory.now shown self.old bytes.now) }
        ensures err { OnErr result (self.new ≡ self.old) }
    {
        match read_line(bytes, TagLimit::Client) {
            Err(fault) => self.refuse(alloc, directory, fault),
            Ok(line) => self.serve(alloc, directory, shown, bytes, &line),
        }
    }

    /// What a line without its ending does, by the directory of this moment. A REDACT looks once whether
    /// its message is shown; no other line looks. A refused step leaves the session as it was.
    ///
    /// A step of a registered session that passes the line on copies it once. It copies nothing else, unless the directory
    /// has another nick than at the last step. Where the effects of earlier lines were given back
    /// ([`recycle`](Session::recycle)), it asks for no memory, but for that of long tags. Other lines ask for that of their
    /// answers.
    pub fn step<P: Peek>(
        &mut self,
        alloc: Global,
        bytes: &[u8],
        directory: &Directory,
        peek: &mut P,
    ) -> Result<Vec<Effect>, StepFault>
        ensures step { IfOk result (λ list. (shown : Bool)
            × MatchOption (name_sought self.old bytes.now) (peek.new ≡ peek.old)
            (λ m. P.peeks peek.old m.buffer m.id shown peek.new)
            × (record { session = self.new; effects = list.items }
            ≡ spec.step directory.now shown self.old bytes.now)) }
        // Only a line that looks can be refused for want of an entry, and no other line looks.
        ensures refused { IfErr result (λ e. e ≡ StepFault.NoEntry
            → IsSome (name_sought self.old bytes.now)) }
        ensures unlooked { name_sought self.old bytes.now ≡ None → peek.new ≡ peek.old }
        ensures err { OnErr result (self.new ≡ self.old) }
    {
        let shown = match self.facts() {
            None => false,
            Some(facts) => look(alloc, facts, bytes, peek)?,
        };
        Ok(self.step_knowing(alloc, bytes, directory, shown)?)
    }

    /// What a line that was too long (`irc_line::Next::TooLong`) does. A refused call leaves the
    /// session as it was.
    pub fn too_long(
        &mut self,
        alloc: Global,
        directory: &Directory,
    ) -> Result<Vec<Effect>, NoMemory>
        ensures step { IfOk result (λ list. record { session = self.new; effects = list.items }
            ≡ spec.too_long directory.now self.old) }
        ensures err { OnErr result (self.new ≡ self.old) }
    {
        self.refuse(alloc, directory, LineFault::TooLong)
    }

    /// Takes back a list of effects, once they are done. The room of a line for the network's server, and of its list, is
    /// kept: four effects and 1,024 bytes at most, which is enough for each line without tags. More room is let go.
    pub fn recycle(&mut self, list: Vec<Effect>)
        ensures { self.new ≡ self.old }
    {
        self.scratch.recycle(list);
    }
}
