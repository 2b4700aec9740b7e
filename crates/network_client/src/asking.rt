//! What a client of a network hears and asks there.
ghost use Rattle.std.specs.Prelude.{◌≡◌, IfOk, OnErr, false, true};
ghost use Rattle.network_log.specs.Guest.{Asks, answer_to, fallen, guest_step, next_item};
ghost use Rattle.network_log.specs.Putting.{IsSeen};
ghost use Rattle.network_log.specs.Truth.{IsSought};
ghost use Rattle.client_session.specs.Session.{facts_in};
ghost use Rattle.network_client.specs.Steps as spec;

use crate::client::Client;
use crate::fall::Fall;
use chat_query::{Answered, AskFault};
use client_session::{Directory, Effect, Session, StepFault};
use irc_line::{TagLimit, read_line};
use node_ports::{Connection, Input, NodePass};
use std::alloc::Global;

// Whether the message is shown that the line names which was looked at, by what the node holds. False where it names none.
fn shown_ahead<N: NodePass>(
    input: &Input,
    session: &Session,
    alloc: Global,
    pass: &mut N,
    view: &mut N::View,
) -> Result<bool, StepFault>
    ensures shown { IfOk result (λ shown. ∥ IsSought (N.View.held view.new) shown
        session.now input.now.ahead ∥₁) }
    ensures seen { ∥ IsSeen N.Connection.facts
        (N.View.held view.old) (N.View.held view.new) ∥₁ }
    ensures puts { N.View.puts view.new ≡ N.View.puts view.old }
    ensures place { N.View.place view.new ≡ N.View.place view.old }
    ensures given { N.given pass.new ≡ N.given pass.old }
{
    let Some(bytes) = input.line_ahead() else {
        return Ok(false);
    };
    let Some((buffer, id)) = session.sought(alloc, bytes)? else {
        return Ok(false);
    };
    match pass.shown(view, &buffer, &id) {
        Ok(shown) => Ok(shown),
        Err(_) => Err(StepFault::NoEntry),
    }
}

// The answer to a question, in the room. None where the session isn't registered, or the question can't be read.
fn write_answer<N: NodePass>(
    session: &Session,
    pass: &mut N,
    view: &mut N::View,
    question: &[u8],
    room: &mut Vec<u8>,
) -> Result<Option<Answered>, AskFault>
    ensures answer { IfOk result (λ answered.
        answer_to (N.View.held view.new) (facts_in session.now) question.now
        ≡ spec.answer_with room.new.items answered) }
    ensures seen { ∥ IsSeen N.Connection.facts
        (N.View.held view.old) (N.View.held view.new) ∥₁ }
    ensures puts { N.View.puts view.new ≡ N.View.puts view.old }
    ensures place { N.View.place view.new ≡ N.View.place view.old }
    ensures given { N.given pass.new ≡ N.given pass.old }
{
    let Some(facts) = session.facts() else {
        return Ok(None);
    };
    let Ok(line) = read_line(question, TagLimit::Client) else {
        return Ok(None);
    };
    room.clear();
    Ok(Some(pass.ask(view, facts, &line, room)?))
}

impl<C: Connection> Client<C> {
    // Whether the message is shown that its next line names, by what the node holds. It is gone where that can't be told.
    fn is_shown<N: NodePass<Connection = C>>(
        &mut self,
        alloc: Global,
        pass: &mut N,
        view: &mut N::View,
    ) -> Result<bool, StepFault>
        requires { self.old.is_gone ≡ false }
        ensures shown { IfOk result (λ shown. ∥ IsSought (N.View.held view.new) shown
            self.old.session (next_item self.old.received self.old.heard) ∥₁) }
        ensures same { IfOk result (λ _. self.new ≡ self.old) }
        ensures fell { OnErr result (self.new ≡ fallen self.old) }
        ensures seen { ∥ IsSeen C.facts
            (N.View.held view.old) (N.View.held view.new) ∥₁ }
        ensures puts { N.View.puts view.new ≡ N.View.puts view.old }
        ensures place { N.View.place view.new ≡ N.View.place view.old }
        ensures given { N.given pass.new ≡ N.given pass.old }
    {
        let Ok(_) = self.input.look() else {
            // before the call, since its unread bytes are lost: only who is gone may stand so
            self.is_gone = true;
            self.fall(Fall::NoMemory);
            return Err(StepFault::NoMemory);
        };
        match shown_ahead(&self.input, &self.session, alloc, pass, view) {
            Ok(shown) => Ok(shown),
            Err(fault) => {
                self.fall(Fall::from(fault));
                Err(fault)
            }
        }
    }

    /// Its session hears the next line, by these accounts and by what the node holds: whether it did. Where it can't, it is gone.
    pub fn hear<N: NodePass<Connection = C>>(
        &mut self,
        alloc: Global,
        directory: &Directory,
        pass: &mut N,
        view: &mut N::View,
    ) -> Result<bool, StepFault>
        ensures heard { IfOk result (λ heard. heard ≡ true
            → ∥ spec.IsHeardIn (N.View.held view.new) directory.now self.old self.new ∥₁) }
        ensures same { IfOk result (λ heard. heard ≡ false → self.new ≡ self.old) }
        ensures quiet { IfOk result (λ heard. heard ≡ false → ∥ spec.IsQuiet self.old ∥₁) }
        ensures fell { OnErr result (self.new ≡ fallen self.old) }
        ensures seen { ∥ IsSeen C.facts
            (N.View.held view.old) (N.View.held view.new) ∥₁ }
        ensures puts { N.View.puts view.new ≡ N.View.puts view.old }
        ensures place { N.View.place view.new ≡ N.View.place view.old }
        ensures given { N.given pass.new ≡ N.given pass.old }
    {
        if self.is_gone || self.is_busy() || self.session.facts().is_none() {
            return Ok(false);
        }
        let shown = self.is_shown(alloc, pass, view)?;
        Ok(self.step(alloc, directory, shown)?)
    }

    /// The answer to its question waits for it, where one is next. The room is for its text.
    pub fn answer<N: NodePass<Connection = C>>(
        &mut self,
        pass: &mut N,
        view: &mut N::View,
        room: &mut Vec<u8>,
    ) -> Result<(), AskFault>
        ensures asked { IfOk result (λ _.
            self.new ≡ guest_step (N.View.held view.new) Asks self.old) }
        ensures err { OnErr result (self.new ≡ self.old) }
        ensures seen { ∥ IsSeen C.facts
            (N.View.held view.old) (N.View.held view.new) ∥₁ }
        ensures puts { N.View.puts view.new ≡ N.View.puts view.old }
        ensures place { N.View.place view.new ≡ N.View.place view.old }
        ensures given { N.given pass.new ≡ N.given pass.old }
    {
        let Some(Effect::Ask(question)) = self.effects.get(self.done) else {
            return Ok(());
        };
        let question = question.as_bytes();
        let Some(answered) = write_answer(&self.session, pass, view, question, room)? else {
            self.done += 1;
            return Ok(());
        };
        if self.waiting.push(room.as_slice()).is_err() {
            return Err(AskFault::NoMemory);
        }
        self.session.answered(answered);
        self.done += 1;
        Ok(())
    }
}
