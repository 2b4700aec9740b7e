//! A session before its registration (RFC 2812, section 3.1).
ghost use Rattle.std.specs.Prelude.{◌≡◌, ◌<◌, ◌++◌, [], map, IfOk, Some};
ghost use Rattle.std.specs.Option.{option_copied};
ghost use Rattle.client_session.specs.Step as steps;
ghost use Rattle.client_session.specs.Registration as spec;
ghost use Rattle.irc_reply.specs.ToClient.{no_nick, not_registered};

use crate::command::ClientCommand;
use crate::effect::Effect;
use crate::naming::split_user;
use crate::shared::{answer, closing, nick_refusal, ping, push, refusal};
use crate::stage::{Stage, Waiting};
use byte_text::{NoMemory, Text};
use chat_query::{Facts, Identity};
use cluster_directory::{Directory, Entry};
use irc_caps::CapSet;
use irc_line::LineFault;
use irc_reply::need_more_params;
use irc_reply::to_client::{
    closing_link, join_line, marker_question, no_motd, not_registered, password_incorrect, support,
    welcome,
};
use std::alloc::Global;

/// The nick of a session before registration.
const NO_NICK: &[u8] = b"*";

/// The first of the four parameters of USER.
pub(crate) fn user_name<'a>(parameters: &[&'a [u8]]) -> Option<&'a [u8]>
    ensures { option_copied result ≡ spec.user_name (map (λ p. p.now) parameters.now) }
{
    match parameters {
        [name, _, _, _, ..] => Some(name),
        _ => None,
    }
}

fn push_question(
    alloc: Global,
    caps: CapSet,
    channel: &[u8],
    list: &mut Vec<Effect>,
) -> Result<(), NoMemory>
    ensures { IfOk result (λ _. list.new.items
        ≡ list.old.items ++ spec.marker_questions caps channel.now) }
{
    if caps.read_marker {
        let question = marker_question(alloc, channel)?;
        push(list, Effect::Ask(question))?;
    }
    Ok(())
}

fn push_channel(
    alloc: Global,
    nick: &[u8],
    caps: CapSet,
    channel: &[u8],
    list: &mut Vec<Effect>,
) -> Result<(), NoMemory>
    ensures { IfOk result (λ _. list.new.items
        ≡ list.old.items ++ spec.channel_lines nick.now caps channel.now) }
{
    let join = join_line(alloc, nick, channel)?;
    push(list, Effect::Send(join))?;
    push_question(alloc, caps, channel, list)
}

/// The numerics that a session is greeted with.
fn welcoming(alloc: Global, facts: &Facts) -> Result<Vec<Effect>, NoMemory>
    ensures { IfOk result (λ list. list.items ≡ spec.greeting facts.now []) }
{
    let cluster = facts.cluster.as_bytes();
    let nick = facts.nick.as_bytes();
    let text = welcome(alloc, cluster, nick, facts.network.as_bytes())?;
    let mut list = answer(alloc, text)?;
    let text = support(alloc, cluster, nick, facts.maximum)?;
    push(&mut list, Effect::Send(text))?;
    let text = no_motd(alloc, cluster, nick)?;
    push(&mut list, Effect::Send(text))?;
    Ok(list)
}

fn greeting(alloc: Global, facts: &Facts, channels: &[Text]) -> Result<Vec<Effect>, NoMemory>
    ensures { IfOk result (λ list. list.items ≡ spec.greeting facts.now channels.now) }
{
    let mut list = welcoming(alloc, facts)?;
    for channel in channels {
        let nick = facts.nick.as_bytes();
        push_channel(alloc, nick, facts.caps, channel.as_bytes(), &mut list)?;
    }
    Ok(list)
}

impl Waiting {
    fn waits(self, alloc: Global, text: Text) -> Result<(Stage, Vec<Effect>), NoMemory>
        ensures { IfOk result (λ r. record { session = r.0; effects = r.1.items }
            ≡ spec.waits self (steps.answer text)) }
    {
        let list = answer(alloc, text)?;
        Ok((Stage::Waiting(self), list))
    }

    fn needs_more(self, alloc: Global, command: &[u8]) -> Result<(Stage, Vec<Effect>), NoMemory>
        ensures { IfOk result (λ r. record { session = r.0; effects = r.1.items }
            ≡ spec.waits self (steps.answer
            (need_more_params self.cluster no_nick command.now))) }
    {
        let text = need_more_params(alloc, self.cluster.as_bytes(), NO_NICK, command)?;
        self.waits(alloc, text)
    }

    /// PASS (RFC 2812, section 3.1.1).
    fn pass(mut self, alloc: Global, parameters: &[&[u8]]) -> Result<(Stage, Vec<Effect>), NoMemory>
        ensures { IfOk result (λ r. record { session = r.0; effects = r.1.items }
            ≡ spec.pass self (map (λ p. p.now) parameters.now)) }
    {
        if parameters.is_empty() {
            self.needs_more(alloc, b"PASS")
        } else {
            let password = Text::new(alloc, parameters[0])?;
            self.password = password;
            Ok((Stage::Waiting(self), Vec::new(alloc)))
        }
    }

    // The account, the network or the secret is wrong.
    fn turn_away(&self, alloc: Global) -> Result<Vec<Effect>, NoMemory>
        ensures { IfOk result (λ list. list.items ≡ (spec.turn_away self.now).effects) }
    {
        let text = password_incorrect(alloc, self.cluster.as_bytes())?;
        let mut list = answer(alloc, text)?;
        let text = closing_link(alloc)?;
        push(&mut list, Effect::Send(text))?;
        push(&mut list, Effect::Close)?;
        Ok(list)
    }

    // The facts of a session that is let in.
    fn facts(&self, alloc: Global, user: &[u8], entry: &Entry) -> Result<Facts, NoMemory>
        ensures { IfOk result (λ facts. facts ≡ spec.facts_of self.now user.now entry.now) }
    {
        let (account, network) = split_user(user);
        let caps = self.negotiation.caps();
        let cluster = self.cluster.as_bytes();
        let identity = Identity {
            account,
            network,
            nick: entry.nick(),
        };
        Facts::new(alloc, identity, caps, cluster, self.maximum)
    }

    fn let_in(
        &self,
        alloc: Global,
        user: &[u8],
        entry: &Entry,
    ) -> Result<(Stage, Vec<Effect>), NoMemory>
        ensures { IfOk result (λ r. record { session = r.0; effects = r.1.items }
            ≡ spec.let_in self.now user.now entry.now) }
    {
        let facts = self.facts(alloc, user, entry)?;
        let list = greeting(alloc, &facts, entry.channels())?;
        Ok((Stage::Registered(facts), list))
    }

    fn register(
        &self,
        alloc: Global,
        directory: &Directory,
        user: &[u8],
    ) -> Result<(Stage, Vec<Effect>), NoMemory>
        ensures { IfOk result (λ r. record { session = r.0; effects = r.1.items }
            ≡ spec.register directory.now self.now user.now) }
    {
        let (account, network) = split_user(user);
        match directory.entry_by_secret(account, network, self.password.as_bytes()) {
            None => {
                let list = self.turn_away(alloc)?;
                Ok((Stage::Closed, list))
            }
            Some(entry) => self.let_in(alloc, user, entry),
        }
    }

    // Lets the session in, or turns it away, once nothing is missing.
    fn settle(self, alloc: Global, directory: &Directory) -> Result<(Stage, Vec<Effect>), NoMemory>
        ensures { IfOk result (λ r. record { session = r.0; effects = r.1.items }
            ≡ spec.settle directory.now self) }
    {
        match &self.user {
            None => Ok((Stage::Waiting(self), Vec::new(alloc))),
            Some(user) => {
                if self.has_nick && !self.negotiation.holding() {
                    self.register(alloc, directory, user.as_bytes())
                } else {
                    Ok((Stage::Waiting(self), Vec::new(alloc)))
                }
            }
        }
    }

    /// CAP (IRCv3 capability negotiation).
    fn cap(
        mut self,
        alloc: Global,
        directory: &Directory,
        parameters: &[&[u8]],
    ) -> Result<(Stage, Vec<Effect>), NoMemory>
        ensures { IfOk result (λ r. record { session = r.0; effects = r.1.items }
            ≡ spec.cap directory.now self (map (λ p. p.now) parameters.now)) }
    {
        let mut negotiation = self.negotiation;
        let cluster = self.cluster.as_bytes();
        let line = negotiation.answer_cap(alloc, parameters, cluster, NO_NICK)?;
        self.negotiation = negotiation;
        match line {
            None => self.settle(alloc, directory),
            Some(text) => self.waits(alloc, text),
        }
    }

    /// NICK (RFC 2812, section 3.1.2).
    fn nick(
        mut self,
        alloc: Global,
        directory: &Directory,
        parameters: &[&[u8]],
    ) -> Result<(Stage, Vec<Effect>), NoMemory>
        ensures { IfOk result (λ r. record { session = r.0; effects = r.1.items }
            ≡ spec.nick directory.now self (map (λ p. p.now) parameters.now)) }
    {
        match nick_refusal(alloc, self.cluster.as_bytes(), NO_NICK, parameters)? {
            Some(text) => self.waits(alloc, text),
            None => {
                self.has_nick = true;
                self.settle(alloc, directory)
            }
        }
    }

    /// USER (RFC 2812, section 3.1.3).
    fn user(
        mut self,
        alloc: Global,
        directory: &Directory,
        parameters: &[&[u8]],
    ) -> Result<(Stage, Vec<Effect>), NoMemory>
        ensures { IfOk result (λ r. record { session = r.0; effects = r.1.items }
            ≡ spec.user directory.now self (map (λ p. p.now) parameters.now)) }
    {
        match user_name(parameters) {
            None => self.needs_more(alloc, b"USER"),
            Some(name) => {
                let name = Text::new(alloc, name)?;
                self.user = Some(name);
                self.settle(alloc, directory)
            }
        }
    }

    fn ping(self, alloc: Global, parameters: &[&[u8]]) -> Result<(Stage, Vec<Effect>), NoMemory>
        ensures { IfOk result (λ r. record { session = r.0; effects = r.1.items }
            ≡ spec.waits self
            (steps.ping self.cluster no_nick (map (λ p. p.now) parameters.now))) }
    {
        let list = ping(alloc, self.cluster.as_bytes(), NO_NICK, parameters)?;
        Ok((Stage::Waiting(self), list))
    }

    // Any other command.
    fn not_yet(self, alloc: Global) -> Result<(Stage, Vec<Effect>), NoMemory>
        ensures { IfOk result (λ r. record { session = r.0; effects = r.1.items }
            ≡ spec.waits self (steps.answer (not_registered self.cluster))) }
    {
        let text = not_registered(alloc, self.cluster.as_bytes())?;
        self.waits(alloc, text)
    }

    fn serve(
        self,
        alloc: Global,
        directory: &Directory,
        command: ClientCommand,
        parameters: &[&[u8]],
    ) -> Result<(Stage, Vec<Effect>), NoMemory>
        ensures { IfOk result (λ r. record { session = r.0; effects = r.1.items }
            ≡ spec.before_registration directory.now self command
            (map (λ p. p.now) parameters.now)) }
    {
        match command {
            ClientCommand::Cap => self.cap(alloc, directory, parameters),
            ClientCommand::Pass => self.pass(alloc, parameters),
            ClientCommand::Nick => self.nick(alloc, directory, parameters),
            ClientCommand::User => self.user(alloc, directory, parameters),
            ClientCommand::Ping => self.ping(alloc, parameters),
            ClientCommand::Pong => Ok((Stage::Waiting(self), Vec::new(alloc))),
            ClientCommand::Quit => {
                let list = closing(alloc)?;
                Ok((Stage::Closed, list))
            }
            _ => self.not_yet(alloc),
        }
    }

    /// What a command does. It is a copy that goes on, so that a refused step leaves the session as it was.
    pub(crate) fn step(
        &self,
        alloc: Global,
        directory: &Directory,
        command: ClientCommand,
        parameters: &[&[u8]],
    ) -> Result<(Stage, Vec<Effect>), NoMemory>
        ensures { IfOk result (λ r. record { session = r.0; effects = r.1.items }
            ≡ spec.before_registration directory.now self.now command
            (map (λ p. p.now) parameters.now)) }
    {
        let next = self.try_clone(alloc)?;
        next.serve(alloc, directory, command, parameters)
    }

    /// What a line that can't be read does.
    pub(crate) fn refuse(&self, alloc: Global, fault: LineFault) -> Result<Vec<Effect>, NoMemory>
        ensures { IfOk result (λ list. list.items
            ≡ steps.refusal self.now.cluster no_nick fault) }
    {
        refusal(alloc, self.cluster.as_bytes(), NO_NICK, fault)
    }
}

ghost use Rattle.irc_reply.specs.Reply.{need_more_params};
