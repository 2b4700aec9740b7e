//! Sessions of clients, played line by line. The setting of a case is of two words:
//!
//!     == new|wide|member|bare|last up|down|redact|redact-down|channel|renamed|nowhere: name of the case
//!     lines of the client
//!     --
//!     lines that the client gets, and `put`, `ask`, `up` and `close` with what they carry
//!
//! A session is new, with pages of 100 messages or, where it is `wide`, of 1,000, or registered with all capabilities
//! (`member`) or none (`bare`); `last` is a member whose next batch has the greatest number. Its network is up or down; its
//! server may take REDACT, it may be in the channel #a, its nick may be `bo` in place of `al`, or the directory may have no
//! account at all.
//!
//! A line that begins with `%` is none of the client's. It names another such standing from then on; or it is `%too-long`
//! for a line that was too long to be taken in, `%batch`, `%plain` or `%no-query` for what an answer was, `%reference` to
//! tell the number of the next batch, or `%no-entry`: from then on no message can be looked up. `%ask line` tells what a question
//! is answered of the message m1, which takes a number where the answer is a batch.
use crate::telling::{absorb, tell_change, tell_row, without_ending};
use anyhow::Error;
use byte_text::Text;
use chat_batch::{Facts, Identity, answer};
use chat_change::{Buffer, MsgId};
use chat_state::{NoEntry, Peek, State};
use client_session::{
    Answered, ConfiguredAccount, Directory, Effect, Entry, Network, NoMemory, Session, StepFault,
};
use irc_caps::CapSet;
use irc_line::{TagLimit, read_line};
use std::alloc::{AllocError, Global};
use std::io::Write;

/// A session, with what it is asked beside: a directory, and a state that shows the message m1 in the channel #a.
#[derive(Drop)]
struct SessionPlayer {
    session: Session,
    directory: Directory,
    state: State,
    is_closed: bool,
}

/// Where no message can be looked up.
#[derive(Drop)]
struct Closed;

impl Peek for Closed {
    ghost use Rattle.std.specs.Prelude.{◌≡◌, IfOk, OnErr};

    ghost peeks = { λ old b m shown new. new ≡ old };

    fn shown(&mut self, _buffer: &Buffer, _id: &MsgId) -> Result<bool, NoEntry>
        ensures ok { IfOk result (λ shown. self.new ≡ self.old) }
        ensures err { OnErr result (self.new ≡ self.old) }
    {
        Err(NoEntry)
    }
}

/// The network `net`, as it stands of which a word tells.
fn network_of(alloc: Global, word: &str) -> Result<Network, Error> {
    let is_up = !matches!(word, "down" | "redact-down");
    let takes_redact = matches!(word, "redact" | "redact-down");
    let nick = if word == "renamed" { b"bo" } else { b"al" };
    let name = Text::new(alloc, b"net")?;
    let mut entry = Entry::new(
        is_up,
        Text::new(alloc, nick)?,
        Vec::new(alloc),
        takes_redact,
    );
    if word == "channel" {
        entry.join(Text::new(alloc, b"#a")?)?;
    }
    Ok(Network::new(name, entry))
}

// An account of that name and with that secret, which has that network.
fn account_of(
    alloc: Global,
    name: &[u8],
    secret: &[u8],
    word: &str,
) -> Result<ConfiguredAccount, Error> {
    let name = Text::new(alloc, name)?;
    let mut account = ConfiguredAccount::new(alloc, name, Text::new(alloc, secret)?);
    account.add(network_of(alloc, word)?)?;
    Ok(account)
}

/// The directory of which a word tells; `nowhere` has no account.
fn directory_of(alloc: Global, word: &str) -> Result<Directory, Error> {
    let mut directory = Directory::new(alloc);
    if word != "nowhere" {
        directory.add(account_of(alloc, b"demo", b"s3cret", word)?)?;
        directory.add(account_of(alloc, b"open", b"", word)?)?;
    }
    Ok(directory)
}

// A session that hasn't registered yet, of a node that answers with so many messages at most.
fn newcomer(alloc: Global, maximum: u32) -> Result<Session, NoMemory> {
    let cluster = Text::new(alloc, b"~")?;
    Ok(Session::new(alloc, cluster, maximum))
}

fn session_of(alloc: Global, word: &str) -> Result<Session, NoMemory> {
    let (caps, reference) = match word {
        "member" => (CapSet::all(), 1),
        "last" => (CapSet::all(), u32::MAX),
        "bare" => (CapSet::none(), 1),
        "wide" => return newcomer(alloc, 1000),
        _ => return newcomer(alloc, 100),
    };
    let identity = Identity {
        account: b"demo",
        network: b"net",
        nick: b"al",
    };
    let mut facts = Facts::new(alloc, identity, caps, b"~", 100)?;
    facts.reference = reference;
    Ok(Session::registered(facts))
}

fn player_of(alloc: Global, setting: &str) -> Result<SessionPlayer, Error> {
    let (who, standing) = setting.split_once(" ").unwrap_or((setting, ""));
    let mut state = State::new(alloc);
    absorb(
        alloc,
        &mut state,
        b"C POST demo net #a m1 1000 P #a bob!b@h :hi",
    )?;
    let directory = directory_of(alloc, standing)?;
    let session = session_of(alloc, who)?;
    Ok(SessionPlayer {
        session,
        directory,
        state,
        is_closed: false,
    })
}

// Tells an effect in a row: a line to the client as it is, the others with a word before them.
fn tell_effect(alloc: Global, out: &mut Vec<u8>, effect: &Effect) -> Result<(), Error> {
    match effect {
        Effect::Send(text) => tell_row(out, b"", without_ending(text.as_bytes()))?,
        Effect::Put(change) => tell_change(alloc, out, change)?,
        Effect::Ask(line) => tell_row(out, b"ask ", line.as_bytes())?,
        Effect::Upstream(line) => tell_row(out, b"up ", without_ending(line.as_bytes()))?,
        Effect::Close => tell_row(out, b"close", b"")?,
    }
    Ok(())
}

impl SessionPlayer {
    // What a line of the client does. None stands for one that was too long.
    fn step(&mut self, alloc: Global, line: Option<&[u8]>) -> Result<Vec<Effect>, StepFault> {
        let Some(line) = line else {
            return match self.session.too_long(alloc, &self.directory) {
                Ok(effects) => Ok(effects),
                Err(NoMemory) => Err(StepFault::NoMemory),
            };
        };
        if self.is_closed {
            self.session.step(alloc, line, &self.directory, &mut Closed)
        } else {
            self.session
                .step(alloc, line, &self.directory, &mut self.state)
        }
    }

    // A step that is refused leaves the session as it was: it is made again.
    fn step_again(&mut self, alloc: Global, line: Option<&[u8]>) -> Result<Vec<Effect>, StepFault> {
        if let Ok(effects) = self.step(alloc, line) {
            return Ok(effects);
        }
        self.step(alloc, line)
    }

    // Tells effects, and gives their room back, so that the next line is answered in it.
    fn tell_all(
        &mut self,
        alloc: Global,
        effects: Vec<Effect>,
        out: &mut Vec<u8>,
    ) -> Result<(), Error> {
        for effect in &effects {
            tell_effect(alloc, out, effect)?;
        }
        self.session.recycle(effects);
        Ok(())
    }

    // Prints what a line of the client does. A step that has no answer for want of memory fails the case.
    fn play(&mut self, alloc: Global, line: Option<&[u8]>, out: &mut Vec<u8>) -> Result<(), Error> {
        match self.step_again(alloc, line) {
            Ok(effects) => self.tell_all(alloc, effects, out),
            Err(StepFault::NoEntry) => Ok(tell_row(out, b"no entry", b"")?),
            Err(StepFault::NoMemory) => Err(Error::from(AllocError)),
        }
    }

    // Tells the number of the session's next batch.
    fn tell_reference(&self, out: &mut Vec<u8>) -> Result<(), Error> {
        let Some(facts) = self.session.facts() else {
            return Ok(tell_row(out, b"no facts", b"")?);
        };
        Ok(write!(out, "reference {}\n", facts.reference)?)
    }

    // Tells what a question is answered.
    fn ask(&mut self, alloc: Global, question: &str, out: &mut Vec<u8>) -> Result<(), Error> {
        let Some(facts) = self.session.facts() else {
            return Ok(tell_row(out, b"no facts", b"")?);
        };
        let line = read_line(question.as_bytes(), TagLimit::Client)?;
        let answered = answer(alloc, &self.state, facts, &line, out)?;
        self.session.answered(answered);
        Ok(())
    }

    // Does what a line that begins with `%` says, without that sign.
    fn turn(&mut self, alloc: Global, word: &str, out: &mut Vec<u8>) -> Result<(), Error> {
        match word {
            "too-long" => return self.play(alloc, None, out),
            "reference" => return self.tell_reference(out),
            "no-entry" => self.is_closed = true,
            "batch" => self.session.answered(Answered::Batch),
            "plain" => self.session.answered(Answered::Plain),
            "no-query" => self.session.answered(Answered::NotAQuery),
            _ => match word.strip_prefix("ask ") {
                Some(question) => return self.ask(alloc, question, out),
                None => self.directory = directory_of(alloc, word)?,
            },
        }
        Ok(())
    }

    fn play_lines(&mut self, alloc: Global, script: &str, out: &mut Vec<u8>) -> Result<(), Error> {
        for line in script.split("\n") {
            let played = match line.strip_prefix("%") {
                Some(word) => self.turn(alloc, word, out),
                None => self.play(alloc, Some(line.as_bytes()), out),
            };
            played?;
        }
        Ok(())
    }
}

/// Prints what the lines of a script do, one after the other.
pub fn play(alloc: Global, setting: &str, script: &str, out: &mut Vec<u8>) -> Result<(), Error> {
    let mut player = player_of(alloc, setting)?;
    player.play_lines(alloc, script, out)
}
