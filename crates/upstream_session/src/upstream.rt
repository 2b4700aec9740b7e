//! Sessions with servers.
ghost use Rattle.std.specs.Prelude.{◌≡◌, [], IfOk, OnErr};
ghost use Rattle.std.specs.Option.{option_copied};
ghost use Rattle.upstream_session.specs.Command.{command_of};
ghost use Rattle.upstream_session.specs.Refusal.{after_line, refusal_after};
ghost use Rattle.upstream_session.specs.Rows.{serve};
ghost use Rattle.upstream_session.specs.Session as spec;
ghost use Rattle.upstream_session.specs.Step as steps;

use crate::connection::{Home, ServerSession};
use crate::effect::UpEffect;
use crate::effects::{push, send};
use crate::heard::HeardLine;
use crate::refusal::Refusal;
use crate::sayings::without_ending;
use crate::scratch::Scratch;
use byte_text::{NoMemory, Text};
use chat_change::Moment;
use cluster_directory::{Entry, SessionConfig};
use irc_caps::CapSet;
use irc_line::{TagLimit, read_line};
use irc_reply::to_server::{ls_line, nick_line, user_line};
use std::alloc::Global;
use std::marker::Model;

/// The session with the server of a network: it registers, is up, or is closed.
pub struct Upstream {
    connection: ServerSession,
    refusal: Refusal,
    scratch: Scratch,
}

// Written out, so that this is proved once, and not in each crate that lets a session go.
impl Drop for Upstream {
    fn drop(self) {
        let Self {
            connection: _connection,
            refusal: _refusal,
            scratch: _scratch,
        } = self;
    }
}

impl Model for Upstream {
    ghost use Rattle.upstream_session.specs.Refusal.{Session};

    ghost Value = { Session };

    ghost view = { λ u. record { connection = u.connection; refusal = u.refusal } };
}

impl Upstream {
    /// A session of that configuration, which isn't connected yet. Messages that bear no id get one of the node's name,
    /// its incarnation and a serial number, of which this is the first. It takes no memory.
    pub fn new(
        alloc: Global,
        config: SessionConfig,
        node: Text,
        incarnation: u64,
        first_serial: u64,
    ) -> Upstream
        ensures connection { result.connection ≡ steps.new config node incarnation first_serial }
        ensures refusal { result.refusal ≡ [] }
    {
        Upstream {
            connection: ServerSession {
                home: Home {
                    account: config.account,
                    network: config.network,
                    user: config.user,
                    channels: config.channels,
                    node,
                    incarnation,
                },
                serial: first_serial,
                entry: Entry::new(false, config.nick, Vec::new(alloc), false),
                offered: CapSet::none(),
                held: CapSet::none(),
                tries: 0,
                is_closed: false,
            },
            refusal: Refusal::none(),
            scratch: Scratch::new(alloc),
        }
    }

    /// The serial number of the next id that is made.
    pub fn serial(&self) -> u64
        ensures { result ≡ self.now.connection.serial }
    {
        self.connection.serial
    }

    /// How the session stands: whether the network is up, the present nick, the channels, and whether the server takes
    /// REDACT.
    pub fn entry(&self) -> &Entry
        ensures { result.now ≡ self.now.connection.entry }
    {
        &self.connection.entry
    }

    fn opening(&self, alloc: Global) -> Result<Vec<UpEffect>, NoMemory>
        ensures { IfOk result (λ list. list.items ≡ spec.opening self.now.connection) }
    {
        let text = ls_line(alloc)?;
        let mut list = send(alloc, text)?;
        let text = nick_line(alloc, self.connection.entry.nick())?;
        push(&mut list, UpEffect::Send(text))?;
        let text = user_line(alloc, self.connection.home.user.as_bytes())?;
        push(&mut list, UpEffect::Send(text))?;
        Ok(list)
    }

    /// What a new session begins with: it asks for the server's capabilities, and for its nick and its user name.
    pub fn start(&self, alloc: Global) -> Result<Vec<UpEffect>, NoMemory>
        ensures { IfOk result (λ list. list.items ≡ spec.start self.now.connection) }
    {
        if self.connection.is_closed {
            Ok(Vec::new(alloc))
        } else {
            self.opening(alloc)
        }
    }

    /// What a line of the server does at that moment. The line stands without its ending; one that can't be read is
    /// dropped. A refused step leaves the session as it was.
    ///
    /// A line that is passed on is copied once, and a record is made of slices of the line and shares the buffer of its
    /// conversation; its client-only tags are written into room that serves all lines. Where the effects of earlier lines
    /// were given back ([`recycle`](Upstream::recycle)), a line that is passed on asks for no memory, and one that is kept for
    /// that of its record, and of a copy of each of its tags `msgid` and `time` that has escapes. Other lines, such as PING
    /// and those of registration, ask for their answers' memory.
    #[tactic(auto, unfolding(crate::specs::Session::step))]
    pub fn step(
        &mut self,
        alloc: Global,
        bytes: &[u8],
        now: Moment,
    ) -> Result<Vec<UpEffect>, NoMemory>
        ensures step { IfOk result (λ list.
            record { session = self.new.connection; effects = list.items }
            ≡ spec.step self.old.connection now bytes.now) }
        ensures refusal { IfOk result (λ _. self.new.refusal
            ≡ refusal_after self.old.connection self.old.refusal bytes.now) }
        ensures err { OnErr result (self.new ≡ self.old) }
    {
        if self.connection.is_closed {
            return Ok(Vec::new(alloc));
        }
        match read_line(bytes, TagLimit::Server) {
            Err(_) => Ok(Vec::new(alloc)),
            Ok(line) => {
                let heard = HeardLine {
                    line: &line,
                    bytes,
                    at: now,
                };
                self.hear(alloc, &heard)
            }
        }
    }

    // What a line of the server that was read does.
    fn hear(&mut self, alloc: Global, heard: &HeardLine<'_>) -> Result<Vec<UpEffect>, NoMemory>
        ensures step { IfOk result (λ list.
            record { session = self.new.connection; effects = list.items }
            ≡ serve self.old.connection heard.now.at heard.now.bytes.now heard.now.line.now
            (command_of heard.now.line.now.command)) }
        ensures refusal { IfOk result (λ _. self.new.refusal
            ≡ after_line self.old.connection.entry.is_up self.old.refusal heard.now.line.now) }
        ensures err { OnErr result (self.new ≡ self.old) }
    {
        let is_up = self.connection.entry.is_up();
        let effects = self.connection.serve(alloc, &mut self.scratch, heard)?;
        self.refusal.hear(is_up, heard.line);
        Ok(effects)
    }

    /// What the server said last as it refused the session, by ERROR or 465, or by 432 before the network was up (RFC 2812,
    /// sections 3.7.4 and 5.2): the first 200 bytes of the last parameter, with `?` for each that isn't printable ASCII. Empty
    /// where it said nothing of the kind.
    pub fn refusal(&self) -> &[u8]
        ensures { result.now ≡ self.now.refusal }
    {
        self.refusal.as_bytes()
    }

    /// The channel that the session itself joins by a line of the server, where it joins one ([`step`](Upstream::step)). The
    /// line stands without its ending. It may be asked before that step or after it, and takes no memory.
    pub fn joined<'a>(&self, bytes: &'a [u8]) -> Option<&'a [u8]>
        ensures { option_copied result ≡ spec.joined self.now.connection bytes.now }
    {
        if self.connection.is_closed {
            return None;
        }
        match read_line(bytes, TagLimit::Server) {
            Err(_) => None,
            Ok(line) => self.connection.joined(&line),
        }
    }

    /// What a client's line for the server comes to at that moment. The line stands with its CR LF or without. It is sent
    /// without its source. PRIVMSG, NOTICE and TAGMSG are sent with their client-only tags to a server that acknowledged
    /// `message-tags`, and another gets no TAGMSG; any other line is sent without tags (IRCv3 message-tags). A message is
    /// kept too, with the tags that it is sent with, where the server doesn't send it back (IRCv3 echo-message). A refused
    /// call leaves the session as it was.
    #[tactic(auto, unfolding(crate::specs::Session::say))]
    pub fn say(
        &mut self,
        alloc: Global,
        bytes: &[u8],
        now: Moment,
    ) -> Result<Vec<UpEffect>, NoMemory>
        ensures step { IfOk result (λ list.
            record { session = self.new.connection; effects = list.items }
            ≡ spec.say self.old.connection now bytes.now) }
        ensures refusal { self.new.refusal ≡ self.old.refusal }
        ensures err { OnErr result (self.new ≡ self.old) }
    {
        if self.connection.is_closed {
            return Ok(Vec::new(alloc));
        }
        let text = without_ending(bytes);
        let (outcome, list) = self
            .connection
            .say_line(alloc, &mut self.scratch, now, text)?;
        self.connection.go_on(outcome);
        Ok(list)
    }

    /// Takes back a list of effects, once they are done, for its room and that of a text in it.
    pub fn recycle(&mut self, list: Vec<UpEffect>)
        ensures { self.new ≡ self.old }
    {
        self.scratch.recycle(list);
    }
}
