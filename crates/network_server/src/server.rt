//! The server of a network.
ghost use Rattle.std.specs.Prelude.{◌≡◌, ◌≢◌, ◌↔◌, ◌<◌, ◌≤◌, ◌⊎◌, ◌+◌, ◌-◌, ◌^◌, ◌++◌, [], Err, None, Ok, Some, IfOk, IfSome, OnErr, OnOk, is_some, length, min, take, true};
ghost use Rattle.network_log.specs.Guest.{next_item};
ghost use Rattle.network_log.specs.Host.{new_host, one_heard};
ghost use Rattle.network_log.specs.Log.{ServerGets, ServerSays, ServerSkips};
ghost use Rattle.network_log.specs.Telling.{IsToldToServer};
ghost use Rattle.network_log.specs.Truth.{MayBeSkipped};
ghost use Rattle.network_log.specs.declared.origin.Origin.TheVariants.{NetworkDialed};
ghost use Rattle.node_ports.specs.declared.pending.ReceiveFault.TheVariants as unreceived;
ghost use Rattle.network_server.specs.ServerEvents.{Becomes, IsSaid, LosesLine, LosesSaid, Makes};
ghost use Rattle.network_server.specs.ServerState.{HasCredit, IsGivenUp, MayEnd, StandsAsBefore, tried_again, with_received};
ghost use Rattle.network_server.specs.declared.opening.TheConstants.{MOST_OWED};
ghost use Rattle.network_server.specs.declared.server.TheConstants.{QUIET};
ghost use Rattle.network_server.specs.declared.server.HearFault.TheVariants as fault;
ghost use Rattle.network_server.specs.declared.server.ServerHearing.TheVariants as hearing;
ghost use Rattle.network_server.specs.declared.server.SayFault.TheVariants as saying;

use crate::batch::Batch;
use crate::dialogue::{ServerDialogue, ServerStepFault};
use crate::opening::{Site, begin, bound_for};
use byte_text::NoMemory;
use chat_change::Moment;
use irc_line::Next;
use node_ports::{Connection, Fresh, Halt, LineBuffer, ReceiveFault};
use std::alloc::Global;
use std::marker::Model;
use upstream_session::{Upstream, is_passed_on};

/// A server that sent nothing for so many milliseconds is given up.
const QUIET: u64 = 300_000;

/// So often a line is tried before it is given up.
const TRIES: u32 = 10;

/// So often bytes are taken in of a connection that is lost: some megabytes, as much as a system holds of one.
const LAST_RECEIVES: u32 = 2_048;

/// Why a connection ends.
#[derive(Clone, Copy, Debug, PartialEq, Eq)]
pub enum ServerLoss {
    /// The other end closed it.
    Closed,
    /// It ended as the protocol says.
    Ended,
    /// It didn't read what was owed to it.
    Overrun,
    /// Nothing came for too long.
    Silent,
}

/// What came of asking for the server's next line.
#[derive(Clone, Copy, Debug, PartialEq, Eq)]
pub enum ServerHearing {
    /// The session heard it.
    Line,
    /// It is left out: it is too long, or would only be passed on.
    LeftOut,
    /// There is none before more bytes come.
    More,
    /// Too much is owed to the server: that is sent first ([`Server::make_room`]).
    Full,
}

/// Why the server's next line wasn't heard, or is lost.
#[derive(Clone, Copy, Debug, PartialEq, Eq)]
pub enum HearFault {
    /// There was no memory. It is the next line again.
    Again,
    /// There was no memory for it too often: the server is to be ended.
    GivenUp,
    /// The session heard it, and there was no memory for what that comes to: the server is to be ended.
    Lost,
}

/// Why a client's line isn't said to the server.
#[derive(Clone, Copy, Debug, PartialEq, Eq)]
pub enum SayFault {
    /// Too much is owed to the server for now, or the connection is lost.
    Later,
    /// There was no memory.
    NoMemory,
    /// The session took it, and there was no memory for what that comes to: the server is to be ended.
    Lost,
}

/// The server of a network: its connection, the session over it, what of it is unread, and what is owed to it.
#[derive(Drop)]
pub struct Server<C: Connection> {
    network: usize,
    connection: C,
    dialogue: ServerDialogue,
    input: LineBuffer,
    // how many of the server's lines were heard or left out
    heard: u64,
    // so many bytes may be owed before the next line is taken
    bound: usize,
    // when bytes came last, in milliseconds
    heard_at: u64,
    // why nothing goes out any more
    loss: Option<ServerLoss>,
    // Nothing more comes of a connection that is lost.
    is_drained: bool,
    is_readable: bool,
    is_writable: bool,
    // how often the next line was tried in vain
    tries: u32,
    // how often bytes are still taken in once the connection is lost
    last_receives: u32,
}

impl<C: Connection> Model for Server<C> {
    ghost use Rattle.std.specs.Prelude.{◌≡◌, ◌++◌};
    ghost use Rattle.network_log.specs.declared.origin.Origin.TheVariants.{NetworkDialed};
    ghost use Rattle.network_server.specs.ServerState.{ServerState};
    ghost use Rattle.network_server.specs.Unread.{IsUnread};

    ghost Value = { ServerState };

    ghost view = { λ s. record {
      host = record {
        network = s.network;
        serial = C.serial s.connection;
        received = C.received s.connection;
        heard = s.heard;
        session = s.dialogue.session.connection;
        told = C.sent s.connection ++ s.dialogue.output;
      };
      owed = s.dialogue.output;
      bound = s.bound;
      heard_at = s.heard_at;
      loss = s.loss;
      tries = s.tries;
    } };

    ghost invariant = { λ s. (C.origin s.connection ≡ NetworkDialed s.network)
        × (s.dialogue.session.connection.is_closed ≡ s.dialogue.is_over)
        × IsUnread (C.received s.connection) s.heard s.input };
}

impl<C: Connection> Server<C> {
    /// The server of a network over a connection that was dialed for it, and joins the network behind so many others. The session
    /// goes on from that serial number, and what it begins with is owed to the server.
    pub fn new(
        alloc: Global,
        site: &Site<'_>,
        first_serial: u64,
        joins: u64,
        now: u64,
        fresh: Fresh<C>,
    ) -> Result<Server<C>, NoMemory>
        requires origin { C.origin fresh.connection ≡ NetworkDialed site.now.place }
        requires me { site.now.me.now ≡ C.facts.terms.me }
        ensures host { IfOk result (λ server. server.host ≡ new_host C.facts site.now.place
            site.now.config.now (C.serial fresh.connection) first_serial) }
        ensures heard_at { IfOk result (λ server. server.heard_at ≡ now) }
        ensures bound { IfOk result (λ server. MOST_OWED ≤ server.bound) }
        ensures loss { IfOk result (λ server. server.loss ≡ None) }
        ensures came { IfOk result (λ _. ∥ C.facts.came (NetworkDialed site.now.place)
            (C.serial fresh.connection) [] ∥₁) }
        ensures joined { IfOk result (λ _. ∥ C.facts.joined (C.serial fresh.connection)
            site.now.place joins ∥₁) }
    {
        let Fresh { mut connection, .. } = fresh;
        let dialogue = begin(alloc, site, first_serial)?;
        connection.join(site.place, joins);
        Ok(Server {
            network: site.place,
            connection,
            dialogue,
            input: LineBuffer::new(alloc),
            heard: 0,
            bound: bound_for(site.config.channels.names()),
            heard_at: now,
            loss: None,
            is_drained: false,
            is_readable: true,
            is_writable: true,
            tries: 0,
            last_receives: LAST_RECEIVES,
        })
    }

    /// Its connection: what went out over it is what it was told, but for what is owed.
    pub fn connection(&self) -> &C
        ensures told { self.now.host.told ≡ C.sent result.now ++ self.now.owed }
        ensures received { C.received result.now ≡ self.now.host.received }
        ensures serial { C.serial result.now ≡ self.now.host.serial }
        ensures origin { C.origin result.now ≡ NetworkDialed self.now.host.network }
    {
        &self.connection
    }

    /// The session: how it stands, its next serial number, and by which words the server refused it.
    pub fn session(&self) -> &Upstream
        ensures { result.now.connection ≡ self.now.host.session }
    {
        &self.dialogue.session
    }

    /// Bytes may be there, or room for bytes.
    pub fn mark(&mut self, is_readable: bool, is_writable: bool)
        ensures { self.new ≡ self.old }
    {
        self.is_readable |= is_readable;
        self.is_writable |= is_writable;
    }

    // Nothing goes out any more. What came before is still there to be heard.
    fn lose(&mut self, loss: ServerLoss)
        ensures host { self.new.host ≡ self.old.host }
        ensures owed { self.new.owed ≡ self.old.owed }
        ensures bound { self.new.bound ≡ self.old.bound }
        ensures heard_at { self.new.heard_at ≡ self.old.heard_at }
        ensures loss { is_some self.new.loss ≡ true }
    {
        if self.loss.is_none() {
            self.loss = Some(loss);
        }
        self.is_readable = true;
    }

    /// Takes in bytes that come over its connection, by way of the chunk, and answers how many. Its lines are heard before more is
    /// taken in. For want of memory nothing is taken.
    pub fn receive(&mut self, chunk: &mut [u8], now: u64) -> Result<usize, ReceiveFault>
        ensures got { IfOk result (λ n. self.new ≡ with_received (take n chunk.new) now self.old) }
        ensures event { IfOk result (λ n. Becomes C.facts (ServerGets (take n chunk.new))
            self.old.host self.new.host) }
        ensures evidence { IfOk result (λ n. ∥ C.facts.came (NetworkDialed self.old.host.network)
            self.old.host.serial (self.old.host.received ++ take n chunk.new) ∥₁) }
        ensures err { OnErr result (self.new.host ≡ self.old.host) }
        ensures blocked { result ≡ Err unreceived.Blocked → self.new ≡ self.old }
        ensures memory { result ≡ Err unreceived.NoMemory → self.new ≡ self.old }
        ensures closed { result ≡ Err unreceived.Closed → is_some self.new.loss ≡ true }
    {
        if !self.is_readable {
            self.note_end(ReceiveFault::Blocked);
            return Err(ReceiveFault::Blocked);
        }
        match self.input.receive(&mut self.connection, chunk) {
            Ok(count) => {
                self.heard_at = now;
                self.is_readable = count > 0;
                self.count_last_receive();
                Ok(count)
            }
            Err(fault) => {
                self.note_end(fault);
                Err(fault)
            }
        }
    }

    // Of a connection that is lost bytes are taken in so often and no more: what comes later can't have been there before.
    fn count_last_receive(&mut self)
        ensures { self.new ≡ self.old }
    {
        if self.loss.is_some() {
            self.last_receives = self.last_receives.saturating_sub(1);
            self.is_drained |= self.last_receives == 0;
        }
    }

    // No bytes came.
    fn note_end(&mut self, fault: ReceiveFault)
        ensures host { self.new.host ≡ self.old.host }
        ensures open { fault ≢ unreceived.Closed → self.new ≡ self.old }
        ensures closed { fault ≡ unreceived.Closed → is_some self.new.loss ≡ true }
    {
        match fault {
            ReceiveFault::Blocked => self.is_readable = false,
            ReceiveFault::Closed => self.lose(ServerLoss::Closed),
            ReceiveFault::NoMemory => return,
        }
        self.is_drained = self.loss.is_some();
    }

    /// Its session hears its next line at that moment. What the session answers is owed to the server, and what else comes of the line
    /// is added to the batch. For want of memory nothing changes, unless the line is lost. After so many tries a line that would only
    /// be passed on is left out.
    pub fn hear(
        &mut self,
        alloc: Global,
        now: Moment,
        batch: &mut Batch,
    ) -> Result<ServerHearing, HearFault>
        ensures line { result ≡ Ok hearing.Line → Makes C.facts (ServerSays now)
            self.old.host batch.old self.new.host batch.new }
        ensures left_out { result ≡ Ok hearing.LeftOut
            → MayBeSkipped (next_item self.old.host.received self.old.host.heard)
            × Makes C.facts ServerSkips self.old.host batch.old self.new.host batch.new }
        ensures more { result ≡ Ok hearing.More → (self.old.host.session.is_closed ≡ true)
            ⊎ (next_item self.old.host.received self.old.host.heard ≡ None) }
        ensures bounded { result ≡ Ok hearing.Line → self.old.loss ≡ None
            → length self.old.owed ≤ self.old.bound }
        ensures none { result ≡ Ok hearing.More → (self.new ≡ self.old) × (batch.new ≡ batch.old) }
        ensures full { result ≡ Ok hearing.Full → (self.old.bound < length self.old.owed)
            × (self.new ≡ self.old) × (batch.new ≡ batch.old) }
        ensures again { result ≡ Err fault.Again → self.new ≡ tried_again self.old }
        ensures given_up { result ≡ Err fault.GivenUp → IsGivenUp self.old self.new }
        ensures lost { result ≡ Err fault.Lost
            → LosesLine C.facts now self.old.host self.new.host }
        ensures err { OnErr result (batch.new ≡ batch.old) }
        ensures stands { StandsAsBefore self.old self.new }
    {
        if self.dialogue.is_over {
            return Ok(ServerHearing::More);
        }
        if self.loss.is_none() && self.dialogue.output.len() > self.bound {
            return Ok(ServerHearing::Full);
        }
        let Some(heard) = self.heard.checked_add(1) else {
            return Err(HearFault::GivenUp);
        };
        let Server {
            dialogue,
            input,
            ..
        } = self;
        match input.next_line() {
            Next::More => Ok(ServerHearing::More),
            Next::TooLong => {
                self.count_line(heard);
                Ok(ServerHearing::LeftOut)
            }
            Next::Line(line) => match dialogue.hear(alloc, line, now, batch) {
                Ok(()) => {
                    self.count_line(heard);
                    Ok(ServerHearing::Line)
                }
                Err(ServerStepFault::Again) => self.try_again(heard),
                Err(ServerStepFault::Lost) => Err(HearFault::Lost),
            },
        }
    }

    // The next line is taken out: so many were heard or left out by now.
    fn count_line(&mut self, heard: u64)
        requires heard { heard ≡ self.old.host.heard + 1 }
        requires next { is_some (next_item self.old.host.received self.old.host.heard) ≡ true }
        ensures { self.new ≡ record self.old { host = one_heard self.old.host; tries = 0 } }
    {
        self.input.take_line();
        self.heard = heard;
        self.tries = 0;
    }

    // There was no memory for the next line. After so many tries it is left out, where it would only be passed on.
    fn try_again(&mut self, heard: u64) -> Result<ServerHearing, HearFault>
        requires { heard ≡ self.old.host.heard + 1 }
        ensures left_out { IfOk result (λ h. (h ≡ hearing.LeftOut)
            × MayBeSkipped (next_item self.old.host.received self.old.host.heard)
            × (self.new ≡ record self.old { host = one_heard self.old.host; tries = 0 })) }
        ensures again { result ≡ Err fault.Again → self.new ≡ tried_again self.old }
        ensures given_up { result ≡ Err fault.GivenUp → IsGivenUp self.old self.new }
        ensures kept { result ≢ Err fault.Lost }
    {
        self.tries = self.tries.saturating_add(1);
        if self.tries < TRIES {
            return Err(HearFault::Again);
        }
        match self.input.next_line() {
            Next::Line(line) if is_passed_on(line) => {
                self.count_line(heard);
                Ok(ServerHearing::LeftOut)
            }
            _ => Err(HearFault::GivenUp),
        }
    }

    /// Whether a client's line is taken for it: the connection isn't lost, and at most half of the bound is owed.
    pub fn has_credit(&self) -> bool
        ensures { result ≡ true ↔ HasCredit self.now }
    {
        self.loss.is_none() && self.dialogue.output.len() <= self.bound / 2
    }

    /// A client's line is said to its session at that moment. What the session sends is owed to the server, and what else comes of the
    /// line is added to the batch. While there is no credit it isn't said.
    pub fn say(
        &mut self,
        alloc: Global,
        text: &[u8],
        now: Moment,
        batch: &mut Batch,
    ) -> Result<(), SayFault>
        ensures said { OnOk result (IsSaid now text.now
            self.old.host batch.old self.new.host batch.new) }
        ensures credit { OnOk result (HasCredit self.old) }
        ensures later { result ≡ Err saying.Later → (¬ HasCredit self.old) × (self.new ≡ self.old) }
        ensures memory { result ≡ Err saying.NoMemory → self.new ≡ self.old }
        ensures lost { result ≡ Err saying.Lost
            → LosesSaid C.facts now text.now self.old.host self.new.host }
        ensures err { OnErr result (batch.new ≡ batch.old) }
        ensures stands { StandsAsBefore self.old self.new }
    {
        if !self.has_credit() {
            return Err(SayFault::Later);
        }
        match self.dialogue.say(alloc, text, now, batch) {
            Ok(()) => Ok(()),
            Err(ServerStepFault::Again) => Err(SayFault::NoMemory),
            Err(ServerStepFault::Lost) => Err(SayFault::Lost),
        }
    }

    /// Sends what is owed to it, by one write, unless the connection is lost.
    pub fn send(&mut self)
        requires { ∥ IsToldToServer C.facts self.old.host.network self.old.host.serial
            self.old.host.received self.old.host.told ∥₁ }
        ensures host { self.new.host ≡ self.old.host }
        ensures owed { length self.new.owed ≤ length self.old.owed }
        ensures bound { self.new.bound ≡ self.old.bound }
        ensures heard_at { self.new.heard_at ≡ self.old.heard_at }
        ensures lost { is_some self.old.loss ≡ true → self.new ≡ self.old }
    {
        if self.loss.is_some() || self.dialogue.output.is_empty() || !self.is_writable {
            return;
        }
        match self.connection.send(self.dialogue.output.as_bytes()) {
            Ok(0) | Err(Halt::Blocked) => self.is_writable = false,
            Ok(count) => self.dialogue.output.take(count),
            Err(Halt::Closed) => self.lose(ServerLoss::Closed),
        }
    }

    /// Whether it can be sent something at once: something is owed to it, and nothing said that there is no room.
    pub fn can_send(&self) -> bool {
        self.loss.is_none() && !self.dialogue.output.is_empty() && self.is_writable
    }

    /// Sends what is owed to it where that is more than the bound, by as many writes as it takes. Where the server doesn't read enough
    /// of it, the connection is lost.
    pub fn make_room(&mut self)
        requires { ∥ IsToldToServer C.facts self.old.host.network self.old.host.serial
            self.old.host.received self.old.host.told ∥₁ }
        ensures host { self.new.host ≡ self.old.host }
        ensures room { self.new.loss ≡ None → length self.new.owed ≤ self.new.bound }
    {
        // (what tells of room may still be on its way)
        self.is_writable = true;
        for _ in 0..usize::MAX {
            if self.dialogue.output.len() <= self.bound {
                return;
            }
            self.send();
            if self.loss.is_some() || !self.is_writable {
                break;
            }
        }
        self.lose(ServerLoss::Overrun);
    }

    /// The moment at which it is given up, where nothing comes before.
    pub fn silent_at(&self) -> u64
        ensures { result ≡ min (self.now.heard_at + QUIET) (2 ^ 64 - 1) }
    {
        self.heard_at.saturating_add(QUIET)
    }

    /// Why it is to be ended at that moment, where it is: its session is over and what was owed is sent, or the connection is lost and
    /// what came before was heard, or nothing came for too long.
    pub fn is_over(&self, now: u64) -> Option<ServerLoss>
        ensures some { IfSome result (λ why. MayEnd self.now now why) }
        ensures none { result ≡ None → now < self.now.heard_at + QUIET }
    {
        let is_sent = self.dialogue.output.is_empty() || self.loss.is_some();
        if self.dialogue.is_over && is_sent {
            return Some(ServerLoss::Ended);
        }
        if self.is_drained && self.loss.is_some() {
            return self.loss;
        }
        if now.saturating_sub(self.heard_at) >= QUIET {
            return Some(ServerLoss::Silent);
        }
        None
    }

    /// It is gone: the connection is closed, and what is owed is let go. The network's next session goes on from this one.
    pub fn end(self) -> Upstream
        ensures { result.connection ≡ self.host.session }
    {
        let Server { dialogue, .. } = self;
        dialogue.into_session()
    }
}
