//! The turns of a network's server.
ghost use Rattle.std.specs.Prelude.{◌≡◌, ◌≢◌, ℕ, List, None, OnErr, OnOk, [], true, false, is_some, not};
ghost use Rattle.network_log.specs.Log.{ServerComes, ServerGets, run, step, without_server};
ghost use Rattle.network_log.specs.Truth.{IsReached, Leads};
ghost use Rattle.network_log.specs.declared.origin.Origin.TheVariants.{NetworkDialed};
ghost use Rattle.hosted_network.specs.Turns.{events_of, is_over};

use crate::parts::NetworkParts;
use chat_change::Moment;
use network_laws::a_server_is_heard_over_its_own_connection;
use network_server::{HearFault, Server, ServerHearing, ServerLoss, Site};
use node_ports::{Connection, Fresh, NetworkView, NodePass, ReceiveFault};

/// So many lines of a server are taken in one turn: as many as one or two reads bring, so that what they come to is put, and written to
/// each client, at once.
const LINES: usize = 256;

/// When a turn is: what the clocks of the node read.
#[derive(Clone, Copy)]
pub struct TurnTime {
    /// The moment (IRCv3 server-time).
    pub moment: Moment,
    /// Milliseconds, which only go on.
    pub now: u64,
}

/// Why the connection to a server ended.
#[derive(Clone, Copy, Debug, PartialEq, Eq)]
pub enum ServerEnd {
    /// The connection is lost, or the session is over.
    Lost(ServerLoss),
    /// There was no memory for what a line comes to, or the node didn't take all of it.
    NoMemory,
}

/// What a step of a server's turn came to.
#[derive(Clone, Copy, PartialEq, Eq)]
pub(crate) enum Step {
    /// There may be more to do.
    Again,
    /// There may be more to do once there is memory.
    Later,
    /// There is nothing more for now.
    Rest,
    /// The connection is to be ended.
    Over(ServerEnd),
}

impl<'a, C: Connection, V: NetworkView> NetworkParts<'a, C, V> {
    /// The connection to the server is closed, if one is there.
    pub(crate) fn server_goes(&mut self)
        ensures { self.new ≡ without_server self.old.server self.old }
    {
        let Some(server) = self.server.take() else {
            return;
        };
        self.ended = Some(server.end());
    }

    /// A connection is there that was dialed for this network's server, in place of the one before. False for want of memory: it is
    /// let go.
    pub(crate) fn server_comes(&mut self, fresh: Fresh<C>, now: u64) -> bool
        requires { C.origin fresh.connection ≡ NetworkDialed self.old.place }
        ensures comes { result ≡ true → self.new ≡ step C.facts
            (ServerComes (C.serial fresh.connection)) (without_server self.old.server self.old) }
        ensures none { result ≡ false → self.new ≡ without_server self.old.server self.old }
        ensures leads { ∥ Leads C.facts self.old self.new ∥₁ }
    {
        self.server_goes();
        self.server_begins(fresh, now)
    }

    // The same where none is there.
    fn server_begins(&mut self, fresh: Fresh<C>, now: u64) -> bool
        requires origin { C.origin fresh.connection ≡ NetworkDialed self.old.place }
        requires none { self.old.server ≡ None }
        ensures comes { result ≡ true → self.new ≡ step C.facts
            (ServerComes (C.serial fresh.connection)) self.old }
        ensures none { result ≡ false → self.new ≡ self.old }
        ensures leads { ∥ Leads C.facts self.old self.new ∥₁ }
    {
        let Some(joins) = self.joins.checked_add(1) else {
            return false;
        };
        let site = Site {
            place: self.view.place(),
            config: self.config,
            me: self.me,
        };
        let first = self.serial();
        let Ok(server) = Server::new(self.alloc, &site, first, self.joins, now, fresh) else {
            return false;
        };
        self.joins = joins;
        self.server = Some(server);
        true
    }

    // Takes in bytes that come over the server's connection.
    fn server_reads(&mut self, chunk: &mut [u8], now: u64) -> Result<(), ReceiveFault>
        ensures got { OnOk result ((bytes : List ℕ)
            × (self.new ≡ step C.facts (ServerGets bytes) self.old)) }
        ensures none { OnErr result (self.new ≡ self.old) }
        ensures leads { ∥ Leads C.facts self.old self.new ∥₁ }
    {
        let Some(server) = &mut self.server else {
            return Err(ReceiveFault::Closed);
        };
        server.receive(chunk, now)?;
        Ok(())
    }

    // What came of the server's lines is let go: nobody is told, nothing is put, and the connection is closed.
    pub(crate) fn lose(&mut self)
        ensures { self.new ≡ without_server self.old.server (record self.old { batch = [] }) }
    {
        self.batch.clear();
        self.server_goes();
    }

    // Its session hears the server's next line.
    fn server_hears(&mut self, moment: Moment) -> Result<ServerHearing, HearFault>
        requires { ∥ C.facts.clock moment ∥₁ }
        ensures heard { self.new ≡ run C.facts (events_of moment result) self.old }
        ensures leads { ∥ Leads C.facts self.old self.new ∥₁ }
    {
        let Some(server) = &mut self.server else {
            return Ok(ServerHearing::More);
        };
        let heard = server.hear(self.alloc, moment, &mut self.batch);
        if heard == Err(HearFault::Lost) {
            self.lose();
        }
        heard
    }

    // What is owed to the server goes out, where that is too much.
    fn make_room(&mut self)
        requires { ∥ IsReached C.facts self.old ∥₁ }
        ensures { self.new ≡ self.old }
    {
        a_server_is_heard_over_its_own_connection::<C>();
        let Some(server) = &mut self.server else {
            return;
        };
        server.make_room();
    }

    // Takes the server's next line, or more bytes where there is none.
    fn server_step(&mut self, chunk: &mut [u8], time: TurnTime) -> Step
        requires clock { ∥ C.facts.clock time.moment ∥₁ }
        requires reached { ∥ IsReached C.facts self.old ∥₁ }
        ensures { ∥ Leads C.facts self.old self.new ∥₁ }
    {
        match self.server_hears(time.moment) {
            Ok(ServerHearing::Line | ServerHearing::LeftOut) => Step::Again,
            Ok(ServerHearing::Full) => {
                self.make_room();
                Step::Again
            }
            Ok(ServerHearing::More) => match self.server_reads(chunk, time.now) {
                Ok(()) => Step::Again,
                // (the port tells only once that bytes are there)
                Err(ReceiveFault::NoMemory) => Step::Later,
                Err(_) => Step::Rest,
            },
            Err(HearFault::Again) => Step::Later,
            Err(HearFault::GivenUp | HearFault::Lost) => Step::Over(ServerEnd::NoMemory),
        }
    }

    // The same. What came of the lines is put and told once that is much, and once a channel was entered, so that its marker is told as
    // the channel is (IRCv3 draft/read-marker).
    fn server_line<N: NodePass<Connection = C, View = V>>(
        &mut self,
        pass: &mut N,
        chunk: &mut [u8],
        time: TurnTime,
    ) -> Step
        requires clock { ∥ C.facts.clock time.moment ∥₁ }
        requires reached { ∥ IsReached C.facts self.old ∥₁ }
        ensures { ∥ Leads C.facts self.old self.new ∥₁ }
    {
        let parts = self.batch.parts().len();
        let step = self.server_step(chunk, time);
        self.count_line(parts);
        if !self.has_entered() && !self.is_long() {
            return step;
        }
        self.flush(pass);
        step
    }

    // Takes the server's lines, so many at most.
    fn server_lines<N: NodePass<Connection = C, View = V>>(
        &mut self,
        pass: &mut N,
        chunk: &mut [u8],
        time: TurnTime,
    ) -> Step
        requires clock { ∥ C.facts.clock time.moment ∥₁ }
        requires reached { ∥ IsReached C.facts self.old ∥₁ }
        ensures { ∥ Leads C.facts self.old self.new ∥₁ }
    {
        // (the time itself would be moved in the loop)
        let TurnTime { moment, now } = time;
        for _ in 0..LINES {
            let step = self.server_line(pass, chunk, TurnTime { moment, now });
            if step != Step::Again {
                return step;
            }
        }
        Step::Again
    }

    /// Sends what is owed to the server, by one write.
    pub(crate) fn server_sends(&mut self)
        requires { ∥ IsReached C.facts self.old ∥₁ }
        ensures { self.new ≡ self.old }
    {
        a_server_is_heard_over_its_own_connection::<C>();
        let Some(server) = &mut self.server else {
            return;
        };
        server.send();
    }

    // Why the connection to the server is to be ended after such a step, where it is.
    fn server_ending(&self, step: Step, now: u64) -> Option<ServerEnd>
        ensures open { result ≡ None → is_over step ≡ false }
        ensures there { result ≡ None → is_some self.now.server ≡ true }
    {
        if let Step::Over(ending) = step {
            return Some(ending);
        }
        let Some(server) = &self.server else {
            return Some(ServerEnd::NoMemory);
        };
        match server.is_over(now) {
            Some(loss) => Some(ServerEnd::Lost(loss)),
            None => None,
        }
    }

    /// The server has its turn: its lines are heard, what comes of them is put by one call and told, and what is owed to it goes out.
    /// `Over` where the connection is closed, and where there was none.
    pub(crate) fn server_turn<N: NodePass<Connection = C, View = V>>(
        &mut self,
        pass: &mut N,
        chunk: &mut [u8],
        time: TurnTime,
    ) -> Step
        requires clock { ∥ C.facts.clock time.moment ∥₁ }
        requires reached { ∥ IsReached C.facts self.old ∥₁ }
        ensures leads { ∥ Leads C.facts self.old self.new ∥₁ }
        ensures put { self.new.batch ≡ [] }
        ensures over { is_some self.new.server ≡ not (is_over result) }
    {
        let now = time.now;
        let step = self.server_lines(pass, chunk, time);
        self.flush(pass);
        self.server_sends();
        let Some(ending) = self.server_ending(step, now) else {
            return step;
        };
        self.server_goes();
        Step::Over(ending)
    }
}
