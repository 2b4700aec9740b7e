//! The turns of a network's clients.
ghost use Rattle.std.specs.Prelude.{◌≡◌, ◌≢◌, ◌↔◌, ◌<◌, [], Some, length, slice_get, true};
ghost use Rattle.network_log.specs.Guest.{Guest};
ghost use Rattle.network_log.specs.Truth.{IsReached, Leads};
ghost use Rattle.hosted_network.specs.declared.turns.ClientTurn.TheVariants as turns;

use crate::parts::NetworkParts;
use chat_change::Moment;
use client_session::Effect;
use network_client::{Fall, Feeders, Filled};
use node_ports::{Connection, NetworkView, NodePass};

/// So many things are done for a client in one turn.
const STEPS: usize = 64;

/// By so many writes a client is sent what it is owed, where all clients are.
const WRITES: usize = 4;

/// What the turns of clients work with.
#[derive(Drop)]
pub struct Tools {
    /// Room for what a connection gives.
    pub chunk: Vec<u8>,
    /// Feeders that are lent to clients.
    pub feeders: Feeders,
    /// Room for the text of an answer.
    pub room: Vec<u8>,
}

/// What a client's turn came to.
#[derive(Clone, Copy, Debug, PartialEq, Eq)]
pub enum ClientTurn {
    /// There is more to do at once.
    Again,
    /// There is nothing more before the port tells something.
    Rest,
    /// Its line waits, since too much is owed to the network's server.
    Waits,
    /// It sends nothing more, and leaves once it was told all.
    Ending,
    /// It is gone, and leaves.
    Gone,
}

// What is next of what a client's last line came to.
#[derive(Clone, Copy, PartialEq, Eq)]
enum Act {
    Say,
    Ask,
    Put,
    Speak,
    Close,
    Nothing,
}

fn act_of(effect: Option<&Effect>) -> Act {
    match effect {
        Some(Effect::Send(_)) => Act::Say,
        Some(Effect::Ask(_)) => Act::Ask,
        Some(Effect::Put(_)) => Act::Put,
        Some(Effect::Upstream(_)) => Act::Speak,
        Some(Effect::Close) => Act::Close,
        None => Act::Nothing,
    }
}

impl<'a, C: Connection, V: NetworkView> NetworkParts<'a, C, V> {
    // The answer to a client's question, which is next of what it has to do, waits for it. What came of the server's lines, and of
    // clients' own, is put first, so that the answer has what the client itself said.
    fn client_is_answered<N: NodePass<Connection = C, View = V>>(
        &mut self,
        place: usize,
        pass: &mut N,
        room: &mut Vec<u8>,
    )
        requires place { place < length self.old.guests }
        requires reached { ∥ IsReached C.facts self.old ∥₁ }
        ensures leads { ∥ Leads C.facts self.old self.new ∥₁ }
        ensures count { length self.new.guests ≡ length self.old.guests }
    {
        self.flush(pass);
        self.client_asks(place, pass, room);
    }

    // Whether a client that has nothing left to do is to wait: for room for an answer of its own, or, once its session has ended, until
    // it was told all.
    fn is_held_up(&self, place: usize) -> bool
        requires { place < length self.now.guests }
    {
        let client = &self.clients[place];
        client.waits() || client.facts().is_none()
    }

    // A client that has nothing left to do hears its next line, or more bytes are taken in. None where it goes on at once. Nothing is
    // heard while an answer of its own waits for room. (Here and below nobody is told that it is gone: the turn's end says so.)
    fn client_listens<N: NodePass<Connection = C, View = V>>(
        &mut self,
        place: usize,
        pass: &mut N,
        tools: &mut Tools,
    ) -> Option<ClientTurn>
        requires place { place < length self.old.guests }
        requires reached { ∥ IsReached C.facts self.old ∥₁ }
        ensures open { result ≢ Some turns.Gone }
        ensures leads { ∥ Leads C.facts self.old self.new ∥₁ }
        ensures count { length self.new.guests ≡ length self.old.guests }
    {
        if self.is_held_up(place) {
            return Some(ClientTurn::Rest);
        }
        if self.client_hears(place, pass) {
            return None;
        }
        self.client_takes_in(place, tools)
    }

    // More bytes of a client are taken in. None where there were some.
    fn client_takes_in(&mut self, place: usize, tools: &mut Tools) -> Option<ClientTurn>
        requires { place < length self.old.guests }
        ensures open { result ≢ Some turns.Gone }
        ensures leads { ∥ Leads C.facts self.old self.new ∥₁ }
        ensures count { length self.new.guests ≡ length self.old.guests }
    {
        match self.client_reads(place, tools.chunk.as_mut_slice(), &mut tools.feeders) {
            Filled::More => None,
            Filled::Nothing | Filled::NoMemory => Some(ClientTurn::Rest),
            Filled::Closed => {
                let (owed, _) = self.clients[place].owed();
                if owed > 0 {
                    return Some(ClientTurn::Ending);
                }
                self.client_falls(place, Fall::Closed);
                Some(ClientTurn::Rest)
            }
        }
    }

    // What is next of what a client has to do is done. None where it goes on at once.
    fn client_step<N: NodePass<Connection = C, View = V>>(
        &mut self,
        place: usize,
        pass: &mut N,
        tools: &mut Tools,
        moment: Moment,
    ) -> Option<ClientTurn>
        requires place { place < length self.old.guests }
        requires clock { ∥ C.facts.clock moment ∥₁ }
        requires reached { ∥ IsReached C.facts self.old ∥₁ }
        ensures open { result ≢ Some turns.Gone }
        ensures leads { ∥ Leads C.facts self.old self.new ∥₁ }
        ensures count { length self.new.guests ≡ length self.old.guests }
    {
        if self.clients[place].is_gone() {
            return Some(ClientTurn::Rest);
        }
        match act_of(self.clients[place].next_effect()) {
            Act::Say => self.client_says(place),
            Act::Ask => self.client_is_answered(place, pass, &mut tools.room),
            Act::Put => self.client_marks(place, pass),
            Act::Close => {
                self.client_closes(place);
            }
            Act::Speak => {
                let parts = self.batch.parts().len();
                if !self.client_speaks(place, moment) {
                    return Some(ClientTurn::Waits);
                }
                self.count_line(parts);
                if self.is_long() {
                    self.flush(pass);
                }
            }
            Act::Nothing => return self.client_listens(place, pass, tools),
        }
        None
    }

    // So many things are done for a client.
    fn client_steps<N: NodePass<Connection = C, View = V>>(
        &mut self,
        place: usize,
        pass: &mut N,
        tools: &mut Tools,
        moment: Moment,
    ) -> ClientTurn
        requires place { place < length self.old.guests }
        requires clock { ∥ C.facts.clock moment ∥₁ }
        requires reached { ∥ IsReached C.facts self.old ∥₁ }
        ensures open { result ≢ turns.Gone }
        ensures leads { ∥ Leads C.facts self.old self.new ∥₁ }
        ensures count { length self.new.guests ≡ length self.old.guests }
    {
        for _ in 0..STEPS {
            if let Some(turn) = self.client_step(place, pass, tools, moment) {
                return turn;
            }
        }
        ClientTurn::Again
    }

    // Whether the session of a client has ended, and it was told all.
    fn was_told_all(&self, place: usize) -> bool
        requires { place < length self.now.guests }
    {
        let client = &self.clients[place];
        let (owed, _) = client.owed();
        client.facts().is_none() && !client.is_busy() && !client.waits() && owed == 0
    }

    // Whether a client can be sent something at once: what it is owed, or what waits for it where nothing is owed.
    fn can_be_sent(&self, place: usize) -> bool
        requires { place < length self.now.guests }
    {
        let client = &self.clients[place];
        let (owed, _) = client.owed();
        client.can_send() || (owed == 0 && client.waits() && !client.is_gone())
    }

    // A client whose session has ended is gone once it was told all.
    fn client_ends(&mut self, place: usize)
        requires { place < length self.old.guests }
        ensures batch { self.new.batch ≡ self.old.batch }
        ensures leads { ∥ Leads C.facts self.old self.new ∥₁ }
        ensures count { length self.new.guests ≡ length self.old.guests }
    {
        if self.was_told_all(place) {
            self.client_falls(place, Fall::Ended);
        }
    }

    // The first of what waits for a client goes to its ring, and what it is owed goes out, by one write. One whose session has ended is
    // gone once it was told all. Answers whether something of what waited has gone to the ring.
    fn client_takes(&mut self, place: usize) -> bool
        requires place { place < length self.old.guests }
        requires reached { ∥ IsReached C.facts self.old ∥₁ }
        ensures batch { self.new.batch ≡ self.old.batch }
        ensures leads { ∥ Leads C.facts self.old self.new ∥₁ }
        ensures count { length self.new.guests ≡ length self.old.guests }
    {
        let has_moved = self.client_offers(place);
        self.client_sends(place);
        self.client_ends(place);
        has_moved
    }

    // What a client's turn came to, once it took what it was owed. Where what waited for it has gone out, it goes on at once: nothing
    // else might tell that it can.
    fn turn_after(&self, place: usize, turn: ClientTurn, has_moved: bool) -> ClientTurn
        requires place { place < length self.now.guests }
        requires open { turn ≢ turns.Gone }
        ensures { (g : Guest) → slice_get self.now.guests place ≡ Some g
            → (result ≡ turns.Gone ↔ g.is_gone ≡ true) }
    {
        let client = &self.clients[place];
        if client.is_gone() {
            return ClientTurn::Gone;
        }
        let (owed, _) = client.owed();
        let may_go_on = has_moved || turn == ClientTurn::Ending;
        if self.can_be_sent(place) || (may_go_on && owed == 0) {
            return ClientTurn::Again;
        }
        turn
    }

    /// A client has its turn: what comes over its connection is heard, so many lines at most, what they come to is done and told to the
    /// others, and what it is owed goes out.
    pub(crate) fn client_turn<N: NodePass<Connection = C, View = V>>(
        &mut self,
        place: usize,
        pass: &mut N,
        tools: &mut Tools,
        moment: Moment,
    ) -> ClientTurn
        requires place { place < length self.old.guests }
        requires clock { ∥ C.facts.clock moment ∥₁ }
        requires reached { ∥ IsReached C.facts self.old ∥₁ }
        ensures leads { ∥ Leads C.facts self.old self.new ∥₁ }
        ensures put { self.new.batch ≡ [] }
        ensures gone { (g : Guest) → slice_get self.new.guests place ≡ Some g
            → (result ≡ turns.Gone ↔ g.is_gone ≡ true) }
        ensures count { length self.new.guests ≡ length self.old.guests }
    {
        let turn = self.client_steps(place, pass, tools, moment);
        self.flush(pass);
        let has_moved = self.client_takes(place);
        self.turn_after(place, turn, has_moved)
    }

    // A client is offered what waits and sent what it is owed, by so many writes. Whether it can be sent more at once.
    fn client_is_sent(&mut self, place: usize) -> bool
        requires place { place < length self.old.guests }
        requires reached { ∥ IsReached C.facts self.old ∥₁ }
        ensures leads { ∥ Leads C.facts self.old self.new ∥₁ }
        ensures count { length self.new.guests ≡ length self.old.guests }
    {
        for _ in 0..WRITES {
            if !self.can_be_sent(place) {
                return false;
            }
            self.client_takes(place);
        }
        self.can_be_sent(place)
    }

    /// Each client that can be sent something is offered what waits and sent what it is owed, by so many writes. Whether some client
    /// can be sent more at once.
    pub(crate) fn clients_send(&mut self) -> bool
        requires { ∥ IsReached C.facts self.old ∥₁ }
        ensures leads { ∥ Leads C.facts self.old self.new ∥₁ }
        ensures count { length self.new.guests ≡ length self.old.guests }
    {
        let mut has_more = false;
        for place in 0..self.clients.len() {
            if self.client_is_sent(place) {
                has_more = true;
            }
        }
        has_more
    }
}
