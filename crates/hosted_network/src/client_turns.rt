//! The turns of clients.
ghost use Rattle.std.specs.Prelude.{◌≡◌, ◌<◌, ◌≤◌, Some, length, remove, slice_get, slice_set, true, false};
ghost use Rattle.network_log.specs.Guest.{Guest, fallen};
ghost use Rattle.network_log.specs.Truth.{IsReached, Leads};
ghost use Rattle.client_session.specs.declared.effect.Effect.TheVariants.{Close};
ghost use Rattle.hosted_network.specs.Parts.{IsOnlyAt, those_there};
ghost use Rattle.hosted_network.specs.Speaking.{IsLetGo, IsSpoken, IsSpokenInVain};
ghost use Rattle.hosted_network.specs.declared.client_turns.Said.TheVariants as said;

use crate::parts::NetworkParts;
use chat_change::Moment;
use client_session::Effect;
use network_client::{Client, Fall, Feeders, Filled};
use network_server::{Batch, SayFault, Server};
use node_ports::{Connection, Halt, NetworkView};
use std::alloc::Global;

// What came of a client's line for the server.
#[derive(Clone, Copy, PartialEq, Eq)]
enum Said {
    // It is said.
    Yes,
    // It waits: too much is owed to the server for now. Or none is next.
    Later,
    // There was no memory.
    No,
    // It is said, and there was no memory for what it comes to.
    Lost,
}

// The line for the server, where that is next of what the client has to do, is said to it.
fn say_next<C: Connection>(
    alloc: Global,
    client: &mut Client<C>,
    server: &mut Server<C>,
    batch: &mut Batch,
    moment: Moment,
) -> Said
    ensures yes { result ≡ said.Yes → IsSpoken moment client.old server.old.host batch.old
        client.new server.new.host batch.new }
    ensures lost { result ≡ said.Lost → IsSpokenInVain C.facts moment client.old server.old.host
        client.new server.new.host }
    ensures later { result ≡ said.Later → (client.new ≡ client.old) × (server.new ≡ server.old)
        × (batch.new ≡ batch.old) }
    ensures no { result ≡ said.No → (client.new ≡ client.old) × (server.new ≡ server.old)
        × (batch.new ≡ batch.old) }
{
    if client.is_gone() {
        return Said::Later;
    }
    let Some(Effect::Upstream(text)) = client.next_effect() else {
        return Said::Later;
    };
    match server.say(alloc, text.as_bytes(), moment, batch) {
        Ok(()) => {
            client.effect_done();
            Said::Yes
        }
        Err(SayFault::Later) => Said::Later,
        Err(SayFault::NoMemory) => Said::No,
        Err(SayFault::Lost) => {
            client.effect_done();
            Said::Lost
        }
    }
}

// The same where no server is there: the line is let go. False where no such line is next.
fn say_to_none<C: Connection>(client: &mut Client<C>) -> bool
    ensures yes { result ≡ true → IsLetGo client.old client.new }
    ensures no { result ≡ false → client.new ≡ client.old }
{
    if client.is_gone() {
        return false;
    }
    let Some(Effect::Upstream(_)) = client.next_effect() else {
        return false;
    };
    client.effect_done();
    true
}

impl<'a, C: Connection, V: NetworkView> NetworkParts<'a, C, V> {
    /// How many clients are there.
    pub(crate) fn client_count(&self) -> usize
        ensures { result ≡ length self.now.guests }
    {
        self.clients.len()
    }

    /// The client at that place.
    pub(crate) fn client(&self, place: usize) -> &Client<C>
        requires { place < length self.now.guests }
        ensures { slice_get self.now.guests place ≡ Some result.now }
    {
        &self.clients[place]
    }

    /// What the port tells of a client's connection: bytes may be there, or room for bytes.
    pub(crate) fn mark_client(&mut self, place: usize, is_readable: bool, is_writable: bool)
        requires { place < length self.old.guests }
        ensures { self.new ≡ self.old }
    {
        self.clients[place].mark(is_readable, is_writable);
    }

    /// A client is gone from now on, for that reason unless it was gone before.
    pub(crate) fn client_falls(&mut self, place: usize, why: Fall)
        requires { place < length self.old.guests }
        ensures falls { (g : Guest) → slice_get self.old.guests place ≡ Some g
            → self.new ≡ record self.old { guests = slice_set self.old.guests place (fallen g) } }
        ensures batch { self.new.batch ≡ self.old.batch }
        ensures leads { ∥ Leads C.facts self.old self.new ∥₁ }
        ensures count { length self.new.guests ≡ length self.old.guests }
    {
        self.clients[place].fall(why);
    }

    /// Takes in what comes over a client's connection. It is gone where there is no memory for that.
    pub(crate) fn client_reads(
        &mut self,
        place: usize,
        chunk: &mut [u8],
        feeders: &mut Feeders,
    ) -> Filled
        requires { place < length self.old.guests }
        ensures leads { ∥ Leads C.facts self.old self.new ∥₁ }
        ensures alone { IsOnlyAt place self.old self.new }
        ensures count { length self.new.guests ≡ length self.old.guests }
    {
        self.clients[place].fill(chunk, feeders)
    }

    /// All that a client's session says itself waits for it, up to where something else is to be done. It is gone where there is no
    /// memory for that.
    pub(crate) fn client_says(&mut self, place: usize)
        requires { place < length self.old.guests }
        ensures leads { ∥ Leads C.facts self.old self.new ∥₁ }
        ensures alone { IsOnlyAt place self.old self.new }
        ensures count { length self.new.guests ≡ length self.old.guests }
    {
        let client = &mut self.clients[place];
        if client.is_gone() {
            return;
        }
        let _ = client.say_all();
    }

    /// Whether a client's session ends, which is next. That is done with this.
    pub(crate) fn client_closes(&mut self, place: usize) -> bool
        requires { place < length self.old.guests }
        ensures closing { result ≡ true → (g : Guest) → slice_get self.old.guests place ≡ Some g
            → slice_get g.todo 0 ≡ Some Close }
        ensures leads { ∥ Leads C.facts self.old self.new ∥₁ }
        ensures alone { IsOnlyAt place self.old self.new }
        ensures count { length self.new.guests ≡ length self.old.guests }
    {
        let client = &mut self.clients[place];
        if client.is_gone() {
            return false;
        }
        client.close()
    }

    /// The first of what waits for a client goes to its ring, as there is room: whether something does. It is gone where that exceeds
    /// the bound.
    pub(crate) fn client_offers(&mut self, place: usize) -> bool
        requires { place < length self.old.guests }
        ensures leads { ∥ Leads C.facts self.old self.new ∥₁ }
        ensures alone { IsOnlyAt place self.old self.new }
        ensures count { length self.new.guests ≡ length self.old.guests }
    {
        match self.clients[place].offer() {
            Ok(count) => count > 0,
            Err(_) => false,
        }
    }

    /// Sends what a client is owed, by one write. It is gone where its connection is closed.
    pub(crate) fn client_sends(&mut self, place: usize)
        requires place { place < length self.old.guests }
        requires reached { ∥ IsReached C.facts self.old ∥₁ }
        ensures leads { ∥ Leads C.facts self.old self.new ∥₁ }
        ensures alone { IsOnlyAt place self.old self.new }
        ensures count { length self.new.guests ≡ length self.old.guests }
    {
        let Err(halt) = self.clients[place].pump() else {
            return;
        };
        if halt == Halt::Closed {
            self.client_falls(place, Fall::Closed);
        }
    }

    /// The line for the server, which is next of what a client has to do, is said to it at that moment. Where none is there it is let
    /// go. False where it waits, since too much is owed to the server, or where no such line is next.
    pub(crate) fn client_speaks(&mut self, place: usize, moment: Moment) -> bool
        requires place { place < length self.old.guests }
        requires clock { ∥ C.facts.clock moment ∥₁ }
        ensures later { result ≡ false → self.new ≡ self.old }
        ensures leads { ∥ Leads C.facts self.old self.new ∥₁ }
        ensures count { length self.new.guests ≡ length self.old.guests }
    {
        let Some(server) = &mut self.server else {
            return say_to_none(&mut self.clients[place]);
        };
        let said = say_next(
            self.alloc,
            &mut self.clients[place],
            server,
            &mut self.batch,
            moment,
        );
        match said {
            Said::Yes => true,
            Said::Later => false,
            Said::No => {
                self.client_falls(place, Fall::NoMemory);
                true
            }
            Said::Lost => {
                self.lose();
                true
            }
        }
    }

    // A client leaves, if it is gone.
    fn let_go(&mut self, place: usize)
        requires { place < length self.old.guests }
        ensures kept { (g : Guest) → slice_get self.old.guests place ≡ Some g
            → g.is_gone ≡ false → self.new ≡ self.old }
        ensures left { (g : Guest) → slice_get self.old.guests place ≡ Some g
            → g.is_gone ≡ true
            → self.new ≡ record self.old { guests = remove self.old.guests place } }
        ensures leads { ∥ Leads C.facts self.old self.new ∥₁ }
        ensures count { place ≤ length self.new.guests }
    {
        if !self.clients[place].is_gone() {
            return;
        }
        self.clients.remove(place);
    }

    /// Who is gone leaves.
    pub(crate) fn clients_leave(&mut self)
        ensures left { self.new ≡ record self.old { guests = those_there self.old.guests } }
        ensures leads { ∥ Leads C.facts self.old self.new ∥₁ }
    {
        let mut place = self.client_count();
        while place > 0 {
            place -= 1;
            self.let_go(place);
        }
    }
}
