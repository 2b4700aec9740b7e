//! The clients of a network.
ghost use Rattle.std.specs.Prelude.{◌≡◌, ◌≢◌, ◌↔◌, ◌<◌, ◌+◌, [], Some, slice_get, slice_set, false, true, length};
ghost use Rattle.network_log.specs.Guest.{Guest, fallen};
ghost use Rattle.network_log.specs.Truth.{Leads};
ghost use Rattle.hosted_network.specs.Parts.{those_there};
ghost use Rattle.hosted_network.specs.declared.turns.ClientTurn.TheVariants as turn;
ghost use Rattle.hosted_network.specs.declared.arriving.Entered.TheVariants as entered;

use crate::arriving::Entered;
use crate::network::HostedNetwork;
use crate::turns::{ClientTurn, Tools};
use chat_change::Moment;
use client_session::Directory;
use network_client::{Client, Fall, Newcomer};
use node_ports::{Connection, NetworkView, NodePass};

impl<'a, C: Connection, V: NetworkView> HostedNetwork<'a, C, V> {
    /// How many clients are there. Their places go on from 0, in the order in which they came.
    pub fn client_count(&self) -> usize
        ensures { result ≡ length self.now.network.guests }
    {
        self.parts.client_count()
    }

    /// The client at that place.
    pub fn client(&self, place: usize) -> &Client<C>
        requires { place < length self.now.network.guests }
        ensures { slice_get self.now.network.guests place ≡ Some result.now }
    {
        self.parts.client(place)
    }

    /// What the port tells of a client's connection: bytes may be there, or room for bytes.
    pub fn mark_client(&mut self, place: usize, is_readable: bool, is_writable: bool)
        requires { place < length self.old.network.guests }
        ensures { self.new ≡ self.old }
    {
        self.parts.mark_client(place, is_readable, is_writable);
    }

    /// A newcomer hears its next line here. It is a client of the network, at the last place, once its session is registered with the
    /// network's account and name, and a newcomer until then.
    pub fn newcomer_hears(&mut self, accounts: &Directory, newcomer: Newcomer<C>) -> Entered<C>
        requires accounts { accounts.now ≡ C.facts.accounts.directory }
        requires there { newcomer.is_gone ≡ false }
        requires done { newcomer.todo ≡ [] }
        ensures leads { ∥ Leads C.facts self.old.network self.new.network ∥₁ }
        ensures client { result ≡ entered.Client
            → length self.new.network.guests ≡ length self.old.network.guests + 1 }
        ensures others { result ≢ entered.Client
            → length self.new.network.guests ≡ length self.old.network.guests }
        ensures retry { self.new.retry ≡ self.old.retry }
    {
        self.parts.newcomer_hears(accounts, newcomer)
    }

    /// A client has its turn: what comes over its connection is heard, so many lines at most, what they come to is done, put and told to
    /// the others, and what it is owed goes out. What a client says is put before it is answered anything.
    pub fn client_turn<N: NodePass<Connection = C, View = V>>(
        &mut self,
        place: usize,
        pass: &mut N,
        tools: &mut Tools,
        moment: Moment,
    ) -> ClientTurn
        requires place { place < length self.old.network.guests }
        requires clock { ∥ C.facts.clock moment ∥₁ }
        ensures leads { ∥ Leads C.facts self.old.network self.new.network ∥₁ }
        ensures put { self.new.network.batch ≡ [] }
        ensures gone { (g : Guest) → slice_get self.new.network.guests place ≡ Some g
            → (result ≡ turn.Gone ↔ g.is_gone ≡ true) }
        ensures count { length self.new.network.guests ≡ length self.old.network.guests }
        ensures retry { self.new.retry ≡ self.old.retry }
    {
        self.parts.client_turn(place, pass, tools, moment)
    }

    /// Each client that can be sent something is offered what waits for it and sent what it is owed, by a few writes. Whether some client
    /// can be sent more at once.
    pub fn clients_send(&mut self) -> bool
        ensures leads { ∥ Leads C.facts self.old.network self.new.network ∥₁ }
        ensures count { length self.new.network.guests ≡ length self.old.network.guests }
        ensures retry { self.new.retry ≡ self.old.retry }
    {
        self.parts.clients_send()
    }

    /// What came of clients' own lines is put by one call, and only then told to each client.
    pub fn flush<N: NodePass<Connection = C, View = V>>(&mut self, pass: &mut N)
        ensures leads { ∥ Leads C.facts self.old.network self.new.network ∥₁ }
        ensures empty { self.new.network.batch ≡ [] }
        ensures count { length self.new.network.guests ≡ length self.old.network.guests }
        ensures retry { self.new.retry ≡ self.old.retry }
    {
        self.parts.flush(pass);
    }

    /// A client is gone from now on, for that reason unless it was gone before.
    pub fn client_falls(&mut self, place: usize, why: Fall)
        requires { place < length self.old.network.guests }
        ensures falls { (g : Guest) → slice_get self.old.network.guests place ≡ Some g
            → self.new.network ≡ record self.old.network {
              guests = slice_set self.old.network.guests place (fallen g);
            } }
        ensures leads { ∥ Leads C.facts self.old.network self.new.network ∥₁ }
        ensures count { length self.new.network.guests ≡ length self.old.network.guests }
        ensures retry { self.new.retry ≡ self.old.retry }
    {
        self.parts.client_falls(place, why);
    }

    /// Who is gone leaves.
    pub fn clients_leave(&mut self)
        ensures left { self.new.network ≡ record self.old.network {
          guests = those_there self.old.network.guests;
        } }
        ensures leads { ∥ Leads C.facts self.old.network self.new.network ∥₁ }
        ensures retry { self.new.retry ≡ self.old.retry }
    {
        self.parts.clients_leave();
    }

    /// Each client that follows read markers is told that of the target, where the node's is further than the one that all were told
    /// last (IRCv3 draft/read-marker).
    pub fn inform<N: NodePass<Connection = C, View = V>>(&mut self, pass: &mut N, target: &[u8])
        ensures leads { ∥ Leads C.facts self.old.network self.new.network ∥₁ }
        ensures retry { self.new.retry ≡ self.old.retry }
    {
        self.parts.inform(pass, target);
    }
}
