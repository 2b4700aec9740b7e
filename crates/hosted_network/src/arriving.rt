//! How newcomers become clients of a network.
ghost use Rattle.std.specs.Prelude.{◌≡◌, ◌≢◌, ◌+◌, [], None, length, true, false};
ghost use Rattle.network_client.specs.Naming.{is_for_item};
ghost use Rattle.network_log.specs.Guest.{next_item};
ghost use Rattle.network_log.specs.NetworkState.{entry_of};
ghost use Rattle.network_log.specs.Truth.{IsArrived, IsReached, Leads};
ghost use Rattle.hosted_network.specs.declared.arriving.Entered.TheVariants as entered;

use crate::parts::NetworkParts;
use client_session::Directory;
use network_client::{Client, Gone, Newcomer};
use network_laws::a_network_is_as_configured;
use node_ports::{Connection, NetworkView};

/// What became of a newcomer that heard a line at a network.
#[derive(Drop)]
pub enum Entered<C: Connection> {
    /// It is a client of the network, at the last place.
    Client,
    /// It isn't registered yet.
    Newcomer(Newcomer<C>),
    /// Its connection is closed.
    Gone(Gone),
}

impl<'a, C: Connection, V: NetworkView> NetworkParts<'a, C, V> {
    /// A newcomer hears its next line here, by the accounts as they are configured. It is a client of the network once its session is
    /// registered with its account and network.
    pub(crate) fn newcomer_hears(
        &mut self,
        accounts: &Directory,
        newcomer: Newcomer<C>,
    ) -> Entered<C>
        requires accounts { accounts.now ≡ C.facts.accounts.directory }
        requires there { newcomer.is_gone ≡ false }
        requires done { newcomer.todo ≡ [] }
        requires reached { ∥ IsReached C.facts self.old ∥₁ }
        ensures leads { ∥ Leads C.facts self.old self.new ∥₁ }
        ensures client { result ≡ entered.Client
            → length self.new.guests ≡ length self.old.guests + 1 }
        ensures others { result ≢ entered.Client
            → length self.new.guests ≡ length self.old.guests }
    {
        let mut newcomer = newcomer;
        let Ok(is_for) = newcomer.is_for(self.config) else {
            return Entered::Gone(Gone::NoMemory);
        };
        if is_for {
            return self.newcomer_enters(accounts, newcomer);
        }
        match newcomer.hear(self.alloc, accounts) {
            Ok(newcomer) => Entered::Newcomer(newcomer),
            Err(gone) => Entered::Gone(gone),
        }
    }

    // The same of one whose session is to be registered here.
    fn newcomer_enters(&mut self, accounts: &Directory, newcomer: Newcomer<C>) -> Entered<C>
        requires accounts { accounts.now ≡ C.facts.accounts.directory }
        requires there { newcomer.is_gone ≡ false }
        requires done { newcomer.todo ≡ [] }
        requires named { is_for_item self.old.config newcomer.session
            (next_item newcomer.received newcomer.heard) ≡ true }
        requires reached { ∥ IsReached C.facts self.old ∥₁ }
        ensures leads { ∥ Leads C.facts self.old self.new ∥₁ }
        ensures client { result ≡ entered.Client
            → length self.new.guests ≡ length self.old.guests + 1 }
        ensures others { result ≢ entered.Client
            → length self.new.guests ≡ length self.old.guests }
    {
        a_network_is_as_configured::<C>();
        let Ok(directory) = self.own_directory(accounts) else {
            return Entered::Gone(Gone::NoMemory);
        };
        match newcomer.enter(self.alloc, &directory, self.config) {
            Ok(Ok(client)) => self.client_comes(client),
            Ok(Err(newcomer)) => Entered::Newcomer(newcomer),
            Err(gone) => Entered::Gone(gone),
        }
    }

    // A client is there, as it was let in. For want of memory it is let go.
    fn client_comes(&mut self, client: Client<C>) -> Entered<C>
        requires arrived { ∥ IsArrived C.facts self.old.config (entry_of self.old) client ∥₁ }
        requires free { client.joined ≡ None }
        ensures leads { ∥ Leads C.facts self.old self.new ∥₁ }
        ensures client { result ≡ entered.Client
            → length self.new.guests ≡ length self.old.guests + 1 }
        ensures others { result ≢ entered.Client
            → length self.new.guests ≡ length self.old.guests }
    {
        let mut client = client;
        let Some(joins) = self.joins.checked_add(1) else {
            return Entered::Gone(Gone::NoMemory);
        };
        client.join(self.view.place(), self.joins);
        let Ok(()) = self.clients.push(client) else {
            return Entered::Gone(Gone::NoMemory);
        };
        self.joins = joins;
        Entered::Client
    }
}
