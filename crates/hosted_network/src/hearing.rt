//! What clients hear and ask.
ghost use Rattle.std.specs.Prelude.{◌≡◌, ◌<◌, length};
ghost use Rattle.network_log.specs.Truth.{IsReached, Leads};

use crate::parts::NetworkParts;
use crate::standing::{NetworkStanding, nick_in, refresh};
use network_client::Fall;
use network_laws::a_client_stays_in_its_network;
use node_ports::{Connection, NetworkView, NodePass};

impl<'a, C: Connection, V: NetworkView> NetworkParts<'a, C, V> {
    /// The session of a client hears its next line, by its network's own account as the network stands, where one is there and all that
    /// the one before came to is done: whether it did. The client is gone where it can't, for want of memory or since the node couldn't
    /// be asked.
    pub(crate) fn client_hears<N: NodePass<Connection = C, View = V>>(
        &mut self,
        place: usize,
        pass: &mut N,
    ) -> bool
        requires place { place < length self.old.guests }
        requires reached { ∥ IsReached C.facts self.old ∥₁ }
        ensures leads { ∥ Leads C.facts self.old self.new ∥₁ }
        ensures count { length self.new.guests ≡ length self.old.guests }
    {
        a_client_stays_in_its_network::<C>();
        let is_up = self.is_up();
        let takes_redact = self.takes_redact();
        let nick = nick_in(self.config, &self.server, &self.ended);
        let standing = NetworkStanding {
            is_up,
            nick,
            takes_redact,
        };
        let Ok(()) = refresh(self.alloc, self.config, &standing, &mut self.directory) else {
            self.clients[place].fall(Fall::NoMemory);
            return false;
        };
        match self.clients[place].hear(self.alloc, &self.directory, pass, &mut self.view) {
            Ok(heard) => heard,
            Err(_) => false,
        }
    }

    /// The answer to a client's question, which is next of what it has to do, waits for it. The room is for its text. The client is
    /// gone where it can't be answered.
    pub(crate) fn client_asks<N: NodePass<Connection = C, View = V>>(
        &mut self,
        place: usize,
        pass: &mut N,
        room: &mut Vec<u8>,
    )
        requires { place < length self.old.guests }
        ensures leads { ∥ Leads C.facts self.old self.new ∥₁ }
        ensures count { length self.new.guests ≡ length self.old.guests }
    {
        let client = &mut self.clients[place];
        if client.is_gone() {
            return;
        }
        let Err(fault) = client.answer(pass, &mut self.view, room) else {
            return;
        };
        client.fall(Fall::from(fault));
    }
}
