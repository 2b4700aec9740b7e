//! A network at the worker that serves it, with the tokens of its connections.
ghost use Rattle.std.specs.Prelude.{◌≡◌};

use hosted_network::HostedNetwork;
use node_ports::{Connection, NetworkView};
use std::alloc::Global;

/// What a worker keeps of a client of a network, beside the client.
#[derive(Clone, Copy)]
pub(crate) struct Attendee {
    /// The token of its connection.
    pub(crate) token: usize,
    /// It rises with each client that the network gets.
    pub(crate) order: u64,
    /// Its next line waits, since too much is owed to the network's server.
    pub(crate) waits: bool,
    /// Its session has ended, and it has so long to take what it is owed.
    pub(crate) is_leaving: bool,
}

/// A network at the worker that serves it.
#[derive(Drop)]
pub(crate) struct Hosting<'a, C: Connection, V: NetworkView> {
    pub(crate) network: HostedNetwork<'a, C, V>,
    /// In the order of the network's clients.
    pub(crate) attendees: Vec<Attendee>,
    /// The token of the server's connection.
    pub(crate) server: Option<usize>,
    /// Whether the operator was told that the network is up.
    pub(crate) is_up: bool,
    /// Whether clients can be sent more at once.
    pub(crate) has_unsent: bool,
    // the order of the next client
    next: u64,
}

impl<'a, C: Connection, V: NetworkView> Hosting<'a, C, V> {
    /// Nobody is there.
    pub(crate) fn new(alloc: Global, network: HostedNetwork<'a, C, V>) -> Hosting<'a, C, V> {
        Hosting {
            network,
            attendees: Vec::new(alloc),
            server: None,
            is_up: false,
            has_unsent: false,
            next: 0,
        }
    }

    /// There is room for one more client.
    pub(crate) fn make_room(&mut self) -> bool {
        self.attendees.reserve(1).is_ok()
    }

    /// A further client is there, at the last place, whose connection has that token. Its order is answered.
    pub(crate) fn note_client(&mut self, token: usize) -> u64 {
        let order = self.next;
        self.next = order.saturating_add(1);
        let _ = self.attendees.push(Attendee {
            token,
            order,
            waits: false,
            is_leaving: false,
        });
        order
    }

    /// The place of the client of that order.
    pub(crate) fn place_of(&self, order: u64) -> Option<usize> {
        let found = self
            .attendees
            .binary_search_by(|attendee| attendee.order.cmp(&order));
        match found {
            Ok(place) => Some(place),
            Err(_) => None,
        }
    }
}
