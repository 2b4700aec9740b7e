//! The turns of the clients of networks.
use crate::hosting::Attendee;
use crate::reasons::of_client;
use crate::seats::Seat;
use crate::timer::Timer;
use crate::visitor_turns::PATIENCE;
use crate::worker::Worker;
use hosted_network::ClientTurn;
use network_client::{Fall, Port};
use node_events::Event;
use node_ports::Connection;
use worker_pass::WorkPass;

impl<'a, C, P, N> Worker<'a, C, P, N>
where
    C: Connection,
    P: Port<Connection = C>,
    N: WorkPass<Connection = C>,
{
    /// What the port tells of the connection of that token, which has something to do then.
    pub(crate) fn mark(&mut self, token: usize, is_readable: bool, is_writable: bool) {
        match self.seats.get(token) {
            Some(Seat::Visitor(_)) => {
                if let Some(visitor) = self.seats.visitor(token) {
                    visitor.newcomer.mark(is_readable, is_writable);
                }
            }
            Some(Seat::Client { network, order }) => {
                self.mark_client(network, order, is_readable, is_writable);
            }
            Some(Seat::Server { network }) => {
                if let Some(hosting) = self.networks.get_mut(network) {
                    hosting.network.mark_server(is_readable, is_writable);
                }
            }
            Some(Seat::Peer) => {
                if let Some(peers) = &mut self.peers {
                    peers.mark(token, is_readable, is_writable);
                }
                return;
            }
            None => return,
        }
        self.seats.wake(token);
    }

    fn mark_client(&mut self, network: usize, order: u64, is_readable: bool, is_writable: bool) {
        let Some(hosting) = self.networks.get_mut(network) else {
            return;
        };
        let Some(place) = hosting.place_of(order) else {
            return;
        };
        if place < hosting.network.client_count() {
            hosting.network.mark_client(place, is_readable, is_writable);
        }
    }

    /// The client of that token has its turn.
    pub(crate) fn serve(&mut self, token: usize) {
        match self.seats.get(token) {
            Some(Seat::Visitor(_)) => self.serve_visitor(token),
            Some(Seat::Client { network, order }) => self.serve_client(token, network, order),
            Some(Seat::Server { .. } | Seat::Peer) | None => {}
        }
    }

    // A client of a network has its turn.
    fn serve_client(&mut self, token: usize, index: usize, order: u64) {
        let Some(hosting) = self.networks.get_mut(index) else {
            return;
        };
        let Some(place) = hosting.place_of(order) else {
            return;
        };
        if place >= hosting.network.client_count() {
            return;
        }
        let turn = hosting
            .network
            .client_turn(place, &mut self.pass, &mut self.tools, self.moment);
        self.end_client_turn(token, index, place, turn);
        self.after_turn(index);
    }

    fn end_client_turn(&mut self, token: usize, index: usize, place: usize, turn: ClientTurn) {
        if turn == ClientTurn::Again {
            self.seats.wake(token);
        }
        let Some(hosting) = self.networks.get_mut(index) else {
            return;
        };
        let Some(attendee) = hosting.attendees.get_mut(place) else {
            return;
        };
        attendee.waits = turn == ClientTurn::Waits;
        if attendee.is_leaving || place >= hosting.network.client_count() {
            return;
        }
        let is_ending = turn == ClientTurn::Ending;
        if hosting.network.client(place).facts().is_some() && !is_ending {
            return;
        }
        attendee.is_leaving = true;
        let until = self.now.saturating_add(PATIENCE);
        if self.timers.try_set(Timer::Client(token), until).is_err() {
            hosting.network.client_falls(place, Fall::NoMemory);
        }
    }

    /// Behind a turn of one of the network's clients, or of its server: what clients were told goes out, who is gone leaves, and what
    /// is owed to the server goes out at its next turn.
    pub(crate) fn after_turn(&mut self, index: usize) {
        let Some(hosting) = self.networks.get_mut(index) else {
            return;
        };
        hosting.has_unsent = hosting.network.clients_send();
        if let Some(server) = hosting.server {
            self.seats.wake(server);
        }
        self.clients_leave(index);
    }

    /// Clients of networks that can be sent more at once are sent it.
    pub(crate) fn send_unsent(&mut self) {
        for index in 0..self.networks.len() {
            let Some(hosting) = self.networks.get_mut(index) else {
                return;
            };
            if hosting.has_unsent {
                hosting.has_unsent = hosting.network.clients_send();
                self.clients_leave(index);
            }
        }
    }

    /// Those clients of the network that are gone leave. The operator is told.
    pub(crate) fn clients_leave(&mut self, index: usize) {
        let Some(hosting) = self.networks.get(index) else {
            return;
        };
        let count = hosting.network.client_count();
        let mut has_some = false;
        for place in (0..count).rev() {
            has_some |= self.client_leaves(index, place);
        }
        if !has_some {
            return;
        }
        if let Some(hosting) = self.networks.get_mut(index) {
            hosting.network.clients_leave();
        }
    }

    // Whether the client at that place is gone. If so, its seat goes, and the operator is told.
    fn client_leaves(&mut self, index: usize, place: usize) -> bool {
        let Some(hosting) = self.networks.get(index) else {
            return false;
        };
        if place >= hosting.network.client_count() || place >= hosting.attendees.len() {
            return false;
        }
        if !hosting.network.client(place).is_gone() {
            return false;
        }
        self.tell_left(index, place);
        self.leave_attendance(index, place);
        true
    }

    // The operator is told of a client of the network that is gone.
    fn tell_left(&mut self, index: usize, place: usize) {
        let Some(hosting) = self.networks.get(index) else {
            return;
        };
        if place >= hosting.network.client_count() {
            return;
        }
        let client = hosting.network.client(place);
        let config = hosting.network.config();
        let event = Event::ClientOut {
            account: config.account.as_bytes(),
            network: config.network.as_bytes(),
            address: client.connection().address(),
            reason: of_client(client.why()),
        };
        self.port.report(&event);
    }

    // What the worker keeps of the client at that place goes, with its seat and its timer.
    fn leave_attendance(&mut self, index: usize, place: usize) {
        let Some(hosting) = self.networks.get_mut(index) else {
            return;
        };
        if place >= hosting.attendees.len() {
            return;
        }
        let Attendee { token, .. } = hosting.attendees.remove(place);
        self.timers.clear(Timer::Client(token));
        self.seats.remove(token);
    }

    /// A client whose session has ended had long enough to read what it was told last.
    pub(crate) fn client_is_due(&mut self, token: usize) {
        let Some(Seat::Client { network, order }) = self.seats.get(token) else {
            return;
        };
        let Some(hosting) = self.networks.get_mut(network) else {
            return;
        };
        let Some(place) = hosting.place_of(order) else {
            return;
        };
        if place < hosting.network.client_count() {
            hosting.network.client_falls(place, Fall::Ended);
            self.clients_leave(network);
        }
    }

    /// The clients of a network are told the read marker of that target, where it rose (IRCv3 draft/read-marker).
    pub(crate) fn inform(&mut self, network: usize, target: &[u8]) {
        let Some(index) = self.index_of(network) else {
            return;
        };
        let Some(hosting) = self.networks.get_mut(index) else {
            return;
        };
        hosting.network.inform(&mut self.pass, target);
        self.after_turn(index);
    }
}
