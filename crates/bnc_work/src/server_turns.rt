//! The turns of networks' servers.
use crate::reasons::of_server;
use crate::seats::Seat;
use crate::timer::Timer;
use crate::worker::Worker;
use cluster_directory::SessionConfig;
use hosted_network::{ServerEnd, ServerTurn, TurnTime};
use network_client::{Dial, Port};
use node_events::{Event, Reason, Unreached};
use node_ports::{Connection, Fresh};
use worker_pass::WorkPass;

/// Where there was no memory for what a server sent, its next turn is so many milliseconds later.
const PAUSE: u64 = 100;

impl<'a, C, P, N> Worker<'a, C, P, N>
where
    C: Connection,
    P: Port<Connection = C>,
    N: WorkPass<Connection = C>,
{
    /// Dials the server of that network, where that is due by now.
    pub(crate) fn dial_server(&mut self, index: usize) {
        let now = self.now;
        let Some(hosting) = self.networks.get_mut(index) else {
            return;
        };
        if !hosting.network.take_due(now) {
            return;
        }
        let place = hosting.network.place();
        if let Err(why) = self.port.dial(Dial::Network(place)) {
            self.server_unreached(place, why);
        }
    }

    /// The server of the network at that place could not be reached. It is dialed later.
    pub(crate) fn server_unreached(&mut self, place: usize, why: Unreached) {
        let Some(index) = self.index_of(place) else {
            return;
        };
        let Some(hosting) = self.networks.get_mut(index) else {
            return;
        };
        hosting.network.server_unreached(self.now);
        let config = hosting.network.config();
        let event = Event::UpstreamUnreachable {
            account: config.account.as_bytes(),
            network: config.network.as_bytes(),
            address: self.port.target(Dial::Network(place)),
            why,
        };
        self.port.report(&event);
        self.set_server_timer(index);
    }

    // What is due of the network's server next is looked after then.
    fn set_server_timer(&mut self, index: usize) {
        let Some(hosting) = self.networks.get(index) else {
            return;
        };
        if let Some(at) = hosting.network.due_at() {
            self.timers.set(Timer::Server(index), at);
        }
    }

    /// A connection is there that was dialed for the server of the network at that place. Where it can't be used, it is let go, and the
    /// server is dialed later.
    pub(crate) fn server_comes(&mut self, place: usize, fresh: Fresh<C>) {
        let Some(index) = self.index_of(place) else {
            return drop(fresh);
        };
        let Ok(token) = self.seats.insert(Seat::Server { network: index }) else {
            drop(fresh);
            return self.end_server(index, Reason::NoMemory);
        };
        let Fresh { mut connection, .. } = fresh;
        let is_watched = self.port.watch(&mut connection, token).is_ok();
        let fresh = Fresh { connection };
        let Some(hosting) = self.networks.get_mut(index) else {
            self.seats.remove(token);
            return drop(fresh);
        };
        let now = self.now;
        let was = hosting.server.take();
        if !is_watched {
            drop(fresh);
            hosting.network.server_unreached(now);
        } else if hosting.network.server_comes(fresh, now) {
            hosting.server = Some(token);
        }
        let is_there = hosting.server.is_some();
        if let Some(was) = was {
            self.seats.remove(was);
        }
        if is_there {
            self.seats.wake(token);
            return self.set_server_timer(index);
        }
        self.seats.remove(token);
        self.end_server(index, Reason::NoMemory);
    }

    // The session with the network's server is over, or couldn't begin: the operator is told, and by which words the server refused it.
    // It is dialed later.
    fn end_server(&mut self, index: usize, reason: Reason) {
        let Some(hosting) = self.networks.get_mut(index) else {
            return;
        };
        if let Some(token) = hosting.server.take() {
            self.seats.remove(token);
        }
        hosting.is_up = false;
        if hosting.network.due_at().is_none() {
            hosting.network.server_unreached(self.now);
        }
        self.tell_down(index, reason);
        self.set_server_timer(index);
    }

    // The operator is told that the session with the network's server is over, or couldn't begin.
    fn tell_down(&mut self, index: usize, reason: Reason) {
        let Some(hosting) = self.networks.get(index) else {
            return;
        };
        let words = given(hosting.network.refusal());
        let event = down(hosting.network.config(), reason, words);
        self.port.report(&event);
    }

    /// The server of a network has its turn.
    pub(crate) fn serve_server(&mut self, token: usize) {
        let Some(Seat::Server { network }) = self.seats.get(token) else {
            return;
        };
        self.server_turn(network);
    }

    fn server_turn(&mut self, index: usize) {
        let Some(hosting) = self.networks.get_mut(index) else {
            return;
        };
        let time = TurnTime {
            moment: self.moment,
            now: self.now,
        };
        let tools = &mut self.tools;
        let turn = hosting
            .network
            .server_turn(&mut self.pass, tools.chunk.as_mut_slice(), time);
        self.note_up(index);
        match turn {
            ServerTurn::Again => self.wake_server(index),
            ServerTurn::Later => self
                .timers
                .set(Timer::Server(index), self.now.saturating_add(PAUSE)),
            ServerTurn::Rest => self.wake_if_unsent(index),
            ServerTurn::Over(end) => self.end_server(index, of_server(end)),
        }
        self.wake_waiting(index);
        self.after_server_turn(index);
    }

    // Behind a turn of its server what clients were told goes out, and who is gone leaves.
    fn after_server_turn(&mut self, index: usize) {
        let Some(hosting) = self.networks.get_mut(index) else {
            return;
        };
        hosting.has_unsent = hosting.network.clients_send();
        self.clients_leave(index);
    }

    // The server has something to do where it can be sent more at once.
    fn wake_if_unsent(&mut self, index: usize) {
        let Some(hosting) = self.networks.get(index) else {
            return;
        };
        let can_send = match hosting.network.server() {
            Some(server) => server.can_send(),
            None => false,
        };
        if can_send {
            self.wake_server(index);
        }
    }

    fn wake_server(&mut self, index: usize) {
        let Some(hosting) = self.networks.get(index) else {
            return;
        };
        if let Some(token) = hosting.server {
            self.seats.wake(token);
        }
    }

    // The operator is told of a network that is up.
    fn note_up(&mut self, index: usize) {
        let Some(hosting) = self.networks.get_mut(index) else {
            return;
        };
        let is_up = hosting.network.is_up();
        if is_up && !hosting.is_up {
            let config = hosting.network.config();
            self.port.report(&Event::UpstreamUp {
                account: config.account.as_bytes(),
                network: config.network.as_bytes(),
                nick: hosting.network.nick(),
            });
        }
        hosting.is_up = is_up;
    }

    // The clients of the network whose lines wait for its server have something to do, once the server takes lines or is gone.
    fn wake_waiting(&mut self, index: usize) {
        let Some(hosting) = self.networks.get_mut(index) else {
            return;
        };
        if let Some(server) = hosting.network.server() {
            if !server.has_credit() {
                return;
            }
        }
        for place in 0..hosting.attendees.len() {
            let Some(attendee) = hosting.attendees.get_mut(place) else {
                return;
            };
            if attendee.waits {
                attendee.waits = false;
                self.seats.wake(attendee.token);
            }
        }
    }

    /// Something is due of a network's server: it is dialed, or given up where nothing came of it for too long.
    pub(crate) fn look_after_server(&mut self, index: usize) {
        let Some(hosting) = self.networks.get(index) else {
            return;
        };
        if hosting.network.has_server() {
            // (its turn may set it to an earlier moment)
            self.set_server_timer(index);
            return self.server_turn(index);
        }
        self.dial_server(index);
    }
}

fn down<'e>(config: &'e SessionConfig, reason: Reason, words: Option<&'e [u8]>) -> Event<'e> {
    Event::UpstreamDown {
        account: config.account.as_bytes(),
        network: config.network.as_bytes(),
        reason,
        words,
    }
}

// Those words, where there are any.
fn given(words: &[u8]) -> Option<&[u8]> {
    if words.is_empty() { None } else { Some(words) }
}
