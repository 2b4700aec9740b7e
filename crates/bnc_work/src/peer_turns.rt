//! The turns of peers, and what they bring.
use crate::seats::Seat;
use crate::timer::Timer;
use crate::worker::Worker;
use byte_text::Text;
use chat_change::Buffer;
use gossip_link::Outcome;
use network_client::{Dial, Mail, Port};
use node_events::{Event, Unreached};
use node_peers::{PeerStep, Turn};
use node_ports::{Connection, Fresh};
use std::marker::PhantomData;
use worker_pass::WorkPass;

/// So many lines of a peer are taken before the others have their turn.
const STEPS: usize = 64;

impl<'a, C, P, N> Worker<'a, C, P, N>
where
    C: Connection,
    P: Port<Connection = C>,
    N: WorkPass<Connection = C>,
{
    // What this turn brings to peers.
    fn peers_turn(&self) -> Turn<'a, C> {
        Turn {
            alloc: self.alloc,
            terms: &self.settings.terms,
            at: self.now,
            of: PhantomData,
        }
    }

    /// A connection with another node is there. Where it can't be taken in it is let go.
    pub(crate) fn peer_comes(&mut self, fresh: Fresh<C>) {
        if self.peer_tokens.reserve(1).is_err() {
            return drop(fresh);
        }
        let Ok(token) = self.seats.insert(Seat::Peer) else {
            return drop(fresh);
        };
        let Fresh { mut connection, .. } = fresh;
        if self.port.watch(&mut connection, token).is_err() {
            self.seats.remove(token);
            return drop(connection);
        }
        let fresh = Fresh { connection };
        let turn = self.peers_turn();
        let Some(peers) = &mut self.peers else {
            self.seats.remove(token);
            return drop(fresh);
        };
        peers.begin(&turn, token, fresh, &mut self.port);
        let _ = self.peer_tokens.push(token);
        self.after_peers();
    }

    /// The peer at that place could not be reached. It is dialed later.
    pub(crate) fn peer_unreached(&mut self, place: usize, why: Unreached) {
        let turn = self.peers_turn();
        let address = self.port.target(Dial::Peer(place));
        let Some(peers) = &mut self.peers else {
            return;
        };
        if let Some(node) = peers.name(place) {
            self.port
                .report(&Event::PeerUnreachable { node, address, why });
        }
        peers.put_off(&turn, place);
        self.set_peers_timer();
    }

    /// Dials the peers for which that is due by now.
    pub(crate) fn dial_peers(&mut self) {
        let turn = self.peers_turn();
        for _ in 0..self.settings.peers.len() {
            let Some(peers) = &mut self.peers else {
                return;
            };
            let Some(place) = peers.next_to_dial(&turn) else {
                return;
            };
            if let Err(why) = self.port.dial(Dial::Peer(place)) {
                self.peer_unreached(place, why);
            }
        }
    }

    /// What is due of peers next is looked after then.
    pub(crate) fn set_peers_timer(&mut self) {
        let Some(peers) = &self.peers else {
            return;
        };
        match peers.next_at(self.now) {
            Some(at) => self.timers.set(Timer::Peers, at),
            None => self.timers.clear(Timer::Peers),
        }
    }

    /// What is due of peers by now.
    pub(crate) fn look_after_peers(&mut self) {
        self.dial_peers();
        let turn = self.peers_turn();
        if let Some(peers) = &mut self.peers {
            peers.look_after(&turn, &mut self.pass, &mut self.port);
        }
        self.after_peers();
    }

    // The seats of connections with other nodes that are gone go too, and the timer is set anew.
    fn after_peers(&mut self) {
        for at in (0..self.peer_tokens.len()).rev() {
            self.leave_peer_seat(at);
        }
        self.set_peers_timer();
    }

    fn leave_peer_seat(&mut self, at: usize) {
        let (Some(peers), Some(token)) = (&self.peers, self.peer_tokens.get(at)) else {
            return;
        };
        let token = *token;
        if peers.peer(token).is_none() {
            self.seats.remove(token);
            self.peer_tokens.swap_remove(at);
        }
    }

    /// Those connections with other nodes that have something to do by now have a turn each.
    pub(crate) fn serve_peers(&mut self) {
        let Some(peers) = &self.peers else {
            return;
        };
        for _ in 0..peers.busy_count() {
            let Some(peers) = &mut self.peers else {
                return;
            };
            if let Some(token) = peers.next_busy() {
                self.serve_peer(token);
            }
        }
    }

    // The connection with another node has its turn.
    fn serve_peer(&mut self, token: usize) {
        let mut has_more = true;
        for _ in 0..STEPS {
            match self.peer_step(token) {
                PeerStep::Take => self.take_message(token),
                PeerStep::Again => {}
                PeerStep::Rest => {
                    has_more = false;
                    break;
                }
                PeerStep::Over(loss) => {
                    self.close_peer(token, loss);
                    return self.after_peers();
                }
            }
        }
        self.finish_peer(token, has_more);
        self.after_peers();
    }

    fn peer_step(&mut self, token: usize) -> PeerStep {
        let turn = self.peers_turn();
        let tools = &mut self.tools;
        match &mut self.peers {
            Some(peers) => peers.step(&turn, token, tools.chunk.as_mut_slice()),
            None => PeerStep::Rest,
        }
    }

    fn close_peer(&mut self, token: usize, loss: node_peers::PeerLoss) {
        let turn = self.peers_turn();
        if let Some(peers) = &mut self.peers {
            peers.close(&turn, token, loss, &mut self.port);
        }
    }

    fn finish_peer(&mut self, token: usize, has_more: bool) {
        let turn = self.peers_turn();
        let Some(peers) = &mut self.peers else {
            return;
        };
        peers.finish(&turn, token, has_more, &mut self.port);
    }

    // Carries out the message that came over a connection with a peer. Clients are told of the markers that rose by it.
    fn take_message(&mut self, token: usize) {
        let turn = self.peers_turn();
        if let Some(peers) = &mut self.peers {
            match peers.arrive(&turn, token, &mut self.pass, &mut self.port) {
                // (each peer is to have what the node has by it)
                Some(Outcome::Taken | Outcome::TakenInPart) => {}
                _ => peers.advance(&turn, token, &mut self.pass, &mut self.port),
            }
        }
        self.tell_all_marked();
    }

    // The clients of each buffer of which a peer sent a marker that was further are told it.
    fn tell_all_marked(&mut self) {
        for _ in 0..usize::MAX {
            let Some(buffer) = self.pass.next_marked() else {
                return;
            };
            self.tell_marked(&buffer);
        }
    }

    // The clients of the buffer's network are told its marker, at whichever worker they are.
    fn tell_marked(&mut self, buffer: &Buffer) {
        let accounts = &self.settings.accounts;
        let Some(network) = accounts.place_of(buffer.account(), buffer.network()) else {
            return;
        };
        let worker = self.worker_of(network);
        if worker == self.number {
            return self.inform(network, buffer.target());
        }
        let Ok(target) = Text::new(self.alloc, buffer.target()) else {
            return;
        };
        let mut mail = Some(Mail::Marked { network, target });
        let _ = self.port.send_mail(worker, &mut mail);
    }

    /// Each peer is to have what was put in this turn: the first worker has them, and learns it by one mail from another.
    pub(crate) fn tell_news(&mut self) {
        if !self.pass.take_news() {
            return;
        }
        if self.number == 0 {
            return self.publish_to_peers();
        }
        let mut mail = Some(Mail::Published);
        let _ = self.port.send_mail(0, &mut mail);
    }

    /// Something was published that each peer is to have.
    pub(crate) fn publish_to_peers(&mut self) {
        let turn = self.peers_turn();
        if let Some(peers) = &mut self.peers {
            peers.publish(&turn, &mut self.pass, &mut self.port);
        }
        self.after_peers();
    }
}
