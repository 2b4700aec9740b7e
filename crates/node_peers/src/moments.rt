//! What is due of peers at a moment.
ghost use Rattle.std.specs.Prelude.{◌≡◌, IfSome};
ghost use Rattle.node_peers.specs.PeersState.{seat_at};
ghost use Rattle.node_peers.specs.Seat.{overdue};

use crate::dialing::earlier;
use crate::loss::PeerLoss;
use crate::news::{Operator, PeerNews};
use crate::peers::Peers;
use crate::turn::Turn;
use node_ports::{Connection, NodePass};

impl<C: Connection> Peers<C> {
    /// When something is due next ([`Peers::look_after`], [`Peers::next_to_dial`]).
    pub fn next_at(&self, now: u64) -> Option<u64> {
        let mut at = self.refusals.due_at();
        for record in self.records.iter() {
            at = earlier(at, record.dialing.next_at());
        }
        for (_, entry) in self.entries.iter() {
            at = earlier(at, entry.next_at(now));
        }
        at
    }

    /// What is due by now. A connection over which no peer says hello in time is closed, and one over which nothing came for five
    /// minutes, or whose peer acknowledges nothing. A packet that waited long enough is made again, and the own hello is said again
    /// where nothing else was. The operator is told of peers that are level, and of those with which there is no connection.
    pub fn look_after<N: NodePass<Connection = C>, O: Operator>(
        &mut self,
        turn: &Turn<'_, C>,
        pass: &mut N,
        operator: &mut O,
    ) {
        self.tell_absent(turn, operator);
        if let Some(count) = self.refusals.take_untold(turn.at) {
            operator.tell(&PeerNews::MoreRefused { count });
        }
        let mut from = 0;
        for _ in 0..usize::MAX {
            let Some(number) = self.first_from(from) else {
                return;
            };
            self.look_at(turn, number, pass, operator);
            let Some(next) = number.checked_add(1) else {
                return;
            };
            from = next;
        }
    }

    /// The first number of a connection from that one on.
    pub(crate) fn first_from(&self, from: usize) -> Option<usize> {
        match self.entries.range(from..).next() {
            Some((number, _)) => Some(*number),
            None => None,
        }
    }

    // The operator is told of the peers to which this node opens connections, and with which there was none for too long.
    fn tell_absent<O: Operator>(&mut self, turn: &Turn<'_, C>, operator: &mut O) {
        for place in 0..self.records.len() {
            if self.take_absence(place, turn.at) {
                if let Some(node) = self.name(place) {
                    operator.tell(&PeerNews::Absent { node });
                }
            }
        }
    }

    // Whether the operator is to be told by now that there is no connection with the peer at that place. If so, that is told once.
    fn take_absence(&mut self, place: usize, now: u64) -> bool {
        match self.records.get_mut(place) {
            Some(record) => record.dialing.take_absence(now),
            None => false,
        }
    }

    // What is due of a connection by now.
    fn look_at<N: NodePass<Connection = C>, O: Operator>(
        &mut self,
        turn: &Turn<'_, C>,
        number: usize,
        pass: &mut N,
        operator: &mut O,
    ) {
        if let Some(loss) = self.review(turn, number) {
            return self.close(turn, number, loss, operator);
        }
        self.advance(turn, number, pass, operator);
        self.repeat_hello(turn, number);
    }

    // The own hello is said again over that connection, where nothing else was for long enough.
    fn repeat_hello(&mut self, turn: &Turn<'_, C>, number: usize) {
        let Some(entry) = self.entries.get_mut(&number) else {
            return;
        };
        entry.repeat_hello(turn, &mut self.room);
    }

    // Why that connection is to be closed by now, where it is: no others are.
    fn review(&mut self, turn: &Turn<'_, C>, number: usize) -> Option<PeerLoss>
        ensures { IfSome (seat_at self.old number) (λ seat. result ≡ overdue turn.now.at seat) }
    {
        let Some(entry) = self.entries.get_mut(&number) else {
            return None;
        };
        entry.review(turn)
    }
}
