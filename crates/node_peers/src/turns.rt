//! The turns of peers: what comes over a connection, and what goes out.
ghost use Rattle.std.specs.Prelude.{◌≡◌, ◌≢◌, ℕ, Some, true};
ghost use Rattle.node_peers.specs.PeersState.{seat_at};
ghost use Rattle.node_peers.specs.Seat.{IsSameSeat, Seat, gives_way};

use crate::entry::PeerEntry;
use crate::loss::PeerLoss;
use crate::news::Operator;
use crate::peer::PeerHearing;
use crate::peers::Peers;
use crate::turn::Turn;
use node_ports::{Connection, ReceiveFault};

/// What a step of a peer comes to.
#[derive(Clone, Copy, PartialEq, Eq)]
pub enum PeerStep {
    /// A message came, which is to be carried out ([`Peers::arrive`]).
    Take,
    /// A further step can be made.
    Again,
    /// Nothing is there for now.
    Rest,
    /// The connection is to be closed.
    Over(PeerLoss),
}

impl<C: Connection> PeerEntry<C> {
    // Hears the next line, or takes in more bytes for it.
    fn step(&mut self, turn: &Turn<'_, C>, chunk: &mut [u8], room: &mut Vec<u8>) -> PeerStep
        ensures { IsSameSeat self.old self.new }
    {
        match self.peer.hear(turn, room) {
            PeerHearing::Line => PeerStep::Again,
            PeerHearing::Message => PeerStep::Take,
            PeerHearing::More => self.receive(turn, chunk),
            PeerHearing::Full => {
                self.peer.make_room();
                PeerStep::Again
            }
            PeerHearing::Lost => match self.peer.loss() {
                Some(loss) => PeerStep::Over(loss),
                None => PeerStep::Over(PeerLoss::Closed),
            },
        }
    }

    // Takes in more bytes that come over the connection.
    fn receive(&mut self, turn: &Turn<'_, C>, chunk: &mut [u8]) -> PeerStep
        ensures { IsSameSeat self.old self.new }
    {
        match self.peer.receive(chunk, turn.at) {
            Ok(_) => PeerStep::Again,
            Err(ReceiveFault::Blocked) => PeerStep::Rest,
            Err(ReceiveFault::Closed) => PeerStep::Over(PeerLoss::Closed),
            Err(ReceiveFault::NoMemory) => PeerStep::Over(PeerLoss::NoMemory),
        }
    }
}

impl<C: Connection> Peers<C> {
    /// Bytes may be there of a connection, or room for bytes. False where it isn't one of these.
    pub fn mark(&mut self, number: usize, is_readable: bool, is_writable: bool) -> bool {
        let Some(entry) = self.entries.get_mut(&number) else {
            return false;
        };
        entry.mark(is_readable, is_writable);
        true
    }

    /// How many connections have something to do.
    pub fn busy_count(&self) -> usize {
        self.entries
            .iter()
            .filter(|(_, entry)| entry.is_busy)
            .count()
    }

    /// The next connection that has something to do, in the order of their numbers, behind the one that had its turn last.
    pub fn next_busy(&mut self) -> Option<usize> {
        let latest = self.latest;
        let mut first = None;
        let mut next = None;
        for (number, entry) in self.entries.iter() {
            if entry.is_busy && first.is_none() {
                first = Some(*number);
            }
            if entry.is_busy && next.is_none() && *number > latest {
                next = Some(*number);
            }
        }
        let number = next.or(first)?;
        self.latest = number;
        self.begin_turn(number);
        Some(number)
    }

    // That connection has its turn.
    fn begin_turn(&mut self, number: usize) {
        let Some(entry) = self.entries.get_mut(&number) else {
            return;
        };
        entry.begin_turn();
    }

    /// Takes the next line that came over a connection, or more bytes for it by way of the chunk. What is said to it is owed. Nothing
    /// is heard before the message that came is carried out.
    pub fn step(&mut self, turn: &Turn<'_, C>, number: usize, chunk: &mut [u8]) -> PeerStep {
        let Some(entry) = self.entries.get_mut(&number) else {
            return PeerStep::Rest;
        };
        entry.step(turn, chunk, &mut self.room)
    }

    /// Sends what is owed, by one write. The connection is closed where it is lost, and where it is to make way and no peer said
    /// hello over it.
    pub fn finish<O: Operator>(
        &mut self,
        turn: &Turn<'_, C>,
        number: usize,
        has_more: bool,
        operator: &mut O,
    ) {
        let Some(loss) = self.end_turn(number, has_more) else {
            return;
        };
        self.close(turn, number, loss, operator);
    }

    // The turn of that connection ends: why it is to be closed, where it is.
    fn end_turn(&mut self, number: usize, has_more: bool) -> Option<PeerLoss>
        ensures others { (n : ℕ) → n ≢ number → seat_at self.new n ≡ seat_at self.old n }
        ensures way { (seat : Seat) → seat_at self.old number ≡ Some seat → gives_way seat ≡ true
            → result ≡ Some PeerLoss.GaveWay }
    {
        let Some(entry) = self.entries.get_mut(&number) else {
            return None;
        };
        entry.end_turn(has_more)
    }
}
