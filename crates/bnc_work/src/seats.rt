//! Whom the port tells of by which token, and who has something to do.
use crate::visitor::Visitor;
use crate::waiting::WaitingClients;
use byte_text::NoMemory;
use node_ports::Connection;
use slab::Slab;
use std::alloc::Global;
use std::collections::VecDeque;
use std::mem;

/// So much room for clients that aren't registered is kept while none is there.
const KEPT: usize = 64;

/// Whose connection is watched under a token.
#[derive(Clone, Copy)]
pub(crate) enum Seat {
    /// A client that isn't registered yet, by its place among those.
    Visitor(usize),
    /// A client of the network at that place among those of the worker. Orders rise with each client that the network gets.
    Client { network: usize, order: u64 },
    /// The server of such a network.
    Server { network: usize },
    /// Another node.
    Peer,
}

/// A seat, and whether it stands in a queue.
#[derive(Clone, Copy)]
struct SeatEntry {
    seat: Seat,
    is_queued: bool,
}

/// The seats of a worker's connections, by the tokens under which the port watches them. Clients and servers that have something to do
/// stand in a queue, each once: there is room for each from its coming on. (The table of peers has a queue of its own.) An old token
/// costs one look that finds nothing, or somebody else.
#[derive(Drop)]
pub(crate) struct Seats<C: Connection> {
    entries: Slab<SeatEntry>,
    // Clients that aren't registered yet, which are large and leave soon. None while one has its turn, or is about to come.
    visitors: Slab<Option<Visitor<C>>>,
    // clients that have something to do
    busy: VecDeque<usize>,
    // servers that have
    busy_servers: VecDeque<usize>,
}

impl<C: Connection> Seats<C> {
    /// No seats. It takes no memory.
    pub(crate) fn new(alloc: Global) -> Seats<C> {
        Seats {
            entries: Slab::new(alloc),
            visitors: Slab::new(alloc),
            busy: VecDeque::new(alloc),
            busy_servers: VecDeque::new(alloc),
        }
    }

    /// A further seat, by its token.
    pub(crate) fn insert(&mut self, seat: Seat) -> Result<usize, NoMemory> {
        let count = self.entries.len().saturating_add(1);
        if self.busy.reserve(count).is_err() || self.busy_servers.reserve(count).is_err() {
            return Err(NoMemory);
        }
        let entry = SeatEntry {
            seat,
            is_queued: false,
        };
        match self.entries.insert(entry) {
            Ok(token) => Ok(token),
            Err(_) => Err(NoMemory),
        }
    }

    /// A further seat, of a client that isn't registered and is about to come, by its token.
    pub(crate) fn insert_visitor(&mut self) -> Result<usize, NoMemory> {
        let Ok(place) = self.visitors.insert(None) else {
            return Err(NoMemory);
        };
        let inserted = self.insert(Seat::Visitor(place));
        if inserted.is_err() {
            self.leave_visitors(Seat::Visitor(place));
        }
        inserted
    }

    // Whoever has that seat is no longer among the clients that aren't registered.
    fn leave_visitors(&mut self, seat: Seat) {
        let Seat::Visitor(place) = seat else {
            return;
        };
        drop(self.visitors.try_remove(place));
        if self.visitors.is_empty() && self.visitors.capacity() > KEPT {
            self.visitors.shrink_to_fit();
        }
    }

    /// The seat of that token goes.
    pub(crate) fn remove(&mut self, token: usize) {
        let Some(entry) = self.entries.try_remove(token) else {
            return;
        };
        self.leave_visitors(entry.seat);
        if entry.is_queued {
            self.busy.retain(|other| *other != token);
            self.busy_servers.retain(|other| *other != token);
        }
    }

    /// The seat of that token.
    pub(crate) fn get(&self, token: usize) -> Option<Seat> {
        match self.entries.get(token) {
            Some(entry) => Some(entry.seat),
            None => None,
        }
    }

    /// The seat of that token becomes that one.
    pub(crate) fn set(&mut self, token: usize, seat: Seat) {
        let Some(entry) = self.entries.get_mut(token) else {
            return;
        };
        let before = mem::replace(&mut entry.seat, seat);
        self.leave_visitors(before);
    }

    // Where the client at that token lies, if that is one that isn't registered.
    fn visitor_slot(&mut self, token: usize) -> Option<&mut Option<Visitor<C>>> {
        match self.get(token) {
            Some(Seat::Visitor(place)) => self.visitors.get_mut(place),
            _ => None,
        }
    }

    /// The client at that token that isn't registered, if there is one.
    pub(crate) fn visitor(&mut self, token: usize) -> Option<&mut Visitor<C>> {
        match self.visitor_slot(token) {
            Some(Some(visitor)) => Some(visitor),
            _ => None,
        }
    }

    /// Takes out the client at that token that isn't registered, for its turn. Its seat stays.
    pub(crate) fn take_visitor(&mut self, token: usize) -> Option<Visitor<C>> {
        match self.visitor_slot(token) {
            Some(slot) => slot.take(),
            None => None,
        }
    }

    /// The client that isn't registered comes to its seat of that token, or is back from its turn.
    pub(crate) fn put_visitor(&mut self, token: usize, visitor: Visitor<C>) {
        match self.visitor_slot(token) {
            Some(slot) => *slot = Some(visitor),
            None => drop(visitor),
        }
    }

    /// The connection of that token has something to do.
    pub(crate) fn wake(&mut self, token: usize) {
        let Some(entry) = self.entries.get_mut(token) else {
            return;
        };
        if entry.is_queued {
            return;
        }
        let is_server = matches!(entry.seat, Seat::Server { .. });
        entry.is_queued = true;
        let is_pushed = if is_server {
            self.busy_servers.push_back(token).is_ok()
        } else {
            self.busy.push_back(token).is_ok()
        };
        if !is_pushed {
            self.leave_queue(token);
        }
    }

    /// Whether some connection has something to do.
    pub(crate) fn is_busy(&self) -> bool {
        !self.busy.is_empty() || !self.busy_servers.is_empty()
    }

    /// How many clients have something to do.
    pub(crate) fn busy_count(&self) -> usize {
        self.busy.len()
    }

    /// The client that has had something to do for longest. It leaves the queue.
    pub(crate) fn next_busy(&mut self) -> Option<usize> {
        let token = self.busy.pop_front()?;
        self.leave_queue(token);
        Some(token)
    }

    /// The server that has had something to do for longest. It leaves the queue.
    pub(crate) fn next_busy_server(&mut self) -> Option<usize> {
        let token = self.busy_servers.pop_front()?;
        self.leave_queue(token);
        Some(token)
    }

    fn leave_queue(&mut self, token: usize) {
        if let Some(entry) = self.entries.get_mut(token) {
            entry.is_queued = false;
        }
    }

    /// The clients that were asked to leave have something to do.
    pub(crate) fn wake_asked(&mut self, waiting: &WaitingClients) {
        for token in 0..self.entries.capacity() {
            if self.is_asked(token, waiting) {
                if let Some(visitor) = self.visitor(token) {
                    visitor.newcomer.mark(true, false);
                }
                self.wake(token);
            }
        }
    }

    // Whether a client is there that isn't registered and was asked to leave.
    fn is_asked(&self, token: usize, waiting: &WaitingClients) -> bool {
        let Some(Seat::Visitor(place)) = self.get(token) else {
            return false;
        };
        match self.visitors.get(place) {
            Some(Some(visitor)) => waiting.is_asked(visitor.place()),
            _ => false,
        }
    }
}
