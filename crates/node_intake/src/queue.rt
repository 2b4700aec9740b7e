//! Clients that wait for a place.
use crate::listeners::{Caller, ListenerKind, Listeners};
use bnc_sockets::monotonic_ms;
use mio::net::TcpStream;
use node_events::{Event, Reason, Refusals, Shortage};
use operator_log::Log;
use std::alloc::{AllocError, Global};
use std::collections::VecDeque;
use std::net::SocketAddr;
use std::sync::Wait;
use std::time::Clock;

// So many clients at most wait for a place. Others wait in the queue of the system.
pub(crate) const MOST_QUEUED: usize = 16;

// After so many milliseconds it is looked whether a place is free by now.
const PATIENCE: u64 = 10;

// Clients that connected and have no place yet, in their order, and what the operator is to be told of those that were closed.
#[derive(Drop)]
pub(crate) struct Queue {
    clients: VecDeque<(TcpStream, SocketAddr)>,
    // Those that were closed before they were handed in.
    refusals: Refusals,
    // Those of them for which there was no memory.
    shortage: Shortage,
    log: Log,
}

impl Queue {
    // Nobody waits, at that moment.
    pub(crate) fn new(alloc: Global, log: &Log, now: u64) -> Result<Queue, AllocError> {
        Ok(Queue {
            clients: VecDeque::new(alloc),
            refusals: Refusals::new(now),
            shortage: Shortage::new(),
            log: log.try_clone()?,
        })
    }

    pub(crate) fn len(&self) -> usize {
        self.clients.len()
    }

    // The client that has waited longest.
    pub(crate) fn pop(&mut self) -> Option<(TcpStream, SocketAddr)> {
        self.clients.pop_front()
    }

    // Takes in the next client that connected, which waits for a place from now on. False where none did, or no further one can
    // wait here.
    pub(crate) fn take_client<R: Wait + Clock>(
        &mut self,
        rt: &R,
        listeners: &mut Listeners,
    ) -> bool {
        if self.clients.len() >= MOST_QUEUED {
            return false;
        }
        match listeners.accept(rt, ListenerKind::Clients) {
            Caller::Nobody => false,
            Caller::Gone => true,
            Caller::Connected(stream, address) => {
                self.push(rt, stream, address);
                true
            }
        }
    }

    // A client waits for a place. Where there is no memory for that it is closed.
    fn push<R: Wait + Clock>(&mut self, rt: &R, stream: TcpStream, address: SocketAddr) {
        if self.clients.push_back((stream, address)).is_err() {
            self.tell_refused(rt, address, Reason::NoMemory);
        }
    }

    // For how many milliseconds at most the node waits before a place may be free, or the operator is to be told something.
    pub(crate) fn patience<R: Clock>(&self, rt: &R) -> Option<u64> {
        if !self.clients.is_empty() {
            return Some(PATIENCE);
        }
        match self.refusals.due_at() {
            Some(at) => Some(at.saturating_sub(monotonic_ms(rt).unwrap_or(0))),
            None => self.shortage.patience(),
        }
    }

    // Closes those who wait for a place.
    pub(crate) fn refuse_all<R: Wait + Clock>(&mut self, rt: &R) {
        for _ in 0..MOST_QUEUED {
            let Some((stream, address)) = self.clients.pop_front() else {
                return;
            };
            drop(stream);
            self.tell_refused(rt, address, Reason::NoPlace);
        }
    }

    // The operator is told that a client was closed before it was handed to a worker, or that there was one more of many.
    pub(crate) fn tell_refused<R: Wait + Clock>(
        &mut self,
        rt: &R,
        address: SocketAddr,
        reason: Reason,
    ) {
        let address = Some(address);
        let event = Event::ClientRefused { address, reason };
        if self.shortage.is_told(&event) && self.refusals.add() {
            self.log.report(rt, &event);
        }
    }

    // The operator is told once a minute how many more clients were refused than were told one by one, and how many for want of
    // memory.
    pub(crate) fn tell_refusals<R: Wait + Clock>(&mut self, rt: &R) {
        let Some(now) = monotonic_ms(rt) else {
            return;
        };
        if let Some(count) = self.refusals.take_untold(now) {
            self.log.report(rt, &Event::ClientsRefused { count });
        }
        if let Some(count) = self.shortage.take(now) {
            self.log.report(rt, &Event::OutOfMemory { count });
        }
    }
}
