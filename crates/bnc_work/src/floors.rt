//! What a worker puts when it is due, and what waits to be published.
use crate::timer::Timer;
use crate::worker::Worker;
use chat_change::Change;
use network_client::Port;
use node_events::{BETWEEN_LOOKS, Event};
use node_ports::{Connection, NotPublished};
use worker_pass::WorkPass;

/// What waits to be published is tried again after so many milliseconds.
const SECOND: u64 = 1000;

impl<'a, C, P, N> Worker<'a, C, P, N>
where
    C: Connection,
    P: Port<Connection = C>,
    N: WorkPass<Connection = C>,
{
    /// What waits to be published, if anything does, is tried again a second later.
    pub(crate) fn publish_later(&mut self) {
        if self.pass.has_unpublished() && !self.is_publishing {
            self.is_publishing = true;
            self.timers
                .set(Timer::Publish, self.now.saturating_add(SECOND));
        }
    }

    /// Publishes what waits.
    pub(crate) fn publish(&mut self) {
        self.is_publishing = false;
        let _ = self.pass.publish();
    }

    /// Puts the floors that are due, and looks again in an hour: what is older than the node keeps messages is let go. A floor can't be
    /// taken back: where the clock leapt since the last look, none is put this time, and the operator is told that.
    pub(crate) fn put_floors(&mut self) {
        self.timers
            .set(Timer::Floors, self.now.saturating_add(BETWEEN_LOOKS));
        let clocks = self.clocks();
        match self.watch.look(clocks) {
            Some(leap) => self.port.report(&Event::ClockLeapt(leap)),
            None => self.put_due(),
        }
    }

    // Puts the floors that are due, which all are at one moment, and tells the operator. None are put where they can't be read.
    fn put_due(&mut self) {
        let Ok(floors) = self.pass.due_floors(self.alloc, self.moment) else {
            return;
        };
        let Some(Change::Floor { at, .. }) = floors.first() else {
            return;
        };
        let at = *at;
        let count = match self.pass.put_floors(floors.as_slice()) {
            Ok(()) => floors.len(),
            Err(NotPublished { count }) => count,
        };
        if count > 0 {
            self.port.report(&Event::FloorsPut { count, at });
        }
    }
}
