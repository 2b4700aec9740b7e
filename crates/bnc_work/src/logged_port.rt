//! A worker's port, by which the operator is told what happens.
ghost use Rattle.std.specs.Prelude.{◌≡◌, IfOk};

use network_client::{Dial, Happening, Mail, Port, PortFault};
use node_events::{Clocks, Event, Shortage, Unreached};
use std::net::SocketAddr;

/// A port that counts the connections which are closed for want of memory: of these the operator is told once a minute.
#[derive(Drop)]
pub(crate) struct LoggedPort<P: Port> {
    port: P,
    shortage: Shortage,
    /// When its clocks were read last, in milliseconds by the wall clock.
    pub(crate) wall: u64,
}

impl<P: Port> LoggedPort<P> {
    /// Nothing was closed yet.
    pub(crate) fn new(port: P, wall: u64) -> LoggedPort<P> {
        LoggedPort {
            port,
            shortage: Shortage::new(),
            wall,
        }
    }

    /// The operator is told how many connections were closed for want of memory, once a minute by the monotonic clock.
    pub(crate) fn tell_shortage(&mut self, now: u64) {
        if let Some(count) = self.shortage.take(now) {
            self.port.report(&Event::OutOfMemory { count });
        }
    }
}

impl<P: Port> Port for LoggedPort<P> {
    type Connection = P::Connection;

    fn next(&mut self, patience: u64) -> Result<Happening<P::Connection>, PortFault> {
        self.port.next(patience)
    }

    fn dial(&mut self, what: Dial) -> Result<(), Unreached> {
        self.port.dial(what)
    }

    fn target(&self, what: Dial) -> Option<SocketAddr> {
        self.port.target(what)
    }

    fn watch(&mut self, connection: &mut P::Connection, token: usize) -> Result<(), PortFault> {
        self.port.watch(connection, token)
    }

    fn unwatch(&mut self, connection: &mut P::Connection) {
        self.port.unwatch(connection);
    }

    fn send_mail(
        &mut self,
        worker: usize,
        mail: &mut Option<Mail<P::Connection>>,
    ) -> Result<(), PortFault> {
        self.port.send_mail(worker, mail)
    }

    fn workers(&self) -> usize {
        self.port.workers()
    }

    fn clocks(&mut self) -> Result<Clocks, PortFault> {
        let clocks = self.port.clocks()?;
        self.wall = clocks.wall;
        Ok(clocks)
    }

    fn report(&mut self, event: &Event<'_>) {
        if self.shortage.is_told(event) {
            self.port.report(event);
        }
    }
}
