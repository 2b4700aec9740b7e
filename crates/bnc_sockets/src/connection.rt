//! A connection over a socket.
ghost use Rattle.std.specs.Prelude.{◌≡◌};

use crate::departed::Departed;
use crate::stream::{receive_from, send_to};
use bnc_work::NodeSite;
use mio::net::TcpStream;
use mio::{Interest, Registry, Token};
use node_ports::{Connection, Fresh, FurtherBytes, Halt, Origin, Transcript};
use shared_node::{Naming, Receipt};
use std::io;
use std::marker::PhantomData;
use std::net::SocketAddr;
use worker_pass::{Witness, WorkerView};

/// A connection over a socket, of a node that `S` says. It owns its socket, wherever it moves. As it is let go it is closed for
/// sending, and the port that made it reads on from it for a second: the system resets a connection that is closed while bytes of
/// the other end lie unread, and the other end may lose what was sent to it last.
pub struct SocketConnection<S: NodeSite> {
    stream: TcpStream,
    address: SocketAddr,
    origin: Origin,
    serial: u64,
    // Behind how many others it joined a network, if it did.
    joined: Option<u64>,
    received: Transcript,
    sent: Transcript,
    // Where the socket goes in the end.
    departed: Departed,
    of: PhantomData<S>,
}

impl<S: NodeSite> SocketConnection<S> {
    // A connection over that stream, over which nothing went.
    pub(crate) fn over(
        stream: TcpStream,
        address: SocketAddr,
        origin: Origin,
        serial: u64,
        departed: Departed,
    ) -> Fresh<SocketConnection<S>> {
        Fresh {
            connection: SocketConnection {
                stream,
                address,
                origin,
                serial,
                joined: None,
                received: Transcript::new(),
                sent: Transcript::new(),
                departed,
                of: PhantomData,
            },
        }
    }

    // Has the poll tell of it under that token.
    pub(crate) fn register(&mut self, registry: &Registry, token: usize) -> io::Result<()>
        ensures origin { self.new.origin ≡ self.old.origin }
        ensures serial { self.new.serial ≡ self.old.serial }
        ensures joined { self.new.joined ≡ self.old.joined }
        ensures received { self.new.received ≡ self.old.received }
        ensures sent { self.new.sent ≡ self.old.sent }
    {
        let interests = Interest::READABLE | Interest::WRITABLE;
        registry.register(&mut self.stream, Token(token), interests)
    }

    // Has the poll tell of it no more.
    pub(crate) fn deregister(&mut self, registry: &Registry) -> io::Result<()>
        ensures origin { self.new.origin ≡ self.old.origin }
        ensures serial { self.new.serial ≡ self.old.serial }
        ensures joined { self.new.joined ≡ self.old.joined }
        ensures received { self.new.received ≡ self.old.received }
        ensures sent { self.new.sent ≡ self.old.sent }
    {
        registry.deregister(&mut self.stream)
    }
}

impl<S: NodeSite> Drop for SocketConnection<S> {
    fn drop(self) {
        let Self {
            stream,
            address: _,
            origin: _,
            serial: _,
            joined: _,
            received: _,
            sent: _,
            departed,
            of: _,
        } = self;
        departed.push(stream);
    }
}

impl<S: NodeSite> Connection for SocketConnection<S> {
    ghost use Rattle.bnc_work.specs.Site.{facts_of};

    ghost facts = { facts_of S.settings };

    ghost origin = { λ c. c.origin };

    ghost serial = { λ c. c.serial };

    ghost joined = { λ c. c.joined };

    ghost received = { λ c. c.received.bytes };

    ghost sent = { λ c. c.sent.bytes };

    fn origin(&self) -> Origin {
        self.origin
    }

    fn address(&self) -> Option<SocketAddr> {
        Some(self.address)
    }

    fn receive(&mut self, buffer: &mut [u8]) -> Result<usize, Halt> {
        let count = receive_from(&mut self.stream, buffer)?;
        let piece = FurtherBytes {
            bytes: &buffer[..count],
        };
        self.received = self.received.then(&piece);
        Ok(count)
    }

    fn send(&mut self, bytes: &[u8]) -> Result<usize, Halt> {
        let count = send_to(&mut self.stream, bytes)?;
        let piece = FurtherBytes {
            bytes: &bytes[..count],
        };
        self.sent = self.sent.then(&piece);
        Ok(count)
    }

    fn join(&mut self, _place: usize, joins: u64) {
        self.joined = Some(joins);
    }
}

impl<S: NodeSite, J: Naming> Witness<J> for SocketConnection<S> {
    fn is_held(_receipt: &Receipt<J>) {}

    fn is_put(_view: &WorkerView<J>) {}
}
