//! A connection of a port of memory.
ghost use Rattle.std.specs.Prelude.{◌≡◌};

use crate::wire::Wire;
use bnc_work::NodeSite;
use node_ports::{Connection, Fresh, FurtherBytes, Halt, Origin, Transcript};
use shared_node::{Naming, Receipt};
use std::alloc::AllocError;
use std::marker::PhantomData;
use std::net::{Ipv4Addr, SocketAddr};
use std::sync::{Arc, Mutex, Wait};
use worker_pass::{Witness, WorkerView};

/// A connection of a node that `S` says, under the number by which the acts of a case name it. Its wire is the port's too, which
/// so plays the other end, and sees that the connection is closed as it is let go.
pub struct MemoryConnection<S: NodeSite, R: Wait + Drop> {
    rt: R,
    wire: Arc<Mutex<Wire>>,
    number: usize,
    origin: Origin,
    serial: u64,
    // behind how many others it joined a network, if it did
    joined: Option<u64>,
    received: Transcript,
    sent: Transcript,
    of: PhantomData<S>,
}

impl<S: NodeSite, R: Wait + Drop> Drop for MemoryConnection<S, R> {
    fn drop(self) {
        self.wire.lock(&self.rt).close();
        let Self {
            rt: _,
            wire: _,
            number: _,
            origin: _,
            serial: _,
            joined: _,
            received: _,
            sent: _,
            of: _,
        } = self;
    }
}

impl<S: NodeSite, R: Wait + Drop> MemoryConnection<S, R> {
    /// The connection of that number over that wire, over which nothing went.
    pub fn over(
        rt: R,
        wire: Arc<Mutex<Wire>>,
        number: usize,
        origin: Origin,
        serial: u64,
    ) -> Fresh<MemoryConnection<S, R>>
        ensures { result.connection.origin ≡ origin }
    {
        Fresh {
            connection: MemoryConnection {
                rt,
                wire,
                number,
                origin,
                serial,
                joined: None,
                received: Transcript::new(),
                sent: Transcript::new(),
                of: PhantomData,
            },
        }
    }

    /// The number by which the acts of a case name it.
    pub fn number(&self) -> usize {
        self.number
    }

    /// Its wire, for the port that tells its worker of it.
    pub fn wire(&self) -> Result<Arc<Mutex<Wire>>, AllocError> {
        Arc::try_clone(&self.wire)
    }
}

impl<S: NodeSite, R: Wait + Drop> Connection for MemoryConnection<S, R> {
    ghost use Rattle.bnc_work.specs.Site.{facts_of};

    ghost facts = { facts_of S.settings };

    ghost origin = { λ c. c.origin };

    ghost serial = { λ c. c.serial };

    ghost joined = { λ c. c.joined };

    ghost received = { λ c. c.received.bytes };

    ghost sent = { λ c. c.sent.bytes };

    fn origin(&self) -> Origin {
        self.origin
    }

    // That of connection 0 isn't known.
    fn address(&self) -> Option<SocketAddr> {
        let port = self.number.checked_sub(1)?.checked_add(5001)?;
        let port = u16::try_from(port).ok()?;
        Some(SocketAddr::from((Ipv4Addr::LOCALHOST, port)))
    }

    fn receive(&mut self, buffer: &mut [u8]) -> Result<usize, Halt> {
        let count = self.wire.lock(&self.rt).take(buffer)?;
        let piece = FurtherBytes {
            bytes: &buffer[..count],
        };
        self.received = self.received.then(&piece);
        Ok(count)
    }

    fn send(&mut self, bytes: &[u8]) -> Result<usize, Halt> {
        let count = self.wire.lock(&self.rt).put(bytes)?;
        let piece = FurtherBytes {
            bytes: &bytes[..count],
        };
        self.sent = self.sent.then(&piece);
        Ok(count)
    }

    fn join(&mut self, _place: usize, joins: u64) {
        self.joined = Some(joins);
    }
}

// Its facts say no more of what is held and put than the words.
impl<J: Naming, S: NodeSite, R: Wait + Drop> Witness<J> for MemoryConnection<S, R> {
    fn is_held(_receipt: &Receipt<J>) {}

    fn is_put(_view: &WorkerView<J>) {}
}
