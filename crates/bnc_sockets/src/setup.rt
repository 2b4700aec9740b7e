//! What the ports of a node's workers begin with.
use crate::addresses::Addresses;
use crate::connection::SocketConnection;
use crate::dialer::Dialer;
use crate::handing::{Delivery, Mailbox, Newcomers, WorkerIntake};
use crate::socket_port::SocketPort;
use bnc_work::NodeSite;
use crossbeam_channel::Receiver;
use mio::{Poll, Token, Waker};
use node_ports::Connection;
use operator_log::Log;
use std::alloc::{AllocError, Global};
use std::io;
use std::net::Net;
use std::sync::atomic::AtomicU64;
use std::sync::{Arc, Wait};
use std::time::Clock;

// The token of the waker. Those of connections are below.
const WAKER: Token = Token(usize::MAX);

/// What the port of one worker begins with.
#[derive(Drop)]
pub struct PortSetup<D: Dialer> {
    pub(crate) dialer: D,
    pub(crate) poll: Poll,
    pub(crate) waker: Arc<Waker>,
    pub(crate) newcomers: Newcomers,
    pub(crate) serial: Arc<AtomicU64>,
    pub(crate) addresses: Addresses,
    pub(crate) log: Log,
}

/// What all ports of a node begin with: where they connect to, the operator's log, and the number of the next connection.
#[derive(Drop)]
pub struct NodeSetup {
    addresses: Addresses,
    log: Log,
    serial: Arc<AtomicU64>,
}

impl NodeSetup {
    /// No connection has a number yet.
    pub fn new(alloc: Global, addresses: Addresses, log: Log) -> Result<NodeSetup, AllocError> {
        Ok(NodeSetup {
            addresses,
            log,
            serial: Arc::new(alloc, AtomicU64::new(0))?,
        })
    }

    /// What one more port begins with, and where those who connect are handed in to its worker.
    pub fn add_port<R: Net + AllocGlobal, D: Dialer>(
        &self,
        rt: &R,
        dialer: D,
    ) -> io::Result<(PortSetup<D>, WorkerIntake)> {
        let poll = Poll::new(rt)?;
        let waker = Arc::new(rt.alloc(), Waker::new(poll.registry(), WAKER)?)?;
        let (intake, newcomers) = WorkerIntake::new(rt.alloc(), Arc::try_clone(&waker)?)?;
        let setup = PortSetup {
            dialer,
            poll,
            waker,
            newcomers,
            serial: Arc::try_clone(&self.serial)?,
            addresses: self.addresses.try_clone()?,
            log: self.log.try_clone()?,
        };
        Ok((setup, intake))
    }
}

// Another list of the same mailboxes.
fn copies_of<C: Connection>(
    alloc: Global,
    mailboxes: &[Mailbox<C>],
) -> Result<Vec<Mailbox<C>>, AllocError> {
    let mut copies = Vec::new(alloc);
    for mailbox in mailboxes {
        let copy = mailbox.try_clone()?;
        copies.push(copy)?;
    }
    Ok(copies)
}

// A setup, and where deliveries for its worker arrive.
type Inbox<C, D> = (PortSetup<D>, Receiver<Delivery<C>>);

// The mailboxes of the workers of these setups, and where their deliveries arrive.
fn mailboxes_of<C: Connection, D: Dialer>(
    alloc: Global,
    setups: Vec<PortSetup<D>>,
) -> Result<(Vec<Mailbox<C>>, Vec<Inbox<C, D>>), AllocError> {
    let mut mailboxes = Vec::new(alloc);
    let mut inboxes = Vec::new(alloc);
    for setup in setups {
        let (mailbox, deliveries) = Mailbox::new(alloc, Arc::try_clone(&setup.waker)?)?;
        mailboxes.push(mailbox)?;
        inboxes.push((setup, deliveries))?;
    }
    Ok((mailboxes, inboxes))
}

/// The ports of a node's workers, in their order. Each has the mailboxes of all.
pub fn ports_of<S: NodeSite, R, D: Dialer>(
    rt: &R,
    setups: Vec<PortSetup<D>>,
) -> Result<Vec<SocketPort<SocketConnection<S>, R, D>>, AllocError>
where
    R: Wait + Clock + AllocGlobal + Copy + Drop,
{
    let alloc = rt.alloc();
    let (mailboxes, inboxes) = mailboxes_of(alloc, setups)?;
    let mut ports = Vec::new(alloc);
    for (setup, deliveries) in inboxes {
        let mailboxes = copies_of(alloc, &mailboxes)?;
        let port = SocketPort::new(*rt, setup, deliveries, mailboxes)?;
        ports.push(port)?;
    }
    Ok(ports)
}
