//! What other threads hand in to a worker: mail of other workers, and those who connect.
use attach::RingClient;
use crossbeam_channel::{Receiver, SendError, Sender, unbounded};
use mio::Waker;
use mio::net::TcpStream;
use network_client::{Mail, PortFault};
use node_ports::Connection;
use std::alloc::{AllocError, Global};
use std::net::SocketAddr;
use std::sync::atomic::{AtomicUsize, Ordering};
use std::sync::{Arc, Wait};

// So many nodes that connected wait for a worker at most.
const MOST_PEERS: usize = 16;

// What reaches a worker from another one.
#[derive(Drop)]
pub(crate) enum Delivery<C: Connection> {
    // What another worker tells.
    Mail(Mail<C>),
    // The worker is to end.
    Stop,
}

// Who comes in at a worker's intake, or what those who connect ask of it.
#[derive(Drop)]
pub(crate) enum IntakeMessage {
    // A client, with the ring of what it will be owed.
    Client {
        stream: TcpStream,
        address: SocketAddr,
        ring: RingClient,
    },
    // A node that connected to this one.
    Peer {
        stream: TcpStream,
        address: SocketAddr,
    },
    // Some clients that aren't registered were asked to leave.
    Leave,
    // Nobody comes in any more, and the worker is to end.
    Stop,
}

// Whether the channel took what was sent. What it didn't take is dropped.
fn sent<T: Drop>(taken: Result<(), SendError<T>>) -> Result<(), PortFault> {
    match taken {
        Ok(()) => Ok(()),
        Err(_) => Err(PortFault),
    }
}

// Wakes a worker, so that it finds what was handed in before. A wake that the system refuses costs time alone: a worker looks for
// what was handed in at least once a second.
fn wake(waker: &Waker) {
    let _ = waker.wake();
}

// Where other workers hand deliveries in.
#[derive(Drop)]
pub(crate) struct Mailbox<C: Connection> {
    deliveries: Sender<Delivery<C>>,
    waker: Arc<Waker>,
}

impl<C: Connection> Mailbox<C> {
    // A mailbox whose deliveries wake that waker, and where they arrive.
    pub(crate) fn new(
        alloc: Global,
        waker: Arc<Waker>,
    ) -> Result<(Mailbox<C>, Receiver<Delivery<C>>), AllocError> {
        let (deliveries, receiver) = unbounded(alloc)?;
        Ok((Mailbox { deliveries, waker }, receiver))
    }

    // Another owner of the same mailbox.
    pub(crate) fn try_clone(&self) -> Result<Mailbox<C>, AllocError> {
        Ok(Mailbox {
            deliveries: self.deliveries.clone()?,
            waker: self.waker.clone()?,
        })
    }

    // Hands a delivery in, and wakes the worker.
    pub(crate) fn hand<R: Wait>(&self, rt: &R, delivery: Delivery<C>) -> Result<(), PortFault> {
        sent(self.deliveries.send(rt, delivery))?;
        wake(&self.waker);
        Ok(())
    }
}

/// Where those who connect are handed in to one worker.
#[derive(Drop)]
pub struct WorkerIntake {
    newcomers: Sender<IntakeMessage>,
    // How many nodes that connected wait.
    peers: Arc<AtomicUsize>,
    waker: Arc<Waker>,
}

/// Where those arrive who were handed in.
#[derive(Drop)]
pub struct Newcomers {
    newcomers: Receiver<IntakeMessage>,
    peers: Arc<AtomicUsize>,
}

impl WorkerIntake {
    // An intake that wakes that waker, and where those arrive who are handed in there.
    pub(crate) fn new(
        alloc: Global,
        waker: Arc<Waker>,
    ) -> Result<(WorkerIntake, Newcomers), AllocError> {
        let (sender, receiver) = unbounded(alloc)?;
        let waiting = Arc::new(alloc, AtomicUsize::new(0))?;
        let intake = WorkerIntake {
            newcomers: sender,
            peers: Arc::try_clone(&waiting)?,
            waker,
        };
        let newcomers = Newcomers {
            newcomers: receiver,
            peers: waiting,
        };
        Ok((intake, newcomers))
    }

    // Hands somebody in, and wakes the worker.
    fn hand<R: Wait>(&self, rt: &R, newcomer: IntakeMessage) -> Result<(), PortFault> {
        sent(self.newcomers.send(rt, newcomer))?;
        wake(&self.waker);
        Ok(())
    }

    /// Hands a client in, with the ring of what it will be owed, at the place that it has.
    pub fn hand_client<R: Wait>(
        &self,
        rt: &R,
        stream: TcpStream,
        address: SocketAddr,
        ring: RingClient,
    ) -> Result<(), PortFault> {
        self.hand(
            rt,
            IntakeMessage::Client {
                stream,
                address,
                ring,
            },
        )
    }

    /// Tells the worker that some clients that aren't registered were asked to leave.
    pub fn tell_leave<R: Wait>(&self, rt: &R) -> Result<(), PortFault> {
        self.hand(rt, IntakeMessage::Leave)
    }

    /// Whether a further node that connected may wait for the worker: 16 do at most.
    pub fn has_room_for_a_peer(&self) -> bool {
        self.peers.load(Ordering::SeqCst) < MOST_PEERS
    }

    /// Hands a node that connected in.
    pub fn hand_peer<R: Wait>(
        &self,
        rt: &R,
        stream: TcpStream,
        address: SocketAddr,
    ) -> Result<(), PortFault> {
        // (before it can arrive)
        self.peers.fetch_add(1, Ordering::SeqCst);
        self.hand(rt, IntakeMessage::Peer { stream, address })
    }

    /// Tells the worker to end.
    pub fn stop<R: Wait>(&self, rt: &R) {
        let _ = self.hand(rt, IntakeMessage::Stop);
    }
}

impl Newcomers {
    // Who came next. None where nobody did.
    pub(crate) fn next<R: Wait>(&self, rt: &R) -> Option<IntakeMessage> {
        let newcomer = self.newcomers.try_recv(rt).ok()?;
        if let IntakeMessage::Peer { .. } = &newcomer {
            self.peers.fetch_sub(1, Ordering::SeqCst);
        }
        Some(newcomer)
    }
}
