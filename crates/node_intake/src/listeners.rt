//! The sockets on which a node accepts connections.
use mio::net::{TcpListener, TcpStream};
use mio::{Events, Interest, Poll, Token};
use node_events::{Event, ServeFault};
use operator_log::Log;
use std::io;
use std::io::ErrorKind;
use std::net::{Net, SocketAddr};
use std::sync::Wait;
use std::time::{Clock, Duration};

// How many events the system tells at once. There are two listeners.
const EVENTS: usize = 4;

// After how many milliseconds accepting is tried again where the system gave no connection.
const RETRY: u64 = 1000;

const CLIENTS: Token = Token(0);

const PEERS: Token = Token(1);

// Whom a listener is for.
#[derive(Clone, Copy)]
pub(crate) enum ListenerKind {
    Clients,
    Peers,
}

// Who waited at a listener.
#[derive(Drop)]
pub(crate) enum Caller {
    Connected(TcpStream, SocketAddr),
    // Somebody who is gone by now.
    Gone,
    // Nobody, or the system gives no connection for now.
    Nobody,
}

fn listener_at<R: Net>(rt: &R, address: SocketAddr) -> Result<TcpListener, ServeFault> {
    match TcpListener::bind(rt, address) {
        Ok(listener) => Ok(listener),
        Err(error) => Err(ServeFault::at(address, error.kind())),
    }
}

// A poll that tells of both.
fn poll_of<R: Net>(rt: &R, clients: &mut TcpListener, peers: &mut TcpListener) -> io::Result<Poll> {
    let poll = Poll::new(rt)?;
    let registry = poll.registry();
    registry.register(clients, CLIENTS, Interest::READABLE)?;
    registry.register(peers, PEERS, Interest::READABLE)?;
    Ok(poll)
}

// The sockets on which a node accepts clients and peers.
#[derive(Drop)]
pub(crate) struct Listeners {
    poll: Poll,
    events: Events,
    clients: TcpListener,
    peers: TcpListener,
    log: Log,
    // Whether the system gave no connection since the last wait, and before it.
    is_failing: bool,
    was_failing: bool,
}

impl Listeners {
    // Listens at both addresses.
    pub(crate) fn open<R: Net + AllocGlobal>(
        rt: &R,
        log: &Log,
        clients: SocketAddr,
        peers: SocketAddr,
    ) -> Result<Listeners, ServeFault> {
        let mut clients = listener_at(rt, clients)?;
        let mut peers = listener_at(rt, peers)?;
        let poll = poll_of(rt, &mut clients, &mut peers)?;
        let events = Events::with_capacity(rt.alloc(), EVENTS)?;
        Ok(Listeners {
            poll,
            events,
            clients,
            peers,
            log: log.try_clone()?,
            is_failing: false,
            was_failing: false,
        })
    }

    // Tells the operator where the node listens.
    pub(crate) fn tell<R: Wait + Clock>(&self, rt: &R) {
        let Ok(clients) = self.clients.local_addr() else {
            return;
        };
        let Ok(peers) = self.peers.local_addr() else {
            return;
        };
        self.log.report(rt, &Event::Listening { clients, peers });
    }

    // Waits until somebody connects, or until it is time to try again, and for so many milliseconds at most. False where the
    // system can't wait.
    pub(crate) fn wait(&mut self, most: Option<u64>) -> bool {
        let most = if self.is_failing {
            Some(most.unwrap_or(RETRY).min(RETRY))
        } else {
            most
        };
        let patience = most.map(Duration::from_millis);
        self.was_failing = self.is_failing;
        self.is_failing = false;
        self.poll.poll(&mut self.events, patience).is_ok()
    }

    // The next who waits. The system tells of new connections only once nobody waited.
    pub(crate) fn accept<R: Wait + Clock>(&mut self, rt: &R, entrance: ListenerKind) -> Caller {
        let accepted = match entrance {
            ListenerKind::Clients => self.clients.accept(),
            ListenerKind::Peers => self.peers.accept(),
        };
        match accepted {
            Ok((stream, address)) => Caller::Connected(stream, address),
            Err(error) => match error.kind() {
                ErrorKind::WouldBlock => Caller::Nobody,
                ErrorKind::ConnectionAborted | ErrorKind::Interrupted => Caller::Gone,
                _ => {
                    self.fail(rt);
                    Caller::Nobody
                }
            },
        }
    }

    // Tells the operator once, and not again as long as it lasts.
    fn fail<R: Wait + Clock>(&mut self, rt: &R) {
        if !self.is_failing && !self.was_failing {
            self.log.report(rt, &Event::AcceptFailed);
        }
        self.is_failing = true;
    }
}
