//! The port of a worker over sockets.

use crate::addresses::Addresses;
use crate::connection::SocketConnection;
use crate::departed::Departed;
use crate::dialed::{BeingMade, Dialed, Made};
use crate::dialer::Dialer;
use crate::handing::{Delivery, IntakeMessage, Mailbox, Newcomers};
use crate::lingering::Lingering;
use crate::setup::PortSetup;
use crate::times::{monotonic_ms, now_ms};
use bnc_work::NodeSite;
use crossbeam_channel::Receiver;
use mio::event::Event as Readiness;
use mio::net::TcpStream;
use mio::{Events, Poll};
use network_client::{Dial, Happening, Mail, Port, PortFault};
use node_events::{Clocks, Event, Unreached};
use node_ports::{Connection, Fresh, Origin};
use operator_log::Log;
use std::alloc::AllocError;
use std::net::SocketAddr;
use std::sync::atomic::{AtomicU64, Ordering};
use std::sync::{Arc, Wait};
use std::time::{Clock, Duration};

// How many events the system tells at once.
const EVENTS: usize = 32;

// After so many happenings the sockets are looked at again. Each other turn is theirs, so all that the system told before is
// handed out by then.
const BETWEEN_LOOKS: usize = 2 * EVENTS;

// How long a worker waits at most, in milliseconds.
const PATIENCE: u64 = 1000;

/// Where one worker's connections come from, over sockets. It keeps none of them, but for those that are being made and those that
/// were let go. As it is dropped, the workers of all its mailboxes are told to end.
pub struct SocketPort<C: Connection, R: Wait + Drop, D: Dialer> {
    rt: R,
    dialer: D,
    poll: Poll,
    events: Events,
    // The next event to be looked at.
    at: usize,
    // How much has happened since the sockets were looked at.
    taken: usize,
    // Whether the sockets were looked at since the worker was told that nothing is there.
    has_looked: bool,
    // Whether an event comes next, before what was handed in.
    is_turn_of_events: bool,
    // Whether a delivery comes next of what was handed in, before a newcomer.
    is_turn_of_parcels: bool,
    deliveries: Receiver<Delivery<C>>,
    newcomers: Newcomers,
    mailboxes: Vec<Mailbox<C>>,
    being_made: BeingMade,
    // Those that were let go, and those of them that were looked at.
    departed: Departed,
    lingering: Lingering,
    // The number of the node's next connection.
    serial: Arc<AtomicU64>,
    addresses: Addresses,
    log: Log,
}

impl<C: Connection, R: Wait + Drop, D: Dialer> Drop for SocketPort<C, R, D> {
    fn drop(self) {
        self.stop_all();
        let Self {
            rt: _,
            dialer: _,
            poll: _,
            events: _,
            at: _,
            taken: _,
            has_looked: _,
            is_turn_of_events: _,
            is_turn_of_parcels: _,
            deliveries: _,
            newcomers: _,
            mailboxes: _,
            being_made: _,
            departed: _,
            lingering: _,
            serial: _,
            addresses: _,
            log: _,
        } = self;
    }
}

impl<C: Connection, R: Wait + Drop, D: Dialer> SocketPort<C, R, D> {
    // Tells all workers to end.
    fn stop_all(&self) {
        for mailbox in self.mailboxes.iter() {
            let _ = mailbox.hand(&self.rt, Delivery::Stop);
        }
    }
}

// Where a connection comes from that was dialed.
fn origin_of(what: Dial) -> Origin {
    match what {
        Dial::Network(place) => Origin::NetworkDialed(place),
        Dial::Peer(place) => Origin::PeerDialed(place),
    }
}

impl<S: NodeSite, R: Wait + Clock + AllocGlobal + Drop, D: Dialer> SocketPort<
    SocketConnection<S>,
    R,
    D,
> {
    // The port of the worker of that setup, to which deliveries arrive there. `mailboxes` are those of all workers, in their
    // order.
    pub(crate) fn new(
        rt: R,
        setup: PortSetup<D>,
        deliveries: Receiver<Delivery<SocketConnection<S>>>,
        mailboxes: Vec<Mailbox<SocketConnection<S>>>,
    ) -> Result<SocketPort<SocketConnection<S>, R, D>, AllocError> {
        let alloc = rt.alloc();
        let events = Events::with_capacity(alloc, EVENTS)?;
        let departed = Departed::new(alloc)?;
        let PortSetup {
            dialer,
            poll,
            waker: _,
            newcomers,
            serial,
            addresses,
            log,
        } = setup;
        Ok(SocketPort {
            rt,
            dialer,
            poll,
            events,
            at: 0,
            taken: 0,
            has_looked: false,
            is_turn_of_events: true,
            is_turn_of_parcels: true,
            deliveries,
            newcomers,
            mailboxes,
            being_made: BeingMade::new(alloc),
            departed,
            lingering: Lingering::new(alloc),
            serial,
            addresses,
            log,
        })
    }

    // A connection over that stream, over which nothing went. None where there is no memory.
    fn fresh(
        &self,
        stream: TcpStream,
        address: SocketAddr,
        origin: Origin,
    ) -> Option<Fresh<SocketConnection<S>>> {
        // Without it small lines wait for one another.
        let _ = stream.set_nodelay(true);
        let departed = self.departed.try_clone().ok()?;
        let serial = self.serial.fetch_add(1, Ordering::SeqCst);
        Some(SocketConnection::over(stream, address, origin, serial, departed))
    }

    // Takes in the sockets that were let go since.
    fn take_departed(&mut self) {
        for _ in 0..EVENTS {
            let Some(stream) = self.departed.pop() else {
                return;
            };
            let now = monotonic_ms(&self.rt).unwrap_or(0);
            self.lingering.add(stream, now);
        }
    }

    // Reads on from the sockets that were let go. Each look of at most a second does so, and bytes that come meanwhile end it.
    fn read_lingering(&mut self) {
        if self.lingering.is_empty() {
            return;
        }
        // (a time that can't be read is up)
        let now = monotonic_ms(&self.rt).unwrap_or(u64::MAX);
        self.lingering.read_on(now);
    }

    // What another worker handed in next.
    fn next_parcel(&self) -> Option<Happening<SocketConnection<S>>> {
        match self.deliveries.try_recv(&self.rt) {
            Ok(Delivery::Mail(mail)) => Some(Happening::Mail(mail)),
            Ok(Delivery::Stop) => Some(Happening::Ended),
            Err(_) => None,
        }
    }

    // Who came in next. One for whom there is no memory is closed.
    fn next_newcomer(&mut self) -> Option<Happening<SocketConnection<S>>> {
        for _ in 0..usize::MAX {
            let newcomer = self.newcomers.next(&self.rt)?;
            let happening = self.let_in(newcomer);
            if happening.is_some() {
                return happening;
            }
        }
        None
    }

    fn let_in(&self, newcomer: IntakeMessage) -> Option<Happening<SocketConnection<S>>> {
        match newcomer {
            IntakeMessage::Client {
                stream,
                address,
                ring,
            } => {
                let fresh = self.fresh(stream, address, Origin::ClientCame)?;
                Some(Happening::Client { fresh, ring })
            }
            IntakeMessage::Peer { stream, address } => {
                let fresh = self.fresh(stream, address, Origin::PeerCame)?;
                Some(Happening::Came(fresh))
            }
            IntakeMessage::Leave => Some(Happening::Leave),
            IntakeMessage::Stop => Some(Happening::Ended),
        }
    }

    // What was handed in next: deliveries and newcomers by turns, as long as both are there.
    fn next_handed(&mut self) -> Option<Happening<SocketConnection<S>>> {
        let is_turn_of_parcels = self.is_turn_of_parcels;
        self.is_turn_of_parcels = !is_turn_of_parcels;
        if is_turn_of_parcels {
            match self.next_parcel() {
                Some(happening) => Some(happening),
                None => self.next_newcomer(),
            }
        } else {
            match self.next_newcomer() {
                Some(happening) => Some(happening),
                None => self.next_parcel(),
            }
        }
    }

    // What the next event that the system told says, where one is left that says something.
    fn next_event(&mut self) -> Option<Happening<SocketConnection<S>>> {
        for _ in 0..EVENTS {
            let event = self.events.iter().as_slice().get(self.at).copied()?;
            self.at = self.at.saturating_add(1);
            let happening = self.read_event(&event);
            if happening.is_some() {
                return happening;
            }
        }
        None
    }

    // What is there: events, and what was handed in, by turns, as long as both are there.
    fn next_there(&mut self) -> Option<Happening<SocketConnection<S>>> {
        let is_turn_of_events = self.is_turn_of_events;
        self.is_turn_of_events = !is_turn_of_events;
        self.taken = self.taken.saturating_add(1);
        if is_turn_of_events {
            match self.next_event() {
                Some(happening) => Some(happening),
                None => self.next_handed(),
            }
        } else {
            match self.next_handed() {
                Some(happening) => Some(happening),
                None => self.next_event(),
            }
        }
    }

    // An event may be an old one, of a connection that is gone. None where it says nothing, as that of the waker.
    fn read_event(&mut self, event: &Readiness) -> Option<Happening<SocketConnection<S>>> {
        let token = event.token();
        if !BeingMade::is_token(token) {
            return Some(Happening::Ready {
                token: token.0,
                is_readable: event.is_readable() || event.is_read_closed() || event.is_error(),
                is_writable: event.is_writable() || event.is_write_closed(),
            });
        }
        match self.being_made.take(self.poll.registry(), token)? {
            Made::There(dialed) => Some(self.come(dialed)),
            Made::Refused(what, why) => Some(Happening::Refused { what, why }),
        }
    }

    // A connection that was dialed is there.
    fn come(&self, dialed: Dialed) -> Happening<SocketConnection<S>> {
        let Dialed {
            stream,
            address,
            what,
        } = dialed;
        match self.fresh(stream, address, origin_of(what)) {
            Some(fresh) => Happening::Came(fresh),
            None => Happening::Refused {
                what,
                why: Unreached::NoMemory,
            },
        }
    }

    // Looks at the sockets, and waits for so long where nothing is there. A signal ends the wait as if the time were up. What
    // was handed in is looked for after each wait, so a wake that was lost costs the patience.
    fn look(&mut self, patience: u64) -> Result<(), PortFault> {
        self.read_lingering();
        self.at = 0;
        self.taken = 0;
        self.has_looked = true;
        let patience = Duration::from_millis(patience.min(PATIENCE));
        match self.poll.poll(&mut self.events, Some(patience)) {
            Ok(()) => Ok(()),
            Err(_) => Err(PortFault),
        }
    }
}

impl<S: NodeSite, R: Wait + Clock + AllocGlobal + Drop, D: Dialer> Port
    for SocketPort<SocketConnection<S>, R, D> {
    type Connection = SocketConnection<S>;

    // The sockets are looked at before each `Nothing`, and after some happenings at the latest: so in each turn of a worker that
    // takes as many at once.
    fn next(&mut self, patience: u64) -> Result<Happening<SocketConnection<S>>, PortFault> {
        self.take_departed();
        if self.taken >= BETWEEN_LOOKS {
            self.look(0)?;
        }
        if let Some(happening) = self.next_there() {
            return Ok(happening);
        }
        if !self.has_looked {
            self.look(patience)?;
            if let Some(happening) = self.next_there() {
                return Ok(happening);
            }
        }
        self.has_looked = false;
        Ok(Happening::Nothing)
    }

    fn dial(&mut self, what: Dial) -> Result<(), Unreached> {
        let Some(address) = self.addresses.of(what) else {
            return Err(Unreached::Gone);
        };
        let stream = self.dialer.connect(address)?;
        let dialed = Dialed {
            stream,
            address,
            what,
        };
        self.being_made.add(self.poll.registry(), dialed)
    }

    fn target(&self, what: Dial) -> Option<SocketAddr> {
        self.addresses.of(what)
    }

    fn watch(
        &mut self,
        connection: &mut SocketConnection<S>,
        token: usize,
    ) -> Result<(), PortFault> {
        match connection.register(self.poll.registry(), token) {
            Ok(()) => Ok(()),
            Err(_) => Err(PortFault),
        }
    }

    fn unwatch(&mut self, connection: &mut SocketConnection<S>) {
        let _ = connection.deregister(self.poll.registry());
    }

    fn send_mail(
        &mut self,
        worker: usize,
        mail: &mut Option<Mail<SocketConnection<S>>>,
    ) -> Result<(), PortFault> {
        let Some(mail) = mail.take() else {
            return Ok(());
        };
        let Some(mailbox) = self.mailboxes.get(worker) else {
            drop(mail);
            return Err(PortFault);
        };
        mailbox.hand(&self.rt, Delivery::Mail(mail))
    }

    fn workers(&self) -> usize {
        self.mailboxes.len()
    }

    fn clocks(&mut self) -> Result<Clocks, PortFault> {
        match (now_ms(&self.rt), monotonic_ms(&self.rt)) {
            (Some(wall), Some(monotonic)) => Ok(Clocks { wall, monotonic }),
            _ => Err(PortFault),
        }
    }

    fn report(&mut self, event: &Event<'_>) {
        self.log.report(&self.rt, event);
    }
}
