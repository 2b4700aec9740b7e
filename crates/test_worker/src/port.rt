//! A port of memory, which plays the acts of a case and tells what comes of them.
ghost use Rattle.std.specs.Prelude.{◌≡◌};

use crate::act::{PlayedAct, act_in};
use crate::connection::MemoryConnection;
use crate::entrance::PlaceGiver;
use crate::post::{Post, note_mail};
use crate::script::Script;
use crate::setting::Setting;
use crate::times::Times;
use crate::wire::Readiness;
use crate::wires::{SharedWire, Wires};
use attach::RingClient;
use bnc_work::NodeSite;
use network_client::{Dial, Happening, Mail, Port, PortFault};
use node_events::{Clocks, Event, Unreached};
use node_ports::{Connection, Fresh, Origin};
use std::alloc::{AllocError, Global};
use std::io::{ErrorKind, Write};
use std::net::SocketAddr;
use std::sync::Wait;
use std::time::Clock;

/// A worker that asks more often than this what comes next does so for ever.
const TURNS: u64 = 100_000;

// What comes next at a port of memory.
type Next<S, R> = Happening<MemoryConnection<S, R>>;

/// The port of a worker of the node that `S` says.
pub type PortOf<S, R> = MemoryPort<MemoryConnection<S, R>, R>;

/// A port of memory. It plays an act where its worker has nothing to do and each other end took what it takes.
#[derive(Drop)]
pub struct MemoryPort<C: Connection, R: Wait + Drop> {
    rt: R,
    alloc: Global,
    script: Script,
    times: Times,
    wires: Wires<R>,
    entrance: PlaceGiver,
    post: Post<C>,
    // so many connections were there
    serial: u64,
    // so often the worker asked what comes next
    turns: u64,
    // each act as it stands, and behind it what came of it, with four spaces before it
    told: Vec<u8>,
}

fn tell_line(told: &mut Vec<u8>, margin: &str, text: &str) -> Result<(), AllocError> {
    told.extend_from_slice(margin.as_bytes())?;
    told.extend_from_slice(text.as_bytes())?;
    told.extend_from_slice(b"\n")
}

// The word for whom a connection is begun to, and their place.
fn words_of(what: Dial) -> (&'static str, usize) {
    match what {
        Dial::Network(network) => ("network", network),
        Dial::Peer(peer) => ("peer", peer),
    }
}

fn origin_of(what: Dial) -> Origin {
    match what {
        Dial::Network(network) => Origin::NetworkDialed(network),
        Dial::Peer(peer) => Origin::PeerDialed(peer),
    }
}

impl<S: NodeSite, R: Wait + Clock + Copy + Drop> MemoryPort<MemoryConnection<S, R>, R> {
    /// A port on which a script is played. None is want of memory.
    pub fn new(
        rt: R,
        alloc: Global,
        setting: Setting<'_>,
        entrance: PlaceGiver,
        post: Post<MemoryConnection<S, R>>,
        script: &str,
    ) -> Option<PortOf<S, R>> {
        Some(MemoryPort {
            rt,
            alloc,
            script: Script::new(alloc, script).ok()?,
            times: Times::new(setting.clock),
            wires: Wires::new(rt, alloc, setting.can_dial),
            entrance,
            post,
            serial: 0,
            turns: 0,
            told: Vec::new(alloc),
        })
    }

    /// What came of the acts, line by line: each act as it stands, and behind it what came of it, with four spaces before
    /// it.
    pub fn told(&self) -> &[u8] {
        self.told.as_slice()
    }

    /// Tells something that came of the last act.
    pub fn tell(&mut self, text: &str) -> Result<(), AllocError> {
        tell_line(&mut self.told, "    ", text)
    }

    // What comes next. None is a port that fails.
    fn step(&mut self, patience: u64) -> Option<Next<S, R>> {
        self.turns = self.turns.saturating_add(1);
        if self.turns > TURNS {
            return None;
        }
        if self.script.is_together() {
            return self.next_act();
        }
        if patience == 0 {
            return Some(Happening::Nothing);
        }
        let readiness = self.wires.go_on();
        if readiness.is_some() {
            return Some(ready(readiness));
        }
        if self.times.pass(patience) {
            return Some(Happening::Nothing);
        }
        self.wires.tell(&mut self.told).ok()?;
        self.next_act()
    }

    // The next act.
    fn next_act(&mut self) -> Option<Next<S, R>> {
        match self.script.next_act() {
            Some(text) => self.play(text.as_str()),
            None => Some(Happening::Ended),
        }
    }

    // Plays an act, and notes it.
    fn play(&mut self, text: &str) -> Option<Next<S, R>> {
        tell_line(&mut self.told, "", text).ok()?;
        match act_in(text)? {
            PlayedAct::Wait(time) => self.times.wait(time),
            PlayedAct::Ahead(time) => self.times.set_ahead(time),
            PlayedAct::Back(time) => self.times.set_back(time),
            PlayedAct::Stop => self.times.stop(),
            PlayedAct::Together(count) => self.script.set_together(count),
            PlayedAct::Pause => {}
            PlayedAct::Fail => return None,
            PlayedAct::Leave(place) => {
                self.entrance.ask(place);
                return Some(Happening::Leave);
            }
            PlayedAct::Mail => return self.next_mail(),
            PlayedAct::Client(number, bound) => return self.bring_client(number, bound),
            PlayedAct::Peer(number) => return self.bring_peer(number),
            PlayedAct::Opens(number) => return self.open(number),
            PlayedAct::Refused(number) => return self.refuse(number),
            PlayedAct::To(number, turn) => return Some(ready(self.wires.play(number, turn)?)),
        }
        Some(Happening::Nothing)
    }

    // What the other worker told next. None where it tells nothing.
    fn next_mail(&mut self) -> Option<Next<S, R>> {
        Some(Happening::Mail(self.post.next(&self.rt)?))
    }

    // A connection over that wire, over which nothing went.
    fn connection(
        &mut self,
        number: usize,
        wire: SharedWire,
        origin: Origin,
    ) -> Fresh<MemoryConnection<S, R>>
        ensures { result.connection.origin ≡ origin }
    {
        self.serial = self.serial.wrapping_add(1);
        MemoryConnection::over(self.rt, wire, number, origin, self.serial)
    }

    // A node comes.
    fn bring_peer(&mut self, number: usize) -> Option<Next<S, R>> {
        let wire = self.wires.connect(number, None)?;
        let fresh = self.connection(number, wire, Origin::PeerCame);
        Some(Happening::Came(fresh))
    }

    // A client comes, if there is a place.
    fn bring_client(&mut self, number: usize, bound: usize) -> Option<Next<S, R>> {
        let Some(stand) = self.entrance.claim() else {
            self.tell("no place").ok()?;
            return Some(Happening::Nothing);
        };
        write!(self.told, "    {number} place {}\n", stand.place()).ok()?;
        let ring = RingClient::new(self.alloc, stand, bound).ok()?;
        let wire = self.wires.connect(number, None)?;
        let fresh = self.connection(number, wire, Origin::ClientCame);
        Some(Happening::Client { fresh, ring })
    }

    // The connection that was begun under that number is there.
    fn open(&mut self, number: usize) -> Option<Next<S, R>> {
        let (wire, what) = self.wires.dialed(number)?;
        let fresh = self.connection(number, wire, origin_of(what));
        Some(Happening::Came(fresh))
    }

    // It can't be made.
    fn refuse(&mut self, number: usize) -> Option<Next<S, R>> {
        let (_, what) = self.wires.dialed(number)?;
        Some(Happening::Refused {
            what,
            why: Unreached::System(ErrorKind::ConnectionRefused),
        })
    }

    // (a field can't be lent by `&` from behind two references, as `Port::clocks` has it below)
    fn read_clocks(&self) -> Result<Clocks, PortFault> {
        self.times.read()
    }

    // Begins a connection.
    fn begin(&mut self, what: Dial) -> Option<()> {
        let number = self.wires.begin(what)?;
        let (kind, place) = words_of(what);
        write!(self.told, "    {number} dials {kind} {place}\n").ok()
    }

    // The worker is told of that connection under that token from now on.
    fn tell_of(&mut self, connection: &MemoryConnection<S, R>, token: usize) -> Option<()> {
        let wire = connection.wire().ok()?;
        self.wires.watch(connection.number(), wire, token)
    }

    // That connection moves to another worker.
    fn let_go(&mut self, connection: &MemoryConnection<S, R>) {
        let _ = self.wires.let_go(connection.number(), &mut self.told);
    }

    // Notes the mail, and hands it to that worker.
    fn hand(&mut self, worker: usize, mail: Mail<MemoryConnection<S, R>>) -> Option<()> {
        note_mail(&mut self.told, worker, &mail).ok()?;
        self.post.hand(&self.rt, worker, mail)
    }
}

// What the worker is told.
fn ready<S: NodeSite, R: Wait + Drop>(readiness: Option<Readiness>) -> Next<S, R> {
    match readiness {
        Some(Readiness { token, sign }) => Happening::Ready {
            token,
            is_readable: sign.is_readable,
            is_writable: sign.is_writable,
        },
        None => Happening::Nothing,
    }
}

impl<S: NodeSite, R: Wait + Clock + Copy + Drop> Port
    for &mut MemoryPort<MemoryConnection<S, R>, R> {
    type Connection = MemoryConnection<S, R>;

    fn next(&mut self, patience: u64) -> Result<Next<S, R>, PortFault> {
        (**self).step(patience).ok_or(PortFault)
    }

    fn dial(&mut self, what: Dial) -> Result<(), Unreached> {
        (**self).begin(what).ok_or(Unreached::TooManyFiles)
    }

    fn target(&self, what: Dial) -> Option<SocketAddr> {
        let address = match what {
            Dial::Network(_) => "10.0.0.1:6667",
            Dial::Peer(_) => "[::1]:7001",
        };
        address.parse::<SocketAddr>().ok()
    }

    fn watch(
        &mut self,
        connection: &mut MemoryConnection<S, R>,
        token: usize,
    ) -> Result<(), PortFault> {
        (**self).tell_of(connection, token).ok_or(PortFault)
    }

    fn unwatch(&mut self, connection: &mut MemoryConnection<S, R>) {
        (**self).let_go(connection);
    }

    fn send_mail(
        &mut self,
        worker: usize,
        mail: &mut Option<Mail<MemoryConnection<S, R>>>,
    ) -> Result<(), PortFault> {
        match mail.take() {
            Some(mail) => (**self).hand(worker, mail).ok_or(PortFault),
            None => Ok(()),
        }
    }

    fn workers(&self) -> usize {
        self.post.workers()
    }

    fn clocks(&mut self) -> Result<Clocks, PortFault> {
        (**self).read_clocks()
    }

    fn report(&mut self, event: &Event<'_>) {
        let _ = write!(self.told, "    told {event}\n");
    }
}
