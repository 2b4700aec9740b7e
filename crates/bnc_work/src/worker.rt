//! One worker: what comes, and who has something to do.
ghost use Rattle.std.specs.Prelude.{◌≡◌, ◌≤◌, ◌+◌, IfOk, true};
ghost use Rattle.bnc_work.specs.Settings.{AreSettingsOf};

use crate::clock::{ReadTime, read_time};
use crate::hosting::Hosting;
use crate::logged_port::LoggedPort;
use crate::schedule::Schedule;
use crate::seats::Seats;
use crate::settings::NodeSettings;
use crate::timer::Timer;
use crate::waiting::WaitingClients;
use crate::worker_config::{WorkEnd, WorkerConfig};
use byte_text::NoMemory;
use chat_change::Moment;
use hosted_network::{HostedNetwork, Tools};
use network_client::{Dial, Happening, Mail, Port};
use node_events::{ClockWatch, Clocks, Event, Refusals};
use node_peers::Peers;
use node_ports::{Connection, Feeders, Fresh, Origin};
use std::alloc::Global;
use worker_pass::WorkPass;

/// A worker looks after its timers at least so often, in milliseconds.
const LONGEST: u64 = 60_000;

/// So many bytes come in at once.
const CHUNK: usize = 16_384;

/// So much that happened is taken in one turn.
const HAPPENINGS: usize = 64;

/// A worker: its port, what the clocks read, its way into the node, its networks, the peers where it has them, and who else comes.
pub(crate) struct Worker<'a, C, P, N>
where
    C: Connection,
    P: Port<Connection = C>,
    N: WorkPass<Connection = C>,
{
    pub(crate) alloc: Global,
    /// Which worker this is of how many.
    pub(crate) number: usize,
    pub(crate) workers: usize,
    pub(crate) settings: &'a NodeSettings,
    pub(crate) waiting: WaitingClients,
    pub(crate) port: LoggedPort<P>,
    /// Now, by the wall clock.
    pub(crate) moment: Moment,
    /// Now, by the monotonic clock in milliseconds: what is due is due by it.
    pub(crate) now: u64,
    pub(crate) timers: Schedule,
    /// How many clients were refused.
    pub(crate) refusals: Refusals,
    /// Room for bytes that come, for lines that come, and for answers.
    pub(crate) tools: Tools,
    pub(crate) pass: N,
    pub(crate) seats: Seats<C>,
    pub(crate) networks: Vec<Hosting<'a, C, N::View>>,
    /// The first worker has them.
    pub(crate) peers: Option<Peers<C>>,
    /// The tokens of the connections with other nodes.
    pub(crate) peer_tokens: Vec<usize>,
    /// Looks at the clocks before floors are put.
    pub(crate) watch: ClockWatch,
    /// Whether what waits to be published is to be tried again.
    pub(crate) is_publishing: bool,
    pub(crate) ghost are_own: { AreSettingsOf C.facts settings.now },
    pub(crate) ghost it_was_read: { ∥ C.facts.clock moment ∥₁ },
}

// Written out, so that this is proved once, and not in each function that lets a worker go.
impl<'a, C, P, N> Drop for Worker<'a, C, P, N>
where
    C: Connection,
    P: Port<Connection = C>,
    N: WorkPass<Connection = C>,
{
    fn drop(self) {
        let Self {
            alloc: _,
            number: _,
            workers: _,
            settings: _,
            waiting: _waiting,
            port: _port,
            moment: _,
            now: _,
            timers: _timers,
            refusals: _,
            tools: _tools,
            pass: _pass,
            seats: _seats,
            networks: _networks,
            peers: _peers,
            peer_tokens: _peer_tokens,
            watch: _,
            is_publishing: _,
        } = self;
    }
}

// So many timers must not be lost: one of each network's server, that of the peers, that of the floors, and that of what waits.
fn room_of(networks: usize) -> usize {
    networks.saturating_add(3)
}

fn tools(alloc: Global) -> Result<Tools, NoMemory> {
    let Ok(chunk) = vec![in alloc; 0u8; CHUNK] else {
        return Err(NoMemory);
    };
    Ok(Tools {
        chunk,
        feeders: Feeders::new(alloc)?,
        room: Vec::new(alloc),
    })
}

impl<'a, C, P, N> Worker<'a, C, P, N>
where
    C: Connection,
    P: Port<Connection = C>,
    N: WorkPass<Connection = C>,
{
    /// The worker of that number, with the networks that fall to it. The first one has the peers.
    pub(crate) fn new(
        alloc: Global,
        number: usize,
        config: WorkerConfig<'a>,
        port: P,
        pass: N,
        time: ReadTime<C>,
    ) -> Result<Worker<'a, C, P, N>, NoMemory>
        requires own { AreSettingsOf C.facts config.settings.now }
        requires given { N.given pass ≡ 0 }
    {
        let mut worker = Worker::bare(alloc, number, config, port, pass, time)?;
        for place in 0..worker.settings.accounts.count() {
            if !worker.host(place) {
                return Err(NoMemory);
            }
        }
        worker.take_peers()?;
        Ok(worker)
    }

    // The same, without networks and peers.
    fn bare(
        alloc: Global,
        number: usize,
        config: WorkerConfig<'a>,
        port: P,
        pass: N,
        time: ReadTime<C>,
    ) -> Result<Worker<'a, C, P, N>, NoMemory>
        requires own { AreSettingsOf C.facts config.settings.now }
        ensures given { IfOk result (λ worker. N.given worker.pass ≡ N.given pass) }
    {
        let WorkerConfig { settings, waiting } = config;
        let tools = tools(alloc)?;
        let timers = Schedule::new(alloc, room_of(settings.accounts.count()))?;
        let ReadTime { moment, now, .. } = time;
        let clocks = Clocks {
            wall: moment.ms(),
            monotonic: now,
        };
        let workers = port.workers();
        Ok(Worker {
            alloc,
            number,
            workers,
            settings,
            waiting,
            port: LoggedPort::new(port, clocks.wall),
            moment,
            now,
            timers,
            refusals: Refusals::new(now),
            tools,
            pass,
            seats: Seats::new(alloc),
            networks: Vec::new(alloc),
            peers: None,
            peer_tokens: Vec::new(alloc),
            watch: ClockWatch::new(clocks),
            is_publishing: false,
        })
    }

    // Reads the clocks anew. False where they aren't read.
    fn read_clocks(&mut self) -> bool {
        let Some(time) = read_time::<C, LoggedPort<P>>(&mut self.port) else {
            return false;
        };
        let ReadTime { moment, now, .. } = time;
        self.moment = moment;
        self.now = now;
        true
    }

    /// What the clocks read last.
    pub(crate) fn clocks(&self) -> Clocks {
        Clocks {
            wall: self.moment.ms(),
            monotonic: self.now,
        }
    }

    // The operator is told once a minute how many clients were refused that weren't told one by one, and how many connections were
    // closed for want of memory.
    fn tell_counts(&mut self) {
        if let Some(count) = self.refusals.take_untold(self.now) {
            self.port.report(&Event::ClientsRefused { count });
        }
        self.port.tell_shortage(self.now);
    }

    /// Which worker serves the network at that place.
    pub(crate) fn worker_of(&self, network: usize) -> usize {
        network.checked_rem(self.workers).unwrap_or(0)
    }

    /// The network's place among those of its worker, where that is this one.
    pub(crate) fn index_of(&self, network: usize) -> Option<usize> {
        if self.worker_of(network) != self.number {
            return None;
        }
        network.checked_div(self.workers)
    }

    // The network at that place is served here, where it falls to this worker. Views were given of places below it alone. False for
    // want of memory.
    fn host(&mut self, place: usize) -> bool
        requires { N.given self.old.pass ≤ place }
        ensures { result ≡ true → N.given self.new.pass ≤ place + 1 }
    {
        if self.worker_of(place) != self.number {
            return true;
        }
        let Ok(view) = self.pass.view(place) else {
            return false;
        };
        let settings = self.settings;
        let now = self.now;
        let hosted = HostedNetwork::new(
            self.alloc,
            &settings.accounts,
            settings.terms.me(),
            view,
            now,
        );
        let Ok(network) = hosted else {
            return false;
        };
        self.networks
            .push(Hosting::new(self.alloc, network))
            .is_ok()
    }

    // The first worker has the peers.
    fn take_peers(&mut self) -> Result<(), NoMemory> {
        if self.number != 0 {
            return Ok(());
        }
        let settings = self.settings;
        let mut names = Vec::new(self.alloc);
        for name in settings.peers.iter() {
            let name = name.try_clone(self.alloc)?;
            if names.push(name).is_err() {
                return Err(NoMemory);
            }
        }
        let now = self.now;
        let Ok(peers) = Peers::new(self.alloc, &settings.terms, names, now) else {
            return Err(NoMemory);
        };
        self.peers = Some(peers);
        Ok(())
    }

    /// Dials the servers of its networks, and has the floors put that are due, where this is the first worker.
    pub(crate) fn begin(&mut self) {
        for index in 0..self.networks.len() {
            self.dial_server(index);
        }
        if self.number == 0 {
            self.timers.set(Timer::Floors, self.now.saturating_add(0));
            self.dial_peers();
            self.set_peers_timer();
        }
    }

    /// What happened, what is due, and the turns of those that have something to do: of each client and each peer, and of one server.
    /// So a client or a peer waits for one turn of a server, however many lines that has.
    pub(crate) fn turn(&mut self) -> Result<(), WorkEnd> {
        self.take_happenings()?;
        self.look_after_timers();
        self.tell_counts();
        self.serve_busy();
        if let Some(token) = self.seats.next_busy_server() {
            self.serve_server(token);
        }
        self.send_unsent();
        self.tell_news();
        self.publish_later();
        if self.pass.is_shut() {
            return Err(WorkEnd::GateShut);
        }
        Ok(())
    }

    // Each client and each peer that has something to do by now has a turn.
    fn serve_busy(&mut self) {
        for _ in 0..self.seats.busy_count() {
            if let Some(token) = self.seats.next_busy() {
                self.serve(token);
            }
        }
        self.serve_peers();
    }

    // Whether somebody has something to do.
    fn is_busy(&self) -> bool {
        if self.seats.is_busy() || self.networks.iter().any(|hosting| hosting.has_unsent) {
            return true;
        }
        match &self.peers {
            Some(peers) => peers.busy_count() > 0,
            None => false,
        }
    }

    // How long the port may wait.
    fn patience(&self) -> u64 {
        if self.is_busy() {
            return 0;
        }
        let now = self.now;
        let counts = self.refusals.due_at();
        let at = match (self.timers.next(), counts) {
            (Some(at), Some(counts)) => at.min(counts),
            (Some(at), None) | (None, Some(at)) => at,
            (None, None) => return LONGEST,
        };
        at.saturating_sub(now).min(LONGEST)
    }

    // What happened, as far as it is there at once.
    fn take_happenings(&mut self) -> Result<(), WorkEnd> {
        let mut patience = self.patience();
        for _ in 0..HAPPENINGS {
            let Ok(happening) = self.port.next(patience) else {
                return Err(WorkEnd::Failed);
            };
            if !self.read_clocks() {
                drop(happening);
                return Err(WorkEnd::Failed);
            }
            if !self.act_on(happening)? {
                return Ok(());
            }
            patience = 0;
        }
        Ok(())
    }

    // Does what comes of it. False where nothing happened.
    fn act_on(&mut self, happening: Happening<C>) -> Result<bool, WorkEnd> {
        match happening {
            Happening::Client { fresh, ring } => self.client_comes(fresh, ring),
            Happening::Came(fresh) => self.comes(fresh),
            Happening::Refused { what, why } => match what {
                Dial::Network(place) => self.server_unreached(place, why),
                Dial::Peer(place) => self.peer_unreached(place, why),
            },
            Happening::Ready {
                token,
                is_readable,
                is_writable,
            } => self.mark(token, is_readable, is_writable),
            Happening::Leave => self.seats.wake_asked(&self.waiting),
            Happening::Mail(mail) => self.read_mail(mail),
            Happening::Nothing => return Ok(false),
            Happening::Ended => return Err(WorkEnd::Ended),
        }
        Ok(true)
    }

    // A connection is there that another node opened, or that was dialed.
    fn comes(&mut self, fresh: Fresh<C>) {
        match fresh.connection.origin() {
            Origin::NetworkDialed(place) => self.server_comes(place, fresh),
            Origin::PeerCame | Origin::PeerDialed(_) => self.peer_comes(fresh),
            // (those come with their rings)
            Origin::ClientCame => drop(fresh),
        }
    }

    // What another worker tells.
    fn read_mail(&mut self, mail: Mail<C>) {
        match mail {
            Mail::Arrives(moving) => self.arrives(moving),
            Mail::Published => self.publish_to_peers(),
            Mail::Marked { network, target } => self.inform(network, target.as_bytes()),
        }
    }

    // What is due now.
    fn look_after_timers(&mut self) {
        for _ in 0..HAPPENINGS {
            let Some(timer) = self.timers.take_due(self.now) else {
                return;
            };
            match timer {
                Timer::Server(index) => self.look_after_server(index),
                Timer::Newcomer(token) => self.visitor_is_due(token),
                Timer::Client(token) => self.client_is_due(token),
                Timer::Peers => self.look_after_peers(),
                Timer::Floors => self.put_floors(),
                Timer::Publish => self.publish(),
            }
        }
    }
}
