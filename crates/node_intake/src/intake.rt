//! Where connections are taken in.
use crate::listeners::{Caller, ListenerKind, Listeners};
use crate::places::ClientPlaces;
use crate::queue::{MOST_QUEUED, Queue};
use crate::worker_intakes::WorkerIntakes;
use attach::RingClient;
use bnc_sockets::{WorkerIntake, monotonic_ms};
use node_events::{Reason, ServeFault};
use std::sync::Wait;
use std::thread;
use std::thread::Threads;
use std::time::Clock;

// After so many milliseconds it is looked whether worker 0 has taken a node in by now.
const PEERS_PATIENCE: u64 = 1;

/// Where connections come in, and where they are handed to the workers: clients, of whom each has a place, to the workers in
/// turn, and peers to worker 0. Where each place is taken those give way who have waited longest to be registered. As long as 16
/// peers wait for worker 0, the next ones wait in the queue of the system.
#[derive(Drop)]
pub struct Intake {
    listeners: Listeners,
    queue: Queue,
    places: ClientPlaces,
    workers: WorkerIntakes,
    // How many bytes may be owed to a client.
    bound: usize,
}

impl Intake {
    // Nobody is there, and nobody waits.
    pub(crate) fn new(
        listeners: Listeners,
        queue: Queue,
        places: ClientPlaces,
        intakes: Vec<WorkerIntake>,
        bound: usize,
    ) -> Intake {
        Intake {
            listeners,
            queue,
            places,
            workers: WorkerIntakes::new(intakes),
            bound,
        }
    }

    // Takes connections in from now on, on a thread of its own. Once the system can't wait for them the workers are told to end.
    pub(crate) fn begin<R>(self, rt: &R) -> Result<(), ServeFault>
    where
        R: Threads + Wait + Clock + AllocGlobal + Copy + Send + Drop + 'static,
    {
        self.listeners.tell(rt);
        if receive_in_a_thread(*rt, self) {
            Ok(())
        } else {
            Err(ServeFault::NoThread)
        }
    }

    // Takes connections in for as long as the system can wait for them. Then the workers are told to end.
    fn receive<R: Wait + Clock + AllocGlobal>(&mut self, rt: &R) {
        for _ in rt.forever() {
            // (first, since the system doesn't tell once more of those whom a full queue left waiting)
            self.seat_all(rt);
            let was_client = self.queue.take_client(rt, &mut self.listeners);
            let is_crowded = !self.workers.has_room_for_a_peer();
            let was_peer = !is_crowded && self.take_peer(rt);
            if !was_client && !was_peer && !self.wait(rt, is_crowded) {
                break;
            }
            self.queue.tell_refusals(rt);
        }
        self.workers.stop(rt);
    }

    // Waits until somebody connects, or until it is time to look at something else. False where the system can't wait. (Nor does
    // the system tell once more of nodes that connected while worker 0 had no room for them.)
    fn wait<R: Clock>(&mut self, rt: &R, is_crowded: bool) -> bool {
        let most = if is_crowded {
            Some(PEERS_PATIENCE)
        } else {
            self.queue.patience(rt)
        };
        self.listeners.wait(most)
    }

    // Hands the next node that connected to worker 0. False where none waited.
    fn take_peer<R: Wait + Clock>(&mut self, rt: &R) -> bool {
        match self.listeners.accept(rt, ListenerKind::Peers) {
            Caller::Nobody => false,
            Caller::Gone => true,
            Caller::Connected(stream, address) => {
                self.workers.hand_peer(rt, stream, address);
                true
            }
        }
    }

    // Hands in those who wait for a place, in their order and as far as places are free.
    fn seat_all<R: Wait + Clock + AllocGlobal>(&mut self, rt: &R) {
        for _ in 0..MOST_QUEUED {
            if self.queue.len() == 0 {
                return;
            }
            let Ok(stand) = self.places.claim() else {
                return self.make_way(rt);
            };
            let place = stand.place();
            let ring = RingClient::new(rt.alloc(), stand, self.bound).ok();
            self.seat_next(rt, place, ring);
        }
    }

    // Hands in who has waited longest for a place, with its ring. Where there was no memory for that it is closed.
    fn seat_next<R: Wait + Clock>(&mut self, rt: &R, place: usize, ring: Option<RingClient>) {
        let Some((stream, address)) = self.queue.pop() else {
            return;
        };
        let Some(ring) = ring else {
            return self.queue.tell_refused(rt, address, Reason::NoMemory);
        };
        self.places.begin(place);
        if self.workers.hand_client(rt, stream, address, ring) {
            self.places.note(place);
        }
    }

    // Each place is taken. For each who waits for one, who has waited longest to be registered is asked to go. Where nobody is
    // left to be asked, those who wait for a place are closed.
    fn make_way<R: Wait + Clock>(&mut self, rt: &R) {
        let now = monotonic_ms(rt).unwrap_or(0);
        let mut are_asked = false;
        for _ in self.places.count_leaving(now)..self.queue.len() {
            if !self.places.ask_longest(now) {
                break;
            }
            are_asked = true;
        }
        if are_asked {
            self.workers.tell_leave(rt);
        }
        if self.places.count_leaving(now) == 0 {
            self.queue.refuse_all(rt);
        }
    }
}

// Takes connections in on a thread of its own. False where the system gives no thread.
fn receive_in_a_thread<R>(rt: R, intake: Intake) -> bool
where
    R: Threads + Wait + Clock + AllocGlobal + Copy + Send + Drop + 'static,
{
    let run = move || {
        let mut intake = intake;
        intake.receive(&rt);
    };
    thread::spawn(&rt, run).is_ok()
}
