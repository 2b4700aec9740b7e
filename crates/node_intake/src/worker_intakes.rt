//! The workers of a node, as those who connect are handed in to them.
use attach::RingClient;
use bnc_sockets::WorkerIntake;
use mio::net::TcpStream;
use std::net::SocketAddr;
use std::sync::Wait;

// An intake for each worker. Clients are handed to the workers in turn, peers to worker 0.
#[derive(Drop)]
pub(crate) struct WorkerIntakes {
    intakes: Vec<WorkerIntake>,
    // The worker to which the next client is handed.
    next: usize,
}

impl WorkerIntakes {
    pub(crate) fn new(intakes: Vec<WorkerIntake>) -> WorkerIntakes {
        WorkerIntakes { intakes, next: 0 }
    }

    // Hands a client to the next worker. False where that one has ended.
    pub(crate) fn hand_client<R: Wait>(
        &mut self,
        rt: &R,
        stream: TcpStream,
        address: SocketAddr,
        ring: RingClient,
    ) -> bool {
        let worker = self.next.checked_rem(self.intakes.len()).unwrap_or(0);
        self.next = worker.wrapping_add(1);
        match self.intakes.get(worker) {
            Some(intake) => intake.hand_client(rt, stream, address, ring).is_ok(),
            None => false,
        }
    }

    // Whether a further node that connected may wait for worker 0.
    pub(crate) fn has_room_for_a_peer(&self) -> bool {
        match self.intakes.first() {
            Some(intake) => intake.has_room_for_a_peer(),
            None => false,
        }
    }

    // Hands a node that connected to worker 0.
    pub(crate) fn hand_peer<R: Wait>(&self, rt: &R, stream: TcpStream, address: SocketAddr) {
        if let Some(intake) = self.intakes.first() {
            let _ = intake.hand_peer(rt, stream, address);
        }
    }

    // Tells the workers that clients were asked to leave. Any of them may have such a client by now.
    pub(crate) fn tell_leave<R: Wait>(&self, rt: &R) {
        for intake in self.intakes.iter() {
            let _ = intake.tell_leave(rt);
        }
    }

    // Tells the workers to end.
    pub(crate) fn stop<R: Wait>(&self, rt: &R) {
        for intake in self.intakes.iter() {
            intake.stop(rt);
        }
    }
}
