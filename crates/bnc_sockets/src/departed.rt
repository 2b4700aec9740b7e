//! Connections that were let go, on their way to the port that reads on from them.
use crossbeam_queue::RuledArrayQueue;
use crossbeam_queue::protocol::Free;
use mio::net::TcpStream;
use std::alloc::{AllocError, Global};
use std::net::Shutdown;
use std::sync::Arc;

// So many wait for the port at most. A further one is closed at once.
const MOST: usize = 16;

// The streams of connections that were let go, by whichever thread. A drop has no leave to wait, so a stream is pushed by one
// attempt.
#[derive(Drop)]
pub(crate) struct Departed {
    queue: Arc<RuledArrayQueue<TcpStream, (), Free>>,
}

impl Departed {
    // No stream.
    pub(crate) fn new(alloc: Global) -> Result<Departed, AllocError> {
        let (queue, _) = RuledArrayQueue::ruled(alloc, MOST)?;
        Ok(Departed {
            queue: Arc::new(alloc, queue)?,
        })
    }

    // The same, for a connection.
    pub(crate) fn try_clone(&self) -> Result<Departed, AllocError> {
        Ok(Departed {
            queue: Arc::try_clone(&self.queue)?,
        })
    }

    // Closes a connection for sending, and lets the port have it. Where none further can wait it is closed.
    pub(crate) fn push(&self, stream: TcpStream) {
        let _ = stream.shutdown(Shutdown::Write);
        let mut pass = self.queue.pass();
        drop(self.queue.try_push_as::<Free>(&mut pass, stream));
    }

    // The next of them.
    pub(crate) fn pop(&self) -> Option<TcpStream> {
        let mut pass = self.queue.pass();
        self.queue.try_pop_as::<Free>(&mut pass)
    }
}
