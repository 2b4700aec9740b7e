//! Connections that were closed here, while the other end may still read what was sent to it last.
use mio::net::TcpStream;
use std::alloc::Global;
use std::collections::VecDeque;
use std::io::{ErrorKind, Read};

// So many stay at most. Where one more is closed, the one that was closed first goes.
const MOST: usize = 16;

// So many milliseconds each stays at most.
const PATIENCE: u64 = 1000;

// So many bytes are read at once.
const PIECE: usize = 4096;

// So often each is read at most.
const READS: usize = 64;

// A connection over which nothing more is sent.
#[derive(Drop)]
struct LingeringStream {
    stream: TcpStream,
    // When it goes, by the monotonic clock.
    until: u64,
    // How often it may still be read.
    reads: usize,
}

// What has become of a connection that was read.
#[derive(Clone, Copy, PartialEq, Eq)]
enum Rest {
    // Nothing is there, for now.
    None,
    // The other end has closed it too, or it was read often enough.
    Over,
}

impl LingeringStream {
    // Reads what is there, and lets it go.
    fn read_on(&mut self) -> Rest {
        let mut piece = [0u8; PIECE];
        for _ in 0..self.reads {
            self.reads = self.reads.saturating_sub(1);
            match self.stream.read(&mut piece) {
                Ok(0) => return Rest::Over,
                Ok(_) => {}
                Err(error) => match error.kind() {
                    ErrorKind::Interrupted => {}
                    ErrorKind::WouldBlock => return Rest::None,
                    _ => return Rest::Over,
                },
            }
        }
        Rest::Over
    }
}

// Connections that were closed here for sending. The system resets a connection that is closed while bytes of the other end lie
// unread, and the other end then may lose what was sent to it last. So what comes is read, until the other end closes too, for a
// second at most.
#[derive(Drop)]
pub(crate) struct Lingering {
    // in the order in which they were closed
    late: VecDeque<LingeringStream>,
}

impl Lingering {
    // No connection.
    pub(crate) fn new(alloc: Global) -> Lingering {
        Lingering {
            late: VecDeque::new(alloc),
        }
    }

    pub(crate) fn is_empty(&self) -> bool {
        self.late.is_empty()
    }

    // Lets a connection stay. Where there is no memory for that it goes at once.
    pub(crate) fn add(&mut self, stream: TcpStream, now: u64) {
        let mut late = LingeringStream {
            stream,
            until: now.saturating_add(PATIENCE),
            reads: READS,
        };
        if late.read_on() == Rest::Over {
            return;
        }
        if self.late.len() >= MOST {
            drop(self.late.pop_front());
        }
        let _ = self.late.push_back(late);
    }

    // Reads what has come over each, and lets those go whose time is up.
    pub(crate) fn read_on(&mut self, now: u64) {
        for _ in 0..self.late.len() {
            let Some(mut late) = self.late.pop_front() else {
                return;
            };
            if late.read_on() == Rest::None && now < late.until {
                let _ = self.late.push_back(late);
            }
        }
    }
}
