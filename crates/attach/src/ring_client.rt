//! A client whose owed bytes lie in a ring.
ghost use Rattle.std.specs.Prelude.{◌≡◌, IfOk, IfErr};
ghost use Rattle.attach.specs.Attachment.{new_client};

use crate::attachment::{Attachment, Overrun};
use crate::places::Stand;
use circular_buffer::HeapCircularBuffer;
use std::alloc::Global;
use std::marker::Model;
use thiserror::Error;

/// There was no memory for the room of a client. Its stand comes back, and still holds its place.
#[derive(Debug, Drop, Error)]
#[error("no memory for the client at place {}", .stand.place())]
pub struct NoRing {
    /// The stand that was passed.
    pub stand: Stand,
}

/// A client at its stand, and a ring with room for all that may be owed.
#[derive(Drop)]
pub struct RingClient {
    stand: Stand,
    ring: HeapCircularBuffer<u8>,
}

impl Model for RingClient {
    ghost use Rattle.attach.specs.Codes.{attachment_code};
    ghost use Rattle.attach.specs.Attachment.{AttachmentState};

    ghost Value = { AttachmentState };

    ghost coded = { attachment_code };

    ghost view = { λ c. record {
      place = c.stand.place;
      bound = c.ring.capacity;
      owed = c.ring.items;
    } };
}

impl RingClient {
    /// A client at this stand to which nothing is owed yet and `bound` bytes may be.
    /// `NoRing` hands the stand back where there was no memory.
    pub fn new(alloc: Global, stand: Stand, bound: usize) -> Result<RingClient, NoRing>
        ensures ok { IfOk result (λ c. c ≡ new_client stand.place bound) }
        ensures err { IfErr result (λ f. f.stand ≡ stand) }
    {
        match HeapCircularBuffer::with_capacity(alloc, bound) {
            Ok(ring) => Ok(RingClient { stand, ring }),
            Err(_) => Err(NoRing { stand }),
        }
    }
}

impl Attachment for RingClient {
    ghost state = { λ c. c };

    fn place(&self) -> usize {
        self.stand.place()
    }

    fn owed(&self) -> usize {
        self.ring.len()
    }

    fn bound(&self) -> usize {
        self.ring.capacity()
    }

    fn offer(&mut self, line: &[u8]) -> Result<(), Overrun> {
        if line.len() > self.ring.capacity() - self.ring.len() {
            return Err(Overrun);
        }
        self.ring.fill_from_slice(line);
        Ok(())
    }

    // What is all taken at once leaves the ring where it began, and not behind it. So a client that reads what it is owed has few
    // of its ring's pages in memory, however much it was sent.
    fn flush_into(&mut self, out: &mut [u8]) -> usize {
        let count = self.ring.len();
        if count > out.len() {
            return self.ring.read_into(out);
        }
        let (front, back) = self.ring.as_slices();
        out[..front.len()].copy_from_slice(front);
        out[front.len()..count].copy_from_slice(back);
        self.ring.clear();
        count
    }

    fn first_owed(&self) -> &[u8] {
        let (front, back) = self.ring.as_slices();
        if front.is_empty() { back } else { front }
    }

    // What is all settled at once leaves the ring where it began, as above.
    fn settle(&mut self, count: usize) {
        let owed = self.ring.len();
        if count < owed {
            self.ring.truncate_front(owed - count);
        } else {
            self.ring.clear();
        }
    }
}
