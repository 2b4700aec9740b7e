//! A client that remembers the last bytes which it accepted.
ghost use Rattle.std.specs.Prelude.{◌≡◌, ◌≤◌, ◌++◌, ◌↔◌, length, take, drop, min, vec_capacity, IsErr, OnOk, OnErr, IfOk, IfErr};
ghost use Rattle.attach.specs.Attachment.{Exceeds};
ghost use Rattle.attach.specs.Recorder.{recording_without_first, new_recorder, with_recorded_line};

use crate::attachment::{Attachment, Overrun};
use crate::places::Stand;
use crate::ring_client::{NoRing, RingClient};
use circular_buffer::HeapCircularBuffer;
use std::alloc::Global;
use std::marker::Model;

/// A ring client, and the last bytes that it accepted, flushed or not: at most as many as may be owed.
#[derive(Drop)]
pub struct Recorder {
    client: RingClient,
    latest: HeapCircularBuffer<u8>,
    // Room to lay the record out in one piece.
    room: Vec<u8>,
}

impl Model for Recorder {
    ghost use Rattle.std.specs.Prelude.{◌≡◌, ◌≤◌, vec_capacity};
    ghost use Rattle.attach.specs.Codes.{recorder_code};
    ghost use Rattle.attach.specs.Recorder.{RecorderState};

    ghost Value = { RecorderState };

    ghost coded = { recorder_code };

    ghost view = { λ c. record { client = c.client; recorded = c.latest.items } };

    ghost invariant = { λ c. (c.latest.capacity ≡ c.client.bound)
        × (c.client.bound ≤ vec_capacity c.room) };
}

// Copies what is in the ring into the room, in one piece.
fn lay_out(ring: &HeapCircularBuffer<u8>, room: &mut Vec<u8>)
    requires { ring.now.capacity ≤ vec_capacity room.old }
    ensures items { room.new.items ≡ ring.now.items }
    ensures capacity { vec_capacity room.old ≤ vec_capacity room.new }
{
    let count = ring.len();
    let (older, newer) = ring.as_slices();
    prove!(count <= ring.capacity());
    room.clear();
    let _ = room.extend_from_slice(older);
    let _ = room.extend_from_slice(newer);
}

impl Recorder {
    ghost use Rattle.attach.specs.contracts.recorder.Recorder.{the_row};
    ghost use Rattle.std.specs.Borrow.{sem};
    ghost use Rattle.std.specs.Io.BufRead.{Rests};

    /// A client at this stand to which nothing is owed yet and `bound` bytes may be, with an empty record.
    /// `NoRing` hands the stand back where there was no memory.
    pub fn new(alloc: Global, stand: Stand, bound: usize) -> Result<Recorder, NoRing>
        ensures ok { IfOk result (λ c. c ≡ new_recorder stand.place bound) }
        ensures err { IfErr result (λ f. f.stand ≡ stand) }
    {
        let Ok(latest) = HeapCircularBuffer::with_capacity(alloc, bound) else {
            return Err(NoRing { stand });
        };
        let Ok(room) = Vec::with_capacity(alloc, bound) else {
            return Err(NoRing { stand });
        };
        let client = RingClient::new(alloc, stand, bound)?;
        Ok(Recorder {
            client,
            latest,
            room,
        })
    }

    /// Lends the last bytes that were accepted, oldest first. Takes no memory.
    pub fn recorded(&mut self) -> &[u8]
        ensures lent { result.now ≡ self.old.recorded }
        // The recorder is as before once the bytes are no longer used.
        ensures* left { sem 𝓛 (Rests the_row self.entry (λ new. new ≡ self.old)) }
    {
        lay_out(&self.latest, &mut self.room);
        self.room.as_slice()
    }
}

impl Attachment for Recorder {
    ghost state = { λ c. c.client };

    fn place(&self) -> usize {
        self.client.place()
    }

    fn owed(&self) -> usize {
        self.client.owed()
    }

    fn bound(&self) -> usize {
        self.client.bound()
    }

    fn offer(&mut self, line: &[u8]) -> Result<(), Overrun>
        ensures overrun { IsErr result ↔ Exceeds self.old.client line.now }
        ensures ok { OnOk result (self.new ≡ with_recorded_line self.old line.now) }
        ensures err { OnErr result (self.new ≡ self.old) }
    {
        self.client.offer(line)?;
        self.latest.extend_from_slice(line);
        Ok(())
    }

    fn flush_into(&mut self, out: &mut [u8]) -> usize
        ensures count { result ≡ min (length out.old) (length self.old.client.owed) }
        ensures moved { out.new ≡ take result self.old.client.owed ++ drop result out.old }
        ensures left { self.new ≡ recording_without_first self.old result }
    {
        self.client.flush_into(out)
    }

    fn first_owed(&self) -> &[u8] {
        self.client.first_owed()
    }

    fn settle(&mut self, count: usize)
        ensures { self.new ≡ recording_without_first self.old count }
    {
        self.client.settle(count);
    }
}
