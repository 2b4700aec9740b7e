//! A client that counts what it accepted.
ghost use Rattle.std.specs.Prelude.{◌≡◌, ◌++◌, ◌↔◌, length, take, drop, min, IsErr, OnOk, OnErr, IfOk, IfErr};
ghost use Rattle.attach.specs.Attachment.{Exceeds};
ghost use Rattle.attach.specs.CountingClient.{counting_without_first, new_counting_client, with_counted_line};

use crate::attachment::{Attachment, Overrun};
use crate::places::Stand;
use crate::ring_client::{NoRing, RingClient};
use std::alloc::Global;
use std::marker::Model;

/// A ring client that counts the lines and the bytes which it accepted, flushed or not.
#[derive(Drop)]
pub struct CountingClient {
    client: RingClient,
    lines: u64,
    bytes: u64,
}

impl Model for CountingClient {
    ghost use Rattle.attach.specs.Codes.{counting_client_code};
    ghost use Rattle.attach.specs.CountingClient.{CountingClientState};

    ghost Value = { CountingClientState };

    ghost coded = { counting_client_code };

    ghost view = { λ c. record { client = c.client; lines = c.lines; bytes = c.bytes } };
}

impl CountingClient {
    /// A client at this stand to which nothing is owed yet and `bound` bytes may be, with counts of 0.
    /// `NoRing` hands the stand back where there was no memory.
    pub fn new(alloc: Global, stand: Stand, bound: usize) -> Result<CountingClient, NoRing>
        ensures ok { IfOk result (λ c. c ≡ new_counting_client stand.place bound) }
        ensures err { IfErr result (λ f. f.stand ≡ stand) }
    {
        let client = RingClient::new(alloc, stand, bound)?;
        Ok(CountingClient {
            client,
            lines: 0,
            bytes: 0,
        })
    }

    /// How many lines were accepted. It stays at the greatest number once it is there.
    pub fn lines(&self) -> u64
        ensures { result ≡ self.now.lines }
    {
        self.lines
    }

    /// How many bytes were accepted. It stays at the greatest number once it is there.
    pub fn bytes(&self) -> u64
        ensures { result ≡ self.now.bytes }
    {
        self.bytes
    }
}

impl Attachment for CountingClient {
    ghost state = { λ c. c.client };

    fn place(&self) -> usize {
        self.client.place()
    }

    fn owed(&self) -> usize {
        self.client.owed()
    }

    fn bound(&self) -> usize {
        self.client.bound()
    }

    fn offer(&mut self, line: &[u8]) -> Result<(), Overrun>
        ensures overrun { IsErr result ↔ Exceeds self.old.client line.now }
        ensures ok { OnOk result (self.new ≡ with_counted_line self.old line.now) }
        ensures err { OnErr result (self.new ≡ self.old) }
    {
        self.client.offer(line)?;
        self.lines = self.lines.saturating_add(1);
        self.bytes = self.bytes.saturating_add(line.len() as u64);
        Ok(())
    }

    fn flush_into(&mut self, out: &mut [u8]) -> usize
        ensures count { result ≡ min (length out.old) (length self.old.client.owed) }
        ensures moved { out.new ≡ take result self.old.client.owed ++ drop result out.old }
        ensures left { self.new ≡ counting_without_first self.old result }
    {
        self.client.flush_into(out)
    }

    fn first_owed(&self) -> &[u8] {
        self.client.first_owed()
    }

    fn settle(&mut self, count: usize)
        ensures { self.new ≡ counting_without_first self.old count }
    {
        self.client.settle(count);
    }
}
