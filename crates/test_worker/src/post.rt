//! What workers tell each other.
use crate::lists::with_one;
use crossbeam_channel::{Receiver, Sender, unbounded};
use network_client::Mail;
use node_ports::Connection;
use std::alloc::Global;
use std::io;
use std::io::Write;
use std::sync::Wait;
use std::time::{Clock, Duration};

/// For so many seconds a worker waits for what another one tells.
const PATIENCE: u64 = 10;

/// Where a worker takes its mail out, and puts it in for each worker.
#[derive(Drop)]
pub struct Post<C: Connection> {
    mail: Receiver<Mail<C>>,
    mailboxes: Vec<Sender<Mail<C>>>,
}

impl<C: Connection> Post<C> {
    /// Those of so many workers. None is want of memory.
    pub fn all(alloc: Global, count: usize) -> Option<Vec<Post<C>>> {
        let mut receivers = Vec::new(alloc);
        let mut senders = Vec::new(alloc);
        for _ in 0..count {
            let (sender, receiver) = unbounded(alloc).ok()?;
            receivers.push(receiver).ok()?;
            senders.push(sender).ok()?;
        }
        let mut all = Vec::new(alloc);
        for mail in receivers {
            let mailboxes = senders.clone().ok()?;
            all = with_one(all, Some(Post { mail, mailboxes }))?;
        }
        Some(all)
    }

    /// How many workers there are.
    pub fn workers(&self) -> usize {
        self.mailboxes.len()
    }

    /// What is told to the worker next. None where nothing is.
    pub fn next<R: Wait + Clock>(&self, rt: &R) -> Option<Mail<C>> {
        let patience = Duration::from_secs(PATIENCE);
        self.mail.recv_timeout(rt, patience).ok()
    }

    /// Tells a worker that. None where there is no such worker, and for want of memory.
    pub fn hand<R: Wait>(&self, rt: &R, worker: usize, mail: Mail<C>) -> Option<()> {
        self.mailboxes.get(worker)?.send(rt, mail).ok()
    }
}

/// Notes what is told to a worker: `arrives NETWORK`, where a client moves to the worker of the network that it names,
/// `marked NETWORK TARGET`, or `published`.
pub fn note_mail<C: Connection>(
    told: &mut Vec<u8>,
    worker: usize,
    mail: &Mail<C>,
) -> io::Result<()> {
    write!(told, "    to worker {worker}: ")?;
    match mail {
        Mail::Arrives(client) => write!(told, "arrives {}\n", client.arrival.network),
        Mail::Marked { network, target } => {
            write!(told, "marked {network} ")?;
            told.extend_from_slice(target.as_bytes())?;
            Ok(told.extend_from_slice(b"\n")?)
        }
        Mail::Published => write!(told, "published\n"),
    }
}
