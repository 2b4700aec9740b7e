//! Connections that are being made.
use crate::stream::{DialOutcome, outcome_of};
use mio::net::TcpStream;
use mio::{Interest, Registry, Token};
use network_client::Dial;
use node_events::Unreached;
use slab::Slab;
use std::alloc::Global;
use std::net::SocketAddr;

// The token of the first of them. Those below are the worker's own.
const FIRST: usize = usize::MAX / 2;

// A connection that is being made.
#[derive(Drop)]
pub(crate) struct Dialed {
    pub(crate) stream: TcpStream,
    pub(crate) address: SocketAddr,
    pub(crate) what: Dial,
}

// What has become of a connection that was being made.
#[derive(Drop)]
pub(crate) enum Made {
    // It is there.
    There(Dialed),
    Refused(Dial, Unreached),
}

// Connections that are being made, one for each network and peer at most.
#[derive(Drop)]
pub(crate) struct BeingMade {
    all: Slab<Dialed>,
}

impl BeingMade {
    // No connection.
    pub(crate) fn new(alloc: Global) -> BeingMade {
        BeingMade {
            all: Slab::new(alloc),
        }
    }

    // Adds a connection, of which the poll tells from now on. An earlier one to the same other end is given up.
    pub(crate) fn add(&mut self, registry: &Registry, dialed: Dialed) -> Result<(), Unreached> {
        let what = dialed.what;
        self.all.retain(|_, other| other.what != what);
        let Ok(key) = self.all.insert(dialed) else {
            return Err(Unreached::NoMemory);
        };
        if self.register(registry, key) {
            return Ok(());
        }
        drop(self.all.try_remove(key));
        Err(Unreached::NoMemory)
    }

    fn register(&mut self, registry: &Registry, key: usize) -> bool {
        let Some(dialed) = self.all.get_mut(key) else {
            return false;
        };
        let interests = Interest::READABLE | Interest::WRITABLE;
        let token = Token(FIRST.saturating_add(key));
        registry
            .register(&mut dialed.stream, token, interests)
            .is_ok()
    }

    // Whether the token is one of those of connections that are being made, and no connection's of the worker.
    pub(crate) fn is_token(token: Token) -> bool {
        token.0 >= FIRST
    }

    // What has become of the connection of that token, where something has. It is taken out then, and the poll tells no more of it.
    pub(crate) fn take(&mut self, registry: &Registry, token: Token) -> Option<Made> {
        let key = token.0.checked_sub(FIRST)?;
        let dialed = self.all.get(key)?;
        let what = dialed.what;
        match outcome_of(&dialed.stream) {
            DialOutcome::Pending => None,
            DialOutcome::Failed(why) => {
                drop(self.all.try_remove(key));
                Some(Made::Refused(what, why))
            }
            DialOutcome::Connected => {
                let mut dialed = self.all.try_remove(key)?;
                let _ = registry.deregister(&mut dialed.stream);
                Some(Made::There(dialed))
            }
        }
    }
}
