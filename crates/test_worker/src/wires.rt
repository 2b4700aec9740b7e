//! The wires of a port of memory.
use crate::act::FarTurn;
use crate::wire::{Readiness, Wire};
use network_client::Dial;
use std::alloc::Global;
use std::collections::BTreeMap;
use std::io;
use std::sync::{Arc, Mutex, Wait};

/// The first connection that is begun has this number, and the next one the next.
const DIALED: usize = 10;

/// What a port and a worker share of a connection.
pub type SharedWire = Arc<Mutex<Wire>>;

/// The wires of a worker's connections, and of those that it begins, by the numbers by which acts name them.
#[derive(Drop)]
pub struct Wires<R: Wait + Drop> {
    rt: R,
    alloc: Global,
    wires: BTreeMap<usize, SharedWire>,
    // the number of the next one that is begun; None where none can be
    dialed: Option<usize>,
}

impl<R: Wait + Drop> Wires<R> {
    /// No wires yet. Whether connections can be begun.
    pub fn new(rt: R, alloc: Global, can_dial: bool) -> Wires<R> {
        Wires {
            rt,
            alloc,
            wires: BTreeMap::new(alloc),
            dialed: if can_dial { Some(DIALED) } else { None },
        }
    }

    /// A new wire under that number. It was dialed, or not. None is want of memory.
    pub fn connect(&mut self, number: usize, dialed: Option<Dial>) -> Option<SharedWire> {
        let wire = Mutex::new(Wire::new(self.alloc, dialed));
        let wire = Arc::new(self.alloc, wire).ok()?;
        let shared = Arc::try_clone(&wire).ok()?;
        self.wires.insert(number, wire).ok()?;
        Some(shared)
    }

    /// Begins a connection, and answers its number.
    pub fn begin(&mut self, what: Dial) -> Option<usize> {
        let number = self.dialed?;
        self.connect(number, Some(what))?;
        self.dialed = number.checked_add(1);
        Some(number)
    }

    /// The wire of a connection that was begun under that number, and whom it is to reach.
    pub fn dialed(&self, number: usize) -> Option<(SharedWire, Dial)> {
        let wire = self.wires.get(&number)?;
        let what = wire.lock(&self.rt).dialed()?;
        Some((Arc::try_clone(wire).ok()?, what))
    }

    /// The worker is told of that wire under that token from now on.
    pub fn watch(&mut self, number: usize, wire: SharedWire, token: usize) -> Option<()> {
        wire.lock(&self.rt).watch(Some(token));
        self.wires.insert(number, wire).ok()?;
        Some(())
    }

    /// The wire of that number moves to another port. What was sent over it is told.
    pub fn let_go(&mut self, number: usize, told: &mut Vec<u8>) -> io::Result<()> {
        let Some(wire) = self.wires.remove(&number) else {
            return Ok(());
        };
        let mut wire = wire.lock(&self.rt);
        wire.watch(None);
        wire.tell_sent(number, told)
    }

    /// The other end of that wire has its turn: what the worker is told of that. None where the wire isn't there, and for
    /// want of memory.
    pub fn play(&mut self, number: usize, turn: FarTurn<'_>) -> Option<Option<Readiness>> {
        let wire = self.wires.get(&number)?;
        wire.lock(&self.rt).play(turn).ok()
    }

    /// What the worker is told once it has nothing to do: of the first wire over which more comes, or whose other end takes more.
    pub fn go_on(&mut self) -> Option<Readiness> {
        for wire in self.wires.values() {
            let readiness = wire.lock(&self.rt).go_on();
            if readiness.is_some() {
                return readiness;
            }
        }
        None
    }

    /// Tells what was sent, and which connections were closed, since the last telling.
    pub fn tell(&self, told: &mut Vec<u8>) -> io::Result<()> {
        for (number, wire) in self.wires.iter() {
            wire.lock(&self.rt).tell(*number, told)?;
        }
        Ok(())
    }
}
