//! Feeders that are lent to connections over which something comes.
ghost use Rattle.std.specs.Prelude.{◌≡◌, None, IfOk, IfSome, []};
ghost use Rattle.irc_line.specs.Stream.{holding};

use byte_text::NoMemory;
use irc_line::Feeder;
use std::alloc::Global;
use std::marker::Model;

/// So many feeders are kept while no connection has them.
const KEPT: usize = 16;

/// Feeders that are lent to connections. A connection has one only while it is read, or while a part of a line came over it.
/// One that is lent holds nothing, so no line of a connection has bytes that came over another.
#[derive(Drop)]
pub struct Feeders {
    alloc: Global,
    // those that no connection has. Each holds nothing
    spare: Vec<Feeder>,
}

impl Model for Feeders {
    ghost use Rattle.std.specs.Prelude.{◌≡◌, []};
    ghost use Rattle.std.specs.List.{All};
    ghost use Rattle.irc_line.specs.Stream.{holding};

    ghost Value = { Unit {0} };

    ghost view = { λ f. tt };

    ghost invariant = { λ f. All (λ feeder. feeder ≡ holding []) f.spare.items };
}

impl Feeders {
    /// None is kept yet, and there is room for those that will be.
    pub fn new(alloc: Global) -> Result<Feeders, NoMemory> {
        let Ok(spare) = Vec::with_capacity(alloc, KEPT) else {
            return Err(NoMemory);
        };
        Ok(Feeders { alloc, spare })
    }

    /// A feeder that holds nothing.
    pub fn lend(&mut self) -> Result<Feeder, NoMemory>
        ensures { IfOk result (λ feeder. feeder ≡ holding []) }
    {
        match self.spare.pop() {
            Some(feeder) => Ok(feeder),
            None => Feeder::new(self.alloc),
        }
    }

    /// Takes a feeder back where it holds nothing. One that holds something is handed back as it was.
    pub fn take_back(&mut self, feeder: Feeder) -> Option<Feeder>
        ensures kept { IfSome result (λ kept. kept ≡ feeder) }
        ensures empty { result ≡ None → feeder ≡ holding [] }
    {
        if !feeder.is_empty() {
            return Some(feeder);
        }
        if self.spare.len() < KEPT {
            let _ = self.spare.push(feeder);
        }
        None
    }
}
