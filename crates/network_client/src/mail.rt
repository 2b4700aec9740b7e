//! What workers tell each other.
use crate::newcomer::Arrival;
use byte_text::Text;
use node_ports::Connection;

/// What is kept of a client that isn't registered yet, wherever it moves.
#[derive(Clone, Copy)]
pub struct Coming {
    /// When it is closed, unless it is registered by then, in milliseconds.
    pub until: u64,
    /// How often it moved.
    pub moves: u32,
}

/// A client that moves to the worker that serves the network which it names.
#[derive(Drop)]
pub struct Move<C: Connection> {
    pub arrival: Arrival<C>,
    pub coming: Coming,
}

/// What one worker tells another. No line of a client and none of a server is among it.
#[derive(Drop)]
pub enum Mail<C: Connection> {
    /// A client moves.
    Arrives(Move<C>),
    /// Something was put that peers are to have.
    Published,
    /// The read marker of that target of the network at that place rose.
    Marked { network: usize, target: Text },
}
