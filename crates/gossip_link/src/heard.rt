//! What lines do.
ghost use Rattle.std.specs.Prelude.{◌≡◌, Option};
ghost use Rattle.gossip_link.specs.Session as spec;

use cluster_directory::{Life, NodeName};
use peer_lines::{Arrived, PeerLine};

/// Why a connection is to be closed because of a line.
#[derive(Clone, Copy)]
pub enum Fault {
    /// It is a word: another one than the shared one, or where no word may come.
    WrongWord,
    /// It is a hello: of no configured peer, of another node than before, or where no hello may come.
    UnknownNode,
    /// It is a hello by this node's own name.
    OwnName,
    /// It can't be read, is too long, or may not come there.
    BadLine,
}

/// What a line does.
#[derive(Drop)]
pub enum Heard {
    /// Nothing arrived with it.
    Nothing,
    /// That arrived with it, from the peer at that place of the terms.
    Message(usize, Arrived),
    /// The connection is to be closed, for that fault of the line.
    Close(Fault),
}

impl Fault {
    /// The fault of a line that the handshake of a node of that name refuses. None stands for one that can't be read or is too
    /// long.
    pub(crate) fn of(me: &NodeName, line: &Option<PeerLine>) -> Fault
        ensures { result ≡ spec.fault_of me.now line.now }
    {
        match line {
            Some(PeerLine::Word(_)) => Fault::WrongWord,
            Some(PeerLine::Hello(life, _)) => Fault::of_hello(me, life),
            Some(PeerLine::Head(_)) => Fault::BadLine,
            Some(PeerLine::Change(_)) => Fault::BadLine,
            Some(PeerLine::Ack(_)) => Fault::BadLine,
            None => Fault::BadLine,
        }
    }

    // The fault of a hello of that life.
    fn of_hello(me: &NodeName, life: &Life) -> Fault
        ensures { result ≡ spec.fault_of_hello me.now life.now.node }
    {
        if life.is_of(me) {
            Fault::OwnName
        } else {
            Fault::UnknownNode
        }
    }
}
