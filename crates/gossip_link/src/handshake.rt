//! How two nodes that are connected make sure of each other, before anything that one sends is handed up to the link of
//! the other.

ghost use Rattle.std.specs.Prelude.{◌≡◌};
ghost use Rattle.std.specs.Option.{option_map};
ghost use Rattle.std.specs.Map.Iter.{deref};
ghost use Rattle.gossip_link.specs.Handshake as spec;

use cluster_directory::Terms;
use peer_lines::PeerLine;

/// Who opened a connection.
#[derive(Clone, Copy, PartialEq, Eq)]
pub enum Side {
    /// This node, to the peer at that place of the terms, whom it greets first.
    Opener(usize),
    /// The other node. This one answers once it has heard the right word and a peer's hello.
    Acceptor,
}

/// How far the other node of a connection has come.
#[derive(Clone, Copy, PartialEq, Eq)]
pub enum HandshakeStage {
    /// It has said nothing.
    Silent,
    /// It has said the right word.
    Trusted,
    /// It has just said its first hello: the peer at that place of the terms.
    Introduced(usize),
    /// It has said more since: the peer at that place.
    Known(usize),
    /// It broke the rules, and the connection is to be closed.
    Refused,
}

/// What is to be done with a line, or because of it.
#[derive(Clone, Copy, PartialEq, Eq)]
pub enum Action {
    /// Nothing.
    Wait,
    /// The own word and then the own hello are to be sent to the peer at that place of the terms, and the line goes to the
    /// link with it.
    GreetAndHandUp(usize),
    /// The line goes to the link with the peer at that place of the terms.
    HandUp(usize),
    /// The connection is to be closed, and the line is dropped.
    Close,
}

// The stage after a node that was trusted said hello.
fn after_hello(place: Option<usize>) -> HandshakeStage
    ensures { result ≡ spec.introduced_at place }
{
    match place {
        Some(place) => HandshakeStage::Introduced(place),
        None => HandshakeStage::Refused,
    }
}

// The stage after the peer at a place said hello once more.
fn after_hello_again(known: usize, place: Option<usize>) -> HandshakeStage
    ensures { result ≡ spec.still_known known place }
{
    match place {
        Some(place) if place == known => HandshakeStage::Known(place),
        _ => HandshakeStage::Refused,
    }
}

/// One node's side of a connection with a peer.
#[derive(Clone, Copy, PartialEq, Eq)]
pub struct Handshake {
    side: Side,
    stage: HandshakeStage,
}

impl Handshake {
    /// A new connection.
    pub fn new(side: Side) -> Handshake
        ensures { result ≡ record { side = side; stage = HandshakeStage.Silent } }
    {
        Handshake {
            side,
            stage: HandshakeStage::Silent,
        }
    }

    /// The place of the peer to which the own word and hello are to be sent before any line came, if they are.
    pub fn greeted_first(&self) -> Option<usize>
        ensures { result ≡ spec.greeted_first self.now.side }
    {
        match self.side {
            Side::Opener(to) => Some(to),
            Side::Acceptor => None,
        }
    }

    /// Hears a line. None stands for one that can't be read or is too long.
    pub fn hear(&mut self, terms: &Terms, line: Option<&PeerLine>) -> Action
        ensures stage { self.new ≡ record self.old {
          stage = spec.after terms.now self.old.stage (option_map deref line.entry);
        } }
        ensures action { result ≡ spec.action self.old.side self.new.stage }
    {
        self.stage = next_stage(terms, self.stage, line);
        action_at(self.side, self.stage)
    }
}

fn action_at(side: Side, stage: HandshakeStage) -> Action
    ensures { result ≡ spec.action side stage }
{
    match stage {
        HandshakeStage::Silent => Action::Wait,
        HandshakeStage::Trusted => Action::Wait,
        HandshakeStage::Introduced(place) => match side {
            Side::Opener(_) => Action::HandUp(place),
            Side::Acceptor => Action::GreetAndHandUp(place),
        },
        HandshakeStage::Known(place) => Action::HandUp(place),
        HandshakeStage::Refused => Action::Close,
    }
}

fn next_stage(terms: &Terms, stage: HandshakeStage, line: Option<&PeerLine>) -> HandshakeStage
    ensures { result ≡ spec.after terms.now stage (option_map deref line.entry) }
{
    let Some(line) = line else {
        return HandshakeStage::Refused;
    };
    match stage {
        HandshakeStage::Silent => after_first(terms, line),
        HandshakeStage::Trusted => after_second(terms, line),
        HandshakeStage::Introduced(place) => after_more(terms, place, line),
        HandshakeStage::Known(place) => after_more(terms, place, line),
        HandshakeStage::Refused => HandshakeStage::Refused,
    }
}

fn after_first(terms: &Terms, line: &PeerLine) -> HandshakeStage
    ensures { result ≡ spec.after_first terms.now line.now }
{
    match line {
        PeerLine::Word(word) => {
            if terms.is_word(word) {
                HandshakeStage::Trusted
            } else {
                HandshakeStage::Refused
            }
        }
        PeerLine::Hello(_, _) => HandshakeStage::Refused,
        PeerLine::Head(_) => HandshakeStage::Refused,
        PeerLine::Change(_) => HandshakeStage::Refused,
        PeerLine::Ack(_) => HandshakeStage::Refused,
    }
}

fn after_second(terms: &Terms, line: &PeerLine) -> HandshakeStage
    ensures { result ≡ spec.after_second terms.now line.now }
{
    match line {
        PeerLine::Word(_) => HandshakeStage::Refused,
        PeerLine::Hello(life, _) => after_hello(terms.index_of(life.node())),
        PeerLine::Head(_) => HandshakeStage::Refused,
        PeerLine::Change(_) => HandshakeStage::Refused,
        PeerLine::Ack(_) => HandshakeStage::Refused,
    }
}

fn after_more(terms: &Terms, place: usize, line: &PeerLine) -> HandshakeStage
    ensures { result ≡ spec.after_more terms.now place line.now }
{
    match line {
        PeerLine::Word(_) => HandshakeStage::Refused,
        PeerLine::Hello(life, _) => after_hello_again(place, terms.index_of(life.node())),
        PeerLine::Head(_) => HandshakeStage::Known(place),
        PeerLine::Change(_) => HandshakeStage::Known(place),
        PeerLine::Ack(_) => HandshakeStage::Known(place),
    }
}
