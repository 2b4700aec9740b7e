//! What the operator is told.
use crate::clocks::Leap;
use crate::unreached::Unreached;
use bstr::BStr;
use irc_time::{Moment, write_time};
use std::fmt;
use std::net::SocketAddr;

/// Why a connection ended, or wasn't accepted.
#[derive(Clone, Copy, PartialEq, Eq)]
pub enum Reason {
    /// The other end closed it.
    Closed,
    /// It could not be made.
    Unreachable,
    /// It was closed as the protocol says: after QUIT, ERROR or a refused registration.
    Ended,
    /// It was silent for too long.
    Silent,
    /// It didn't register in time.
    Unregistered,
    /// Its account, its network or its secret is wrong.
    WrongSecret,
    /// It sent what a line may not be.
    BadLine,
    /// It doesn't know the shared word.
    WrongWord,
    /// It is no configured peer, or said that it is another one.
    UnknownNode,
    /// It said hello by this node's own name.
    OwnName,
    /// It acknowledged nothing for too long.
    Unacknowledged,
    /// Nothing came from a peer for five minutes.
    Unheard,
    /// A newer connection took its place.
    Replaced,
    /// It didn't read what was owed to it.
    Overrun,
    /// More would be owed to a client than its bound: it didn't read what was owed, or a line is longer.
    OverBound,
    /// Each place is taken.
    NoPlace,
    /// It had waited longest to say who it is, and others wait.
    GaveWay,
    /// There was no memory.
    NoMemory,
    /// The node didn't let a question in.
    NoEntry,
}

impl fmt::Display for Reason {
    fn fmt<W: fmt::Write>(&self, f: &mut fmt::Formatter<W>) -> fmt::Result {
        f.write_str(match self {
            Reason::Closed => "the other end closed it",
            Reason::Unreachable => "it could not be reached",
            Reason::Ended => "it ended as the protocol says",
            Reason::Silent => "it was silent for too long",
            Reason::Unregistered => "it did not say in time who it is",
            Reason::WrongSecret => "its account, its network or its secret is wrong",
            Reason::BadLine => "it sent a line that is refused",
            Reason::WrongWord => "it sent another word than the shared one",
            Reason::UnknownNode => "it is no configured peer",
            Reason::OwnName => {
                "it said hello by this node's own name: give each node a name of its own"
            },
            Reason::Unacknowledged => "it acknowledged nothing for too long",
            Reason::Unheard => "nothing came from it for five minutes, so it is taken for gone",
            Reason::Replaced => "a newer connection took its place",
            Reason::Overrun => "it did not read what was owed to it",
            Reason::OverBound =>
                "it did not read what was owed to it, or a line was longer than its bound",
            Reason::NoPlace => "each place is taken",
            Reason::GaveWay => "it had waited longest to say who it is, and gave way to another",
            Reason::NoMemory => "no memory",
            Reason::NoEntry => "the node let no question in",
        })
    }
}

/// What the operator is told. No secret, no shared word and no text of a message stands in it.
#[derive(Clone, Copy)]
pub enum Event<'a> {
    /// The program begins a node: which one, with its version, and with which logic of the kit it is proved.
    Starting {
        program: &'a str,
        logic: &'a str,
    },
    /// The node accepts clients and peers at these addresses.
    Listening {
        clients: SocketAddr,
        peers: SocketAddr,
    },
    /// Messages are kept for so many days, which is at least one.
    Retention {
        days: u32,
    },
    /// The floor of an account was put: it keeps nothing before that moment. Whether that lies ahead of the clock.
    FloorPut {
        account: &'a [u8],
        at: Moment,
        is_ahead: bool,
    },
    /// Floors of retention were put, so many: those conversations keep nothing before that moment.
    FloorsPut {
        count: usize,
        at: Moment,
    },
    /// The clock leapt since it was looked at last, so no floor of retention is put this time.
    ClockLeapt(Leap),
    /// The system gave no further connection, as where no descriptor is left. It is tried again.
    AcceptFailed,
    /// A client registered.
    ClientIn {
        account: &'a [u8],
        network: &'a [u8],
        address: Option<SocketAddr>,
    },
    /// A client that was registered is gone.
    ClientOut {
        account: &'a [u8],
        network: &'a [u8],
        address: Option<SocketAddr>,
        reason: Reason,
    },
    /// A client that had not registered is gone.
    ClientRefused {
        address: Option<SocketAddr>,
        reason: Reason,
    },
    /// So many further clients that had not registered are gone, within a minute.
    ClientsRefused {
        count: u64,
    },
    /// The session with the network's server is up.
    UpstreamUp {
        account: &'a [u8],
        network: &'a [u8],
        nick: &'a [u8],
    },
    /// The session with the network's server could not begin, since the server could not be reached at that address.
    UpstreamUnreachable {
        account: &'a [u8],
        network: &'a [u8],
        address: Option<SocketAddr>,
        why: Unreached,
    },
    /// The session with the network's server ended, or could not begin for want of memory. With it stand the words by which the
    /// server refused it, if it did.
    UpstreamDown {
        account: &'a [u8],
        network: &'a [u8],
        reason: Reason,
        words: Option<&'a [u8]>,
    },
    /// A peer and this node greeted each other. The peer is at that address.
    PeerGreeted {
        node: &'a [u8],
        address: Option<SocketAddr>,
        incarnation: u64,
    },
    /// A peer said hello as an earlier life than the one of that incarnation, which is known of it: it is sent nothing.
    PeerBehind {
        node: &'a [u8],
        incarnation: u64,
    },
    /// A peer knows a later life of this node, of that incarnation, and sends this one nothing. Whether that one began before now
    /// by this node's clock, as where two nodes have one name.
    NodeBehind {
        node: &'a [u8],
        incarnation: u64,
        is_past: bool,
    },
    /// For the first time since it started, this node has all that the peer had, and the peer has all that this node had.
    PeerLevel {
        node: &'a [u8],
    },
    /// A connection with a peer could not be made.
    PeerUnreachable {
        node: &'a [u8],
        address: Option<SocketAddr>,
        why: Unreached,
    },
    /// There has been no connection for two minutes with a peer to which this node opens them.
    PeerAbsent {
        node: &'a [u8],
    },
    /// The connection with a peer that was greeted ended.
    PeerDown {
        node: &'a [u8],
        reason: Reason,
    },
    /// A connection ended before a peer was greeted over it. Where this node opened it, the peer is known by its name.
    PeerRefused {
        node: Option<&'a [u8]>,
        address: Option<SocketAddr>,
        reason: Reason,
    },
    /// So many further connections that others opened ended before a peer was greeted, within a minute.
    PeersRefused {
        count: u64,
    },
    /// So many connections were closed for want of memory, within a minute.
    OutOfMemory {
        count: u64,
    },
    /// So many lines of the log were lost, since nobody read it in time.
    LinesLost {
        count: u64,
    },
}

impl<'a> Event<'a> {
    // What kind of event it is.
    fn title(&self) -> &'static str {
        match self {
            Event::Starting { .. } => "starting",
            Event::Listening { .. } => "listening",
            Event::Retention { .. } => "retention",
            Event::FloorPut { .. } => "floor put",
            Event::FloorsPut { .. } => "floors put",
            Event::ClockLeapt(_) => "clock leapt",
            Event::AcceptFailed => "accept failed",
            Event::ClientIn { .. } => "client in",
            Event::ClientOut { .. } => "client out",
            Event::ClientRefused { .. } => "client refused",
            Event::ClientsRefused { .. } => "clients refused",
            Event::UpstreamUp { .. } => "upstream up",
            Event::UpstreamUnreachable { .. } | Event::UpstreamDown { .. } => "upstream down",
            Event::PeerGreeted { .. } => "peer greeted",
            Event::PeerBehind { .. } => "peer behind",
            Event::NodeBehind { .. } => "node behind",
            Event::PeerLevel { .. } => "peer level",
            Event::PeerUnreachable { .. } => "peer unreachable",
            Event::PeerAbsent { .. } => "peer absent",
            Event::PeerDown { .. } => "peer down",
            Event::PeerRefused { .. } => "peer refused",
            Event::PeersRefused { .. } => "peers refused",
            Event::OutOfMemory { .. } => "out of memory",
            Event::LinesLost { .. } => "lines lost",
        }
    }

    // Why, where the event is an end.
    fn reason(&self) -> Option<Reason> {
        match *self {
            Event::ClientOut { reason, .. }
            | Event::ClientRefused { reason, .. }
            | Event::UpstreamDown { reason, .. }
            | Event::PeerDown { reason, .. }
            | Event::PeerRefused { reason, .. } => Some(reason),
            _ => None,
        }
    }

    // What the server said, where the event is its session's end.
    fn words(&self) -> Option<&'a [u8]> {
        match *self {
            Event::UpstreamDown { words, .. } => words,
            _ => None,
        }
    }

    // The network of an account that the event is about.
    fn network(&self) -> Option<NetworkPath<'a>> {
        match *self {
            Event::ClientIn {
                account,
                network,
                ..
            }
            | Event::ClientOut {
                account,
                network,
                ..
            }
            | Event::UpstreamUp {
                account,
                network,
                ..
            }
            | Event::UpstreamUnreachable {
                account,
                network,
                ..
            }
            | Event::UpstreamDown {
                account,
                network,
                ..
            } => Some(NetworkPath { account, network }),
            _ => None,
        }
    }
}

impl<'a> fmt::Display for Event<'a> {
    fn fmt<W: fmt::Write>(&self, f: &mut fmt::Formatter<W>) -> fmt::Result {
        write!(f, "{}: ", self.title())?;
        if let Some(network) = self.network() {
            write!(f, "{network}")?;
        }
        write!(f, "{}", Detail(self))?;
        if let Some(reason) = self.reason() {
            write!(f, ": {reason}")?;
        }
        match self.words() {
            Some(words) => write!(f, "; the server said: {}", BStr::new(words)),
            None => Ok(()),
        }
    }
}

// What stands behind the network of an event, or in its place.
#[derive(Clone, Copy)]
struct Detail<'a, 'b>(&'b Event<'a>);

impl<'a, 'b> fmt::Display for Detail<'a, 'b> {
    fn fmt<W: fmt::Write>(&self, f: &mut fmt::Formatter<W>) -> fmt::Result {
        match *self.0 {
            Event::Starting { program, logic } => write!(f, "{program}, logic {logic}"),
            Event::Listening { clients, peers } => {
                write!(f, "clients on {clients}, peers on {peers}")
            }
            Event::Retention { days } => write!(
                f,
                "messages are kept for {} at most, here and on every node of the cluster",
                Days(days)
            ),
            Event::FloorPut {
                account,
                at,
                is_ahead,
            } => write!(
                f,
                "{}{}",
                KeptFrom(account, at),
                if is_ahead { ", which lies ahead" } else { "" }
            ),
            Event::FloorsPut { count, at } => {
                let time = write_time(at);
                let time = BStr::new(&time);
                write!(f, "{count}, and what is older than {time} is let go")
            }
            Event::ClockLeapt(leap) => write!(
                f,
                "{leap}, so no floor is put before it has kept time for an hour"
            ),
            Event::AcceptFailed => f.write_str("tried again in a second"),
            Event::ClientIn { address, .. } | Event::ClientOut { address, .. } => {
                write!(f, " from {}", Address(address))
            }
            Event::ClientRefused { address, .. } => write!(f, "{}", Address(address)),
            Event::PeerRefused { node, address, .. } => match node {
                Some(node) => write!(f, "{} at {}", BStr::new(node), Address(address)),
                None => write!(f, "{}", Address(address)),
            },
            Event::PeerUnreachable { node, address, why } => {
                write!(f, "{} at {}: {why}", BStr::new(node), Address(address))
            }
            Event::OutOfMemory { count } => {
                write!(f, "{count} connections were closed within a minute")
            }
            Event::LinesLost { count } => write!(f, "{count}, for which the log had no room"),
            Event::ClientsRefused { count } | Event::PeersRefused { count } => {
                write!(f, "{count} more within a minute")
            }
            Event::UpstreamUp { nick, .. } => write!(f, " as {}", BStr::new(nick)),
            Event::UpstreamUnreachable { address, why, .. } => write!(
                f,
                ": it could not be reached at {}: {why}",
                Address(address)
            ),
            Event::UpstreamDown { .. } => Ok(()),
            Event::PeerGreeted { node, .. }
            | Event::PeerBehind { node, .. }
            | Event::NodeBehind { node, .. }
            | Event::PeerLevel { node }
            | Event::PeerAbsent { node }
            | Event::PeerDown { node, .. } => {
                write!(f, "{}{}", BStr::new(node), PeerDetail(self.0))
            }
        }
    }
}

// What stands behind the name of a peer.
#[derive(Clone, Copy)]
struct PeerDetail<'a, 'b>(&'b Event<'a>);

impl<'a, 'b> fmt::Display for PeerDetail<'a, 'b> {
    fn fmt<W: fmt::Write>(&self, f: &mut fmt::Formatter<W>) -> fmt::Result {
        match *self.0 {
            Event::PeerGreeted {
                address,
                incarnation,
                ..
            } => write!(f, " at {} (incarnation {incarnation})", Address(address)),
            Event::PeerBehind { incarnation, .. } => write!(
                f,
                ": its clock is behind its last life (incarnation {incarnation})"
            ),
            Event::NodeBehind {
                incarnation,
                is_past,
                ..
            } => write!(
                f,
                " knows a later life of this node (incarnation {incarnation}): {}",
                Remedy(is_past)
            ),
            Event::PeerLevel { .. } => f.write_str(": each has what the other had"),
            Event::PeerAbsent { .. } => f.write_str(": no connection for two minutes"),
            _ => Ok(()),
        }
    }
}

// What helps a node of which a peer knows a later life, which began before now or is still to begin by its clock.
#[derive(Clone, Copy)]
struct Remedy(bool);

impl fmt::Display for Remedy {
    fn fmt<W: fmt::Write>(&self, f: &mut fmt::Formatter<W>) -> fmt::Result {
        f.write_str(match self.0 {
            true => {
                "another node has its name, or its clock was behind as it started: give each node a name of its own, or start it again"
            }
            false => "set the clock right and start again",
        })
    }
}

// A number of days.
#[derive(Clone, Copy)]
struct Days(u32);

impl fmt::Display for Days {
    fn fmt<W: fmt::Write>(&self, f: &mut fmt::Formatter<W>) -> fmt::Result {
        match self.0 {
            1 => f.write_str("1 day"),
            days => write!(f, "{days} days"),
        }
    }
}

// What an account keeps no longer.
#[derive(Clone, Copy)]
struct KeptFrom<'a>(&'a [u8], Moment);

impl<'a> fmt::Display for KeptFrom<'a> {
    fn fmt<W: fmt::Write>(&self, f: &mut fmt::Formatter<W>) -> fmt::Result {
        let time = write_time(self.1);
        write!(
            f,
            "{} keeps nothing before {}",
            BStr::new(self.0),
            BStr::new(&time)
        )
    }
}

// The other end of a connection, where the system told it.
#[derive(Clone, Copy)]
struct Address(Option<SocketAddr>);

impl fmt::Display for Address {
    fn fmt<W: fmt::Write>(&self, f: &mut fmt::Formatter<W>) -> fmt::Result {
        match self.0 {
            Some(address) => write!(f, "{address}"),
            None => f.write_str("an unknown address"),
        }
    }
}

// A network of an account.
#[derive(Clone, Copy)]
struct NetworkPath<'a> {
    account: &'a [u8],
    network: &'a [u8],
}

impl<'a> fmt::Display for NetworkPath<'a> {
    fn fmt<W: fmt::Write>(&self, f: &mut fmt::Formatter<W>) -> fmt::Result {
        write!(f, "{}/{}", BStr::new(self.account), BStr::new(self.network))
    }
}
