//! A peer, with which a thread keeps up a connection.
use crate::clocks::monotonic_ms;
use crate::dialing::Absence;
use crate::event::KeeperEvent;
use crate::lost::Lost;
use crate::shared::Common;
use crate::talk::{Bond, Contact, Talk};
use byte_text::NoMemory;
use node_config::PeerConfig;
use node_events::{Event, Reason, Unreached};
use std::net::TcpStream;
use std::sync::{Arc, Wait};
use std::thread;
use std::time::{Clock, Duration};

/// So many milliseconds a connection may take until it is made.
const CONNECTING: u64 = 10_000;

/// After so many milliseconds without bytes it is looked at what else is due.
const LOOK: u64 = 200;

/// So many milliseconds a peer may take no bytes.
const WRITING: u64 = 30_000;

/// The operator is told again of a peer that can't be reached after so many milliseconds.
const TELL_AGAIN: u64 = 60_000;

// A connection to the peer.
fn connect(host: &HostRuntime, peer: &PeerConfig) -> Result<TcpStream, Unreached> {
    let timeout = Duration::from_millis(CONNECTING);
    let stream = TcpStream::connect_timeout(host, &peer.address, timeout)?;
    stream.set_read_timeout(Some(Duration::from_millis(LOOK)))?;
    stream.set_write_timeout(Some(Duration::from_millis(WRITING)))?;
    stream.set_nodelay(true)?;
    Ok(stream)
}

// What is known of the peer in the present life: that, or nothing yet where another life has begun since.
fn bond_now<R: Wait + AllocGlobal>(
    rt: &R,
    contact: &Contact<'_>,
    bond: Option<Bond>,
) -> Result<Bond, NoMemory> {
    let terms = {
        let shared = contact.common.shared.lock(rt);
        match bond {
            Some(bond) if shared.is_of(&bond.terms) => return Ok(bond),
            _ => Arc::try_clone(shared.kept.terms()).map_err(|_| NoMemory)?,
        }
    };
    Bond::new(rt.alloc(), terms, &contact.peer.name)
}

// Talks with the peer over a stream until the connection is lost: why, and whether they had greeted each other.
fn talk_over<R: Wait + Clock + AllocGlobal>(
    rt: &R,
    contact: &Contact<'_>,
    bond: &mut Bond,
    stream: TcpStream,
) -> (Lost, bool) {
    let now = monotonic_ms(rt);
    let Ok(mut talk) = Talk::new(rt.alloc(), stream, contact.place, &bond.terms, now) else {
        return (Lost::Reason(Reason::NoMemory), false);
    };
    for _ in rt.forever() {
        if let Err(lost) = talk.turn(rt, contact, bond) {
            return (lost, talk.is_greeted());
        }
        if contact.common.is_ending() {
            break;
        }
    }
    (Lost::Reason(Reason::Ended), talk.is_greeted())
}

// Connects to the peer and talks with it until the connection is lost. Whether they had greeted each other, and where they had
// not, the operator is told why, unless that was told less than a minute ago.
fn visit<R: Wait + Clock + AllocGlobal>(
    rt: &R,
    host: &HostRuntime,
    contact: &Contact<'_>,
    bond: &mut Bond,
    told_at: &mut Option<u64>,
) -> bool {
    let peer = contact.peer;
    let node = peer.name.as_bytes();
    let address = peer.address;
    let (event, is_greeted) = match connect(host, peer) {
        Ok(stream) => {
            let (lost, is_greeted) = talk_over(rt, contact, bond, stream);
            (
                KeeperEvent::PeerLost {
                    node,
                    address,
                    lost,
                },
                is_greeted,
            )
        }
        Err(why) => (
            KeeperEvent::Node(Event::PeerUnreachable {
                node,
                address: Some(address),
                why,
            }),
            false,
        ),
    };
    let now = monotonic_ms(rt);
    let is_told = match *told_at {
        Some(at) => now.saturating_sub(at) < TELL_AGAIN,
        None => false,
    };
    if is_greeted || !is_told {
        contact.common.log.report(rt, &event);
        *told_at = if is_greeted { None } else { Some(now) };
    }
    is_greeted
}

/// Keeps up a connection with the peer at that place.
pub(crate) fn keep_in_touch<'a, R: Wait + Clock + AllocGlobal>(
    rt: &R,
    host: &HostRuntime,
    common: &'a Common<'a>,
    place: usize,
    peer: &'a PeerConfig,
) {
    let contact = Contact {
        common,
        place,
        peer,
    };
    let mut dialing = Absence::new();
    let mut told_at = None;
    let mut known = None;
    for _ in rt.forever() {
        match bond_now(rt, &contact, known) {
            Ok(mut bond) => {
                if visit(rt, host, &contact, &mut bond, &mut told_at) {
                    dialing.met();
                }
                known = Some(bond);
            }
            Err(NoMemory) => known = None,
        }
        if common.is_ending() {
            return;
        }
        let pause = dialing.pause(monotonic_ms(rt));
        thread::sleep(rt, Duration::from_millis(pause));
    }
}
