//! The table of a node's peers.
ghost use Rattle.std.specs.Prelude.{◌≡◌, ◌≢◌, ◌≤◌, [], Some, IfNone, IfOk, IfSome};
ghost use Rattle.std.specs.Option.{option_map};
ghost use Rattle.std.specs.List.{All};
ghost use Rattle.node_peers.specs.PeersState.{IsGreetedAs, most, seat_at, waiting};

use crate::entry::PeerEntry;
use crate::peer::Peer;
use crate::peer_link::NoLink;
use crate::peer_record::PeerRecord;
use cluster_directory::{NodeName, Terms};
use node_events::Refusals;
use node_ports::Connection;
use std::alloc::Global;
use std::collections::BTreeMap;
use std::marker::Model;

/// A node's peers: what is kept of each, and the connections with them and with strangers, by their numbers. Places are those of
/// the peers in the node's terms, from 0. Contracts see the connections and when each peer is dialed.
pub struct Peers<C: Connection> {
    pub(crate) entries: BTreeMap<usize, PeerEntry<C>>,
    /// In the order of the node's terms.
    pub(crate) records: Vec<PeerRecord<C>>,
    /// How many connections came so far.
    pub(crate) begun: u64,
    /// The number of the connection that had its turn last.
    pub(crate) latest: usize,
    /// Room for what is said.
    pub(crate) room: Vec<u8>,
    /// Strangers that were refused.
    pub(crate) refusals: Refusals,
}

impl<C: Connection> Model for Peers<C> {
    ghost use Rattle.std.specs.Prelude.{◌≤◌, length};
    ghost use Rattle.std.specs.List.{count_by};
    ghost use Rattle.std.specs.Map.{values_of};
    ghost use Rattle.node_peers.specs.PeersState.{PeersState, room_for};
    ghost use Rattle.node_peers.specs.Seat.{is_waiting};

    ghost Value = { PeersState };

    ghost view = { λ p. record {
      seats = p.entries.entries;
      dialings = p.records.items;
      begun = p.begun;
    } };

    ghost invariant = { λ p. count_by is_waiting (values_of p.entries.entries)
        ≤ room_for (length p.records.items) };
}

// Written out, so that this is proved once, and not in each crate that lets peers go.
impl<C: Connection> Drop for Peers<C> {
    fn drop(self) {
        let Self {
            entries: _entries,
            records: _records,
            begun: _begun,
            latest: _latest,
            room: _room,
            refusals: _refusals,
        } = self;
    }
}

impl<C: Connection> Peers<C> {
    /// No connections yet, with the peers of these names, in the order of the node's terms. Refused where that isn't their order.
    pub fn new(
        alloc: Global,
        terms: &Terms,
        names: Vec<NodeName>,
        now: u64,
    ) -> Result<Peers<C>, NoLink>
        requires { terms.now ≡ C.facts.terms }
        ensures { IfOk result (λ peers. peers.seats ≡ []) }
    {
        let mut records = Vec::new(alloc);
        for name in names {
            let record = PeerRecord::new(alloc, terms, records.len(), name, now)?;
            if records.push(record).is_err() {
                return Err(NoLink::NoMemory);
            }
        }
        Ok(Peers {
            entries: BTreeMap::new(alloc),
            records,
            begun: 0,
            latest: 0,
            room: Vec::new(alloc),
            refusals: Refusals::new(now),
        })
    }

    /// The place of the peer that said hello over that connection.
    pub(crate) fn greeted_by(&self, number: usize) -> Option<usize> {
        match self.entries.get(&number) {
            Some(entry) => entry.noted(),
            None => None,
        }
    }

    /// The name of the peer at that place.
    pub fn name(&self, place: usize) -> Option<&[u8]> {
        match self.records.get(place) {
            Some(record) => Some(record.name.as_bytes()),
            None => None,
        }
    }

    /// The name of the peer at that place, where there is one.
    pub(crate) fn name_of(&self, place: Option<usize>) -> Option<&[u8]> {
        match place {
            Some(place) => self.name(place),
            None => None,
        }
    }

    /// The connection of that number.
    pub fn peer(&self, number: usize) -> Option<&Peer<C>>
        ensures { IfSome result (λ peer. option_map (λ seat. seat.peer) (seat_at self.now number)
            ≡ Some peer.now) }
    {
        match self.entries.get(&number) {
            Some(entry) => Some(&entry.peer),
            None => None,
        }
    }

    /// How many strangers there are that aren't to make way: at most two for each peer, and eight.
    pub fn waiting(&self) -> usize
        ensures count { result ≡ waiting self.now }
        ensures bounded { result ≤ most self.now }
    {
        self.entries
            .values()
            .filter(|entry| entry.is_waiting())
            .count()
    }

    /// The connection over which the peer at that place said hello: no other one counts as that peer's.
    pub fn connection_with(&self, place: usize) -> Option<usize>
        ensures some { IfSome result (λ number. IsGreetedAs self.now number place) }
        ensures none { IfNone result
            (All (λ e. e.1.peer.talk.noted ≢ Some place) self.now.seats) }
    {
        for (number, entry) in self.entries.iter() {
            if entry.is_with(place) {
                return Some(*number);
            }
        }
        None
    }
}
