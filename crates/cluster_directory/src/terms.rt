//! What a node brings to each connection with a peer.
ghost use Rattle.std.specs.Prelude.{◌≡◌, position};
ghost use Rattle.cluster_directory.specs.Names.{same_name};
ghost use Rattle.cluster_directory.specs.Terms as spec;

use crate::life::Life;
use crate::names::NodeName;
use crate::shared_word::SharedWord;
use crate::version::Version;
use std::marker::Model;

/// What a node knows of one of its peers.
#[derive(Drop)]
pub struct PeerTerms {
    /// Its name.
    pub name: NodeName,
    /// The version of the hello that is said to it.
    pub version: Version,
}

/// What a node brings to each connection with a peer: the word that the nodes share, its own life, and the terms with each
/// of its peers.
pub struct Terms {
    word: SharedWord,
    me: Life,
    peers: Vec<PeerTerms>,
}

// Written out, so that this is proved once, and not in each crate that lets terms go.
impl Drop for Terms {
    fn drop(self) {
        let Self {
            word: _word,
            me: _me,
            peers: _peers,
        } = self;
    }
}

impl Model for Terms {
    ghost Value = { spec.Terms };

    ghost view = { λ t. record { word = t.word; me = t.me; peers = t.peers.items } };
}

fn index_of(peers: &[PeerTerms], name: &NodeName) -> Option<usize>
    ensures { result ≡ position (λ (peer : PeerTerms). same_name name.now peer.name) peers.now }
{
    peers.iter().position(|peer| name.is_same(&peer.name))
}

impl Terms {
    /// The terms of a node.
    pub fn new(word: SharedWord, me: Life, peers: Vec<PeerTerms>) -> Terms
        ensures { result ≡ record { word = word; me = me; peers = peers.items } }
    {
        Terms { word, me, peers }
    }

    /// The word that the nodes share.
    pub fn word(&self) -> &SharedWord
        ensures { result.now ≡ self.now.word }
    {
        &self.word
    }

    /// The own life.
    pub fn me(&self) -> &Life
        ensures { result.now ≡ self.now.me }
    {
        &self.me
    }

    /// The version of the hello to the peer at that place.
    pub fn version_for(&self, place: usize) -> Version
        ensures { result ≡ spec.version_for self.now place }
    {
        match self.peers.get(place) {
            Some(peer) => peer.version,
            None => Version::OWN,
        }
    }

    /// Whether it is the word that the nodes share.
    pub fn is_word(&self, word: &SharedWord) -> bool
        ensures { result ≡ same_name word.now self.now.word }
    {
        word.is_same(&self.word)
    }

    /// The place of a peer that isn't this node.
    pub fn index_of(&self, name: &NodeName) -> Option<usize>
        ensures { result ≡ spec.index_of self.now name.now }
    {
        if name.is_same(self.me.node()) {
            return None;
        }
        index_of(&self.peers, name)
    }
}
