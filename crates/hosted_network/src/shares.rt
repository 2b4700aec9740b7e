//! What clients are told of a batch, as texts: one for all that are told the same.
ghost use Rattle.std.proofs.Props.{props};
ghost use Rattle.std.specs.Prelude.{◌≡◌, IfOk, IfSome, slice_get, true};
ghost use Rattle.std.specs.Option.{option_copied};
ghost use Rattle.hosted_network.specs.Shares.{AreShares, IsHearer, IsOf, IsShare, IsShareAt};

use crate::told::Told;
use byte_text::{NoMemory, Text};
use chat_query::Facts;
use cluster_directory::SessionConfig;
use irc_caps::CapSet;
use std::alloc::Global;

/// What clients are told of a batch whose sessions hold the same capabilities, and which know the same nick.
#[derive(Drop)]
pub(crate) struct Share {
    // the session for which it was written
    caps: CapSet,
    cluster: Text,
    nick: Text,
    /// The text.
    pub(crate) text: Vec<u8>,
    /// The nick that they know from then on.
    pub(crate) nick_after: Text,
}

impl Share {
    // What the session is told, whose client knows that nick.
    fn new(alloc: Global, told: &Told<'_>, facts: &Facts, nick: &[u8]) -> Result<Share, NoMemory>
        ensures hearer { IfOk result (λ share. IsHearer share facts.now nick.now) }
        ensures share { IfOk result (λ share. IsShare told.now share facts.now nick.now) }
    {
        let mut text = Vec::new(alloc);
        let nick_after = Text::new(alloc, told.write(facts, nick, &mut text)?)?;
        Ok(Share {
            caps: facts.caps,
            cluster: facts.cluster.try_clone(alloc)?,
            nick: Text::new(alloc, nick)?,
            text,
            nick_after,
        })
    }

    // Whether the session, whose client knows that nick, is told just this.
    fn is_for(&self, facts: &Facts, nick: &[u8]) -> bool
        ensures { result ≡ true → IsHearer self.now facts.now nick.now }
    {
        self.caps == facts.caps
            && self.cluster.as_bytes() == facts.cluster.as_bytes()
            && self.nick.as_bytes() == nick
    }
}

/// What the clients of a network are told of a batch, in as many texts as there are kinds of clients.
#[derive(Drop)]
pub(crate) struct Shares<'b> {
    pub(crate) told: &'b Told<'b>,
    config: &'b SessionConfig,
    shares: Vec<Share>,
    ghost are_shares: { AreShares told.now config.now shares.items } by { Prim.hlevel props },
}

impl<'b> Shares<'b> {
    /// Nothing is written yet. It takes no memory.
    pub(crate) fn new(alloc: Global, told: &'b Told<'b>, config: &'b SessionConfig) -> Shares<'b>
        ensures told { result.told.now ≡ told.now }
        ensures config { result.config.now ≡ config.now }
    {
        Shares {
            told,
            config,
            shares: Vec::new(alloc),
        }
    }

    /// Whether the session is of the network.
    pub(crate) fn has_session(&self, facts: &Facts) -> bool
        ensures { result ≡ true → IsOf self.now.config.now facts.now }
    {
        facts.account.as_bytes() == self.config.account.as_bytes()
            && facts.network.as_bytes() == self.config.network.as_bytes()
    }

    /// The text at that place, if there is one.
    pub(crate) fn get(&self, at: usize) -> Option<&Share>
        ensures { option_copied result ≡ slice_get self.now.shares.items at }
    {
        self.shares.get(at)
    }

    // The place of the text for the session, whose client knows that nick, where it is written.
    fn position(&self, facts: &Facts, nick: &[u8]) -> Option<usize>
        requires { IsOf self.now.config.now facts.now }
        ensures { IfSome result (λ at.
            IsShareAt self.now.told.now self.now.shares.items facts.now nick.now at) }
    {
        for at in 0..self.shares.len() {
            if self.shares[at].is_for(facts, nick) {
                return Some(at);
            }
        }
        None
    }

    // The text for the session is written behind the others.
    fn write(&mut self, alloc: Global, facts: &Facts, nick: &[u8]) -> Result<usize, NoMemory>
        requires { IsOf self.old.config.now facts.now }
        ensures share { IfOk result (λ at.
            IsShareAt self.old.told.now self.new.shares.items facts.now nick.now at) }
        ensures told { self.new.told.now ≡ self.old.told.now }
        ensures config { self.new.config.now ≡ self.old.config.now }
    {
        let at = self.shares.len();
        let share = Share::new(alloc, self.told, facts, nick)?;
        match self.shares.push(share) {
            Ok(()) => Ok(at),
            Err(_) => Err(NoMemory),
        }
    }

    /// The place of what the session is told, whose client knows that nick. It is written once for all that are told the same.
    pub(crate) fn find(
        &mut self,
        alloc: Global,
        facts: &Facts,
        nick: &[u8],
    ) -> Result<usize, NoMemory>
        requires { IsOf self.old.config.now facts.now }
        ensures share { IfOk result (λ at.
            IsShareAt self.old.told.now self.new.shares.items facts.now nick.now at) }
        ensures told { self.new.told.now ≡ self.old.told.now }
        ensures config { self.new.config.now ≡ self.old.config.now }
    {
        match self.position(facts, nick) {
            Some(at) => Ok(at),
            None => self.write(alloc, facts, nick),
        }
    }
}
