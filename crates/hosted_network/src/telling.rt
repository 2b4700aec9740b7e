//! How clients are told what comes of the server's lines.
ghost use Rattle.std.specs.Prelude.{◌≡◌, ◌<◌, ◌++◌, Some, IfOk, ℕ, length, slice_get, true, false, unwrap_or};
ghost use Rattle.chat_query.specs.declared.facts.Facts.{Facts as Asker};
ghost use Rattle.client_session.specs.Session.{facts_in};
ghost use Rattle.network_log.specs.Following.{AreToldBy};
ghost use Rattle.network_log.specs.Guest.{Guest};
ghost use Rattle.network_log.specs.Share.{hears_batch, told_to};
ghost use Rattle.network_log.specs.Telling.{IsToldToClient};
ghost use Rattle.hosted_network.specs.Sharing.{AreMarked};
ghost use Rattle.hosted_network.specs.Shares.{entries_in};
ghost use Rattle.hosted_network.specs.Telling.{HasHeard, IsListener, IsToldAt, IsToldText, text_for};

use crate::parts::NetworkParts;
use crate::shares::{Share, Shares};
use crate::told::Told;
use byte_text::{NoMemory, Text};
use network_client::{Client, Fall};
use node_ports::{Connection, NetworkView};
use std::alloc::Global;

// The client is told this text, and knows that nick from then on, if there is one. Where it can't be owed the text, it is gone.
fn tell_text<C: Connection>(client: &mut Client<C>, text: &[u8], nick: Option<Text>)
    requires { client.old.is_gone ≡ false → ∥ IsToldToClient C.facts client.old.serial
        client.old.received (client.old.told ++ text.now) ∥₁ }
    ensures { IsToldText text.now nick client.old client.new }
{
    if !client.tell(text) {
        return;
    }
    if let Some(nick) = nick {
        client.rename(nick);
    }
}

// The nick that a client knows then, where it is another one than it knows now.
fn new_nick(alloc: Global, before: &[u8], share: &Share) -> Result<Option<Text>, NoMemory>
    ensures { IfOk result (λ nick. unwrap_or nick before.now ≡ share.now.nick_after) }
{
    let after = &share.nick_after;
    if before == after.as_bytes() {
        return Ok(None);
    }
    Ok(Some(after.try_clone(alloc)?))
}

// The client is told its share, if it is registered. For want of memory it is gone, and where it follows markers and that of the
// channel that was entered isn't known.
fn tell_client<C: Connection>(
    alloc: Global,
    client: &mut Client<C>,
    shares: &mut Shares<'_>,
    is_read: bool,
)
    requires may { (f : Asker) → IsListener shares.old.config.now is_read client.old f
        → ∥ IsToldToClient C.facts client.old.serial client.old.received
        (client.old.told ++ text_for shares.old.told.now client.old f) ∥₁ }
    ensures heard { HasHeard shares.old.told.now shares.old.config.now is_read
        client.old client.new }
    ensures told { shares.new.told.now ≡ shares.old.told.now }
    ensures config { shares.new.config.now ≡ shares.old.config.now }
{
    if client.is_gone() {
        return;
    }
    let Some(facts) = client.facts() else {
        return;
    };
    let is_known = is_read || !facts.caps.read_marker;
    if !(is_known && shares.has_session(facts)) {
        client.fall(Fall::NoEntry);
        return;
    }
    let Ok(at) = shares.find(alloc, facts, client.nick()) else {
        client.fall(Fall::NoMemory);
        return;
    };
    let Some(share) = shares.get(at) else {
        return;
    };
    let Ok(nick) = new_nick(alloc, client.nick(), share) else {
        client.fall(Fall::NoMemory);
        return;
    };
    tell_text(client, &share.text, nick);
}

impl<'a, C: Connection, V: NetworkView> NetworkParts<'a, C, V> {
    // The client at that place is told its share.
    pub(crate) fn tell_at(&mut self, place: usize, shares: &mut Shares<'_>, is_read: bool)
        requires place { place < length self.old.guests }
        requires config { shares.old.config.now ≡ self.old.config }
        requires marked { is_read ≡ true → AreMarked self.old.held shares.old.told.now.mark
            self.old.config.account self.old.config.network (entries_in shares.old.told.now) }
        requires may { (g : Guest) (f : Asker) → slice_get self.old.guests place ≡ Some g
            → g.is_gone ≡ false → facts_in g.session ≡ Some f
            → ∥ IsToldToClient C.facts g.serial g.received (g.told
            ++ told_to self.old.held f g.nick (entries_in shares.old.told.now)) ∥₁ }
        ensures told { (g : Guest) → slice_get self.old.guests place ≡ Some g
            → IsToldAt (hears_batch self.old.held (entries_in shares.old.told.now)) place g
            self.old.guests self.new.guests }
        ensures rest { self.new ≡ record self.old { guests = self.new.guests } }
        ensures shares { shares.new.told.now ≡ shares.old.told.now }
        ensures same { shares.new.config.now ≡ shares.old.config.now }
    {
        tell_client(self.alloc, &mut self.clients[place], shares, is_read);
    }

    /// Each client is told its share, in order of their places. One that can't be told its share is gone. It is known whether the
    /// marker of the channel that was entered is the one that is told.
    pub(crate) fn tell_all(&mut self, told: &Told<'_>, is_read: bool)
        requires marked { is_read ≡ true → AreMarked self.old.held told.now.mark
            self.old.config.account self.old.config.network (entries_in told.now) }
        requires may { (place : ℕ) (g : Guest) (f : Asker)
            → slice_get self.old.guests place ≡ Some g
            → g.is_gone ≡ false → facts_in g.session ≡ Some f
            → ∥ IsToldToClient C.facts g.serial g.received (g.told
            ++ told_to self.old.held f g.nick (entries_in told.now)) ∥₁ }
        ensures told { ∥ AreToldBy (hears_batch self.old.held (entries_in told.now))
            (length self.old.guests) self.old.guests self.new.guests ∥₁ }
        ensures rest { self.new ≡ record self.old { guests = self.new.guests } }
    {
        let mut shares = Shares::new(self.alloc, told, self.config);
        for place in 0..self.clients.len() {
            self.tell_at(place, &mut shares, is_read);
        }
    }
}
