//! Read markers that clients put (IRCv3 draft/read-marker).
ghost use Rattle.std.specs.Prelude.{◌≡◌, ◌≢◌, ◌<◌, ◌++◌, ℕ, List, IfOk, Some, length, slice_get, false};
ghost use Rattle.chat_change.specs.Buffer.{buffer_of};
ghost use Rattle.chat_change.specs.declared.change.Change.{Change as Piece};
ghost use Rattle.chat_query.specs.declared.facts.Facts.{Facts as Asker};
ghost use Rattle.client_session.specs.Session.{facts_in};
ghost use Rattle.network_log.specs.Guest.{Guest};
ghost use Rattle.network_log.specs.Putting.{IsSeen};
ghost use Rattle.network_log.specs.Share.{hears_batch, marker_text, told_to};
ghost use Rattle.network_log.specs.Telling.{IsToldToClient};
ghost use Rattle.network_log.specs.Truth.{IsReached, Leads};
ghost use Rattle.hosted_network.specs.Marking.{AreOthersToldBy, IsMarkOf, IsMarkTold, IsNextMark};
ghost use Rattle.hosted_network.specs.Sharing.{AreMarked};
ghost use Rattle.hosted_network.specs.Shares.{entries_in};

use crate::marks::note_if;
use crate::parts::NetworkParts;
use crate::shares::Shares;
use crate::told::Told;
use byte_text::Text;
use chat_change::{Buffer, Change};
use client_session::Effect;
use cluster_directory::SessionConfig;
use network_client::{Client, Fall};
use network_server::BatchPart;
use node_ports::{Connection, NetworkView, NodePass};
use std::alloc::Global;
use std::slice;

// The marker that is next of what a client has to do.
#[derive(Drop)]
struct Mark {
    change: Change,
    buffer: Buffer,
    target: Text,
}

// What of a client's marker couldn't be had.
#[derive(Clone, Copy)]
enum NoMark {
    // None is next.
    NotNext,
    // There was no memory, or the marker isn't one of the network.
    Refused,
}

// The marker of that change, where it is one of that network.
fn mark_of(alloc: Global, config: &SessionConfig, change: &Change) -> Result<Mark, NoMark>
    ensures { IfOk result (λ mark. IsMarkOf config.now change.now mark) }
{
    let Change::Mark { buffer, .. } = change else {
        return Err(NoMark::Refused);
    };
    let is_own = buffer.account() == config.account.as_bytes()
        && buffer.network() == config.network.as_bytes();
    if !is_own {
        return Err(NoMark::Refused);
    }
    let Ok(target) = Text::new(alloc, buffer.target()) else {
        return Err(NoMark::Refused);
    };
    let (Ok(change), Ok(buffer)) = (change.try_clone(), buffer.try_clone()) else {
        return Err(NoMark::Refused);
    };
    Ok(Mark {
        change,
        buffer,
        target,
    })
}

// The marker that is next of what the client has to do.
fn next_mark<C: Connection>(
    alloc: Global,
    config: &SessionConfig,
    client: &Client<C>,
) -> Result<Mark, NoMark>
    ensures next { IfOk result (λ mark. IsNextMark config.now mark client.now) }
{
    if client.is_gone() {
        return Err(NoMark::NotNext);
    }
    match client.next_effect() {
        Some(Effect::Put(change)) => mark_of(alloc, config, change),
        _ => Err(NoMark::NotNext),
    }
}

impl<'a, C: Connection, V: NetworkView> NetworkParts<'a, C, V> {
    /// The marker that a client puts, which is next of what it has to do, is put and published, and the other clients that follow
    /// markers are told it. Where it isn't published the client is gone, since its question couldn't be answered truly.
    pub(crate) fn client_marks<N: NodePass<Connection = C, View = V>>(
        &mut self,
        place: usize,
        pass: &mut N,
    )
        requires place { place < length self.old.guests }
        requires reached { ∥ IsReached C.facts self.old ∥₁ }
        ensures leads { ∥ Leads C.facts self.old self.new ∥₁ }
        ensures count { length self.new.guests ≡ length self.old.guests }
    {
        match next_mark(self.alloc, self.config, &self.clients[place]) {
            Ok(mark) => self.put_mark(place, pass, mark),
            Err(NoMark::NotNext) => {}
            Err(NoMark::Refused) => self.client_falls(place, Fall::NoMemory),
        }
    }

    // The same, of the marker that is next.
    fn put_mark<N: NodePass<Connection = C, View = V>>(
        &mut self,
        place: usize,
        pass: &mut N,
        mark: Mark,
    )
        requires reached { ∥ IsReached C.facts self.old ∥₁ }
        requires place { place < length self.old.guests }
        requires next { (g : Guest) → slice_get self.old.guests place ≡ Some g
            → IsNextMark self.old.config mark g }
        ensures leads { ∥ Leads C.facts self.old self.new ∥₁ }
        ensures count { length self.new.guests ≡ length self.old.guests }
    {
        let Mark {
            change,
            buffer,
            target,
        } = mark;
        let Ok(()) = self.put(pass, slice::from_ref(&change)) else {
            self.clients[place].fall(Fall::NoEntry);
            return;
        };
        self.clients[place].effect_done();
        self.tell_mark(place, pass, buffer, target);
    }

    // The clients but the one at that place are told the marker of the target, as the node has it now. For want of memory, or where it
    // can't be read, they aren't told.
    fn tell_mark<N: NodePass<Connection = C, View = V>>(
        &mut self,
        place: usize,
        pass: &mut N,
        buffer: Buffer,
        target: Text,
    )
        requires place { place < length self.old.guests }
        requires buffer { buffer
            ≡ buffer_of self.old.config.account self.old.config.network target }
        requires may { (held : List Piece) → ∥ IsSeen C.facts self.old.held held ∥₁
            → (other : ℕ) (g : Guest) (f : Asker) → place ≢ other
            → slice_get self.old.guests other ≡ Some g
            → g.is_gone ≡ false → facts_in g.session ≡ Some f
            → ∥ IsToldToClient C.facts g.serial g.received
            (g.told ++ marker_text held f target) ∥₁ }
        ensures told { ∥ IsMarkTold C.facts place buffer target self.old self.new ∥₁ }
        ensures count { length self.new.guests ≡ length self.old.guests }
    {
        let Ok(at) = pass.marker(&mut self.view, &buffer) else {
            return;
        };
        let told = Told {
            parts: &[BatchPart::Entered(target)],
            changes: &[],
            mark: at,
        };
        let Ok(()) = note_if(&mut self.markers, buffer, told.mark) else {
            return;
        };
        self.tell_others(place, &told);
    }

    // Each client but the one at that place is told its share, or is gone.
    fn tell_others(&mut self, place: usize, told: &Told<'_>)
        requires place { place < length self.old.guests }
        requires marked { AreMarked self.old.held told.now.mark
            self.old.config.account self.old.config.network (entries_in told.now) }
        requires may { (other : ℕ) (g : Guest) (f : Asker) → place ≢ other
            → slice_get self.old.guests other ≡ Some g
            → g.is_gone ≡ false → facts_in g.session ≡ Some f
            → ∥ IsToldToClient C.facts g.serial g.received (g.told
            ++ told_to self.old.held f g.nick (entries_in told.now)) ∥₁ }
        ensures told { ∥ AreOthersToldBy (hears_batch self.old.held (entries_in told.now))
            place self.old.guests self.new.guests ∥₁ }
        ensures rest { self.new ≡ record self.old { guests = self.new.guests } }
        ensures count { length self.new.guests ≡ length self.old.guests }
    {
        let mut shares = Shares::new(self.alloc, told, self.config);
        for other in 0..self.clients.len() {
            if other == place {
                continue;
            }
            self.tell_at(other, &mut shares, true);
        }
    }
}
