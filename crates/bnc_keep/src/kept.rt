//! What is kept, and what a message of a peer does to it.
ghost use Rattle.std.specs.Prelude.{◌≡◌, ◌++◌, Ok, IfOk, OnOk, OnErr};
ghost use Rattle.gossip_link.specs.Arrival.{reply, changes_of};
ghost use Rattle.gossip_link.specs.declared.outcome.Outcome.TheVariants.{Taken};
ghost use Rattle.bnc_keep.specs.Kept.{IsAcknowledged, IsLetGo, state_in, life_in};

use crate::begun::Begun;
use byte_text::NoMemory;
use chat_change::Change;
use chat_history::{NotTaken, Taker};
use chat_state::State;
use gossip_link::{Arrived, Link, LinkFault, Outcome, PeerSession, Terms};
use keeper::Device;
use std::alloc::{AllocError, Global};
use std::mem;
use std::sync::Arc;

/// What is kept: the file with the state, or the state alone while the file is let go, under the life that it had.
#[derive(Drop)]
pub(crate) enum Kept<D: Device> {
    /// The file and the state.
    Open(Begun<D>),
    /// The state alone. Nothing is acknowledged.
    LetGo(State, Arc<Terms>),
}

// What takes nothing, since no file is open.
#[derive(Drop)]
struct NoFile;

impl Taker for NoFile {
    ghost use Rattle.std.specs.Prelude.{◌≡◌, []};

    ghost holds = { λ _ _ list. list ≡ [] };

    ghost may_add = { λ _ others. others ≡ [] };

    fn take(&mut self, _alloc: Global, _changes: &[Change]) -> Result<(), NotTaken> {
        Err(NotTaken)
    }
}

impl<D: Device> Kept<D> {
    /// The state.
    pub(crate) fn state(&self) -> &State
        ensures { result.now ≡ state_in self.now }
    {
        match self {
            Kept::Open(begun) => begun.keeper.state(),
            Kept::LetGo(state, _) => state,
        }
    }

    /// Whether the file is still there, and failed.
    pub(crate) fn has_failed(&self) -> bool {
        match self {
            Kept::Open(begun) => !begun.keeper.is_open(),
            Kept::LetGo(_, _) => false,
        }
    }

    /// What is brought to each connection: the life.
    pub(crate) fn terms(&self) -> &Arc<Terms>
        ensures { result.now.value.me.incarnation ≡ life_in self.now }
    {
        match self {
            Kept::Open(begun) => &begun.terms,
            Kept::LetGo(_, terms) => terms,
        }
    }
}

impl<D: Device + Drop> Kept<D> {
    /// Lets the file go, and keeps the state, under the life that it has. For want of memory nothing changes.
    pub(crate) fn let_go(&mut self, alloc: Global) -> Result<(), AllocError>
        ensures let_go { OnOk result (IsLetGo self.new) }
        ensures same { OnErr result (self.new ≡ self.old) }
        ensures state { state_in self.new ≡ state_in self.old }
        ensures life { life_in self.new ≡ life_in self.old }
    {
        let terms = Arc::try_clone(self.terms())?;
        let none = Kept::LetGo(State::new(alloc), Arc::try_clone(&terms)?);
        let state = match mem::replace(self, none) {
            Kept::Open(begun) => {
                let Begun {
                    keeper,
                    terms: _terms,
                } = begun;
                keeper.into_state()
            }
            Kept::LetGo(state, _terms) => state,
        };
        *self = Kept::LetGo(state, terms);
        Ok(())
    }
}

/// Carries out what arrived from a peer, on the link with it. What is to be sent because of it is appended: the acknowledgement
/// of a packet, once all its changes are on the disk and in the state, and else nothing. While the file is let go a packet isn't
/// taken, and comes again.
pub(crate) fn carry_out<D: Device>(
    alloc: Global,
    kept: &mut Kept<D>,
    session: &mut PeerSession,
    link: &mut Link,
    arrived: &Arrived,
    out: &mut Vec<u8>,
) -> Result<Outcome, NoMemory>
    ensures reply { IfOk result (λ outcome. out.new.items
        ≡ out.old.items ++ reply link.old arrived.now outcome) }
    ensures acknowledged { result ≡ Ok Taken
        → IsAcknowledged D.seen D.may_leave kept.old kept.new (changes_of arrived.now) }
{
    match kept {
        Kept::Open(begun) => session.arrive(alloc, link, arrived, begun, out),
        Kept::LetGo(_, _) => match arrived {
            Arrived::Packet(_) => Ok(Outcome::TakenInPart),
            Arrived::Word(_) | Arrived::Hello(_, _) | Arrived::Ack(_) => {
                session.arrive(alloc, link, arrived, &mut NoFile, out)
            }
        },
    }
}

/// Makes the next packet for a peer, where one is due, of what is kept. Its lines are appended.
pub(crate) fn send_next<D: Device>(
    alloc: Global,
    kept: &mut Kept<D>,
    session: &mut PeerSession,
    link: &mut Link,
    now: u64,
    out: &mut Vec<u8>,
) -> Result<bool, LinkFault> {
    match kept {
        Kept::Open(begun) => session.send_next(alloc, link, begun, now, out),
        Kept::LetGo(state, _) => session.send_next(alloc, link, state, now, out),
    }
}
