//! The turns of clients that aren't registered yet.
ghost use Rattle.std.specs.Prelude.{◌≡◌, [], false};

use crate::reasons::of_newcomer;
use crate::seats::Seat;
use crate::timer::Timer;
use crate::visitor::{TurnedAway, Visitor};
use crate::worker::Worker;
use attach::{Attachment, RingClient};
use client_session::Effect;
use hosted_network::Entered;
use network_client::{Arrival, Coming, Filled, Gone, Mail, Move, Newcomer, Port};
use node_events::{Event, Reason};
use node_ports::{Connection, Fresh, Halt, Origin};
use std::net::SocketAddr;
use worker_pass::WorkPass;

/// A client has so many milliseconds to be registered, and so many to read what it was told last.
pub(crate) const PATIENCE: u64 = 60_000;

/// After so many milliseconds a client is told that it is turned away.
const SECOND: u64 = 1000;

/// So many things are done for a client in one turn.
const STEPS: usize = 64;

/// So often a client moves to another worker at most.
const MOVES: u32 = 8;

// What a step of a client that isn't registered comes to.
#[derive(Drop)]
enum VisitorStep<C: Connection> {
    // There may be more to do.
    Again(Visitor<C>),
    // There is nothing more for now.
    Rest(Visitor<C>),
    // It is a client of that network, at the last place.
    Enters(usize),
    // It moves to the worker that serves the network which it names.
    Moves(Arrival<C>, Coming),
    // It is gone.
    Gone(DepartedVisitor),
}

// A client that is gone before it was registered.
#[derive(Clone, Copy)]
struct DepartedVisitor {
    address: Option<SocketAddr>,
    reason: Reason,
}

// What is next of what such a client's last line came to.
#[derive(Clone, Copy, PartialEq, Eq)]
enum VisitorAct {
    Say,
    Close,
    Nothing,
    // Something that only a registered session does.
    Other,
}

fn act_of(effect: Option<&Effect>) -> VisitorAct {
    match effect {
        Some(Effect::Send(_)) => VisitorAct::Say,
        Some(Effect::Close) => VisitorAct::Close,
        Some(Effect::Ask(_) | Effect::Put(_) | Effect::Upstream(_)) => VisitorAct::Other,
        None => VisitorAct::Nothing,
    }
}

// It is gone for that reason.
fn gone<C: Connection>(visitor: Visitor<C>, reason: Reason) -> VisitorStep<C> {
    let address = visitor.newcomer.client().connection().address();
    let reason = visitor.reason_to_tell(reason);
    drop(visitor);
    VisitorStep::Gone(DepartedVisitor { address, reason })
}

// What its session says waits for it.
fn say<C: Connection>(mut visitor: Visitor<C>) -> VisitorStep<C> {
    if visitor.newcomer.client().is_gone() {
        return gone(visitor, Reason::NoMemory);
    }
    match act_of(visitor.newcomer.client().next_effect()) {
        VisitorAct::Say => {
            if visitor.newcomer.say_all().is_err() {
                return gone(visitor, Reason::NoMemory);
            }
        }
        VisitorAct::Close => {
            visitor.newcomer.close();
        }
        VisitorAct::Other => return gone(visitor, Reason::NoEntry),
        VisitorAct::Nothing => {}
    }
    VisitorStep::Again(visitor)
}

// The first of what waits for it goes out, by one write. Once something of that has gone to its ring, it goes on at once.
fn send<C: Connection>(mut visitor: Visitor<C>) -> VisitorStep<C> {
    let Ok(count) = visitor.newcomer.offer() else {
        return gone(visitor, Reason::OverBound);
    };
    if visitor.newcomer.can_send() && visitor.newcomer.pump() == Err(Halt::Closed) {
        return gone(visitor, Reason::Closed);
    }
    if let Some(reason) = visitor.ending() {
        if visitor.was_told_all() {
            return gone(visitor, reason);
        }
    }
    if count > 0 || visitor.newcomer.can_send() {
        VisitorStep::Again(visitor)
    } else {
        VisitorStep::Rest(visitor)
    }
}

impl<'a, C, P, N> Worker<'a, C, P, N>
where
    C: Connection,
    P: Port<Connection = C>,
    N: WorkPass<Connection = C>,
{
    /// A client came. Where it can't be taken in it is let go.
    pub(crate) fn client_comes(&mut self, fresh: Fresh<C>, ring: RingClient) {
        let address = fresh.connection.address();
        let coming = Coming {
            until: self.now.saturating_add(PATIENCE),
            moves: 0,
        };
        if let Err(reason) = self.admit(fresh, ring, coming) {
            self.tell_refused(DepartedVisitor { address, reason });
        }
    }

    // The client is there, and has something to do.
    fn admit(&mut self, fresh: Fresh<C>, ring: RingClient, coming: Coming) -> Result<(), Reason> {
        if fresh.connection.origin() != Origin::ClientCame || ring.owed() != 0 {
            return Err(Reason::Closed);
        }
        let settings = self.settings;
        let Ok(cluster) = settings.cluster.try_clone(self.alloc) else {
            return Err(Reason::NoMemory);
        };
        let newcomer = Newcomer::new(self.alloc, fresh, ring, cluster, settings.maximum);
        match newcomer {
            Ok(newcomer) => self.take_in(newcomer, coming, None),
            Err(_) => Err(Reason::NoMemory),
        }
    }

    // A client that isn't registered is there, as it came or moved here.
    fn take_in(
        &mut self,
        mut newcomer: Newcomer<C>,
        coming: Coming,
        network: Option<usize>,
    ) -> Result<(), Reason> {
        let Ok(token) = self.seats.insert_visitor() else {
            return Err(Reason::NoMemory);
        };
        let is_watched = newcomer.watch(&mut self.port, token).is_ok();
        let is_timed = self
            .timers
            .try_set(Timer::Newcomer(token), coming.until)
            .is_ok();
        if !(is_watched && is_timed) {
            self.leave_seat(token);
            return Err(if is_watched {
                Reason::NoMemory
            } else {
                Reason::Closed
            });
        }
        let visitor = Visitor::new(newcomer, coming, network);
        self.seats.put_visitor(token, visitor);
        self.seats.wake(token);
        Ok(())
    }

    /// A client moved here, since it names a network that is served here.
    pub(crate) fn arrives(&mut self, moving: Move<C>) {
        let Move { arrival, coming } = moving;
        let Arrival {
            network,
            newcomer,
            ..
        } = arrival;
        let address = newcomer.client().connection().address();
        let index = self.index_of(network);
        if let Err(reason) = self.take_in(newcomer, coming, index) {
            self.tell_refused(DepartedVisitor { address, reason });
        }
    }

    // The seat of that token goes, with its timer.
    fn leave_seat(&mut self, token: usize) {
        self.timers.clear(Timer::Newcomer(token));
        self.seats.remove(token);
    }

    // The operator is told of a client that is gone and wasn't registered, or that there was one more of many.
    fn tell_refused(&mut self, gone: DepartedVisitor) {
        let DepartedVisitor { address, reason } = gone;
        if reason == Reason::NoMemory || self.refusals.add() {
            self.port.report(&Event::ClientRefused { address, reason });
        }
    }

    /// A client that isn't registered has its turn.
    pub(crate) fn serve_visitor(&mut self, token: usize) {
        let Some(visitor) = self.seats.take_visitor(token) else {
            return;
        };
        match self.visit(token, visitor) {
            VisitorStep::Again(visitor) => {
                self.seats.put_visitor(token, visitor);
                self.seats.wake(token);
            }
            VisitorStep::Rest(visitor) => self.seats.put_visitor(token, visitor),
            VisitorStep::Enters(index) => self.enters(token, index),
            VisitorStep::Moves(arrival, coming) => self.moves(token, arrival, coming),
            VisitorStep::Gone(gone) => {
                self.leave_seat(token);
                self.tell_refused(gone);
            }
        }
    }

    // So many things are done for it, and what it is owed goes out. One that was asked to leave goes then, unless it is registered by
    // what it has sent.
    fn visit(&mut self, token: usize, visitor: Visitor<C>) -> VisitorStep<C> {
        let mut visit = VisitorStep::Again(visitor);
        for _ in 0..STEPS {
            match visit {
                VisitorStep::Again(visitor) => visit = self.step(token, visitor),
                other => {
                    visit = other;
                    break;
                }
            }
        }
        self.end_visit(visit)
    }

    fn end_visit(&mut self, visit: VisitorStep<C>) -> VisitorStep<C> {
        match visit {
            VisitorStep::Again(visitor) => match self.sent(visitor) {
                VisitorStep::Rest(visitor) => VisitorStep::Again(visitor),
                other => other,
            },
            VisitorStep::Rest(visitor) => self.sent(visitor),
            other => other,
        }
    }

    // What it is owed goes out, and where it was asked to leave it goes.
    fn sent(&mut self, visitor: Visitor<C>) -> VisitorStep<C> {
        let is_asked = self.waiting.is_asked(visitor.place());
        let visit = if visitor.turned_away == TurnedAway::Waits {
            VisitorStep::Rest(visitor)
        } else {
            send(visitor)
        };
        match visit {
            VisitorStep::Again(visitor) | VisitorStep::Rest(visitor) if is_asked => {
                gone(visitor, Reason::GaveWay)
            }
            other => other,
        }
    }

    // One thing is done for it.
    fn step(&mut self, token: usize, visitor: Visitor<C>) -> VisitorStep<C> {
        let mut visitor = visitor;
        if visitor.turned_away == TurnedAway::Waits {
            return VisitorStep::Rest(visitor);
        }
        if visitor.newcomer.client().is_busy() {
            return self.act(token, visitor);
        }
        if visitor.ending().is_some() || visitor.newcomer.client().waits() {
            return VisitorStep::Rest(visitor);
        }
        if visitor.newcomer.has_line() {
            return self.hear(token, visitor);
        }
        self.fill(visitor)
    }

    // What its session says waits for it. Once that has ended, it has so long to read it.
    fn act(&mut self, token: usize, visitor: Visitor<C>) -> VisitorStep<C> {
        let mut visitor = visitor;
        let until = self.now.saturating_add(PATIENCE);
        if act_of(visitor.newcomer.client().next_effect()) != VisitorAct::Close {
            return say(visitor);
        }
        visitor.has_ended = true;
        if self.timers.try_set(Timer::Newcomer(token), until).is_err() {
            return gone(visitor, Reason::NoMemory);
        }
        say(visitor)
    }

    // More bytes of it are taken in. Where the other end sends nothing more, it may still read what it is owed.
    fn fill(&mut self, visitor: Visitor<C>) -> VisitorStep<C> {
        let mut visitor = visitor;
        let tools = &mut self.tools;
        match visitor
            .newcomer
            .fill(tools.chunk.as_mut_slice(), &mut tools.feeders)
        {
            Filled::More => VisitorStep::Again(visitor),
            Filled::Nothing => VisitorStep::Rest(visitor),
            Filled::Closed if visitor.was_told_all() => gone(visitor, Reason::Closed),
            Filled::Closed => {
                visitor.is_silent = true;
                VisitorStep::Rest(visitor)
            }
            Filled::NoMemory => gone(visitor, Reason::NoMemory),
        }
    }

    // It hears its next line: at the network that the line names, or that it named before.
    fn hear(&mut self, token: usize, visitor: Visitor<C>) -> VisitorStep<C> {
        if visitor.newcomer.client().is_gone() {
            return gone(visitor, Reason::NoMemory);
        }
        let Visitor {
            newcomer,
            coming,
            network,
            ..
        } = visitor;
        let accounts = &self.settings.accounts;
        match newcomer.arrive(accounts) {
            Ok(arrival) => self.hear_named(token, arrival, coming),
            Err(newcomer) => self.hear_at(token, Visitor::new(newcomer, coming, network)),
        }
    }

    // The line names a network: it is heard there, or moves there with the client.
    fn hear_named(&mut self, token: usize, arrival: Arrival<C>, coming: Coming) -> VisitorStep<C> {
        let Some(index) = self.index_of(arrival.network) else {
            let moves = coming.moves.saturating_add(1);
            return VisitorStep::Moves(arrival, Coming { moves, ..coming });
        };
        let Arrival { newcomer, .. } = arrival;
        self.hear_at(token, Visitor::new(newcomer, coming, Some(index)))
    }

    // The line is heard at the network that was named last, if one was.
    fn hear_at(&mut self, token: usize, visitor: Visitor<C>) -> VisitorStep<C> {
        let client = visitor.newcomer.client();
        if client.is_gone() || client.is_busy() {
            return gone(visitor, Reason::NoMemory);
        }
        match visitor.network {
            Some(index) => self.hear_in(token, index, visitor),
            None => self.hear_outside(token, visitor),
        }
    }

    // The same at a network.
    fn hear_in(&mut self, token: usize, index: usize, visitor: Visitor<C>) -> VisitorStep<C>
        requires there { visitor.newcomer.is_gone ≡ false }
        requires done { visitor.newcomer.todo ≡ [] }
    {
        let address = visitor.newcomer.client().connection().address();
        let Visitor {
            newcomer,
            coming,
            ..
        } = visitor;
        let accounts = self.settings.accounts.directory();
        let Some(hosting) = self.networks.get_mut(index) else {
            drop(newcomer);
            return VisitorStep::Gone(DepartedVisitor {
                address,
                reason: Reason::NoEntry,
            });
        };
        let entered = if hosting.make_room() {
            hosting.network.newcomer_hears(accounts, newcomer)
        } else {
            drop(newcomer);
            Entered::Gone(Gone::NoMemory)
        };
        match entered {
            Entered::Client => VisitorStep::Enters(index),
            Entered::Newcomer(newcomer) => {
                self.heard(token, Visitor::new(newcomer, coming, Some(index)))
            }
            Entered::Gone(why) => VisitorStep::Gone(DepartedVisitor {
                address,
                reason: of_newcomer(why),
            }),
        }
    }

    // The same where no network was named.
    fn hear_outside(&mut self, token: usize, visitor: Visitor<C>) -> VisitorStep<C>
        requires there { visitor.newcomer.is_gone ≡ false }
        requires done { visitor.newcomer.todo ≡ [] }
    {
        let address = visitor.newcomer.client().connection().address();
        let Visitor {
            newcomer,
            coming,
            network,
            ..
        } = visitor;
        let accounts = self.settings.accounts.directory();
        match newcomer.hear(self.alloc, accounts) {
            Ok(newcomer) => self.heard(token, Visitor::new(newcomer, coming, network)),
            Err(why) => VisitorStep::Gone(DepartedVisitor {
                address,
                reason: of_newcomer(why),
            }),
        }
    }

    // It has heard a line. One that is turned away by it is told so a second later.
    fn heard(&mut self, token: usize, visitor: Visitor<C>) -> VisitorStep<C> {
        let mut visitor = visitor;
        if !visitor.newcomer.is_turned_away() {
            return VisitorStep::Again(visitor);
        }
        visitor.turned_away = TurnedAway::Waits;
        let at = self.now.saturating_add(SECOND);
        match self.timers.try_set(Timer::Newcomer(token), at) {
            Ok(()) => VisitorStep::Rest(visitor),
            Err(_) => gone(visitor, Reason::NoMemory),
        }
    }

    // It is a client of the network, at the last place. The operator is told.
    fn enters(&mut self, token: usize, index: usize) {
        self.timers.clear(Timer::Newcomer(token));
        let Some(hosting) = self.networks.get_mut(index) else {
            return;
        };
        let order = hosting.note_client(token);
        self.seats.set(
            token,
            Seat::Client {
                network: index,
                order,
            },
        );
        self.seats.wake(token);
        self.tell_entered(index);
    }

    fn tell_entered(&mut self, index: usize) {
        let Some(hosting) = self.networks.get(index) else {
            return;
        };
        let Some(last) = hosting.network.client_count().checked_sub(1) else {
            return;
        };
        let client = hosting.network.client(last);
        self.waiting.end(client.place());
        let config = hosting.network.config();
        self.port.report(&Event::ClientIn {
            account: config.account.as_bytes(),
            network: config.network.as_bytes(),
            address: client.connection().address(),
        });
    }

    // It moves to the worker that serves the network which it names, or goes where it did so too often.
    fn moves(&mut self, token: usize, arrival: Arrival<C>, coming: Coming) {
        self.leave_seat(token);
        let mut arrival = arrival;
        let address = arrival.newcomer.client().connection().address();
        if coming.moves > MOVES {
            drop(arrival);
            return self.tell_refused(DepartedVisitor {
                address,
                reason: Reason::BadLine,
            });
        }
        arrival.newcomer.unwatch(&mut self.port);
        let worker = self.worker_of(arrival.network);
        let mut mail = Some(Mail::Arrives(Move { arrival, coming }));
        let _ = self.port.send_mail(worker, &mut mail);
    }

    /// A client that isn't registered had long enough. One that is turned away is told so now.
    pub(crate) fn visitor_is_due(&mut self, token: usize) {
        let until = self.now.saturating_add(PATIENCE);
        let Some(visitor) = self.seats.visitor(token) else {
            return;
        };
        let is_told_now = visitor.turned_away == TurnedAway::Waits;
        if is_told_now {
            visitor.turned_away = TurnedAway::IsTold;
        }
        if is_told_now && self.timers.try_set(Timer::Newcomer(token), until).is_ok() {
            return self.seats.wake(token);
        }
        self.let_go(token);
    }

    // A client that isn't registered is let go, since its time is up.
    fn let_go(&mut self, token: usize) {
        let Some(visitor) = self.seats.take_visitor(token) else {
            return;
        };
        let reason = visitor.reason_when_due();
        if let VisitorStep::Gone(gone) = gone(visitor, reason) {
            self.leave_seat(token);
            self.tell_refused(gone);
        }
    }
}
