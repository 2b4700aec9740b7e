//! A state: the pieces of a history, each with its number.

ghost use Rattle.std.specs.Prelude.{◌≡◌, ◌≢◌, ◌↔◌, ◌∷◌, [], ◌+◌, Ok, true, false, IsTrue, IfOk, OnOk, OnErr, IfErr, if◌then◌else◌, take};
ghost use Rattle.chat_history.specs.Deltas.{all_changes};
ghost use Rattle.chat_state.specs.Run.{IsStoppedRun};
ghost use Rattle.chat_history.specs.StateValue as spec;
ghost use Rattle.chat_change.specs.ChangeRef.{change_of};
ghost use Rattle.chat_change.specs.declared.change.Change.TheVariants.{Post};
ghost use Rattle.chat_state.specs.declared.faults.StateFault.TheVariants as fault;

use crate::faults::{StateFault, TakeFault};
use crate::store::{Store, form_of, piece_in};
use byte_text::NoMemory;
use chat_change::{Change, ChangeRef, Extent, Record};
use std::alloc::Global;
use std::marker::Model;

/// What a node has taken, in normal form.
pub struct State {
    pub(crate) store: Store,
    pub(crate) front: u64,
}

// Written out, so that this is proved once, and not in each crate that lets a state go.
impl Drop for State {
    fn drop(self) {
        let Self {
            store: _store,
            front: _front,
        } = self;
    }
}

impl Model for State {
    ghost use Rattle.chat_history.specs.StateValue.{StateValue};
    ghost use Rattle.chat_history.specs.Codes.{coded_state};

    ghost Value = { StateValue };

    ghost coded = { coded_state };

    ghost use Rattle.chat_state.specs.State.{value_of, IsSound};

    ghost view = { λ s. value_of s.store s.front };

    ghost invariant = { λ s. IsSound s.store s.front };
}

impl State {
    ghost use Rattle.chat_history.specs.StateValue.{state_after, history_with, AreNumbersWith, HasTaken, IsStoppedAt, IsPastTheLast};

    /// An empty state.
    pub fn new(alloc: Global) -> Self
        ensures { result ≡ state_after 0 [] }
    {
        State::new_at(alloc, 0)
    }

    /// An empty state, whose first piece gets the number after `front`.
    pub fn new_at(alloc: Global, front: u64) -> Self
        ensures { result ≡ state_after front [] }
    {
        State {
            store: Store::new(alloc),
            front,
        }
    }

    /// Takes one change. The answer is whether it changed the history. A refused change leaves the state as it was.
    pub fn absorb(&mut self, change: Change) -> Result<bool, StateFault>
        ensures ok { OnOk result (self.new.history ≡ history_with self.old (change ∷ [])) }
        ensures changed { IfOk result (λ b. IsTrue b ↔ (self.new.history ≢ self.old.history)) }
        ensures front { IfOk result (λ b. self.new.front ≡
            (if b then self.old.front + 1 else self.old.front)) }
        ensures numbers { IfOk result (λ b. AreNumbersWith b self.old change self.new) }
        ensures held { OnOk result (HasTaken self.old (change ∷ []) self.new) }
        ensures exhausted { (result ≡ Err fault.Exhausted) ↔ IsPastTheLast self.old change }
        ensures err { OnErr result (self.new ≡ self.old) }
    {
        // without it the borrow checker can't plan the call
        let _extent: Option<Extent<'_>> = None;
        self.absorb_copy(&ChangeRef::of(&change))
    }

    /// The same of a change that is lent, whose texts it shares.
    pub fn absorb_copy(&mut self, change: &ChangeRef<'_>) -> Result<bool, StateFault>
        ensures ok { OnOk result (self.new.history
            ≡ history_with self.old (change_of change.now ∷ [])) }
        ensures changed { IfOk result (λ b. IsTrue b ↔ (self.new.history ≢ self.old.history)) }
        ensures front { IfOk result (λ b. self.new.front ≡
            (if b then self.old.front + 1 else self.old.front)) }
        ensures numbers { IfOk result (λ b.
            AreNumbersWith b self.old (change_of change.now) self.new) }
        ensures held { OnOk result (HasTaken self.old (change_of change.now ∷ []) self.new) }
        ensures exhausted { (result ≡ Err fault.Exhausted) ↔
            IsPastTheLast self.old (change_of change.now) }
        ensures err { OnErr result (self.new ≡ self.old) }
    {
        let ChangeRef::Post(post) = change else {
            return self.absorb_by_form(change);
        };
        if self.absorb_new(post)? {
            return Ok(true);
        }
        self.absorb_by_form(change)
    }

    // Takes a change by the form in which it counts.
    fn absorb_by_form(&mut self, change: &ChangeRef<'_>) -> Result<bool, StateFault>
        ensures ok { OnOk result (self.new.history
            ≡ history_with self.old (change_of change.now ∷ [])) }
        ensures changed { IfOk result (λ b. IsTrue b ↔ (self.new.history ≢ self.old.history)) }
        ensures front { IfOk result (λ b. self.new.front ≡
            (if b then self.old.front + 1 else self.old.front)) }
        ensures numbers { IfOk result (λ b.
            AreNumbersWith b self.old (change_of change.now) self.new) }
        ensures held { OnOk result (HasTaken self.old (change_of change.now ∷ []) self.new) }
        ensures exhausted { (result ≡ Err fault.Exhausted) ↔
            IsPastTheLast self.old (change_of change.now) }
        ensures err { OnErr result (self.new ≡ self.old) }
    {
        let Some(form) = form_of(&self.store, change) else {
            return Ok(false);
        };
        let Some(number) = self.front.checked_add(1) else {
            return Err(StateFault::Exhausted);
        };
        let Ok(piece) = piece_in(change, form) else {
            return Err(StateFault::NoMemory);
        };
        if !self.store.place(number, piece) {
            return Err(StateFault::NoMemory);
        }
        self.front = number;
        Ok(true)
    }

    // Takes a post that is new in a buffer of which something is held, as most are. The answer is whether it is such a post, and there
    // is a number for it. Else, and where there is no memory, the state stays as it was.
    fn absorb_new(&mut self, post: &Record) -> Result<bool, StateFault>
        ensures history { result ≡ Ok true →
            self.new.history ≡ history_with self.old (Post post.now ∷ []) }
        ensures changed { result ≡ Ok true → self.new.history ≢ self.old.history }
        ensures front { result ≡ Ok true → self.new.front ≡ self.old.front + 1 }
        ensures numbers { result ≡ Ok true →
            AreNumbersWith true self.old (Post post.now) self.new }
        ensures held { result ≡ Ok true → HasTaken self.old (Post post.now ∷ []) self.new }
        ensures last { self.old.front ≡ spec.greatest_number → result ≡ Ok false }
        ensures other { result ≡ Ok false → self.new ≡ self.old }
        ensures refused { OnErr result (self.new ≡ self.old) }
        ensures no_memory { IfErr result (λ e. e ≡ fault.NoMemory) }
    {
        let Some(number) = self.front.checked_add(1) else {
            return Ok(false);
        };
        match self.store.place_new(number, post) {
            Ok(true) => {
                self.front = number;
                Ok(true)
            }
            Ok(false) => Ok(false),
            Err(_) => Err(StateFault::NoMemory),
        }
    }

    /// Whether the change would change the history.
    pub fn would_count(&self, change: &ChangeRef<'_>) -> bool
        ensures counts { IsTrue result →
            history_with self.now (change_of change.now ∷ []) ≢ self.now.history }
        ensures same { result ≡ false →
            history_with self.now (change_of change.now ∷ []) ≡ self.now.history }
    {
        match form_of(&self.store, change) {
            None => false,
            Some(_) => true,
        }
    }

    /// Takes changes in turn. After a refusal the first `taken` stand.
    pub fn take(&mut self, changes: &[Change]) -> Result<(), TakeFault>
        ensures ok { OnOk result (self.new.history ≡ history_with self.old changes.now) }
        ensures held { OnOk result (HasTaken self.old changes.now self.new) }
        ensures err { IfErr result (λ e. self.new.history ≡
            history_with self.old (take e.taken changes.now)) }
        ensures held_err { IfErr result (λ e. HasTaken self.old
            (take e.taken changes.now) self.new) }
        ensures exhausted { IfErr result (λ e. IsStoppedAt self.new changes.now e.taken (e.cause ≡
            fault.Exhausted)) }
    {
        // without it the proof has no invariant before the loop
        let _ = &self.store;
        // without it the borrow checker can't plan the call
        let _extent: Option<Extent<'_>> = None;
        for (i, change) in changes.iter().enumerate() {
            if let Err(cause) = self.absorb_copy(&ChangeRef::of(change)) {
                return Err(TakeFault { taken: i, cause });
            }
        }
        Ok(())
    }

    /// An equal state.
    pub fn try_clone(&self, alloc: Global) -> Result<State, NoMemory>
        ensures { IfOk result (λ copy. copy ≡ self.now) }
    {
        let store = self.store.try_clone(alloc)?;
        Ok(State {
            store,
            front: self.front,
        })
    }
}

/// Takes each delta in turn into an empty state. After a refusal no state is handed out; `taken` counts through the
/// deltas as one list.
pub fn run(alloc: Global, deltas: &[Vec<Change>]) -> Result<State, TakeFault>
    ensures held { IfOk result (λ state. state ≡ spec.state_after 0 (all_changes deltas.now)) }
    ensures refused { IfErr result (IsStoppedRun (all_changes deltas.now)) }
{
    let mut state = State::new(alloc);
    let mut taken: usize = 0;
    for delta in deltas {
        if let Err(fault) = state.take(delta) {
            return Err(TakeFault {
                taken: taken.saturating_add(fault.taken),
                cause: fault.cause,
            });
        }
        taken = taken.saturating_add(delta.len());
    }
    Ok(state)
}
