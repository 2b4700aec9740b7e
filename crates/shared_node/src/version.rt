//! What is published, and what takes it further.
ghost use Rattle.std.specs.Prelude.{◌≡◌, ◌∷◌, []};
ghost use mathlib.Core.List.{IsSuffix};
ghost use Rattle.shared_node.specs.Lists.{state_of};

use crate::entry::LogEntry;
use crate::history::Naming;
use crate::prefix::Prefix;
use chat_change::{Buffer, ChangeRef, Extent, MsgId, Record};
use chat_state::State;
use left_right::Absorb;
use std::alloc::{AllocError, Global};
use std::marker::Model;

/// A state, and the list of the node `J` that it is made of. Contracts see it as the list.
#[derive(Drop)]
pub(crate) struct StateVersion<J: Naming> {
    state: State,
    list: Prefix<J>,
}

impl<J: Naming> Model for StateVersion<J> {
    ghost use Rattle.std.specs.Prelude.{◌≡◌, List};
    ghost use Rattle.shared_node.specs.declared.entry.LogEntry.{LogEntry};
    ghost use Rattle.shared_node.specs.Lists.{state_of};

    ghost Value = { List LogEntry };

    ghost view = { λ v. v.list };

    ghost invariant = { λ v. v.state ≡ state_of v.list };
}

impl<J: Naming> StateVersion<J> {
    /// The empty state, of the empty list.
    pub(crate) fn empty(alloc: Global, list: Prefix<J>) -> StateVersion<J>
        requires { list ≡ [] }
        ensures { result ≡ [] }
    {
        StateVersion {
            state: State::new(alloc),
            list,
        }
    }

    pub(crate) fn state(&self) -> &State
        ensures { result.now ≡ state_of self.now }
    {
        &self.state
    }

    pub(crate) fn list(&self) -> &Prefix<J>
        ensures { result.now ≡ self.now }
    {
        &self.list
    }
}

/// An entry to be published, and the list that has it last. Contracts see it as the list.
#[derive(Drop)]
pub(crate) struct Operation<J: Naming> {
    entry: LogEntry,
    after: Prefix<J>,
}

impl<J: Naming> Model for Operation<J> {
    ghost use Rattle.std.specs.Prelude.{List, ◌∷◌, []};
    ghost use mathlib.Core.List.{IsSuffix};
    ghost use Rattle.shared_node.specs.declared.entry.LogEntry.{LogEntry};

    ghost Value = { List LogEntry };

    ghost view = { λ o. o.after };

    ghost invariant = { λ o. IsSuffix (o.entry ∷ []) o.after };
}

impl<J: Naming> Operation<J> {
    pub(crate) fn new(entry: LogEntry, after: Prefix<J>) -> Operation<J>
        requires { IsSuffix (entry ∷ []) after }
        ensures { result ≡ after }
    {
        Operation { entry, after }
    }
}

impl<J: Naming> Absorb<Operation<J>> for StateVersion<J> {
    ghost use Rattle.shared_node.specs.Versions.{stepped};

    type State = Prefix<J>;

    ghost state = { λ v. v };

    ghost applied = { stepped };

    // A state shares the texts of a change that it takes, so both versions do. The lists always fit together.
    fn absorb_first(
        &mut self,
        operation: &Operation<J>,
        _other: &StateVersion<J>,
    ) -> Result<(), AllocError> {
        // without it the borrow checker can't plan the call
        let _parts: Option<(Extent<'_>, &Record, &Buffer, &MsgId)> = None;
        let after = &operation.after;
        if after.len() - 1 != self.list.len() || !after.follows(&self.list) {
            return Err(AllocError);
        }
        let change = &operation.entry.change;
        match self.state.absorb_copy(&ChangeRef::of(change)) {
            Ok(_) => {
                self.list = after.again();
                Ok(())
            }
            Err(_) => Err(AllocError),
        }
    }

    // The front rises with each change that changes a state. Where it is the same in both versions, no change of the other's
    // list that this one lacks changed the state, and none is looked for.
    fn absorb_second(
        &mut self,
        operation: Operation<J>,
        other: &StateVersion<J>,
    ) -> Result<(), Operation<J>> {
        let after = &operation.after;
        if self.state.front() == other.state.front()
            && after.follows(&self.list)
            && other.list.follows(after)
        {
            self.list = after.again();
            return Ok(());
        }
        match self.absorb_first(&operation, other) {
            Ok(()) => Ok(()),
            Err(_) => Err(operation),
        }
    }
}
