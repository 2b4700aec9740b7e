//! Who looks at the published version.
ghost use Rattle.std.specs.Prelude.{◌≡◌, true, IfSome, IfNone};
ghost use mathlib.Core.List.{IsPrefix};
ghost use Rattle.shared_node.specs.Lists.{state_of};

use crate::history::Naming;
use crate::prefix::Prefix;
use crate::version::StateVersion;
use chat_state::State;
use crossbeam_utils::rule::Unruled;
use left_right::reader::{Reader, Reading};
use std::marker::Model;

pub(crate) type VersionReader<J> = Reader<StateVersion<J>, (), Unruled>;

/// A reader of a log. A visit has what it reads with while it lives. Contracts see whether it is back.
#[derive(Drop)]
pub struct Entrance<J: Naming> {
    home: Option<VersionReader<J>>,
}

impl<J: Naming> Model for Entrance<J> {
    ghost use Rattle.std.specs.Prelude.{Bool, is_some};

    ghost Value = { Bool };

    ghost view = { λ e. is_some e.home };
}

/// The version that is published, as long as this lives. It may not be let go: it ends by [`Entrance::leave`]. Contracts see it
/// as its state.
pub struct Visit<J: Naming> {
    reading: Reading<StateVersion<J>, (), Unruled>,
}

impl<J: Naming> Model for Visit<J> {
    ghost use Rattle.chat_history.specs.StateValue.{StateValue};
    ghost use Rattle.chat_history.specs.Codes.{coded_state};
    ghost use Rattle.shared_node.specs.Lists.{state_of};

    ghost Value = { StateValue };

    ghost coded = { coded_state };

    ghost view = { λ v. state_of v.reading.part.value };
}

impl<J: Naming> Entrance<J> {
    pub(crate) fn new(reader: VersionReader<J>) -> Entrance<J>
        ensures { result ≡ true }
    {
        Entrance { home: Some(reader) }
    }

    /// Enters the published version, where its list follows what was seen and what one was told of. From then on it is what was
    /// seen. None where it doesn't follow these, and where nothing is published any more; then the entrance stands as it did.
    pub fn enter(&mut self, seen: &mut Prefix<J>, told: &Prefix<J>) -> Option<Visit<J>>
        requires { self.old ≡ true }
        ensures version { IfSome result (λ v. v ≡ state_of seen.new) }
        ensures follows { IfSome result (λ _. IsPrefix seen.old seen.new
            × IsPrefix told.now seen.new) }
        ensures refused { IfNone result (seen.new ≡ seen.old) }
        ensures stands { IfNone result (self.new ≡ true) }
    {
        let reading = self.read()?;
        let list = reading.get().list().again();
        if !list.follows(seen) || !list.follows(told) {
            self.home = Some(reading.leave());
            return None;
        }
        *seen = list;
        Some(Visit { reading })
    }

    // The version that is published, unless there is none any more.
    fn read(&mut self) -> Option<Reading<StateVersion<J>, (), Unruled>>
        requires { self.old ≡ true }
        ensures { IfNone result (self.new ≡ true) }
    {
        let reader = self.home.take()?;
        match reader.enter_as::<Unruled>() {
            Ok(reading) => Some(reading),
            Err(reader) => {
                self.home = Some(reader);
                None
            }
        }
    }

    /// Ends a visit, whose reader comes back.
    pub fn leave(&mut self, visit: Visit<J>)
        ensures { self.new ≡ true }
    {
        let Visit { reading } = visit;
        self.home = Some(reading.leave());
    }
}

impl<J: Naming> Visit<J> {
    /// The state of the version.
    pub fn state(&self) -> &State
        ensures { result.now ≡ self.now }
    {
        self.reading.get().state()
    }
}
