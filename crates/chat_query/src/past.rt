//! Who answers questions about the past.
ghost use Rattle.std.specs.Prelude.{◌≡◌, List, Err, IfOk};
ghost use Rattle.byte_text.specs.Writes.{Writes};
ghost use Rattle.chat_change.specs.declared.change.Change.{Change};
ghost use Rattle.chat_query.specs.Answers.{answer_of};

use crate::facts::{Answered, Facts};
use irc_line::Line;
use std::alloc::Global;
use std::io::Write;
use thiserror::Error;

/// Why a line wasn't answered to its end.
#[derive(Clone, Copy, Debug, PartialEq, Eq, Error)]
pub enum AskFault {
    /// The past couldn't be entered. Nothing was written.
    #[error("no entry")]
    NoEntry,
    /// There was no memory. Nothing was written.
    #[error("no memory")]
    NoMemory,
    /// The writer failed. A prefix of the answer was written.
    #[error("writing failed")]
    Write,
}

/// A past of which questions are asked.
pub trait Past {
    /// The changes that it answers from, once it has answered.
    ghost changes: { Self → List Change };

    /// Answers a question about the past (as `chat_batch::answer` does from a state). Where it isn't entered, and for want of
    /// memory, nothing is written.
    fn ask<W: Write>(
        &mut self,
        alloc: Global,
        facts: &Facts,
        line: &Line<'_>,
        writer: &mut W,
    ) -> Result<Answered, AskFault>
        ensures text { Writes W.contents writer.old writer.new result
            (answer_of (changes self.new) facts.now line.now).text }
        ensures answered { IfOk result (λ a.
            a ≡ (answer_of (changes self.new) facts.now line.now).answered) }
        ensures no_entry { result ≡ Err AskFault.NoEntry → writer.new ≡ writer.old }
        ensures memory { result ≡ Err AskFault.NoMemory → writer.new ≡ writer.old };
}
