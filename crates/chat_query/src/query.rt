//! What a client asks of a history (IRCv3 draft/chathistory, "CHATHISTORY").
ghost use Rattle.std.specs.Prelude.{◌≡◌, Some, None, if◌then◌else◌};
ghost use Rattle.chat_change.specs.Words as words;

use chat_change::{Moment, is_id, is_target};
use std::marker::Model;

/// A channel or a nick as the client spelled it. Contracts see it folded, in lower case.
#[derive(Drop)]
pub struct Target<'a> {
    given: &'a [u8],
}

impl<'a> Model for Target<'a> {
    ghost use Rattle.std.specs.Prelude.{◌≡◌, ℕ, List, true};
    ghost use Rattle.chat_change.specs.Words as spec;

    ghost Value = { List ℕ };

    ghost view = { λ t. spec.lower_case_of t.given.now };

    ghost invariant = { λ t. spec.is_target t.given.now ≡ true };
}

impl<'a> Target<'a> {
    /// The target that a word spells, if it is one.
    pub fn read(word: &'a [u8]) -> Option<Target<'a>>
        ensures { result ≡ (if words.is_target word.now then Some (words.lower_case_of word.now)
            else None) }
    {
        if is_target(word) {
            Some(Target { given: word })
        } else {
            None
        }
    }

    /// The target as it was spelled.
    pub fn given(&self) -> &'a [u8]
        ensures { words.lower_case_of result.now ≡ self.now }
    {
        self.given
    }
}

/// The id of a message as the client gave it. Contracts see the list of its bytes.
#[derive(Drop)]
pub struct GivenId<'a> {
    bytes: &'a [u8],
}

impl<'a> Model for GivenId<'a> {
    ghost use Rattle.std.specs.Prelude.{◌≡◌, ℕ, List, true};
    ghost use Rattle.chat_change.specs.Words as spec;

    ghost Value = { List ℕ };

    ghost view = { λ i. i.bytes.now };

    ghost invariant = { λ i. spec.is_id i.bytes.now ≡ true };
}

impl<'a> GivenId<'a> {
    /// The id that these bytes are, if they are one.
    pub fn read(bytes: &'a [u8]) -> Option<GivenId<'a>>
        ensures { result ≡ (if words.is_id bytes.now then Some bytes.now else None) }
    {
        if is_id(bytes) {
            Some(GivenId { bytes })
        } else {
            None
        }
    }

    /// The bytes of the id.
    pub fn as_bytes(&self) -> &'a [u8]
        ensures { result.now ≡ self.now }
    {
        self.bytes
    }
}

/// A place among the records of a buffer: a moment, or a message.
#[derive(Drop)]
pub enum Selector<'a> {
    Timestamp(Moment),
    Message(GivenId<'a>),
}

/// What is asked. A limit is above 0.
#[derive(Drop)]
pub enum Query<'a> {
    /// The latest records, or those after a selector.
    Latest {
        target: Target<'a>,
        after: Option<Selector<'a>>,
        limit: usize,
    },
    Before {
        target: Target<'a>,
        selector: Selector<'a>,
        limit: usize,
    },
    After {
        target: Target<'a>,
        selector: Selector<'a>,
        limit: usize,
    },
    Around {
        target: Target<'a>,
        selector: Selector<'a>,
        limit: usize,
    },
    Between {
        target: Target<'a>,
        one: Selector<'a>,
        other: Selector<'a>,
        limit: usize,
    },
    /// The buffers whose latest record lies between two moments.
    Targets {
        one: Moment,
        other: Moment,
        limit: usize,
    },
}
