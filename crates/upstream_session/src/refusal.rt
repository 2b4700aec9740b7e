//! The words by which a server refuses a session.
ghost use Rattle.std.specs.Prelude.{◌≡◌, ◌≤◌, [], length, map, take};
ghost use Rattle.std.specs.Option.{option_copied};
ghost use Rattle.upstream_session.specs.Refusal as spec;

use irc_line::Line;
use std::marker::Model;

/// The most bytes that are kept of a text.
pub(crate) const MOST_WORDS: usize = 200;

/// What a server said last as it refused the session, as it is shown: printable ASCII. Empty where it said nothing of the kind.
#[derive(Drop)]
pub(crate) struct Refusal {
    words: [u8; MOST_WORDS],
    count: usize,
}

impl Model for Refusal {
    ghost use Rattle.std.specs.Prelude.{◌≤◌, List, take, ℕ};
    ghost use Rattle.upstream_session.specs.declared.refusal.TheConstants.{MOST_WORDS};

    ghost Value = { List ℕ };

    ghost view = { λ r. take r.count r.words };

    ghost invariant = { λ r. r.count ≤ MOST_WORDS };
}

/// Whether a line of that command refuses the session, whose network is up or not.
pub(crate) fn is_refusing(is_up: bool, command: &[u8]) -> bool
    ensures { result ≡ spec.is_refusing is_up command.now }
{
    command.eq_ignore_ascii_case(b"ERROR")
        || command.eq_ignore_ascii_case(b"465")
        || (!is_up && command.eq_ignore_ascii_case(b"432"))
}

fn shown(byte: u8) -> u8
    ensures { result ≡ spec.shown byte }
{
    if b' ' <= byte && byte <= b'~' {
        byte
    } else {
        b'?'
    }
}

fn beginning(text: &[u8]) -> &[u8]
    ensures taken { result.now ≡ take MOST_WORDS text.now }
    ensures short { length result.now ≤ MOST_WORDS }
{
    if text.len() <= MOST_WORDS {
        text
    } else {
        &text[..MOST_WORDS]
    }
}

fn shown_words(text: &[u8]) -> Refusal
    ensures { result ≡ spec.shown_words text.now }
{
    let mut words = [0; MOST_WORDS];
    let mut count = 0;
    for byte in beginning(text) {
        words[count] = shown(*byte);
        count += 1;
    }
    Refusal { words, count }
}

fn last_parameter<'a>(parameters: &[&'a [u8]]) -> Option<&'a [u8]>
    ensures { option_copied result ≡ spec.last_parameter (map (λ p. p.now) parameters.now) }
{
    parameters.last().copied()
}

impl Refusal {
    /// Nothing was said yet.
    pub(crate) fn none() -> Refusal
        ensures { result ≡ [] }
    {
        Refusal {
            words: [0; MOST_WORDS],
            count: 0,
        }
    }

    /// The words.
    pub(crate) fn as_bytes(&self) -> &[u8]
        ensures { result.now ≡ self.now }
    {
        &self.words[..self.count]
    }

    /// A line of the server came, while the network was up or not.
    pub(crate) fn hear(&mut self, is_up: bool, line: &Line<'_>)
        ensures { self.new ≡ spec.after_line is_up self.old line.now }
    {
        if !is_refusing(is_up, line.command()) {
            return;
        }
        if let Some(text) = last_parameter(line.parameters()) {
            *self = shown_words(text);
        }
    }
}
