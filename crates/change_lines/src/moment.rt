//! Moments in lines.
ghost use Rattle.std.specs.Prelude.{◌≡◌};
ghost use Rattle.change_lines.specs.Moment as spec;

use byte_text::number_to;
use chat_change::Moment;
use irc_time::GREATEST;

/// The moment that the text spells, as milliseconds after 1970 began.
pub(crate) fn moment_of(text: &[u8]) -> Option<Moment>
    ensures { result ≡ spec.moment_of text.now }
{
    match number_to(GREATEST, text) {
        None => None,
        Some(ms) => Moment::from_ms(ms),
    }
}
