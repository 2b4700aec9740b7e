//! What a floor leaves of a redaction.
ghost use Rattle.std.specs.Prelude.{◌≡◌};
ghost use Rattle.chat_history.specs.Retention as spec;

use chat_change::Moment;

/// The moment where it is at or above the floor, which is in milliseconds.
pub fn at_or_above(floor: u64, at: Option<Moment>) -> Option<Moment>
    ensures { result ≡ spec.at_or_above floor at }
{
    let at = at?;
    if floor <= at.ms() { Some(at) } else { None }
}
