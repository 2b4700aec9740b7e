//! Reading the text of a moment: the fields are decoded without a check, written again and compared.
ghost use Rattle.std.specs.Prelude.{◌≡◌, ℕ, ◌+◌, ◌-◌, ◌<◌, ◌≤◌, length, slice_index, IfSome, IfNone};
ghost use Rattle.irc_time.specs.Time.{IsTime, IsDateTime, HasMoment};
ghost use Rattle.irc_time.specs.Reading.{two_at, fields_at, time_of};
ghost use Rattle.irc_time.specs.Parts.{value_of};

use super::parts::{Parts, text_of};
use super::{DAYS_TO_1970, MILLISECONDS_PER_DAY, Moment};
use jiff_core::civil::Date;

/// The number of one digit; nothing is asked of the byte.
fn digit_at(bytes: &[u8], at: usize) -> u64
    requires { at < length bytes.now }
    ensures value { result ≡ slice_index bytes.now at - 48 }
    ensures bound { result ≤ 255 }
{
    bytes[at].saturating_sub(b'0') as u64
}

/// The number of two digits; nothing is asked of the bytes.
fn two_at(bytes: &[u8], at: usize) -> u64
    requires { at + 1 < length bytes.now }
    ensures value { result ≡ two_at bytes.now at }
    ensures bound { result ≤ 2805 }
{
    digit_at(bytes, at) * 10 + digit_at(bytes, at + 1)
}

/// What stands in the places of the fields; nothing is asked of the bytes.
fn parts_at(bytes: &[u8]) -> Parts
    requires { length bytes.now ≡ 24 }
    ensures { value_of result ≡ fields_at bytes.now }
{
    let year = two_at(bytes, 0) * 100 + two_at(bytes, 2);
    let month = two_at(bytes, 5);
    let day = two_at(bytes, 8);
    let hour = two_at(bytes, 11);
    let minute = two_at(bytes, 14);
    let second = two_at(bytes, 17);
    let millisecond = digit_at(bytes, 20) * 100 + two_at(bytes, 21);
    Parts {
        year,
        month,
        day,
        hour,
        minute,
        second,
        millisecond,
    }
}

/// The moment of the fields, if there is such a date and time.
fn moment_of(parts: Parts) -> Option<Moment>
    ensures some { IfSome result (λ t. IsDateTime (value_of parts) × HasMoment (value_of parts) t) }
    ensures none { IfNone result (IsDateTime (value_of parts) → ⊥) }
{
    if parts.year < 1970 || parts.year > 9999 || parts.month > 12 || parts.day > 31 {
        return None;
    }
    if parts.hour > 23 || parts.minute > 59 || parts.second > 60 || parts.millisecond > 999 {
        return None;
    }
    let Ok(date) = Date::new(parts.year as i16, parts.month as i8, parts.day as i8) else {
        return None;
    };
    let days = date.days_since_min() - DAYS_TO_1970;
    let in_minute = if parts.second == 60 {
        59_999
    } else {
        parts.second * 1000 + parts.millisecond
    };
    Moment::from_ms(
        days as u64 * MILLISECONDS_PER_DAY + (parts.hour * 60 + parts.minute) * 60_000 + in_minute,
    )
}

/// The moment that a text `YYYY-MM-DDThh:mm:ss.sssZ` has, as the IRCv3 server-time specification has it: the year is
/// 1970 to 9999, the date exists, the hour is 23 at most, the minute 59 and the second 60. A second of 60, a leap
/// second, is read as 59.999 of its minute. None for all other bytes.
pub fn read_time(bytes: &[u8]) -> Option<Moment>
    ensures some { IfSome result (λ t. IsTime bytes.now t) }
    ensures none { IfNone result ((t : ℕ) → IsTime bytes.now t → ⊥) }
    ensures value { result ≡ time_of bytes.now }
{
    if bytes.len() != 24 {
        return None;
    }
    let parts = parts_at(bytes);
    let text = text_of(parts);
    if text.as_slice() != bytes {
        return None;
    }
    moment_of(parts)
}
