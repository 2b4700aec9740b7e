//! Writing the text of a moment.
ghost use Rattle.std.specs.Prelude.{◌≡◌, pos, ◌≤◌, ◌≤ℤ◌};
ghost use Rattle.jiff_core.specs.Date.{epoch_day};
ghost use Rattle.irc_time.specs.Time.{IsTextOf, greatest_day};
ghost use Rattle.irc_time.specs.Text.{time_text};

use super::parts::{Parts, text_of};
use super::{DAYS_TO_1970, MILLISECONDS_PER_DAY, Moment};
use jiff_core::civil::Date;

/// The date with that day number, counted from 0 at 1970-01-01.
fn date_of(day: u32) -> Date
    requires { day ≤ greatest_day }
    ensures day { epoch_day result ≡ pos day }
    ensures year { (pos 1970 ≤ℤ result.year) × (result.year ≤ℤ pos 9999) }
{
    Date::from_days_since_min(day + DAYS_TO_1970)
}

/// The year of a date, which isn't before 1970.
fn year_of(date: Date) -> u16
    requires { pos 1970 ≤ℤ date.year }
    ensures { pos result ≡ date.year }
{
    date.year as u16
}

/// The text `YYYY-MM-DDThh:mm:ss.sssZ` of the moment in UTC, as the IRCv3 server-time specification has it. Its second
/// is 59 at most: a moment is never written as a leap second.
pub fn write_time(moment: Moment) -> [u8; 24]
    ensures meaning { IsTextOf result moment }
    ensures text { result ≡ time_text moment }
{
    let ms = moment.ms();
    let date = date_of((ms / MILLISECONDS_PER_DAY) as u32);
    let in_day = ms % MILLISECONDS_PER_DAY;
    let minutes = in_day / 60_000;
    let in_minute = in_day % 60_000;
    text_of(Parts {
        year: year_of(date) as u64,
        month: date.month as u64,
        day: date.day as u64,
        hour: minutes / 60,
        minute: minutes % 60,
        second: in_minute / 1000,
        millisecond: in_minute % 1000,
    })
}
