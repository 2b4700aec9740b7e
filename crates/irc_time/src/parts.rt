//! The fields of a date and a time of day, and their text.
ghost use Rattle.std.specs.Prelude.{◌≡◌, ◌+◌, ◌%◌};
ghost use Rattle.irc_time.specs.Time.{text};
ghost use Rattle.irc_time.specs.Parts.{value_of};

/// The fields of a date and a time of day in UTC. There need be no such date or time.
#[derive(Clone, Copy)]
pub(crate) struct Parts {
    pub(crate) year: u64,
    pub(crate) month: u64,
    pub(crate) day: u64,
    pub(crate) hour: u64,
    pub(crate) minute: u64,
    pub(crate) second: u64,
    pub(crate) millisecond: u64,
}

/// The last digit of the number.
fn digit(n: u64) -> u8
    ensures { result ≡ 48 + n % 10 }
{
    b'0' + (n % 10) as u8
}

/// The text `YYYY-MM-DDThh:mm:ss.sssZ` of the fields.
pub(crate) fn text_of(parts: Parts) -> [u8; 24]
    ensures { result ≡ text (value_of parts) }
{
    [
        digit(parts.year / 1000),
        digit(parts.year / 100),
        digit(parts.year / 10),
        digit(parts.year),
        b'-',
        digit(parts.month / 10),
        digit(parts.month),
        b'-',
        digit(parts.day / 10),
        digit(parts.day),
        b'T',
        digit(parts.hour / 10),
        digit(parts.hour),
        b':',
        digit(parts.minute / 10),
        digit(parts.minute),
        b':',
        digit(parts.second / 10),
        digit(parts.second),
        b'.',
        digit(parts.millisecond / 100),
        digit(parts.millisecond / 10),
        digit(parts.millisecond),
        b'Z',
    ]
}
