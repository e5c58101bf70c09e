//! The date and the time of a moment as text in UTC; changed only with `specs/DateText`.

ghost use Rattle.std.specs.Prelude.{◌≡◌, ◌++◌, OnOk, OnErr};
ghost use Rattle.rz_core.specs.DateText.{date_text, digit, time_text};

use crate::{Bytes, Moment, NoMemory};

/// The last digit of a number.
fn digit(number: u32) -> u8
    ensures { result ≡ digit number }
{
    b'0' + (number % 10) as u8
}

/// Appends the date of a moment in UTC, `yyyy-mm-dd`. Where memory is refused `into` is unchanged. (MPW Rez.)
pub fn write_date(moment: Moment, into: &mut Bytes) -> Result<(), NoMemory>
    ensures ok { OnOk result (into.new ≡ into.old ++ date_text moment) }
    ensures err { OnErr result (into.new ≡ into.old) }
{
    let year = moment.year.unsigned_abs();
    let (month, day) = (u32::from(moment.month), u32::from(moment.day));
    into.append(&[
        digit(year / 1000),
        digit(year / 100),
        digit(year / 10),
        digit(year),
        b'-',
        digit(month / 10),
        digit(month),
        b'-',
        digit(day / 10),
        digit(day),
    ])
}

/// Appends the time of a moment in UTC, `hh:mm:ss`. Where memory is refused `into` is unchanged. (MPW Rez.)
pub fn write_time(moment: Moment, into: &mut Bytes) -> Result<(), NoMemory>
    ensures ok { OnOk result (into.new ≡ into.old ++ time_text moment) }
    ensures err { OnErr result (into.new ≡ into.old) }
{
    let (hour, minute, second) = (
        u32::from(moment.hour),
        u32::from(moment.minute),
        u32::from(moment.second),
    );
    into.append(&[
        digit(hour / 10),
        digit(hour),
        b':',
        digit(minute / 10),
        digit(minute),
        b':',
        digit(second / 10),
        digit(second),
    ])
}
