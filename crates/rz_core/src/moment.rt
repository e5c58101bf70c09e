//! A moment in the years 1904 to 2039, and the Macintosh's count of its seconds. See `specs/Moment`.

ghost use Rattle.std.specs.Prelude.{◌≡◌, ◌↔◌, ◌+ℤ◌, ◌*ℤ◌, pos, IsSome, IfSome};
ghost use Rattle.jiff_core.specs.DateTime.{civil_nanos};
ghost use Rattle.rz_core.specs.Moment.{IsCivil, IsInRange};

use jiff_core::civil::DateTime;
use jiff_core::{Offset, Timestamp};

/// A moment in the years 1904 to 2039, the range of the Macintosh's clock and of the tools' dates.
#[derive(Clone, Copy, Debug)]
pub struct Moment {
    /// Seconds since the first second of 1970 in UTC.
    pub unix: i64,
    /// The year in UTC, 1904 to 2039.
    pub year: i32,
    /// The month, from 1.
    pub month: u8,
    /// The day of the month, from 1.
    pub day: u8,
    /// The hour, 0 to 23.
    pub hour: u8,
    /// The minute, 0 to 59.
    pub minute: u8,
    /// The second, 0 to 59.
    pub second: u8,
    /// The day of the week; Sunday is 1.
    pub weekday: u8,
    ghost in_range: { IsInRange unix },
    ghost civil: { IsCivil unix year month day hour minute second weekday },
}

impl Moment {
    /// The first second of 1904, as seconds since the first second of 1970 in UTC.
    pub const FIRST: i64 = -2_082_844_800;

    /// The last second of 2039, as seconds since the first second of 1970 in UTC.
    pub const LAST: i64 = 2_208_988_799;

    /// The moment so many seconds after the first second of 1970 in UTC. `None` comes exactly outside
    /// the years 1904 to 2039.
    pub fn of_unix(seconds: i64) -> Option<Moment>
        ensures some { IsSome result ↔ IsInRange seconds }
        ensures unix { IfSome result (λ moment. moment.unix ≡ seconds) }
    {
        if seconds < Self::FIRST || seconds > Self::LAST {
            return None;
        }
        let time = Timestamp::from_nanosecond(i128::from(seconds) * 1_000_000_000).ok()?;
        Some(civil_moment(seconds, Offset::UTC.to_datetime(time)))
    }

    /// The seconds since the first second of 1904, as the Macintosh's clock counts them.
    pub fn mac_time(&self) -> u32
        ensures { pos result ≡ self.now.unix +ℤ pos 2082844800 }
    {
        (self.unix - Self::FIRST) as u32
    }
}

/// The moment so many seconds after the first second of 1970, which has this date and time in UTC.
fn civil_moment(seconds: i64, civil: DateTime) -> Moment
    requires range { IsInRange seconds }
    requires shown { civil_nanos civil ≡ seconds *ℤ pos 1000000000 }
    ensures { result.unix ≡ seconds }
{
    Moment {
        unix: seconds,
        year: i32::from(civil.date.year),
        month: civil.date.month,
        day: civil.date.day,
        hour: civil.time.hour,
        minute: civil.time.minute,
        second: civil.time.second,
        weekday: civil.date.weekday().to_sunday_one_offset() as u8,
    }
}
