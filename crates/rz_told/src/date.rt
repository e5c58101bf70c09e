//! Dates on a line, as `specs/Date` has them.
#![tactic(auto, using(rz_show_lines::proofs::Writes::writes))]

ghost use Rattle.std.specs.Prelude.{◌≡◌, ◌<◌, ◌↔◌, ◌++◌, ◌+ℤ◌, codes, nat_abs, negsuc, pos, IfSome, IsSome};
ghost use Rattle.rz_core.specs.DateText.{digit};
ghost use Rattle.rz_show_lines.specs.Cut.{cut};
ghost use Rattle.rz_told.specs.Date.{date_text, date_told, two_digits};

use crate::number::decimal;
use rz_core::Moment;
use rz_show_lines::Line;

/// The last digit of a number.
fn digit(number: u32) -> u8
    ensures { result ≡ digit number }
{
    b'0' + (number % 10) as u8
}

/// Writes the last two digits of a number.
fn two_digits(number: u32, line: &mut Line)
    ensures { line.new ≡ cut (line.old ++ two_digits number) }
{
    line.push(digit(number / 10));
    line.push(digit(number));
}

/// Writes the date of a moment, `yyyy-mm-dd`.
#[tactic(auto, using(rz_show_lines::proofs::Writes::writes), unfolding(crate::specs::Date::date_text))]
fn day(moment: Moment, line: &mut Line)
    ensures { line.new ≡ cut (line.old ++ date_text (nat_abs moment.year) moment.month moment.day) }
{
    let year = moment.year.unsigned_abs();
    two_digits(year / 100, line);
    two_digits(year, line);
    line.push(b'-');
    two_digits(u32::from(moment.month), line);
    line.push(b'-');
    two_digits(u32::from(moment.day), line);
}

/// Writes the time of a moment, `hh:mm:ss`.
fn time(moment: Moment, line: &mut Line)
    ensures { line.new ≡ cut (line.old ++ (two_digits moment.hour ++ codes ":" ++ two_digits moment.minute ++ codes ":" ++ two_digits moment.second)) }
{
    two_digits(u32::from(moment.hour), line);
    line.push(b':');
    two_digits(u32::from(moment.minute), line);
    line.push(b':');
    two_digits(u32::from(moment.second), line);
}

/// The moment so many seconds after the first of 1904, up to the end of 2039.
fn moment_at(seconds: u32) -> Option<Moment>
    ensures some { IsSome result ↔ (seconds < 4291833600) }
    ensures unix { IfSome result (λ moment. moment.unix ≡ negsuc 2082844799 +ℤ pos seconds) }
{
    Moment::of_unix(Moment::FIRST + i64::from(seconds))
}

/// Writes a date, which counts in seconds from the first of 1904: its day and its time in the clock's zone, whatever
/// that is; `none` where it is 0, and from 2040 on its seconds.
pub fn date(seconds: u32, line: &mut Line)
    ensures { line.new ≡ cut (line.old ++ date_told seconds) }
{
    if seconds == 0 {
        line.append(b"none");
        return;
    }
    match moment_at(seconds) {
        Some(moment) => {
            day(moment, line);
            line.push(b' ');
            time(moment, line);
        }
        None => decimal(u64::from(seconds), line),
    }
}
