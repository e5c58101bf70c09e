//! A law with nothing to run: two moments of one second have the same date, day of the week and time.

ghost use Rattle.std.specs.Prelude.{◌≡◌};
ghost use Rattle.rz_core.specs.declared.moment.Moment.{Moment};

/// A law, with nothing to run: two moments of one second have the same date, day of the week and time.
pub fn one_date()
    ensures date { (one other : Moment) → one.unix ≡ other.unix → (one.year ≡ other.year) × (one.month ≡ other.month) × (one.day ≡ other.day) × (one.weekday ≡ other.weekday) }
    ensures time { (one other : Moment) → one.unix ≡ other.unix → (one.hour ≡ other.hour) × (one.minute ≡ other.minute) × (one.second ≡ other.second) }
{}
