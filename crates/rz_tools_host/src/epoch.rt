//! The moment that a text tells, as that of `SOURCE_DATE_EPOCH`. See `specs/Epoch`.

ghost use Rattle.std.specs.Prelude.{IfNone, IfSome, ℤ};
ghost use Rattle.rz_tools_host.specs.Epoch.{Tells};

use rz_core::Moment;
use rz_tools_args::number_told;

/// The moment so many seconds after the first second of 1970 as the text says in decimal, without a sign or a leading
/// zero. `None` comes exactly if the text is no such number in the range of moments.
pub fn moment_told(text: &str) -> Option<Moment>
    ensures some { IfSome result (λ moment. Tells text.now moment.unix) }
    ensures none { IfNone result ((seconds : ℤ) → Tells text.now seconds → ⊥) }
{
    Moment::of_unix(i64::from(number_told(text)?))
}
