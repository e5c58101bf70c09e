//! Cases of a switch by their names. See `specs/Cases`.

ghost use Rattle.std.specs.Prelude.{◌≡◌, ◌<◌, length, slice_get, IfSome, option_and_then, option_map};
ghost use Rattle.rz_types_fields.specs.Field.{plain_case, plain_cases};
ghost use Rattle.rz_types.specs.Cases.{case_named, is_named};
ghost use Rattle.rz_types.specs.Kept.{Differ};
ghost use Rattle.rz_types.specs.Rules.{case_names};

use rz_types_fields::{Case, CaseHints};

/// The position of the case of a name, in whatever case, among the cases of a switch of a template: these have
/// different names. `None` comes exactly where no case has the name. Where the hints are those of the cases its time is
/// constant on average; for a name that no case has, or of more than 255 bytes, it is in proportion to the cases. (MPW
/// Rez.)
pub fn case_named(cases: &[Case], hints: &CaseHints, name: &[u8]) -> Option<usize>
    ensures within { IfSome result (λ position. position < length cases.now) }
    ensures named { Differ (case_names (plain_cases cases.now)) → case_named name.now (plain_cases cases.now) ≡ option_map plain_case (option_and_then (slice_get cases.now) result) }
{
    if let Some(position) = hints.by_name(name) {
        if stands_at(cases, position, name) {
            return Some(position);
        }
    }
    first_named(cases, name)
}

/// Whether a case of a name stands at a position.
fn stands_at(cases: &[Case], position: usize, name: &[u8]) -> bool
    ensures { result ≡ is_named name.now (option_map plain_case (slice_get cases.now position)) }
{
    match cases.get(position) {
        Some(case) => case.name.is(name),
        None => false,
    }
}

/// The position of the first case of a name, in whatever case. (MPW Rez.)
fn first_named(cases: &[Case], name: &[u8]) -> Option<usize>
    ensures within { IfSome result (λ position. position < length cases.now) }
    ensures named { case_named name.now (plain_cases cases.now) ≡ option_map plain_case (option_and_then (slice_get cases.now) result) }
{
    for position in 0..cases.len() {
        if cases[position].name.is(name) {
            return Some(position);
        }
    }
    None
}
