//! Zero bits at a place, a count of them or up to a multiple of a unit. They are defined in `specs/Pieces`.

ghost use Rattle.std.specs.Prelude.{◌≡◌, ◌+◌, ◌<◌, ◌≤◌, false, length, IfSome, option_map};
ghost use Rattle.rz_bits.specs.BitBuf.{missing};
ghost use Rattle.rz_bits.specs.View.{seen};
ghost use Rattle.rz_expr.specs.Environment.{Environment};
ghost use Rattle.rz_types_fields.specs.Sees.{Late};
ghost use Rattle.rz_unlay_pieces.specs.Came.{step_in};
ghost use Rattle.rz_unlay_pieces.specs.Pieces.{late_behind, zeros_step};

use crate::came::Came;
use rz_bits::{BitView, missing};

/// Reads so many zero bits. `None` where they aren't there or aren't all 0.
pub fn read_zeros(view: &BitView<'_>, count: u64, at: u32) -> Option<Came>
    requires { at ≤ length (seen view.now) }
    ensures step { (names : Environment) (late : Late) → option_map (step_in names (late_behind late count false)) result ≡ zeros_step (seen view.now) count names at late }
    ensures after { IfSome result (λ c. c.after ≡ at + count) }
    ensures within { IfSome result (λ c. c.after ≤ length (seen view.now)) }
{
    if count > u64::from(view.len() - at) {
        return None;
    }
    if view.are_zero(at, count as u32) {
        Some(Came {
            value: None,
            after: at + count as u32,
            cost: 0,
        })
    } else {
        None
    }
}

/// Reads zero bits to the next multiple of a unit.
pub fn read_filler(view: &BitView<'_>, unit: u8, at: u32) -> Option<Came>
    requires unit { 0 < unit }
    requires at { at ≤ length (seen view.now) }
    ensures step { (names : Environment) (late : Late) → option_map (step_in names (late_behind late (missing unit at) false)) result ≡ zeros_step (seen view.now) (missing unit at) names at late }
    ensures after { IfSome result (λ c. c.after ≡ at + missing unit at) }
    ensures within { IfSome result (λ c. c.after ≤ length (seen view.now)) }
{
    read_zeros(view, u64::from(missing(unit, at)), at)
}
