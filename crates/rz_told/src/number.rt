//! Numbers in decimal on a line.
#![tactic(auto, using(rz_show_lines::proofs::Writes::writes))]

ghost use Rattle.std.specs.Prelude.{◌≡◌, ◌++◌};
ghost use Rattle.rz_core.specs.Decimal.{decimal_of, signed_of};
ghost use Rattle.rz_show_lines.specs.Cut.{cut};

use itoa::Buffer;
use rz_show_lines::Line;

/// Writes a number.
#[tactic(auto, unfolding(rz_core::specs::Decimal::decimal_of))]
pub fn decimal(number: u64, line: &mut Line)
    ensures { line.new ≡ cut (line.old ++ decimal_of number) }
{
    let mut buffer = Buffer::new();
    line.append(buffer.format(number).as_bytes());
}

/// Writes a number, with a minus sign where it is negative.
#[tactic(auto, unfolding(rz_core::specs::Decimal::signed_of))]
pub fn signed(number: i16, line: &mut Line)
    ensures { line.new ≡ cut (line.old ++ signed_of number) }
{
    let mut buffer = Buffer::new();
    line.append(buffer.format(number).as_bytes());
}
