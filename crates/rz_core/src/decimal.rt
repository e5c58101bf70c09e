//! Numbers in decimal, with and without a sign; changed only with `specs/Decimal`.

ghost use Rattle.std.specs.Prelude.{◌≡◌, ◌++◌, OnOk, OnErr};
ghost use Rattle.rz_core.specs.Decimal.{decimal_of, signed_of};

use crate::{Bytes, NoMemory};

/// Appends a number in decimal. Where memory is refused `into` is unchanged.
#[tactic(auto, unfolding(crate::specs::Decimal::decimal_of))]
pub fn write_decimal(number: u64, into: &mut Bytes) -> Result<(), NoMemory>
    ensures ok { OnOk result (into.new ≡ into.old ++ decimal_of number) }
    ensures err { OnErr result (into.new ≡ into.old) }
{
    let text = number.to_string(into.allocator())?;
    into.append(text.as_bytes())?;
    Ok(())
}

/// Appends a number in decimal, with a minus sign where it is negative. Where memory is refused `into`
/// is unchanged.
#[tactic(auto, unfolding(crate::specs::Decimal::signed_of))]
pub fn write_signed(number: i64, into: &mut Bytes) -> Result<(), NoMemory>
    ensures ok { OnOk result (into.new ≡ into.old ++ signed_of number) }
    ensures err { OnErr result (into.new ≡ into.old) }
{
    let text = number.to_string(into.allocator())?;
    into.append(text.as_bytes())?;
    Ok(())
}
