//! How a number is stored, and which texts are too long; changed only with `specs/Stored`.

ghost use Rattle.std.specs.Prelude.{◌≡◌, ◌<◌, ◌^◌, nat_abs, None};
ghost use Rattle.rz_types_fields.specs.Stored.{is_too_long, stored_number};

use crate::TextForm;

/// The number from 0 to below 2 to the power of the width in bits that stands for a value: the last digits of its
/// two's complement. (MPW Rez.)
pub fn stored_number(width: i32, value: i32) -> u32
    ensures stored { result ≡ stored_number (nat_abs width) value }
    ensures small { result < 2 ^ nat_abs width }
{
    let bits = value.cast_unsigned();
    let width = width.unsigned_abs();
    if width < 32 {
        bits % 2_u32.pow(width)
    } else {
        bits
    }
}

/// Whether a text of so many bytes without a size is too long for its type: a `pstring` has at most 255, a `wstring`
/// at most 65,535. (MPW Rez.)
pub fn is_too_long(form: TextForm, count: u64) -> bool
    ensures { result ≡ is_too_long form None count }
{
    match form {
        TextForm::Open | TextForm::Zero => false,
        TextForm::Pascal => count > 255,
        TextForm::WordLong => count > 65_535,
    }
}
