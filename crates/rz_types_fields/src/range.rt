//! Ranges of numbers and of the sizes of texts, by type; changed only with `specs/Range`.

ghost use Rattle.std.specs.Prelude.{◌≡◌, ◌≤◌, ◌≤ℤ◌, ◌^◌, pos};
ghost use Rattle.rz_types_fields.specs.Range.{fits_bits, fits_number, may_be_size, own_width};

use crate::{NumForm, TextForm};

/// How many bits a number of a type has; `None` for a `bitstring`, whose width is written. (MPW Rez.)
pub fn own_width(form: NumForm) -> Option<i32>
    ensures { result ≡ own_width form }
{
    match form {
        NumForm::Bits => None,
        NumForm::Boolean => Some(1),
        NumForm::Byte | NumForm::Char => Some(8),
        NumForm::Integer => Some(16),
        NumForm::Longint => Some(32),
    }
}

/// Whether a text of a type may have a size: a `string` from 0 on, a `pstring` from 0 to 255, a `wstring`
/// from 0 to 65,535, a `cstring` from 1 on. (MPW Rez.)
pub fn may_be_size(form: TextForm, size: i32) -> bool
    ensures { result ≡ may_be_size form size }
{
    match form {
        TextForm::Open => 0 <= size,
        TextForm::Pascal => 0 <= size && size <= 255,
        TextForm::WordLong => 0 <= size && size <= 65_535,
        TextForm::Zero => 1 <= size,
    }
}

/// Whether a value is in the range of a number of this type and width in bits; of a `bitstring` whose width
/// is outside 1 to 32 every value is. (MPW Rez.)
pub fn fits_number(form: NumForm, width: i32, value: i32) -> bool
    ensures { result ≡ fits_number form width value }
{
    match form {
        NumForm::Bits => fits_bits(width, value),
        NumForm::Byte => -128 <= value && value <= 255,
        NumForm::Integer => -32_768 <= value && value <= 65_535,
        NumForm::Longint => true,
        NumForm::Boolean => 0 <= value && value <= 1,
        NumForm::Char => 0 <= value && value <= 255,
    }
}

/// Whether a value fits into so many bits, with a sign or without; every value does where so many can't be.
fn fits_bits(width: i32, value: i32) -> bool
    ensures { result ≡ fits_bits width value }
{
    if width < 1 || width > 32 {
        return true;
    }
    let half = power(width as u32 - 1);
    let all = power(width as u32);
    -half <= i64::from(value) && i64::from(value) < all
}

/// 2 to this power.
fn power(exponent: u32) -> i64
    requires { exponent ≤ 32 }
    ensures value { result ≡ pos (2 ^ exponent) }
    ensures small { result ≤ℤ pos 4294967296 }
{
    2_u64.pow(exponent) as i64
}
