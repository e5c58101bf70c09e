//! The widths of fields and rows; changed only with `specs/Width`.

ghost use Rattle.std.specs.Prelude.{◌≡◌, ◌<◌, ◌^◌, option_map};
ghost use Rattle.rz_types_fields.specs.Field.{plain_body, plain_field, plain_text};
ghost use Rattle.rz_types_fields.specs.Shape.{numbers_of};
ghost use Rattle.rz_types_fields.specs.Width.{capped, fixed_width, fixed_widths, plus, rows_width, sized_bytes, text_width};

use crate::{Field, TextField, TextForm};
use rz_expr::constant_of;

/// One bit more than the most bits of a resource.
const MOST_BITS: u64 = 134_217_697;

/// The width of a field in bits, where it is the same in every row; at most one more than a resource can have. (MPW
/// Rez.)
#[cycle(width)]
pub fn fixed_width(field: &Field) -> Option<u64>
    ensures { result ≡ option_map capped (fixed_width (plain_field field.now)) }
{
    match field {
        Field::Num(number) => Some(capped(u64::from(number.width.unsigned_abs()))),
        Field::Text(text) => text_width(text),
        Field::Points(points) => Some(if points.rect { 64 } else { 32 }),
        Field::Fill(unit, count) => {
            Some(capped(u64::from(*unit) * u64::from(count.unsigned_abs())))
        }
        Field::Label(_) => Some(0),
        Field::Align(_) | Field::Switch(..) => None,
        Field::Array(array) => rows_width(array.count, fixed_widths(array.row.as_slice())),
    }
}

/// The width in bits of all fields of a row, where it is the same in every row; at most one more than a resource can
/// have. (MPW Rez.)
#[cycle(width)]
pub fn fixed_widths(row: &[Field]) -> Option<u64>
    ensures { result ≡ option_map capped (fixed_widths (plain_body row.now)) }
{
    let mut width = Some(0);
    for field in row {
        width = plus(width, fixed_width(field));
    }
    width
}

/// The width of a text in bits, where its size is a constant; at most one more than a resource can have. (MPW Rez.)
pub fn text_width(text: &TextField) -> Option<u64>
    ensures { result ≡ option_map capped (text_width (plain_text text.now).form (plain_text text.now).size) }
{
    let size = constant_of(text.size.as_ref()?)?;
    Some(capped(8 * sized_bytes(text.form, size.unsigned_abs())))
}

/// How many bytes the stored form of a text with a size has: that of a `pstring` one more for its length, that of a
/// `wstring` two; of a `cstring` the size counts the zero byte, and it has one at least. (MPW Rez.)
pub fn sized_bytes(form: TextForm, size: u32) -> u64
    ensures bytes { result ≡ sized_bytes form size }
    ensures small { result < 2 ^ 33 }
{
    let size = u64::from(size);
    match form {
        TextForm::Open => size,
        TextForm::Pascal => size + 1,
        TextForm::WordLong => size + 2,
        TextForm::Zero => size.saturating_sub(1) + 1,
    }
}

/// The width of as many rows as are stated, each of this width.
fn rows_width(count: Option<i32>, width: Option<u64>) -> Option<u64>
    ensures { result ≡ option_map capped (rows_width count width) }
{
    let rows = u64::from(count?.unsigned_abs());
    Some(capped(rows.saturating_mul(width?)))
}

/// The sum of two widths, where both are known.
pub(crate) fn plus(one: Option<u64>, other: Option<u64>) -> Option<u64>
    ensures { result ≡ option_map capped (plus one other) }
{
    Some(capped(one?.saturating_add(other?)))
}

/// So many bits, or one more than a resource can have.
pub(crate) fn capped(bits: u64) -> u64
    ensures { result ≡ capped bits }
{
    bits.min(MOST_BITS)
}
