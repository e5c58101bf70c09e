//! The bits that a field has at least, counted up to 8. What those are is in `specs/Readable`.

ghost use Rattle.std.specs.Prelude.{◌≡◌, min};
ghost use Rattle.std.specs.Option.{unwrap_or};
ghost use Rattle.rz_types_fields.specs.Field.{plain_body, plain_cases, plain_field, plain_text};
ghost use Rattle.rz_types_fields.specs.Width.{text_width};
ghost use Rattle.rz_types.specs.Readable.{least_case, least_rows, least_text, least_width, least_widths};

use rz_types_fields::{Case, Field, TextField, TextForm, text_width};

/// More bits than these are as good as these: the bits of a byte.
const ENOUGH: u64 = 8;

/// The width in bits that a field has at least, at most 8.
#[cycle(least)]
fn least_width(field: &Field) -> u64
    ensures { result ≡ min (least_width (plain_field field.now)) 8 }
{
    match field {
        Field::Num(number) => u64::from(number.width.unsigned_abs()).min(ENOUGH),
        Field::Text(text) => text_least(text),
        Field::Points(_) => ENOUGH,
        Field::Fill(unit, count) => {
            (u64::from(*unit) * u64::from(count.unsigned_abs())).min(ENOUGH)
        }
        Field::Align(_) | Field::Label(_) => 0,
        Field::Array(array) => least_rows(array.count, least_widths(array.row.as_slice())),
        Field::Switch(cases, _hints) => least_of_cases(cases.as_slice()),
    }
}

/// The width that the fields of a row have at least, at most 8.
#[cycle(least)]
pub fn least_widths(row: &[Field]) -> u64
    ensures { result ≡ min (least_widths (plain_body row.now)) 8 }
{
    let mut width: u64 = 0;
    for field in row {
        width = width.saturating_add(least_width(field)).min(ENOUGH);
    }
    width
}

/// The width that the fields of each case have at least, at most 8.
#[cycle(least)]
fn least_of_cases(cases: &[Case]) -> u64
    ensures { result ≡ min (unwrap_or (least_case (plain_cases cases.now)) 0) 8 }
{
    let mut least = ENOUGH;
    for case in cases {
        least = least.min(least_widths(case.row.as_slice()));
    }
    if cases.is_empty() { 0 } else { least }
}

/// The width of so many rows of this width, at most 8.
fn least_rows(count: Option<i32>, width: u64) -> u64
    ensures { result ≡ min (least_rows count width) 8 }
{
    match count {
        Some(count) => u64::from(count.unsigned_abs())
            .saturating_mul(width)
            .min(ENOUGH),
        None => 0,
    }
}

/// The width that a text has at least, at most 8.
#[tactic(auto, using(crate::proofs::LeastWidths::text_capped))]
fn text_least(text: &TextField) -> u64
    ensures { result ≡ min (unwrap_or (text_width (plain_text text.now).form (plain_text text.now).size) (least_text text.now.form)) 8 }
{
    text_width(text)
        .unwrap_or(least_text(text.form))
        .min(ENOUGH)
}

/// The width of the length of a text, or of the zero byte after it.
fn least_text(form: TextForm) -> u64
    ensures { result ≡ least_text form }
{
    match form {
        TextForm::Open => 0,
        TextForm::Pascal | TextForm::Zero => 8,
        TextForm::WordLong => 16,
    }
}
