//! The case whose key stands at a place, and whether the key of a case stands there. It is defined in `specs/Cursor`.

ghost use Rattle.std.specs.Prelude.{◌≡◌, ◌<◌, ◌≤◌, length, nat_abs, pos, slice_get, true, IfSome, Some, option_and_then, option_map};
ghost use Rattle.rz_bits.specs.View.{seen};
ghost use Rattle.rz_types.specs.Field.{plain_body, plain_case, plain_cases, plain_field, plain_number};
ghost use Rattle.rz_types.specs.Width.{capped, case_keys, field_key, fixed_width, fixed_widths, number_key, plus, rows_width};
ghost use Rattle.rz_unlay.specs.Cursor.{case_there, has_bits, has_case_keys, has_keys, key_at};
ghost use Rattle.rz_unlay.specs.Fits.{is_key, AreFit, CasesFit, Fits, HasKeyFrom, IsFound};

use rz_bits::BitView;
use rz_types_fields::{Case, CaseHints, Field, NumField, fixed_width, key_bits};

/// One bit more than the most bits of a resource.
const MOST_BITS: u64 = 134_217_697;

/// The position of the case whose key stands after this place, where there is one. It takes no memory. Its time is in
/// proportion to the fields before the keys of two cases, and of all where no key stands there.
pub fn case_there(view: &BitView<'_>, cases: &[Case], hints: &CaseHints, at: u32) -> Option<usize>
    requires fits { CasesFit (plain_cases cases.now) }
    requires at { at ≤ length (seen view.now) }
    ensures within { IfSome result (λ position. position < length cases.now) }
    ensures there { case_there (seen view.now) at (plain_cases cases.now) ≡ option_map plain_case (option_and_then (slice_get cases.now) result) }
{
    if let Some(position) = hinted(view, cases, hints, at) {
        if stands_at(view, cases, position, at) {
            return Some(position);
        }
    }
    first_there(view, cases, at)
}

/// Where the case probably stands whose key has the bits at the place of the first case's.
fn hinted(view: &BitView<'_>, cases: &[Case], hints: &CaseHints, at: u32) -> Option<usize>
    requires fits { CasesFit (plain_cases cases.now) }
    requires at { at ≤ length (seen view.now) }
{
    if cases.is_empty() {
        return None;
    }
    match bits_there(view, cases[0].row.as_slice(), at) {
        Some(bits) => hints.by_key(bits),
        None => None,
    }
}

/// The number in the bits at the place of the first key of a case.
fn bits_there(view: &BitView<'_>, row: &[Field], at: u32) -> Option<u32>
    requires fits { AreFit (plain_body row.now) }
    requires at { at ≤ length (seen view.now) }
{
    let mut distance = Some(0);
    for field in row {
        if is_key(field) {
            return field_bits(view, field, distance, at);
        }
        distance = plus(distance, width_before(field));
    }
    None
}

/// The number in the bits of a field after so many others, where it is a number.
fn field_bits(view: &BitView<'_>, field: &Field, before: Option<u64>, at: u32) -> Option<u32>
    requires fits { Fits (plain_field field.now) }
    requires at { at ≤ length (seen view.now) }
{
    match field {
        Field::Num(number) => number_bits(view, number, before, at),
        _ => None,
    }
}

fn number_bits(view: &BitView<'_>, number: &NumField, before: Option<u64>, at: u32) -> Option<u32>
    requires width { nat_abs number.now.width ≤ 32 }
    requires at { at ≤ length (seen view.now) }
    ensures { result ≡ key_at (seen view.now) at (nat_abs number.now.width) (option_map capped before) }
{
    key_at(view, number.width.unsigned_abs() as u8, before, at)
}

/// Whether a case stands at a position whose keys stand after this place.
fn stands_at(view: &BitView<'_>, cases: &[Case], position: usize, at: u32) -> bool
    requires fits { CasesFit (plain_cases cases.now) }
    requires at { at ≤ length (seen view.now) }
    ensures { result ≡ has_case_keys (seen view.now) at (option_map plain_case (slice_get cases.now position)) }
{
    if position < cases.len() {
        has_keys(view, cases[position].row.as_slice(), at)
    } else {
        false
    }
}

/// The position of the first case whose keys stand after this place.
fn first_there(view: &BitView<'_>, cases: &[Case], at: u32) -> Option<usize>
    requires fits { CasesFit (plain_cases cases.now) }
    requires at { at ≤ length (seen view.now) }
    ensures within { IfSome result (λ position. position < length cases.now) }
    ensures there { case_there (seen view.now) at (plain_cases cases.now) ≡ option_map plain_case (option_and_then (slice_get cases.now) result) }
{
    for position in 0..cases.len() {
        if has_keys(view, cases[position].row.as_slice(), at) {
            return Some(position);
        }
    }
    None
}

/// Whether the key of a case stands at its place after this one. Only the fields before it are looked at.
fn has_keys(view: &BitView<'_>, row: &[Field], at: u32) -> bool
    requires key { HasKeyFrom (Some 0) (plain_body row.now) }
    requires fits { AreFit (plain_body row.now) }
    requires at { at ≤ length (seen view.now) }
    ensures { result ≡ has_keys (seen view.now) at (case_keys (plain_body row.now)) }
{
    let mut before = Some(0);
    for field in row {
        if is_key(field) {
            return has_field_key(view, field, before, at);
        }
        before = plus(before, width_before(field));
    }
    true
}

/// Whether a field is a key.
fn is_key(field: &Field) -> bool
    ensures { result ≡ is_key (plain_field field.now) }
{
    match field {
        Field::Num(number) => number.key,
        _ => false,
    }
}

/// The width of a field, where it is the same in every row. The fields of an array without rows aren't looked through.
#[cycle(before)]
fn width_before(field: &Field) -> Option<u64>
    ensures { IsFound (fixed_width (plain_field field.now)) result }
{
    match field {
        Field::Array(array) => rows_before(array.count, array.row.as_slice()),
        _ => fixed_width(field),
    }
}

/// The width of as many rows as are stated, of these fields, where that is always the same.
#[cycle(before)]
fn rows_before(count: Option<i32>, row: &[Field]) -> Option<u64>
    ensures { IsFound (rows_width count (fixed_widths (plain_body row.now))) result }
{
    if has_no_rows(count) {
        Some(0)
    } else {
        rows_width(count, widths_before(row))
    }
}

/// Whether it is stated that there are no rows.
fn has_no_rows(count: Option<i32>) -> bool
    ensures { result ≡ true → count ≡ Some (pos 0) }
{
    matches!(count, Some(0))
}

/// The width of these fields, where that is the same in every row.
#[cycle(before)]
fn widths_before(row: &[Field]) -> Option<u64>
    ensures { IsFound (fixed_widths (plain_body row.now)) result }
{
    let mut width = Some(0);
    for field in row {
        width = plus(width, width_before(field));
    }
    width
}

/// The width of as many rows as are stated, each of this width; at most one more than a resource can have.
fn rows_width(count: Option<i32>, width: Option<u64>) -> Option<u64>
    ensures { result ≡ option_map capped (rows_width count width) }
{
    match (count, width) {
        (Some(count), Some(bits)) => Some(
            u64::from(count.unsigned_abs())
                .saturating_mul(bits)
                .min(MOST_BITS),
        ),
        _ => None,
    }
}

/// Whether the key that a field is, where it is one, stands after so many bits.
fn has_field_key(view: &BitView<'_>, field: &Field, before: Option<u64>, at: u32) -> bool
    requires fits { Fits (plain_field field.now) }
    requires at { at ≤ length (seen view.now) }
    ensures { result ≡ has_keys (seen view.now) at (field_key before (plain_field field.now)) }
{
    match field {
        Field::Num(number) => has_number_key(view, number, before, at),
        _ => true,
    }
}

fn has_number_key(view: &BitView<'_>, number: &NumField, before: Option<u64>, at: u32) -> bool
    requires width { nat_abs number.now.width ≤ 32 }
    requires at { at ≤ length (seen view.now) }
    ensures { result ≡ has_keys (seen view.now) at (number_key before (plain_number number.now)) }
{
    if !number.key {
        return true;
    }
    match number_bits(view, number, before, at) {
        Some(bits) => bits == key_bits(number),
        None => false,
    }
}

/// The number in the bits of a key after so many others.
#[tactic(auto, using(rz_unlay_pieces::proofs::PieceSteps::seen_length))]
fn key_at(view: &BitView<'_>, width: u8, before: Option<u64>, at: u32) -> Option<u32>
    requires width { width ≤ 32 }
    requires at { at ≤ length (seen view.now) }
    ensures { result ≡ key_at (seen view.now) at width (option_map capped before) }
{
    match before {
        Some(before) => view.at(at + before.min(MOST_BITS) as u32, width),
        None => None,
    }
}

/// The sum of two widths, where both are known; at most one more than a resource can have.
fn plus(one: Option<u64>, other: Option<u64>) -> Option<u64>
    ensures { result ≡ option_map capped (plus one other) }
{
    match (one, other) {
        (Some(one), Some(other)) => Some(one.saturating_add(other).min(MOST_BITS)),
        _ => None,
    }
}
