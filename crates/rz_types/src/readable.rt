//! Whether a resource of a declaration can be read; changed only with `specs/Readable`.

ghost use Rattle.std.specs.Prelude.{◌≡◌, IfOk, OnOk, Some, true, drop, map, option_map, Bool};
ghost use Rattle.rz_expr.specs.Term.{term_of};
ghost use Rattle.rz_types_fields.specs.Field.{plain_array, plain_body, plain_cases, plain_field, plain_points, plain_text, Points};
ghost use Rattle.rz_types_fields.specs.Passed.{at_front, behind, behind_pieces, between, told_by};
ghost use Rattle.rz_types_fields.specs.Piece.{fixed_integer};
ghost use Rattle.rz_expr.specs.NameKey.{key_of};
ghost use Rattle.rz_types.specs.Notes.{also_told, known, passed, passed_at, AreSame, GrewBoth};
ghost use Rattle.rz_types.specs.Readable.{are_cases_read, are_pieces_read, are_read, ends_at_end, ends_at_label, is_count_known, is_number_read, is_read, is_readable, is_text_read, is_told_label, rows_end, tells, text_ends};
ghost use Rattle.rz_types.specs.Template.{template_of};

use crate::ahead::{Ahead, all_ahead, next_ahead};
use crate::least::least_widths;
use crate::passed::{PassedNotes, all_known, all_known_in_text, first_unknown, is_known, is_told};
use crate::template::Template;
use rz_core::{NoMemory, Word};
use rz_expr::{Expr, Key};
use rz_types_fields::{
    ArrayField, Case, Exprs, Field, PointField, TextField, TextForm, declares, fixed_width,
    fixed_widths, standing_of,
};
use std::alloc::Global;

/// Whether a resource of this declaration can be read: exactly where its bytes say where each field ends, and how many
/// rows each array has. A number with a fixed value has no name that isn't known before it, or one that a field after
/// it in its body gives, an array by the number of its rows or a label by its place, and that the value tells; then it
/// is known from there on. A size and a format have known names only. Known are also the places of labels after a
/// field in its body, where what stands between has a fixed width or is an `align`; but bits are asked for only at
/// labels that stand before. A label in the rows of an array is known by an index where the array has ended, and the
/// number of the row around always is. A `string` without a size, and an array whose number of rows isn't known, end at
/// a label after them whose place is told, with only fields of fixed width between; or they stand outside of all rows
/// and cases, with only fields of fixed width after them, and end with the resource. Rows of an array without a stated
/// count have one bit at least, and 8 where they end with the resource. (MPW Rez.)
pub fn is_readable(template: &Template) -> bool
    ensures { result ≡ is_readable (template_of template.now) }
{
    template.is_readable()
}

/// Whether all fields of a declaration can be read.
pub fn is_body_readable(alloc: Global, fields: &[Field]) -> Result<bool, NoMemory>
    ensures { IfOk result (λ read. read ≡ is_readable (plain_body fields.now)) }
{
    let mut notes = PassedNotes::new(alloc);
    is_row_read(true, fields, &mut notes)
}

/// Whether a body can be read: the fields of the declaration, which is the outermost, a row of an array, or a case.
#[cycle(read)]
fn is_row_read<'a>(
    outermost: bool,
    row: &'a [Field],
    notes: &mut PassedNotes<'a>,
) -> Result<bool, NoMemory>
    ensures read { IfOk result (λ read. read ≡ are_read outermost (at_front (plain_body row.now) (passed notes.old)) (plain_body row.now)) }
    ensures notes { OnOk result (AreSame notes.old notes.new) }
{
    let (met, told) = (notes.met.len(), notes.told.len());
    notes.enter(row)?;
    let read = are_read(outermost, row, notes)?;
    notes.met.truncate(met);
    notes.told.truncate(told);
    Ok(read)
}

/// Whether fields one after the other can be read.
#[cycle(read)]
fn are_read<'a>(
    outermost: bool,
    fields: &'a [Field],
    notes: &mut PassedNotes<'a>,
) -> Result<bool, NoMemory>
    ensures read { IfOk result (λ read. read ≡ are_read outermost (passed notes.old) (plain_body fields.now)) }
    ensures grew { OnOk result (GrewBoth notes.old notes.new) }
{
    let mut ahead = all_ahead(notes.alloc, fields)?;
    for field in fields {
        if !is_read(outermost, field, &ahead, notes)? {
            return Ok(false);
        }
        ahead = next_ahead(notes.alloc, ahead)?;
    }
    Ok(true)
}

/// The fields after the first.
fn rest_of(fields: &[Field]) -> &[Field]
    ensures { result.now ≡ drop 1 fields.now }
{
    match fields.split_first() {
        Some((_, rest)) => rest,
        None => fields,
    }
}

/// Whether a field can be read, with these fields from it on in its body.
#[cycle(read)]
fn is_read<'a>(
    outermost: bool,
    field: &'a Field,
    ahead: &Ahead<'_>,
    notes: &mut PassedNotes<'a>,
) -> Result<bool, NoMemory>
    ensures read { IfOk result (λ read. read ≡ is_read outermost (plain_body (drop 1 ahead.now.fields.now)) (passed_at (plain_body ahead.now.fields.now) notes.old) (plain_field field.now)) }
    ensures passed { IfOk result (λ read. read ≡ true → passed notes.new ≡ behind (plain_field field.now) (passed_at (plain_body ahead.now.fields.now) notes.old)) }
    ensures grew { OnOk result (GrewBoth notes.old notes.new) }
{
    match field {
        Field::Num(number) => is_value_read(ahead, &number.fixed, notes),
        Field::Text(text) => is_text_read(outermost, ahead, text, notes),
        Field::Points(points) => are_points_read(ahead, points, notes),
        Field::Fill(..) | Field::Align(_) => Ok(true),
        Field::Label(_) => {
            notes.meet(field)?;
            Ok(true)
        }
        Field::Array(array) => {
            if is_array_read(outermost, array, ahead, notes)? {
                notes.meet(field)?;
                Ok(true)
            } else {
                Ok(false)
            }
        }
        Field::Switch(cases, _hints) => are_cases_read(cases.as_slice(), notes),
    }
}

/// Whether an array can be read.
#[cycle(read)]
fn is_array_read<'a>(
    outermost: bool,
    array: &'a ArrayField,
    ahead: &Ahead<'_>,
    notes: &mut PassedNotes<'a>,
) -> Result<bool, NoMemory>
    ensures read { IfOk result (λ read. read ≡ is_read outermost (plain_body (drop 1 ahead.now.fields.now)) (passed_at (plain_body ahead.now.fields.now) notes.old) (plain_array array.now)) }
    ensures notes { OnOk result (AreSame notes.old notes.new) }
{
    let row = array.row.as_slice();
    if !rows_end(outermost, ahead, &array.name, array.count, row, notes) {
        return Ok(false);
    }
    is_row_read(false, row, notes)
}

/// Whether each case of a switch can be read.
#[cycle(read)]
fn are_cases_read<'a>(cases: &'a [Case], notes: &mut PassedNotes<'a>) -> Result<bool, NoMemory>
    ensures read { IfOk result (λ read. read ≡ are_cases_read (passed notes.old) (plain_cases cases.now)) }
    ensures notes { OnOk result (AreSame notes.old notes.new) }
{
    for case in cases {
        if !is_row_read(false, case.row.as_slice(), notes)? {
            return Ok(false);
        }
    }
    Ok(true)
}

/// Whether it is told where the rows of an array end.
fn rows_end(
    outermost: bool,
    ahead: &Ahead<'_>,
    name: &Option<Word>,
    count: Option<i32>,
    row: &[Field],
    notes: &PassedNotes<'_>,
) -> bool
    ensures { result ≡ rows_end outermost (plain_body (drop 1 ahead.now.fields.now)) (passed_at (plain_body ahead.now.fields.now) notes.now) name.now count (plain_body row.now) }
{
    if count.is_some() {
        return true;
    }
    let rest = rest_of(ahead.fields);
    let least = least_widths(row);
    (is_count_known(ahead, name, notes) && 1 <= least)
        || (ends_at_label(rest, notes) && 1 <= least)
        || (ends_at_end(outermost, rest) && 8 <= least)
}

/// Whether the number of rows of an array of this name is known.
fn is_count_known(ahead: &Ahead<'_>, name: &Option<Word>, notes: &PassedNotes<'_>) -> bool
    ensures { result ≡ is_count_known (passed_at (plain_body ahead.now.fields.now) notes.now) name.now }
{
    match name {
        Some(name) => is_known(ahead, notes, Key::Count(name)),
        None => false,
    }
}

/// Whether a field with these after it ends with the resource.
fn ends_at_end(outermost: bool, rest: &[Field]) -> bool
    ensures { result ≡ ends_at_end outermost (plain_body rest.now) }
{
    outermost && fixed_widths(rest).is_some()
}

/// Whether a field with these after it ends at a label.
fn ends_at_label(rest: &[Field], notes: &PassedNotes<'_>) -> bool
    ensures { result ≡ ends_at_label (plain_body rest.now) (passed notes.now).told }
{
    for field in rest {
        if is_told_label(field, notes) {
            return true;
        }
        if fixed_width(field).is_none() {
            return false;
        }
    }
    false
}

/// Whether a field is a label whose place is told.
fn is_told_label(field: &Field, notes: &PassedNotes<'_>) -> bool
    ensures { result ≡ is_told_label (plain_field field.now) (passed notes.now).told }
{
    match field {
        Field::Label(name) => is_told(notes, Key::Place(name)),
        _ => false,
    }
}

/// Whether a text can be read.
fn is_text_read(
    outermost: bool,
    ahead: &Ahead<'_>,
    text: &TextField,
    notes: &PassedNotes<'_>,
) -> Result<bool, NoMemory>
    ensures { IfOk result (λ read. read ≡ is_text_read outermost (plain_body (drop 1 ahead.now.fields.now)) (passed_at (plain_body ahead.now.fields.now) notes.now) (plain_text text.now)) }
{
    if !text_ends(outermost, rest_of(ahead.fields), text, notes) {
        return Ok(false);
    }
    all_known_in_text(notes.alloc, ahead, notes, text)
}

/// Whether it is told where a text ends.
fn text_ends(outermost: bool, rest: &[Field], text: &TextField, notes: &PassedNotes<'_>) -> bool
    ensures { result ≡ text_ends outermost (plain_body rest.now) (passed notes.now).told text.now.form (option_map term_of text.now.size) }
{
    match text.form {
        TextForm::Open => match &text.size {
            Some(_) => true,
            None => ends_at_label(rest, notes) || ends_at_end(outermost, rest),
        },
        TextForm::Pascal | TextForm::WordLong | TextForm::Zero => true,
    }
}

/// Whether a number that has a fixed value or none can be read; then it tells a name that wasn't known.
fn is_value_read<'a>(
    ahead: &Ahead<'_>,
    value: &'a Option<Expr>,
    notes: &mut PassedNotes<'a>,
) -> Result<bool, NoMemory>
    ensures read { IfOk result (λ read. read ≡ is_number_read (plain_body (drop 1 ahead.now.fields.now)) (passed_at (plain_body ahead.now.fields.now) notes.old) (option_map term_of value.now)) }
    ensures passed { IfOk result (λ read. read ≡ true → passed notes.new ≡ between (told_by (option_map term_of value.now) (passed_at (plain_body ahead.now.fields.now) notes.old))) }
    ensures grew { OnOk result (GrewBoth notes.old notes.new) }
{
    match value {
        Some(expr) => is_expression_read(ahead, expr, notes),
        None => Ok(true),
    }
}

/// Whether a number with this value can be read.
fn is_expression_read<'a>(
    ahead: &Ahead<'_>,
    expr: &'a Expr,
    notes: &mut PassedNotes<'a>,
) -> Result<bool, NoMemory>
    ensures read { IfOk result (λ read. read ≡ is_number_read (plain_body (drop 1 ahead.now.fields.now)) (passed_at (plain_body ahead.now.fields.now) notes.old) (Some (term_of expr.now))) }
    ensures passed { IfOk result (λ read. read ≡ true → passed_at (plain_body ahead.now.fields.now) notes.new ≡ told_by (Some (term_of expr.now)) (passed_at (plain_body ahead.now.fields.now) notes.old)) }
    ensures grew { OnOk result (GrewBoth notes.old notes.new) }
{
    match first_unknown(ahead, notes, expr) {
        Some(key) => {
            let read = tells(ahead, key, expr, notes)?;
            Ok(read)
        }
        None => Ok(true),
    }
}

/// Whether a number with this value tells a name that isn't known; then that is noted.
fn tells<'a>(
    ahead: &Ahead<'_>,
    key: Key<'a>,
    expr: &Expr,
    notes: &mut PassedNotes<'a>,
) -> Result<bool, NoMemory>
    ensures told { IfOk result (λ told. told ≡ tells (plain_body (drop 1 ahead.now.fields.now)) (passed notes.old).met (known (plain_body ahead.now.fields.now) notes.old) (term_of expr.now) (key_of key.entry)) }
    ensures passed { IfOk result (λ told. told ≡ true → passed notes.new ≡ also_told (key_of key.entry) (passed notes.old)) }
    ensures grew { OnOk result (GrewBoth notes.old notes.new) }
{
    if !declares(rest_of(ahead.fields), key) || !standing_of(key, expr).solved {
        return Ok(false);
    }
    if !notes.tell(key)? {
        return Ok(false);
    }
    Ok(all_known(ahead, notes, expr))
}

/// Whether the numbers of a point or a rectangle can be read.
fn are_points_read<'a>(
    ahead: &Ahead<'_>,
    points: &'a PointField,
    notes: &mut PassedNotes<'a>,
) -> Result<bool, NoMemory>
    ensures read { IfOk result (λ read. (outermost : Bool) → read ≡ is_read outermost (plain_body (drop 1 ahead.now.fields.now)) (passed_at (plain_body ahead.now.fields.now) notes.old) (Points (plain_points points.now))) }
    ensures passed { IfOk result (λ read. read ≡ true → passed notes.new ≡ behind (Points (plain_points points.now)) (passed_at (plain_body ahead.now.fields.now) notes.old)) }
    ensures grew { OnOk result (GrewBoth notes.old notes.new) }
{
    match &points.fixed {
        Some(values) => {
            let read = are_values_read(ahead, values, notes)?;
            Ok(read)
        }
        None => Ok(true),
    }
}

/// Whether numbers with these values can be read, one after the other.
fn are_values_read<'a>(
    ahead: &Ahead<'_>,
    values: &'a Exprs,
    notes: &mut PassedNotes<'a>,
) -> Result<bool, NoMemory>
    ensures read { IfOk result (λ read. (outermost : Bool) → read ≡ are_pieces_read outermost (plain_body (drop 1 ahead.now.fields.now)) (passed_at (plain_body ahead.now.fields.now) notes.old) (map fixed_integer (map term_of values.now))) }
    ensures passed { IfOk result (λ read. read ≡ true → passed notes.new ≡ between (behind_pieces (map fixed_integer (map term_of values.now)) (passed_at (plain_body ahead.now.fields.now) notes.old))) }
    ensures grew { OnOk result (GrewBoth notes.old notes.new) }
{
    for expr in values.as_slice() {
        if !is_expression_read(ahead, expr, notes)? {
            return Ok(false);
        }
    }
    Ok(true)
}
