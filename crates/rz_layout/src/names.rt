//! The names of a body, where it is entered and where it ends. What is noted is in `specs/Laid`.

ghost use Rattle.std.specs.Prelude.{◌≡◌, ◌≤◌, ◌||◌, OnOk, length, nat_lt, option_map, pos};
ghost use Rattle.rz_layout.specs.Laid.{has_name, has_names, is_in_named, IsEntered, IsLeft, IsNotedBy};
ghost use Rattle.rz_types_fields.specs.Field.{plain_body, plain_field};
ghost use Rattle.rz_types_fields.specs.Known.{known, which_of};
ghost use Rattle.rz_types_fields.specs.Laid.{counted, entered, with_count, with_field};
ghost use Rattle.rz_types_fields.specs.Passed.{declares, gives_count, gives_key};
ghost use Rattle.rz_types_fields.specs.FlatRows.{labels_count};

use crate::laid::Laid;
use crate::late::{Late, Lates, push_lates};
use rz_core::{NoMemory, Word};
use rz_types::values::{next_value, rows_in};
use rz_types::{Field, takes_value};
use rz_types_fields::{InRow, Note, Notes, Row, Tree, note_front};
use std::mem;

/// Enters a body: from here on the names of its arrays have the numbers of their rows, and its labels no place, before
/// those of the bodies around; and the array of which it is a row, if it is one, has the number of the row.
pub fn enter<'a>(
    fields: &'a [Field],
    which: Option<InRow<'a>>,
    row: &[Tree],
    notes: &mut Notes<'a>,
) -> Result<(), NoMemory>
    ensures known { OnOk result (known notes.new.items ≡ entered (which_of which.entry) (plain_body fields.now) row.now (known notes.old.items)) }
    ensures noted { OnOk result (IsEntered (which_of which.entry) (plain_body fields.now) notes.old.items notes.new.items) }
{
    note_front(fields, which, notes)?;
    count_rows(fields, row, notes)
}

/// The names of the arrays of a body have the numbers of their rows.
fn count_rows<'a>(fields: &'a [Field], row: &[Tree], notes: &mut Notes<'a>) -> Result<(), NoMemory>
    ensures known { OnOk result (known notes.new.items ≡ counted (plain_body fields.now) row.now (known notes.old.items)) }
    ensures noted { OnOk result (IsNotedBy (declares (plain_body fields.now)) notes.old.items notes.new.items) }
{
    let mut values = row;
    for field in fields {
        let next = next_value(takes_value(field), values);
        enter_field(field, next.value, notes)?;
        values = next.others;
    }
    Ok(())
}

/// The name of an array has the number of its rows.
fn enter_field<'a>(
    field: &'a Field,
    value: Option<&Tree>,
    notes: &mut Notes<'a>,
) -> Result<(), NoMemory>
    ensures known { OnOk result (known notes.new.items ≡ with_field (plain_field field.now) (option_map (λ v. v.now) value.entry) (known notes.old.items)) }
    ensures noted { OnOk result (IsNotedBy (gives_key (plain_field field.now)) notes.old.items notes.new.items) }
{
    match field {
        Field::Array(array) => enter_array(&array.name, rows_in(value), notes),
        _ => Ok(()),
    }
}

/// The name of an array, where it has one, has this number of rows.
fn enter_array<'a>(
    name: &'a Option<Word>,
    rows: &[Row],
    notes: &mut Notes<'a>,
) -> Result<(), NoMemory>
    ensures known { OnOk result (known notes.new.items ≡ with_count name.now (length rows.now) (known notes.old.items)) }
    ensures noted { OnOk result (IsNotedBy (gives_count name.now) notes.old.items notes.new.items) }
{
    if let Some(name) = name {
        notes.push(Note::Counted(name, count_of(rows)))?;
    }
    Ok(())
}

/// How many rows there are.
fn count_of(rows: &[Row]) -> i64
    ensures { result ≡ pos (length rows.now) }
{
    rows.len() as i64
}

/// Leaves a body: its names end, and its late numbers keep what was noted of them, where it has names or is a row of an array
/// that has one. `outer` are the late numbers before it, and `around` says how many notes were there.
pub fn leave<'a>(
    fields: &[Field],
    which: Option<InRow<'a>>,
    outer: Lates<'a>,
    around: usize,
    laid: &mut Laid<'a>,
) -> Result<(), NoMemory>
    requires { around ≤ length laid.old.notes.items }
    ensures { OnOk result (IsLeft (which_of which.entry) (plain_body fields.now) outer.entry around laid.old laid.new) }
{
    let inner = mem::replace(&mut laid.late, outer);
    if inner.is_empty() {
        laid.notes.truncate(around);
        return Ok(());
    }
    if !keeps_names(fields, which) {
        push_lates(inner, &mut laid.late)?;
        laid.notes.truncate(around);
        return Ok(());
    }
    let own = laid.notes.split_off(around)?;
    laid.late.push(Late::Inside(own, inner))?;
    Ok(())
}

/// Whether the late numbers of a body keep what was noted in it: it has names, or is a row of an array that has one.
fn keeps_names(fields: &[Field], which: Option<InRow<'_>>) -> bool
    ensures { result ≡ (is_in_named (which_of which.entry) || has_names (plain_body fields.now)) }
{
    is_in_named(which) || has_names(fields)
}

/// Whether a body is a row of an array with a name.
fn is_in_named(which: Option<InRow<'_>>) -> bool
    ensures { result ≡ is_in_named (which_of which.entry) }
{
    match which {
        Some(row) => row.array.is_some(),
        None => false,
    }
}

/// Whether one of the fields of a body has a name.
fn has_names(fields: &[Field]) -> bool
    ensures { result ≡ has_names (plain_body fields.now) }
{
    for field in fields {
        if has_name(field) {
            return true;
        }
    }
    false
}

/// Whether a field has a name.
fn has_name(field: &Field) -> bool
    ensures { result ≡ has_name (plain_field field.now) }
{
    match field {
        Field::Array(array) => array.name.is_some() || has_labels(array.row.as_slice()),
        Field::Label(_) => true,
        _ => false,
    }
}

/// Whether a label stands directly in a body.
fn has_labels(row: &[Field]) -> bool
    ensures { result ≡ nat_lt 0 (labels_count (plain_body row.now)) }
{
    for field in row {
        if matches!(field, Field::Label(_)) {
            return true;
        }
    }
    false
}
