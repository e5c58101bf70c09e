//! Notes of what is known of names: the numbers of rows, the places of labels, and the names that a body hides. They stand in a
//! list, in `notes`, of which the newest that speaks of a name counts.

ghost use Rattle.std.specs.Prelude.{List, OnOk, if◌then◌else◌, length, ◌≡◌};
ghost use Rattle.std.specs.Str.{str_to_ascii_lowercase};
ghost use Rattle.rz_expr.specs.Environment.{place_in_key, Environment};
ghost use Rattle.rz_expr.specs.NameKey.{key_of};
ghost use Rattle.rz_types_fields.specs.Field.{plain_array, plain_body, plain_field};
ghost use Rattle.rz_types_fields.specs.Front.{stated_by, stated_in};
ghost use Rattle.rz_types_fields.specs.Known.{said, speaks, which_of, Adds, AreRowsNoted, Hides, IsFront, Tells};
ghost use Rattle.rz_types_fields.specs.Passed.{declares, gives_key};
ghost use Rattle.rz_types_fields.specs.FlatRows.{label_count, label_index, labels_count, row_value, AllPlacesAre};
ghost use Rattle.rz_types_fields.specs.RowLabels.{is_row, row_number};

use crate::name_key::{counts_rows, gives_rows, is_label, is_same_key, stands_at};
use crate::notes::Notes;
use crate::{ArrayField, Field};
use rz_core::{NoMemory, Word};
use rz_expr::Key;

/// Which row of an array a body is.
#[derive(Clone, Copy)]
pub struct InRow<'a> {
    /// The name of the array, where it has one.
    pub array: &'a Option<Word>,
    /// The number of the row, from 1.
    pub number: u64,
}

/// What is known of the number of rows of an array, of the place of a label, or of the row around.
#[derive(Drop)]
pub enum Note<'a> {
    /// How many rows an array has, as a number told or as its declaration states.
    Told(&'a Word, i64),
    /// An array has so many rows.
    Counted(&'a Word, i64),
    /// A number told where a label stands that comes later, in bits from the start of the resource.
    PlaceTold(&'a Word, i32),
    /// A label stands at this place, in bits from the start of the resource.
    Placed(&'a Word, i32),
    /// The row of this number was entered, from 1, of an array of this name.
    Numbered(&'a Word, u64),
    /// A body was entered that has this label or array, which has no value yet.
    Hidden(Key<'a>),
    /// All rows of an array have these fields, there are so many of them, and the labels that stand directly in them have these
    /// places, in bits from the start of the resource: those of each row in order, row by row.
    Rows(&'a [Field], u64, Vec<i32>),
    /// A body was entered that has an array whose rows have these fields: the labels directly in them have no values yet.
    Coming(&'a [Field]),
}

/// Whether a note speaks of a key.
pub fn speaks(note: &Note<'_>, key: Key<'_>) -> bool
    ensures { result ≡ speaks note.now (key_of key.entry) }
{
    match note {
        Note::Told(name, _) | Note::Counted(name, _) => counts_rows(name, key),
        Note::PlaceTold(name, _) | Note::Placed(name, _) => stands_at(name, key),
        Note::Numbered(name, _) => is_same_key(Key::Row(name), key),
        Note::Hidden(own) => is_same_key(*own, key),
        Note::Rows(row, ..) | Note::Coming(row) => gives_rows(row, key),
    }
}

/// The value that a note says of a key of which it speaks.
pub fn said(note: &Note<'_>, key: Key<'_>) -> Option<i128>
    ensures { result ≡ said note.now (key_of key.entry) }
{
    match note {
        Note::Told(_, rows) | Note::Counted(_, rows) => Some(i128::from(*rows)),
        Note::PlaceTold(_, place) | Note::Placed(_, place) => Some(i128::from(*place)),
        Note::Numbered(_, number) => Some(i128::from(*number)),
        Note::Rows(row, count, places) => row_value(row, *count, places.as_slice(), key),
        Note::Hidden(_) | Note::Coming(_) => None,
    }
}

/// The value that so many rows give a key, where these are the places of all labels in them.
fn row_value(row: &[Field], count: u64, places: &[i32], key: Key<'_>) -> Option<i128>
    ensures { result ≡ row_value (plain_body row.now) count places.now (key_of key.entry) }
{
    match key {
        Key::Rows(_) => Some(i128::from(count)),
        Key::PlaceIn(label, number) => place_among(row, count, places, label, number),
        Key::Place(_) | Key::Count(_) | Key::Row(_) => None,
    }
}

/// The place of a label in the row of this number, where these are the places of all labels in so many rows.
fn place_among(row: &[Field], count: u64, places: &[i32], label: &Word, number: i32) -> Option<i128>
    ensures { result ≡ row_value (plain_body row.now) count places.now (place_in_key label.now.bytes number) }
{
    if number < 1 || number as u64 > count {
        return None;
    }
    let rows = (number as u128 - 1) * labels_count(row) as u128;
    let before = rows + label_index(row, label) as u128;
    if before < places.len() as u128 {
        Some(i128::from(places[before as usize]))
    } else {
        None
    }
}

/// Notes that a body was entered, which may be a row of an array: the name of the array has the number of the row, and the
/// names of the body itself have no value but the numbers of rows that it states.
pub fn note_front<'a>(
    fields: &'a [Field],
    which: Option<InRow<'a>>,
    notes: &mut Notes<'a>,
) -> Result<(), NoMemory>
    ensures { OnOk result (IsFront (which_of which.entry) (plain_body fields.now) notes.old.items notes.new.items) }
{
    note_number(which, notes)?;
    hide_names(fields, notes)?;
    tell_counts(fields, notes)?;
    Ok(())
}

/// Notes the number of a row, where its array has a name.
fn note_number<'a>(which: Option<InRow<'a>>, notes: &mut Notes<'a>) -> Result<(), NoMemory>
    ensures { OnOk result (Adds (λ key before. if is_row (which_of which.entry) key then row_number (which_of which.entry) else before) (λ key before. before) notes.old.items notes.new.items) }
{
    let Some(row) = which else {
        return Ok(());
    };
    let Some(name) = row.array else {
        return Ok(());
    };
    notes.push(Note::Numbered(name, row.number))?;
    Ok(())
}

/// Notes that the names of a body have no value.
fn hide_names<'a>(fields: &'a [Field], notes: &mut Notes<'a>) -> Result<(), NoMemory>
    ensures { OnOk result (Hides (declares (plain_body fields.now)) notes.old.items notes.new.items) }
{
    for field in fields {
        hide_field(field, notes)?;
    }
    Ok(())
}

/// Notes that the names that a field gives have no value.
fn hide_field<'a>(field: &'a Field, notes: &mut Notes<'a>) -> Result<(), NoMemory>
    ensures { OnOk result (Hides (gives_key (plain_field field.now)) notes.old.items notes.new.items) }
{
    match field {
        Field::Array(array) => hide_array(array, notes)?,
        Field::Label(name) => notes.push(Note::Hidden(Key::Place(name)))?,
        _ => {}
    }
    Ok(())
}

fn hide_array<'a>(array: &'a ArrayField, notes: &mut Notes<'a>) -> Result<(), NoMemory>
    ensures { OnOk result (Hides (gives_key (plain_array array.now)) notes.old.items notes.new.items) }
{
    if let Some(name) = &array.name {
        notes.push(Note::Hidden(Key::Count(name)))?;
    }
    notes.push(Note::Coming(array.row.as_slice()))?;
    Ok(())
}

/// Notes the numbers of rows that a body states, the first one last.
fn tell_counts<'a>(fields: &'a [Field], notes: &mut Notes<'a>) -> Result<(), NoMemory>
    ensures { OnOk result (Tells (stated_in (plain_body fields.now)) notes.old.items notes.new.items) }
{
    for later in 0..fields.len() {
        tell_count(&fields[fields.len() - 1 - later], notes)?;
    }
    Ok(())
}

/// Notes the number of rows that a field states.
fn tell_count<'a>(field: &'a Field, notes: &mut Notes<'a>) -> Result<(), NoMemory>
    ensures { OnOk result (Tells (stated_by (plain_field field.now)) notes.old.items notes.new.items) }
{
    let Field::Array(array) = field else {
        return Ok(());
    };
    if let (Some(name), Some(count)) = (&array.name, array.count) {
        notes.push(Note::Told(name, i64::from(count)))?;
    }
    Ok(())
}

/// Notes that an array has so many rows of these fields, and that the labels directly in them have these places, those of
/// each row in order, row by row. It is one note where there are no rows, whose fields aren't looked through then, or where
/// the rows have labels; else it is none.
pub fn note_rows<'a>(
    row: &'a [Field],
    count: u64,
    places: Vec<i32>,
    notes: &mut Notes<'a>,
) -> Result<(), NoMemory>
    ensures { OnOk result (AreRowsNoted (plain_body row.now) count places.items notes.old.items notes.new.items) }
{
    if count == 0 || labels_count(row) > 0 {
        notes.push(Note::Rows(row, count, places))?;
    }
    Ok(())
}

/// How many labels stand directly in a body.
fn labels_count(row: &[Field]) -> u64
    ensures { result ≡ labels_count (plain_body row.now) }
{
    let mut count = 0;
    for field in row {
        count += label_count(field);
    }
    count
}

fn label_count(field: &Field) -> u64
    ensures { result ≡ label_count (plain_field field.now) }
{
    u64::from(matches!(field, Field::Label(_)))
}

/// How many labels stand directly in a body before the first of this name.
fn label_index(row: &[Field], label: &Word) -> u64
    ensures { result ≡ label_index (plain_body row.now) (str_to_ascii_lowercase label.now.bytes) }
{
    let mut before = 0;
    for field in row {
        if is_label(field, Key::Place(label)) {
            return before;
        }
        before += label_count(field);
    }
    before
}
