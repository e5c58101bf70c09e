//! Rows laid as bytes, field by field, with arrays and switches. What is answered is in `specs/Compiled`.

ghost use Rattle.std.specs.Prelude.{IfOk, ◌≡◌, length, option_map, true, List, ℕ, [], None, Some};
ghost use Rattle.rz_layout.specs.Fault.{refusal_of};
ghost use Rattle.std.specs.declared.result.Result.{Result as Answer};
ghost use Rattle.rz_layout.specs.Compiled.{is_compile_fault, IsCompiled};
ghost use Rattle.rz_layout.specs.Laid.{draft_of, IsNotedBy, IsShort};
ghost use Rattle.rz_layout.specs.Places.{items_of, AreRowsLaid, IsRowLaid};
ghost use Rattle.rz_layout.specs.Sound.{AreSound, IsCaseSound, IsSound};
ghost use Rattle.rz_core.specs.Stop.{OnFault, Gives, Meets, fault_seen, left, seen};
ghost use Rattle.std.specs.List.{AllByRecursion};
ghost use Rattle.rz_types_fields.specs.Known.{which_of};
ghost use Rattle.rz_types_fields.specs.Laid.{all_laid, body_laid, case_laid, each_laid, field_laid, laid, row_ended, row_laid, Refusal};
ghost use Rattle.rz_types_fields.specs.Passed.{declares, gives_key, gives_rows};
ghost use Rattle.rz_types_fields.specs.Row.{IsRow};
ghost use Rattle.rz_types_fields.specs.Field.{plain_body, plain_cases, plain_field};
ghost use Rattle.rz_types.specs.Kept.{Differ};
ghost use Rattle.rz_types.specs.Rules.{case_names};
ghost use Rattle.rz_types.specs.Template.{template_of};

use crate::LayFault;
use crate::fill::fill;
use crate::laid::Laid;
use crate::names::{enter, leave};
use crate::number::lay_number;
use crate::places::push_places;
use crate::points::lay_points;
use crate::text::lay_text;
use rz_bits::{
    BitBuf, bits_are_written_back, bytes_are_read_back, filled_to_a_multiple,
    numbers_are_read_back, numbers_are_written_back,
};
use rz_core::{Bytes, Facts, Listing, Stop, Word};
use rz_types::values::{choice_in, line_in, next_value, rows_in};
use rz_types::{
    Case, CaseHints, Field, Template, case_named, named_values_are_there, rules_hold_within,
    takes_value,
};
use rz_types_fields::{ArrayField, InRow, Row, Tree, note_rows};
use std::alloc::Global;
use std::mem;

/// The bytes that a row spells under a template, for a resource of which so much is known; there is one such list of
/// bytes at most. It has at most 16,777,212 bytes; zero bits fill it to a whole byte. The row has one value for each
/// field that takes one: that of an array is its rows, and that of a switch the name of a case and a row of its fields.
/// Pieces are counted from left to right, through all rows of an array and the case that is chosen; a label is one, and an
/// array and a switch are none themselves. `$$CountOf` gives the number of rows of an array, by its name, to the fields of
/// its own body and of those within it; a label's name gives them its place, in bits from the start of the resource, and
/// the `$$` functions of bits the number that stands there. Inside a row of an array a name that the row gives is the
/// row's own, and `$$ArrayIndex` gives the number of the row, from 1, of the array of that name that is around.
/// `label[index]` is the place of a label that stands directly in the rows of an array of the expression's own body, or of
/// a body around it, in the row of that number, from 1. A number whose expression names a label that stands later, or reads bits of such a number, is late:
/// zero bits stand for it until all other pieces are laid; a label of rows stands later up to the end of its array. Then the
/// late numbers are computed, from left to right, each from the bits before it.
///
/// Otherwise the fault is the first from left to right, those of late numbers after all others: of an expression 211, a
/// zero divisor, 213 for bits that aren't there (kept: the place after the last) or aren't 1 to 32 of them (kept: their
/// number), 215, a shift by a count outside 0 to 31 (kept: the count), or 223 for an index that is the number of no row
/// (kept: the index); 214 for a text whose size or formats name a label that stands later, or read bits of late numbers
/// (kept: the piece); 222 for a format that its arguments don't fit; 207 for a value outside the range of its number, or a
/// size that its text may not have (kept: the value); 216 for a text without a size that is too long for its type (kept:
/// its length); 301 where a piece ends after 16,777,212 bytes (kept: the length to its end in bytes, rounded up). In a text
/// 214 for a label comes first, its size's expression comes before its formats, and these before its size.
///
/// Its time is in proportion to the fields that are laid, for each row those of its array, with their expressions and
/// fixed texts, to the row and to the bytes; cases are looked up; a name in an expression counts once on average, but one
/// with an index as many times as there are fields in the rows of the arrays of its body and of those around it, counted
/// once for each array, and a late number as many times as there are bodies around it. Beside the bytes it takes memory for
/// what is noted of the bodies that are open, a few notes for each label and array in each; for the places of labels in
/// rows, 4 bytes for each in each row, until the body of their array ends; for one fixed
/// text at a time; and for late numbers: a bit for each bit up to the last of them, each with its expression, and what was
/// noted in the bodies that have names of their own, or are rows of an array that has one, where late numbers stand. (MPW
/// Rez.)
pub fn lay_row(
    alloc: Global,
    template: &Template,
    row: &Row,
    facts: &Facts,
) -> Result<Bytes, Stop<LayFault>>
    requires row { IsRow (template_of template.now) row.now }
    ensures compiled { Meets (fault_seen refusal_of result) (IsCompiled facts.now (template_of template.now) row.now) }
    ensures every { (answer : Answer (List ℕ) Refusal) → IsCompiled facts.now (template_of template.now) row.now answer → Gives answer (fault_seen refusal_of result) }
    ensures number { OnFault result (λ fault. is_compile_fault fault.number ≡ true) }
{
    bytes_are_read_back();
    bits_are_written_back();
    filled_to_a_multiple();
    numbers_are_read_back();
    numbers_are_written_back();
    named_values_are_there();
    rules_hold_within();
    compile_fields(alloc, template.body().as_slice(), row.as_slice(), facts)
}

/// The same, as the bytes that are laid.
fn compile_fields(
    alloc: Global,
    fields: &[Field],
    row: &[Tree],
    facts: &Facts,
) -> Result<Bytes, Stop<LayFault>>
    requires { AreSound (plain_body fields.now) row.now }
    ensures { Gives (laid facts.now (plain_body fields.now) row.now) (fault_seen refusal_of result) }
{
    let mut laid = Laid::new(alloc);
    match lay_body(alloc, fields, None, row, facts, &mut laid) {
        Ok(()) => {}
        Err(stop) => {
            drop(laid);
            return Err(stop);
        }
    }
    let Laid {
        mut bits,
        late,
        piece: _,
        marks,
        mut notes,
    } = laid;
    drop(marks);
    let none = BitBuf::new(alloc);
    let filled = fill(late, facts, &mut notes, &none, &mut bits);
    drop(none);
    drop(notes);
    match filled {
        Ok(()) => Ok(bits.finish()),
        Err(stop) => {
            drop(bits);
            Err(stop)
        }
    }
}

/// Lays the fields of a body, with the numbers of the rows of its arrays for names.
#[cycle(lay)]
fn lay_body<'a>(
    alloc: Global,
    fields: &'a [Field],
    which: Option<InRow<'a>>,
    row: &[Tree],
    facts: &Facts,
    laid: &mut Laid<'a>,
) -> Result<(), Stop<LayFault>>
    requires sound { AreSound (plain_body fields.now) row.now }
    requires short { IsShort laid.old }
    ensures laid { Gives (row_laid facts.now (which_of which.entry) (plain_body fields.now) (draft_of laid.old) row.now) (fault_seen refusal_of (left (draft_of laid.new) result)) }
    ensures short { IfOk result (λ _. IsShort laid.new) }
    ensures notes { IfOk result (λ _. laid.new.notes.items ≡ laid.old.notes.items) }
{
    let around = laid.notes.len();
    enter(fields, which, row, &mut laid.notes)?;
    let outer = mem::replace(&mut laid.late, Listing::new(alloc));
    match lay_fields(alloc, fields, row, facts, laid) {
        Ok(()) => {}
        Err(stop) => return Err(stop),
    }
    leave(fields, which, outer, around, laid)?;
    Ok(())
}

/// Lays fields one after the other, each with the next value of the row where it takes one.
#[cycle(lay)]
fn lay_fields<'a>(
    alloc: Global,
    fields: &'a [Field],
    row: &[Tree],
    facts: &Facts,
    laid: &mut Laid<'a>,
) -> Result<(), Stop<LayFault>>
    requires sound { AreSound (plain_body fields.now) row.now }
    requires short { IsShort laid.old }
    ensures laid { Gives (body_laid facts.now (draft_of laid.old) (plain_body fields.now) row.now) (fault_seen refusal_of (left (draft_of laid.new) result)) }
    ensures short { IfOk result (λ _. IsShort laid.new) }
    ensures notes { IfOk result (λ _. IsNotedBy (declares (plain_body fields.now)) laid.old.notes.items laid.new.notes.items) }
{
    let mut values = row;
    for field in fields {
        let next = next_value(takes_value(field), values);
        match lay_field(alloc, field, next.value, facts, laid) {
            Ok(()) => values = next.others,
            Err(stop) => return Err(stop),
        }
    }
    Ok(())
}

/// Lays a field, with its value where it takes one.
#[cycle(lay)]
fn lay_field<'a>(
    alloc: Global,
    field: &'a Field,
    value: Option<&Tree>,
    facts: &Facts,
    laid: &mut Laid<'a>,
) -> Result<(), Stop<LayFault>>
    requires sound { IsSound (plain_field field.now) (option_map (λ v. v.now) value) }
    requires short { IsShort laid.old }
    ensures laid { Gives (field_laid facts.now (draft_of laid.old) (plain_field field.now) (option_map (λ v. v.now) value.entry)) (fault_seen refusal_of (left (draft_of laid.new) result)) }
    ensures short { IfOk result (λ _. IsShort laid.new) }
    ensures notes { IfOk result (λ _. IsNotedBy (gives_key (plain_field field.now)) laid.old.notes.items laid.new.notes.items) }
{
    match field {
        Field::Num(number) => lay_number(number, value, facts, laid),
        Field::Text(text) => lay_text(alloc, text, value, facts, laid),
        Field::Points(points) => lay_points(points, value, facts, laid),
        Field::Fill(unit, count) => laid.put_zeros(
            u64::from(*unit) * u64::from(count.unsigned_abs()),
        ),
        Field::Align(unit) => laid.put_filler(*unit),
        Field::Label(name) => laid.put_place(name),
        Field::Array(array) => lay_array(alloc, array, rows_in(value), facts, laid),
        Field::Switch(cases, hints) => {
            lay_case(alloc, cases.as_slice(), hints, value, facts, laid)
        }
    }
}

/// Lays the rows of an array; after them the labels in them are known by the numbers of their rows.
#[cycle(lay)]
fn lay_array<'a>(
    alloc: Global,
    array: &'a ArrayField,
    rows: &[Row],
    facts: &Facts,
    laid: &mut Laid<'a>,
) -> Result<(), Stop<LayFault>>
    requires sound { AllByRecursion (AreSound (plain_body array.now.row)) rows.now }
    requires short { IsShort laid.old }
    ensures laid { Gives (all_laid facts.now array.now.name (plain_body array.now.row) rows.now (draft_of laid.old)) (fault_seen refusal_of (left (draft_of laid.new) result)) }
    ensures short { IfOk result (λ _. IsShort laid.new) }
    ensures notes { IfOk result (λ _. IsNotedBy (gives_rows (plain_body array.now.row)) laid.old.notes.items laid.new.notes.items) }
{
    let fields = array.row.as_slice();
    let places = match lay_rows(alloc, &array.name, fields, rows, facts, laid) {
        Ok(places) => places,
        Err(stop) => return Err(stop),
    };
    note_rows(fields, count_of(rows), places, &mut laid.notes)?;
    Ok(())
}

/// How many rows there are.
fn count_of(rows: &[Row]) -> u64
    ensures { result ≡ length rows.now }
{
    rows.len() as u64
}

/// Lays the rows of an array one after the other, and gives the places of the labels that stand directly in them, those of
/// each row at its end, row by row.
#[cycle(lay)]
fn lay_rows<'a>(
    alloc: Global,
    name: &'a Option<Word>,
    fields: &'a [Field],
    rows: &[Row],
    facts: &Facts,
    laid: &mut Laid<'a>,
) -> Result<Vec<i32>, Stop<LayFault>>
    requires sound { AllByRecursion (AreSound (plain_body fields.now)) rows.now }
    requires short { IsShort laid.old }
    ensures laid { Meets (fault_seen refusal_of (seen items_of result)) (AreRowsLaid (each_laid facts.now name.now (plain_body fields.now) rows.now (draft_of laid.old)) (plain_body fields.now) (draft_of laid.new)) }
    ensures short { IfOk result (λ _. IsShort laid.new) }
    ensures notes { IfOk result (λ _. laid.new.notes.items ≡ laid.old.notes.items) }
{
    let mut places = Vec::new(alloc);
    for before in 0..rows.len() {
        let which = InRow {
            array: name,
            number: before as u64 + 1,
        };
        let row = rows[before].as_slice();
        match lay_array_row(alloc, fields, which, row, facts, laid, &mut places) {
            Ok(()) => {}
            Err(stop) => {
                drop(places);
                return Err(stop);
            }
        }
    }
    Ok(places)
}

/// Lays a row of an array, and appends the places of its labels to those of the rows before it.
#[cycle(lay)]
fn lay_array_row<'a>(
    alloc: Global,
    fields: &'a [Field],
    which: InRow<'a>,
    row: &[Tree],
    facts: &Facts,
    laid: &mut Laid<'a>,
    places: &mut Vec<i32>,
) -> Result<(), Stop<LayFault>>
    requires sound { AreSound (plain_body fields.now) row.now }
    requires short { IsShort laid.old }
    ensures laid { Meets (fault_seen refusal_of (left places.new.items result)) (IsRowLaid (row_ended facts.now (which_of (Some which.entry)) (plain_body fields.now) (draft_of laid.old) row.now) (plain_body fields.now) (draft_of laid.new) places.old.items) }
    ensures short { IfOk result (λ _. IsShort laid.new) }
    ensures notes { IfOk result (λ _. laid.new.notes.items ≡ laid.old.notes.items) }
{
    let around = laid.notes.len();
    enter(fields, Some(which), row, &mut laid.notes)?;
    let outer = mem::replace(&mut laid.late, Listing::new(alloc));
    match lay_fields(alloc, fields, row, facts, laid) {
        Ok(()) => {}
        Err(stop) => return Err(stop),
    }
    push_places(fields, &laid.notes, places)?;
    leave(fields, Some(which), outer, around, laid)?;
    Ok(())
}

/// Lays the fields of the case that is chosen.
#[cycle(lay)]
fn lay_case<'a>(
    alloc: Global,
    cases: &'a [Case],
    hints: &CaseHints,
    value: Option<&Tree>,
    facts: &Facts,
    laid: &mut Laid<'a>,
) -> Result<(), Stop<LayFault>>
    requires differ { Differ (case_names (plain_cases cases.now)) }
    requires sound { IsCaseSound (plain_cases cases.now) (option_map (λ v. v.now) value) }
    requires short { IsShort laid.old }
    ensures laid { Gives (case_laid facts.now (draft_of laid.old) (plain_cases cases.now) (option_map (λ v. v.now) value.entry)) (fault_seen refusal_of (left (draft_of laid.new) result)) }
    ensures short { IfOk result (λ _. IsShort laid.new) }
    ensures notes { IfOk result (λ _. laid.new.notes.items ≡ laid.old.notes.items) }
{
    match case_named(cases, hints, choice_in(value)) {
        Some(position) => {
            let row = line_in(value);
            lay_body(
                alloc,
                cases[position].row.as_slice(),
                None,
                row,
                facts,
                laid,
            )
        }
        None => Ok(()),
    }
}
