//! The rules of fields and cases, and the check of a body. The rules are defined in `specs/Rules` of `rz_types`.

ghost use Rattle.std.specs.Prelude.{IfOk, ◌≡◌, map, option_map, true};
ghost use Rattle.rz_types.specs.Template.{template_of};
ghost use Rattle.rz_core.specs.Stop.{Gives, seen};
ghost use Rattle.rz_core.specs.Lists.{or_else};
ghost use Rattle.rz_types_fields.specs.Field.{plain_body, plain_cases, plain_field, plain_text};
ghost use Rattle.rz_types_fields.specs.Laid.{unless};
ghost use Rattle.rz_types_fields.specs.Shape.{is_well_shaped};
ghost use Rattle.rz_types.specs.Rules.{array_twice, bad_case, bad_place, bad_rows, bad_size, bad_width, case_names, checked, has_values, label_twice, may_be_count, may_be_rows, may_be_width, name_fault, no_values, repeated, unknown_fault, width_fault};
ghost use Rattle.rz_types_check.specs.Walked.{own_of};

use crate::keys::{Keys, key_rule};
use crate::name_list::NameList;
use crate::names::Names;
use crate::walk::check_fields;
use rz_core::{Kept, NoMemory, Stop, Word};
use rz_expr::constant_of;
use rz_types::{Template, TypeFault, is_body_readable};
use rz_types_fields::{Body, Case, CaseKey, Field, NumForm, TextField, may_be_size, takes_value};
use std::alloc::Global;

/// The most units of a `fill`.
const MOST_UNITS: i32 = 16_777_212;

/// The most that a fault keeps of a position.
pub const MOST_KEPT: u64 = 9_223_372_036_854_775_807;

/// The most rows that may be stated of an array.
const MOST_ROWS: i32 = 1_048_576;

/// The template of a body, or the first rule that it breaks. A walk goes over the fields depth first; a field's own
/// rules come before those of the fields within it, those of a case after its fields. 230: a label has the name of one
/// before it; 231: so has an array (kept of each: the name). 232: two cases of a switch have one name (kept: the
/// later's). 233: a case hasn't exactly one key; 234: the keys of a switch have different widths; 235: the fields
/// before a key haven't all a fixed width, or the keys stand at different distances; 236: two keys have the same bits
/// (kept of each: the name of the case; the field is the switch). 237: the rows of an array take no value (kept: the
/// position of the field). 238: the width of a `bitstring` outside 1 to 32, the count of an array outside 0 to
/// 1,048,576, the count of a `fill` outside 0 to 16,777,212, or a constant size of a text that its type can't have
/// (kept: the value): a `string` has a size from 0 on, a `pstring` from 0 to 255, a `wstring` from 0 to 65,535, a
/// `cstring` from 1 on; a size that is no constant, or a constant without a value, breaks no rule. After the walk 212:
/// the first label or array that an expression names and that is none of its own body and of those around, the first
/// label with an index that stands directly in the rows of no array of these, or the first array of whose row the
/// number is asked and that isn't around (kept: the name); `true` and `false` are no labels, a label comes before its
/// index, and the size of a text comes before the formats in it. Names are the same in whatever case. The body has the
/// shape of a declaration: the width of a type that has its own, two or four fixed numbers of points, units that there
/// are, arrays and switches at most 60 deep in one another, and so on. The walk goes as deep as these stand in one
/// another. Names and keys are looked up, among those before or those that may be named, each in constant time on
/// average. (MPW Rez.)
pub fn check(alloc: Global, body: Body) -> Result<Template, Stop<TypeFault>>
    requires { is_well_shaped (plain_body body) ≡ true }
    ensures { Gives (checked (plain_body body)) (seen template_of result) }
{
    match check_fields(alloc, body.as_slice()) {
        Ok(()) => {
            let readable = is_body_readable(alloc, body.as_slice())?;
            Ok(Template::of(alloc, body, readable)?)
        }
        Err(stop) => Err(stop),
    }
}

/// The first rule that a field at this position breaks itself, after labels and arrays of these names.
pub fn broken_field(
    alloc: Global,
    position: u64,
    before: &Names<'_>,
    field: &Field,
) -> Result<Option<TypeFault>, NoMemory>
    ensures { IfOk result (λ fault. fault ≡ or_else (bad_place position (own_of before.now) (plain_field field.now))
        (option_map (width_fault position) (bad_width (plain_field field.now)))) }
{
    match bad_place(alloc, position, before, field)? {
        Some(fault) => Ok(Some(fault)),
        None => match bad_width(field) {
            Some(value) => Ok(Some(width_fault(position, value))),
            None => Ok(None),
        },
    }
}

/// What is wrong with a field where it stands, beside its widths.
fn bad_place(
    alloc: Global,
    position: u64,
    before: &Names<'_>,
    field: &Field,
) -> Result<Option<TypeFault>, NoMemory>
    ensures { IfOk result (λ fault. fault ≡ bad_place position (own_of before.now) (plain_field field.now)) }
{
    match field {
        Field::Label(name) => label_twice(alloc, position, &before.labels, name),
        Field::Array(array) => match array_twice(alloc, position, &before.arrays, &array.name)? {
            Some(fault) => Ok(Some(fault)),
            None => Ok(no_values(position, array.row.as_slice())),
        },
        Field::Switch(cases, _hints) => case_twice(alloc, position, cases.as_slice()),
        _ => Ok(None),
    }
}

/// 230 for a label whose name one before it has.
fn label_twice(
    alloc: Global,
    position: u64,
    before: &NameList<'_>,
    name: &Word,
) -> Result<Option<TypeFault>, NoMemory>
    ensures { IfOk result (λ fault. fault ≡ label_twice position (map (λ name. name.now) before.now.list.items) name.now) }
{
    if before.has(name) {
        Ok(Some(name_fault(alloc, 230, position, name)?))
    } else {
        Ok(None)
    }
}

/// 231 for an array whose name one before it has.
fn array_twice(
    alloc: Global,
    position: u64,
    before: &NameList<'_>,
    name: &Option<Word>,
) -> Result<Option<TypeFault>, NoMemory>
    ensures { IfOk result (λ fault. fault ≡ array_twice position (map (λ name. name.now) before.now.list.items) name.now) }
{
    let Some(name) = name else {
        return Ok(None);
    };
    if before.has(name) {
        Ok(Some(name_fault(alloc, 231, position, name)?))
    } else {
        Ok(None)
    }
}

/// 237 for an array whose rows take no value.
fn no_values(position: u64, row: &[Field]) -> Option<TypeFault>
    ensures { result ≡ no_values position (plain_body row.now) }
{
    if has_values(row) {
        return None;
    }
    let position = position.min(MOST_KEPT);
    Some(TypeFault {
        number: 237,
        field: position,
        kept: Kept::Number(position as i64),
    })
}

/// Whether a row of these fields takes one value at least.
fn has_values(row: &[Field]) -> bool
    ensures { result ≡ has_values (plain_body row.now) }
{
    for field in row {
        if takes_value(field) {
            return true;
        }
    }
    false
}

/// 232 for a switch of which two cases have one name.
fn case_twice(alloc: Global, position: u64, cases: &[Case]) -> Result<Option<TypeFault>, NoMemory>
    ensures { IfOk result (λ fault. fault ≡ option_map (name_fault 232 position) (repeated (case_names (plain_cases cases.now)))) }
{
    match repeated(alloc, cases)? {
        Some(name) => Ok(Some(name_fault(alloc, 232, position, name)?)),
        None => Ok(None),
    }
}

/// The first case name that stands before it too, in whatever case.
fn repeated<'a>(alloc: Global, cases: &'a [Case]) -> Result<Option<&'a Word>, NoMemory>
    ensures { IfOk result (λ name. option_map (λ name. name.now) name ≡ repeated (case_names (plain_cases cases.now))) }
{
    let mut before = NameList::new(alloc);
    for case in cases {
        if before.has(&case.name) {
            return Ok(Some(&case.name));
        }
        before.push(&case.name)?;
    }
    Ok(None)
}

/// The first rule that a case of the switch at this position breaks, by its keys, after cases with those keys.
pub fn broken_behind(
    alloc: Global,
    position: u64,
    name: &Word,
    keys: &[CaseKey],
    before: &Keys,
) -> Result<Option<TypeFault>, NoMemory>
    ensures { IfOk result (λ fault. fault ≡ bad_case position name.now keys.now before.now.list.items) }
{
    match key_rule(keys, before) {
        Some(number) => Ok(Some(name_fault(alloc, number, position, name)?)),
        None => Ok(None),
    }
}

/// A fault of a field at this position that keeps a name.
fn name_fault(alloc: Global, number: u16, position: u64, name: &Word) -> Result<TypeFault, NoMemory>
    ensures { IfOk result (λ fault. fault ≡ name_fault number position name.now) }
{
    Ok(TypeFault {
        number,
        field: position.min(MOST_KEPT),
        kept: Kept::Name(name.copy(alloc)?.bytes),
    })
}

/// 212 for a label or an array that a field at this position can't name.
pub fn unknown_fault(alloc: Global, position: u64, name: &Word) -> Result<TypeFault, NoMemory>
    ensures { IfOk result (λ fault. fault ≡ unknown_fault position name.now.bytes) }
{
    name_fault(alloc, 212, position, name)
}

/// 238 for a field at this position.
fn width_fault(position: u64, value: i32) -> TypeFault
    ensures { result ≡ width_fault position value }
{
    TypeFault {
        number: 238,
        field: position.min(MOST_KEPT),
        kept: Kept::Number(i64::from(value)),
    }
}

/// The width, the count or the constant size of a field, where it can't be.
fn bad_width(field: &Field) -> Option<i32>
    ensures { result ≡ bad_width (plain_field field.now) }
{
    match field {
        Field::Num(number) => unless(may_be_width(number.form, number.width), number.width),
        Field::Text(text) => bad_size(text),
        Field::Fill(_, count) => unless(may_be_count(*count), *count),
        Field::Array(array) => bad_rows(array.count),
        Field::Points(_) | Field::Align(_) | Field::Label(_) | Field::Switch(..) => None,
    }
}

/// The stated number of rows, where it can't be.
fn bad_rows(count: Option<i32>) -> Option<i32>
    ensures { result ≡ bad_rows count }
{
    match count {
        Some(count) => unless(may_be_rows(count), count),
        None => None,
    }
}

/// A value that can't be.
fn unless(allowed: bool, value: i32) -> Option<i32>
    ensures { result ≡ unless allowed value }
{
    if allowed { None } else { Some(value) }
}

fn bad_size(text: &TextField) -> Option<i32>
    ensures { result ≡ bad_size (plain_text text.now).form (plain_text text.now).size }
{
    let Some(size) = &text.size else {
        return None;
    };
    match constant_of(size) {
        Some(size) => unless(may_be_size(text.form, size), size),
        None => None,
    }
}

fn may_be_width(form: NumForm, width: i32) -> bool
    ensures { result ≡ may_be_width form width }
{
    match form {
        NumForm::Bits => 1 <= width && width <= 32,
        _ => true,
    }
}

fn may_be_count(count: i32) -> bool
    ensures { result ≡ may_be_count count }
{
    0 <= count && count <= MOST_UNITS
}

fn may_be_rows(count: i32) -> bool
    ensures { result ≡ may_be_rows count }
{
    0 <= count && count <= MOST_ROWS
}
