//! Whether a row chooses a case whose name is a live macro; changes with `specs/Shown`.

ghost use Rattle.std.specs.Prelude.{◌≡◌, ◌||◌, option_map, IfOk};
ghost use Rattle.std.specs.List.{list_any};
ghost use Rattle.rz_show.specs.Hidden.{hides};
ghost use Rattle.rz_show.specs.Shown.{case_uses, field_uses, row_uses};
ghost use Rattle.rz_types.specs.Cases.{AreNamesApart, AreNamesApartIn, AreNamesApartWithin};
ghost use Rattle.rz_types.specs.Field.{plain_body, plain_case, plain_cases, plain_field};
ghost use Rattle.rz_types.specs.Kept.{Differ};
ghost use Rattle.rz_types.specs.Rules.{case_names};
ghost use Rattle.rz_types.specs.Template.{template_of};
ghost use Rattle.rz_types_fields.specs.Laid.{line_in};

use crate::Hidden;
use rz_core::NoMemory;
use rz_types::values::{choice_in, line_in, next_value, rows_in};
use rz_types::{Case, CaseHints, Field, Template, case_named, rules_hold_within, takes_value};
use rz_types_fields::{Row, Tree};
use std::alloc::Global;

/// Whether a row of the fields of a template chooses a case whose name is a live macro, itself or in the rows within
/// it: then no `resource` statement shows it. It takes memory only for a name of more than 255 bytes. Its time is in
/// proportion to the fields of each row that is walked and to the row; cases are looked up.
pub fn uses_hidden(
    alloc: Global,
    template: &Template,
    row: &[Tree],
    hidden: &Hidden,
) -> Result<bool, NoMemory>
    ensures { IfOk result (λ uses. uses ≡ row_uses (hides hidden.now) (template_of template.now) row.now) }
{
    rules_hold_within();
    row_uses(alloc, template.body().as_slice(), row, hidden)
}

/// The same, of a row of these fields.
#[cycle(uses)]
fn row_uses<'a>(
    alloc: Global,
    fields: &'a [Field],
    row: &[Tree],
    hidden: &Hidden,
) -> Result<bool, NoMemory>
    requires { AreNamesApart (plain_body fields.now) }
    ensures { IfOk result (λ uses. uses ≡ row_uses (hides hidden.now) (plain_body fields.now) row.now) }
{
    let mut values = row;
    for field in fields {
        let next = next_value(takes_value(field), values);
        if field_uses(alloc, field, next.value, hidden)? {
            return Ok(true);
        }
        values = next.others;
    }
    Ok(false)
}

/// The same, of a field's value.
#[cycle(uses)]
fn field_uses<'a>(
    alloc: Global,
    field: &'a Field,
    value: Option<&Tree>,
    hidden: &Hidden,
) -> Result<bool, NoMemory>
    requires { AreNamesApartIn (plain_field field.now) }
    ensures { IfOk result (λ uses. uses ≡ field_uses (hides hidden.now) (plain_field field.now) (option_map (λ v. v.now) value.entry)) }
{
    match field {
        Field::Array(array) => rows_use(alloc, array.row.as_slice(), rows_in(value), hidden),
        Field::Switch(cases, hints) => case_uses(alloc, cases.as_slice(), hints, value, hidden),
        _ => Ok(false),
    }
}

/// The same, of the rows of an array.
#[cycle(uses)]
fn rows_use<'a>(
    alloc: Global,
    fields: &'a [Field],
    rows: &[Row],
    hidden: &Hidden,
) -> Result<bool, NoMemory>
    requires { AreNamesApart (plain_body fields.now) }
    ensures { IfOk result (λ uses. uses ≡ list_any (row_uses (hides hidden.now) (plain_body fields.now)) rows.now) }
{
    for row in rows {
        if row_uses(alloc, fields, row.as_slice(), hidden)? {
            return Ok(true);
        }
    }
    Ok(false)
}

/// The same, of the case that is chosen.
#[cycle(uses)]
fn case_uses<'a>(
    alloc: Global,
    cases: &'a [Case],
    hints: &CaseHints,
    value: Option<&Tree>,
    hidden: &Hidden,
) -> Result<bool, NoMemory>
    requires differ { Differ (case_names (plain_cases cases.now)) }
    requires apart { AreNamesApartWithin (plain_cases cases.now) }
    ensures { IfOk result (λ uses. uses ≡ case_uses (hides hidden.now) (plain_cases cases.now) (option_map (λ v. v.now) value.entry)) }
{
    match case_named(cases, hints, choice_in(value)) {
        Some(position) => choice_uses(alloc, &cases[position], value, hidden),
        None => Ok(false),
    }
}

/// The same, of a case.
#[cycle(uses)]
fn choice_uses<'a>(
    alloc: Global,
    case: &'a Case,
    value: Option<&Tree>,
    hidden: &Hidden,
) -> Result<bool, NoMemory>
    requires { AreNamesApart (plain_case case.now).row }
    ensures { IfOk result (λ uses. uses ≡ (hides hidden.now (plain_case case.now).name.bytes || row_uses (hides hidden.now) (plain_case case.now).row (line_in (option_map (λ v. v.now) value.entry)))) }
{
    if hidden.has(alloc, case.name.bytes.as_slice())? {
        return Ok(true);
    }
    row_uses(alloc, case.row.as_slice(), line_in(value), hidden)
}
