//! Items under the fields of a type: the row that they are, or their first fault; changes with `specs/Match`.

ghost use Rattle.std.specs.Prelude.{◌≡◌, ◌<◌, ◌^◌, ℕ, List, IfOk, drop, length};
ghost use Rattle.std.specs.declared.result.Result.{Result as result_of};
ghost use Rattle.rz_stmt_items.specs.Line.{line_of};
ghost use Rattle.rz_core.specs.Stop.{Meets, Gives, OnFault, seen};
ghost use Rattle.rz_core.specs.Message.{IsNameable};
ghost use Rattle.rz_core.specs.declared.fault.Fault.{Fault as fault};
ghost use Rattle.rz_stmt_items.specs.Item.{plain_item, plain_items};
ghost use Rattle.rz_stmt_items.specs.Places.{AreItemsWithin};
ghost use Rattle.rz_stmt_items.specs.Match.{IsMatch};
ghost use Rattle.rz_stmt_items.specs.Matched.{case_matched, choice_matched, counted, item_for, matched, row_matched, rows_matched};
ghost use Rattle.rz_types_fields.specs.declared.tree.Tree.{Tree as tree};
ghost use Rattle.rz_types_fields.specs.Row.{IsRow};
ghost use Rattle.rz_types.specs.Cases.{AreNamesApart, AreNamesApartIn, AreNamesApartWithin};
ghost use Rattle.rz_types.specs.Field.{plain_array, plain_body, plain_case, plain_cases, plain_field, Switch};
ghost use Rattle.rz_types.specs.Kept.{Differ};
ghost use Rattle.rz_types.specs.Rules.{case_names};
ghost use Rattle.rz_types.specs.Template.{template_of};

use crate::fault::{mark_of, no_case, other_count, too_few, too_many, wrong_kind};
use crate::group::group_for;
use crate::number::number_for;
use crate::text::text_for;
use crate::{Item, Items};
use rz_core::{Facts, Fault, Mark, Stop, Word};
use rz_types::{
    ArrayField, Case, CaseHints, Field, Template, case_named, rules_hold_within, takes_value,
};
use rz_types_fields::{Row, RowList, Tree};
use std::alloc::Global;

/// The row of the items of a statement at this place under a template, where of the resource so much is known: one
/// value for each field that has none of its own, given by the next item. Each number is from 0 to below 2 to the
/// power of the width of its field in bits; the items of an array are cut into rows, one after the other. The first
/// fault from left to right is the answer, and the end of a list comes after its items: 206, an item of another kind
/// (kept: its position in its list, from 1), at the item; 208, a missing item (kept: how many items the list has), at
/// the place of the statement, or at the item in whose braces it is missing; 209, an item too many (kept: the same), at
/// the first such item; and at the item 203, a name that is no symbol of the field nor `true` or `false`, or in a format
/// one that is neither of these two (kept: the name), 207, a value that isn't in the range of the field (kept: the
/// value), 210, a name of no case of the switch (kept: the name), 211, a zero divisor, 215, a shift by a count outside 0
/// to 31 (kept: the count), 216, a text of more than one byte for a `char`, or one too long for a `pstring` or `wstring`
/// without a size (kept: how many bytes it has), 217, another number of rows than is stated (kept: both), and 222, a
/// format that its arguments don't fit. Names of cases are the same in whatever case. Items as statements have them hold
/// no indexed labels, no `$$CountOf`, no `$$ArrayIndex` and no data functions; of these a data function would be 203 or
/// 213, a label with an index the fault of its index or else 203, and the others 203. Matching goes as deep as arrays and
/// switches stand in one another. (MPW Rez.)
pub fn match_items(
    alloc: Global,
    template: &Template,
    items: &Items,
    place: Mark,
    facts: &Facts,
) -> Result<Row, Stop<Fault>>
    ensures matched { Meets result (IsMatch facts.now place (template_of template.now) (plain_items items.now)) }
    ensures every { (answer : result_of (List tree) fault) → IsMatch facts.now place (template_of template.now) (plain_items items.now) answer
        → Gives answer result }
    ensures row { IfOk result (IsRow (template_of template.now)) }
    ensures nameable { (files : ℕ) → place.file < files → AreItemsWithin files (plain_items items.now) → OnFault result (IsNameable files) }
{
    rules_hold_within();
    match_all(
        alloc,
        template.body().as_slice(),
        items.as_slice(),
        place,
        facts,
    )
}

/// A row, and how many items of the list are its own or before it.
#[derive(Drop)]
struct Line {
    row: Row,
    before: usize,
}

/// The row that all items of a list are.
#[cycle(matching)]
fn match_all(
    alloc: Global,
    fields: &[Field],
    items: &[Item],
    place: Mark,
    facts: &Facts,
) -> Result<Row, Stop<Fault>>
    requires { AreNamesApart (plain_body fields.now) }
    ensures { Gives (matched facts.now place (plain_body fields.now) (plain_items items.now)) result }
{
    let line = match match_row(alloc, fields, items, 0, place, facts) {
        Ok(line) => line,
        Err(stop) => return Err(stop),
    };
    let Line { row, before } = line;
    match items.get(before) {
        None => Ok(row),
        Some(item) => Err(too_many(item, items)),
    }
}

/// The row of the items of a list, after so many of them.
#[cycle(matching)]
fn match_row(
    alloc: Global,
    fields: &[Field],
    items: &[Item],
    before: usize,
    place: Mark,
    facts: &Facts,
) -> Result<Line, Stop<Fault>>
    requires { AreNamesApart (plain_body fields.now) }
    ensures { Gives (row_matched facts.now (plain_body fields.now) place (plain_items items.now) before (plain_items (drop before items.now))) (seen (line_of items.now) result) }
{
    let mut row = Row::with_capacity(alloc, values_of(fields))?;
    let mut next = before;
    for field in fields {
        if takes_value(field) {
            let Some(item) = items.get(next) else {
                return Err(too_few(place, items));
            };
            next += 1;
            match item_for(alloc, field, item, next as u64, facts) {
                Ok(value) => row.push(value)?,
                Err(stop) => return Err(stop),
            }
        }
    }
    Ok(Line { row, before: next })
}

/// How many values a row of the fields has, for the memory that it takes.
fn values_of(fields: &[Field]) -> usize {
    let mut size: usize = 0;
    for field in fields {
        if takes_value(field) {
            size = size.saturating_add(1);
        }
    }
    size
}

/// The value that an item, at this position in its list, gives to a field.
#[cycle(matching)]
fn item_for(
    alloc: Global,
    field: &Field,
    item: &Item,
    position: u64,
    facts: &Facts,
) -> Result<Tree, Stop<Fault>>
    requires position { position < 2 ^ 63 }
    requires apart { AreNamesApartIn (plain_field field.now) }
    ensures { Gives (item_for facts.now (plain_field field.now) position (plain_item item.now)) result }
{
    match field {
        Field::Num(number) => Ok(Tree::Number(number_for(alloc, number, item, position, facts)?)),
        Field::Text(text) => Ok(Tree::Text(text_for(alloc, text, item, position, facts)?)),
        Field::Points(points) => {
            Ok(Tree::Group(group_for(alloc, points.rect, item, position, facts)?))
        }
        Field::Fill(_, _) | Field::Align(_) | Field::Label(_) => {
            Err(wrong_kind(position, mark_of(item)))
        }
        Field::Array(array) => array_for(alloc, array, item, position, facts),
        Field::Switch(cases, hints) => {
            choice_for(alloc, cases.as_slice(), hints, item, position, facts)
        }
    }
}

/// The rows that an item gives to an array.
#[cycle(matching)]
fn array_for(
    alloc: Global,
    array: &ArrayField,
    item: &Item,
    position: u64,
    facts: &Facts,
) -> Result<Tree, Stop<Fault>>
    requires position { position < 2 ^ 63 }
    requires apart { AreNamesApartIn (plain_array array.now) }
    ensures { Gives (item_for facts.now (plain_array array.now) position (plain_item item.now)) result }
{
    match item {
        Item::List(items, mark) => {
            match rows_for(alloc, array.row.as_slice(), items.as_slice(), *mark, facts) {
                Ok(rows) => counted(array.count, *mark, rows),
                Err(stop) => Err(stop),
            }
        }
        _ => Err(wrong_kind(position, mark_of(item))),
    }
}

/// The rows, where there are as many as are stated.
fn counted(count: Option<i32>, place: Mark, rows: RowList) -> Result<Tree, Stop<Fault>>
    ensures { Gives (counted place count rows) result }
{
    match count {
        Some(stated) if i64::from(stated) != rows.len() as i64 => {
            Err(Stop::Refused(other_count(place, stated, rows.len())))
        }
        _ => Ok(Tree::Rows(rows)),
    }
}

/// The rows that the items of a list are.
#[cycle(matching)]
fn rows_for(
    alloc: Global,
    fields: &[Field],
    items: &[Item],
    place: Mark,
    facts: &Facts,
) -> Result<RowList, Stop<Fault>>
    requires { AreNamesApart (plain_body fields.now) }
    ensures { Gives (rows_matched (row_matched facts.now (plain_body fields.now) place (plain_items items.now)) (length items.now) 0 (plain_items items.now)) result }
{
    let mut rows = RowList::with_capacity(alloc, rows_among(fields, items))?;
    let mut before = 0;
    for _turn in 0..items.len() {
        if before >= items.len() {
            return Ok(rows);
        }
        match match_row(alloc, fields, items, before, place, facts) {
            Ok(line) => {
                let Line { row, before: next } = line;
                rows.push(row)?;
                before = next;
            }
            Err(stop) => return Err(stop),
        }
    }
    Ok(rows)
}

/// How many rows the items are if each row takes items of its own, for the memory that rows take. Where there are none the
/// fields aren't looked through.
fn rows_among(fields: &[Field], items: &[Item]) -> usize {
    if items.is_empty() {
        0
    } else {
        items.len() / values_of(fields).max(1)
    }
}

/// The case and its row that an item gives to a switch.
#[cycle(matching)]
fn choice_for(
    alloc: Global,
    cases: &[Case],
    hints: &CaseHints,
    item: &Item,
    position: u64,
    facts: &Facts,
) -> Result<Tree, Stop<Fault>>
    requires position { position < 2 ^ 63 }
    requires differ { Differ (case_names (plain_cases cases.now)) }
    requires apart { AreNamesApartWithin (plain_cases cases.now) }
    ensures { Gives (item_for facts.now (Switch (plain_cases cases.now)) position (plain_item item.now)) result }
{
    match item {
        Item::Named(name, items, mark) => {
            case_for(alloc, cases, hints, name, items.as_slice(), *mark, facts)
        }
        _ => Err(wrong_kind(position, mark_of(item))),
    }
}

/// The case of this name, and the row that the items are.
#[cycle(matching)]
fn case_for(
    alloc: Global,
    cases: &[Case],
    hints: &CaseHints,
    name: &Word,
    items: &[Item],
    mark: Mark,
    facts: &Facts,
) -> Result<Tree, Stop<Fault>>
    requires differ { Differ (case_names (plain_cases cases.now)) }
    requires apart { AreNamesApartWithin (plain_cases cases.now) }
    ensures { Gives (case_matched facts.now (plain_cases cases.now) mark name.now.bytes (plain_items items.now)) result }
{
    match case_named(cases, hints, name.bytes.as_slice()) {
        Some(position) => row_for(alloc, &cases[position], items, mark, facts),
        None => Err(Stop::Refused(no_case(alloc, mark, name)?)),
    }
}

/// A case, and the row that the items are.
#[cycle(matching)]
fn row_for(
    alloc: Global,
    case: &Case,
    items: &[Item],
    mark: Mark,
    facts: &Facts,
) -> Result<Tree, Stop<Fault>>
    requires { AreNamesApart (plain_case case.now).row }
    ensures { Gives (choice_matched facts.now mark (plain_case case.now) (plain_items items.now)) result }
{
    match match_all(alloc, case.row.as_slice(), items, mark, facts) {
        Ok(row) => Ok(Tree::Choice(case.name.copy(alloc)?, row)),
        Err(stop) => Err(stop),
    }
}
