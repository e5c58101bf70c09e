//! What an item of a row is made of; a new kind of field changes `specs/Shown` too.

ghost use Rattle.std.specs.Prelude.{◌≡◌, ℕ, Bool, List, option_map};
ghost use Rattle.rz_show.specs.Lines.{entry_print, IsEntry, IsSound, IsSoundField};
ghost use Rattle.rz_show.specs.Printable.{HaveNames, HaveWidths};
ghost use Rattle.rz_show.specs.Shown.{case_print, field_print, row_prints};
ghost use Rattle.rz_show_lines.specs.Print.{named_block, no_prints};
ghost use Rattle.rz_types_fields.specs.Laid.{line_in};
ghost use Rattle.rz_show.specs.Hidden.{hides_in};
ghost use Rattle.rz_types.specs.Cases.{AreNamesApartWithin};
ghost use Rattle.rz_types.specs.Field.{plain_case, plain_cases, plain_field};
ghost use Rattle.rz_types.specs.Kept.{Differ};
ghost use Rattle.rz_types.specs.Rules.{case_names};

use crate::Hidden;
use crate::number::number_shown;
use crate::open_list::OpenList;
use rz_show_lines::{Single, Text};
use rz_types::values::{choice_in, group_in, line_in, number_in, rows_in, text_in};
use rz_types::{Case, CaseHints, Field, case_named};
use rz_types_fields::Tree;

/// What an item is made of.
#[derive(Drop)]
pub enum Entry<'a> {
    /// What stands on one line.
    Single(Single<'a>),
    /// A text.
    Text(Text<'a>),
    /// Items in braces, and the name before them, where there is one.
    Block(Option<&'a [u8]>, OpenList<'a>),
}

/// The item of a field's value.
pub fn entry_of<'a>(field: &'a Field, value: Option<&'a Tree>, hidden: Option<&Hidden>) -> Entry<'a>
    requires { IsSoundField (plain_field field.now) }
    ensures print { entry_print (hides_in (option_map (λ h. h.now) hidden.entry)) result ≡ field_print (hides_in (option_map (λ h. h.now) hidden.entry)) (plain_field field.now) (option_map (λ v. v.now) value.entry) }
    ensures settled { IsEntry result }
{
    match field {
        Field::Num(number) => Entry::Single(number_shown(number, number_in(value), hidden)),
        Field::Text(text) => Entry::Text(Text {
            bytes: text_in(value),
            hex: text.hex,
        }),
        Field::Points(_) => Entry::Single(Single::Group(group_in(value))),
        Field::Fill(..) | Field::Align(_) | Field::Label(_) => Entry::Block(
            None,
            OpenList::default(),
        ),
        Field::Array(array) => {
            let rows = OpenList::of_rows(array.row.as_slice(), rows_in(value));
            Entry::Block(None, rows)
        }
        Field::Switch(cases, hints) => case_entry(cases.as_slice(), hints, value),
    }
}

/// The case that is chosen, by its name as it is declared, with its items in braces.
fn case_entry<'a>(cases: &'a [Case], hints: &CaseHints, value: Option<&'a Tree>) -> Entry<'a>
    requires widths { HaveWidths (plain_cases cases.now) }
    requires names { HaveNames (plain_cases cases.now) }
    requires differ { Differ (case_names (plain_cases cases.now)) }
    requires apart { AreNamesApartWithin (plain_cases cases.now) }
    ensures print { (hidden : List ℕ → Bool) → entry_print hidden result ≡ case_print hidden (plain_cases cases.now) (option_map (λ v. v.now) value.entry) }
    ensures settled { IsEntry result }
{
    match case_named(cases, hints, choice_in(value)) {
        Some(position) => choice_entry(&cases[position], value),
        None => Entry::Block(None, OpenList::default()),
    }
}

/// A case, by its name as it is declared, with its items in braces.
fn choice_entry<'a>(case: &'a Case, value: Option<&'a Tree>) -> Entry<'a>
    requires { IsSound (plain_case case.now).row }
    ensures print { (hidden : List ℕ → Bool) → entry_print hidden result ≡ named_block (plain_case case.now).name.bytes (row_prints hidden (plain_case case.now).row (line_in (option_map (λ v. v.now) value.entry)) no_prints) }
    ensures settled { IsEntry result }
{
    let row = OpenList::of_row(case.row.as_slice(), line_in(value));
    Entry::Block(Some(case.name.bytes.as_slice()), row)
}
