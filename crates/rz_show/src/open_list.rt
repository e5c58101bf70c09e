//! What is left of a list of items; changes with `specs/Lines`.

ghost use Rattle.std.specs.Prelude.{◌≡◌, ℕ, Bool, true, List, [], MatchOption};
ghost use Rattle.rz_show.specs.Lines.{comma_if, is_settled, left, IsFirst, IsOpen, IsSound, IsWithout};
ghost use Rattle.rz_show_lines.specs.Print.{comma, no_prints, Prints};
ghost use Rattle.rz_show.specs.Shown.{row_prints, rows_prints};
ghost use Rattle.rz_types.specs.Field.{plain_body};
ghost use Rattle.rz_types_fields.specs.declared.tree.Tree.{Tree};

use rz_types::values::next_value;
use rz_types::{Field, takes_value};
use rz_types_fields::{Row, Tree};

/// What is left of a list of items: fields with their values, and after them rows of other fields.
#[derive(Clone, Copy)]
pub struct OpenList<'a> {
    /// The fields.
    pub fields: &'a [Field],
    /// Their values.
    pub values: &'a [Tree],
    /// The fields of the rows after them.
    pub row: &'a [Field],
    /// Those rows.
    pub rows: &'a [Row],
}

impl<'a> Default for OpenList<'a> {
    ghost is_default = { λ list. IsWithout list };

    /// The list without items.
    fn default() -> OpenList<'a> {
        OpenList {
            fields: &[],
            values: &[],
            row: &[],
            rows: &[],
        }
    }
}

/// The first item of a list, and what is left then.
#[derive(Drop)]
pub struct Item<'a> {
    /// Its field.
    pub field: &'a Field,
    /// The value of the field.
    pub value: Option<&'a Tree>,
    /// What is left of the list.
    pub others: OpenList<'a>,
}

/// Passes fields that take no value, up to the first that takes one.
fn passed<'a>(fields: &'a [Field]) -> &'a [Field]
    ensures same { (hidden : List ℕ → Bool) → (row : List Tree) → (more : Prints) → row_prints hidden (plain_body result.now) row more ≡ row_prints hidden (plain_body fields.now) row more }
    ensures front { is_settled (plain_body result.now) [] ≡ true }
    ensures sound { IsSound (plain_body fields.now) → IsSound (plain_body result.now) }
{
    for k in 0..fields.len() {
        if takes_value(&fields[k]) {
            return &fields[k..];
        }
    }
    &[]
}

impl<'a> OpenList<'a> {
    /// The items of a row.
    pub fn of_row(fields: &'a [Field], values: &'a [Tree]) -> OpenList<'a>
        requires { IsSound (plain_body fields.now) }
        ensures left { (hidden : List ℕ → Bool) → left hidden result ≡ row_prints hidden (plain_body fields.now) values.now no_prints }
        ensures settled { IsOpen result }
    {
        OpenList {
            fields,
            values,
            row: &[],
            rows: &[],
        }
        .settled()
    }

    /// The items of the rows of an array.
    pub fn of_rows(row: &'a [Field], rows: &'a [Row]) -> OpenList<'a>
        requires { IsSound (plain_body row.now) }
        ensures left { (hidden : List ℕ → Bool) → left hidden result ≡ rows_prints (row_prints hidden (plain_body row.now)) rows.now }
        ensures settled { IsOpen result }
    {
        OpenList {
            fields: &[],
            values: &[],
            row,
            rows,
        }
        .settled()
    }

    /// Passes fields that take no value, also those of the next rows, so that the first field has the next item.
    fn settled(self) -> OpenList<'a>
        requires fields { IsSound (plain_body self.fields.now) }
        requires row { IsSound (plain_body self.row.now) }
        ensures left { (hidden : List ℕ → Bool) → left hidden result ≡ left hidden self.entry }
        ensures settled { IsOpen result }
    {
        let row = self.row;
        let mut fields = passed(self.fields);
        let mut values = self.values;
        let mut rows = self.rows;
        'rows: while fields.is_empty() {
            let Some((first, others)) = rows.split_first() else {
                break;
            };
            fields = passed(row);
            values = first.as_slice();
            rows = others;
        }
        OpenList {
            fields,
            values,
            row,
            rows,
        }
    }

    /// Whether an item is left: then a comma stands before it.
    pub fn has_more(&self) -> bool
        requires { IsOpen self.now }
        ensures { (hidden : List ℕ → Bool) → comma (left hidden self.now) ≡ comma_if result }
    {
        !self.fields.is_empty()
    }

    /// The first item, where one is left.
    pub fn first(self) -> Option<Item<'a>>
        requires { IsOpen self }
        ensures { MatchOption result ((hidden : List ℕ → Bool) → left hidden self.entry ≡ no_prints) (λ item. IsFirst self.entry item) }
    {
        let (field, fields) = self.fields.split_first()?;
        let next = next_value(true, self.values);
        let rest = OpenList {
            fields,
            values: next.others,
            row: self.row,
            rows: self.rows,
        };
        Some(Item {
            field,
            value: next.value,
            others: rest.settled(),
        })
    }
}
