//! The rows of an array: where they end, and one row more. See `specs/Cursor`.

ghost use Rattle.std.specs.Prelude.{◌≡◌, ◌+◌, ◌<◌, ◌++◌, ◌∷◌, [], if◌then◌else◌, length, OnOk, Some, None};
ghost use Rattle.rz_bits.specs.View.{seen};
ghost use Rattle.rz_types_fields.specs.Field.{plain_body};
ghost use Rattle.rz_types_fields.specs.Known.{known, which_of};
ghost use Rattle.rz_types_fields.specs.RowLabels.{row_of};
ghost use Rattle.rz_unlay.specs.Cursor.{count_known, goes_on, is_over, most_rows, place_before, until_of};

use crate::came::{RowCame, RowsCame};
use rz_bits::BitView;
use rz_core::{NoMemory, Word};
use rz_expr::Key;
use rz_types_fields::{Field, InRow, Notes, fixed_widths, value_noted};
use rz_unlay_pieces::told_label;

/// Where the rows of an array end.
#[derive(Clone, Copy)]
pub enum Until {
    /// After so many rows.
    Count(u128),
    /// Where fewer than eight bits stand before this place, in bits.
    Before(u32),
    /// At just this place, in bits.
    At(u32),
}

impl Until {
    /// How many rows there may be: rows without bits never come to a place.
    pub fn most(self, view: &BitView<'_>) -> u128
        ensures { result ≡ most_rows self (length (seen view.now)) }
    {
        match self {
            Until::Count(count) => count,
            Until::Before(_) | Until::At(_) => u128::from(view.len()),
        }
    }

    /// Whether one row more is to be read after these.
    pub fn goes_on(self, rows: &RowsCame) -> bool
        ensures { result ≡ goes_on self (length rows.now.rows) rows.now.after }
    {
        match self {
            Until::Count(count) => (rows.rows.len() as u128) < count,
            Until::Before(stop) => u64::from(rows.after) + 8 <= u64::from(stop),
            Until::At(stop) => rows.after < stop,
        }
    }

    /// The rows, where they end as they must.
    pub fn over(self, rows: RowsCame) -> Option<RowsCame>
        ensures { result ≡ (if is_over self (length rows.rows) rows.after then Some rows else None) }
    {
        let is_over = match self {
            Until::Count(count) => rows.rows.len() as u128 == count,
            Until::Before(stop) => u64::from(stop) < u64::from(rows.after) + 8,
            Until::At(stop) => rows.after == stop,
        };
        if is_over {
            Some(rows)
        } else {
            drop(rows);
            None
        }
    }
}

/// Where the rows of an array of this name end: after as many as are stated or known, or else where the fields after the
/// array come to a label whose place is told, or to the end of the resource. `None` where nothing tells the end, where the
/// number is negative, or where the place would lie before the resource.
pub fn until_of(
    view: &BitView<'_>,
    name: &Option<Word>,
    count: Option<i32>,
    rest: &[Field],
    notes: &Notes<'_>,
) -> Option<Until>
    ensures { result ≡ until_of (length (seen view.now)) (plain_body rest.now) (known notes.now.items) (count_known (known notes.now.items) name.now count) }
{
    match count_known(name, count, notes) {
        Some(count) => {
            if count < 0 {
                None
            } else {
                Some(Until::Count(count as u128))
            }
        }
        None => match told_label(rest, notes, view.len()) {
            Some(told) => Some(Until::At(place_before(told.place, told.width)?)),
            None => Some(Until::Before(place_before(view.len(), fixed_widths(rest)?)?)),
        },
    }
}

/// The number of rows, where it is stated or known.
fn count_known(name: &Option<Word>, count: Option<i32>, notes: &Notes<'_>) -> Option<i128>
    ensures { result ≡ count_known (known notes.now.items) name.now count }
{
    match count {
        Some(count) => Some(i128::from(count)),
        None => match name {
            Some(name) => value_noted(notes, Key::Count(name)),
            None => None,
        },
    }
}

/// The place that is so many bits before another.
fn place_before(place: u32, width: u64) -> Option<u32>
    ensures { result ≡ place_before place width }
{
    let place = u64::from(place);
    if place < width {
        None
    } else {
        Some((place - width) as u32)
    }
}

/// Which row of the array of this name stands after these.
pub fn row_after<'a>(name: &'a Option<Word>, rows: &RowsCame) -> Option<InRow<'a>>
    requires { length rows.now.rows < 4294967295 }
    ensures { which_of result ≡ row_of name.now (length rows.now.rows + 1) }
{
    Some(InRow {
        array: name,
        number: rows.rows.len() as u64 + 1,
    })
}

/// Appends a row to others, and the places of its labels to theirs.
pub fn push_row(rows: &mut RowsCame, came: RowCame) -> Result<(), NoMemory>
    ensures rows { OnOk result (rows.new.rows ≡ rows.old.rows ++ came.row ∷ []) }
    ensures places { OnOk result (rows.new.places.items ≡ rows.old.places.items ++ came.places.items) }
    ensures after { OnOk result (rows.new.after ≡ came.after) }
    ensures left { OnOk result (rows.new.left ≡ came.left) }
{
    rows.places.extend_from_slice(came.places.as_slice())?;
    rows.after = came.after;
    rows.left = came.left;
    rows.rows.push(came.row)
}
