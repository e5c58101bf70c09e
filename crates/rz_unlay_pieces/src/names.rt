//! What is known of the names of arrays and of labels. What a claim tells is in `specs/Pieces`, what notes mean in
//! `rz_types_fields`, in `specs/Known`.

ghost use Rattle.std.specs.Prelude.{◌≡◌, IfOk, List, OnOk, Some, length, pos, true};
ghost use Rattle.rz_expr.specs.Environment.{count_key, place_key, Environment};
ghost use Rattle.rz_types_fields.specs.Field.{plain_body};
ghost use Rattle.rz_types_fields.specs.FlatRows.{AllPlacesAre};
ghost use Rattle.rz_types_fields.specs.Front.{names_inside};
ghost use Rattle.rz_types_fields.specs.Known.{known, met, which_of, Grew};
ghost use Rattle.rz_types_fields.specs.Passed.{met_inside, stands_at};
ghost use Rattle.rz_types_fields.specs.RowLabels.{also_rows};
ghost use Rattle.rz_unlay_pieces.specs.Names.{told};
ghost use Rattle.rz_unlay_pieces.specs.Pieces.{agrees, claim, claim_count};
ghost use Rattle.rz_unlay_pieces.specs.Seen.{met_counted, met_in_rows, met_placed};

use crate::learnt::Learnt;
use rz_core::{NoMemory, Word};
use rz_expr::Key;
use rz_types_fields::{Field, InRow, Note, note_front, note_rows, value_noted};

/// Enters a body: what was known of its own names is hidden, the stated numbers of its arrays are known, and so
/// is the number of the row, where it is one of an array with a name.
pub fn enter<'a>(
    fields: &'a [Field],
    which: Option<InRow<'a>>,
    learnt: &mut Learnt<'a>,
) -> Result<(), NoMemory>
    ensures known { OnOk result (known learnt.new.notes.items ≡ names_inside (which_of which.entry) (plain_body fields.now) (known learnt.old.notes.items)) }
    ensures met { OnOk result (met learnt.new.notes.items ≡ met_inside (plain_body fields.now) (met learnt.old.notes.items)) }
    ensures grew { OnOk result (Grew learnt.old.notes.items learnt.new.notes.items) }
    ensures marks { OnOk result (learnt.new.marks ≡ learnt.old.marks) }
{
    note_front(fields, which, &mut learnt.notes)?;
    Ok(())
}

/// Notes that the array of this name, if it has one, has so many rows. False, with no note, if it is known to have another
/// number.
pub fn claim_count<'a>(
    name: &'a Option<Word>,
    rows: u32,
    learnt: &mut Learnt<'a>,
) -> Result<bool, NoMemory>
    ensures known { IfOk result (λ holds. told holds (known learnt.new.notes.items) ≡ claim_count name.now rows (known learnt.old.notes.items)) }
    ensures met { IfOk result (λ holds. holds ≡ true → met learnt.new.notes.items ≡ met_counted name.now (met learnt.old.notes.items)) }
    ensures grew { IfOk result (λ holds. Grew learnt.old.notes.items learnt.new.notes.items) }
    ensures marks { IfOk result (λ holds. learnt.new.marks ≡ learnt.old.marks) }
{
    match name {
        Some(name) => claim_rows(name, i64::from(rows), learnt),
        None => Ok(true),
    }
}

/// Notes that the array of this name has so many rows.
fn claim_rows<'a>(name: &'a Word, rows: i64, learnt: &mut Learnt<'a>) -> Result<bool, NoMemory>
    ensures known { IfOk result (λ holds. told holds (known learnt.new.notes.items) ≡ claim (count_key name.now.bytes) rows (known learnt.old.notes.items)) }
    ensures met { IfOk result (λ holds. holds ≡ true → met learnt.new.notes.items ≡ met_counted (Some name.now) (met learnt.old.notes.items)) }
    ensures grew { IfOk result (λ holds. Grew learnt.old.notes.items learnt.new.notes.items) }
    ensures marks { IfOk result (λ holds. learnt.new.marks ≡ learnt.old.marks) }
{
    if agrees(
        value_noted(&learnt.notes, Key::Count(name)),
        i128::from(rows),
    ) {
        learnt.notes.push(Note::Counted(name, rows))?;
        Ok(true)
    } else {
        Ok(false)
    }
}

/// Notes that all rows of an array were read: so many, in which the labels directly in them stand at these places, those of each
/// row in order, row by row.
pub fn learn_rows<'a>(
    row: &'a [Field],
    count: u64,
    places: Vec<i32>,
    learnt: &mut Learnt<'a>,
) -> Result<(), NoMemory>
    ensures known { (ends : List Environment) → length ends ≡ count → AllPlacesAre (plain_body row.now) ends places.items → OnOk result (known learnt.new.notes.items ≡ also_rows (plain_body row.now) ends (known learnt.old.notes.items)) }
    ensures met { OnOk result (met learnt.new.notes.items ≡ met_in_rows (plain_body row.now) (met learnt.old.notes.items)) }
    ensures grew { OnOk result (Grew learnt.old.notes.items learnt.new.notes.items) }
    ensures marks { OnOk result (learnt.new.marks ≡ learnt.old.marks) }
{
    note_rows(row, count, places, &mut learnt.notes)?;
    Ok(())
}

/// Notes that the label of this name stands at a place, in bits. False if another place of it was told.
pub fn claim_place<'a>(name: &'a Word, at: i32, learnt: &mut Learnt<'a>) -> Result<bool, NoMemory>
    ensures known { IfOk result (λ holds. told holds (known learnt.new.notes.items) ≡ claim (place_key name.now.bytes) at (known learnt.old.notes.items)) }
    ensures met { IfOk result (λ holds. holds ≡ true → met learnt.new.notes.items ≡ met_placed name.now (met learnt.old.notes.items)) }
    ensures grew { IfOk result (λ holds. Grew learnt.old.notes.items learnt.new.notes.items) }
    ensures marks { IfOk result (λ holds. learnt.new.marks ≡ learnt.old.marks) }
{
    if agrees(value_noted(&learnt.notes, Key::Place(name)), i128::from(at)) {
        learnt.notes.push(Note::Placed(name, at))?;
        Ok(true)
    } else {
        Ok(false)
    }
}

/// Whether no other value is known.
fn agrees(known: Option<i128>, value: i128) -> bool
    ensures { result ≡ agrees known value }
{
    match known {
        Some(known) => known == value,
        None => true,
    }
}
