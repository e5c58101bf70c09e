//! What the fields before one tell of names, as notes. What is known by them is in `specs/Notes`.

ghost use Rattle.std.specs.Prelude.{◌≡◌, not, IfOk, OnOk, map, option_map};
ghost use Rattle.std.specs.List.{list_all};
ghost use Rattle.rz_expr.specs.NameKey.{key_of};
ghost use Rattle.rz_expr.specs.Term.{term_of};
ghost use Rattle.rz_types_fields.specs.Field.{plain_array, plain_body, plain_field, plain_text};
ghost use Rattle.rz_types_fields.specs.Passed.{gives_count, gives_key};
ghost use Rattle.rz_types_fields.specs.Piece.{terms_of_text};
ghost use Rattle.rz_types.specs.Notes.{first_unknown, known, passed, Meets};
ghost use Rattle.rz_types.specs.Readable.{all_known, is_known_there};

use crate::ahead::{Ahead, is_near};
use rz_core::{NoMemory, Word};
use rz_expr::{Expr, Key, Mention, MentionTest, first_mention};
use rz_types_fields::{
    ArrayField, Field, Note, Notes, TextField, is_met, is_noted, note_front, note_rows,
    text_expressions,
};
use std::alloc::Global;

/// What the fields before one tell of names.
#[derive(Drop)]
pub struct PassedNotes<'a> {
    /// The labels and arrays that stand before, and the bodies that were entered: at the front of a body its own names
    /// aren't met.
    pub met: Notes<'a>,
    /// The names that numbers told, and the bodies that were entered: at the front of a body, of its own names the stated
    /// counts are told.
    pub told: Notes<'a>,
    /// What gives memory.
    pub alloc: Global,
}

impl<'a> PassedNotes<'a> {
    ghost use Rattle.std.specs.Prelude.{◌≡◌, true, IfOk, OnOk};
    ghost use Rattle.rz_expr.specs.NameKey.{key_of};
    ghost use Rattle.rz_types_fields.specs.Field.{plain_body, plain_field};
    ghost use Rattle.rz_types_fields.specs.Passed.{at_front, nothing_passed};
    ghost use Rattle.rz_types.specs.Notes.{also_met, also_told, may_be_told, passed, GrewBoth};

    /// No notes.
    pub fn new(alloc: Global) -> PassedNotes<'a>
        ensures { passed result ≡ nothing_passed }
    {
        PassedNotes {
            met: Notes::new(alloc),
            told: Notes::new(alloc),
            alloc,
        }
    }

    /// Notes that a body is entered.
    pub fn enter(&mut self, row: &'a [Field]) -> Result<(), NoMemory>
        ensures passed { OnOk result (passed self.new ≡ at_front (plain_body row.now) (passed self.old)) }
        ensures grew { OnOk result (GrewBoth self.old self.new) }
    {
        note_front(row, None, &mut self.met)?;
        note_front(row, None, &mut self.told)?;
        Ok(())
    }

    /// Notes that a field stands before.
    pub fn meet(&mut self, field: &'a Field) -> Result<(), NoMemory>
        ensures passed { OnOk result (passed self.new ≡ also_met (plain_field field.now) (passed self.old)) }
        ensures grew { OnOk result (GrewBoth self.old self.new) }
    {
        meet_field(self.alloc, field, &mut self.met)?;
        Ok(())
    }

    /// Notes that a number tells a name, where a number can.
    pub fn tell(&mut self, key: Key<'a>) -> Result<bool, NoMemory>
        ensures passed { IfOk result (λ told. told ≡ true → passed self.new ≡ also_told (key_of key.entry) (passed self.old)) }
        ensures told { IfOk result (λ told. told ≡ may_be_told (key_of key.entry)) }
        ensures grew { OnOk result (GrewBoth self.old self.new) }
    {
        match key {
            Key::Place(name) => self.told.push(Note::PlaceTold(name, 0))?,
            Key::Count(name) => self.told.push(Note::Told(name, 0))?,
            Key::Rows(_) | Key::PlaceIn(..) | Key::Row(_) => return Ok(false),
        }
        Ok(true)
    }
}

/// Notes that what a field gives is met.
fn meet_field<'a>(alloc: Global, field: &'a Field, met: &mut Notes<'a>) -> Result<(), NoMemory>
    ensures { OnOk result (Meets (gives_key (plain_field field.now)) met.old.items met.new.items) }
{
    match field {
        Field::Label(name) => met.push(Note::Placed(name, 0))?,
        Field::Array(array) => meet_array(alloc, array, met)?,
        _ => {}
    }
    Ok(())
}

/// Notes that an array is met, and the labels in its rows.
fn meet_array<'a>(alloc: Global, array: &'a ArrayField, met: &mut Notes<'a>) -> Result<(), NoMemory>
    ensures { OnOk result (Meets (gives_key (plain_array array.now)) met.old.items met.new.items) }
{
    meet_count(&array.name, met)?;
    note_rows(array.row.as_slice(), 0, Vec::new(alloc), met)?;
    Ok(())
}

/// Notes that the number of rows of an array of this name is met, where it has one.
fn meet_count<'a>(name: &'a Option<Word>, met: &mut Notes<'a>) -> Result<(), NoMemory>
    ensures { OnOk result (Meets (gives_count name.now) met.old.items met.new.items) }
{
    match name {
        Some(name) => met.push(Note::Counted(name, 0))?,
        None => {}
    }
    Ok(())
}

/// Whether a name is told after these notes.
pub fn is_told(notes: &PassedNotes<'_>, key: Key<'_>) -> bool
    ensures { result ≡ (passed notes.now).told (key_of key.entry) }
{
    is_noted(&notes.told, key)
}

/// Whether a name is known at the first of these fields.
pub fn is_known(ahead: &Ahead<'_>, notes: &PassedNotes<'_>, key: Key<'_>) -> bool
    ensures { result ≡ known (plain_body ahead.now.fields.now) notes.now (key_of key.entry) }
{
    is_near(ahead, key) || is_met(&notes.met, key) || is_told(notes, key)
}

/// What isn't known at the first of these fields, or isn't met where bits are asked for at it.
#[derive(Clone, Copy)]
struct Unknown<'a> {
    ahead: &'a Ahead<'a>,
    notes: &'a PassedNotes<'a>,
}

impl MentionTest for Unknown<'_> {
    ghost test = { λ test mention. not (is_known_there (passed test.notes.now).met (known (plain_body test.ahead.now.fields.now) test.notes.now) mention) };

    fn passes(&self, mention: Mention<'_>) -> bool {
        match mention {
            Mention::Alone(name) => !is_known(self.ahead, self.notes, Key::Place(name)),
            Mention::Indexed(name) => !is_known(self.ahead, self.notes, Key::Rows(name)),
            Mention::Counted(name) => !is_known(self.ahead, self.notes, Key::Count(name)),
            Mention::WithBits(name) => !is_met(&self.notes.met, Key::Place(name)),
            Mention::Around(_) | Mention::Fact(_) => false,
        }
    }
}

/// The first name in an expression that isn't known at the first of these fields, or isn't met where bits are asked for
/// at it.
pub fn first_unknown<'a>(
    ahead: &Ahead<'_>,
    notes: &PassedNotes<'_>,
    expr: &'a Expr,
) -> Option<Key<'a>>
    ensures { option_map key_of result ≡ first_unknown (passed notes.now).met (known (plain_body ahead.now.fields.now) notes.now) (term_of expr.now) }
{
    match first_mention(expr, &Unknown { ahead, notes }) {
        Some(mention) => mention.key(),
        None => None,
    }
}

/// Whether all names in an expression are known at the first of these fields, and met where bits are asked for at them.
pub fn all_known(ahead: &Ahead<'_>, notes: &PassedNotes<'_>, expr: &Expr) -> bool
    ensures { result ≡ all_known (passed notes.now).met (known (plain_body ahead.now.fields.now) notes.now) (term_of expr.now) }
{
    first_unknown(ahead, notes, expr).is_none()
}

/// Whether all names in the size of a text and in the formats of its fixed parts are.
pub fn all_known_in_text(
    alloc: Global,
    ahead: &Ahead<'_>,
    notes: &PassedNotes<'_>,
    text: &TextField,
) -> Result<bool, NoMemory>
    ensures { IfOk result (λ all. all ≡ list_all (all_known (passed notes.now).met (known (plain_body ahead.now.fields.now) notes.now)) (terms_of_text (plain_text text.now))) }
{
    let exprs = text_expressions(alloc, text)?;
    Ok(are_known(ahead, notes, &exprs))
}

/// Whether all names in these expressions are.
fn are_known(ahead: &Ahead<'_>, notes: &PassedNotes<'_>, exprs: &[&Expr]) -> bool
    ensures { result ≡ list_all (all_known (passed notes.now).met (known (plain_body ahead.now.fields.now) notes.now)) (map (λ expr. term_of expr.now) exprs.now) }
{
    for expr in exprs {
        if !all_known(ahead, notes, expr) {
            return false;
        }
    }
    true
}
