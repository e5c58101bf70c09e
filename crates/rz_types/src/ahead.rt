//! The fields from one of a body on, and what is near at it. See `specs/Ahead`.

ghost use Rattle.std.specs.Prelude.{◌≡◌, drop, option_map, IfOk, OnOk};
ghost use Rattle.rz_expr.specs.NameKey.{key_of};
ghost use Rattle.rz_types_fields.specs.Field.{plain_body, plain_field};
ghost use Rattle.rz_types_fields.specs.Passed.{is_measured, is_near};
ghost use Rattle.rz_types_fields.specs.FlatRows.{label_count};
ghost use Rattle.rz_types.specs.Ahead.{label_of, measured, AreNear, IsNearer, StayNear};

use rz_core::{NoMemory, Word};
use rz_expr::Key;
use rz_types_fields::{Field, Note, Notes, fixed_width, is_noted};
use std::alloc::Global;

/// The fields of a body from one on.
#[derive(Drop)]
pub struct Ahead<'a> {
    /// The fields.
    pub fields: &'a [Field],
    /// The labels among them at a known distance from the first, of which the last note is the nearest.
    pub near: Notes<'a>,
    ghost are_near: { AreNear (plain_body fields.now) near.items },
}

/// All fields of a body.
pub fn all_ahead<'a>(alloc: Global, fields: &'a [Field]) -> Result<Ahead<'a>, NoMemory>
    ensures { IfOk result (λ ahead. (ahead.fields.now ≡ fields.now) × StayNear (plain_body fields.now) ahead.near.items) }
{
    let mut near = Notes::new(alloc);
    let count = count_measured(fields);
    for later in 0..count {
        note_near(&fields[count - 1 - later], &mut near)?;
    }
    Ok(Ahead { fields, near })
}

/// The fields after the first.
pub fn next_ahead<'a>(alloc: Global, ahead: Ahead<'a>) -> Result<Ahead<'a>, NoMemory>
    requires { StayNear (plain_body ahead.fields.now) ahead.near.items }
    ensures { IfOk result (λ next. (next.fields.now ≡ drop 1 ahead.entry.fields.now) × StayNear (plain_body next.fields.now) next.near.items) }
{
    let Ahead { fields, mut near } = ahead;
    let Some((field, rest)) = fields.split_first() else {
        return Ok(Ahead { fields, near });
    };
    if is_measured(field) {
        let count = near.len().saturating_sub(count_labels(field));
        near.truncate(count);
        Ok(Ahead { fields: rest, near })
    } else {
        drop(near);
        all_ahead(alloc, rest)
    }
}

/// Whether a label of this name stands in these fields at a known distance.
pub fn is_near(ahead: &Ahead<'_>, key: Key<'_>) -> bool
    ensures { result ≡ is_near (plain_body ahead.now.fields.now) (key_of key.entry) }
{
    is_noted(&ahead.near, key)
}

/// How many fields are measured before the first that isn't.
fn count_measured(fields: &[Field]) -> usize
    ensures { result ≡ measured (plain_body fields.now) }
{
    let mut count = 0;
    for field in fields {
        if !is_measured(field) {
            return count;
        }
        count += 1;
    }
    count
}

/// Whether what stands after a field is at a known distance.
fn is_measured(field: &Field) -> bool
    ensures { result ≡ is_measured (plain_field field.now) }
{
    match field {
        Field::Align(_) => true,
        _ => fixed_width(field).is_some(),
    }
}

/// Notes that a field is near, where it is a label.
fn note_near<'a>(field: &'a Field, near: &mut Notes<'a>) -> Result<(), NoMemory>
    ensures { OnOk result (IsNearer (plain_field field.now) near.old.items near.new.items) }
{
    match label_of(field) {
        Some(name) => near.push(Note::Placed(name, 0))?,
        None => {}
    }
    Ok(())
}

/// The name of a label.
fn label_of(field: &Field) -> Option<&Word>
    ensures { option_map (λ name. name.now) result ≡ label_of (plain_field field.now) }
{
    match field {
        Field::Label(name) => Some(name),
        _ => None,
    }
}

/// How many labels a field is: one or none.
fn count_labels(field: &Field) -> usize
    ensures { result ≡ label_count (plain_field field.now) }
{
    usize::from(matches!(field, Field::Label(_)))
}
