//! The places that the labels of a row have at its end. What they are is in `specs/Places`.

ghost use Rattle.std.specs.Prelude.{◌≡◌, OnOk, Some};
ghost use Rattle.rz_expr.specs.Environment.{place_key};
ghost use Rattle.rz_layout.specs.Places.{AddsPlaces, AreStanding, IsStanding, Stands};
ghost use Rattle.rz_types_fields.specs.Field.{field_and, no_fields, plain_body, plain_field};
ghost use Rattle.rz_types_fields.specs.Known.{known};

use rz_core::{NoMemory, Word};
use rz_expr::Key;
use rz_types::Field;
use rz_types_fields::{Notes, value_noted};

/// Appends the places of the labels that stand directly in a body to others, as they are noted.
pub fn push_places(
    fields: &[Field],
    notes: &Notes<'_>,
    places: &mut Vec<i32>,
) -> Result<(), NoMemory>
    requires { AreStanding (known notes.now.items) (plain_body fields.now) }
    ensures { OnOk result (AddsPlaces (known notes.now.items) (plain_body fields.now) places.old.items places.new.items) }
{
    for field in fields {
        push_place(field, notes, places)?;
    }
    Ok(())
}

/// Appends the place of a field, where it is a label.
fn push_place(field: &Field, notes: &Notes<'_>, places: &mut Vec<i32>) -> Result<(), NoMemory>
    requires { IsStanding (known notes.now.items) (plain_field field.now) }
    ensures { OnOk result (AddsPlaces (known notes.now.items) (field_and (plain_field field.now) no_fields) places.old.items places.new.items) }
{
    if let Field::Label(name) = field {
        places.push(place_noted(name, notes))?;
    }
    Ok(())
}

/// The place that is noted of a label.
fn place_noted(name: &Word, notes: &Notes<'_>) -> i32
    requires { Stands (known notes.now.items) name.now.bytes }
    ensures { (known notes.now.items).give (place_key name.now.bytes) ≡ Some result }
{
    value_noted(notes, Key::Place(name)).unwrap() as i32
}
