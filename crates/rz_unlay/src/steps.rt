//! Steps between fields: what is after a field, one value and one label more. See `specs/Rows`.

ghost use Rattle.std.specs.Prelude.{◌≡◌, ◌≤◌, ◌++◌, length, drop, OnOk};
ghost use Rattle.rz_types_fields.specs.Field.{plain_field};
ghost use Rattle.rz_unlay.specs.Rows.{label_places, pushed};

use rz_core::NoMemory;
use rz_types_fields::{Field, Row, Tree};

/// The fields after so many.
pub fn tail(fields: &[Field], count: usize) -> &[Field]
    requires { count ≤ length fields.now }
    ensures { result.now ≡ drop count fields.now }
{
    fields.split_at(count).1
}

/// Appends a value to a row, where there is one.
pub fn push_value(row: &mut Row, value: Option<Tree>) -> Result<(), NoMemory>
    ensures { OnOk result (row.new ≡ pushed row.old value) }
{
    match value {
        Some(value) => row.push(value),
        None => Ok(()),
    }
}

/// Appends the place of a label, where the field is one.
pub fn push_label(places: &mut Vec<i32>, field: &Field, at: u32) -> Result<(), NoMemory>
    requires { at ≤ 134217696 }
    ensures { OnOk result (places.new.items ≡ places.old.items ++ label_places (plain_field field.now) at) }
{
    match field {
        Field::Label(_) => {
            places.push(at as i32)?;
            Ok(())
        }
        _ => Ok(()),
    }
}
