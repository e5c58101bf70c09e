//! Names in expressions, and the fields that give or tell them. See `specs/Passed`.

ghost use Rattle.std.specs.Prelude.{◌≡◌};
ghost use Rattle.std.specs.Str.{str_to_ascii_lowercase};
ghost use Rattle.rz_types_fields.specs.Field.{plain_body, plain_field};
ghost use Rattle.rz_types_fields.specs.Solve.{is_same_key};
ghost use Rattle.rz_types_fields.specs.Passed.{counts_rows, declares, gives_count, gives_key, gives_rows, has_label, is_known, is_label, nothing_passed, stands_at, states, states_key};
ghost use Rattle.rz_expr.specs.NameKey.{key_of};

use crate::Field;
use rz_core::Word;
use rz_expr::{Key, value_outside};

/// Whether a name has a value outside of all fields.
#[tactic(auto, using(crate::proofs::SameNames::outside_is))]
pub fn is_predefined(key: Key<'_>) -> bool
    ensures { result ≡ is_known nothing_passed (key_of key.entry) }
{
    value_outside(key).is_some()
}

/// Whether two names are the same and of the same kind.
#[tactic(auto, using(crate::proofs::SameNames::same_name))]
pub fn is_same_key(one: Key<'_>, other: Key<'_>) -> bool
    ensures { result ≡ is_same_key (key_of one.entry) (key_of other.entry) }
{
    match (one, other) {
        (Key::Place(one), Key::Place(other)) => one.is(other.bytes.as_slice()),
        (Key::Count(one), Key::Count(other)) => one.is(other.bytes.as_slice()),
        (Key::Rows(one), Key::Rows(other)) => one.is(other.bytes.as_slice()),
        (Key::PlaceIn(one, row), Key::PlaceIn(other, number)) => {
            one.is(other.bytes.as_slice()) && row == number
        }
        (Key::Row(one), Key::Row(other)) => one.is(other.bytes.as_slice()),
        _ => false,
    }
}

/// Whether a name is the number of rows of an array of this name.
pub fn counts_rows(name: &Word, key: Key<'_>) -> bool
    ensures { result ≡ counts_rows name.now.bytes (key_of key.entry) }
{
    is_same_key(Key::Count(name), key)
}

/// Whether the name of an array gives this name a value.
pub fn gives_count(name: &Option<Word>, key: Key<'_>) -> bool
    ensures { result ≡ gives_count name.now (key_of key.entry) }
{
    match name {
        Some(name) => counts_rows(name, key),
        None => false,
    }
}

/// Whether what an expression names is the place of a label with this name, in whatever case.
pub fn stands_at(name: &Word, key: Key<'_>) -> bool
    ensures { result ≡ stands_at name.now.bytes (key_of key.entry) }
{
    is_same_key(Key::Place(name), key)
}

/// Whether a field is a label of this name.
pub fn is_label(field: &Field, key: Key<'_>) -> bool
    ensures { result ≡ is_label (plain_field field.now) (key_of key.entry) }
{
    match field {
        Field::Label(name) => stands_at(name, key),
        _ => false,
    }
}

/// Whether a label of this name stands directly in a body.
fn has_label(row: &[Field], label: &Word) -> bool
    ensures { result ≡ has_label (plain_body row.now) (str_to_ascii_lowercase label.now.bytes) }
{
    for field in row {
        if is_label(field, Key::Place(label)) {
            return true;
        }
    }
    false
}

/// Whether a key is that of a label directly in these rows: by their number, or by its place in one of them.
pub fn gives_rows(row: &[Field], key: Key<'_>) -> bool
    ensures { result ≡ gives_rows (plain_body row.now) (key_of key.entry) }
{
    match key {
        Key::Rows(label) | Key::PlaceIn(label, _) => has_label(row, label),
        Key::Place(_) | Key::Count(_) | Key::Row(_) => false,
    }
}

/// Whether a field gives a name a value.
pub fn gives_key(field: &Field, key: Key<'_>) -> bool
    ensures { result ≡ gives_key (plain_field field.now) (key_of key.entry) }
{
    match field {
        Field::Array(array) => {
            gives_count(&array.name, key) || gives_rows(array.row.as_slice(), key)
        }
        Field::Label(name) => stands_at(name, key),
        _ => false,
    }
}

/// Whether one of the fields of a body gives a name a value.
pub fn declares(row: &[Field], key: Key<'_>) -> bool
    ensures { result ≡ declares (plain_body row.now) (key_of key.entry) }
{
    for field in row {
        if gives_key(field, key) {
            return true;
        }
    }
    false
}

/// Whether a field tells a name by a stated count.
fn states_key(field: &Field, key: Key<'_>) -> bool
    ensures { result ≡ states_key (plain_field field.now) (key_of key.entry) }
{
    match field {
        Field::Array(array) => array.count.is_some() && gives_count(&array.name, key),
        _ => false,
    }
}

/// Whether one of the fields of a body tells a name by a stated count.
pub fn states(row: &[Field], key: Key<'_>) -> bool
    ensures { result ≡ states (plain_body row.now) (key_of key.entry) }
{
    for field in row {
        if states_key(field, key) {
            return true;
        }
    }
    false
}
