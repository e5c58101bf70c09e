//! The values of a row, taken one after another. See `specs/Laid` and `specs/Spells` of `rz_types_fields`.

ghost use Rattle.std.specs.Prelude.{◌≡◌, option_map};
ghost use Rattle.rz_types_fields.specs.Laid.{first_value, line_in, number_in, other_values, rows_in, text_in};
ghost use Rattle.rz_types_fields.specs.Spells.{choice_in, group_in};

use rz_types_fields::{Row, Tree};

/// A value of a row, where one is taken, and the values after it.
#[derive(Drop)]
pub struct NextValue<'a> {
    /// The value.
    pub value: Option<&'a Tree>,
    /// Those after it.
    pub others: &'a [Tree],
}

/// The first of the values, where one is taken, and the others.
pub fn next_value(takes: bool, values: &[Tree]) -> NextValue<'_>
    ensures value { option_map (λ v. v.now) result.value ≡ first_value takes values.now }
    ensures others { result.others.now ≡ other_values takes values.now }
{
    if takes {
        if let Some((first, others)) = values.split_first() {
            return NextValue {
                value: Some(first),
                others,
            };
        }
    }
    NextValue {
        value: None,
        others: values,
    }
}

/// The number that a value of a row is.
pub fn number_in(value: Option<&Tree>) -> u32
    ensures { result ≡ number_in (option_map (λ v. v.now) value.entry) }
{
    match value {
        Some(Tree::Number(number)) => *number,
        _ => 0,
    }
}

/// The bytes that a value of a row is.
pub fn text_in<'a>(value: Option<&'a Tree>) -> &'a [u8]
    ensures { result.now ≡ text_in (option_map (λ v. v.now) value.entry) }
{
    match value {
        Some(Tree::Text(bytes)) => bytes.as_slice(),
        _ => &[],
    }
}

/// The numbers that a value of a row is.
pub fn group_in<'a>(value: Option<&'a Tree>) -> &'a [u16]
    ensures { result.now ≡ group_in (option_map (λ v. v.now) value.entry) }
{
    match value {
        Some(Tree::Group(numbers)) => numbers.as_slice(),
        _ => &[],
    }
}

/// The rows that a value of a row is.
pub fn rows_in<'a>(value: Option<&'a Tree>) -> &'a [Row]
    ensures { result.now ≡ rows_in (option_map (λ v. v.now) value.entry) }
{
    match value {
        Some(Tree::Rows(rows)) => rows.as_slice(),
        _ => &[],
    }
}

/// The name of the case that a value of a row chooses.
pub fn choice_in<'a>(value: Option<&'a Tree>) -> &'a [u8]
    ensures { result.now ≡ choice_in (option_map (λ v. v.now) value.entry) }
{
    match value {
        Some(Tree::Choice(name, _)) => name.bytes.as_slice(),
        _ => &[],
    }
}

/// The values of the fields of that case.
pub fn line_in<'a>(value: Option<&'a Tree>) -> &'a [Tree]
    ensures { result.now ≡ line_in (option_map (λ v. v.now) value.entry) }
{
    match value {
        Some(Tree::Choice(_, row)) => row.as_slice(),
        _ => &[],
    }
}
