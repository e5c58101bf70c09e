//! The keys of cases; changed only with `specs/Width`.

ghost use Rattle.std.specs.Prelude.{IfOk, OnOk, ◌≡◌, ◌++◌, option_map};
ghost use Rattle.rz_types_fields.specs.Field.{plain_body, plain_field, plain_number};
ghost use Rattle.rz_types_fields.specs.Width.{capped, case_keys, field_key, key_bits};

use crate::width::{capped, plus};
use crate::{Field, NumField, fixed_width, stored_number};
use rz_core::NoMemory;
use rz_expr::constant_of;
use std::alloc::Global;

/// The key of a case: a number with a fixed value among its fields. (MPW Rez.)
#[derive(Clone, Copy, PartialEq, Eq)]
pub struct CaseKey {
    /// How many bits it has.
    pub width: u32,
    /// How many bits stand before it in the case, where that is the same for every row: at most one more than a
    /// resource can have.
    pub distance: Option<u64>,
    /// Its bits, as a number.
    pub bits: u32,
}

/// The keys among the fields of a case, in order. (MPW Rez.)
pub fn case_keys(alloc: Global, row: &[Field]) -> Result<Vec<CaseKey>, NoMemory>
    ensures { IfOk result (λ keys. keys.items ≡ case_keys (plain_body row.now)) }
{
    let mut keys = Vec::new(alloc);
    let mut before = Some(0);
    for field in row {
        push_key(&mut keys, before, field)?;
        before = plus(before, fixed_width(field));
    }
    Ok(keys)
}

/// Appends the key that a field is, after so many bits.
fn push_key(keys: &mut Vec<CaseKey>, before: Option<u64>, field: &Field) -> Result<(), NoMemory>
    ensures { OnOk result (keys.new.items ≡ keys.old.items ++ field_key before (plain_field field.now)) }
{
    let Field::Num(number) = field else {
        return Ok(());
    };
    if number.key {
        keys.push(CaseKey {
            width: number.width.unsigned_abs(),
            distance: all_capped(before),
            bits: key_bits(number),
        })?;
    }
    Ok(())
}

/// The bits of a key, as a number: those of the value of its constant, 0 where it has none. (MPW Rez.)
pub fn key_bits(number: &NumField) -> u32
    ensures { result ≡ key_bits number.now.width (plain_number number.now).fixed }
{
    match &number.fixed {
        Some(value) => stored_number(number.width, constant_of(value).unwrap_or(0)),
        None => 0,
    }
}

fn all_capped(bits: Option<u64>) -> Option<u64>
    ensures { result ≡ option_map capped bits }
{
    Some(capped(bits?))
}
