//! The number that an item gives to a number field, or its fault; changes with `specs/Matched`.

ghost use Rattle.std.specs.Prelude.{◌≡◌, ◌<◌, ◌^◌, nat_abs, IfOk, ◌↔◌, IsTrue};
ghost use Rattle.rz_core.specs.Stop.{Gives};
ghost use Rattle.rz_expr.specs.Term.{term_of};
ghost use Rattle.rz_stmt_items.specs.Item.{plain_item};
ghost use Rattle.rz_stmt_items.specs.Fits.{is_char};
ghost use Rattle.rz_stmt_items.specs.Matched.{char_value, expression_value, in_range, letter_value, number_for, value_for};
ghost use Rattle.rz_types.specs.Field.{plain_number};
ghost use Rattle.rz_types.specs.Text.{plain_parts};

use crate::Item;
use crate::fault::{out_of_range, too_long, wrong_kind};
use rz_core::{Facts, Fault, Mark, Stop};
use rz_expr::Expr;
use rz_types::{NumField, NumForm, Texts, fits_number, stored_number, symbol_number_of, text_of};
use std::alloc::Global;

/// The number that an item, at this position in its list, gives to a number.
pub(crate) fn number_for(
    alloc: Global,
    field: &NumField,
    item: &Item,
    position: u64,
    facts: &Facts,
) -> Result<u32, Stop<Fault>>
    requires { position < 2 ^ 63 }
    ensures number { Gives (number_for facts.now position (plain_number field.now) (plain_item item.now)) result }
    ensures small { IfOk result (λ number. number < 2 ^ nat_abs field.now.width) }
{
    let value = value_for(alloc, field, item, position, facts)?;
    Ok(stored_number(field.width, value))
}

/// The value of an item for a number.
fn value_for(
    alloc: Global,
    field: &NumField,
    item: &Item,
    position: u64,
    facts: &Facts,
) -> Result<i32, Stop<Fault>>
    requires { position < 2 ^ 63 }
    ensures { Gives (value_for facts.now position (plain_number field.now) (plain_item item.now)) result }
{
    match item {
        Item::Number(expr, mark) => expression_value(alloc, field, expr, *mark, facts),
        Item::Text(texts, mark) => char_value(alloc, field.form, texts, *mark, position, facts),
        Item::List(_, mark) => Err(wrong_kind(position, *mark)),
        Item::Named(_, _, mark) => Err(wrong_kind(position, *mark)),
    }
}

/// The value of an expression, in the range of the number.
fn expression_value(
    alloc: Global,
    field: &NumField,
    expr: &Expr,
    mark: Mark,
    facts: &Facts,
) -> Result<i32, Stop<Fault>>
    ensures { Gives (expression_value facts.now (plain_number field.now) (term_of expr.now) mark) result }
{
    let value = symbol_number_of(alloc, expr, mark, facts, &field.symbols)?;
    in_range(field, mark, value)
}

/// The value, where it is in the range of the number.
fn in_range(field: &NumField, mark: Mark, value: i32) -> Result<i32, Stop<Fault>>
    ensures { Gives (in_range (plain_number field.now) mark value) result }
{
    if fits_number(field.form, field.width, value) {
        Ok(value)
    } else {
        Err(out_of_range(mark, value))
    }
}

/// The value of a text, which a `char` takes and no other number.
fn char_value(
    alloc: Global,
    form: NumForm,
    texts: &Texts,
    mark: Mark,
    position: u64,
    facts: &Facts,
) -> Result<i32, Stop<Fault>>
    requires { position < 2 ^ 63 }
    ensures { Gives (char_value (is_char form) facts.now position (plain_parts texts.now) mark) result }
{
    if !is_char(form) {
        return Err(wrong_kind(position, mark));
    }
    let bytes = text_of(alloc, texts, mark, facts)?;
    letter_value(mark, bytes.as_slice())
}

fn is_char(form: NumForm) -> bool
    ensures { result ≡ is_char form }
{
    match form {
        NumForm::Char => true,
        _ => false,
    }
}

/// The value of one byte at most.
fn letter_value(mark: Mark, bytes: &[u8]) -> Result<i32, Stop<Fault>>
    ensures { Gives (letter_value mark bytes.now) result }
{
    match bytes {
        [] => Ok(0),
        [byte] => Ok(i32::from(*byte)),
        _ => Err(too_long(mark, bytes)),
    }
}
