//! The key of a case; changes with `specs/Key`.

ghost use Rattle.std.specs.Prelude.{◌≡◌, IfOk, option_map};
ghost use Rattle.rz_core.specs.Decided.{Decided};
ghost use Rattle.rz_stmt_fields.specs.Form.{boxed_term, field_form};
ghost use Rattle.rz_stmt_fields.specs.Held.{held_front};
ghost use Rattle.rz_stmt_fields.specs.Key.{is_key_value, IsKey, IsKeyFront, IsKeyNumber};
ghost use Rattle.rz_types_fields.specs.Shape.{may_be_key};

use crate::field_word::{FieldWord, Front, front_in};
use crate::form::{FieldExpr, NumberExpr};
use crate::number_field::read_number;
use rz_core::NoMemory;
use rz_expr::{Expr, is_constant, one_expression};
use rz_lex::Token;
use rz_stmt_brackets::pieces_are_cut;
use rz_types_fields::NumForm;
use std::alloc::Global;

/// The key that the tokens after `key` are: a number of a type that a key may have, with a constant as its fixed
/// value. `None` exactly where they are none. (MPW Rez.)
pub fn read_key(alloc: Global, tokens: &[Token]) -> Result<Option<FieldExpr>, NoMemory>
    ensures { IfOk result (λ field. Decided (IsKey tokens.now) (option_map field_form field)) }
{
    match front_in(tokens, false, None) {
        Some(front) => read_front(alloc, &front),
        None => Ok(None),
    }
}

/// The key that a front begins.
fn read_front(alloc: Global, front: &Front) -> Result<Option<FieldExpr>, NoMemory>
    ensures { IfOk result (λ field. Decided (IsKeyFront (held_front front.now)) (option_map field_form field)) }
{
    match front.word {
        FieldWord::Number(form) => {
            if may_be_key(form) {
                read_key_number(alloc, form, front)
            } else {
                Ok(None)
            }
        }
        _ => Ok(None),
    }
}

fn read_key_number(
    alloc: Global,
    form: NumForm,
    front: &Front,
) -> Result<Option<FieldExpr>, NoMemory>
    ensures { IfOk result (λ field. Decided (IsKeyNumber form (held_front front.now)) (option_map field_form field)) }
{
    one_expression();
    pieces_are_cut();
    let Some(number) = read_number(alloc, form, front)? else {
        return Ok(None);
    };
    if is_key_value(&number.fixed) {
        Ok(Some(FieldExpr::Number(NumberExpr {
            key: true,
            ..number
        })))
    } else {
        Ok(None)
    }
}

/// Whether a constant is the fixed value.
fn is_key_value(fixed: &Option<Box<Expr>>) -> bool
    ensures { result ≡ is_key_value (option_map boxed_term fixed.now) }
{
    match fixed {
        Some(value) => is_constant(value),
        None => false,
    }
}

/// Whether a key may have this type.
fn may_be_key(form: NumForm) -> bool
    ensures { result ≡ may_be_key form }
{
    match form {
        NumForm::Bits | NumForm::Byte | NumForm::Integer | NumForm::Longint => true,
        NumForm::Boolean | NumForm::Char => false,
    }
}
