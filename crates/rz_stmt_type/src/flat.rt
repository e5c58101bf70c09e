//! Fields without fields of their own, texts among them; changes with `specs/Flat`.

ghost use Rattle.std.specs.Prelude.{◌≡◌, IfOk, option_map};
ghost use Rattle.rz_core.specs.Decided.{Decided};
ghost use Rattle.rz_stmt_type.specs.Flat.{IsFixed, IsFlat, IsFlatFront, IsSized, IsText, IsTextField, IsUnsized};
ghost use Rattle.rz_types_fields.specs.Field.{plain_text};
ghost use Rattle.rz_types_fields.specs.Text.{plain_parts};
ghost use Rattle.rz_stmt_fields.specs.Form.{field_form};
ghost use Rattle.rz_stmt_fields.specs.Held.{held_front};

use rz_core::NoMemory;
use rz_lex::Token;
use rz_stmt_brackets::{Bracket, begins, bracketed};
use rz_stmt_data::text_at;
use rz_stmt_fields::{
    FieldExpr, Front, front_in, hex_of, is_equals, read_expression, read_front, text_form,
};
use rz_types_fields::{TextField, TextForm, TextPlace, Texts};
use std::alloc::Global;

/// The field without fields of its own that the tokens are: a number, a text, a point, a rectangle, a `fill` or an
/// `align`. `None` exactly where they are none. (MPW Rez.)
pub fn read_flat(alloc: Global, tokens: &[Token]) -> Result<Option<FieldExpr>, NoMemory>
    ensures { IfOk result (λ field. Decided (IsFlat tokens.now) (option_map field_form field)) }
{
    match front_in(tokens, false, None) {
        Some(front) => read_flat_front(alloc, &front),
        None => Ok(None),
    }
}

/// The field that a front begins.
fn read_flat_front(alloc: Global, front: &Front) -> Result<Option<FieldExpr>, NoMemory>
    ensures { IfOk result (λ field. Decided (IsFlatFront (held_front front.now)) (option_map field_form field)) }
{
    match text_form(front.word) {
        Some(form) => read_text_field(alloc, form, front),
        None => read_front(alloc, front),
    }
}

fn read_text_field(
    alloc: Global,
    form: TextForm,
    front: &Front,
) -> Result<Option<FieldExpr>, NoMemory>
    ensures { IfOk result (λ field. Decided (IsTextField form (held_front front.now)) (option_map field_form field)) }
{
    let Some(hex) = hex_of(front.unsigned, front.radix) else {
        return Ok(None);
    };
    match read_text(alloc, hex, form, front.tail)? {
        Some(text) => Ok(Some(FieldExpr::Text(Box::new(alloc, text)?))),
        None => Ok(None),
    }
}

/// The text that the tokens after its type are: a size, where there is one, and the fixed text.
fn read_text(
    alloc: Global,
    hex: bool,
    form: TextForm,
    tokens: &[Token],
) -> Result<Option<TextField>, NoMemory>
    ensures { IfOk result (λ text. Decided (IsText hex form tokens.now) (option_map plain_text text)) }
{
    if begins(tokens, Bracket::Square) {
        read_sized(alloc, hex, form, tokens)
    } else {
        read_unsized(alloc, hex, form, tokens)
    }
}

fn read_sized(
    alloc: Global,
    hex: bool,
    form: TextForm,
    tokens: &[Token],
) -> Result<Option<TextField>, NoMemory>
    ensures { IfOk result (λ text. Decided (IsSized hex form tokens.now) (option_map plain_text text)) }
{
    let Some(split) = bracketed(tokens, Bracket::Square) else {
        return Ok(None);
    };
    let Some(size) = read_expression(alloc, split.front)? else {
        return Ok(None);
    };
    match read_fixed(alloc, split.behind) {
        Ok(Some(fixed)) => Ok(Some(TextField {
            form,
            hex,
            size: Some(size),
            fixed,
        })),
        Ok(None) => {
            drop(size);
            Ok(None)
        }
        Err(NoMemory) => {
            drop(size);
            Err(NoMemory)
        }
    }
}

fn read_unsized(
    alloc: Global,
    hex: bool,
    form: TextForm,
    tokens: &[Token],
) -> Result<Option<TextField>, NoMemory>
    ensures { IfOk result (λ text. Decided (IsUnsized hex form tokens.now) (option_map plain_text text)) }
{
    match read_fixed(alloc, tokens)? {
        Some(fixed) => Ok(Some(TextField {
            form,
            hex,
            size: None,
            fixed,
        })),
        None => Ok(None),
    }
}

/// Nothing, or `=` and a text.
fn read_fixed(alloc: Global, tokens: &[Token]) -> Result<Option<Option<Texts>>, NoMemory>
    ensures { IfOk result (λ fixed. Decided (IsFixed tokens.now) (option_map (option_map plain_parts) fixed)) }
{
    let Some((first, rest)) = tokens.split_first() else {
        return Ok(Some(None));
    };
    if !is_equals(first) {
        return Ok(None);
    }
    match text_at(alloc, TextPlace::Fixed, rest)? {
        Some(texts) => Ok(Some(Some(texts))),
        None => Ok(None),
    }
}
