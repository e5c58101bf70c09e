//! Fields without fields of their own, texts aside, read from tokens; changes with `specs/FieldForm`.

ghost use Rattle.std.specs.Prelude.{◌≡◌, IfOk, map, option_map};
ghost use Rattle.rz_expr.specs.Term.{term_of};
ghost use Rattle.rz_types_fields.specs.Field.{plain_points};
ghost use Rattle.rz_core.specs.Decided.{Decided};
ghost use Rattle.rz_stmt_fields.specs.FieldForm.{align_of, count_of, is_bare, AreNumbers, IsAlignField, IsCount, IsFieldFront, IsFill, IsFillField, IsNumberField, IsPoints, IsPointsField};
ghost use Rattle.rz_stmt_fields.specs.Form.{field_form};
ghost use Rattle.rz_stmt_fields.specs.Held.{held_front};

use crate::field_word::{FieldWord, Front, align_unit, unit_in};
use crate::form::FieldExpr;
use crate::number_field::read_number;
use crate::value::{is_equals, read_expressions};
use rz_core::NoMemory;
use rz_expr::{Expr, read_constant};
use rz_lex::Token;
use rz_stmt_brackets::{Bracket, Divider, bracketed, pieces_by};
use rz_types_fields::{Exprs, NumForm, PointField};
use std::alloc::Global;

/// The field without fields of its own that a front begins: a number, a point, a rectangle, a `fill` or an `align`.
/// `None` exactly where it begins none. (MPW Rez.)
pub fn read_front(alloc: Global, front: &Front) -> Result<Option<FieldExpr>, NoMemory>
    ensures { IfOk result (λ field. Decided (IsFieldFront (held_front front.now)) (option_map field_form field)) }
{
    match front.word {
        FieldWord::Number(form) => read_number_field(alloc, form, front),
        FieldWord::Text(_) => Ok(None),
        FieldWord::Points(rect) => read_points_field(alloc, rect, front),
        FieldWord::Fill => read_fill_field(alloc, front),
        FieldWord::Align => Ok(read_align_field(front)),
    }
}

fn read_number_field(
    alloc: Global,
    form: NumForm,
    front: &Front,
) -> Result<Option<FieldExpr>, NoMemory>
    ensures { IfOk result (λ field. Decided (IsNumberField form (held_front front.now)) (option_map field_form field)) }
{
    match read_number(alloc, form, front)? {
        Some(number) => Ok(Some(FieldExpr::Number(number))),
        None => Ok(None),
    }
}

fn read_points_field(
    alloc: Global,
    rect: bool,
    front: &Front,
) -> Result<Option<FieldExpr>, NoMemory>
    ensures { IfOk result (λ field. Decided (IsPointsField rect (held_front front.now)) (option_map field_form field)) }
{
    if !is_bare(front) {
        return Ok(None);
    }
    match read_points(alloc, rect, front.tail)? {
        Some(points) => Ok(Some(FieldExpr::Points(points))),
        None => Ok(None),
    }
}

fn read_fill_field(alloc: Global, front: &Front) -> Result<Option<FieldExpr>, NoMemory>
    ensures { IfOk result (λ field. Decided (IsFillField (held_front front.now)) (option_map field_form field)) }
{
    if is_bare(front) {
        read_fill(alloc, front.tail)
    } else {
        Ok(None)
    }
}

fn read_align_field(front: &Front) -> Option<FieldExpr>
    ensures { Decided (IsAlignField (held_front front.now)) (option_map field_form result) }
{
    if !is_bare(front) {
        return None;
    }
    match align_of(front.tail) {
        Some(unit) => Some(FieldExpr::Align(unit)),
        None => None,
    }
}

/// Whether nothing stands before the word of a field.
fn is_bare(front: &Front) -> bool
    ensures { result ≡ is_bare (held_front front.now) }
{
    !front.unsigned && front.radix.is_none()
}

/// The point or rectangle that the tokens after its type are.
fn read_points(alloc: Global, rect: bool, tokens: &[Token]) -> Result<Option<PointField>, NoMemory>
    ensures { IfOk result (λ points. Decided (IsPoints rect tokens.now) (option_map plain_points points)) }
{
    let Some((first, rest)) = tokens.split_first() else {
        return Ok(Some(PointField { rect, fixed: None }));
    };
    if !is_equals(first) {
        return Ok(None);
    }
    let Some(split) = bracketed(rest, Bracket::Curly) else {
        return Ok(None);
    };
    if !split.behind.is_empty() {
        return Ok(None);
    }
    match read_numbers(alloc, rect, split.front)? {
        Some(exprs) => Ok(Some(PointField {
            rect,
            fixed: Some(exprs),
        })),
        None => Ok(None),
    }
}

/// Two numbers, or four.
fn read_numbers(alloc: Global, rect: bool, tokens: &[Token]) -> Result<Option<Exprs>, NoMemory>
    ensures { IfOk result (λ exprs. Decided (AreNumbers rect tokens.now) (option_map (map term_of) exprs)) }
{
    let pieces = pieces_by(alloc, tokens, Divider::Comma)?;
    if pieces.len() != count_of(rect) {
        return Ok(None);
    }
    read_expressions(alloc, &pieces)
}

fn count_of(rect: bool) -> usize
    ensures { result ≡ count_of rect }
{
    if rect { 4 } else { 2 }
}

/// The `fill` that the tokens after the word are: a unit, and a count where it isn't 1.
fn read_fill(alloc: Global, tokens: &[Token]) -> Result<Option<FieldExpr>, NoMemory>
    ensures { IfOk result (λ field. Decided (IsFill tokens.now) (option_map field_form field)) }
{
    let Some((first, rest)) = tokens.split_first() else {
        return Ok(None);
    };
    let Some(unit) = unit_in(first) else {
        return Ok(None);
    };
    if rest.is_empty() {
        return Ok(Some(FieldExpr::Fill(unit, None)));
    }
    match read_count(alloc, rest)? {
        Some(count) => Ok(Some(FieldExpr::Fill(unit, Some(count)))),
        None => Ok(None),
    }
}

/// The constant that stands in square brackets, where nothing stands after them.
fn read_count(alloc: Global, tokens: &[Token]) -> Result<Option<Expr>, NoMemory>
    ensures { IfOk result (λ count. Decided (IsCount tokens.now) (option_map term_of count)) }
{
    let Some(split) = bracketed(tokens, Bracket::Square) else {
        return Ok(None);
    };
    if split.behind.is_empty() {
        read_constant(alloc, split.front)
    } else {
        Ok(None)
    }
}

/// The unit that the tokens after `align` are.
fn align_of(tokens: &[Token]) -> Option<u8>
    ensures { result ≡ align_of tokens.now }
{
    match tokens {
        [token] => align_unit(token),
        _ => None,
    }
}
