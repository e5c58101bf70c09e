//! Number fields: width, symbols and fixed value; changes with `specs/NumberField`.

ghost use Rattle.std.specs.Prelude.{◌≡◌, IfOk, option_map};
ghost use Rattle.rz_core.specs.Decided.{Decided};
ghost use Rattle.rz_stmt_fields.specs.Form.{number_form, width_form};
ghost use Rattle.rz_stmt_fields.specs.Held.{held_front};
ghost use Rattle.rz_stmt_fields.specs.NumberField.{numbered, shown, tail_of, AreNamed, IsBits, IsFixed, IsNumber, IsOfWidth, IsTail};

use crate::field_word::Front;
use crate::form::{Names, NumberExpr, Width};
use crate::symbols::read_symbols;
use crate::value::{is_equals, read_fixed_value};
use rz_core::NoMemory;
use rz_expr::{Expr, read_constant};
use rz_lex::Token;
use rz_stmt_brackets::{Bracket, Divider, bracketed, pieces_by};
use rz_types_fields::{NumForm, Radix, own_width};
use std::alloc::Global;

/// What stands after the type of a number: symbols, or the fixed value.
#[derive(Drop)]
struct Tail {
    symbols: Names,
    fixed: Option<Box<Expr>>,
}

/// The number of a type that a front begins.
pub fn read_number(
    alloc: Global,
    form: NumForm,
    front: &Front,
) -> Result<Option<NumberExpr>, NoMemory>
    ensures { IfOk result (λ number. Decided (IsNumber form (held_front front.now)) (option_map number_form number)) }
{
    match own_width(form) {
        Some(width) => read_of_width(alloc, form, width, front),
        None => read_bits(alloc, form, front),
    }
}

/// A number whose type says its width.
fn read_of_width(
    alloc: Global,
    form: NumForm,
    width: i32,
    front: &Front,
) -> Result<Option<NumberExpr>, NoMemory>
    ensures { IfOk result (λ number. Decided (IsOfWidth form width (held_front front.now)) (option_map number_form number)) }
{
    match read_tail(alloc, form, front.tail)? {
        Some(tail) => Ok(Some(numbered(form, Width::Own(width), front, tail))),
        None => Ok(None),
    }
}

/// A number whose width is written.
fn read_bits(alloc: Global, form: NumForm, front: &Front) -> Result<Option<NumberExpr>, NoMemory>
    ensures { IfOk result (λ number. Decided (IsBits form (held_front front.now)) (option_map number_form number)) }
{
    let Some(split) = bracketed(front.tail, Bracket::Square) else {
        return Ok(None);
    };
    let Some(width) = read_constant(alloc, split.front)? else {
        return Ok(None);
    };
    let width = Width::Written(Box::new(alloc, width)?);
    match read_tail(alloc, form, split.behind)? {
        Some(tail) => Ok(Some(numbered(form, width, front, tail))),
        None => Ok(None),
    }
}

/// The number of these parts, no key.
fn numbered(form: NumForm, width: Width, front: &Front, tail: Tail) -> NumberExpr
    ensures { number_form result ≡ numbered form (width_form width) (held_front front.now) (tail_of tail) }
{
    NumberExpr {
        form,
        unsigned: front.unsigned,
        radix: shown(front.radix),
        key: false,
        width,
        symbols: tail.symbols,
        fixed: tail.fixed,
    }
}

/// How a number is shown.
fn shown(radix: Option<Radix>) -> Radix
    ensures { result ≡ shown radix }
{
    match radix {
        Some(radix) => radix,
        None => Radix::Plain,
    }
}

/// What the tokens after the type of a number are.
fn read_tail(alloc: Global, form: NumForm, tokens: &[Token]) -> Result<Option<Tail>, NoMemory>
    ensures { IfOk result (λ tail. Decided (IsTail form tokens.now) (option_map tail_of tail)) }
{
    let Some((first, rest)) = tokens.split_first() else {
        return Ok(Some(Tail {
            symbols: Names::new(alloc),
            fixed: None,
        }));
    };
    if is_equals(first) {
        read_fixed(alloc, form, rest)
    } else {
        read_named(alloc, form, tokens)
    }
}

/// A fixed value.
fn read_fixed(alloc: Global, form: NumForm, tokens: &[Token]) -> Result<Option<Tail>, NoMemory>
    ensures { IfOk result (λ tail. Decided (IsFixed form tokens.now) (option_map tail_of tail)) }
{
    match read_fixed_value(alloc, form, tokens)? {
        Some(value) => Ok(Some(Tail {
            symbols: Names::new(alloc),
            fixed: Some(Box::new(alloc, value)?),
        })),
        None => Ok(None),
    }
}

/// Symbols.
fn read_named(alloc: Global, form: NumForm, tokens: &[Token]) -> Result<Option<Tail>, NoMemory>
    ensures { IfOk result (λ tail. Decided (AreNamed form tokens.now) (option_map tail_of tail)) }
{
    let pieces = pieces_by(alloc, tokens, Divider::Comma)?;
    match read_symbols(alloc, form, &pieces)? {
        Some(symbols) => Ok(Some(Tail {
            symbols,
            fixed: None,
        })),
        None => Ok(None),
    }
}
