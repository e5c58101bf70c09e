//! The symbols of a number field, as they are written; changes with `specs/Symbols`.

ghost use Rattle.std.specs.Prelude.{◌≡◌, IfOk, map, option_map};
ghost use Rattle.std.specs.Option.{option_copied};
ghost use Rattle.rz_expr.specs.Term.{term_of};
ghost use Rattle.rz_core.specs.Decided.{Decided};
ghost use Rattle.rz_stmt_fields.specs.Each.{AreEach};
ghost use Rattle.rz_stmt_fields.specs.Form.{named_of};
ghost use Rattle.rz_stmt_fields.specs.Symbols.{name_in, IsGiven, IsSymbol};

use crate::form::{Named, Names};
use crate::value::{is_equals, read_symbol_value};
use rz_core::{NoMemory, Word};
use rz_expr::{Expr, role_of};
use rz_lex::{Shape, Token};
use rz_types_fields::NumForm;
use std::alloc::Global;

/// The symbols that the pieces are.
pub fn read_symbols(
    alloc: Global,
    form: NumForm,
    pieces: &[&[Token]],
) -> Result<Option<Names>, NoMemory>
    ensures { IfOk result (λ names. Decided (AreEach (IsSymbol form) (map (λ piece. piece.now) pieces.now)) (option_map (map named_of) names)) }
{
    let mut names = Names::new(alloc);
    for piece in pieces {
        let Some(named) = read_symbol(alloc, form, piece)? else {
            return Ok(None);
        };
        names.push(named)?;
    }
    Ok(Some(names))
}

/// The symbol that a piece is.
fn read_symbol(alloc: Global, form: NumForm, piece: &[Token]) -> Result<Option<Named>, NoMemory>
    ensures { IfOk result (λ named. Decided (IsSymbol form piece.now) (option_map named_of named)) }
{
    let Some((first, rest)) = piece.split_first() else {
        return Ok(None);
    };
    let Some(name) = name_in(first) else {
        return Ok(None);
    };
    let Some(value) = read_given(alloc, form, rest)? else {
        return Ok(None);
    };
    Ok(Some(Named {
        name: name.copy(alloc)?,
        value,
    }))
}

/// The name that a token is: a word that is no reserved word. `None` for all else. (MPW Rez.)
pub fn name_in(token: &Token) -> Option<&Word>
    ensures { option_copied result ≡ name_in token.now.shape }
{
    match &token.shape {
        Shape::Word(word) if role_of(word).is_name() => Some(word),
        _ => None,
    }
}

/// What stands after the name of a symbol: nothing, or `=` and its value.
fn read_given(
    alloc: Global,
    form: NumForm,
    tokens: &[Token],
) -> Result<Option<Option<Expr>>, NoMemory>
    ensures { IfOk result (λ given. Decided (IsGiven form tokens.now) (option_map (option_map term_of) given)) }
{
    let Some((first, rest)) = tokens.split_first() else {
        return Ok(Some(None));
    };
    if !is_equals(first) {
        return Ok(None);
    }
    match read_symbol_value(alloc, form, rest)? {
        Some(value) => Ok(Some(Some(value))),
        None => Ok(None),
    }
}
