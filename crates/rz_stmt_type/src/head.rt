//! Arrays and cases up to their fields; changes with `specs/Head`.

ghost use Rattle.std.specs.Prelude.{◌≡◌, IfOk, map, option_map};
ghost use Rattle.rz_core.specs.Decided.{Decided};
ghost use Rattle.rz_stmt_type.specs.Head.{behind_empty, case_front, is_colon, IsArrayFront, IsBare, IsBraced, IsCounted, IsNamed};
ghost use Rattle.rz_stmt_type.specs.Held.{held_array, held_case};

use rz_core::{NoMemory, Word};
use rz_expr::{Expr, read_constant};
use rz_lex::{Shape, Sign, Token};
use rz_stmt_brackets::{Bracket, begins, bracketed};
use rz_stmt_fields::name_in;
use std::alloc::Global;

/// An array up to its fields: its name or the count of its rows, and what stands in its braces.
#[derive(Drop)]
pub struct ArrayFront<'a> {
    pub name: Option<Word>,
    pub count: Option<Expr>,
    pub row: &'a [Token],
}

/// A case up to its fields: its name, and what stands after its `:`.
#[derive(Drop)]
pub struct CaseFront<'a> {
    pub name: &'a Word,
    pub row: &'a [Token],
}

/// What stands after `array`.
pub fn read_array_front(alloc: Global, tokens: &[Token]) -> Result<Option<ArrayFront<'_>>, NoMemory>
    ensures { IfOk result (λ front. Decided (IsArrayFront tokens.now) (option_map held_array front)) }
{
    if begins(tokens, Bracket::Square) {
        read_counted(alloc, tokens)
    } else if begins(tokens, Bracket::Curly) {
        Ok(bare(tokens))
    } else {
        read_named(alloc, tokens)
    }
}

/// An array without a name or a count.
fn bare(tokens: &[Token]) -> Option<ArrayFront<'_>>
    ensures { Decided (IsBare tokens.now) (option_map held_array result) }
{
    match braced(tokens) {
        Some(row) => Some(ArrayFront {
            name: None,
            count: None,
            row,
        }),
        None => None,
    }
}

/// An array with a name.
fn read_named(alloc: Global, tokens: &[Token]) -> Result<Option<ArrayFront<'_>>, NoMemory>
    ensures { IfOk result (λ front. Decided (IsNamed tokens.now) (option_map held_array front)) }
{
    let Some((first, rest)) = tokens.split_first() else {
        return Ok(None);
    };
    let Some(name) = name_in(first) else {
        return Ok(None);
    };
    let Some(row) = braced(rest) else {
        return Ok(None);
    };
    Ok(Some(ArrayFront {
        name: Some(name.copy(alloc)?),
        count: None,
        row,
    }))
}

/// An array with the count of its rows.
fn read_counted(alloc: Global, tokens: &[Token]) -> Result<Option<ArrayFront<'_>>, NoMemory>
    ensures { IfOk result (λ front. Decided (IsCounted tokens.now) (option_map held_array front)) }
{
    let Some(split) = bracketed(tokens, Bracket::Square) else {
        return Ok(None);
    };
    let Some(row) = braced(split.behind) else {
        return Ok(None);
    };
    match read_constant(alloc, split.front)? {
        Some(count) => Ok(Some(ArrayFront {
            name: None,
            count: Some(count),
            row,
        })),
        None => Ok(None),
    }
}

/// What stands in braces, where the tokens are nothing else.
pub fn braced(tokens: &[Token]) -> Option<&[Token]>
    ensures { Decided (IsBraced tokens.now) (option_map (λ inside. inside.now) result) }
{
    let Some(split) = bracketed(tokens, Bracket::Curly) else {
        return None;
    };
    if split.behind.is_empty() {
        Some(split.front)
    } else {
        None
    }
}

/// A case up to its fields.
pub fn case_front(tokens: &[Token]) -> Option<CaseFront<'_>>
    ensures { option_map held_case result ≡ case_front tokens.now }
{
    let [first, second, row @ ..] = tokens else {
        return None;
    };
    if !is_colon(second) {
        return None;
    }
    match name_in(first) {
        Some(name) => Some(CaseFront { name, row }),
        None => None,
    }
}

/// Whether it is `:`.
pub fn is_colon(token: &Token) -> bool
    ensures { result ≡ is_colon token.now.shape }
{
    matches!(token.shape, Shape::Sign(Sign::Colon))
}

/// The pieces after a first one that is empty.
pub fn behind_empty<'a, 'b>(pieces: &'b [&'a [Token]]) -> Option<&'b [&'a [Token]]>
    ensures { option_map (λ others. map (λ piece. piece.now) others.now) result ≡ behind_empty (map (λ piece. piece.now) pieces.now) }
{
    let Some((first, others)) = pieces.split_first() else {
        return None;
    };
    if first.is_empty() { Some(others) } else { None }
}
