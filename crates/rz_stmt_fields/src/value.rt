//! Expressions of sizes, fixed values, and values of symbols; changes with `specs/FieldValue`.

ghost use Rattle.std.specs.Prelude.{◌≡◌, IfOk, map, option_map};
ghost use Rattle.rz_expr.specs.Term.{term_of};
ghost use Rattle.rz_core.specs.Decided.{Decided};
ghost use Rattle.rz_stmt_fields.specs.Each.{AreEach};
ghost use Rattle.rz_stmt_fields.specs.FieldValue.{byte_in, is_equals, one_byte, IsFixedExpression, IsFixedValue, IsSizeExpression, IsSymbolValue};

use rz_core::NoMemory;
use rz_expr::{Expr, one_expression, read_constant, read_whole};
use rz_lex::{Shape, Sign, Token};
use rz_types_fields::{Exprs, NumForm, is_fixed_expression, is_size_expression};
use std::alloc::Global;

/// The expression of a size that the tokens are: one without `$$CountOf`. It may name labels, by themselves, with an
/// index and in `$$BitField`, `$$Byte`, `$$Word` and `$$Long`, and the row around by `$$ArrayIndex`.
pub fn read_expression(alloc: Global, tokens: &[Token]) -> Result<Option<Expr>, NoMemory>
    ensures { IfOk result (λ expr. Decided (IsSizeExpression tokens.now) (option_map term_of expr)) }
{
    one_expression();
    match read_whole(alloc, tokens)? {
        Some(expr) => {
            if is_size_expression(&expr) {
                Ok(Some(expr))
            } else {
                Ok(None)
            }
        }
        None => Ok(None),
    }
}

/// The expression of a fixed value that the tokens are: it may have `$$CountOf` too.
fn read_fixed_expression(alloc: Global, tokens: &[Token]) -> Result<Option<Expr>, NoMemory>
    ensures { IfOk result (λ expr. Decided (IsFixedExpression tokens.now) (option_map term_of expr)) }
{
    one_expression();
    match read_whole(alloc, tokens)? {
        Some(expr) => {
            if is_fixed_expression(&expr) {
                Ok(Some(expr))
            } else {
                Ok(None)
            }
        }
        None => Ok(None),
    }
}

/// The fixed value of a number field that the tokens are: an expression, or after `char` a text of one byte.
pub fn read_fixed_value(
    alloc: Global,
    form: NumForm,
    tokens: &[Token],
) -> Result<Option<Expr>, NoMemory>
    ensures { IfOk result (λ expr. Decided (IsFixedValue form tokens.now) (option_map term_of expr)) }
{
    match one_byte(form, tokens) {
        Some(byte) => Ok(Some(Expr::Number(i32::from(byte)))),
        None => read_fixed_expression(alloc, tokens),
    }
}

/// The value of a symbol that the tokens are: a constant, or after `char` a text of one byte.
pub fn read_symbol_value(
    alloc: Global,
    form: NumForm,
    tokens: &[Token],
) -> Result<Option<Expr>, NoMemory>
    ensures { IfOk result (λ expr. Decided (IsSymbolValue form tokens.now) (option_map term_of expr)) }
{
    match one_byte(form, tokens) {
        Some(byte) => Ok(Some(Expr::Number(i32::from(byte)))),
        None => read_constant(alloc, tokens),
    }
}

/// The byte that a text alone is, after `char`.
fn one_byte(form: NumForm, tokens: &[Token]) -> Option<u8>
    ensures { result ≡ one_byte form tokens.now }
{
    match form {
        NumForm::Char => match tokens {
            [token] => byte_in(token),
            _ => None,
        },
        _ => None,
    }
}

fn byte_in(token: &Token) -> Option<u8>
    ensures { result ≡ byte_in token.now.shape }
{
    match &token.shape {
        Shape::Text(bytes) => match bytes.as_slice() {
            [byte] => Some(*byte),
            _ => None,
        },
        _ => None,
    }
}

/// The expressions of fixed values that the pieces are.
pub fn read_expressions(alloc: Global, pieces: &[&[Token]]) -> Result<Option<Exprs>, NoMemory>
    ensures { IfOk result (λ exprs. Decided (AreEach IsFixedExpression (map (λ piece. piece.now) pieces.now)) (option_map (map term_of) exprs)) }
{
    let mut exprs = Exprs::new(alloc);
    for piece in pieces {
        let Some(expr) = read_fixed_expression(alloc, piece)? else {
            return Ok(None);
        };
        exprs.push(expr)?;
    }
    Ok(Some(exprs))
}

/// Whether a token is the sign `=`.
pub fn is_equals(token: &Token) -> bool
    ensures { result ≡ is_equals token.now.shape }
{
    matches!(token.shape, Shape::Sign(Sign::Equals))
}
