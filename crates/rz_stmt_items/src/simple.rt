//! Items without braces, texts and numbers, read from tokens; changes with `specs/Simple`.

ghost use Rattle.std.specs.Prelude.{◌≡◌, pos, IfOk, IfSome, option_map};
ghost use Rattle.rz_core.specs.Decided.{Decided};
ghost use Rattle.rz_expr.specs.Term.{term_of, Constant};
ghost use Rattle.rz_expr.specs.Value.{reduced};
ghost use Rattle.rz_stmt_items.specs.Item.{plain_item};
ghost use Rattle.rz_stmt_items.specs.Simple.{IsItemExpression, IsNumberItem, IsSimple, IsTextItem};

use crate::item::Item;
use rz_core::{Mark, NoMemory};
use rz_expr::{Expr, one_expression, read_whole, signed};
use rz_lex::{Shape, Token};
use rz_stmt_data::{begins_text, text_at};
use rz_types_fields::{TextPlace, is_item_expression};
use std::alloc::Global;

/// The text or the number that the tokens are.
pub fn read_simple(alloc: Global, mark: Mark, tokens: &[Token]) -> Result<Option<Item>, NoMemory>
    ensures { IfOk result (λ item. Decided (IsSimple mark tokens.now) (option_map plain_item item)) }
{
    match one_number(mark, tokens) {
        Some(item) => Ok(Some(item)),
        None => read_parts(alloc, mark, tokens),
    }
}

/// The number that one token alone is. Most items are such, so they are read at once.
fn one_number(mark: Mark, tokens: &[Token]) -> Option<Item>
    ensures { IfSome result (λ item. IsSimple mark tokens.now (plain_item item)) }
{
    match tokens {
        [token] => match &token.shape {
            Shape::Number(number) => Some(Item::Number(constant(*number), mark)),
            _ => None,
        },
        _ => None,
    }
}

/// A number token as an expression.
fn constant(number: u32) -> Expr
    ensures { term_of result ≡ Constant (reduced (pos number)) }
{
    Expr::Number(signed(number))
}

/// The text or the number that any tokens are.
fn read_parts(alloc: Global, mark: Mark, tokens: &[Token]) -> Result<Option<Item>, NoMemory>
    ensures { IfOk result (λ item. Decided (IsSimple mark tokens.now) (option_map plain_item item)) }
{
    if begins_text(tokens) {
        read_text(alloc, mark, tokens)
    } else {
        read_number(alloc, mark, tokens)
    }
}

/// The text that the tokens are, as an item.
fn read_text(alloc: Global, mark: Mark, tokens: &[Token]) -> Result<Option<Item>, NoMemory>
    ensures { IfOk result (λ item. Decided (IsTextItem mark tokens.now) (option_map plain_item item)) }
{
    match text_at(alloc, TextPlace::Item, tokens)? {
        Some(texts) => Ok(Some(Item::Text(texts, mark))),
        None => Ok(None),
    }
}

/// The number that the tokens are, as an item.
fn read_number(alloc: Global, mark: Mark, tokens: &[Token]) -> Result<Option<Item>, NoMemory>
    ensures { IfOk result (λ item. Decided (IsNumberItem mark tokens.now) (option_map plain_item item)) }
{
    match read_expression(alloc, tokens)? {
        Some(expr) => Ok(Some(Item::Number(expr, mark))),
        None => Ok(None),
    }
}

/// The expression that the tokens are, where it may stand in an item.
fn read_expression(alloc: Global, tokens: &[Token]) -> Result<Option<Expr>, NoMemory>
    ensures { IfOk result (λ expr. Decided (IsItemExpression tokens.now) (option_map term_of expr)) }
{
    one_expression();
    match read_whole(alloc, tokens)? {
        Some(expr) => {
            if is_item_expression(&expr) {
                Ok(Some(expr))
            } else {
                Ok(None)
            }
        }
        None => Ok(None),
    }
}
