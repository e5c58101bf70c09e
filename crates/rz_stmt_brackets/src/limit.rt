//! How deep brackets may be open, and how long a row of tokens may be; changes with `specs/Limit`.

ghost use Rattle.std.specs.Prelude.{◌≡◌, ◌+◌, ◌<◌, ◌≤◌, ◌^◌};
ghost use Rattle.rz_stmt_brackets.specs.Limit.{depth_limit, ends_row, is_text, is_within_limits, row_behind};

use crate::cutting::open_behind;
use rz_expr::{Keyword, is_keyword};
use rz_lex::{Shape, Sign, Token};

/// The most brackets that may be open in a `type` statement, and in any other.
const DEEPEST_TYPE: usize = 60;

const DEEPEST: usize = 64;

/// The most tokens in a row, texts not counted, without one of `{ } , ;`.
const LONGEST_ROW: usize = 1024;

/// Whether the tokens of a statement keep the limits of depth and of rows.
pub fn is_within_limits(tokens: &[Token]) -> bool
    ensures { result ≡ is_within_limits tokens.now }
{
    let most = depth_limit(tokens);
    let mut depth = 0;
    let mut row = 0;
    for token in tokens {
        depth = open_behind(&token.shape, depth);
        row = row_behind(&token.shape, row);
        if depth > most || row > LONGEST_ROW {
            return false;
        }
    }
    true
}

/// How many brackets may be open.
fn depth_limit(tokens: &[Token]) -> usize
    ensures limit { result ≡ depth_limit tokens.now }
    ensures low { result ≤ 64 }
{
    match tokens {
        [first, ..] if is_keyword(first, Keyword::Kind) => DEEPEST_TYPE,
        _ => DEEPEST,
    }
}

/// How long a row is after a token.
fn row_behind(shape: &Shape, row: usize) -> usize
    requires { row + 1 < 2 ^ 64 }
    ensures row { result ≡ row_behind shape.now row }
    ensures slow { result ≤ row + 1 }
{
    if ends_row(shape) {
        0
    } else if is_text(shape) {
        row
    } else {
        row + 1
    }
}

/// Whether it is one of `{ } , ;`.
fn ends_row(shape: &Shape) -> bool
    ensures { result ≡ ends_row shape.now }
{
    matches!(
        shape,
        Shape::Sign(Sign::OpenBrace | Sign::CloseBrace | Sign::Comma | Sign::Semicolon)
    )
}

fn is_text(shape: &Shape) -> bool
    ensures { result ≡ is_text shape.now }
{
    matches!(shape, Shape::Text(_))
}
