//! The first word of a field, and what it begins; changes with `specs/Start`.

ghost use Rattle.std.specs.Prelude.{◌≡◌};
ghost use Rattle.rz_stmt_type.specs.Held.{held_start};
ghost use Rattle.rz_stmt_type.specs.Start.{start_of, wide_start};

use rz_expr::{Keyword, is_keyword, keyword_in};
use rz_lex::Token;

/// What the first word of a field says, and what stands after it.
#[derive(Drop)]
pub enum Start<'a> {
    /// `key`
    Key(&'a [Token]),
    /// `array`, or `wide` and `array`
    Array(&'a [Token]),
    /// `switch`
    Switch(&'a [Token]),
    /// Any other word, or none: a field with no fields of its own.
    Flat,
}

/// How a field starts.
pub fn start_of(tokens: &[Token]) -> Start<'_>
    ensures { held_start result ≡ start_of tokens.now }
{
    let Some((first, behind)) = tokens.split_first() else {
        return Start::Flat;
    };
    match keyword_in(first) {
        Some(Keyword::Key) => Start::Key(behind),
        Some(Keyword::Array) => Start::Array(behind),
        Some(Keyword::Wide) => wide_start(behind),
        Some(Keyword::Switch) => Start::Switch(behind),
        _ => Start::Flat,
    }
}

/// How a field starts whose first word is `wide`: `array` stands after it.
fn wide_start(tokens: &[Token]) -> Start<'_>
    ensures { held_start result ≡ wide_start tokens.now }
{
    let Some((first, behind)) = tokens.split_first() else {
        return Start::Flat;
    };
    if is_keyword(first, Keyword::Array) {
        Start::Array(behind)
    } else {
        Start::Flat
    }
}
