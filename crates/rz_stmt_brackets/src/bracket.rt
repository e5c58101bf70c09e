//! Brackets at the front of tokens, what stands in them and what after; changes with `specs/Bracket`.

ghost use Rattle.std.specs.Prelude.{◌≡◌, IfSome, option_map};
ghost use Rattle.rz_stmt_brackets.specs.Bracket.{begins, closer, opens, IsBracketed};
ghost use Rattle.rz_stmt_brackets.specs.Held.{held_split};
ghost use Rattle.rz_stmt_brackets.specs.Pieces.{Parted};

use crate::pieces::{Divider, Split, split_at};
use rz_lex::{Shape, Sign, Token};

/// A kind of brackets.
#[derive(Clone, Copy, PartialEq, Eq)]
pub enum Bracket {
    /// `(` and `)`
    Round,
    /// `[` and `]`
    Square,
    /// `{` and `}`
    Curly,
}

/// What stands in such brackets at the front, and what stands after the bracket that closes them. `None`
/// exactly where the first token doesn't open such brackets, or they aren't closed.
pub fn bracketed(tokens: &[Token], bracket: Bracket) -> Option<Split<'_>>
    ensures found { IfSome result (λ split. IsBracketed bracket tokens.now (held_split split)) }
    ensures every { (parted : Parted) → IsBracketed bracket tokens.now parted → option_map held_split result ≡ Some parted }
{
    let Some((first, rest)) = tokens.split_first() else {
        return None;
    };
    if opens(bracket, &first.shape) {
        split_at(rest, closer(bracket))
    } else {
        None
    }
}

/// Whether the first token opens such brackets.
pub fn begins(tokens: &[Token], bracket: Bracket) -> bool
    ensures { result ≡ begins bracket tokens.now }
{
    match tokens.split_first() {
        Some((first, _)) => opens(bracket, &first.shape),
        None => false,
    }
}

/// Whether it is the sign that opens such brackets.
fn opens(bracket: Bracket, shape: &Shape) -> bool
    ensures { result ≡ opens bracket shape.now }
{
    match bracket {
        Bracket::Round => matches!(shape, Shape::Sign(Sign::OpenParen)),
        Bracket::Square => matches!(shape, Shape::Sign(Sign::OpenBracket)),
        Bracket::Curly => matches!(shape, Shape::Sign(Sign::OpenBrace)),
    }
}

/// The sign that closes them.
fn closer(bracket: Bracket) -> Divider
    ensures { result ≡ closer bracket }
{
    match bracket {
        Bracket::Round => Divider::CloseParen,
        Bracket::Square => Divider::CloseBracket,
        Bracket::Curly => Divider::CloseBrace,
    }
}
