//! Tokens cut where a sign or `case` stands outside brackets; changes with `specs/Pieces`.

ghost use Rattle.std.specs.Prelude.{◌≡◌, ◌<◌, IfNone, IfOk, IfSome, List, Some, false, length, map, option_map};
ghost use Rattle.rz_lex.specs.declared.token.Token.{Token};
ghost use Rattle.rz_stmt_brackets.specs.Held.{held_split};
ghost use Rattle.rz_stmt_brackets.specs.Pieces.{divides, divides_at, has_divider, AreCut, IsParted, Parted};

use crate::cutting::open_behind;
use crate::laws::pieces_are_cut;
use rz_core::NoMemory;
use rz_expr::{Keyword, is_keyword};
use rz_lex::{Shape, Sign, Token};
use std::alloc::Global;

/// What divides tokens where it stands outside brackets, or closes the bracket in which they stand.
#[derive(Clone, Copy, PartialEq, Eq)]
pub enum Divider {
    /// `;`
    Semicolon,
    /// `,`
    Comma,
    /// `:`
    Colon,
    /// `,` or `;`
    Separator,
    /// `case`
    Case,
    /// `)`
    CloseParen,
    /// `]`
    CloseBracket,
    /// `}`
    CloseBrace,
}

/// The tokens before one that divides, and those after it.
#[derive(Drop)]
pub struct Split<'a> {
    /// The tokens before it.
    pub front: &'a [Token],
    /// The tokens after it.
    pub behind: &'a [Token],
}

/// The tokens before the first that divides outside brackets, and those after it. `None` exactly where there is
/// no such token.
pub fn split_at(tokens: &[Token], divider: Divider) -> Option<Split<'_>>
    ensures found { IfSome result (λ split. IsParted divider tokens.now (held_split split)) }
    ensures every { (parted : Parted) → IsParted divider tokens.now parted → option_map held_split result ≡ Some parted }
    ensures none { IfNone result (has_divider divider 0 tokens.now ≡ false) }
    ensures shorter { IfSome result (λ split. length split.behind.now < length tokens.now) }
{
    pieces_are_cut();
    let mut size = 0;
    let mut depth = 0;
    let mut rest = tokens;
    while let Some((first, behind)) = rest.split_first() {
        if divides(first, divider, depth) {
            return Some(Split {
                front: tokens.split_at(size).0,
                behind,
            });
        }
        depth = open_behind(&first.shape, depth);
        size += 1;
        rest = behind;
    }
    None
}

/// Whether it divides, and no bracket is open.
fn divides(token: &Token, divider: Divider, depth: usize) -> bool
    ensures { result ≡ divides_at divider depth token.now }
{
    is_divider(token, divider) && depth == 0
}

fn is_divider(token: &Token, divider: Divider) -> bool
    ensures { result ≡ divides divider token.now.shape }
{
    let shape = &token.shape;
    match divider {
        Divider::Semicolon => matches!(shape, Shape::Sign(Sign::Semicolon)),
        Divider::Comma => matches!(shape, Shape::Sign(Sign::Comma)),
        Divider::Colon => matches!(shape, Shape::Sign(Sign::Colon)),
        Divider::Separator => matches!(shape, Shape::Sign(Sign::Comma | Sign::Semicolon)),
        Divider::Case => is_keyword(token, Keyword::Case),
        Divider::CloseParen => matches!(shape, Shape::Sign(Sign::CloseParen)),
        Divider::CloseBracket => matches!(shape, Shape::Sign(Sign::CloseBracket)),
        Divider::CloseBrace => matches!(shape, Shape::Sign(Sign::CloseBrace)),
    }
}

/// The pieces between the tokens that divide outside brackets, one at least.
pub fn pieces_by(
    alloc: Global,
    tokens: &[Token],
    divider: Divider,
) -> Result<Vec<&[Token]>, NoMemory>
    ensures cut { IfOk result (λ pieces. AreCut divider tokens.now (map (λ piece. piece.now) pieces.items)) }
    ensures every { (pieces : List (List Token)) → AreCut divider tokens.now pieces → IfOk result (λ given. map (λ piece. piece.now) given.items ≡ pieces) }
{
    pieces_are_cut();
    let mut pieces = Vec::new(alloc);
    let mut rest = tokens;
    while let Some(split) = split_at(rest, divider) {
        pieces.push(split.front)?;
        rest = split.behind;
    }
    pieces.push(rest)?;
    Ok(pieces)
}
