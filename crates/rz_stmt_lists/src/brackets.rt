//! Round brackets at the front of tokens, which may be left out; changes with `specs/Brackets`.

ghost use Rattle.std.specs.Prelude.{◌≡◌, IfSome, List, Option, Some, option_map};
ghost use Rattle.rz_lex.specs.declared.token.Token.{Token};
ghost use Rattle.rz_stmt_lists.specs.Steps.{held_maybe, IsMaybePair};

use rz_lex::Token;
use rz_stmt_brackets::{Bracket, begins, bracketed};

/// What stands in brackets at the front, where some are there, and what stands after.
#[derive(Drop)]
pub struct Maybe<'a> {
    /// What stands in them.
    pub inside: Option<&'a [Token]>,
    /// What stands after them.
    pub behind: &'a [Token],
}

/// What stands in brackets at the front, if some open there. `None` exactly where they aren't closed.
pub fn maybe_bracketed(tokens: &[Token]) -> Option<Maybe<'_>>
    ensures found { IfSome result (λ maybe. IsMaybePair tokens.now (held_maybe maybe)) }
    ensures every { (pair : Option (List Token) × List Token) → IsMaybePair tokens.now pair → option_map held_maybe result ≡ Some pair }
{
    if !begins(tokens, Bracket::Round) {
        return Some(Maybe {
            inside: None,
            behind: tokens,
        });
    }
    match bracketed(tokens, Bracket::Round) {
        Some(split) => Some(Maybe {
            inside: Some(split.front),
            behind: split.behind,
        }),
        None => None,
    }
}
