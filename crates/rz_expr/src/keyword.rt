//! Tokens that are keywords.

ghost use Rattle.std.specs.Prelude.{◌≡◌};
ghost use Rattle.rz_expr.specs.Keyword.{is_keyword, keyword_in};

use rz_lex::{Shape, Token};
use rz_words::{Keyword, keyword_of, spelling};

/// The keyword that a token is.
pub fn keyword_in(token: &Token) -> Option<Keyword>
    ensures { result ≡ keyword_in token.now.shape }
{
    match &token.shape {
        Shape::Word(word) => keyword_of(word),
        _ => None,
    }
}

/// Whether a token is this keyword.
pub fn is_keyword(token: &Token, keyword: Keyword) -> bool
    ensures { result ≡ is_keyword keyword token.now.shape }
{
    match &token.shape {
        Shape::Word(word) => word
            .bytes
            .as_slice()
            .eq_ignore_ascii_case(spelling(keyword)),
        _ => false,
    }
}
