//! Tokens: what each may be, and where it stands. Which sign a token is, is in `specs/Token`.

ghost use Rattle.std.specs.Prelude.{◌≡◌, ◌↔◌, true};
ghost use Rattle.rz_lex.specs.Token.{is_the_sign};
ghost use Rattle.rz_lex.specs.declared.sign.Sign.{Sign};
ghost use Rattle.rz_lex.specs.declared.token.Shape.{Shape};
ghost use Rattle.rz_lex.specs.declared.token.Shape.TheVariants as shapes;

use crate::Sign;
use rz_core::{Bytes, Listing, Mark, Word};

/// What a token is. (MPW Rez.)
#[derive(Debug, Drop)]
pub enum Shape {
    /// A name, in the spelling in which it was written; `$$` before a letter belongs to it.
    Word(Word),
    /// The value of a number, below 2^32.
    Number(u32),
    /// One to four bytes that stood between `'`, with their escapes resolved.
    Literal(Bytes),
    /// Bytes that stood between `"`, with their escapes resolved, or in hex between `$"` and `"`.
    Text(Bytes),
    /// One of the signs.
    Sign(Sign),
}

/// A token and its place.
#[derive(Debug, Drop)]
pub struct Token {
    /// What it is.
    pub shape: Shape,
    /// Where it stands: the mark of its logical line.
    pub mark: Mark,
}

impl Token {
    /// Whether the token is this sign.
    pub fn is_sign(&self, sign: Sign) -> bool
        ensures { result ≡ is_the_sign sign self.now.shape }
    {
        match &self.shape {
            Shape::Sign(other) => *other == sign,
            _ => false,
        }
    }
}

/// A law, with nothing to run: a token is a sign exactly where its shape is that sign.
pub fn one_sign()
    ensures { (sign : Sign) (shape : Shape) → (is_the_sign sign shape ≡ true) ↔ (shape ≡ shapes.Sign sign) }
{}

/// A list of tokens.
pub type Tokens = Listing<Token>;
