//! Copies of tokens, and of a shape at another place.

ghost use Rattle.std.specs.Prelude.{◌≡◌, IfOk};
ghost use Rattle.rz_lex.specs.Printed.{token_of};

use rz_core::{Bytes, Mark, NoMemory};
use rz_lex::{Shape, Token, Tokens};
use std::alloc::Global;

/// A token of the same shape at a place.
pub fn copy_at(alloc: Global, shape: &Shape, mark: Mark) -> Result<Token, NoMemory>
    ensures { IfOk result (λ token. token ≡ token_of mark shape.now) }
{
    let shape = copy_of(alloc, shape)?;
    Ok(Token { shape, mark })
}

/// The same shape again.
pub fn copy_of(alloc: Global, shape: &Shape) -> Result<Shape, NoMemory>
    ensures { IfOk result (λ copy. copy ≡ shape.now) }
{
    match shape {
        Shape::Word(word) => Ok(Shape::Word(word.copy(alloc)?)),
        Shape::Number(number) => Ok(Shape::Number(*number)),
        Shape::Literal(bytes) => Ok(Shape::Literal(Bytes::of(alloc, bytes.as_slice())?)),
        Shape::Text(bytes) => Ok(Shape::Text(Bytes::of(alloc, bytes.as_slice())?)),
        Shape::Sign(sign) => Ok(Shape::Sign(*sign)),
    }
}

/// The same tokens again.
pub fn copy_all(alloc: Global, tokens: &[Token]) -> Result<Tokens, NoMemory>
    ensures { IfOk result (λ copy. copy ≡ tokens.now) }
{
    let mut copy = Tokens::new(alloc);
    for token in tokens {
        copy.push(copy_at(alloc, &token.shape, token.mark)?)?;
    }
    Ok(copy)
}
