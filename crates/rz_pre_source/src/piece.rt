//! Tokens without their bytes, and back. How a token becomes a piece is in `specs/Piece`.

ghost use Rattle.std.specs.Prelude.{◌≡◌, ◌<◌, ◌^◌, length, IfOk};
ghost use Rattle.rz_pre_source.specs.Piece.{held_of, kind_of, mark_of, piece_of, shape_of, size_of, IsShort};

use rz_core::{Bytes, Mark, NoMemory, Word};
use rz_lex::{Shape, Sign, Token};
use std::alloc::Global;

/// What a token is, without its bytes: of a word, a literal and a text only the number of bytes.
#[derive(Clone, Copy, Debug)]
pub enum Kind {
    /// A name of so many bytes.
    Word(u32),
    /// A number: its value.
    Number(u32),
    /// A literal of so many bytes.
    Literal(u32),
    /// A text of so many bytes.
    Text(u32),
    /// A sign.
    Sign(Sign),
}

/// A token without its bytes, in 16 bytes.
#[derive(Clone, Copy, Debug)]
pub struct Piece {
    /// The position of its file in the list of files, from 0.
    pub file: u32,
    /// Its line, from 1.
    pub line: u32,
    /// What it is.
    pub kind: Kind,
}

/// The bytes of a word, a literal or a text; none of a number or a sign.
pub fn held_of(shape: &Shape) -> &[u8]
    ensures { result.now ≡ held_of shape.now }
{
    match shape {
        Shape::Word(word) => word.bytes.as_slice(),
        Shape::Literal(bytes) => bytes.as_slice(),
        Shape::Text(bytes) => bytes.as_slice(),
        Shape::Number(_) | Shape::Sign(_) => &[],
    }
}

/// A token without its bytes. There are fewer than 2^32 of them, and the position of its file is below 2^32.
pub fn piece_of(token: &Token) -> Piece
    requires { IsShort token.now }
    ensures { result ≡ piece_of token.now }
{
    Piece {
        file: token.mark.file as u32,
        line: token.mark.line,
        kind: kind_of(&token.shape),
    }
}

fn kind_of(shape: &Shape) -> Kind
    requires { length (held_of shape.now) < 2 ^ 32 }
    ensures { result ≡ kind_of shape.now }
{
    match shape {
        Shape::Word(word) => Kind::Word(word.bytes.len() as u32),
        Shape::Number(value) => Kind::Number(*value),
        Shape::Literal(bytes) => Kind::Literal(bytes.len() as u32),
        Shape::Text(bytes) => Kind::Text(bytes.len() as u32),
        Shape::Sign(sign) => Kind::Sign(*sign),
    }
}

/// Where the token of a piece stands.
pub fn mark_of(piece: Piece) -> Mark
    ensures { result ≡ mark_of piece }
{
    Mark {
        file: u64::from(piece.file),
        line: piece.line,
    }
}

/// How many bytes a token of this kind has in the store.
pub fn size_of(kind: Kind) -> usize
    ensures { result ≡ size_of kind }
{
    match kind {
        Kind::Word(size) => size as usize,
        Kind::Literal(size) => size as usize,
        Kind::Text(size) => size as usize,
        Kind::Number(_) | Kind::Sign(_) => 0,
    }
}

/// A shape of this kind, with a copy of its bytes.
pub fn shape_of(alloc: Global, kind: Kind, held: &[u8]) -> Result<Shape, NoMemory>
    ensures { IfOk result (λ shape. shape ≡ shape_of kind held.now) }
{
    match kind {
        Kind::Word(_) => {
            let bytes = Bytes::of(alloc, held)?;
            Ok(Shape::Word(Word { bytes }))
        }
        Kind::Number(value) => Ok(Shape::Number(value)),
        Kind::Literal(_) => Ok(Shape::Literal(Bytes::of(alloc, held)?)),
        Kind::Text(_) => Ok(Shape::Text(Bytes::of(alloc, held)?)),
        Kind::Sign(sign) => Ok(Shape::Sign(sign)),
    }
}
