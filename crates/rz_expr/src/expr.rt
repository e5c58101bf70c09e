//! Expressions as trees, and their operators; a new operator changes `specs/Term` and `specs/Value` too.

use crate::FactWord;
use rz_core::Word;

/// An operator before its operand. (MPW Rez.)
#[derive(Clone, Copy, Debug, PartialEq, Eq)]
pub enum UnaryOp {
    /// `-`
    Minus,
    /// `~`, each bit turned.
    Complement,
    /// `!`, 1 of 0 and 0 of all else.
    Not,
}

/// An operator between its operands, from tight to loose. (MPW Rez.)
#[derive(Clone, Copy, Debug, PartialEq, Eq)]
pub enum BinaryOp {
    /// `*`
    Times,
    /// `/`, towards zero.
    Divide,
    /// `%`, with the sign of its left operand.
    Remainder,
    /// `+`
    Plus,
    /// `-`
    Minus,
    /// `<<`
    ShiftLeft,
    /// `>>`, which keeps the sign.
    ShiftRight,
    /// `>`
    Greater,
    /// `>=`
    GreaterEqual,
    /// `<`
    Less,
    /// `<=`
    LessEqual,
    /// `==`
    Equal,
    /// `!=`
    NotEqual,
    /// `&`
    BitAnd,
    /// `^`
    BitXor,
    /// `|`
    BitOr,
    /// `&&`
    And,
    /// `||`
    Or,
}

/// An expression. It is as deep as its operators and brackets are nested: a line of `n` operators of one
/// level is `n` deep. (MPW Rez.)
#[derive(Debug, Drop)]
pub enum Expr {
    /// A number, or a literal as a number with its last byte lowest, modulo 2^32.
    Number(i32),
    /// The value of a name: of a label its place in bits from the start of the resource.
    Name(Word),
    /// The place of a label in a row of its array, whose number is the operand, from 1.
    Indexed(Word, Box<Expr>),
    /// The number of rows of an array.
    Count(Word),
    /// The number of the row of an array in which it stands, from 1.
    ArrayIndex(Word),
    /// The bits that begin so many bits after a label, as many as the last operand says.
    Bits(Word, Box<Expr>, Box<Expr>),
    /// A fact of the resource or the moment.
    Fact(FactWord),
    /// An operator and its operand.
    Unary(UnaryOp, Box<Expr>),
    /// An operator and its operands, left and right.
    Binary(BinaryOp, Box<Expr>, Box<Expr>),
}
