//! Signs and words within an expression, and how tightly operators bind. The grammar is in `specs/Grammar`.

ghost use Rattle.std.specs.Prelude.{◌≡◌, ◌≤◌, length};
ghost use Rattle.std.specs.Option.{option_copied};
ghost use Rattle.rz_expr.specs.Fronts.{ends, ends_index};
ghost use Rattle.rz_expr.specs.Grammar.{after_of, argument, closes, ends_name, is_bracket, level_of, may_name, named_by, separates, sign_after, start_of};
ghost use Rattle.rz_expr.specs.Reading.{at_level, ends_at, index_at, is_index, operator_at, operator_of, prefix_at, prefix_count, prefix_of};

use crate::{BinaryOp, Function, Role, UnaryOp, role_of};
use rz_core::Word;
use rz_lex::{Shape, Sign, Token};

/// What is open in an expression: brackets, the index of a label, or a bit field before its start or its width.
#[derive(Clone, Copy, Debug, PartialEq, Eq)]
pub enum Frame {
    /// `(`
    Group,
    /// `label[`
    InIndex,
    /// `$$BitField(label,`
    InStart,
    /// `$$BitField(label, start,`
    InWidth,
}

/// The operator before an operand that a sign is.
fn prefix_of(sign: Sign) -> Option<UnaryOp>
    ensures { result ≡ prefix_of sign }
{
    match sign {
        Sign::Minus => Some(UnaryOp::Minus),
        Sign::Tilde => Some(UnaryOp::Complement),
        Sign::Bang => Some(UnaryOp::Not),
        _ => None,
    }
}

/// The operator before an operand that a token is.
pub fn prefix_at(token: &Token) -> Option<UnaryOp>
    ensures { result ≡ prefix_at token.now.shape }
{
    match &token.shape {
        Shape::Sign(sign) => prefix_of(*sign),
        _ => None,
    }
}

/// How many operators stand before an operand.
pub fn prefix_count(tokens: &[Token]) -> usize
    ensures count { result ≡ prefix_count tokens.now }
    ensures within { result ≤ length tokens.now }
{
    let mut count = 0;
    let mut rest = tokens;
    while let [first, after @ ..] = rest {
        if prefix_at(first).is_none() {
            return count;
        }
        count += 1;
        rest = after;
    }
    count
}

/// The operator between operands that a sign is.
fn operator_of(sign: Sign) -> Option<BinaryOp>
    ensures { result ≡ operator_of (sign_after sign) }
{
    match sign {
        Sign::Star => Some(BinaryOp::Times),
        Sign::Slash => Some(BinaryOp::Divide),
        Sign::Percent => Some(BinaryOp::Remainder),
        Sign::Plus => Some(BinaryOp::Plus),
        Sign::Minus => Some(BinaryOp::Minus),
        Sign::ShiftLeft => Some(BinaryOp::ShiftLeft),
        Sign::ShiftRight => Some(BinaryOp::ShiftRight),
        Sign::Greater => Some(BinaryOp::Greater),
        Sign::GreaterEqual => Some(BinaryOp::GreaterEqual),
        Sign::Less => Some(BinaryOp::Less),
        Sign::LessEqual => Some(BinaryOp::LessEqual),
        Sign::EqualEqual => Some(BinaryOp::Equal),
        Sign::NotEqual => Some(BinaryOp::NotEqual),
        Sign::And => Some(BinaryOp::BitAnd),
        Sign::Caret => Some(BinaryOp::BitXor),
        Sign::Or => Some(BinaryOp::BitOr),
        Sign::AndAnd => Some(BinaryOp::And),
        Sign::OrOr => Some(BinaryOp::Or),
        _ => None,
    }
}

/// How loosely an operator binds, from 1 to 10.
fn level_of(op: BinaryOp) -> u8
    ensures { result ≡ level_of op }
{
    match op {
        BinaryOp::Times | BinaryOp::Divide | BinaryOp::Remainder => 1,
        BinaryOp::Plus | BinaryOp::Minus => 2,
        BinaryOp::ShiftLeft | BinaryOp::ShiftRight => 3,
        BinaryOp::Greater | BinaryOp::GreaterEqual | BinaryOp::Less | BinaryOp::LessEqual => 4,
        BinaryOp::Equal | BinaryOp::NotEqual => 5,
        BinaryOp::BitAnd => 6,
        BinaryOp::BitXor => 7,
        BinaryOp::BitOr => 8,
        BinaryOp::And => 9,
        BinaryOp::Or => 10,
    }
}

/// The operator of a level that stands at the front.
pub fn operator_at(tokens: &[Token], level: u8) -> Option<BinaryOp>
    ensures { result ≡ operator_at level tokens.now }
{
    match tokens {
        [first, ..] => of_level(operator_in(first), level),
        [] => None,
    }
}

fn of_level(op: Option<BinaryOp>, level: u8) -> Option<BinaryOp>
    ensures { result ≡ at_level level op }
{
    match op {
        Some(op) if level_of(op) == level => Some(op),
        _ => None,
    }
}

fn operator_in(token: &Token) -> Option<BinaryOp>
    ensures { result ≡ operator_of (after_of token.now.shape) }
{
    match &token.shape {
        Shape::Sign(sign) => operator_of(*sign),
        _ => None,
    }
}

/// Whether what is open ends at the front.
pub fn ends_at(frame: Frame, tokens: &[Token]) -> bool
    ensures { result ≡ ends_at frame tokens.now }
{
    match tokens {
        [first, ..] => ends(frame, first),
        [] => false,
    }
}

fn ends(frame: Frame, token: &Token) -> bool
    ensures { result ≡ ends frame (after_of token.now.shape) }
{
    match &token.shape {
        Shape::Sign(sign) => match frame {
            Frame::Group | Frame::InWidth => is_close(*sign),
            Frame::InStart => is_comma(*sign),
            Frame::InIndex => is_index_end(*sign),
        },
        _ => false,
    }
}

fn is_close(sign: Sign) -> bool
    ensures { result ≡ closes (sign_after sign) }
{
    matches!(sign, Sign::CloseParen)
}

fn is_comma(sign: Sign) -> bool
    ensures { result ≡ separates (sign_after sign) }
{
    matches!(sign, Sign::Comma)
}

fn is_index_end(sign: Sign) -> bool
    ensures { result ≡ ends_index (sign_after sign) }
{
    matches!(sign, Sign::CloseBracket)
}

/// Whether an index begins at the front.
pub fn index_at(tokens: &[Token]) -> bool
    ensures { result ≡ index_at tokens.now }
{
    match tokens {
        [first, ..] => is_index(first),
        [] => false,
    }
}

fn is_index(token: &Token) -> bool
    ensures { result ≡ is_index (after_of token.now.shape) }
{
    matches!(&token.shape, Shape::Sign(Sign::OpenBracket))
}

/// The name after a function's word: a bracket, the name, and what goes on or ends after it.
pub fn argument(function: Function, tokens: &[Token]) -> Option<&Word>
    ensures { option_copied result ≡ argument function tokens.now }
{
    match tokens {
        [open, name, end, ..] => {
            if is_open(open) && ends_name(function, end) {
                named_by(function, name)
            } else {
                None
            }
        }
        _ => None,
    }
}

fn is_open(token: &Token) -> bool
    ensures { result ≡ is_bracket (start_of token.now.shape) }
{
    matches!(&token.shape, Shape::Sign(Sign::OpenParen))
}

fn ends_name(function: Function, token: &Token) -> bool
    ensures { result ≡ ends_name function (after_of token.now.shape) }
{
    match function {
        Function::CountOf | Function::ArrayIndex | Function::Data(_) => ends(Frame::Group, token),
        Function::BitField => ends(Frame::InStart, token),
    }
}

fn named_by(function: Function, token: &Token) -> Option<&Word>
    ensures { option_copied result ≡ named_by function token.now.shape }
{
    match &token.shape {
        Shape::Word(word) if may_name(function, role_of(word)) => Some(word),
        _ => None,
    }
}

fn may_name(function: Function, role: Role) -> bool
    ensures { result ≡ may_name function role }
{
    match function {
        Function::CountOf | Function::ArrayIndex => role.is_name(),
        Function::BitField | Function::Data(_) => role.is_label(),
    }
}
