//! The reader of expressions, from loose operators down to operands. The grammar is in `specs/Grammar`.

ghost use Rattle.std.specs.Prelude.{◌≡◌, ◌⊎◌, ◌+◌, ◌*◌, ◌%◌, ◌^◌, ◌<◌, ◌≤◌, true, None, pos, length, drop, List, IfOk, IfSome, MatchOption};
ghost use Rattle.rz_expr.specs.Fronts.{NoneBegins, NoneEnds};
ghost use Rattle.rz_expr.specs.Grammar.{bytes_number, is_bracket, loosest, sign_start, word_start, Bracket, Calls, IsExpression, Label, LongestExpression, NoExpression};
ghost use Rattle.rz_expr.specs.Reading.{prefix_count, prefix_of, prefixed_term, Begins, IsEnded, IsFront};
ghost use Rattle.rz_expr.specs.Term.{term_of, BitsAt, Constant, Indexed, OfTwo, Term};
ghost use Rattle.rz_expr.specs.Value.{reduced};
ghost use Rattle.rz_words.specs.Words.{role_of};
ghost use Rattle.rz_words.specs.declared.words.Function.TheVariants as function;
ghost use Rattle.rz_lex.specs.declared.token.Token.{Token};

use crate::operators::{Frame, argument, ends_at, index_at, operator_at, prefix_at, prefix_count};
use crate::value::signed;
use crate::{BinaryOp, Expr, Function, Role, role_of};
use rz_core::{Bytes, NoMemory, Word};
use rz_lex::{Shape, Sign, Token, Tokens};
use std::alloc::Global;

/// The level of the operators that bind most loosely.
const LOOSEST: u8 = 10;

/// An expression that was read, and where it ends.
#[derive(Debug, Drop)]
pub struct ReadExpr {
    /// The expression.
    pub expr: Expr,
    /// The position of the token after it.
    pub end: u64,
}

/// An expression at the front of some tokens, and how many of them it is.
#[derive(Drop)]
struct Front {
    expr: Expr,
    length: usize,
}

/// The longest expression that begins at a token. `start` is at most the number of tokens. `None` comes
/// exactly where no expression begins there. It takes time in proportion to what it looks at, and reading
/// goes as deep as brackets are open. What it has made is as deep as its operators are nested, also where
/// it lets it go since a bracket stays open: callers bound the tokens that they hand in. (MPW Rez.)
pub fn read_expr(alloc: Global, tokens: &Tokens, start: u64) -> Result<Option<ReadExpr>, NoMemory>
    requires { start ≤ length tokens.now }
    ensures found { IfOk result (λ found. MatchOption found (NoExpression (drop start tokens.now))
        (λ read. LongestExpression (drop start tokens.now) (drop read.end tokens.now) (term_of read.expr))) }
    ensures end { IfOk result (λ found. IfSome found
        (λ read. (start < read.end) × (read.end ≤ length tokens.now))) }
    ensures every { (rest : List Token) (term : Term) → LongestExpression (drop start tokens.now) rest term
        → IfOk result (λ found. MatchOption found ⊥
        (λ read. (drop read.end tokens.now ≡ rest) × (term_of read.expr ≡ term))) }
    ensures none { NoExpression (drop start tokens.now) → IfOk result (λ found. found ≡ None) }
{
    read_at(alloc, tokens, start)
}

/// The same, with the clauses that say it one way; that it is so the other way too follows from them.
fn read_at(alloc: Global, tokens: &Tokens, start: u64) -> Result<Option<ReadExpr>, NoMemory>
    requires { start ≤ length tokens.now }
    ensures found { IfOk result (λ found. MatchOption found (NoExpression (drop start tokens.now))
        (λ read. LongestExpression (drop start tokens.now) (drop read.end tokens.now) (term_of read.expr))) }
    ensures end { IfOk result (λ found. IfSome found
        (λ read. (start < read.end) × (read.end ≤ length tokens.now))) }
{
    let rest = behind(tokens.as_slice(), start as usize);
    match read_level(alloc, rest, LOOSEST)? {
        Some(front) => Ok(Some(ReadExpr {
            expr: front.expr,
            end: start + front.length as u64,
        })),
        None => Ok(None),
    }
}

/// The expression that the tokens are, whole. `None` comes exactly where they are none. Time and depth are
/// those of `read_expr`. (MPW Rez.)
pub fn read_whole(alloc: Global, tokens: &[Token]) -> Result<Option<Expr>, NoMemory>
    ensures { IfOk result (λ found. MatchOption found ((term : Term) → IsExpression tokens.now term → ⊥)
        (λ expr. IsExpression tokens.now (term_of expr))) }
{
    match read_level(alloc, tokens, loosest_in(tokens))? {
        Some(front) => {
            if front.length == tokens.len() {
                Ok(Some(front.expr))
            } else {
                drop(front);
                Ok(None)
            }
        }
        None => Ok(None),
    }
}

/// The level of the loosest operator that can stand between operands in these tokens: with its operands it takes three
/// of them at least.
fn loosest_in(tokens: &[Token]) -> u8
    ensures level { (result ≡ loosest) ⊎ ((result ≡ 0) × (length tokens.now ≤ 2)) }
    ensures within { result ≤ loosest }
{
    if tokens.len() <= 2 { 0 } else { LOOSEST }
}

/// The tokens after the first so many.
fn behind(tokens: &[Token], n: usize) -> &[Token]
    requires { n ≤ length tokens.now }
    ensures { result.now ≡ drop n tokens.now }
{
    tokens.split_at(n).1
}

/// The longest expression at the front whose operators outside brackets have at most this level.
#[cycle(read)]
fn read_level(alloc: Global, tokens: &[Token], level: u8) -> Result<Option<Front>, NoMemory>
    requires { level ≤ loosest }
    ensures { IfOk result (λ found. MatchOption found (NoneBegins tokens.now)
        (λ front. IsFront level tokens.now front.length (term_of front.expr))) }
{
    if level == 0 {
        return read_prefixed(alloc, tokens);
    }
    let (mut expr, mut length) = match read_level(alloc, tokens, level - 1)? {
        Some(front) => (front.expr, front.length),
        None => return Ok(None),
    };
    'operands: loop {
        let rest = behind(tokens, length);
        let Some(op) = operator_at(rest, level) else {
            return Ok(Some(Front { expr, length }));
        };
        let right = match read_level(alloc, behind(rest, 1), level - 1) {
            Ok(Some(right)) => right,
            Ok(None) => return Ok(Some(Front { expr, length })),
            Err(NoMemory) => {
                drop(expr);
                return Err(NoMemory);
            }
        };
        expr = binary(alloc, op, expr, right.expr)?;
        length = length + 1 + right.length;
    }
}

/// An operator between its operands.
fn binary(alloc: Global, op: BinaryOp, left: Expr, right: Expr) -> Result<Expr, NoMemory>
    ensures { IfOk result (λ expr. term_of expr ≡ OfTwo op (term_of left) (term_of right)) }
{
    let (left, right) = both_boxed(alloc, left, right)?;
    Ok(Expr::Binary(op, left, right))
}

/// Two expressions, each in a box.
fn both_boxed(alloc: Global, left: Expr, right: Expr) -> Result<(Box<Expr>, Box<Expr>), NoMemory>
    ensures { IfOk result (λ both. (both.0.value ≡ left) × (both.1.value ≡ right)) }
{
    match Box::new(alloc, left) {
        Ok(left) => Ok((left, Box::new(alloc, right)?)),
        Err(_) => {
            drop(right);
            Err(NoMemory)
        }
    }
}

/// An operand with the operators before it.
#[cycle(read)]
fn read_prefixed(alloc: Global, tokens: &[Token]) -> Result<Option<Front>, NoMemory>
    ensures { IfOk result (λ found. MatchOption found (NoneBegins tokens.now)
        (λ front. IsFront 0 tokens.now front.length (term_of front.expr))) }
{
    let count = prefix_count(tokens);
    match read_operand(alloc, behind(tokens, count))? {
        Some(front) => Ok(Some(Front {
            expr: prefixed(alloc, &tokens[..count], front.expr)?,
            length: count + front.length,
        })),
        None => Ok(None),
    }
}

/// An operand after these operators.
#[tactic(auto, using(crate::proofs::Prefixes::last_prefix))]
fn prefixed(alloc: Global, signs: &[Token], operand: Expr) -> Result<Expr, NoMemory>
    ensures { IfOk result (λ expr. term_of expr ≡ prefixed_term signs.now (term_of operand)) }
{
    let mut expr = operand;
    let mut left = signs;
    while let Some((last, before)) = left.split_last() {
        if let Some(op) = prefix_at(last) {
            expr = Expr::Unary(op, Box::new(alloc, expr)?);
        }
        left = before;
    }
    Ok(expr)
}

/// An operand before which no operator stands.
#[cycle(read)]
fn read_operand(alloc: Global, tokens: &[Token]) -> Result<Option<Front>, NoMemory>
    requires { prefix_count tokens.now ≡ 0 }
    ensures { IfOk result (λ found. MatchOption found (NoneBegins tokens.now)
        (λ front. IsFront 0 tokens.now front.length (term_of front.expr))) }
{
    match tokens {
        [first, ..] => match &first.shape {
            Shape::Number(number) => Ok(Some(alone(Expr::Number(signed(*number))))),
            Shape::Literal(bytes) => Ok(Some(alone(Expr::Number(literal_number(bytes))))),
            Shape::Text(_) => Ok(None),
            Shape::Word(word) => read_word(alloc, tokens, word),
            Shape::Sign(sign) => read_sign(alloc, tokens, *sign),
        },
        [] => Ok(None),
    }
}

/// An operand that begins with a sign that is no operator: a bracket.
#[cycle(read)]
fn read_sign(alloc: Global, tokens: &[Token], sign: Sign) -> Result<Option<Front>, NoMemory>
    requires begins { Begins (sign_start sign) tokens.now }
    requires operand { prefix_of sign ≡ None }
    ensures { IfOk result (λ found. MatchOption found (NoneBegins tokens.now)
        (λ front. IsFront 0 tokens.now front.length (term_of front.expr))) }
{
    if is_open(sign) {
        read_group(alloc, tokens)
    } else {
        Ok(None)
    }
}

fn is_open(sign: Sign) -> bool
    ensures { result ≡ is_bracket (sign_start sign) }
{
    matches!(sign, Sign::OpenParen)
}

/// An expression of one token.
fn alone(expr: Expr) -> Front
    ensures { (result.expr ≡ expr) × (result.length ≡ 1) }
{
    Front { expr, length: 1 }
}

/// The number of a literal: its bytes, the last of them lowest.
#[tactic(auto, using(crate::proofs::Literals::wraps_low_bits))]
fn literal_number(bytes: &Bytes) -> i32
    ensures { result ≡ reduced (pos (bytes_number 0 bytes.now)) }
{
    signed(low_bits(bytes.as_slice()))
}

/// The low 32 bits of the number that these bytes are.
fn low_bits(bytes: &[u8]) -> u32
    ensures { result ≡ bytes_number 0 bytes.now % 2 ^ 32 }
{
    let mut number = 0;
    let mut rest = bytes;
    while let [byte, after @ ..] = rest {
        number = with_byte(number, *byte);
        rest = after;
    }
    number
}

fn with_byte(number: u32, byte: u8) -> u32
    ensures { result ≡ (256 * number + byte) % 2 ^ 32 }
{
    number.wrapping_mul(256).wrapping_add(u32::from(byte))
}

/// An operand that begins with a word.
#[cycle(read)]
fn read_word(alloc: Global, tokens: &[Token], word: &Word) -> Result<Option<Front>, NoMemory>
    requires { Begins (word_start (role_of word.now.bytes) word.now.bytes) tokens.now }
    ensures { IfOk result (λ found. MatchOption found (NoneBegins tokens.now)
        (λ front. IsFront 0 tokens.now front.length (term_of front.expr))) }
{
    match role_of(word) {
        Role::Label => read_label(alloc, tokens, word),
        Role::OtherName => Ok(Some(alone(Expr::Name(word.copy(alloc)?)))),
        Role::Fact(which) => Ok(Some(alone(Expr::Fact(which)))),
        Role::Call(Function::CountOf) => read_count(alloc, tokens),
        Role::Call(Function::ArrayIndex) => read_row_number(alloc, tokens),
        Role::Call(Function::Data(width)) => read_data(alloc, tokens, width),
        Role::Call(Function::BitField) => read_bit_field(alloc, tokens),
        Role::Text(_) | Role::Reserved(_) | Role::OtherFunction => Ok(None),
    }
}

/// A label, with the index after it where one is there: where what begins as one goes on otherwise, the label
/// alone is read.
#[cycle(read)]
fn read_label(alloc: Global, tokens: &[Token], label: &Word) -> Result<Option<Front>, NoMemory>
    requires { Begins (Label label.now.bytes) tokens.now }
    ensures { IfOk result (λ found. MatchOption found (NoneBegins tokens.now)
        (λ front. IsFront 0 tokens.now front.length (term_of front.expr))) }
{
    if !index_at(behind(tokens, 1)) {
        return Ok(Some(alone(Expr::Name(label.copy(alloc)?))));
    }
    match read_until(alloc, behind(tokens, 2), Frame::InIndex)? {
        Some(index) => Ok(Some(Front {
            expr: indexed(alloc, label, index.expr)?,
            length: 2 + index.length,
        })),
        None => Ok(Some(alone(Expr::Name(label.copy(alloc)?)))),
    }
}

/// A label in the row whose number is the index.
fn indexed(alloc: Global, label: &Word, index: Expr) -> Result<Expr, NoMemory>
    ensures { IfOk result (λ expr. term_of expr ≡ Indexed label.now.bytes (term_of index)) }
{
    match label.copy(alloc) {
        Ok(label) => Ok(Expr::Indexed(label, Box::new(alloc, index)?)),
        Err(NoMemory) => {
            drop(index);
            Err(NoMemory)
        }
    }
}

/// The number of rows of an array.
fn read_count(alloc: Global, tokens: &[Token]) -> Result<Option<Front>, NoMemory>
    requires { Begins (Calls function.CountOf) tokens.now }
    ensures { IfOk result (λ found. MatchOption found (NoneBegins tokens.now)
        (λ front. IsFront 0 tokens.now front.length (term_of front.expr))) }
{
    match argument(Function::CountOf, behind(tokens, 1)) {
        Some(name) => Ok(Some(Front {
            expr: Expr::Count(name.copy(alloc)?),
            length: 4,
        })),
        None => Ok(None),
    }
}

/// The number of a row of an array.
fn read_row_number(alloc: Global, tokens: &[Token]) -> Result<Option<Front>, NoMemory>
    requires { Begins (Calls function.ArrayIndex) tokens.now }
    ensures { IfOk result (λ found. MatchOption found (NoneBegins tokens.now)
        (λ front. IsFront 0 tokens.now front.length (term_of front.expr))) }
{
    match argument(Function::ArrayIndex, behind(tokens, 1)) {
        Some(name) => Ok(Some(Front {
            expr: Expr::ArrayIndex(name.copy(alloc)?),
            length: 4,
        })),
        None => Ok(None),
    }
}

/// So many bits at a label.
fn read_data(alloc: Global, tokens: &[Token], width: u8) -> Result<Option<Front>, NoMemory>
    requires { Begins (Calls (function.Data width)) tokens.now }
    ensures { IfOk result (λ found. MatchOption found (NoneBegins tokens.now)
        (λ front. IsFront 0 tokens.now front.length (term_of front.expr))) }
{
    match argument(Function::Data(width), behind(tokens, 1)) {
        Some(name) => Ok(Some(Front {
            expr: data_at(alloc, name, width)?,
            length: 4,
        })),
        None => Ok(None),
    }
}

/// The bits after a label, from a start on and as many as a width says.
fn bits_at(alloc: Global, label: &Word, start: Expr, width: Expr) -> Result<Expr, NoMemory>
    ensures { IfOk result (λ expr. term_of expr ≡ BitsAt label.now.bytes (term_of start) (term_of width)) }
{
    let (start, width) = both_boxed(alloc, start, width)?;
    match label.copy(alloc) {
        Ok(label) => Ok(Expr::Bits(label, start, width)),
        Err(NoMemory) => {
            drop(start);
            drop(width);
            Err(NoMemory)
        }
    }
}

/// So many bits at a label.
fn data_at(alloc: Global, label: &Word, width: u8) -> Result<Expr, NoMemory>
    ensures { IfOk result (λ expr. term_of expr ≡ BitsAt label.now.bytes (Constant (pos 0)) (Constant (pos width))) }
{
    let width = Expr::Number(i32::from(width));
    bits_at(alloc, label, Expr::Number(0), width)
}

/// A bit field.
#[cycle(read)]
fn read_bit_field(alloc: Global, tokens: &[Token]) -> Result<Option<Front>, NoMemory>
    requires { Begins (Calls function.BitField) tokens.now }
    ensures { IfOk result (λ found. MatchOption found (NoneBegins tokens.now)
        (λ front. IsFront 0 tokens.now front.length (term_of front.expr))) }
{
    let Some(name) = argument(Function::BitField, behind(tokens, 1)) else {
        return Ok(None);
    };
    let rest = behind(tokens, 4);
    let Some(start) = read_until(alloc, rest, Frame::InStart)? else {
        return Ok(None);
    };
    match read_until(alloc, behind(rest, start.length), Frame::InWidth) {
        Ok(Some(width)) => Ok(Some(Front {
            expr: bits_at(alloc, name, start.expr, width.expr)?,
            length: 4 + start.length + width.length,
        })),
        Ok(None) => {
            drop(start);
            Ok(None)
        }
        Err(NoMemory) => {
            drop(start);
            Err(NoMemory)
        }
    }
}

/// An expression in brackets.
#[cycle(read)]
fn read_group(alloc: Global, tokens: &[Token]) -> Result<Option<Front>, NoMemory>
    requires { Begins Bracket tokens.now }
    ensures { IfOk result (λ found. MatchOption found (NoneBegins tokens.now)
        (λ front. IsFront 0 tokens.now front.length (term_of front.expr))) }
{
    match read_until(alloc, behind(tokens, 1), Frame::Group)? {
        Some(front) => Ok(Some(Front {
            expr: front.expr,
            length: 1 + front.length,
        })),
        None => Ok(None),
    }
}

/// An expression, and after it the end of what is open.
#[cycle(read)]
fn read_until(alloc: Global, tokens: &[Token], frame: Frame) -> Result<Option<Front>, NoMemory>
    ensures { IfOk result (λ found. MatchOption found (NoneEnds frame tokens.now)
        (λ front. IsEnded frame tokens.now front.length (term_of front.expr))) }
{
    match read_level(alloc, tokens, LOOSEST)? {
        Some(front) => {
            if ends_at(frame, behind(tokens, front.length)) {
                Ok(Some(Front {
                    expr: front.expr,
                    length: front.length + 1,
                }))
            } else {
                drop(front);
                Ok(None)
            }
        }
        None => Ok(None),
    }
}
