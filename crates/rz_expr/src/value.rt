//! The value of an expression, or its first fault. What each operator gives is in `specs/Value`.

ghost use Rattle.std.specs.Prelude.{◌≡◌, ◌≢◌, ◌^◌, ◌+ℤ◌, ◌*ℤ◌, false, pos, int_div, int_rem, Err};
ghost use Rattle.std.specs.Int.{int_shr};
ghost use Rattle.rz_core.specs.Stop.{Gives};
ghost use Rattle.rz_core.specs.declared.stop.Stop.TheVariants as stop;
ghost use Rattle.rz_expr.specs.Environment.{rows_key};
ghost use Rattle.rz_expr.specs.Mention.{has_names};
ghost use Rattle.rz_expr.specs.NameKey.{key_of};
ghost use Rattle.rz_expr.specs.Term.{term_of};
ghost use Rattle.rz_expr.specs.Unvalued.{fault_of, held, IsCopyOf};
ghost use Rattle.rz_expr.specs.declared.value.EvalFault.TheVariants as fault;
ghost use Rattle.rz_expr.specs.Value.{divided, known_value, IsUnknown, number_at, operate, operate_one, place_in_row, reduced, shifted, truth, value_of};

use crate::{BinaryOp, Env, Expr, Key, UnaryOp};
use rz_core::{NoMemory, Stop, Word};
use std::alloc::Global;

/// Why an expression has no value.
#[derive(Debug, Drop)]
pub enum EvalFault {
    /// A quotient or a remainder by 0.
    ZeroDivisor,
    /// A name or an array has no value.
    UnknownName(Word),
    /// The index of a label isn't the number of a row.
    BadIndex(i32),
    /// Bits that are not there: the first of them, and the one after the last.
    LaterData(i64, i64),
    /// Bits are asked for, but not 1 to 32 of them.
    DataWidth(i32),
    /// A shift by a count outside 0 to 31.
    BadShift(i32),
}

/// Why an expression has no value, as [`EvalFault`]; the expression lends the name that has none.
#[derive(Clone, Copy, Debug)]
pub enum Unvalued<'a> {
    /// A quotient or a remainder by 0.
    ZeroDivisor,
    /// A name or an array has no value.
    UnknownName(&'a Word),
    /// The index of a label isn't the number of a row.
    BadIndex(i32),
    /// Bits that are not there: the first of them, and the one after the last.
    LaterData(i64, i64),
    /// Bits are asked for, but not 1 to 32 of them.
    DataWidth(i32),
    /// A shift by a count outside 0 to 31.
    BadShift(i32),
}

/// The value of an expression, or its first fault: the left operand's, else the right operand's, else the
/// operator's; of bits the name's, else the start's, else the width's, else that of bits that aren't
/// there; of an indexed label the index's, else that of a label whose rows aren't known, else that of an
/// index that is the number of none of them, from 1. Both sides of `&&` and `||` are always computed.
/// Numbers have 32 bits and a sign; sums, differences, products and left shifts wrap. Memory is taken for
/// the name of `UnknownName` alone, and so none for an expression without names. (MPW Rez.)
pub fn eval<E: Env>(alloc: Global, expr: &Expr, env: &E) -> Result<i32, Stop<EvalFault>>
    ensures value { Gives (value_of (term_of expr.now) (E.view env.now)) result }
    ensures nameless { has_names (term_of expr.now) ≡ false → result ≢ Err stop.NoMemory }
    ensures memory { result ≡ Err stop.NoMemory → IsUnknown (value_of (term_of expr.now) (E.view env.now)) }
{
    match value_in(expr, env) {
        Ok(value) => Ok(value),
        Err(fault) => Err(copy_fault(alloc, fault)),
    }
}

/// The fault, with a copy of the name.
fn copy_fault(alloc: Global, fault: Unvalued<'_>) -> Stop<EvalFault>
    ensures { IsCopyOf (fault_of fault.entry) result }
{
    match fault {
        Unvalued::ZeroDivisor => Stop::Refused(EvalFault::ZeroDivisor),
        Unvalued::UnknownName(name) => match name.copy(alloc) {
            Ok(name) => Stop::Refused(EvalFault::UnknownName(name)),
            Err(NoMemory) => Stop::NoMemory,
        },
        Unvalued::BadIndex(number) => Stop::Refused(EvalFault::BadIndex(number)),
        Unvalued::LaterData(first, end) => Stop::Refused(EvalFault::LaterData(first, end)),
        Unvalued::DataWidth(width) => Stop::Refused(EvalFault::DataWidth(width)),
        Unvalued::BadShift(count) => Stop::Refused(EvalFault::BadShift(count)),
    }
}

/// The value of an expression, or its first fault, as [`eval`] gives it. It takes no memory.
pub fn value_in<'a, E: Env>(expr: &'a Expr, env: &E) -> Result<i32, Unvalued<'a>>
    ensures { held result ≡ value_of (term_of expr.now) (E.view env.now) }
{
    match expr {
        Expr::Number(number) => Ok(*number),
        Expr::Name(name) => known(env, name, Key::Place(name)),
        Expr::Indexed(label, index) => {
            let number = value_in(index, env)?;
            place_in_row(env, label, number)
        }
        Expr::Count(array) => known(env, array, Key::Count(array)),
        Expr::ArrayIndex(array) => known(env, array, Key::Row(array)),
        Expr::Bits(name, start, width) => {
            let place = known(env, name, Key::Place(name))?;
            let start = value_in(start, env)?;
            let width = value_in(width, env)?;
            number_at(env, place, start, width)
        }
        Expr::Fact(which) => Ok(env.fact(*which)),
        Expr::Unary(op, operand) => {
            let value = value_in(operand, env)?;
            Ok(operate_one(*op, value))
        }
        Expr::Binary(op, left, right) => {
            let left = value_in(left, env)?;
            let right = value_in(right, env)?;
            operate(*op, left, right)
        }
    }
}

/// The value of a key with this name, wrapped to 32 bits with a sign, where it has one.
fn known<'a, E: Env>(env: &E, name: &'a Word, key: Key<'_>) -> Result<i32, Unvalued<'a>>
    ensures { held result ≡ known_value name.now.bytes ((E.view env.now).names.give (key_of key.entry)) }
{
    match env.give(key) {
        Some(value) => Ok(reduced(value)),
        None => Err(Unvalued::UnknownName(name)),
    }
}

/// The place of a label in the row of this number, where its array has so many rows.
fn place_in_row<'a, E: Env>(env: &E, label: &'a Word, number: i32) -> Result<i32, Unvalued<'a>>
    ensures { held result ≡ place_in_row label.now.bytes (E.view env.now).names number ((E.view env.now).names.give (rows_key label.now.bytes)) }
{
    match env.give(Key::Rows(label)) {
        Some(rows) => {
            if number < 1 || i128::from(number) > rows {
                Err(Unvalued::BadIndex(number))
            } else {
                known(env, label, Key::PlaceIn(label, number))
            }
        }
        None => Err(Unvalued::UnknownName(label)),
    }
}

/// The number in the bits, as many as `width` says, that begin `start` bits after a place.
fn number_at<'a, E: Env>(env: &E, place: i32, start: i32, width: i32) -> Result<i32, Unvalued<'a>>
    ensures { held result ≡ number_at (E.view env.now) (place +ℤ start) width }
{
    if width < 1 || width > 32 {
        return Err(Unvalued::DataWidth(width));
    }
    match env.bits(first_bit(place, start), width) {
        Some(number) => Ok(signed(number)),
        None => Err(later_data(place, start, width)),
    }
}

/// So many bits that begin so far after a place aren't there.
fn later_data<'a>(place: i32, start: i32, width: i32) -> Unvalued<'a>
    ensures { fault_of result ≡ fault.LaterData (place +ℤ start) (place +ℤ start +ℤ width) }
{
    Unvalued::LaterData(first_bit(place, start), end_bit(place, start, width))
}

fn first_bit(place: i32, start: i32) -> i64
    ensures { result ≡ place +ℤ start }
{
    i64::from(place) + i64::from(start)
}

fn end_bit(place: i32, start: i32, width: i32) -> i64
    ensures { result ≡ place +ℤ start +ℤ width }
{
    i64::from(place) + i64::from(start) + i64::from(width)
}

/// A number of 32 bits as one with a sign.
#[tactic(auto, using(crate::proofs::Bits::wrap_natural))]
pub fn signed(number: u32) -> i32
    ensures { result ≡ reduced (pos number) }
{
    number.cast_signed()
}

/// A number, wrapped to 32 bits with a sign.
#[tactic(auto, using(crate::proofs::Bits::reduced_again))]
fn reduced(number: i128) -> i32
    ensures { result ≡ reduced number }
{
    signed((number.cast_unsigned() % 4_294_967_296) as u32)
}

fn truth(holds: bool) -> i32
    ensures { result ≡ truth holds }
{
    i32::from(holds)
}

/// An operator and its operand.
#[tactic(auto, using(std::proofs::lemmas::Int::wraps))]
fn operate_one(op: UnaryOp, operand: i32) -> i32
    ensures { result ≡ operate_one op operand }
{
    match op {
        UnaryOp::Minus => operand.wrapping_neg(),
        UnaryOp::Complement => !operand,
        UnaryOp::Not => truth(operand == 0),
    }
}

/// An operator between its operands.
#[tactic(auto, using(std::proofs::lemmas::Int::wraps))]
fn operate<'a>(op: BinaryOp, left: i32, right: i32) -> Result<i32, Unvalued<'a>>
    ensures { held result ≡ operate op left right }
{
    match op {
        BinaryOp::Times => Ok(left.wrapping_mul(right)),
        BinaryOp::Divide => quotient(left, right),
        BinaryOp::Remainder => remainder(left, right),
        BinaryOp::Plus => Ok(left.wrapping_add(right)),
        BinaryOp::Minus => Ok(left.wrapping_sub(right)),
        BinaryOp::ShiftLeft => shifted_left(left, right),
        BinaryOp::ShiftRight => shifted_right(left, right),
        BinaryOp::Greater => Ok(truth(left > right)),
        BinaryOp::GreaterEqual => Ok(truth(left >= right)),
        BinaryOp::Less => Ok(truth(left < right)),
        BinaryOp::LessEqual => Ok(truth(left <= right)),
        BinaryOp::Equal => Ok(truth(left == right)),
        BinaryOp::NotEqual => Ok(truth(left != right)),
        BinaryOp::BitAnd => Ok(left & right),
        BinaryOp::BitXor => Ok(left ^ right),
        BinaryOp::BitOr => Ok(left | right),
        BinaryOp::And => Ok(truth(left != 0 && right != 0)),
        BinaryOp::Or => Ok(truth(left != 0 || right != 0)),
    }
}

#[tactic(auto, using(std::proofs::lemmas::Int::wraps))]
fn quotient<'a>(left: i32, right: i32) -> Result<i32, Unvalued<'a>>
    ensures { held result ≡ divided int_div left right }
{
    if right == 0 {
        return Err(Unvalued::ZeroDivisor);
    }
    Ok(left.wrapping_div(right))
}

#[tactic(auto, using(std::proofs::lemmas::Int::wraps))]
fn remainder<'a>(left: i32, right: i32) -> Result<i32, Unvalued<'a>>
    ensures { held result ≡ divided int_rem left right }
{
    if right == 0 {
        return Err(Unvalued::ZeroDivisor);
    }
    Ok(left.wrapping_rem(right))
}

#[tactic(auto, using(std::proofs::lemmas::Int::wraps))]
fn shifted_left<'a>(left: i32, right: i32) -> Result<i32, Unvalued<'a>>
    ensures { held result ≡ shifted (λ number count. number *ℤ pos (2 ^ count)) left right }
{
    if right < 0 || right > 31 {
        return Err(Unvalued::BadShift(right));
    }
    Ok(left.wrapping_shl(right as u32))
}

#[tactic(auto, using(std::proofs::lemmas::Int::wraps))]
fn shifted_right<'a>(left: i32, right: i32) -> Result<i32, Unvalued<'a>>
    ensures { held result ≡ shifted int_shr left right }
{
    if right < 0 || right > 31 {
        return Err(Unvalued::BadShift(right));
    }
    Ok(left >> right)
}
