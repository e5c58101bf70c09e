//! Expressions solved for the numbers of rows and the labels that they name. What is solved is in `specs/Pieces`.

ghost use Rattle.std.specs.Prelude.{◌≡◌, ◌≤◌, ◌%◌, ◌^◌, ◌+ℤ◌, ◌-ℤ◌, ◌*ℤ◌, neg_ℤ, pos, IfOk, Some, option_and_then};
ghost use Rattle.std.specs.Int.{cast_unsigned, w64};
ghost use Rattle.std.specs.Result.{result_ok};
ghost use Rattle.rz_expr.specs.Environment.{count_key, place_key};
ghost use Rattle.rz_expr.specs.NameKey.{key_of};
ghost use Rattle.rz_expr.specs.Term.{term_of};
ghost use Rattle.rz_expr.specs.Value.{value_of};
ghost use Rattle.rz_types_fields.specs.Known.{known, met, Grew};
ghost use Rattle.rz_types_fields.specs.Solve.{exact, found_if, has_key, in_64_bits, solve, undo_left, undo_one, undo_right};
ghost use Rattle.rz_unlay_pieces.specs.Ahead.{in_resource};
ghost use Rattle.rz_unlay_pieces.specs.Asked.{asked_sight, solves};
ghost use Rattle.rz_unlay_pieces.specs.Names.{told};
ghost use Rattle.rz_unlay_pieces.specs.Pieces.{solve_all, solve_key};
ghost use Rattle.rz_unlay_pieces.specs.Power.{power_of};
ghost use Rattle.rz_unlay_pieces.specs.Seen.{env_sight, near_names};

use crate::learnt::Learnt;
use crate::seen::{SpotEnv, value_seen};
use crate::spot::Spot;
use rz_core::{NoMemory, Word};
use rz_expr::{BinaryOp, Expr, Key, UnaryOp, value_in};
use rz_types_fields::{Note, is_same_key, standing_of};

/// An expression that is stored as a number.
#[derive(Clone, Copy)]
pub struct Asked<'r> {
    /// The expression.
    pub whole: &'r Expr,
    /// How many bits the number has.
    pub width: u32,
    /// The number.
    pub stored: u32,
    /// Where the field is read.
    pub spot: &'r Spot<'r>,
    /// The place of the number, in bits.
    pub at: u32,
}

/// Solves the numbers of rows and the labels in an expression that have no value yet, one after the other: each has the value
/// with which the whole expression is stored as this number, and a label lies in the resource. False where there is none.
pub fn solve_all<'a>(
    part: &'a Expr,
    asked: &Asked<'_>,
    learnt: &mut Learnt<'a>,
) -> Result<bool, NoMemory>
    requires { asked.now.width ≤ 32 }
    ensures known { IfOk result (λ holds. told holds (known learnt.new.notes.items)
        ≡ solve_all (near_names asked.now.spot.now) (solves asked.now) (term_of part.now) (known learnt.old.notes.items)) }
    ensures met { IfOk result (λ holds. met learnt.new.notes.items ≡ met learnt.old.notes.items) }
    ensures grew { IfOk result (λ holds. Grew learnt.old.notes.items learnt.new.notes.items) }
    ensures marks { IfOk result (λ holds. learnt.new.marks ≡ learnt.old.marks) }
{
    match part {
        Expr::Name(name) => solve_place(name, asked, learnt),
        Expr::Indexed(_, index) => solve_all(index, asked, learnt),
        Expr::Count(name) => solve_count(name, asked, learnt),
        Expr::Unary(_, operand) => solve_all(operand, asked, learnt),
        Expr::Binary(_, left, right) => {
            if solve_all(left, asked, learnt)? {
                solve_all(right, asked, learnt)
            } else {
                Ok(false)
            }
        }
        Expr::Number(_) | Expr::ArrayIndex(_) | Expr::Bits(..) | Expr::Fact(_) => Ok(true),
    }
}

/// Solves the place of a label, where it isn't known.
fn solve_place<'a>(
    name: &'a Word,
    asked: &Asked<'_>,
    learnt: &mut Learnt<'a>,
) -> Result<bool, NoMemory>
    ensures known { IfOk result (λ holds. told holds (known learnt.new.notes.items)
        ≡ solve_key (solves asked.now) (place_key name.now.bytes) ((near_names asked.now.spot.now (known learnt.old.notes.items)).give (place_key name.now.bytes)) (known learnt.old.notes.items)) }
    ensures met { IfOk result (λ holds. met learnt.new.notes.items ≡ met learnt.old.notes.items) }
    ensures grew { IfOk result (λ holds. Grew learnt.old.notes.items learnt.new.notes.items) }
    ensures marks { IfOk result (λ holds. learnt.new.marks ≡ learnt.old.marks) }
{
    match value_seen(Key::Place(name), asked.spot, learnt) {
        Some(_) => Ok(true),
        None => match solved_place(name, asked, learnt) {
            Some(place) => {
                learnt.notes.push(Note::PlaceTold(name, place))?;
                Ok(true)
            }
            None => Ok(false),
        },
    }
}

/// Solves the number of rows of an array, where it isn't known.
fn solve_count<'a>(
    name: &'a Word,
    asked: &Asked<'_>,
    learnt: &mut Learnt<'a>,
) -> Result<bool, NoMemory>
    requires { asked.now.width ≤ 32 }
    ensures known { IfOk result (λ holds. told holds (known learnt.new.notes.items)
        ≡ solve_key (solves asked.now) (count_key name.now.bytes) ((near_names asked.now.spot.now (known learnt.old.notes.items)).give (count_key name.now.bytes)) (known learnt.old.notes.items)) }
    ensures met { IfOk result (λ holds. met learnt.new.notes.items ≡ met learnt.old.notes.items) }
    ensures grew { IfOk result (λ holds. Grew learnt.old.notes.items learnt.new.notes.items) }
    ensures marks { IfOk result (λ holds. learnt.new.marks ≡ learnt.old.marks) }
{
    match value_seen(Key::Count(name), asked.spot, learnt) {
        Some(_) => Ok(true),
        None => match solved_count(name, asked, learnt) {
            Some(rows) => {
                learnt.notes.push(Note::Told(name, rows))?;
                Ok(true)
            }
            None => Ok(false),
        },
    }
}

/// The place with which the expression is stored as this number, where it lies in the resource.
fn solved_place(name: &Word, asked: &Asked<'_>, learnt: &Learnt<'_>) -> Option<i32>
    ensures { result ≡ solves asked.now (place_key name.now.bytes) (known learnt.now.notes.items) }
{
    let solved = solve_whole(Key::Place(name), asked, learnt);
    in_resource(asked.spot.view.len(), solved)
}

/// A place that was solved, where it lies in a resource of so many bits.
fn in_resource(len: u32, place: Option<i64>) -> Option<i32>
    requires { len ≤ 134217696 }
    ensures { result ≡ in_resource len place }
{
    match place {
        Some(place) => {
            if place >= 0 && place <= i64::from(len) {
                Some(place as i32)
            } else {
                None
            }
        }
        None => None,
    }
}

/// The number of rows with which the expression is stored as this number.
fn solved_count(name: &Word, asked: &Asked<'_>, learnt: &Learnt<'_>) -> Option<i64>
    requires { asked.now.width ≤ 32 }
    ensures { result ≡ solves asked.now (count_key name.now.bytes) (known learnt.now.notes.items) }
{
    match solve_whole(Key::Count(name), asked, learnt) {
        Some(number) => Some(lowest(number, asked.width)),
        None => None,
    }
}

/// The last binary digits of a number in two's complement, so many.
fn lowest(number: i64, width: u32) -> i64
    requires { width ≤ 32 }
    ensures { result ≡ pos (cast_unsigned w64 number % 2 ^ width) }
{
    (number.cast_unsigned() % 2_u64.pow(width)) as i64
}

/// The value of a name with which the whole expression comes to the number.
fn solve_whole(key: Key<'_>, asked: &Asked<'_>, learnt: &Learnt<'_>) -> Option<i64>
    ensures { result ≡ solve (key_of key.entry) (asked_sight asked.now (known learnt.now.notes.items)) (term_of asked.now.whole.now) (pos asked.now.stored) }
{
    let env = SpotEnv {
        spot: asked.spot,
        learnt,
        hides: false,
        at: asked.at,
    };
    solve(key, asked.whole, &env, i64::from(asked.stored))
}

/// The value that a name has for the expression to come to a number.
fn solve(key: Key<'_>, expr: &Expr, env: &SpotEnv<'_>, number: i64) -> Option<i64>
    ensures { result ≡ solve (key_of key.entry) (env_sight env.now) (term_of expr.now) number }
{
    match expr {
        Expr::Name(other) => found_if(is_same_key(key, Key::Place(other)), number),
        Expr::Count(other) => found_if(is_same_key(key, Key::Count(other)), number),
        Expr::Unary(op, operand) => match undo_one(*op, number) {
            Some(inner) => solve(key, operand, env, inner),
            None => None,
        },
        Expr::Binary(op, left, right) => {
            if has_key(left, key) {
                match known_side(right, env) {
                    Some(side) => match undo_left(*op, side, number) {
                        Some(inner) => solve(key, left, env, inner),
                        None => None,
                    },
                    None => None,
                }
            } else {
                match known_side(left, env) {
                    Some(side) => match undo_right(*op, side, number) {
                        Some(inner) => solve(key, right, env, inner),
                        None => None,
                    },
                    None => None,
                }
            }
        }
        Expr::Number(_)
        | Expr::Indexed(..)
        | Expr::ArrayIndex(_)
        | Expr::Bits(..)
        | Expr::Fact(_) => None,
    }
}

/// The number, where it is so.
fn found_if(holds: bool, number: i64) -> Option<i64>
    ensures { result ≡ found_if holds number }
{
    if holds { Some(number) } else { None }
}

/// Whether a name stands in an expression.
fn has_key(expr: &Expr, key: Key<'_>) -> bool
    ensures { result ≡ has_key (key_of key.entry) (term_of expr.now) }
{
    standing_of(key, expr).stands
}

/// The value of an operand, where it has one.
fn known_side(expr: &Expr, env: &SpotEnv<'_>) -> Option<i32>
    ensures { result ≡ result_ok (value_of (term_of expr.now) (env_sight env.now)) }
{
    match value_in(expr, env) {
        Ok(value) => Some(value),
        Err(_) => None,
    }
}

/// The operand of which an operator made this number, where it has 64 bits.
fn undo_one(op: UnaryOp, number: i64) -> Option<i64>
    ensures { result ≡ option_and_then in_64_bits (undo_one op number) }
{
    match op {
        UnaryOp::Minus => negated(number),
        UnaryOp::Complement | UnaryOp::Not => None,
    }
}

/// The left operand, where the right one is known.
fn undo_left(op: BinaryOp, right: i32, number: i64) -> Option<i64>
    ensures { result ≡ option_and_then in_64_bits (undo_left op right number) }
{
    let right = i64::from(right);
    match op {
        BinaryOp::Plus => difference(number, right),
        BinaryOp::Minus => sum(number, right),
        BinaryOp::Times => exact(right, number),
        BinaryOp::Divide => product(right, number),
        BinaryOp::ShiftLeft => match power(right) {
            Some(factor) => exact(factor, number),
            None => None,
        },
        BinaryOp::ShiftRight => match power(right) {
            Some(factor) => product(factor, number),
            None => None,
        },
        _ => None,
    }
}

/// The right operand, where the left one is known.
fn undo_right(op: BinaryOp, left: i32, number: i64) -> Option<i64>
    ensures { result ≡ option_and_then in_64_bits (undo_right op left number) }
{
    let left = i64::from(left);
    match op {
        BinaryOp::Plus => difference(number, left),
        BinaryOp::Minus => difference(left, number),
        BinaryOp::Times => exact(left, number),
        _ => None,
    }
}

fn negated(number: i64) -> Option<i64>
    ensures { result ≡ in_64_bits (neg_ℤ number) }
{
    number.checked_neg()
}

fn sum(one: i64, other: i64) -> Option<i64>
    ensures { result ≡ in_64_bits (one +ℤ other) }
{
    one.checked_add(other)
}

fn difference(one: i64, other: i64) -> Option<i64>
    ensures { result ≡ in_64_bits (one -ℤ other) }
{
    one.checked_sub(other)
}

fn product(factor: i64, number: i64) -> Option<i64>
    ensures { result ≡ in_64_bits (number *ℤ factor) }
{
    number.checked_mul(factor)
}

/// The quotient, where the division leaves nothing.
fn exact(divisor: i64, number: i64) -> Option<i64>
    ensures { result ≡ option_and_then in_64_bits (exact divisor number) }
{
    if divisor == 0 || number.wrapping_rem(divisor) != 0 {
        return None;
    }
    number.checked_div(divisor)
}

/// 2 to the power of a count from 0 to 31.
fn power(count: i64) -> Option<i64>
    ensures { result ≡ power_of count }
{
    if count < 0 || count > 31 {
        return None;
    }
    Some(2_u64.pow(count as u32) as i64)
}
