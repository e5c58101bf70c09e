//! The value of an expression where a field is read, and whether it is late. What is late is defined in
//! `rz_types_fields`, in `specs/Sees`; what is seen in `specs/Seen`.

ghost use Rattle.std.specs.Prelude.{◌≡◌, ◌≤◌, length, map, IfOk, IfSome, option_map};
ghost use Rattle.std.specs.Result.{result_ok};
ghost use Rattle.rz_expr.specs.Term.{term_of};
ghost use Rattle.rz_expr.specs.Value.{value_of};
ghost use Rattle.rz_types_fields.specs.Field.{plain_text};
ghost use Rattle.rz_types_fields.specs.Known.{met};
ghost use Rattle.rz_types_fields.specs.Piece.{terms_of_text};
ghost use Rattle.rz_types_fields.specs.Sees.{is_late, is_later, marked, names_later};
ghost use Rattle.rz_types_fields.specs.Spells.{is_one_late};
ghost use Rattle.rz_unlay_pieces.specs.Seen.{sight_at};

use crate::learnt::Learnt;
use crate::seen::SpotEnv;
use crate::spot::Spot;
use rz_core::NoMemory;
use rz_expr::{Expr, Key, Mention, MentionTest, first_mention, value_in};
use rz_types_fields::{Notes, TextField, is_met, text_expressions};
use std::alloc::Global;

/// The value of an expression, and whether a number with it is late.
#[derive(Clone, Copy)]
pub struct Valued {
    /// The value.
    pub value: i32,
    /// Whether a number with it is late.
    pub late: bool,
}

/// The value of an expression at a place, where it has one, and whether a number with it is late. It is computed without
/// the late bits, and with them only where it has no value then.
pub fn value_at(expr: &Expr, spot: &Spot<'_>, learnt: &Learnt<'_>, at: u32) -> Option<Valued>
    ensures value { option_map (λ v. v.value) result ≡ result_ok (value_of (term_of expr.now) (sight_at spot.now learnt.now at)) }
    ensures late { IfSome result (λ v. v.late ≡ is_late (met learnt.now.notes.items) (marked at learnt.now.marks) (term_of expr.now) (sight_at spot.now learnt.now at)) }
{
    let env = SpotEnv {
        spot,
        learnt,
        hides: true,
        at,
    };
    match value_in(expr, &env) {
        Ok(value) => Some(Valued {
            value,
            late: names_later(expr, &learnt.notes),
        }),
        Err(_) => match value_with_late(expr, spot, learnt, at) {
            Some(value) => Some(Valued { value, late: true }),
            None => None,
        },
    }
}

/// The value of an expression that sees the late bits too, where it has one.
fn value_with_late(expr: &Expr, spot: &Spot<'_>, learnt: &Learnt<'_>, at: u32) -> Option<i32>
    ensures { result ≡ result_ok (value_of (term_of expr.now) (sight_at spot.now learnt.now at)) }
{
    let env = SpotEnv {
        spot,
        learnt,
        hides: false,
        at,
    };
    match value_in(expr, &env) {
        Ok(value) => Some(value),
        Err(_) => None,
    }
}

/// What stands later.
#[derive(Clone, Copy)]
struct Later<'a> {
    notes: &'a Notes<'a>,
}

impl MentionTest for Later<'_> {
    ghost test = { λ test mention. is_later (met test.notes.now.items) mention };

    fn passes(&self, mention: Mention<'_>) -> bool {
        match mention {
            Mention::Alone(name) | Mention::WithBits(name) => {
                !is_met(self.notes, Key::Place(name))
            }
            Mention::Indexed(name) => !is_met(self.notes, Key::Rows(name)),
            Mention::Counted(_) | Mention::Around(_) | Mention::Fact(_) => false,
        }
    }
}

/// Whether an expression names a label that stands later.
fn names_later(expr: &Expr, notes: &Notes<'_>) -> bool
    ensures { result ≡ names_later (met notes.now.items) (term_of expr.now) }
{
    first_mention(expr, &Later { notes }).is_some()
}

/// Whether one of the expressions of a text is late.
pub fn is_late_text(
    alloc: Global,
    text: &TextField,
    spot: &Spot<'_>,
    learnt: &Learnt<'_>,
    at: u32,
) -> Result<bool, NoMemory>
    ensures { IfOk result (λ late. late
        ≡ is_one_late (met learnt.now.notes.items) (marked at learnt.now.marks) (terms_of_text (plain_text text.now)) (sight_at spot.now learnt.now at)) }
{
    let exprs = text_expressions(alloc, text)?;
    Ok(is_one_late(&exprs, spot, learnt, at))
}

/// Whether one of these expressions is late.
fn is_one_late(exprs: &[&Expr], spot: &Spot<'_>, learnt: &Learnt<'_>, at: u32) -> bool
    ensures { result
        ≡ is_one_late (met learnt.now.notes.items) (marked at learnt.now.marks) (map (λ expr. term_of expr.now) exprs.now) (sight_at spot.now learnt.now at) }
{
    for expr in exprs {
        if is_late(expr, spot, learnt, at) {
            return true;
        }
    }
    false
}

/// Whether an expression is late: it names a label after it, or has no value beside the late bits.
fn is_late(expr: &Expr, spot: &Spot<'_>, learnt: &Learnt<'_>, at: u32) -> bool
    ensures { result ≡ is_late (met learnt.now.notes.items) (marked at learnt.now.marks) (term_of expr.now) (sight_at spot.now learnt.now at) }
{
    let env = SpotEnv {
        spot,
        learnt,
        hides: true,
        at,
    };
    match value_in(expr, &env) {
        Ok(_) => names_later(expr, &learnt.notes),
        Err(_) => true,
    }
}
