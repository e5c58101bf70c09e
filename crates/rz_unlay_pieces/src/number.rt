//! Numbers at a place: those of the row, and those with fixed values. They are defined in `specs/Pieces`.

ghost use Rattle.std.specs.Prelude.{◌≡◌, ◌+◌, ◌<◌, ◌≤◌, ◌^◌, nat_abs, false, length, IfOk, IfSome, None, Ok, Some, option_map};
ghost use Rattle.rz_bits.specs.View.{number_at, seen};
ghost use Rattle.rz_expr.specs.Environment.{Environment};
ghost use Rattle.rz_expr.specs.Term.{term_of};
ghost use Rattle.rz_types_fields.specs.Field.{plain_number};
ghost use Rattle.rz_types_fields.specs.Known.{known, met, Grew};
ghost use Rattle.rz_types_fields.specs.Sees.{marked, Late};
ghost use Rattle.rz_unlay_pieces.specs.Came.{here_of, step_in, step_of};
ghost use Rattle.rz_types_fields.specs.Passed.{Names};
ghost use Rattle.rz_types_fields.specs.declared.field.NumForm.{NumForm};
ghost use Rattle.rz_unlay_pieces.specs.Pieces.{is_stored, late_behind, number_step};
ghost use Rattle.rz_unlay_pieces.specs.Numbers.{stored_step};
ghost use Rattle.rz_unlay_pieces.specs.Seen.{sight_at};

use crate::came::Came;
use crate::late::value_at;
use crate::learnt::{Learnt, mark_bits};
use crate::solve::{Asked, solve_all};
use crate::spot::Spot;
use rz_bits::BitView;
use rz_core::NoMemory;
use rz_expr::Expr;
use rz_types_fields::{NumField, NumForm, Tree, fits_number, stored_number};

/// Reads a number: its bits are the value of the row, or are as its expression is stored, which tells the names that
/// aren't known. `Ok(None)` where they aren't there or aren't stored so. Its bits are late where its expression names a label
/// after it, or has no value beside late bits.
pub fn read_number<'a>(
    spot: &Spot<'_>,
    field: &'a NumField,
    learnt: &mut Learnt<'a>,
    at: u32,
) -> Result<Option<Came>, NoMemory>
    requires width { nat_abs field.now.width ≤ 32 }
    requires marks { length learnt.old.marks ≤ at }
    ensures step { IfOk result (λ came. option_map (step_of learnt.new) came
        ≡ number_step (here_of spot.now (met learnt.old.notes.items)) field.now.form field.now.width (plain_number field.now).fixed (known learnt.old.notes.items) at (marked at learnt.old.marks)) }
    ensures within { IfOk result (λ came. IfSome came (λ c. c.after ≤ length (seen spot.now.view.now))) }
    ensures met { IfOk result (λ came. met learnt.new.notes.items ≡ met learnt.old.notes.items) }
    ensures grew { IfOk result (λ came. Grew learnt.old.notes.items learnt.new.notes.items) }
    ensures marks { IfOk result (λ came. IfSome came (λ c. length learnt.new.marks ≤ c.after)) }
{
    match &field.fixed {
        Some(expr) => read_fixed(spot, expr, field.form, field.width, learnt, at),
        None => Ok(read_free(spot, field.width, at)),
    }
}

/// Reads a number of the row.
#[tactic(auto, using(crate::proofs::PieceSteps::seen_length, crate::proofs::Counts::count_number))]
fn read_free(spot: &Spot<'_>, width: i32, at: u32) -> Option<Came>
    requires { nat_abs width ≤ 32 }
    ensures step { (before : Names) (form : NumForm) (names : Environment) (late : Late)
        → option_map (step_in names (late_behind late (nat_abs width) false)) result ≡ number_step (here_of spot.now before) form width None names at late }
    ensures after { IfSome result (λ c. c.after ≡ at + nat_abs width) }
    ensures within { IfSome result (λ c. c.after ≤ length (seen spot.now.view.now)) }
{
    match number_at(spot.view, at, width) {
        Some(number) => Some(Came {
            value: Some(Tree::Number(number)),
            after: at + width.unsigned_abs(),
            cost: 1,
        }),
        None => None,
    }
}

/// Reads a number with a fixed value.
pub fn read_fixed<'a>(
    spot: &Spot<'_>,
    expr: &'a Expr,
    form: NumForm,
    width: i32,
    learnt: &mut Learnt<'a>,
    at: u32,
) -> Result<Option<Came>, NoMemory>
    requires width { nat_abs width ≤ 32 }
    requires marks { length learnt.old.marks ≤ at }
    ensures step { IfOk result (λ came. option_map (step_of learnt.new) came
        ≡ number_step (here_of spot.now (met learnt.old.notes.items)) form width (Some (term_of expr.now)) (known learnt.old.notes.items) at (marked at learnt.old.marks)) }
    ensures none { IfOk result (λ came. IfSome came (λ c. c.value ≡ None)) }
    ensures within { IfOk result (λ came. IfSome came (λ c. c.after ≤ length (seen spot.now.view.now))) }
    ensures met { IfOk result (λ came. met learnt.new.notes.items ≡ met learnt.old.notes.items) }
    ensures grew { IfOk result (λ came. Grew learnt.old.notes.items learnt.new.notes.items) }
    ensures marks { IfOk result (λ came. IfSome came (λ c. length learnt.new.marks ≤ c.after)) }
{
    let bits = width.unsigned_abs();
    match number_at(spot.view, at, width) {
        Some(number) => {
            let asked = Asked {
                whole: expr,
                width: bits,
                stored: number,
                spot,
                at,
            };
            if solve_all(expr, &asked, learnt)? {
                read_stored(spot, expr, form, width, number, learnt, at)
            } else {
                Ok(None)
            }
        }
        None => Ok(None),
    }
}

/// The number in the bits of a field of this width.
fn number_at(view: &BitView<'_>, at: u32, width: i32) -> Option<u32>
    requires { nat_abs width ≤ 32 }
    ensures number { result ≡ number_at (seen view.now) at (nat_abs width) }
    ensures small { IfSome result (λ n. n < 2 ^ nat_abs width) }
    ensures within { IfSome result (λ n. at + nat_abs width ≤ length (seen view.now)) }
{
    view.at(at, width.unsigned_abs() as u8)
}

/// Reads a number with a fixed value whose names are known: it is in range and is stored as this number.
fn read_stored(
    spot: &Spot<'_>,
    expr: &Expr,
    form: NumForm,
    width: i32,
    number: u32,
    learnt: &mut Learnt<'_>,
    at: u32,
) -> Result<Option<Came>, NoMemory>
    requires width { nat_abs width ≤ 32 }
    requires within { at + nat_abs width ≤ length (seen spot.now.view.now) }
    requires marks { length learnt.old.marks ≤ at }
    ensures step { IfOk result (λ came. option_map (step_of learnt.new) came
        ≡ stored_step (met learnt.old.notes.items) form width (term_of expr.now) number (sight_at spot.now learnt.old at) (known learnt.old.notes.items) at (marked at learnt.old.marks)) }
    ensures none { IfOk result (λ came. IfSome came (λ c. c.value ≡ None)) }
    ensures after { IfOk result (λ came. IfSome came (λ c. c.after ≡ at + nat_abs width)) }
    ensures notes { IfOk result (λ came. learnt.new.notes.items ≡ learnt.old.notes.items) }
    ensures marks { IfOk result (λ came. IfSome came (λ c. length learnt.new.marks ≤ c.after)) }
{
    match value_at(expr, spot, learnt, at) {
        Some(valued) => {
            if is_stored(form, width, valued.value, number) {
                let bits = width.unsigned_abs();
                mark_bits(valued.late, at, bits, &mut learnt.marks)?;
                Ok(Some(Came {
                    value: None,
                    after: at + bits,
                    cost: 0,
                }))
            } else {
                Ok(None)
            }
        }
        None => Ok(None),
    }
}

/// Whether a value is in range and is stored as this number.
fn is_stored(form: NumForm, width: i32, value: i32, number: u32) -> bool
    ensures { result ≡ is_stored form width (Ok value) number }
{
    fits_number(form, width, value) && stored_number(width, value) == number
}
