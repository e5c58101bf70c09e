//! Points and rectangles at a place, number by number. How they are read is in `specs/Points`.

ghost use Rattle.std.specs.Prelude.{◌≡◌, ◌+◌, ◌*◌, ◌≤◌, false, length, map, IfOk, IfSome, None, Some, option_map};
ghost use Rattle.rz_bits.specs.View.{seen};
ghost use Rattle.rz_expr.specs.Environment.{Environment};
ghost use Rattle.rz_expr.specs.Term.{term_of};
ghost use Rattle.rz_types_fields.specs.Field.{plain_points, Points};
ghost use Rattle.rz_types_fields.specs.Known.{known, met, Grew};
ghost use Rattle.rz_types_fields.specs.Passed.{Names};
ghost use Rattle.rz_types_fields.specs.Sees.{marked, Late};
ghost use Rattle.rz_types_fields.specs.Shape.{numbers_of};
ghost use Rattle.rz_unlay.specs.Pieces.{field_of_pieces};
ghost use Rattle.rz_unlay.specs.Points.{fixed_read, group_read};
ghost use Rattle.rz_unlay_pieces.specs.Came.{here_of, step_in, step_of};
ghost use Rattle.rz_unlay_pieces.specs.Pieces.{late_behind};

use rz_core::NoMemory;
use rz_expr::Expr;
use rz_types_fields::{NumForm, Numbers, PointField, Tree};
use rz_unlay_pieces::{Came, Learnt, Spot, read_fixed};
use std::alloc::Global;

/// Reads a point or a rectangle: two or four numbers of 16 bits.
pub fn read_points<'a>(
    alloc: Global,
    spot: &Spot<'_>,
    field: &'a PointField,
    learnt: &mut Learnt<'a>,
    at: u32,
) -> Result<Option<Came>, NoMemory>
    requires at { at ≤ length (seen spot.now.view.now) }
    requires marks { length learnt.old.marks ≤ at }
    ensures step { IfOk result (λ came. option_map (step_of learnt.new) came
        ≡ field_of_pieces (here_of spot.now (met learnt.old.notes.items)) (Points (plain_points field.now)) (known learnt.old.notes.items) at (marked at learnt.old.marks)) }
    ensures within { IfOk result (λ came. IfSome came (λ c. c.after ≤ length (seen spot.now.view.now))) }
    ensures met { IfOk result (λ came. met learnt.new.notes.items ≡ met learnt.old.notes.items) }
    ensures grew { IfOk result (λ came. Grew learnt.old.notes.items learnt.new.notes.items) }
    ensures marks { IfOk result (λ came. IfSome came (λ c. length learnt.new.marks ≤ c.after)) }
{
    match &field.fixed {
        Some(exprs) => read_fixed_numbers(spot, exprs.as_slice(), learnt, at),
        None => read_group(alloc, spot, field.rect, at),
    }
}

/// Reads the numbers of the row.
#[tactic(auto, using(rz_unlay_pieces::proofs::PieceSteps::seen_length, rz_unlay_pieces::proofs::Counts::count_group))]
fn read_group(alloc: Global, spot: &Spot<'_>, rect: bool, at: u32) -> Result<Option<Came>, NoMemory>
    requires { at ≤ length (seen spot.now.view.now) }
    ensures step { IfOk result (λ came. (before : Names) (names : Environment) (late : Late)
        → option_map (step_in names (late_behind late (16 * numbers_of rect) false)) came ≡ group_read (here_of spot.now before) (numbers_of rect) names at late) }
    ensures after { IfOk result (λ came. IfSome came (λ c. c.after ≡ at + 16 * numbers_of rect)) }
    ensures within { IfOk result (λ came. IfSome came (λ c. c.after ≤ length (seen spot.now.view.now))) }
{
    let mut numbers = Numbers::new(alloc);
    let mut after = at;
    for _turn in 0..count_of(rect) {
        match spot.view.at(after, 16) {
            Some(number) => {
                numbers.push(number as u16)?;
                after += 16;
            }
            None => return Ok(None),
        }
    }
    let cost = numbers.len() as u32;
    Ok(Some(Came {
        value: Some(Tree::Group(numbers)),
        after,
        cost,
    }))
}

/// How many numbers it has.
fn count_of(rect: bool) -> u32
    ensures { result ≡ numbers_of rect }
{
    if rect { 4 } else { 2 }
}

/// Reads numbers with fixed values, one after the other.
fn read_fixed_numbers<'a>(
    spot: &Spot<'_>,
    exprs: &'a [Expr],
    learnt: &mut Learnt<'a>,
    at: u32,
) -> Result<Option<Came>, NoMemory>
    requires at { at ≤ length (seen spot.now.view.now) }
    requires marks { length learnt.old.marks ≤ at }
    ensures step { IfOk result (λ came. option_map (step_of learnt.new) came
        ≡ fixed_read (here_of spot.now (met learnt.old.notes.items)) (map term_of exprs.now) (known learnt.old.notes.items) at (marked at learnt.old.marks)) }
    ensures within { IfOk result (λ came. IfSome came (λ c. c.after ≤ length (seen spot.now.view.now))) }
    ensures met { IfOk result (λ came. met learnt.new.notes.items ≡ met learnt.old.notes.items) }
    ensures grew { IfOk result (λ came. Grew learnt.old.notes.items learnt.new.notes.items) }
    ensures marks { IfOk result (λ came. IfSome came (λ c. length learnt.new.marks ≤ c.after)) }
{
    let mut after = at;
    for expr in exprs {
        match read_fixed(spot, expr, NumForm::Integer, 16, learnt, after)? {
            Some(came) => after = came.after,
            None => return Ok(None),
        }
    }
    Ok(Some(Came {
        value: None,
        after,
        cost: 0,
    }))
}
