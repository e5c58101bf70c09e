//! Points and rectangles laid as two or four numbers. What is laid is in `specs/Laid`.

ghost use Rattle.std.specs.Prelude.{IfOk, ◌≡◌, [], length, map, option_map, replicate, None};
ghost use Rattle.rz_layout.specs.Fault.{refusal_of};
ghost use Rattle.rz_core.specs.Stop.{Gives, fault_seen, left};
ghost use Rattle.rz_expr.specs.Term.{term_of};
ghost use Rattle.rz_layout.specs.Laid.{draft_of, IsShort};
ghost use Rattle.rz_layout.specs.Sound.{IsGroupOf};
ghost use Rattle.rz_types_fields.specs.declared.tree.Tree.TheVariants as trees;
ghost use Rattle.rz_types_fields.specs.Laid.{field_laid, in_order, lay, takes_one};
ghost use Rattle.rz_types_fields.specs.Field.{plain_points};
ghost use Rattle.rz_types_fields.specs.Field.{Points};
ghost use Rattle.rz_types_fields.specs.Piece.{fixed_integer, free_integer};

use crate::LayFault;
use crate::laid::Laid;
use crate::number::lay_value;
use rz_core::{Facts, Stop};
use rz_expr::Expr;
use rz_types::values::group_in;
use rz_types::{NumForm, PointField};
use rz_types_fields::Tree;

/// Lays the numbers of a point or a rectangle: those of the row, or the values of its expressions.
pub fn lay_points<'a>(
    field: &'a PointField,
    value: Option<&Tree>,
    facts: &Facts,
    laid: &mut Laid<'a>,
) -> Result<(), Stop<LayFault>>
    requires value { IsGroupOf (plain_points field.now) (option_map (λ v. v.now) value) }
    requires short { IsShort laid.old }
    ensures laid { Gives (field_laid facts.now (draft_of laid.old) (Points (plain_points field.now)) (option_map (λ v. v.now) value.entry)) (fault_seen refusal_of (left (draft_of laid.new) result)) }
    ensures short { IfOk result (λ _. IsShort laid.new) }
    ensures notes { IfOk result (λ _. laid.new.notes.items ≡ laid.old.notes.items) }
{
    match &field.fixed {
        Some(exprs) => lay_fixed(exprs.as_slice(), facts, laid),
        None => lay_group(group_in(value), facts, laid),
    }
}

/// Lays numbers of a row, each an `integer`.
fn lay_group(numbers: &[u16], _facts: &Facts, laid: &mut Laid<'_>) -> Result<(), Stop<LayFault>>
    requires short { IsShort laid.old }
    ensures laid { Gives (in_order takes_one (lay _facts.now) (draft_of laid.old) (replicate (length numbers.now) free_integer) (map trees.Number numbers.now)) (fault_seen refusal_of (left (draft_of laid.new) result)) }
    ensures short { IfOk result (λ _. IsShort laid.new) }
    ensures notes { IfOk result (λ _. laid.new.notes.items ≡ laid.old.notes.items) }
{
    for number in numbers {
        match laid.put_number(*number as u32, 16) {
            Ok(()) => {}
            Err(stop) => return Err(stop),
        }
    }
    Ok(())
}

/// Lays the values of expressions, each an `integer`.
fn lay_fixed<'a>(
    exprs: &'a [Expr],
    facts: &Facts,
    laid: &mut Laid<'a>,
) -> Result<(), Stop<LayFault>>
    requires short { IsShort laid.old }
    ensures laid { Gives (in_order takes_one (lay facts.now) (draft_of laid.old) (map fixed_integer (map term_of exprs.now)) []) (fault_seen refusal_of (left (draft_of laid.new) result)) }
    ensures short { IfOk result (λ _. IsShort laid.new) }
    ensures notes { IfOk result (λ _. laid.new.notes.items ≡ laid.old.notes.items) }
{
    for expr in exprs {
        match lay_expression(expr, facts, laid) {
            Ok(()) => {}
            Err(stop) => return Err(stop),
        }
    }
    Ok(())
}

/// Lays the value of an expression as an `integer`.
fn lay_expression<'a>(
    expr: &'a Expr,
    facts: &Facts,
    laid: &mut Laid<'a>,
) -> Result<(), Stop<LayFault>>
    requires short { IsShort laid.old }
    ensures laid { Gives (lay facts.now (draft_of laid.old) (fixed_integer (term_of expr.now)) None) (fault_seen refusal_of (left (draft_of laid.new) result)) }
    ensures short { IfOk result (λ _. IsShort laid.new) }
    ensures notes { IfOk result (λ _. laid.new.notes.items ≡ laid.old.notes.items) }
{
    lay_value(expr, NumForm::Integer, 16, facts, laid)
}
