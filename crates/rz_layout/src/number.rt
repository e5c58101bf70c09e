//! Numbers laid as pieces: those of the row, or the values of expressions. What is laid is in `specs/Laid`.

ghost use Rattle.std.specs.Prelude.{IfOk, ◌≡◌, option_map, None, Some};
ghost use Rattle.rz_layout.specs.Fault.{refusal_of};
ghost use Rattle.rz_core.specs.Stop.{Gives, fault_seen, left};
ghost use Rattle.rz_expr.specs.Term.{term_of};
ghost use Rattle.rz_layout.specs.Laid.{bits_made, draft_of, made, value_put, IsShort};
ghost use Rattle.rz_layout.specs.Sound.{IsWidth};
ghost use Rattle.rz_types_fields.specs.Field.{plain_number};
ghost use Rattle.rz_types_fields.specs.Laid.{early, lay, number_form, ranged};
ghost use Rattle.rz_types_fields.specs.Piece.{OneNumber};

use crate::LayFault;
use crate::fault::value_fault;
use crate::laid::Laid;
use crate::seen::{early_fault, names_later, reads_late, value_behind};
use rz_core::{Facts, Stop};
use rz_expr::Expr;
use rz_types::values::number_in;
use rz_types::{NumField, NumForm, fits_number, stored_number};
use rz_types_fields::Tree;

/// Lays a number: that of the row, or the value of its expression.
pub fn lay_number<'a>(
    field: &'a NumField,
    value: Option<&Tree>,
    facts: &Facts,
    laid: &mut Laid<'a>,
) -> Result<(), Stop<LayFault>>
    requires width { IsWidth field.now.width }
    requires short { IsShort laid.old }
    ensures laid { Gives (lay facts.now (draft_of laid.old) (OneNumber (plain_number field.now)) (option_map (λ v. v.now) value.entry)) (fault_seen refusal_of (left (draft_of laid.new) result)) }
    ensures short { IfOk result (λ _. IsShort laid.new) }
    ensures notes { IfOk result (λ _. laid.new.notes.items ≡ laid.old.notes.items) }
{
    match &field.fixed {
        Some(expr) => lay_value(expr, field.form, field.width, facts, laid),
        None => laid.put_number(number_in(value), field.width as u8),
    }
}

/// Lays the value of an expression, or zero bits for it, where it is computed later.
pub fn lay_value<'a>(
    expr: &'a Expr,
    form: NumForm,
    width: i32,
    facts: &Facts,
    laid: &mut Laid<'a>,
) -> Result<(), Stop<LayFault>>
    requires width { IsWidth width }
    requires short { IsShort laid.old }
    ensures laid { Gives (value_put facts.now (draft_of laid.old) form width (term_of expr.now)) (fault_seen refusal_of (left (draft_of laid.new) result)) }
    ensures short { IfOk result (λ _. IsShort laid.new) }
    ensures notes { IfOk result (λ _. laid.new.notes.items ≡ laid.old.notes.items) }
{
    let made = number_made(expr, form, width, facts, laid);
    match made {
        Ok(Some(number)) => laid.put_number(number, width as u8),
        Ok(None) => laid.put_late(expr, form, width),
        Err(fault) => Err(Stop::Refused(fault)),
    }
}

/// The number that the value of an expression is; `None` where it is computed later, since it names a label that stands
/// later, or reads late bits.
fn number_made(
    expr: &Expr,
    form: NumForm,
    width: i32,
    facts: &Facts,
    laid: &Laid<'_>,
) -> Result<Option<u32>, LayFault>
    requires { IsWidth width }
    ensures { made form width (term_of expr.now) result ≡ number_form facts.now (draft_of laid.now) form width (Some (term_of expr.now)) None }
{
    if names_later(expr, &laid.notes) {
        return Ok(None);
    }
    match value_behind(expr, facts, laid) {
        Ok(value) => match ranged(laid.piece, form, width, value) {
            Ok(number) => Ok(Some(number)),
            Err(fault) => Err(fault),
        },
        Err(fault) => {
            if reads_late(laid.bits.len(), &fault) {
                Ok(None)
            } else {
                Err(value_fault(fault, laid.piece))
            }
        }
    }
}

/// A value as the number that is stored, or 207 where it isn't in the range of the field.
pub fn ranged(piece: u64, form: NumForm, width: i32, value: i32) -> Result<u32, LayFault>
    requires { IsWidth width }
    ensures { bits_made width result ≡ ranged piece form width value }
{
    if !fits_number(form, width, value) {
        return Err(LayFault {
            number: 207,
            piece,
            value: i64::from(value),
        });
    }
    Ok(stored_number(width, value))
}

/// The value of an expression that can't be left for later.
pub fn early_value(expr: &Expr, facts: &Facts, laid: &Laid<'_>) -> Result<i32, Stop<LayFault>>
    requires { IsShort laid.now }
    ensures { Gives (early facts.now (draft_of laid.now) (term_of expr.now)) (fault_seen refusal_of result) }
{
    match value_behind(expr, facts, laid) {
        Ok(value) => Ok(value),
        Err(fault) => Err(Stop::Refused(early_fault(fault, laid))),
    }
}
