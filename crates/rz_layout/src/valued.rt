//! The first number in the formats of a text that has no value. Its refusal is in `specs/Fault`.

ghost use Rattle.std.specs.Prelude.{◌≡◌, IfOk, map, option_map};
ghost use Rattle.std.specs.List.{list_any};
ghost use Rattle.rz_core.specs.Lists.{first_of};
ghost use Rattle.rz_expr.specs.Term.{term_of};
ghost use Rattle.rz_layout.specs.Fault.{refusal_of};
ghost use Rattle.rz_layout.specs.Laid.{draft_of, IsShort};
ghost use Rattle.rz_types_fields.specs.Field.{plain_text};
ghost use Rattle.rz_types_fields.specs.Known.{known};
ghost use Rattle.rz_types_fields.specs.Laid.{later_size, met_in, unvalued};
ghost use Rattle.rz_types_fields.specs.Piece.{terms_of_text};
ghost use Rattle.rz_types_fields.specs.Sees.{names_later};
ghost use Rattle.rz_types_fields.specs.Text.{plain_parts, text_terms};

use crate::LayFault;
use crate::laid::Laid;
use crate::seen::{early_fault, later_fault, names_later, value_behind};
use rz_core::{Facts, NoMemory};
use rz_expr::Expr;
use rz_types_fields::{Notes, TextField, Texts, format_expressions, text_expressions};
use std::alloc::Global;

/// Why the first number in the formats of a text that has no value has none.
pub fn unvalued_in(
    alloc: Global,
    parts: &Texts,
    facts: &Facts,
    laid: &Laid<'_>,
) -> Result<Option<LayFault>, NoMemory>
    requires { IsShort laid.now }
    ensures { IfOk result (λ fault. option_map refusal_of fault
        ≡ first_of (map (unvalued facts.now (draft_of laid.now)) (text_terms (plain_parts parts.now)))) }
{
    let exprs = format_expressions(alloc, parts)?;
    Ok(first_unvalued(&exprs, facts, laid))
}

/// Why the first of these expressions that has no value has none.
fn first_unvalued(exprs: &[&Expr], facts: &Facts, laid: &Laid<'_>) -> Option<LayFault>
    requires { IsShort laid.now }
    ensures { option_map refusal_of result
        ≡ first_of (map (unvalued facts.now (draft_of laid.now)) (map (λ expr. term_of expr.now) exprs.now)) }
{
    for expr in exprs {
        if let Some(fault) = unvalued(expr, facts, laid) {
            return Some(fault);
        }
    }
    None
}

/// Why an expression has no value.
fn unvalued(expr: &Expr, facts: &Facts, laid: &Laid<'_>) -> Option<LayFault>
    requires { IsShort laid.now }
    ensures { option_map refusal_of result ≡ unvalued facts.now (draft_of laid.now) (term_of expr.now) }
{
    match value_behind(expr, facts, laid) {
        Ok(_) => None,
        Err(fault) => Some(early_fault(fault, laid)),
    }
}

/// 214, where an expression of a text names a label that has no place yet.
pub fn later_in(
    alloc: Global,
    text: &TextField,
    laid: &Laid<'_>,
) -> Result<Option<LayFault>, NoMemory>
    requires { IsShort laid.now }
    ensures { IfOk result (λ fault. option_map refusal_of fault ≡ later_size (draft_of laid.now) (terms_of_text (plain_text text.now))) }
{
    let exprs = text_expressions(alloc, text)?;
    if any_later(&exprs, &laid.notes) {
        Ok(Some(later_fault(laid)))
    } else {
        Ok(None)
    }
}

/// Whether one of these expressions names a label that has no place yet.
fn any_later(exprs: &[&Expr], notes: &Notes<'_>) -> bool
    ensures { result ≡ list_any (names_later (met_in (known notes.now.items))) (map (λ expr. term_of expr.now) exprs.now) }
{
    for expr in exprs {
        if names_later(expr, notes) {
            return true;
        }
    }
    false
}
