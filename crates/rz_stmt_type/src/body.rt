//! Bodies of `type` statements, with arrays, switches and cases; changes with `specs/Body`.

ghost use Rattle.std.specs.Prelude.{IfOk, option_map};
ghost use Rattle.rz_core.specs.Decided.{Decided};
ghost use Rattle.rz_stmt_type.specs.Body.{AreCases, IsArray, IsBody, IsCase, IsField, IsSwitch};
ghost use Rattle.rz_stmt_fields.specs.Form.{body_form, case_form, cases_form, field_form};

use crate::flat::read_flat;
use crate::head::{ArrayFront, behind_empty, braced, case_front, read_array_front};
use crate::label::read_labels;
use crate::start::{Start, start_of};
use rz_core::NoMemory;
use rz_expr::one_expression;
use rz_lex::Token;
use rz_stmt_brackets::{Divider, pieces_are_cut, pieces_by};
use rz_stmt_fields::{ArrayExpr, CaseExpr, CaseExprs, FieldExpr, FieldExprs, read_key};
use std::alloc::Global;

/// The fields that the tokens are, in the body of a case or in another.
#[cycle(body)]
pub fn read_body(
    alloc: Global,
    in_case: bool,
    tokens: &[Token],
) -> Result<Option<FieldExprs>, NoMemory>
    ensures { IfOk result (λ body. Decided (IsBody in_case tokens.now) (option_map body_form body)) }
{
    let pieces = pieces_by(alloc, tokens, Divider::Semicolon)?;
    let mut body = FieldExprs::new(alloc);
    for piece in &pieces {
        let rest = read_labels(alloc, piece, &mut body)?;
        if rest.is_empty() {
            continue;
        }
        let Some(field) = read_field(alloc, in_case, rest)? else {
            return Ok(None);
        };
        body.push(field)?;
    }
    Ok(Some(body))
}

/// The field that the tokens are, directly in a case or not.
#[cycle(body)]
fn read_field(alloc: Global, in_case: bool, tokens: &[Token]) -> Result<Option<FieldExpr>, NoMemory>
    ensures { IfOk result (λ field. Decided (IsField in_case tokens.now) (option_map field_form field)) }
{
    match start_of(tokens) {
        Start::Key(behind) => {
            if in_case {
                read_key(alloc, behind)
            } else {
                Ok(None)
            }
        }
        Start::Array(behind) => read_array(alloc, behind),
        Start::Switch(behind) => read_switch(alloc, behind),
        Start::Flat => read_flat(alloc, tokens),
    }
}

/// The array that the tokens after `array` are. No key may stand directly in it.
#[cycle(body)]
fn read_array(alloc: Global, tokens: &[Token]) -> Result<Option<FieldExpr>, NoMemory>
    ensures { IfOk result (λ field. Decided (IsArray tokens.now) (option_map field_form field)) }
{
    one_expression();
    pieces_are_cut();
    let Some(front) = read_array_front(alloc, tokens)? else {
        return Ok(None);
    };
    match read_body(alloc, false, front.row) {
        Ok(Some(row)) => {
            let ArrayFront { name, count, .. } = front;
            let array = ArrayExpr { name, count, row };
            Ok(Some(FieldExpr::Array(Box::new(alloc, array)?)))
        }
        Ok(None) => {
            drop(front);
            Ok(None)
        }
        Err(NoMemory) => {
            drop(front);
            Err(NoMemory)
        }
    }
}

/// The switch that the tokens after `switch` are.
#[cycle(body)]
fn read_switch(alloc: Global, tokens: &[Token]) -> Result<Option<FieldExpr>, NoMemory>
    ensures { IfOk result (λ field. Decided (IsSwitch tokens.now) (option_map field_form field)) }
{
    let Some(inside) = braced(tokens) else {
        return Ok(None);
    };
    match read_cases(alloc, inside)? {
        Some(cases) => Ok(Some(FieldExpr::Switch(cases))),
        None => Ok(None),
    }
}

/// The cases that the tokens are.
#[cycle(body)]
fn read_cases(alloc: Global, tokens: &[Token]) -> Result<Option<CaseExprs>, NoMemory>
    ensures { IfOk result (λ cases. Decided (AreCases tokens.now) (option_map cases_form cases)) }
{
    let pieces = pieces_by(alloc, tokens, Divider::Case)?;
    let Some(behind) = behind_empty(&pieces) else {
        return Ok(None);
    };
    let mut cases = CaseExprs::new(alloc);
    for piece in behind {
        let Some(case) = read_case(alloc, piece)? else {
            return Ok(None);
        };
        cases.push(case)?;
    }
    Ok(Some(cases))
}

/// The case that the tokens after `case` are.
#[cycle(body)]
fn read_case(alloc: Global, tokens: &[Token]) -> Result<Option<CaseExpr>, NoMemory>
    ensures { IfOk result (λ case. Decided (IsCase tokens.now) (option_map case_form case)) }
{
    let Some(front) = case_front(tokens) else {
        return Ok(None);
    };
    let Some(row) = read_body(alloc, true, front.row)? else {
        return Ok(None);
    };
    match front.name.copy(alloc) {
        Ok(name) => Ok(Some(CaseExpr { name, row })),
        Err(NoMemory) => {
            drop(row);
            Err(NoMemory)
        }
    }
}
