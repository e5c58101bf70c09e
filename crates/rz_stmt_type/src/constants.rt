//! A `type` statement with the values of its constants, or its fault; changes with `specs/Constants`.

ghost use Rattle.std.specs.Prelude.{◌≡◌, ◌<◌, ℕ, map, option_map};
ghost use Rattle.rz_core.specs.Message.{IsNameable};
ghost use Rattle.rz_core.specs.Stop.{Gives, OnFault, seen};
ghost use Rattle.rz_expr.specs.Term.{term_of};
ghost use Rattle.rz_types_fields.specs.Field.{plain_array, plain_body, plain_case, plain_cases, plain_field, plain_number};
ghost use Rattle.rz_stmt_type.specs.Constants.{body_value, case_value, cases_value, count_value, declare_of, declared, field_value, given_value, key_value, made_of, made_value, number_of_width, number_value, scope_value, two_value, width_value};
ghost use Rattle.rz_stmt_fields.specs.Form.{array_form, body_form, boxed_term, case_form, cases_form, declare_form, field_form, made_form, number_form, scope_form, width_form};

use crate::values::symbols_of;
use rz_core::{Fault, Mark, OsType, Stop};
use rz_expr::Expr;
use rz_stmt_fields::{
    ArrayExpr, CaseExpr, CaseExprs, DeclareExpr, FieldExpr, FieldExprs, MadeExpr, NumberExpr,
    ScopeExpr, Width,
};
use rz_types_fields::{ArrayField, Body, Case, Cases, Field, NumField, constant_value, switch_of};
use std::alloc::Global;

/// The room of fewer fields isn't given back while others wait.
const LEAST_SPARE: usize = 1024;

/// For which ids a declaration is, as the statement says it. (MPW Rez.)
#[derive(Clone, Copy, PartialEq, Eq)]
pub enum Bounds {
    /// For any id.
    Any,
    /// For this id.
    One(i32),
    /// For the ids from the first to the last.
    Two(i32, i32),
}

/// What a declaration makes a type. (MPW Rez.)
#[derive(Drop)]
pub enum Made {
    /// These fields.
    Fields(Body),
    /// What another type is, for this id or any.
    Copy(OsType, Option<i32>),
}

/// A `type` statement. (MPW Rez.)
#[derive(Drop)]
pub struct TypeStmt {
    /// The type that is declared.
    pub kind: OsType,
    /// For which ids.
    pub bounds: Bounds,
    /// What it is.
    pub made: Made,
}

/// The declaration that a `type` statement is, with the values of its constants, or the fault of the first of
/// them from left to right that has none, with this mark: 211 for a zero divisor, 215 for a shift by a count
/// outside 0 to 31 (kept: the count), or 207 for the value of a symbol outside the range of its field (kept:
/// the value). (MPW Rez.)
pub fn value_declare(alloc: Global, mark: Mark, stmt: DeclareExpr) -> Result<TypeStmt, Stop<Fault>>
    ensures value { Gives (declared mark (declare_form stmt)) (seen declare_of result) }
    ensures nameable { (files : ℕ) → mark.file < files → OnFault result (IsNameable files) }
{
    value_parts(alloc, mark, stmt)
}

fn value_parts(alloc: Global, mark: Mark, stmt: DeclareExpr) -> Result<TypeStmt, Stop<Fault>>
    ensures { Gives (declared mark (declare_form stmt)) (seen declare_of result) }
{
    let DeclareExpr { kind, scope, made } = stmt;
    let bounds = value_scope(alloc, mark, &scope);
    drop(scope);
    let bounds = match bounds {
        Ok(bounds) => bounds,
        Err(stop) => {
            drop(made);
            return Err(stop);
        }
    };
    match value_made(alloc, mark, made) {
        Ok(made) => Ok(TypeStmt { kind, bounds, made }),
        Err(stop) => Err(stop),
    }
}

/// The ids.
fn value_scope(alloc: Global, mark: Mark, scope: &ScopeExpr) -> Result<Bounds, Stop<Fault>>
    ensures { Gives (scope_value mark (scope_form scope.now)) result }
{
    match scope {
        ScopeExpr::Any => Ok(Bounds::Any),
        ScopeExpr::One(id) => match constant_value(alloc, id, mark) {
            Ok(id) => Ok(Bounds::One(id)),
            Err(stop) => Err(stop),
        },
        ScopeExpr::Two(first, last) => value_two(alloc, mark, first, last),
    }
}

fn value_two(alloc: Global, mark: Mark, first: &Expr, last: &Expr) -> Result<Bounds, Stop<Fault>>
    ensures { Gives (two_value mark (term_of first.now) (term_of last.now)) result }
{
    let first = match constant_value(alloc, first, mark) {
        Ok(first) => first,
        Err(stop) => return Err(stop),
    };
    match constant_value(alloc, last, mark) {
        Ok(last) => Ok(Bounds::Two(first, last)),
        Err(stop) => Err(stop),
    }
}

/// What the type is.
fn value_made(alloc: Global, mark: Mark, made: MadeExpr) -> Result<Made, Stop<Fault>>
    ensures { Gives (made_value mark (made_form made)) (seen made_of result) }
{
    match made {
        MadeExpr::Fields(body) => match value_body(alloc, mark, body) {
            Ok(body) => Ok(Made::Fields(body)),
            Err(stop) => Err(stop),
        },
        MadeExpr::Copy(kind, given) => {
            let id = value_given(alloc, mark, &given);
            drop(given);
            match id {
                Ok(id) => Ok(Made::Copy(kind, id)),
                Err(stop) => Err(stop),
            }
        }
    }
}

/// What is written, where it is.
fn value_given(alloc: Global, mark: Mark, given: &Option<Expr>) -> Result<Option<i32>, Stop<Fault>>
    ensures { Gives (given_value mark (option_map term_of given.now)) result }
{
    match given {
        Some(expr) => match constant_value(alloc, expr, mark) {
            Ok(value) => Ok(Some(value)),
            Err(stop) => Err(stop),
        },
        None => Ok(None),
    }
}

/// The fields, one after the other. The memory of those that have their values is given back, so that the fields never
/// stand twice.
#[cycle(constants)]
fn value_body(alloc: Global, mark: Mark, fields: FieldExprs) -> Result<Body, Stop<Fault>>
    ensures { Gives (body_value mark (body_form fields)) (seen plain_body result) }
{
    let mut body = Body::new(alloc);
    let mut left = fields.into_vec();
    left.reverse();
    while let Some(field) = left.pop() {
        match value_field(alloc, mark, field) {
            Ok(field) => body.push(field)?,
            Err(stop) => return Err(stop),
        }
        give_back(&mut left);
    }
    Ok(body)
}

/// Gives back the memory after the fields, once it is that of many and more than an eighth of all.
fn give_back(left: &mut Vec<FieldExpr>)
    ensures { left.new.items ≡ left.old.items }
{
    let room = left.capacity();
    let spare = room.saturating_sub(left.len());
    if spare > LEAST_SPARE && spare > room / 8 {
        left.shrink_to_fit();
    }
}

#[cycle(constants)]
fn value_field(alloc: Global, mark: Mark, field: FieldExpr) -> Result<Field, Stop<Fault>>
    ensures { Gives (field_value mark (field_form field)) (seen plain_field result) }
{
    match field {
        FieldExpr::Number(number) => match value_number(alloc, mark, number) {
            Ok(number) => Ok(Field::Num(number)),
            Err(stop) => Err(stop),
        },
        FieldExpr::Text(text) => Ok(Field::Text(Box::into_inner(text))),
        FieldExpr::Points(points) => Ok(Field::Points(points)),
        FieldExpr::Fill(unit, given) => {
            let count = value_count(alloc, mark, &given);
            drop(given);
            match count {
                Ok(count) => Ok(Field::Fill(unit, count)),
                Err(stop) => Err(stop),
            }
        }
        FieldExpr::Align(unit) => Ok(Field::Align(unit)),
        FieldExpr::Label(name) => Ok(Field::Label(name)),
        FieldExpr::Array(array) => match value_array(alloc, mark, Box::into_inner(array)) {
            Ok(array) => Ok(Field::Array(array)),
            Err(stop) => Err(stop),
        },
        FieldExpr::Switch(cases) => match value_cases(alloc, mark, cases) {
            Ok(cases) => Ok(switch_of(alloc, cases)?),
            Err(stop) => Err(stop),
        },
    }
}

/// The array: the count of its rows, and then its fields.
#[cycle(constants)]
fn value_array(alloc: Global, mark: Mark, array: ArrayExpr) -> Result<ArrayField, Stop<Fault>>
    ensures { Gives (field_value mark (array_form array)) (seen plain_array result) }
{
    let ArrayExpr {
        name,
        count: given,
        row,
    } = array;
    let count = value_given(alloc, mark, &given);
    drop(given);
    let count = match count {
        Ok(count) => count,
        Err(stop) => {
            drop(name);
            drop(row);
            return Err(stop);
        }
    };
    match value_body(alloc, mark, row) {
        Ok(row) => Ok(ArrayField { name, count, row }),
        Err(stop) => {
            drop(name);
            Err(stop)
        }
    }
}

/// The cases, one after the other.
#[cycle(constants)]
fn value_cases(alloc: Global, mark: Mark, cases: CaseExprs) -> Result<Cases, Stop<Fault>>
    ensures { Gives (cases_value mark (cases_form cases)) (seen plain_cases result) }
{
    let mut made = Cases::new(alloc);
    for case in cases.into_vec() {
        match value_case(alloc, mark, case) {
            Ok(case) => made.push(case)?,
            Err(stop) => return Err(stop),
        }
    }
    Ok(made)
}

#[cycle(constants)]
fn value_case(alloc: Global, mark: Mark, case: CaseExpr) -> Result<Case, Stop<Fault>>
    ensures { Gives (case_value mark (case_form case)) (seen plain_case result) }
{
    let CaseExpr { name, row } = case;
    match value_body(alloc, mark, row) {
        Ok(row) => Ok(Case { name, row }),
        Err(stop) => {
            drop(name);
            Err(stop)
        }
    }
}

fn value_count(alloc: Global, mark: Mark, count: &Option<Expr>) -> Result<i32, Stop<Fault>>
    ensures { Gives (count_value mark (option_map term_of count.now)) result }
{
    match count {
        Some(count) => constant_value(alloc, count, mark),
        None => Ok(1),
    }
}

/// The number: its width, then its value if it is a key, and then its symbols.
fn value_number(alloc: Global, mark: Mark, number: NumberExpr) -> Result<NumField, Stop<Fault>>
    ensures { Gives (number_value mark (number_form number)) (seen plain_number result) }
{
    let width = match value_width(alloc, mark, &number.width) {
        Ok(width) => width,
        Err(stop) => {
            drop(number);
            return Err(stop);
        }
    };
    match value_key(alloc, mark, number.key, &number.fixed) {
        Ok(()) => make_number(alloc, mark, number, width),
        Err(stop) => {
            drop(number);
            Err(stop)
        }
    }
}

/// The fixed value of a key, which is computed and not kept.
fn value_key(
    alloc: Global,
    mark: Mark,
    key: bool,
    fixed: &Option<Box<Expr>>,
) -> Result<(), Stop<Fault>>
    ensures { Gives (key_value mark key (option_map boxed_term fixed.now)) result }
{
    match fixed {
        Some(value) if key => match constant_value(alloc, value, mark) {
            Ok(_) => Ok(()),
            Err(stop) => Err(stop),
        },
        _ => Ok(()),
    }
}

fn value_width(alloc: Global, mark: Mark, width: &Width) -> Result<i32, Stop<Fault>>
    ensures { Gives (width_value mark (width_form width.now)) result }
{
    match width {
        Width::Own(bits) => Ok(*bits),
        Width::Written(bits) => constant_value(alloc, bits, mark),
    }
}

fn make_number(
    alloc: Global,
    mark: Mark,
    number: NumberExpr,
    width: i32,
) -> Result<NumField, Stop<Fault>>
    ensures { Gives (number_of_width mark (number_form number) width) (seen plain_number result) }
{
    let NumberExpr {
        form,
        unsigned,
        radix,
        key,
        width: given,
        symbols: names,
        fixed,
    } = number;
    drop(given);
    let symbols = symbols_of(alloc, mark, form, width, names.as_slice());
    drop(names);
    match symbols {
        Ok(symbols) => Ok(NumField {
            form,
            width,
            unsigned,
            radix,
            symbols,
            fixed: unboxed(fixed),
            key,
        }),
        Err(stop) => {
            drop(fixed);
            Err(stop)
        }
    }
}

/// The fixed value without its box.
fn unboxed(fixed: Option<Box<Expr>>) -> Option<Expr>
    ensures { option_map term_of result ≡ option_map boxed_term fixed }
{
    match fixed {
        Some(value) => Some(Box::into_inner(value)),
        None => None,
    }
}
