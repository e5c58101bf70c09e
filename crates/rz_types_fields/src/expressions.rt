//! The expressions of a field in one list, as they are written: whoever asks something of each of them goes over the list.

ghost use Rattle.std.specs.Prelude.{◌≡◌, ◌∷◌, ◌++◌, [], IfOk, OnOk, map, option_map};
ghost use Rattle.std.specs.Option.{option_to_list};
ghost use Rattle.rz_expr.specs.Term.{term_of};
ghost use Rattle.rz_types_fields.specs.Field.{plain_field, plain_text};
ghost use Rattle.rz_types_fields.specs.Piece.{expressions_of, fixed_terms, points_terms, terms_of_text};
ghost use Rattle.rz_types_fields.specs.Text.{argument_terms, arguments_of, part_terms, plain_argument, plain_arguments, plain_part, plain_parts, terms_in, text_terms};

use crate::text::{FormatArg, FormatArgs, TextPart, Texts};
use crate::{Exprs, Field, TextField};
use rz_core::NoMemory;
use rz_expr::Expr;
use std::alloc::Global;

/// The expressions of a field, as they are written: the size of a text stands before the numbers of the formats in its
/// fixed parts. (MPW Rez.)
pub fn expressions_of(alloc: Global, field: &Field) -> Result<Vec<&Expr>, NoMemory>
    ensures { IfOk result (λ exprs. map (λ expr. term_of expr.now) exprs.items ≡ expressions_of (plain_field field.now)) }
{
    let mut exprs = Vec::new(alloc);
    match field {
        Field::Num(number) => push_value(&number.fixed, &mut exprs)?,
        Field::Text(text) => push_text(text, &mut exprs)?,
        Field::Points(points) => push_points(&points.fixed, &mut exprs)?,
        _ => {}
    }
    Ok(exprs)
}

/// Those of a text: its size, and the numbers of the formats in its fixed parts.
pub fn text_expressions(alloc: Global, text: &TextField) -> Result<Vec<&Expr>, NoMemory>
    ensures { IfOk result (λ exprs. map (λ expr. term_of expr.now) exprs.items ≡ terms_of_text (plain_text text.now)) }
{
    let mut exprs = Vec::new(alloc);
    push_text(text, &mut exprs)?;
    Ok(exprs)
}

/// The numbers of the formats in the parts of a text.
pub fn format_expressions(alloc: Global, parts: &Texts) -> Result<Vec<&Expr>, NoMemory>
    ensures { IfOk result (λ exprs. map (λ expr. term_of expr.now) exprs.items ≡ text_terms (plain_parts parts.now)) }
{
    let mut exprs = Vec::new(alloc);
    push_parts(parts, &mut exprs)?;
    Ok(exprs)
}

fn push_value<'a>(value: &'a Option<Expr>, exprs: &mut Vec<&'a Expr>) -> Result<(), NoMemory>
    ensures { OnOk result (map (λ expr. term_of expr.now) exprs.new.items
        ≡ map (λ expr. term_of expr.now) exprs.old.items ++ option_to_list (option_map term_of value.now)) }
{
    match value {
        Some(expr) => push_one(expr, exprs),
        None => Ok(()),
    }
}

fn push_one<'a>(expr: &'a Expr, exprs: &mut Vec<&'a Expr>) -> Result<(), NoMemory>
    ensures { OnOk result (map (λ expr. term_of expr.now) exprs.new.items
        ≡ map (λ expr. term_of expr.now) exprs.old.items ++ term_of expr.now ∷ []) }
{
    exprs.push(expr)?;
    Ok(())
}

fn push_points<'a>(fixed: &'a Option<Exprs>, exprs: &mut Vec<&'a Expr>) -> Result<(), NoMemory>
    ensures { OnOk result (map (λ expr. term_of expr.now) exprs.new.items
        ≡ map (λ expr. term_of expr.now) exprs.old.items ++ points_terms (option_map (map term_of) fixed.now)) }
{
    match fixed {
        Some(fixed) => push_all(fixed.as_slice(), exprs),
        None => Ok(()),
    }
}

fn push_all<'a>(all: &'a [Expr], exprs: &mut Vec<&'a Expr>) -> Result<(), NoMemory>
    ensures { OnOk result (map (λ expr. term_of expr.now) exprs.new.items
        ≡ map (λ expr. term_of expr.now) exprs.old.items ++ map term_of all.now) }
{
    for expr in all {
        push_one(expr, exprs)?;
    }
    Ok(())
}

fn push_text<'a>(text: &'a TextField, exprs: &mut Vec<&'a Expr>) -> Result<(), NoMemory>
    ensures { OnOk result (map (λ expr. term_of expr.now) exprs.new.items
        ≡ map (λ expr. term_of expr.now) exprs.old.items ++ terms_of_text (plain_text text.now)) }
{
    push_value(&text.size, exprs)?;
    push_fixed(&text.fixed, exprs)
}

fn push_fixed<'a>(fixed: &'a Option<Texts>, exprs: &mut Vec<&'a Expr>) -> Result<(), NoMemory>
    ensures { OnOk result (map (λ expr. term_of expr.now) exprs.new.items
        ≡ map (λ expr. term_of expr.now) exprs.old.items ++ fixed_terms (option_map plain_parts fixed.now)) }
{
    match fixed {
        Some(parts) => push_parts(parts, exprs),
        None => Ok(()),
    }
}

#[cycle(expressions)]
fn push_parts<'a>(parts: &'a Texts, exprs: &mut Vec<&'a Expr>) -> Result<(), NoMemory>
    ensures { OnOk result (map (λ expr. term_of expr.now) exprs.new.items
        ≡ map (λ expr. term_of expr.now) exprs.old.items ++ text_terms (plain_parts parts.now)) }
{
    for part in parts.as_slice() {
        push_part(part, exprs)?;
    }
    Ok(())
}

#[cycle(expressions)]
fn push_part<'a>(part: &'a TextPart, exprs: &mut Vec<&'a Expr>) -> Result<(), NoMemory>
    ensures { OnOk result (map (λ expr. term_of expr.now) exprs.new.items
        ≡ map (λ expr. term_of expr.now) exprs.old.items ++ part_terms (plain_part part.now)) }
{
    match part {
        TextPart::Format(format) => push_arguments(&format.arguments, exprs),
        TextPart::Plain(_)
        | TextPart::NameFact
        | TextPart::DateFact
        | TextPart::TimeFact
        | TextPart::VersionFact
        | TextPart::FileBytes(_)
        | TextPart::FileResource(_) => Ok(()),
    }
}

#[cycle(expressions)]
fn push_arguments<'a>(arguments: &'a FormatArgs, exprs: &mut Vec<&'a Expr>) -> Result<(), NoMemory>
    ensures { OnOk result (map (λ expr. term_of expr.now) exprs.new.items
        ≡ map (λ expr. term_of expr.now) exprs.old.items ++ argument_terms (arguments_of (plain_arguments arguments.now))) }
{
    for argument in arguments.as_slice() {
        push_argument(argument, exprs)?;
    }
    Ok(())
}

#[cycle(expressions)]
fn push_argument<'a>(argument: &'a FormatArg, exprs: &mut Vec<&'a Expr>) -> Result<(), NoMemory>
    ensures { OnOk result (map (λ expr. term_of expr.now) exprs.new.items
        ≡ map (λ expr. term_of expr.now) exprs.old.items ++ terms_in (plain_argument argument.now)) }
{
    match argument {
        FormatArg::Number(expr) => push_one(expr, exprs),
        FormatArg::Text(parts) => push_parts(parts, exprs),
    }
}
