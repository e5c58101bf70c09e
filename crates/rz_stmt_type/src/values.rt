//! The values of the symbols of a number field, or their first fault; changes with `specs/Values`.

ghost use Rattle.std.specs.Prelude.{◌≡◌, ◌+ℤ◌, map, option_map, pos};
ghost use Rattle.rz_core.specs.Stop.{Gives};
ghost use Rattle.rz_expr.specs.Term.{term_of};
ghost use Rattle.rz_expr.specs.Value.{reduced};
ghost use Rattle.rz_stmt_fields.specs.Form.{named_of};
ghost use Rattle.rz_types_fields.specs.Range.{fits_number};
ghost use Rattle.rz_stmt_type.specs.Values.{given_or, out_of_range, values_of};

use rz_core::{Fault, Kept, Listing, Mark, Stop};
use rz_expr::Expr;
use rz_stmt_fields::Named;
use rz_types_fields::{NumForm, Symbol, Symbols, constant_value, fits_number};
use std::alloc::Global;

/// The symbols with their values, which are looked up by numbers of the width, or the first fault among them.
pub fn symbols_of(
    alloc: Global,
    mark: Mark,
    form: NumForm,
    width: i32,
    names: &[Named],
) -> Result<Symbols, Stop<Fault>>
    ensures { Gives (values_of (fits_number form width) mark (pos 0) (map named_of names.now)) result }
{
    match values_of(alloc, mark, form, width, names) {
        Ok(symbols) => Ok(Symbols::of(alloc, width, symbols)?),
        Err(stop) => Err(stop),
    }
}

/// The same, as a list.
fn values_of(
    alloc: Global,
    mark: Mark,
    form: NumForm,
    width: i32,
    names: &[Named],
) -> Result<Listing<Symbol>, Stop<Fault>>
    ensures { Gives (values_of (fits_number form width) mark (pos 0) (map named_of names.now)) result }
{
    let mut symbols = Listing::new(alloc);
    let mut next = 0;
    for named in names {
        let value = match given_or(alloc, mark, next, &named.value) {
            Ok(value) => value,
            Err(stop) => return Err(stop),
        };
        if !fits_number(form, width, value) {
            return Err(Stop::Refused(out_of_range(mark, value)));
        }
        let name = named.name.copy(alloc)?;
        symbols.push(Symbol { name, value })?;
        next = following(value);
    }
    Ok(symbols)
}

/// One more, wrapped to 32 bits.
fn following(value: i32) -> i32
    ensures { result ≡ reduced (value +ℤ pos 1) }
{
    sum(value, 1)
}

#[tactic(auto, using(std::proofs::lemmas::Int::wraps))]
fn sum(one: i32, other: i32) -> i32
    ensures { result ≡ reduced (one +ℤ other) }
{
    one.wrapping_add(other)
}

/// The value that is given, or else the next one.
fn given_or(alloc: Global, mark: Mark, next: i32, given: &Option<Expr>) -> Result<i32, Stop<Fault>>
    ensures { Gives (given_or mark next (option_map term_of given.now)) result }
{
    match given {
        Some(expr) => constant_value(alloc, expr, mark),
        None => Ok(next),
    }
}

/// 207 for a value.
fn out_of_range(mark: Mark, value: i32) -> Fault
    ensures { result ≡ out_of_range mark value }
{
    Fault {
        number: 207,
        mark: Some(mark),
        kept: Kept::Number(i64::from(value)),
    }
}
