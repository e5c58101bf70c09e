//! What an expression of a field sees, and its value or first fault. See `specs/Value`.

ghost use Rattle.std.specs.Prelude.{◌≡◌, ◌<◌, ℕ, true};
ghost use Rattle.rz_core.specs.Message.{IsNameable};
ghost use Rattle.rz_core.specs.Stop.{Gives, OnFault};
ghost use Rattle.rz_expr.specs.Constant.{is_constant};
ghost use Rattle.rz_expr.specs.Term.{term_of};
ghost use Rattle.rz_expr.specs.Value.{reduced, value_of};
ghost use Rattle.rz_types_fields.specs.Value.{constant_value, fact_of, field_sight, is_date_fact, is_field_expression, is_fixed_expression, is_head_expression, is_item_expression, is_size_expression, number_of, symbol_number_of, symbol_value, value_fault, with_fault, IsArithmeticFault};

use crate::{Symbol, Symbols};
use rz_core::{Facts, Fault, Kept, Mark, Stop, Word};
use rz_expr::{
    ConstantEnv, Env, EvalFault, Expr, FactWord, Key, eval, predefined, signed, value_outside,
};
use std::alloc::Global;

/// What an expression sees of a resource and of a field: the field's symbols, `true`, `false` and the facts. The
/// first symbol of a name counts, in whatever case. (MPW Rez.)
#[derive(Drop)]
pub struct FieldEnv<'a> {
    /// What is known of the resource.
    pub facts: &'a Facts,
    /// The symbols of the field.
    pub symbols: &'a Symbols,
}

impl Env for FieldEnv<'_> {
    ghost view = { λ env. field_sight env.facts.now env.symbols.now };

    fn give(&self, key: Key<'_>) -> Option<i128> {
        match key {
            Key::Place(name) => match self.symbols.value_of(name) {
                Some(value) => Some(i128::from(value)),
                None => value_outside(key),
            },
            Key::Count(_) | Key::Rows(_) | Key::PlaceIn(..) | Key::Row(_) => None,
        }
    }

    fn bits(&self, _first: i64, _width: i32) -> Option<u32> {
        None
    }

    fn fact(&self, which: FactWord) -> i32 {
        fact_of(self.facts, which)
    }
}

/// Whether an expression may stand in the head of a new resource: it has no names but `true` and `false`, and of the
/// `$$` functions the numbers of the date and the time alone. (MPW Rez.)
pub fn is_head_expression(expr: &Expr) -> bool
    ensures { result ≡ is_head_expression (term_of expr.now) }
{
    match expr {
        Expr::Number(_) => true,
        Expr::Name(name) => predefined(name).is_some(),
        Expr::Indexed(..) | Expr::Count(_) | Expr::ArrayIndex(_) | Expr::Bits(..) => false,
        Expr::Fact(which) => is_date_fact(*which),
        Expr::Unary(_, operand) => is_head_expression(operand),
        Expr::Binary(_, left, right) => is_head_expression(left) && is_head_expression(right),
    }
}

/// Whether an expression may stand in the head for a chosen resource or in that of `data`: it has no names but `true`
/// and `false`, and of the `$$` functions the facts alone. (MPW Rez.)
pub fn is_field_expression(expr: &Expr) -> bool
    ensures { result ≡ is_field_expression (term_of expr.now) }
{
    match expr {
        Expr::Number(_) | Expr::Fact(_) => true,
        Expr::Name(name) => predefined(name).is_some(),
        Expr::Indexed(..) | Expr::Count(_) | Expr::ArrayIndex(_) | Expr::Bits(..) => false,
        Expr::Unary(_, operand) => is_field_expression(operand),
        Expr::Binary(_, left, right) => is_field_expression(left) && is_field_expression(right),
    }
}

/// Whether an expression may stand for the size of a text: it may have any names and `$$` functions but `$$CountOf`.
/// (MPW Rez.)
pub fn is_size_expression(expr: &Expr) -> bool
    ensures { result ≡ is_size_expression (term_of expr.now) }
{
    match expr {
        Expr::Number(_) | Expr::Fact(_) | Expr::Name(_) | Expr::ArrayIndex(_) => true,
        Expr::Indexed(_, index) => is_size_expression(index),
        Expr::Count(_) => false,
        Expr::Bits(_, start, width) => is_size_expression(start) && is_size_expression(width),
        Expr::Unary(_, operand) => is_size_expression(operand),
        Expr::Binary(_, left, right) => is_size_expression(left) && is_size_expression(right),
    }
}

/// Whether an expression may stand for a fixed value: it may have any names and `$$` functions, `$$CountOf` too. (MPW
/// Rez.)
pub fn is_fixed_expression(expr: &Expr) -> bool
    ensures { result ≡ is_fixed_expression (term_of expr.now) }
{
    match expr {
        Expr::Number(_) | Expr::Name(_) | Expr::Count(_) | Expr::ArrayIndex(_) | Expr::Fact(_) =>
            true,
        Expr::Indexed(_, index) => is_fixed_expression(index),
        Expr::Bits(_, start, width) => is_fixed_expression(start) && is_fixed_expression(width),
        Expr::Unary(_, operand) => is_fixed_expression(operand),
        Expr::Binary(_, left, right) => is_fixed_expression(left) && is_fixed_expression(right),
    }
}

/// Whether an expression may stand in an item: it has no indexed labels, no `$$CountOf`, no `$$ArrayIndex` and no data
/// functions. (MPW Rez.)
pub fn is_item_expression(expr: &Expr) -> bool
    ensures { result ≡ is_item_expression (term_of expr.now) }
{
    match expr {
        Expr::Number(_) | Expr::Name(_) | Expr::Fact(_) => true,
        Expr::Indexed(..) | Expr::Count(_) | Expr::ArrayIndex(_) | Expr::Bits(..) => false,
        Expr::Unary(_, operand) => is_item_expression(operand),
        Expr::Binary(_, left, right) => is_item_expression(left) && is_item_expression(right),
    }
}

/// Whether it is known before a resource is: whatever but `$$ID`, `$$Type` and `$$Attributes`.
fn is_date_fact(which: FactWord) -> bool
    ensures { result ≡ is_date_fact which }
{
    !matches!(which, FactWord::Id | FactWord::Kind | FactWord::Attributes)
}

/// The value of the first symbol of a name, in whatever case.
pub fn symbol_value(symbols: &[Symbol], name: &Word) -> Option<i32>
    ensures { result ≡ symbol_value symbols.now name.now.bytes }
{
    for symbol in symbols {
        if symbol.name.is(name.bytes.as_slice()) {
            return Some(symbol.value);
        }
    }
    None
}

/// What is known of a resource and of the moment, as a number of 32 bits with a sign.
pub fn fact_of(facts: &Facts, which: FactWord) -> i32
    ensures { result ≡ reduced (fact_of facts.now which) }
{
    match which {
        FactWord::Id => i32::from(facts.id),
        FactWord::Kind => signed(facts.kind.code),
        FactWord::Attributes => i32::from(facts.attr.byte()),
        FactWord::Year => facts.moment.year,
        FactWord::Month => i32::from(facts.moment.month),
        FactWord::Day => i32::from(facts.moment.day),
        FactWord::Hour => i32::from(facts.moment.hour),
        FactWord::Minute => i32::from(facts.moment.minute),
        FactWord::Second => i32::from(facts.moment.second),
        FactWord::Weekday => i32::from(facts.moment.weekday),
    }
}

/// The value of an expression on a line, with the facts of a resource, or its first fault. Of an expression
/// of a field the fault is 211, a zero divisor, or 215, a shift by a count outside 0 to 31 (kept: the
/// count). Any other may also refuse a name that has no value by 203 (kept: the name) and bits by 213. (MPW
/// Rez.)
pub fn number_of(alloc: Global, expr: &Expr, place: Mark, facts: &Facts) -> Result<i32, Stop<Fault>>
    ensures value { Gives (number_of place facts.now (term_of expr.now)) result }
    ensures arithmetic { is_field_expression (term_of expr.now) ≡ true → OnFault result (IsArithmeticFault place) }
    ensures nameable { (files : ℕ) → place.file < files → OnFault result (IsNameable files) }
{
    let none = Symbols::new(alloc);
    let value = symbol_number_of(alloc, expr, place, facts, &none);
    drop(none);
    value
}

/// The same, where a name may also be a symbol: the first of the name counts, in whatever case, before `true` and
/// `false`. A name that is none of these is 203 (kept: the name). (MPW Rez.)
pub fn symbol_number_of(
    alloc: Global,
    expr: &Expr,
    place: Mark,
    facts: &Facts,
    symbols: &Symbols,
) -> Result<i32, Stop<Fault>>
    ensures value { Gives (symbol_number_of place facts.now symbols.now (term_of expr.now)) result }
    ensures nameable { (files : ℕ) → place.file < files → OnFault result (IsNameable files) }
{
    value_seen(alloc, expr, place, &FieldEnv { facts, symbols })
}

/// The value of an expression on a line that sees so much, or its first fault.
pub fn value_seen<E: Env>(
    alloc: Global,
    expr: &Expr,
    place: Mark,
    env: &E,
) -> Result<i32, Stop<Fault>>
    ensures value { Gives (with_fault place (value_of (term_of expr.now) (E.view env.now))) result }
    ensures nameable { (files : ℕ) → place.file < files → OnFault result (IsNameable files) }
{
    match eval(alloc, expr, env) {
        Ok(value) => Ok(value),
        Err(Stop::Refused(fault)) => Err(Stop::Refused(value_fault(place, fault))),
        Err(Stop::NoMemory) => Err(Stop::NoMemory),
    }
}

/// The fault of a value that is computed on a line.
fn value_fault(mark: Mark, fault: EvalFault) -> Fault
    ensures fault { result ≡ value_fault mark fault }
    ensures nameable { (files : ℕ) → mark.file < files → IsNameable files result }
{
    let (number, kept) = match fault {
        EvalFault::ZeroDivisor => (211, Kept::Nothing),
        EvalFault::UnknownName(name) => (203, Kept::Name(name.bytes)),
        EvalFault::BadIndex(number) => (223, Kept::Number(i64::from(number))),
        EvalFault::LaterData(_, behind) => (213, Kept::Number(behind)),
        EvalFault::DataWidth(width) => (213, Kept::Number(i64::from(width))),
        EvalFault::BadShift(count) => (215, Kept::Number(i64::from(count))),
    };
    Fault {
        number,
        mark: Some(mark),
        kept,
    }
}

/// The value of a constant on a line, or its first fault: 211 for a zero divisor, 215 for a shift by a count
/// outside 0 to 31 (kept: the count). An expression that is no constant may also be refused by 203 for a name
/// that has no value (kept: the name) and by 213 for bits. (MPW Rez.)
pub fn constant_value(alloc: Global, expr: &Expr, place: Mark) -> Result<i32, Stop<Fault>>
    ensures value { Gives (constant_value place (term_of expr.now)) result }
    ensures arithmetic { is_constant (term_of expr.now) ≡ true → OnFault result (IsArithmeticFault place) }
    ensures nameable { (files : ℕ) → place.file < files → OnFault result (IsNameable files) }
{
    value_seen(alloc, expr, place, &ConstantEnv)
}
