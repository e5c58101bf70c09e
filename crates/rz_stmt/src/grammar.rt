//! Which statement the tokens of a span are, or their first fault; changes with `specs/Grammar`.

ghost use Rattle.std.specs.Prelude.{◌≡◌, ◌<◌, ◌≤◌, ◌-◌, ℕ, true, IfOk, Some, drop, length, take};
ghost use Rattle.rz_lex.specs.Within.{AreWithin};
ghost use Rattle.rz_core.specs.Message.{IsNameable};
ghost use Rattle.rz_core.specs.Stop.{OnFault, seen, Meets};
ghost use Rattle.rz_lex.specs.Lexeme.{AreLexed};
ghost use Rattle.rz_stmt_brackets.specs.Limit.{is_within_limits};
ghost use Rattle.rz_stmt.specs.Grammar.{Compiled, Declared, IsPlacedStatement, IsShapedStatement, Listed, Parses, statement_of};
ghost use Rattle.rz_core.specs.declared.fault.Kept.TheVariants.{Nothing};

use rz_core::{Fault, Kept, Mark, Stop};
use rz_lex::{Token, Tokens};
use rz_stmt_brackets::{Span, is_empty_statement, is_within_limits};
use rz_stmt_data::{DataStmt, read_raw};
use rz_stmt_items::{ResourceStmt, items_are_within, read_compile};
use rz_stmt_lists::{ListStmt, read_list};
use rz_stmt_type::{TypeStmt, declarations_are_shaped, read_declare, value_declare};
use std::alloc::Global;

/// A statement. (MPW Rez.)
#[derive(Drop)]
pub enum Stmt {
    /// A `;` alone.
    Empty,
    /// `data`.
    Raw(DataStmt),
    /// `include`, `read`, `change` or `delete`.
    List(ListStmt),
    /// `resource`.
    Compile(ResourceStmt),
    /// `type`.
    Declare(TypeStmt),
}

/// The statement that the tokens of a span are, or its first fault. A refusal has the mark of its first token: 221
/// where more than 64 brackets are open, in a `type` statement 60, or more than 1,024 tokens other than texts stand in
/// a row without one of `{ } , ;`; else 201 where the tokens are no statement; else that of the first constant of
/// a `type` statement, from left to right, without a value: 211 for a zero divisor, 215 for a shift by a count
/// outside 0 to 31 (kept: the count), or 207 for the value of a symbol outside the range of its field (kept:
/// the value). The fields of a `type` statement are well shaped, where the tokens are as lines are cut into, and
/// the items of a `resource` statement stand in the files of the tokens. The span lies within the tokens and isn't
/// empty, as each of `statements`. (MPW Rez.)
pub fn parse(alloc: Global, tokens: &Tokens, span: Span) -> Result<Stmt, Stop<Fault>>
    requires { (span.start < span.end) × (span.end ≤ length tokens.now) }
    ensures parsed { Meets (seen statement_of result) (Parses (take (span.end - span.start) (drop span.start tokens.now))) }
    ensures nameable { (files : ℕ) → AreWithin files tokens.now → OnFault result (IsNameable files) }
    ensures shaped { AreLexed tokens.now → IfOk result (λ stmt. IsShapedStatement (statement_of stmt)) }
    ensures placed { (files : ℕ) → AreWithin files tokens.now → IfOk result (λ stmt. IsPlacedStatement files (statement_of stmt)) }
{
    parse_all(
        alloc,
        &tokens.as_slice()[span.start as usize..span.end as usize],
    )
}

/// The same of all these tokens.
fn parse_all(alloc: Global, tokens: &[Token]) -> Result<Stmt, Stop<Fault>>
    requires { 0 < length tokens.now }
    ensures parsed { Meets (seen statement_of result) (Parses tokens.now) }
    ensures nameable { (files : ℕ) → AreWithin files tokens.now → OnFault result (IsNameable files) }
    ensures shaped { AreLexed tokens.now → IfOk result (λ stmt. IsShapedStatement (statement_of stmt)) }
    ensures placed { (files : ℕ) → AreWithin files tokens.now → IfOk result (λ stmt. IsPlacedStatement files (statement_of stmt)) }
{
    let mark = tokens[0].mark;
    if !is_within_limits(tokens) {
        return Err(Stop::Refused(fault(221, mark)));
    }
    if is_empty_statement(tokens) {
        return Ok(Stmt::Empty);
    }
    match read_raw(alloc, tokens)? {
        Some(raw) => Ok(Stmt::Raw(raw)),
        None => parse_list(alloc, mark, tokens),
    }
}

/// The statement over lists of resources that the tokens are, or else the `resource` or `type` statement, or 201.
fn parse_list(alloc: Global, mark: Mark, tokens: &[Token]) -> Result<Stmt, Stop<Fault>>
    ensures parsed { Meets (seen statement_of result) (Listed mark tokens.now) }
    ensures nameable { (files : ℕ) → mark.file < files → OnFault result (IsNameable files) }
    ensures shaped { AreLexed tokens.now → is_within_limits tokens.now ≡ true → IfOk result (λ stmt. IsShapedStatement (statement_of stmt)) }
    ensures placed { (files : ℕ) → AreWithin files tokens.now → IfOk result (λ stmt. IsPlacedStatement files (statement_of stmt)) }
{
    match read_list(alloc, tokens)? {
        Some(stmt) => Ok(Stmt::List(stmt)),
        None => parse_compile(alloc, mark, tokens),
    }
}

/// The `resource` statement that the tokens are, or else the `type` statement, or 201.
fn parse_compile(alloc: Global, mark: Mark, tokens: &[Token]) -> Result<Stmt, Stop<Fault>>
    ensures parsed { Meets (seen statement_of result) (Compiled mark tokens.now) }
    ensures nameable { (files : ℕ) → mark.file < files → OnFault result (IsNameable files) }
    ensures shaped { AreLexed tokens.now → is_within_limits tokens.now ≡ true → IfOk result (λ stmt. IsShapedStatement (statement_of stmt)) }
    ensures placed { (files : ℕ) → AreWithin files tokens.now → IfOk result (λ stmt. IsPlacedStatement files (statement_of stmt)) }
{
    items_are_within();
    match read_compile(alloc, tokens)? {
        Some(stmt) => Ok(Stmt::Compile(stmt)),
        None => parse_declare(alloc, mark, tokens),
    }
}

/// The `type` statement that the tokens are, or else 201.
fn parse_declare(alloc: Global, mark: Mark, tokens: &[Token]) -> Result<Stmt, Stop<Fault>>
    ensures parsed { Meets (seen statement_of result) (Declared mark tokens.now) }
    ensures nameable { (files : ℕ) → mark.file < files → OnFault result (IsNameable files) }
    ensures shaped { AreLexed tokens.now → is_within_limits tokens.now ≡ true → IfOk result (λ stmt. IsShapedStatement (statement_of stmt)) }
    ensures placed { (files : ℕ) → IfOk result (λ stmt. IsPlacedStatement files (statement_of stmt)) }
{
    declarations_are_shaped();
    let Some(stmt) = read_declare(alloc, tokens)? else {
        return Err(Stop::Refused(fault(201, mark)));
    };
    match value_declare(alloc, mark, stmt) {
        Ok(stmt) => Ok(Stmt::Declare(stmt)),
        Err(stop) => Err(stop),
    }
}

/// A fault that keeps nothing.
fn fault(number: u16, mark: Mark) -> Fault
    ensures { result ≡ record { number = number; mark = Some mark; kept = Nothing } }
{
    Fault {
        number,
        mark: Some(mark),
        kept: Kept::Nothing,
    }
}
