//! The `include` statement, and which resources of its file it takes; changes with `specs/Include`.

ghost use Rattle.std.specs.Prelude.{IfOk, option_map};
ghost use Rattle.rz_core.specs.Decided.{Decided};
ghost use Rattle.rz_stmt_lists.specs.Include.{include_of, part_of, IsInclude, IsPart};
ghost use Rattle.rz_stmt_brackets.specs.Statements.{is_empty};
ghost use Rattle.rz_stmt_lists.specs.Pick.{pick_of};
ghost use Rattle.rz_stmt_lists.specs.Steps.{IsGoneOn, IsOfType, IsOthers};

use crate::brackets::maybe_bracketed;
use crate::pick::{PickExpr, read_picked};
use crate::renaming::{Renaming, read_renaming};
use rz_core::{Bytes, NoMemory, OsType};
use rz_expr::{Keyword, is_keyword, one_expression};
use rz_lex::Token;
use rz_stmt_brackets::{is_empty_statement, kind_in};
use rz_stmt_data::{HeadExpr, behind_texts, file_in};
use std::alloc::Global;

/// Which resources of a file are included. (MPW Rez.)
#[derive(Drop)]
pub enum IncludePart {
    /// All of them.
    All,
    /// All but those of this type.
    Not(OsType),
    /// Those of this type that are picked.
    Chosen(OsType, PickExpr),
    /// Those of the first type that are picked, as resources of the second, and the one that is picked with this head.
    Renamed(OsType, PickExpr, OsType, Option<HeadExpr>),
}

/// An `include` statement. (MPW Rez.)
#[derive(Drop)]
pub struct IncludeStmt {
    /// The name of the file.
    pub file: Bytes,
    /// Which of its resources.
    pub part: IncludePart,
}

/// The `include` statement that the tokens are, where they are one. (MPW Rez.)
pub fn read_include(alloc: Global, tokens: &[Token]) -> Result<Option<IncludeStmt>, NoMemory>
    ensures { IfOk result (λ stmt. Decided (IsInclude tokens.now) (option_map include_of stmt)) }
{
    let Some((word, behind)) = tokens.split_first() else {
        return Ok(None);
    };
    if !is_keyword(word, Keyword::Include) {
        return Ok(None);
    }
    let Some(file) = file_in(alloc, behind)? else {
        return Ok(None);
    };
    match read_part(alloc, behind_texts(behind))? {
        Some(part) => Ok(Some(IncludeStmt { file, part })),
        None => Ok(None),
    }
}

/// What stands after the file.
fn read_part(alloc: Global, tokens: &[Token]) -> Result<Option<IncludePart>, NoMemory>
    ensures { IfOk result (λ part. Decided (IsPart tokens.now) (option_map part_of part)) }
{
    if is_empty_statement(tokens) {
        return Ok(Some(IncludePart::All));
    }
    let Some((first, behind)) = tokens.split_first() else {
        return Ok(None);
    };
    if is_keyword(first, Keyword::Not) {
        return Ok(others(behind));
    }
    match kind_in(first) {
        Some(code) => read_of_type(alloc, OsType { code }, behind),
        None => Ok(None),
    }
}

/// The type that stands after `not`.
fn others(tokens: &[Token]) -> Option<IncludePart>
    ensures { Decided (IsOthers tokens.now) (option_map part_of result) }
{
    let (kind, behind) = tokens.split_first()?;
    let code = kind_in(kind)?;
    if is_empty_statement(behind) {
        Some(IncludePart::Not(OsType { code }))
    } else {
        None
    }
}

/// What stands after the type.
fn read_of_type(
    alloc: Global,
    kind: OsType,
    tokens: &[Token],
) -> Result<Option<IncludePart>, NoMemory>
    ensures { IfOk result (λ part. Decided (IsOfType kind.code tokens.now) (option_map part_of part)) }
{
    one_expression();
    let Some(maybe) = maybe_bracketed(tokens) else {
        return Ok(None);
    };
    match read_picked(alloc, maybe.inside)? {
        Some(pick) => read_gone_on(alloc, kind, pick, maybe.behind),
        None => Ok(None),
    }
}

/// What stands after the pick.
fn read_gone_on(
    alloc: Global,
    kind: OsType,
    pick: PickExpr,
    tokens: &[Token],
) -> Result<Option<IncludePart>, NoMemory>
    ensures { IfOk result (λ part. Decided (IsGoneOn (is_empty tokens.now) kind.code (pick_of pick) tokens.now) (option_map part_of part)) }
{
    if is_empty_statement(tokens) {
        return Ok(Some(IncludePart::Chosen(kind, pick)));
    }
    match read_renaming(alloc, Keyword::As, &pick, tokens) {
        Ok(Some(new)) => {
            let Renaming {
                kind: new_kind,
                head,
            } = new;
            Ok(Some(IncludePart::Renamed(kind, pick, new_kind, head)))
        }
        Ok(None) => {
            drop(pick);
            Ok(None)
        }
        Err(NoMemory) => {
            drop(pick);
            Err(NoMemory)
        }
    }
}
