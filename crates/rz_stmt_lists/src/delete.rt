//! The `delete` statement; changes with `specs/Delete`.

ghost use Rattle.std.specs.Prelude.{IfOk, option_map};
ghost use Rattle.rz_core.specs.Decided.{Decided};
ghost use Rattle.rz_stmt_lists.specs.Delete.{delete_of, IsDelete};

use crate::clause::read_clause;
use crate::pick::{PickExpr, read_picked};
use rz_core::{NoMemory, OsType};
use rz_expr::Keyword;
use rz_lex::Token;
use rz_stmt_brackets::is_empty_statement;
use std::alloc::Global;

/// A `delete` statement. (MPW Rez.)
#[derive(Drop)]
pub struct DeleteStmt {
    /// The type.
    pub kind: OsType,
    /// Which resources of the type go.
    pub pick: PickExpr,
}

/// The `delete` statement that the tokens are, where they are one. (MPW Rez.)
pub fn read_delete(alloc: Global, tokens: &[Token]) -> Result<Option<DeleteStmt>, NoMemory>
    ensures { IfOk result (λ stmt. Decided (IsDelete tokens.now) (option_map delete_of stmt)) }
{
    let Some(clause) = read_clause(tokens, Keyword::Delete) else {
        return Ok(None);
    };
    if !is_empty_statement(clause.behind) {
        return Ok(None);
    }
    match read_picked(alloc, clause.inside)? {
        Some(pick) => Ok(Some(DeleteStmt {
            kind: clause.kind,
            pick,
        })),
        None => Ok(None),
    }
}
