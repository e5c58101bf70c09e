//! The `change` statement; changes with `specs/Change`.

ghost use Rattle.std.specs.Prelude.{IfOk, option_map};
ghost use Rattle.rz_core.specs.Decided.{Decided};
ghost use Rattle.rz_stmt_lists.specs.Change.{change_of, IsChange};

use crate::clause::read_clause;
use crate::pick::{PickExpr, read_picked};
use crate::renaming::{Renaming, read_renaming};
use rz_core::{NoMemory, OsType};
use rz_expr::{Keyword, one_expression};
use rz_lex::Token;
use rz_stmt_data::HeadExpr;
use std::alloc::Global;

/// A `change` statement. (MPW Rez.)
#[derive(Drop)]
pub struct ChangeStmt {
    /// The type.
    pub kind: OsType,
    /// Which resources of the type change.
    pub pick: PickExpr,
    /// The type that they get.
    pub new_kind: OsType,
    /// The head that the one that is picked gets.
    pub head: Option<HeadExpr>,
}

/// The `change` statement that the tokens are, where they are one. (MPW Rez.)
pub fn read_change(alloc: Global, tokens: &[Token]) -> Result<Option<ChangeStmt>, NoMemory>
    ensures { IfOk result (λ stmt. Decided (IsChange tokens.now) (option_map change_of stmt)) }
{
    one_expression();
    let Some(clause) = read_clause(tokens, Keyword::Change) else {
        return Ok(None);
    };
    let Some(pick) = read_picked(alloc, clause.inside)? else {
        return Ok(None);
    };
    match read_renaming(alloc, Keyword::To, &pick, clause.behind) {
        Ok(Some(Renaming { kind, head })) => Ok(Some(ChangeStmt {
            kind: clause.kind,
            pick,
            new_kind: kind,
            head,
        })),
        Ok(None) => {
            drop(pick);
            Ok(None)
        }
        Err(NoMemory) => {
            drop(pick);
            Err(NoMemory)
        }
    }
}
