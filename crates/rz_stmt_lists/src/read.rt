//! The `read` statement; changes with `specs/Read`.

ghost use Rattle.std.specs.Prelude.{IfOk, option_map};
ghost use Rattle.rz_core.specs.Decided.{Decided};
ghost use Rattle.rz_stmt_lists.specs.Read.{read_of, IsNamed, IsRead};

use crate::renaming::read_head_in;
use rz_core::{Bytes, NoMemory, OsType};
use rz_expr::Keyword;
use rz_lex::Token;
use rz_stmt_brackets::{Bracket, bracketed, is_empty_statement};
use rz_stmt_data::{HeadExpr, Subject, behind_texts, file_in, read_typed};
use std::alloc::Global;

/// A `read` statement. (MPW Rez.)
#[derive(Drop)]
pub struct ReadStmt {
    /// The type.
    pub kind: OsType,
    /// The head.
    pub head: HeadExpr,
    /// The name of the file whose bytes are the resource.
    pub file: Bytes,
}

/// The `read` statement that the tokens are, where they are one. (MPW Rez.)
pub fn read_read(alloc: Global, tokens: &[Token]) -> Result<Option<ReadStmt>, NoMemory>
    ensures { IfOk result (λ stmt. Decided (IsRead tokens.now) (option_map read_of stmt)) }
{
    let Some(typed) = read_typed(tokens, Keyword::Read) else {
        return Ok(None);
    };
    let Some(split) = bracketed(typed.behind, Bracket::Round) else {
        return Ok(None);
    };
    let Some(head) = read_head_in(alloc, Subject::New, split.front)? else {
        return Ok(None);
    };
    match read_named(alloc, split.behind) {
        Ok(Some(file)) => Ok(Some(ReadStmt {
            kind: typed.kind,
            head,
            file,
        })),
        Ok(None) => {
            drop(head);
            Ok(None)
        }
        Err(NoMemory) => {
            drop(head);
            Err(NoMemory)
        }
    }
}

/// The file that the tokens are, with the end of a statement after it.
fn read_named(alloc: Global, tokens: &[Token]) -> Result<Option<Bytes>, NoMemory>
    ensures { IfOk result (λ file. Decided (IsNamed tokens.now) file) }
{
    if is_empty_statement(behind_texts(tokens)) {
        file_in(alloc, tokens)
    } else {
        Ok(None)
    }
}
