//! The four statements over lists of resources, as one; a fifth changes `specs/Lists` too.

ghost use Rattle.std.specs.Prelude.{IfOk, option_map};
ghost use Rattle.rz_core.specs.Decided.{Decided};
ghost use Rattle.rz_stmt_lists.specs.Lists.{list_of, IsListed};

use crate::change::{ChangeStmt, read_change};
use crate::delete::{DeleteStmt, read_delete};
use crate::include::{IncludeStmt, read_include};
use crate::read::{ReadStmt, read_read};
use rz_core::NoMemory;
use rz_lex::Token;
use std::alloc::Global;

/// A statement over lists of resources. (MPW Rez.)
#[derive(Drop)]
pub enum ListStmt {
    /// `include`.
    Include(IncludeStmt),
    /// `read`.
    Read(ReadStmt),
    /// `change`.
    Change(ChangeStmt),
    /// `delete`.
    Delete(DeleteStmt),
}

/// The statement over lists of resources that the tokens are. `None` exactly where they are none. Reading goes
/// as deep as brackets are open: callers bound the tokens that they hand in. (MPW Rez.)
pub fn read_list(alloc: Global, tokens: &[Token]) -> Result<Option<ListStmt>, NoMemory>
    ensures { IfOk result (λ stmt. Decided (IsListed tokens.now) (option_map list_of stmt)) }
{
    if let Some(stmt) = read_include(alloc, tokens)? {
        return Ok(Some(ListStmt::Include(stmt)));
    }
    if let Some(stmt) = read_read(alloc, tokens)? {
        return Ok(Some(ListStmt::Read(stmt)));
    }
    if let Some(stmt) = read_change(alloc, tokens)? {
        return Ok(Some(ListStmt::Change(stmt)));
    }
    match read_delete(alloc, tokens)? {
        Some(stmt) => Ok(Some(ListStmt::Delete(stmt))),
        None => Ok(None),
    }
}
