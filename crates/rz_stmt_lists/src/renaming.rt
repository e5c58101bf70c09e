//! What chosen resources become: a type, and maybe a head; changes with `specs/Renaming`.

ghost use Rattle.std.specs.Prelude.{IfOk, option_map};
ghost use Rattle.rz_core.specs.Decided.{Decided};
ghost use Rattle.rz_stmt_data.specs.Head.{head_of};
ghost use Rattle.rz_stmt_lists.specs.Pick.{pick_of};
ghost use Rattle.rz_stmt_lists.specs.Renaming.{renaming_of, IsHeadIn, IsNewHead, IsRenaming};

use crate::clause::read_clause;
use crate::pick::PickExpr;
use rz_core::{NoMemory, OsType};
use rz_expr::Keyword;
use rz_lex::Token;
use rz_stmt_brackets::{Divider, is_empty_statement, pieces_by};
use rz_stmt_data::{HeadExpr, Subject, read_head_for};
use std::alloc::Global;

/// What chosen resources become.
#[derive(Drop)]
pub struct Renaming {
    /// Their type.
    pub kind: OsType,
    /// The head of the one that is chosen, where one is given.
    pub head: Option<HeadExpr>,
}

/// What the tokens say that the picked resources become: the word, a type, and maybe a head.
pub fn read_renaming(
    alloc: Global,
    keyword: Keyword,
    pick: &PickExpr,
    tokens: &[Token],
) -> Result<Option<Renaming>, NoMemory>
    ensures { IfOk result (λ renaming. Decided (IsRenaming keyword (pick_of pick.now) tokens.now) (option_map renaming_of renaming)) }
{
    let Some(clause) = read_clause(tokens, keyword) else {
        return Ok(None);
    };
    if !is_empty_statement(clause.behind) {
        return Ok(None);
    }
    match read_new_head(alloc, pick, clause.inside)? {
        Some(head) => Ok(Some(Renaming {
            kind: clause.kind,
            head,
        })),
        None => Ok(None),
    }
}

/// The head that stands in brackets, which needs a pick of one resource.
fn read_new_head(
    alloc: Global,
    pick: &PickExpr,
    inside: Option<&[Token]>,
) -> Result<Option<Option<HeadExpr>>, NoMemory>
    ensures { IfOk result (λ head. Decided (IsNewHead (pick_of pick.now) (option_map (λ inside. inside.now) inside.entry)) (option_map (option_map head_of) head)) }
{
    let Some(tokens) = inside else {
        return Ok(Some(None));
    };
    if !pick.is_one() {
        return Ok(None);
    }
    match read_head_in(alloc, Subject::Chosen, tokens)? {
        Some(head) => Ok(Some(Some(head))),
        None => Ok(None),
    }
}

/// The head that the tokens between its brackets are.
pub fn read_head_in(
    alloc: Global,
    subject: Subject,
    tokens: &[Token],
) -> Result<Option<HeadExpr>, NoMemory>
    ensures { IfOk result (λ head. Decided (IsHeadIn subject tokens.now) (option_map head_of head)) }
{
    let pieces = pieces_by(alloc, tokens, Divider::Comma)?;
    read_head_for(alloc, subject, &pieces)
}
