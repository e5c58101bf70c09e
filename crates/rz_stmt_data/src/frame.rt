//! The frame of `data` and `resource` statements: type, head and braces; changes with `specs/Frame`.

ghost use Rattle.std.specs.Prelude.{◌≡◌, IfOk, option_map};
ghost use Rattle.rz_core.specs.Decided.{Decided};
ghost use Rattle.rz_stmt_data.specs.Frame.{frame_of, IsBody, IsFrame};

use crate::head::{HeadExpr, read_head};
use crate::typed::read_typed;
use rz_core::{NoMemory, OsType};
use rz_expr::Keyword;
use rz_lex::Token;
use rz_stmt_brackets::{Bracket, Divider, bracketed, is_empty_statement, pieces_by};
use std::alloc::Global;

/// The frame of a statement that makes a resource, without the word in front. (MPW Rez.)
#[derive(Drop)]
pub struct Framed<'a> {
    /// The type.
    pub kind: OsType,
    /// The head.
    pub head: HeadExpr,
    /// What stands in the braces.
    pub inside: &'a [Token],
}

/// The frame that the tokens are, with this keyword in front. `None` exactly where they are none. (MPW Rez.)
pub fn read_frame<'a>(
    alloc: Global,
    keyword: Keyword,
    tokens: &'a [Token],
) -> Result<Option<Framed<'a>>, NoMemory>
    ensures { IfOk result (λ framed. Decided (IsFrame keyword tokens.now) (option_map frame_of framed)) }
{
    let Some(typed) = read_typed(tokens, keyword) else {
        return Ok(None);
    };
    let Some(split) = bracketed(typed.behind, Bracket::Round) else {
        return Ok(None);
    };
    let Some(inside) = in_braces(split.behind) else {
        return Ok(None);
    };
    let pieces = pieces_by(alloc, split.front, Divider::Comma)?;
    match read_head(alloc, &pieces)? {
        Some(head) => Ok(Some(Framed {
            kind: typed.kind,
            head,
            inside,
        })),
        None => Ok(None),
    }
}

/// What stands in braces with `;` after them.
fn in_braces(tokens: &[Token]) -> Option<&[Token]>
    ensures { Decided (IsBody tokens.now) (option_map (λ inside. inside.now) result) }
{
    let Some(split) = bracketed(tokens, Bracket::Curly) else {
        return None;
    };
    if is_empty_statement(split.behind) {
        Some(split.front)
    } else {
        None
    }
}
