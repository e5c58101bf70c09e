//! The `resource` statement: a frame, and its items; changes with `specs/Compile`.

ghost use Rattle.std.specs.Prelude.{◌≡◌, IfOk, option_map};
ghost use Rattle.rz_core.specs.Decided.{Decided};
ghost use Rattle.rz_stmt_items.specs.Compile.{compile_of, IsCompile};

use crate::item::Items;
use crate::items::read_items;
use rz_core::{NoMemory, OsType};
use rz_expr::Keyword;
use rz_lex::Token;
use rz_stmt_data::{Framed, HeadExpr, read_frame};
use std::alloc::Global;

/// A `resource` statement. (MPW Rez.)
#[derive(Drop)]
pub struct ResourceStmt {
    /// The type.
    pub kind: OsType,
    /// The head.
    pub head: HeadExpr,
    /// The items, in order.
    pub items: Items,
}

/// The `resource` statement that the tokens are. `None` exactly where they are none. It takes time in proportion
/// to the tokens for each brace or bracket that is open, and reading goes as deep as braces and brackets are open:
/// callers bound the tokens that they hand in. (MPW Rez.)
pub fn read_compile(alloc: Global, tokens: &[Token]) -> Result<Option<ResourceStmt>, NoMemory>
    ensures { IfOk result (λ stmt. Decided (IsCompile tokens.now) (option_map compile_of stmt)) }
{
    let Some(framed) = read_frame(alloc, Keyword::Resource, tokens)? else {
        return Ok(None);
    };
    let Framed { kind, head, inside } = framed;
    match read_items(alloc, inside) {
        Ok(Some(items)) => Ok(Some(ResourceStmt { kind, head, items })),
        Ok(None) => {
            drop(head);
            Ok(None)
        }
        Err(NoMemory) => {
            drop(head);
            Err(NoMemory)
        }
    }
}
