//! The first statement of the tokens that a reader still has; changes with `specs/Next`.

ghost use Rattle.std.specs.Prelude.{List, IfOk};
ghost use Rattle.rz_stmt_brackets.specs.Statements.{AreStatements};
ghost use Rattle.rz_lex.specs.declared.token.Token.{Token};
ghost use Rattle.rz_stmt.specs.Next.{BeginsWith, IsFront};

use rz_core::NoMemory;
use rz_lex::{Token, Tokens};
use rz_pre_source::TokenReader;
use rz_stmt_brackets::{all_tokens_are_statements, is_end, one_cutting, open_behind};
use std::alloc::Global;

/// The tokens for which a statement has room before it grows.
const FIRST_ROOM: usize = 16;

/// The first statement of the tokens that are left: all of them up to the first `;` that stands outside all
/// brackets, or without such a `;` all of them. `None` exactly where none is left. The tokens after it are left
/// then. Where memory is refused some tokens may be lost. (MPW Rez.)
pub fn next_statement(alloc: Global, reader: &mut TokenReader) -> Result<Option<Tokens>, NoMemory>
    ensures first { (statements : List (List Token)) → AreStatements reader.old statements
        → IfOk result (λ given. BeginsWith given statements reader.new) }
    ensures front { IfOk result (λ given. IsFront given reader.old reader.new) }
{
    one_cutting();
    all_tokens_are_statements();
    let mut tokens = Tokens::with_capacity(alloc, FIRST_ROOM)?;
    let mut depth = 0;
    while let Some(token) = reader.next(alloc)? {
        tokens.push(token)?;
        let last = tokens.at(tokens.len() - 1);
        if is_end(&last.shape, depth) {
            return Ok(Some(tokens));
        }
        depth = open_behind(&last.shape, depth);
    }
    if tokens.is_empty() {
        Ok(None)
    } else {
        Ok(Some(tokens))
    }
}
