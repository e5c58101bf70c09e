//! A keyword, a type, and brackets that may be left out; changes with `specs/Clause`.

ghost use Rattle.std.specs.Prelude.{option_map};
ghost use Rattle.rz_core.specs.Decided.{Decided};
ghost use Rattle.rz_stmt_lists.specs.Clause.{clause_of, IsClause};

use crate::brackets::maybe_bracketed;
use rz_core::OsType;
use rz_expr::Keyword;
use rz_lex::Token;
use rz_stmt_data::read_typed;

/// A type after a word, and brackets that may stand after it.
#[derive(Drop)]
pub struct Clause<'a> {
    /// The type.
    pub kind: OsType,
    /// What stands in the brackets, where some are there.
    pub inside: Option<&'a [Token]>,
    /// What stands after them.
    pub behind: &'a [Token],
}

/// The clause that the tokens are, with this keyword in front. `None` exactly where they are none. (MPW Rez.)
pub fn read_clause(tokens: &[Token], keyword: Keyword) -> Option<Clause<'_>>
    ensures { Decided (IsClause keyword tokens.now) (option_map clause_of result) }
{
    let Some(typed) = read_typed(tokens, keyword) else {
        return None;
    };
    match maybe_bracketed(typed.behind) {
        Some(maybe) => Some(Clause {
            kind: typed.kind,
            inside: maybe.inside,
            behind: maybe.behind,
        }),
        None => None,
    }
}
