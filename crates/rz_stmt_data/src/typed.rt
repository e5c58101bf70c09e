//! A keyword and a type in front of tokens; changes with `specs/Typed`.

ghost use Rattle.std.specs.Prelude.{option_map};
ghost use Rattle.rz_core.specs.Decided.{Decided};
ghost use Rattle.rz_stmt_data.specs.Typed.{typed_of, IsTyped};

use rz_core::OsType;
use rz_expr::{Keyword, is_keyword};
use rz_lex::Token;
use rz_stmt_brackets::kind_in;

/// What stands after a word and a type.
#[derive(Drop)]
pub struct Typed<'a> {
    /// The type.
    pub kind: OsType,
    /// What stands after it.
    pub behind: &'a [Token],
}

/// The type after this keyword, and what stands after it. `None` exactly where the keyword and a type don't stand in
/// front. (MPW Rez.)
pub fn read_typed(tokens: &[Token], keyword: Keyword) -> Option<Typed<'_>>
    ensures { Decided (IsTyped keyword tokens.now) (option_map typed_of result) }
{
    let [word, kind, behind @ ..] = tokens else {
        return None;
    };
    if !is_keyword(word, keyword) {
        return None;
    }
    match kind_in(kind) {
        Some(code) => Some(Typed {
            kind: OsType { code },
            behind,
        }),
        None => None,
    }
}
