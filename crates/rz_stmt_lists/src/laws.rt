//! Laws of the statements over lists of resources. They speak of `specs/Lists`.

ghost use Rattle.std.specs.Prelude.{◌≡◌, List, Option};
ghost use Rattle.rz_core.specs.Decided.{Decided};
ghost use Rattle.rz_lex.specs.declared.token.Token.{Token};
ghost use Rattle.rz_stmt_lists.specs.Lists.{word_of, BeginsWith, IsListed, ListForm};

use rz_expr::{keywords_are_spelled, one_expression};
use rz_stmt_brackets::partings_are_decided;
use rz_stmt_data::{data_statements_are_decided, texts_are_decided};

/// A law, with nothing to run: tokens are one statement over lists of resources at most, and it begins with its word.
pub fn one_list()
    ensures one { (tokens : List Token) (one other : ListForm) → IsListed tokens one → IsListed tokens other → one ≡ other }
    ensures begins { (tokens : List Token) (one : ListForm) → IsListed tokens one → BeginsWith (word_of one) tokens }
{
    one_expression();
    keywords_are_spelled();
}

/// A law, with nothing to run: of all tokens it is decided which statement over lists of resources they are: there is
/// one that they are, or none.
pub fn list_statements_are_decided()
    ensures { (tokens : List Token) → (answer : Option ListForm) × Decided (IsListed tokens) answer }
{
    one_expression();
    partings_are_decided();
    texts_are_decided();
    data_statements_are_decided();
}
