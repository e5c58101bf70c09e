//! Laws: tokens are one statement, or have one fault, and never both. They speak of `specs/Grammar`.

ghost use Rattle.std.specs.Prelude.{◌≡◌, List, Result};
ghost use Rattle.rz_core.specs.declared.fault.Fault.{Fault};
ghost use Rattle.rz_lex.specs.declared.token.Token.{Token};
ghost use Rattle.rz_stmt.specs.Grammar.{Parses, Statement};

use rz_expr::keywords_are_spelled;
use rz_stmt_data::{data_statements_are_decided, one_data};
use rz_stmt_items::{one_compile, resource_statements_are_decided};
use rz_stmt_lists::{list_statements_are_decided, one_list};
use rz_stmt_type::{one_declare, type_statements_are_decided};

/// A law, with nothing to run: tokens are one statement at most, or have one fault, and never both.
pub fn one_statement()
    ensures { (tokens : List Token) (answer another : Result Statement Fault) → Parses tokens answer → Parses tokens another → answer ≡ another }
{
    one_data();
    one_list();
    one_compile();
    one_declare();
    keywords_are_spelled();
}

/// A law, with nothing to run: all tokens are a statement, or have a fault: beyond the limits 221, within them that of
/// the statement's constants, or 201 where they are no statement.
pub fn every_statement_is_parsed()
    ensures { (tokens : List Token) → (answer : Result Statement Fault) × Parses tokens answer }
{
    data_statements_are_decided();
    list_statements_are_decided();
    resource_statements_are_decided();
    type_statements_are_decided();
}
