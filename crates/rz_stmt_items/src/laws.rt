//! Laws of `resource` statements, and of items under fields. They speak of the definitions in `specs`.

ghost use Rattle.std.specs.Prelude.{◌≡◌, ℕ, List, Option, true, Ok};
ghost use Rattle.rz_core.specs.Decided.{Decided};
ghost use Rattle.rz_lex.specs.Within.{AreWithin};
ghost use Rattle.rz_lex.specs.declared.token.Token.{Token};
ghost use Rattle.rz_stmt_items.specs.Compile.{Compile, IsCompile};
ghost use Rattle.rz_stmt_items.specs.Places.{AreItemsWithin};
ghost use Rattle.std.specs.declared.result.Result.{Result};
ghost use Rattle.rz_core.specs.declared.facts.Facts.{Facts};
ghost use Rattle.rz_core.specs.declared.fault.Fault.{Fault};
ghost use Rattle.rz_core.specs.declared.fault.Mark.{Mark};
ghost use Rattle.rz_stmt_items.specs.Item.{PlainItem};
ghost use Rattle.rz_stmt_items.specs.Match.{IsMatch};
ghost use Rattle.rz_types_fields.specs.Row.{IsRow};
ghost use Rattle.rz_types_fields.specs.declared.tree.Tree.{Tree};
ghost use Rattle.rz_types.specs.Field.{PlainBody};
ghost use Rattle.rz_types.specs.Rules.{keeps_rules};

use rz_expr::{expressions_are_decided, one_expression};
use rz_stmt_brackets::partings_are_decided;
use rz_stmt_data::texts_are_decided;
use rz_types::rules_hold_within;

/// A law, with nothing to run: tokens are one `resource` statement at most.
pub fn one_compile()
    ensures { (tokens : List Token) (compile other : Compile) → IsCompile tokens compile → IsCompile tokens other → compile ≡ other }
{
    one_expression();
}

/// A law, with nothing to run: of all tokens it is decided which `resource` statement they are: there is one that they
/// are, or none.
pub fn resource_statements_are_decided()
    ensures { (tokens : List Token) → (answer : Option Compile) × Decided (IsCompile tokens) answer }
{
    one_expression();
    expressions_are_decided();
    partings_are_decided();
    texts_are_decided();
}

/// A law, with nothing to run: the items of a `resource` statement, and all that is in them, stand in the files in
/// which its tokens stand.
pub fn items_are_within()
    ensures { (files : ℕ) (tokens : List Token) (compile : Compile)
        → AreWithin files tokens → IsCompile tokens compile → AreItemsWithin files compile.items }
{}

/// A law, with nothing to run: items under fields have one answer at most, a row or a fault; and always one where the
/// fields keep the rules.
pub fn one_match()
    ensures some { (known : Facts) (place : Mark) (body : PlainBody) (items : List PlainItem) → keeps_rules body ≡ true
        → (answer : Result (List Tree) Fault) × IsMatch known place body items answer }
    ensures one { (known : Facts) (place : Mark) (body : PlainBody) (items : List PlainItem) (answer other : Result (List Tree) Fault)
        → IsMatch known place body items answer → IsMatch known place body items other → answer ≡ other }
{
    rules_hold_within();
}

/// A law, with nothing to run: the row that items are under fields is a row of these fields.
pub fn matched_rows_are_rows()
    ensures { (known : Facts) (place : Mark) (body : PlainBody) (items : List PlainItem) (row : List Tree)
        → IsMatch known place body items (Ok row) → IsRow body row }
{}
