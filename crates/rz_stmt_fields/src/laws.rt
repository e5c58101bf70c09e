//! Laws of fields and their fronts, keys, and expressions of sizes. They speak of the definitions in `specs`.

ghost use Rattle.std.specs.Prelude.{◌≡◌, ◌↔◌, false, None, List, Option, Some};
ghost use Rattle.rz_core.specs.Decided.{Decided};
ghost use Rattle.rz_expr.specs.Term.{Term};
ghost use Rattle.rz_lex.specs.declared.token.Token.{Token};
ghost use Rattle.rz_stmt_fields.specs.FieldForm.{IsFieldFront};
ghost use Rattle.rz_stmt_fields.specs.FieldFront.{IsFront};
ghost use Rattle.rz_stmt_fields.specs.FieldValue.{IsSizeExpression};
ghost use Rattle.rz_stmt_fields.specs.FieldWord.{front_in, FieldFront};
ghost use Rattle.rz_stmt_fields.specs.Form.{FieldForm};
ghost use Rattle.rz_stmt_fields.specs.Key.{IsKey};

use rz_expr::{expressions_are_decided, one_expression};
use rz_stmt_brackets::{partings_are_decided, pieces_are_cut};

/// A law, with nothing to run: tokens have this front of a field exactly where `unsigned` and a radix, once each at
/// most and in either order, stand before the word that says what the field is.
pub fn words_before_fields()
    ensures { (tokens : List Token) (front : FieldFront) → (front_in false None tokens ≡ Some front) ↔ IsFront tokens front }
{}

/// A law, with nothing to run: of all tokens it is decided which front of a field they have, which key of a case they
/// are, and which expression of a size; and of each front which field it begins, of those that are no texts and have no
/// fields of their own: there is one, or none.
pub fn flat_fields_are_decided()
    ensures front { (tokens : List Token) → (answer : Option FieldFront) × Decided (IsFront tokens) answer }
    ensures field { (front : FieldFront) → (answer : Option FieldForm) × Decided (IsFieldFront front) answer }
    ensures key { (tokens : List Token) → (answer : Option FieldForm) × Decided (IsKey tokens) answer }
    ensures expression { (tokens : List Token) → (answer : Option Term) × Decided (IsSizeExpression tokens) answer }
{
    one_expression();
    expressions_are_decided();
    pieces_are_cut();
    partings_are_decided();
}
