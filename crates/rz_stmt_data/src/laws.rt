//! Laws of texts, names of files, heads and `data` statements. They speak of the definitions in `specs`.

ghost use Rattle.std.specs.Prelude.{◌≡◌, ℕ, false, true, List, Option};
ghost use Rattle.rz_core.specs.Decided.{Decided};
ghost use Rattle.rz_expr.specs.Grammar.{IsExpression};
ghost use Rattle.rz_expr.specs.Term.{Term};
ghost use Rattle.rz_types_fields.specs.Text.{PlainPart};
ghost use Rattle.rz_types_fields.specs.declared.place.TextPlace.{TextPlace};
ghost use Rattle.rz_lex.specs.declared.token.Token.{Token};
ghost use Rattle.rz_stmt_data.specs.Files.{IsFile};
ghost use Rattle.rz_stmt_data.specs.Head.{Head, IsHeadFor};
ghost use Rattle.rz_stmt_data.specs.Raw.{IsRaw, Raw};
ghost use Rattle.rz_stmt_data.specs.Texts.{begins_text, AreParts, IsText};
ghost use Rattle.rz_stmt_data.specs.declared.head.Subject.{Subject};

use rz_expr::{expressions_are_decided, one_expression};
use rz_stmt_brackets::partings_are_decided;

/// A law, with nothing to run: tokens are one text at most, wherever it stands, and its first token begins a text. No
/// expression begins so.
pub fn one_text()
    ensures one { (tokens : List Token) (parts others : List PlainPart) → AreParts tokens parts → AreParts tokens others → parts ≡ others }
    ensures begins { (place : TextPlace) (tokens : List Token) (parts : List PlainPart) → IsText place tokens parts → begins_text tokens ≡ true }
    ensures apart { (tokens : List Token) (term : Term) → IsExpression tokens term → begins_text tokens ≡ false }
{
    one_expression();
}

/// A law, with nothing to run: tokens are one `data` statement at most.
pub fn one_data()
    ensures { (tokens : List Token) (raw other : Raw) → IsRaw tokens raw → IsRaw tokens other → raw ≡ other }
{
    one_expression();
}

/// A law, with nothing to run: of all tokens it is decided which file they name, which parts of a text they are, one
/// after the other, and which text in each place: there is one that they are, or none.
pub fn texts_are_decided()
    ensures file { (tokens : List Token) → (answer : Option (List ℕ)) × Decided (IsFile tokens) answer }
    ensures parts { (tokens : List Token) → (answer : Option (List PlainPart)) × Decided (AreParts tokens) answer }
    ensures text { (place : TextPlace) (tokens : List Token) → (answer : Option (List PlainPart)) × Decided (IsText place tokens) answer }
{
    one_expression();
    expressions_are_decided();
    partings_are_decided();
}

/// A law, with nothing to run: of all pieces it is decided which head they are, and of all tokens which `data`
/// statement: there is one that they are, or none.
pub fn data_statements_are_decided()
    ensures head { (subject : Subject) (pieces : List (List Token)) → (answer : Option Head) × Decided (IsHeadFor subject pieces) answer }
    ensures statement { (tokens : List Token) → (answer : Option Raw) × Decided (IsRaw tokens) answer }
{
    one_expression();
    expressions_are_decided();
    partings_are_decided();
}
