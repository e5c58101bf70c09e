//! Laws of `type` statements, and of the values of symbols. They speak of the definitions in `specs`.

ghost use Rattle.std.specs.Prelude.{◌≡◌, ◌↔◌, true, Bool, ℤ, List, Err, Ok, Option};
ghost use Rattle.rz_core.specs.Decided.{Decided};
ghost use Rattle.rz_core.specs.declared.fault.Fault.{Fault};
ghost use Rattle.rz_core.specs.declared.fault.Mark.{Mark};
ghost use Rattle.rz_lex.specs.Lexeme.{AreLexed};
ghost use Rattle.rz_lex.specs.declared.token.Token.{Token};
ghost use Rattle.rz_stmt_brackets.specs.Limit.{is_within_limits};
ghost use Rattle.rz_types_fields.specs.declared.field.Symbol.{Symbol};
ghost use Rattle.rz_stmt_type.specs.Constants.{declared, Declare};
ghost use Rattle.rz_stmt_type.specs.Declare.{IsDeclare};
ghost use Rattle.rz_stmt_fields.specs.Form.{DeclareForm, NamedTerm};
ghost use Rattle.rz_stmt_type.specs.GoOn.{GoWrong, HaveValues};
ghost use Rattle.rz_stmt_type.specs.Shaped.{IsShapedMade};
ghost use Rattle.rz_stmt_type.specs.Values.{values_of};

use rz_expr::{expressions_are_decided, one_expression};
use rz_stmt_brackets::{partings_are_decided, pieces_are_cut};
use rz_stmt_data::texts_are_decided;
use rz_stmt_fields::flat_fields_are_decided;

/// A law, with nothing to run: tokens are one `type` statement at most.
pub fn one_declare()
    ensures { (tokens : List Token) (form other : DeclareForm) → IsDeclare tokens form → IsDeclare tokens other → form ≡ other }
{
    one_expression();
    pieces_are_cut();
}

/// A law, with nothing to run: of all tokens it is decided which `type` statement they are: there is one that they are,
/// or none.
pub fn type_statements_are_decided()
    ensures { (tokens : List Token) → (answer : Option DeclareForm) × Decided (IsDeclare tokens) answer }
{
    one_expression();
    expressions_are_decided();
    partings_are_decided();
    texts_are_decided();
    flat_fields_are_decided();
}

/// A law, with nothing to run: symbols have these values exactly where there are as many as names; each has its
/// name, a value in the range, and the one that is given, or else one more than the symbol before, wrapped to 32
/// bits; the first value at the front. They have this fault exactly where some symbols at the front have such
/// values, and the one after them has that fault: that of the value that is given, or 207 for a value outside
/// the range.
pub fn symbols_have_values()
    ensures values { (fits : ℤ → Bool) (mark : Mark) (names : List NamedTerm) (first : ℤ) (symbols : List Symbol)
        → (values_of fits mark first names ≡ Ok symbols) ↔ HaveValues fits mark first names symbols }
    ensures fault { (fits : ℤ → Bool) (mark : Mark) (names : List NamedTerm) (first : ℤ) (fault : Fault)
        → (values_of fits mark first names ≡ Err fault) ↔ GoWrong fits mark first names fault }
{}

/// A law, with nothing to run: what a `type` statement within its limits makes of tokens that lines can be cut into is
/// well shaped, with all that is in its arrays and switches. Each symbol has a value in the range and a name, which is a
/// word of at most 255 bytes; a type has the width that is its own; fixed values are fixed expressions, and sizes size
/// expressions; a fixed text has one part or more, a point two numbers and a rectangle four; units are 1, 4, 8, 16 or
/// 32 bits, and of `align` not 1; the names of arrays and cases are such words, and those of labels words of at most 255
/// bytes that mean nothing else; a key stands directly in a case, and its value is a constant that has one; arrays and
/// switches stand at most 60 deep in one another. A copy of another type has no fields of its own. (MPW Rez.)
pub fn declarations_are_shaped()
    ensures { (tokens : List Token) (form : DeclareForm) (mark : Mark) (declare : Declare)
        → AreLexed tokens → is_within_limits tokens ≡ true → IsDeclare tokens form → declared mark form ≡ Ok declare
        → IsShapedMade declare.made }
{}
