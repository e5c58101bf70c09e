//! The law that a row spells one list of bytes, or has one refusal. See `specs/Compiled`.

ghost use Rattle.std.specs.Prelude.{◌≡◌, true, ℕ, List};
ghost use Rattle.std.specs.declared.result.Result.{Result};
ghost use Rattle.rz_core.specs.declared.facts.Facts.{Facts};
ghost use Rattle.rz_layout.specs.Compiled.{IsCompiled};
ghost use Rattle.rz_types_fields.specs.declared.tree.Tree.{Tree};
ghost use Rattle.rz_types_fields.specs.Laid.{Refusal};
ghost use Rattle.rz_types_fields.specs.Row.{IsRow};
ghost use Rattle.rz_types.specs.Field.{PlainBody};
ghost use Rattle.rz_types.specs.Rules.{keeps_rules};

use rz_bits::{
    bits_are_written_back, bytes_are_read_back, filled_to_a_multiple, numbers_are_read_back,
    numbers_are_written_back,
};
use rz_types::rules_hold_within;

/// A law, with nothing to run: under the fields of a type that keep the rules a row spells exactly one list of bytes,
/// or has exactly one refusal, and never both.
pub fn one_spelling()
    ensures some { (known : Facts) (body : PlainBody) (row : List Tree) → keeps_rules body ≡ true → IsRow body row
        → (answer : Result (List ℕ) Refusal) × IsCompiled known body row answer }
    ensures one { (known : Facts) (body : PlainBody) (row : List Tree)
        → (answer other : Result (List ℕ) Refusal) → IsCompiled known body row answer → IsCompiled known body row other → answer ≡ other }
{
    bytes_are_read_back();
    bits_are_written_back();
    filled_to_a_multiple();
    numbers_are_read_back();
    numbers_are_written_back();
    rules_hold_within();
}
