//! Laws of what is read and spelled: rows that are read spell their bytes. Reading is defined in `specs/Cursor`.

ghost use Rattle.std.specs.Prelude.{◌≡◌, ◌≤◌, ◌<◌, true, ℕ, length, List, slice_index, Some};
ghost use Rattle.rz_core.specs.declared.facts.Facts.{Facts};
ghost use Rattle.rz_types_fields.specs.declared.tree.Tree.{Tree};
ghost use Rattle.rz_types_fields.specs.Row.{IsRow};
ghost use Rattle.rz_types_fields.specs.Spells.{Spells, SpellsPlainly};
ghost use Rattle.rz_types.specs.Field.{PlainBody};
ghost use Rattle.rz_types.specs.Readable.{is_readable};
ghost use Rattle.rz_types.specs.Rules.{keeps_rules};
ghost use Rattle.rz_types.specs.Shape.{is_well_shaped};
ghost use Rattle.rz_unlay.specs.Cursor.{reading};

use rz_bits::{
    bits_are_written_back, filled_to_a_multiple, numbers_are_read_back, numbers_are_written_back,
};
use rz_types::rules_hold_within;

/// A law, with nothing to run: under a declaration that can be read, a row that is read of at most 16,777,212 bytes spells
/// them plainly.
pub fn read_rows_are_plain()
    ensures { (known : Facts) (body : PlainBody) (row : List Tree) (bytes : List ℕ) → is_well_shaped body ≡ true → keeps_rules body ≡ true
        → is_readable body ≡ true → length bytes ≤ 16777212 → ((k : ℕ) → slice_index bytes k < 256)
        → reading known body bytes ≡ Some row → SpellsPlainly known body row bytes }
{
    bits_are_written_back();
    numbers_are_read_back();
    numbers_are_written_back();
    rules_hold_within();
}

/// A law, with nothing to run: what spells bytes under the fields of a type, plainly or not, is a row of it.
pub fn spelled_rows_are_rows()
    ensures spelled { (known : Facts) (body : PlainBody) (row : List Tree) (bytes : List ℕ) → Spells known body row bytes → IsRow body row }
    ensures plainly { (known : Facts) (body : PlainBody) (row : List Tree) (bytes : List ℕ) → SpellsPlainly known body row bytes → IsRow body row }
{}

/// A law, with nothing to run: a row that spells bytes plainly spells them.
pub fn plain_rows_are_spelled()
    ensures { (known : Facts) (body : PlainBody) (row : List Tree) (bytes : List ℕ) → SpellsPlainly known body row bytes → Spells known body row bytes }
{}

/// A law, with nothing to run: a row spells at most 16,777,212 bytes, plainly or not.
pub fn spelled_bytes_are_few()
    ensures spelled { (known : Facts) (body : PlainBody) (row : List Tree) (bytes : List ℕ) → Spells known body row bytes → length bytes ≤ 16777212 }
    ensures plainly { (known : Facts) (body : PlainBody) (row : List Tree) (bytes : List ℕ) → SpellsPlainly known body row bytes → length bytes ≤ 16777212 }
{
    filled_to_a_multiple();
}
