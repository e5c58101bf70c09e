//! Laws of reading: plain rows are read, one at most for given bytes. What bytes tell is in `specs/Reading`.

ghost use Rattle.std.specs.Prelude.{◌≡◌, true, ℕ, List, Option, Some};
ghost use Rattle.rz_core.specs.Decided.{Decided};
ghost use Rattle.rz_core.specs.declared.facts.Facts.{Facts};
ghost use Rattle.rz_types_fields.specs.declared.tree.Tree.{Tree};
ghost use Rattle.rz_types_fields.specs.Spells.{SpellsPlainly};
ghost use Rattle.rz_types.specs.Field.{PlainBody};
ghost use Rattle.rz_types.specs.Readable.{is_readable};
ghost use Rattle.rz_types.specs.Rules.{keeps_rules};
ghost use Rattle.rz_types.specs.Shape.{is_well_shaped};
ghost use Rattle.rz_unlay.specs.Cursor.{reading};
ghost use Rattle.rz_unlay.specs.Reading.{IsTold};

use crate::spelled::{read_rows_are_plain, spelled_bytes_are_few};
use rz_bits::{
    bytes_are_read_back, filled_to_a_multiple, numbers_are_read_back, numbers_are_written_back,
};
use rz_types::keys_stand_apart;

/// A law, with nothing to run: under a declaration that can be read, a row that spells bytes plainly is read of them.
pub fn plain_rows_are_read()
    ensures { (known : Facts) (body : PlainBody) (row : List Tree) (bytes : List ℕ) → is_well_shaped body ≡ true → keeps_rules body ≡ true
        → is_readable body ≡ true → SpellsPlainly known body row bytes → reading known body bytes ≡ Some row }
{
    numbers_are_read_back();
    numbers_are_written_back();
    bytes_are_read_back();
    filled_to_a_multiple();
    keys_stand_apart();
}

/// A law, with nothing to run: under a declaration that can be read, two rows that spell the same bytes plainly are equal.
pub fn one_plain_row()
    ensures { (known : Facts) (body : PlainBody) (row other : List Tree) (bytes : List ℕ) → is_well_shaped body ≡ true → keeps_rules body ≡ true
        → is_readable body ≡ true → SpellsPlainly known body row bytes → SpellsPlainly known body other bytes → row ≡ other }
{
    plain_rows_are_read();
}

/// A law, with nothing to run: under a declaration it is decided of all bytes which row they tell: there is one that they
/// tell, or none.
pub fn told_rows_are_decided()
    ensures { (known : Facts) (body : PlainBody) (bytes : List ℕ) → is_well_shaped body ≡ true → keeps_rules body ≡ true
        → (answer : Option (List Tree)) × Decided (IsTold known body bytes) answer }
{
    plain_rows_are_read();
    read_rows_are_plain();
    spelled_bytes_are_few();
}
