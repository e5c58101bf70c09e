//! The law that compiling and reading are inverse; which bytes a row spells, as a list of placed pieces; and what these are
//! shown while the row is laid. See `specs/Inverse`, `specs/Placed` and `specs/Shown`.

ghost use Rattle.std.specs.Prelude.{◌≡◌, ◌<◌, ◌≤◌, ◌↔◌, true, ℕ, length, List, Ok, slice_index, Some};
ghost use Rattle.rz_core.specs.declared.facts.Facts.{Facts};
ghost use Rattle.rz_bits.specs.Bits.{bits_of};
ghost use Rattle.rz_laws.specs.Flat.{flat_row, nothing_drafted};
ghost use Rattle.rz_types_fields.specs.declared.tree.Tree.{Tree};
ghost use Rattle.rz_types_fields.specs.Laid.{laid};
ghost use Rattle.rz_types_fields.specs.Row.{IsRow};
ghost use Rattle.rz_types_fields.specs.Spells.{anyhow, plainly, values_in, Spells, SpellsPlainly};
ghost use Rattle.rz_types.specs.Field.{PlainBody};
ghost use Rattle.rz_types.specs.Readable.{is_readable};
ghost use Rattle.rz_types.specs.Rules.{keeps_rules};
ghost use Rattle.rz_types.specs.Shape.{is_well_shaped};
ghost use Rattle.rz_unlay.specs.Cursor.{reading};
ghost use Rattle.rz_unlay.specs.Reading.{IsTold};
ghost use Rattle.rz_laws.specs.Inverse.{CompilesPlainly, IsPlain};
ghost use Rattle.rz_laws.specs.Placed.{IsPlaced};
ghost use Rattle.rz_laws.specs.Shown.{AreShown};

use rz_bits::{
    bits_are_written_back, bytes_are_read_back, filled_to_a_multiple, numbers_are_read_back,
    numbers_are_written_back,
};
use rz_layout::one_spelling;
use rz_types::rules_hold_within;
use rz_unlay::{plain_rows_are_read, plain_rows_are_spelled, read_rows_are_plain};

/// A law, with nothing to run: under fields that can be read, bytes tell a row exactly if the row compiles to these bytes
/// and is plain: the bytes to which it compiles it spells plainly.
///
/// So it is of what [`rz_unlay::read`] finds against what [`rz_layout::lay_row`] gives; and of the two definitions that go
/// step by step as these do: under the fields of a template that can be read, a row is read of at most 16,777,212 bytes
/// exactly if the bytes are laid of it and it is plain.
pub fn rows_and_bytes_are_inverse()
    ensures told { (known : Facts) (body : PlainBody) (row : List Tree) (bytes : List ℕ) → is_readable body ≡ true
        → IsTold known body bytes row ↔ CompilesPlainly known body row bytes }
    ensures steps { (known : Facts) (body : PlainBody) (row : List Tree) (bytes : List ℕ) → is_well_shaped body ≡ true → keeps_rules body ≡ true
        → is_readable body ≡ true → length bytes ≤ 16777212 → ((k : ℕ) → slice_index bytes k < 256) → IsRow body row
        → (reading known body bytes ≡ Some row) ↔ ((laid known body row ≡ Ok bytes) × IsPlain known body row) }
{
    bytes_are_read_back();
    bits_are_written_back();
    filled_to_a_multiple();
    numbers_are_read_back();
    numbers_are_written_back();
    rules_hold_within();
    one_spelling();
    plain_rows_are_spelled();
    read_rows_are_plain();
    plain_rows_are_read();
}

/// A law, with nothing to run: a row spells bytes, at most 16,777,212 of them, exactly if there is a list of its pieces, each
/// at the place where the one before it ended, with the bits that it has there by the finished names of its body.
///
/// The pieces are those of the fields, in order. All bits are theirs, but for zero bits to a whole byte. A number among them is
/// late if its expression names a label that stands after it, or reads bits of a late number before it; no text has such an expression. And a
/// row spells bytes plainly exactly if there is such a list of plain pieces, and it has at most 1,048,576 values.
pub fn rows_are_placed_pieces()
    ensures spelled { (known : Facts) (body : PlainBody) (row : List Tree) (bytes : List ℕ)
        → Spells known body row bytes ↔ IsPlaced anyhow known body row bytes }
    ensures plain { (known : Facts) (body : PlainBody) (row : List Tree) (bytes : List ℕ)
        → SpellsPlainly known body row bytes ↔ (IsPlaced plainly known body row bytes × (values_in row ≤ 1048576)) }
{}

/// A law, with nothing to run: while a row that spells bytes is laid, all that a piece is shown of names, bits and facts is so
/// in the end.
///
/// Each name has no value yet, or the one that the finished names of the body of the piece give it; each number in bits is
/// not there yet, reads a late bit, or is the one that stands there; and the facts are the same.
pub fn laid_rows_are_shown_what_is_finished()
    ensures { (known : Facts) (body : PlainBody) (row : List Tree) (bytes : List ℕ)
        (placed : IsPlaced anyhow known body row bytes)
        → AreShown known (bits_of bytes) nothing_drafted (flat_row body row) placed.pieces }
{}
