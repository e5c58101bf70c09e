//! Laws: the text that is shown is read again as what was shown. They speak of the definitions in `specs`.

ghost use Rattle.std.specs.Prelude.{◌≡◌, true, false, ℕ, List, Bool};
ghost use Rattle.rz_show_lines.specs.Print.{Prints};
ghost use Rattle.rz_show_lines.specs.Good.{AreGood};
ghost use Rattle.rz_show.specs.Printable.{AreOfBytes, SparesTruth};
ghost use Rattle.rz_show.specs.Shown.{row_prints, row_uses};
ghost use Rattle.rz_types_fields.specs.declared.tree.Tree.{Tree};
ghost use Rattle.rz_types_fields.specs.Row.{IsRow};
ghost use Rattle.rz_types.specs.Field.{PlainBody};
ghost use Rattle.rz_types.specs.Rules.{keeps_rules};
ghost use Rattle.rz_types.specs.Shape.{is_well_shaped};
ghost use Rattle.std.specs.List.{AllByRecursion};
ghost use Rattle.rz_core.specs.declared.facts.Facts.{Facts};
ghost use Rattle.rz_show_laws.specs.Short.{AreShortTexts};
ghost use Rattle.rz_show.specs.Showing.{showings_text, Showing};
ghost use Rattle.rz_show_laws.specs.Showable.{CanBeShown};
ghost use Rattle.rz_show_laws.specs.Statement.{IsPrintedAs};
ghost use Rattle.rz_types_fields.specs.Spells.{Spells, SpellsPlainly};

use rz_lex::lines_of_page;
use rz_show_lines::{printed_line, printed_lines, printed_page};
use rz_types::rules_hold_within;

/// A law, with nothing to run: the items that are shown of a row, in front of others, may be written, and no word of
/// them is a live macro. The row is one of fields that are well shaped and keep the rules; its texts are bytes;
/// no case that it chooses has the name of a live macro, and `true` and `false` are none.
pub fn printed_rows()
    ensures { (hidden : List ℕ → Bool) (body : PlainBody) (row : List Tree) (more : Prints) → SparesTruth hidden
        → is_well_shaped body ≡ true → keeps_rules body ≡ true → IsRow body row → AreOfBytes body row
        → row_uses hidden body row ≡ false → AreGood hidden more → AreGood hidden (row_prints hidden body row more) }
{
    rules_hold_within();
}

/// A law, with nothing to run: the text of resources, each shown by its bytes or by a row of fields that keep the rules,
/// whose texts are no longer than their lengths can say and whose cases have no names of live macros, is lines that are
/// cut into tokens, wherever it stands. Their words are those of statements, of attributes and of truth, and names that
/// are no live macros. Such tokens, on whatever lines, are statements within the limits, one for each resource: with its
/// type, id, name and attributes the `data` statement of its bytes, or the `resource` statement of items that fit the
/// row. `true` and `false` are no live macros.
pub fn shown_text()
    ensures { (hidden : List ℕ → Bool) (list : List Showing) → SparesTruth hidden → AllByRecursion (CanBeShown hidden) list
        → IsPrintedAs hidden (showings_text hidden list) list }
{
    lines_of_page();
    rules_hold_within();
    printed_rows();
    printed_line();
    printed_lines();
    printed_page();
}

/// A law, with nothing to run: of a row that spells bytes no text without a size is longer than its length can say; and
/// of one that spells them plainly the texts are bytes.
pub fn spelled_texts()
    ensures short { (known : Facts) (body : PlainBody) (row : List Tree) (bytes : List ℕ) → Spells known body row bytes
        → AreShortTexts body row }
    ensures plain_short { (known : Facts) (body : PlainBody) (row : List Tree) (bytes : List ℕ) → SpellsPlainly known body row bytes
        → AreShortTexts body row }
    ensures bytes { (known : Facts) (body : PlainBody) (row : List Tree) (bytes : List ℕ) → SpellsPlainly known body row bytes
        → AreOfBytes body row }
{}
