//! Laws of entries that are written and read. See `specs/Back`.

ghost use Rattle.std.specs.Prelude.{◌≡◌, ℕ, List, map, Ok};
ghost use Rattle.std.specs.List.{AllByRecursion};
ghost use Rattle.rz_catalog_text.specs.Stored.{unmarked, IsStored};
ghost use Rattle.rz_catalog_text.specs.declared.entry.Entry.{Entry};
ghost use Rattle.rz_catalog_text.specs.Source.{HasEntries};
ghost use Rattle.rz_catalog_text.specs.Text.{entries_text};
ghost use Rattle.rz_catalog_text.specs.Back.{AreReadBack};

use rz_lex::lines_of_page;
use rz_show_lines::{printed_line, printed_page};

/// A law, with nothing to run: the text of entries is lines that are cut into tokens, wherever it stands, and tokens
/// like these, whatever lines they stand on, are the same entries, but for their marks.
pub fn written_entries_are_read()
    ensures { (entries : List Entry) → AllByRecursion IsStored entries → AreReadBack entries }
{
    lines_of_page();
    printed_line();
    printed_page();
}

/// A law, with nothing to run: a file that has the text of entries, whose types, ids, numbers and texts are in their
/// ranges, has the same entries, but for their marks, at whatever position of the list of files it stands.
pub fn written_catalogues_are_read()
    ensures { (entries : List Entry) → AllByRecursion IsStored entries → (file : ℕ)
        → (back : List Entry) × HasEntries file (entries_text entries) (Ok back) × (map unmarked back ≡ map unmarked entries) }
{
    written_entries_are_read();
}
