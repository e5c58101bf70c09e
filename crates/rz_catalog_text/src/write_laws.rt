//! A law of the text of entries. See `specs/Text`.

ghost use Rattle.std.specs.Prelude.{◌≡◌, ◌++◌, List};
ghost use Rattle.rz_catalog_text.specs.declared.entry.Entry.{Entry};
ghost use Rattle.rz_catalog_text.specs.Text.{entries_text};

/// A law, with nothing to run: the text of entries is that of the first and then that of the others.
pub fn entries_go_on()
    ensures { (front back : List Entry) → entries_text (front ++ back) ≡ entries_text front ++ entries_text back }
{}
