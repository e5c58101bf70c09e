//! Laws of the entries that tokens are. See `specs/Entries`.

ghost use Rattle.std.specs.Prelude.{◌≡◌, ◌<◌, ℕ, List, Ok, Err};
ghost use Rattle.std.specs.List.{AllByRecursion};
ghost use Rattle.std.specs.declared.result.Result.{Result};
ghost use Rattle.rz_core.specs.Message.{IsNameable};
ghost use Rattle.rz_core.specs.declared.fault.Fault.{Fault};
ghost use Rattle.rz_lex.specs.declared.token.Token.{Token};
ghost use Rattle.rz_catalog_text.specs.Entries.{AreEntries};
ghost use Rattle.rz_catalog_text.specs.Stored.{AreEntriesIn};
ghost use Rattle.rz_catalog_text.specs.declared.entry.Entry.{Entry};

use rz_lex::one_sign;

/// A law, with nothing to run: tokens are one list of entries at most, or have one fault.
pub fn one_list_of_entries()
    ensures { (tokens : List Token) (one other : Result (List Entry) Fault) → AreEntries tokens one → AreEntries tokens other → one ≡ other }
{}

/// A law, with nothing to run: of all tokens it is decided whether they are entries: they are a list of entries, or
/// have a fault.
pub fn every_list_of_entries()
    ensures { (tokens : List Token) → (answer : Result (List Entry) Fault) × AreEntries tokens answer }
{
    one_sign();
}

/// A law, with nothing to run: of tokens whose marks are of one of so many files, the fault can be told, and the marks
/// of the entries are of one of these files.
pub fn entries_are_in_files()
    ensures fault { (files : ℕ) (tokens : List Token) (fault : Fault) → AllByRecursion (λ token. token.mark.file < files) tokens
        → AreEntries tokens (Err fault) → IsNameable files fault }
    ensures entries { (files : ℕ) (tokens : List Token) (entries : List Entry) → AllByRecursion (λ token. token.mark.file < files) tokens
        → AreEntries tokens (Ok entries) → AreEntriesIn files entries }
{}
