//! Laws of the files of catalogues: each has entries or one first fault.

ghost use Rattle.std.specs.Prelude.{◌≡◌, ℕ, List};
ghost use Rattle.std.specs.declared.result.Result.{Result};
ghost use Rattle.rz_core.specs.declared.fault.Fault.{Fault};
ghost use Rattle.rz_catalog_text.specs.declared.entry.Entry.{Entry};
ghost use Rattle.rz_catalog_text.specs.Source.{HasEntries};

use crate::{every_list_of_entries, one_list_of_entries};
use rz_lex::{every_text_is_lexed, one_lex};
use rz_pre_source::{every_source_is_read, one_text};

/// A law, with nothing to run: a file has one list of entries or one first fault at most.
pub fn one_list_of_a_source()
    ensures { (file : ℕ) (source : List ℕ) (one other : Result (List Entry) Fault) → HasEntries file source one → HasEntries file source other → one ≡ other }
{
    one_text();
    one_lex();
    one_list_of_entries();
}

/// A law, with nothing to run: each file has entries or a first fault; [`one_list_of_a_source`] says that it has no
/// other.
pub fn every_source_has_entries()
    ensures { (file : ℕ) (source : List ℕ) → (answer : Result (List Entry) Fault) × HasEntries file source answer }
{
    every_source_is_read();
    every_text_is_lexed();
    every_list_of_entries();
}
