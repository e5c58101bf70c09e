//! The entries of a file. See `specs/Source`.

ghost use Rattle.std.specs.Prelude.{◌<◌, ◌+◌, ◌^◌, length, IfOk};
ghost use Rattle.rz_core.specs.Message.{IsNameable};
ghost use Rattle.rz_core.specs.Stop.{Meets, OnFault};
ghost use Rattle.rz_catalog_text.specs.Stored.{AreEntriesIn};
ghost use Rattle.rz_catalog_text.specs.Source.{HasEntries, HaveEntries};

use crate::{Entries, entries_are_in_files, read_entries};
use rz_core::{Bytes, Fault, Stop};
use rz_lex::lex;
use rz_pre::text_of;
use std::alloc::Global;

/// The entries of the file of a catalogue, which stands at this position of the list of files. Its bytes are Mac Roman,
/// or UTF-8 after the mark EF BB BF; its text is cut into tokens as a source is, without directives, and these are
/// entries.
///
/// Refused is the first fault: 102 for what has no place in Mac Roman, then those of tokens (107 to 111, 113, 115),
/// then 461 for what is no entry, each with a mark in this file. (MPW Rez.)
pub fn entries_in(alloc: Global, source: Bytes, file: u64) -> Result<Entries, Stop<Fault>>
    requires { length source < 2 ^ 32 }
    ensures entries { Meets result (HasEntries file source) }
    ensures placed { IfOk result (AreEntriesIn (file + 1)) }
    ensures nameable { OnFault result (IsNameable (file + 1)) }
{
    match text_of(alloc, file, source) {
        Ok(text) => entries_of(alloc, text.as_slice(), file),
        Err(stop) => Err(stop),
    }
}

/// The entries of a text.
fn entries_of(alloc: Global, text: &[u8], file: u64) -> Result<Entries, Stop<Fault>>
    requires { length text.now < 2 ^ 32 }
    ensures entries { Meets result (HaveEntries file text.now) }
    ensures placed { IfOk result (AreEntriesIn (file + 1)) }
    ensures nameable { OnFault result (IsNameable (file + 1)) }
{
    entries_are_in_files();
    match lex(alloc, text, file) {
        Ok(tokens) => read_entries(alloc, &tokens),
        Err(stop) => Err(stop),
    }
}
