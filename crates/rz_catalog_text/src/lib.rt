//! Catalogues of texts as text, and back: lists of entries, each a text of a resource and which text of it that is.
//! `write_entry` writes an entry on lines of its own, which are exactly their definition. `read_entries` gives the
//! entries that tokens are, and `entries_in` those of the file of a catalogue, or exactly the first fault. The laws say
//! that there is one answer, and that what is written of entries is read as the same entries again, also as a file.
//! It rests on `rz_core`, `rz_lex`, `rz_pre_source` and `rz_pre`, which turn sources into Mac Roman, and on
//! `rz_show_lines`, whose lines it writes.
//! Another form of an entry changes `specs/Entries`, `specs/Read` and `read`, `specs/Text` and `write`, and
//! `proofs/Back`; another form of the file changes `specs/Source`, `source` and `proofs/Stored`.
#![tactic(auto)]

mod entry;
mod entry_laws;
mod laws;
mod read;
mod source;
mod source_laws;
mod write;
mod write_laws;

pub use entry::{Entries, Entry};
pub use entry_laws::{entries_are_in_files, every_list_of_entries, one_list_of_entries};
pub use laws::{written_catalogues_are_read, written_entries_are_read};
pub use read::read_entries;
pub use source::entries_in;
pub use source_laws::{every_source_has_entries, one_list_of_a_source};
pub use write::write_entry;
pub use write_laws::entries_go_on;
