//! The values that statements say: those of headers, the one resource that an id or a name is for, what the files give
//! that statements and strings name, and the contents of a resource. Each gives exactly what its definition says, or
//! the first fault; no file changes. A resource of a file is lent where it stands in the file's fork: of those that
//! aren't asked for nothing is copied.
//! It rests on `rz_core`, `rz_folder`, `rz_expr`, `rz_pre`, of which it needs which tool reads, `rz_types_fields`,
//! `rz_types`, `rz_stmt_data`, `rz_fork`, `rz_bridge`, `rz_bridge_files` and `rz_set`, and on `bitflags` for
//! attributes.
//! A new part of a header changes `head`, and `renaming` of `rz_tools_work`; a new part of a string that names a file
//! is a case of `texts`; what holds for all statements is `Setting`, and what is the same for all that one statement
//! does is `Around`.
#![tactic(auto)]

mod around;
mod chosen;
mod contents;
mod files;
mod head;
mod laws;
mod lent;
mod named;
mod setting;
mod texts;

pub use around::Around;
pub use chosen::{chosen_in_fork, chosen_in_set, id_said, sought_by};
pub use contents::{contents_of, short_bytes, with_bytes};
pub use files::{file_named, file_of_name};
pub use head::{bits_of, facts_of, head_facts, id_of, keeps_number, name_of};
pub use laws::{fileless_texts_stay, list_named_is_of_the_file};
pub use lent::{found_in, found_name_in, picked_in};
pub use named::names_file;
pub use setting::Setting;
pub use texts::read_texts;
